//! Checks and counts of several named texts from memory.
ghost use Rattle.std.specs.Prelude.{⊤};

use super::checks::same;
use snap_check::{CheckOptions, RunFault};
use snap_core::Counted;
use snap_files::{Crew, FileOptions, Files, Format, check_all};
use snap_names::{Opener, Trouble};
use snap_testing::{Cup, Drip};
use snap_threads::Cutting;
use std::alloc::{AllocError, Global};
use std::io::Write;
use std::test::Fail;
use std::thread::Threads;

const STALE: &str = "\
event,process,op,data
begin,0,update,0:1:7
end,0,update,
begin,1,view,
end,1,view,
";

const INVERSION: &str = "\
event,process,op,data
begin,0,update,0:1:7
begin,1,view,
end,1,view,0:1:7
begin,2,view,
end,2,view,
end,0,update,
";

const BUSY: &str = "event,process,op,data\nbegin,0,view,\nbegin,0,view,\n";

// Opens texts that are kept here. The third read of `broken` fails, and `locked` is not opened.
struct Shelf;

impl Opener for Shelf {
    type Text = Drip<'static>;

    ghost opens = { λ _ _ _. ⊤ };

    fn open(&self, name: &[u8]) -> Result<Drip<'static>, Trouble> {
        match name {
            b"stale" | b"st\xffale" => Ok(Drip::new(STALE.as_bytes(), 0)),
            b"inversion" | b"in\nver\\sion" => Ok(Drip::new(INVERSION.as_bytes(), 0)),
            b"busy" => Ok(Drip::new(BUSY.as_bytes(), 0)),
            b"broken" => Ok(Drip::new(STALE.as_bytes(), 3)),
            b"locked" | b"lo\xffcked" => Err(Trouble::Unopened),
            b"folder" => Err(Trouble::Folder),
            _ => Err(Trouble::Missing),
        }
    }

    fn unread(&self, _name: &[u8], _text: &Counted<Drip<'static>>) -> Trouble {
        Trouble::Unread
    }
}

fn names_of(alloc: Global, list: &[&[u8]]) -> Result<Vec<Vec<u8>>, AllocError> {
    let mut names = Vec::new(alloc);
    for name in list {
        names.push(Vec::from_slice(alloc, name)?)?;
    }
    Ok(names)
}

// How a check of these names ends, and what the error output then has.
fn check<Rt: Threads + Sync, W: Write>(
    rt: &Rt,
    alloc: Global,
    list: &[&[u8]],
    writer: &mut Counted<W>,
    format: Format,
    views: u32,
) -> Result<(Result<u8, RunFault>, Vec<u8>), Fail> {
    let names = names_of(alloc, list)?;
    let mut errors = Counted::new(Vec::new(alloc));
    let options = FileOptions {
        format,
        check: CheckOptions {
            quiet: true,
            views,
            ..CheckOptions::plain()
        },
    };
    let crew = Crew {
        rt,
        cutting: Cutting::usual(),
    };
    let files = Files {
        opener: &Shelf,
        names: names.as_slice(),
    };
    let answer = check_all(&crew, alloc, &files, writer, &mut errors, options);
    Ok((answer, errors.into_inner()))
}

// Some names, the number of views that is asked for, the status, what is written, and what is said.
const CHECKS: &[(&[&[u8]], u32, u8, &str, &str)] = &[
    (&[], 0, 0, "", ""),
    (
        &[b"stale", b"inversion"],
        0,
        2,
        "stale: regular no\nstale: monotone yes\nstale: atomic no\n\
         inversion: regular yes\ninversion: monotone no\ninversion: atomic no\n",
        "",
    ),
    (
        &[
            b"inversion",
            b"none",
            b"busy",
            b"locked",
            b"broken",
            b"folder",
        ],
        0,
        4,
        "inversion: regular yes\ninversion: monotone no\ninversion: atomic no\n\
         busy: refused record 3: busy\n",
        "snapjudge: none: no such file\nsnapjudge: locked: can't be opened\n\
         snapjudge: broken: read failed\nsnapjudge: folder: is a directory; check -r judges the files below it\n",
    ),
    (
        &[b"in\nver\\sion"],
        0,
        1,
        "in\\nver\\\\sion: regular yes\nin\\nver\\\\sion: monotone no\nin\\nver\\\\sion: atomic no\n",
        "",
    ),
    (
        &[b"stale", b"inversion"],
        2,
        3,
        "inversion: regular yes\ninversion: monotone no\ninversion: atomic no\n",
        "stale: refused: fewer than 2 views\n",
    ),
];

// The check of a list ends with the status, and writes and says this.
fn expect_checked<Rt: Threads + Sync>(
    rt: &Rt,
    alloc: Global,
    list: &[&[u8]],
    asked: (Format, u32),
    status: u8,
    written: &[u8],
    said: &[u8],
) -> Result<(), Fail> {
    let mut writer = Counted::new(Vec::new(alloc));
    let (answer, told) = check(rt, alloc, list, &mut writer, asked.0, asked.1)?;
    same(answer.ok(), Some(status))?;
    same(writer.into_inner().as_slice(), written)?;
    same(told.as_slice(), said)
}

#[test]
fn reports_stand_in_the_order_of_the_names(rt: HostRuntime) -> Result<(), Fail> {
    for (list, views, status, written, said) in CHECKS {
        let asked = (Format::Plain, *views);
        let (written, said) = (written.as_bytes(), said.as_bytes());
        expect_checked(&rt, rt.alloc(), list, asked, *status, written, said)?;
    }
    Ok(())
}

// A text with its object, names without a status among others, and what is said about them.
const OBJECTS: &str = "{\"name\":\"none\",\"status\":4,\"trouble\":\"no such file\"}\n\
    {\"name\":\"busy\",\"status\":3,\"refused\":{\"record\":3,\"fault\":\"busy\"}}\n\
    {\"name\":\"stale\",\"status\":3,\"too_few_views\":{\"views\":1,\"least\":2}}\n\
    {\"name\":\"locked\",\"status\":4,\"trouble\":\"can't be opened\"}\n\
    {\"name\":\"broken\",\"status\":4,\"trouble\":\"read failed\"}\n\
    {\"name\":\"folder\",\"status\":4,\"trouble\":\"is a directory; check -r judges the files below it\"}\n\
    {\"name\":\"in\\nver\\\\sion\",\"status\":1,\"events\":6,\"calls\":3,\"pending\":0,\"views\":2,\
    \"regular\":true,\"monotone\":false,\"atomic\":false,\"integrity\":null,\"proximity\":null,\
    \"read\":{\"count\":1,\
    \"view\":{\"call\":2,\"process\":1,\"op\":\"view\",\"begin\":3,\"end\":4,\
    \"entries\":[{\"component\":0,\"number\":1,\"value\":7}]},\
    \"other\":{\"call\":3,\"process\":2,\"op\":\"view\",\"begin\":5,\"end\":6,\"entries\":[]},\
    \"component\":0,\"differs\":[{\"component\":0,\"view_number\":1,\"other_number\":0,\
    \"update\":{\"call\":1,\"process\":0,\"op\":\"update\",\"begin\":2,\"end\":7,\
    \"entries\":[{\"component\":0,\"number\":1,\"value\":7}]}}]},\"write\":null}\n";

#[test]
fn each_name_has_its_object(rt: HostRuntime) -> Result<(), Fail> {
    let alloc = rt.alloc();
    let list: &[&[u8]] = &[
        b"none",
        b"busy",
        b"stale",
        b"locked",
        b"broken",
        b"folder",
        b"in\nver\\sion",
    ];
    let said = "snapjudge: none: no such file\nsnapjudge: locked: can't be opened\n\
         snapjudge: broken: read failed\nsnapjudge: folder: is a directory; check -r judges the files below it\n";
    let (written, said) = (OBJECTS.as_bytes(), said.as_bytes());
    expect_checked(&rt, alloc, list, (Format::Json, 2), 4, written, said)
}

// What texts have shown, among names without a status: in lines, and as objects.
const SHOWN: &[(Format, &str)] = &[
    (
        Format::Counts,
        "stale: events 4\nstale: calls 2\nstale: pending 0\nstale: views 1\nstale: updates 1\n\
        stale: processes 2\nstale: components 1\nstale: views that overlap an update 0\n\
        stale: views that overlap another view 0\nstale: views that overlap nothing 1\n\
        stale: updates that no view shows 1\nstale: most calls open at once 1\n\
        stale: events of the longest call 2\nstale: component 0 writer 0 updates 1 views 0\n\
        stale: nothing overlapped: this run shows nothing of concurrency\n\
        busy: refused record 3: busy\n",
    ),
    (
        Format::CountsObject,
        "{\"name\":\"stale\",\"status\":0,\"events\":4,\"calls\":2,\"pending\":0,\"views\":1,\"updates\":1,\
        \"processes\":2,\"components\":1,\"overlap_update\":0,\"overlap_view\":0,\"overlap_nothing\":1,\
        \"unshown\":1,\"most_open\":1,\"longest\":2,\"shows_concurrency\":false,\
        \"by_component\":[{\"component\":0,\"writer\":0,\"updates\":1,\"views\":0}]}\n\
        {\"name\":\"none\",\"status\":4,\"trouble\":\"no such file\"}\n\
        {\"name\":\"busy\",\"status\":3,\"refused\":{\"record\":3,\"fault\":\"busy\"}}\n",
    ),
];

#[test]
fn what_texts_have_shown_has_their_names(rt: HostRuntime) -> Result<(), Fail> {
    let list: &[&[u8]] = &[b"stale", b"none", b"busy"];
    let said = b"snapjudge: none: no such file\n";
    for (format, written) in SHOWN {
        let asked = (*format, 0);
        expect_checked(&rt, rt.alloc(), list, asked, 4, written.as_bytes(), said)?;
    }
    Ok(())
}

// In a report the bytes above 127 of a name that is not UTF-8 are escaped. In an object U+FFFD replaces them.
#[test]
fn a_name_need_not_be_unicode(rt: HostRuntime) -> Result<(), Fail> {
    let alloc = rt.alloc();
    let list: &[&[u8]] = &[b"lo\xffcked", b"st\xffale", b"st\xe2\x82ale"];
    let said =
        b"snapjudge: lo\\xffcked: can't be opened\nsnapjudge: st\\xe2\\x82ale: no such file\n";
    let report = b"st\\xffale: regular no\nst\\xffale: monotone yes\nst\\xffale: atomic no\n";
    expect_checked(&rt, alloc, list, (Format::Plain, 0), 4, report, said)?;
    let objects = "{\"name\":\"lo\u{fffd}cked\",\"status\":4,\"trouble\":\"can't be opened\"}\n\
         {\"name\":\"st\u{fffd}ale\",\"status\":3,\"too_few_views\":{\"views\":1,\"least\":2}}\n\
         {\"name\":\"st\u{fffd}ale\",\"status\":4,\"trouble\":\"no such file\"}\n";
    let objects = objects.as_bytes();
    expect_checked(&rt, alloc, list, (Format::Json, 2), 4, objects, said)
}

#[test]
fn a_full_writer_ends_the_check(rt: HostRuntime) -> Result<(), Fail> {
    let alloc = rt.alloc();
    let mut writer = Counted::new(Cup::new(alloc, 20, 100, true, false));
    let (answer, _) = check(
        &rt,
        alloc,
        &[b"stale", b"none"],
        &mut writer,
        Format::Plain,
        0,
    )?;
    match answer {
        Err(RunFault::Write) => {}
        _ => return Err(Fail::from("the check went on")),
    }
    same(
        str::from_utf8(&writer.into_inner().held)?,
        "stale: regular no\nst",
    )
}

//! Recordings that are followed, window by window.
use super::checks::same;
use snap_core::{Counted, Limit};
use snap_follow::{FollowFault, FollowOptions, Followed, OneText, Texts, Until, follow_run};
use snap_testing::{Cup, Drip};
use std::alloc::Global;
use std::io;
use std::io::{Read, Write};
use std::sync::Wait;
use std::sync::atomic::{AtomicU32, Ordering};
use std::test::Fail;
use std::time::{Clock, Duration};

// Counts the sleeps, and lets nobody wait.
#[derive(Drop)]
pub(crate) struct Naps {
    taken: AtomicU32,
}

impl Clock for Naps {
    fn monotonic(&self) -> io::Result<Duration> {
        Ok(Duration::ZERO)
    }

    fn since_1970(&self) -> io::Result<Duration> {
        Ok(Duration::ZERO)
    }

    fn sleep(&self, _duration: Duration) {
        self.taken.fetch_add(1, Ordering::Relaxed);
    }
}

pub(crate) fn no_naps() -> Naps {
    Naps {
        taken: AtomicU32::new(0),
    }
}

pub(crate) fn options(
    least: u32,
    most: u32,
    until: Until,
    views: u32,
) -> Result<FollowOptions, Fail> {
    let Some(most) = Limit::new(most) else {
        return Err(Fail::new(format_args!("no limit")));
    };
    Ok(FollowOptions {
        least,
        most,
        late: 1000,
        until,
        views,
    })
}

// How a run ended, in a word and a status.
pub(crate) fn end_of(answer: &Result<Followed, FollowFault>) -> (&'static str, Option<u8>) {
    match answer {
        Ok(followed) if followed.lost.is_some() => ("lost", followed.code),
        Ok(followed) if followed.has_rest => ("with a rest", followed.code),
        Ok(followed) => ("whole", followed.code),
        Err(FollowFault::NoText) => ("no text", None),
        Err(FollowFault::Read) => ("read failed", None),
        Err(FollowFault::Write) => ("write failed", None),
        Err(FollowFault::Memory) => ("out of memory", None),
    }
}

// How following a recording ends, and what is written.
fn followed<Rt: Wait, T: Texts>(
    rt: &Rt,
    alloc: Global,
    texts: &mut T,
    naps: &Naps,
    asked: FollowOptions,
) -> (&'static str, Option<u8>, Vec<u8>) {
    let mut writer = Counted::new(Vec::new(alloc));
    let answer = follow_run(rt, alloc, texts, &mut writer, naps, asked);
    let (end, code) = end_of(&answer);
    (end, code, writer.into_inner())
}

// A recording: its text, the number of events from which on a window ends, and the limit of events. Then the status, the lines of
// the windows, and the sums.
type Recording = (&'static str, u32, u32, u8, &'static str, &'static str);

const LONG: &str = "\
event,process,op,data
begin,0,update,0:1:7
end,0,update,
begin,1,view,
end,1,view,0:1:7
begin,1,view,
begin,0,update,0:2:8
end,1,view,0:2:8
end,0,update,
begin,2,view,
end,2,view,0:1:7
";

const RECORDINGS: &[Recording] = &[
    (
        LONG,
        4,
        100,
        2,
        "window 1 events 4 atomic from 2 to 5\nwindow 2 events 4 atomic from 6 to 9\nwindow 3 events 2 not-regular from 10 to 11 misses 0:2:8 in record 11\n",
        "windows 3 events 10 views 3\natomic 2 first 1\nonly-regular 0\nnot-regular 1 first 3\nrefused 0\nfailed 0\n",
    ),
    (
        LONG,
        100,
        100,
        2,
        "window 1 events 10 not-regular from 2 to 11\n",
        "windows 1 events 10 views 3\natomic 0\nonly-regular 0\nnot-regular 1 first 1\nrefused 0\nfailed 0\n",
    ),
    // another value of the last update
    (
        "event,process,op,data\nbegin,0,update,0:1:7\nend,0,update,\nbegin,1,view,\nend,1,view,0:1:9\n",
        2,
        100,
        2,
        "window 1 events 2 atomic from 2 to 3\nwindow 2 events 2 not-regular from 4 to 5 misses 0:1:7 in record 5\n",
        "windows 2 events 4 views 1\natomic 1 first 1\nonly-regular 0\nnot-regular 1 first 2\nrefused 0\nfailed 0\n",
    ),
    // of two components the second is not shown, and then both are
    (
        "event,process,op,data\nbegin,0,update,0:1:7\nend,0,update,\nbegin,3,update,9:1:5\nend,3,update,\nbegin,1,view,\nend,1,view,0:1:7\nbegin,1,view,\nend,1,view,0:1:7 9:1:5\n",
        4,
        100,
        2,
        "window 1 events 4 atomic from 2 to 5\nwindow 2 events 4 not-regular from 6 to 9 misses 9:1:5 in record 7\n",
        "windows 2 events 8 views 2\natomic 1 first 1\nonly-regular 0\nnot-regular 1 first 2\nrefused 0\nfailed 0\n",
    ),
    // a new-old inversion, after a quiet moment
    (
        "event,process,op,data\nbegin,0,update,0:1:1\nend,0,update,\nbegin,0,update,0:2:2\nbegin,1,view,\nend,1,view,0:2:2\nbegin,2,view,\nend,2,view,0:1:1\nend,0,update,\n",
        2,
        100,
        1,
        "window 1 events 2 atomic from 2 to 3\nwindow 2 events 6 only-regular from 4 to 9\n",
        "windows 2 events 8 views 2\natomic 1 first 1\nonly-regular 1 first 2\nnot-regular 0\nrefused 0\nfailed 0\n",
    ),
    // a pending update that a view shows, with quotes, CR LF and empty lines
    (
        "event,process,op,data\r\n\r\n\"begin\",0,update,0:1:7\r\nbegin,1,view,\r\n\r\nend,1,view,\"0:1:7\"\r\n",
        1,
        100,
        0,
        "window 1 events 3 atomic from 2 to 4\n",
        "windows 1 events 3 views 1\natomic 1 first 1\nonly-regular 0\nnot-regular 0\nrefused 0\nfailed 0\n",
    ),
    // another process writes the component of an earlier window
    (
        "event,process,op,data\nbegin,0,update,0:1:7\nend,0,update,\nbegin,1,update,0:2:8\n",
        2,
        100,
        3,
        "window 1 events 2 atomic from 2 to 3\nwindow 2 refused record 4: writer\n",
        "windows 2 events 2 views 0\natomic 1 first 1\nonly-regular 0\nnot-regular 0\nrefused 1 first 2\nfailed 0\n",
    ),
    // a process that is busy is refused for that first
    (
        "event,process,op,data\nbegin,0,update,0:1:7\nend,0,update,\nbegin,1,view,\nbegin,1,update,0:2:8\n",
        2,
        100,
        3,
        "window 1 events 2 atomic from 2 to 3\nwindow 2 refused record 5: busy\n",
        "windows 2 events 2 views 0\natomic 1 first 1\nonly-regular 0\nnot-regular 0\nrefused 1 first 2\nfailed 0\n",
    ),
    // numbers go on from window to window
    (
        "event,process,op,data\nbegin,0,update,0:1:7\nend,0,update,\nbegin,0,update,0:1:8\n",
        2,
        100,
        3,
        "window 1 events 2 atomic from 2 to 3\nwindow 2 refused record 4: number\n",
        "windows 2 events 2 views 0\natomic 1 first 1\nonly-regular 0\nnot-regular 0\nrefused 1 first 2\nfailed 0\n",
    ),
    // no quiet moment in the greatest number of events of a window
    (
        "event,process,op,data\nbegin,0,view,\nbegin,1,view,\nend,0,view,\n",
        1,
        2,
        3,
        "window 1 refused record 4: toomany\n",
        "windows 1 events 0 views 0\natomic 0\nonly-regular 0\nnot-regular 0\nrefused 1 first 1\nfailed 0\n",
    ),
    (
        "event,process,op,data\nend,0,view,\n",
        1,
        100,
        3,
        "window 1 refused record 2: idle\n",
        "windows 1 events 0 views 0\natomic 0\nonly-regular 0\nnot-regular 0\nrefused 1 first 1\nfailed 0\n",
    ),
    (
        "event,process,op,data\nbegin,0,update\n",
        1,
        100,
        3,
        "window 1 refused record 2: fields\n",
        "windows 1 events 0 views 0\natomic 0\nonly-regular 0\nnot-regular 0\nrefused 1 first 1\nfailed 0\n",
    ),
    (
        "at,event,process,op\n1,begin,0,view\n",
        1,
        100,
        3,
        "window 1 refused record 1: header\n",
        "windows 1 events 0 views 0\natomic 0\nonly-regular 0\nnot-regular 0\nrefused 1 first 1\nfailed 0\n",
    ),
    (
        "",
        1,
        100,
        3,
        "window 1 refused record 1: header\n",
        "windows 1 events 0 views 0\natomic 0\nonly-regular 0\nnot-regular 0\nrefused 1 first 1\nfailed 0\n",
    ),
    (
        "event,process,op,data\n",
        1,
        100,
        0,
        "",
        "windows 0 events 0 views 0\natomic 0\nonly-regular 0\nnot-regular 0\nrefused 0\nfailed 0\n",
    ),
];

// Following a reader's text ends so, in a word and a status, and writes these lines.
pub(crate) fn expect_followed<Rt: Wait, R: Read + Drop>(
    rt: &Rt,
    alloc: Global,
    reader: R,
    naps: &Naps,
    asked: FollowOptions,
    ended: (&'static str, Option<u8>),
    wanted: &str,
) -> Result<(), Fail> {
    let (end, code, out) = followed(rt, alloc, &mut OneText::new(reader), naps, asked);
    same((end, code), ended)?;
    same(str::from_utf8(&out)?, wanted)
}

// A recording is cut into the same windows whether its text comes whole or byte by byte.
fn expect_windows<Rt: Wait>(rt: &Rt, alloc: Global, recording: &Recording) -> Result<(), Fail> {
    let (text, least, most, code, windows, sums) = *recording;
    let wanted = format!(in alloc; "{windows}{sums}")?;
    let asked = options(least, most, Until::End, 0)?;
    let ended = ("whole", Some(code));
    let naps = no_naps();
    expect_followed(rt, alloc, text.as_bytes(), &naps, asked, ended, &wanted)?;
    let drip = Drip::new(text.as_bytes(), 0);
    expect_followed(rt, alloc, drip, &naps, asked, ended, &wanted)
}

#[test]
fn recordings_are_cut_into_windows(rt: HostRuntime) -> Result<(), Fail> {
    for recording in RECORDINGS {
        expect_windows(&rt, rt.alloc(), recording)?;
    }
    Ok(())
}

const WITH_ITS_LAST_LINE: &str = "\
window 1 events 2 atomic from 2 to 3
windows 1 events 2 views 1
atomic 1 first 1
only-regular 0
not-regular 0
refused 0
failed 0
";

const WITHOUT_ITS_LAST_LINE: &str = "\
window 1 events 1 atomic from 2 to 2
windows 1 events 1 views 0
atomic 1 first 1
only-regular 0
not-regular 0
refused 0
failed 0
";

#[test]
fn a_last_line_without_an_end_counts_where_the_text_is_whole(rt: HostRuntime) -> Result<(), Fail> {
    let text = b"event,process,op,data\nbegin,0,view,\nend,0,view,".as_slice();
    let naps = no_naps();
    for (until, end, lines) in [
        (Until::End, "whole", WITH_ITS_LAST_LINE),
        (Until::Idle(2), "with a rest", WITHOUT_ITS_LAST_LINE),
    ] {
        let asked = options(1, 100, until, 0)?;
        expect_followed(&rt, rt.alloc(), text, &naps, asked, (end, Some(0)), lines)?;
    }
    // ten pauses are a second
    assert_eq!(rt; naps.taken.load(Ordering::Relaxed), 20);
    Ok(())
}

#[test]
fn fewer_views_than_were_asked_for_have_no_status(rt: HostRuntime) -> Result<(), Fail> {
    for (views, code) in [(3, Some(2)), (4, None)] {
        let asked = options(4, 100, Until::End, views)?;
        let (end, found, _) = followed(
            &rt,
            rt.alloc(),
            &mut OneText::new(LONG.as_bytes()),
            &no_naps(),
            asked,
        );
        same((end, found), ("whole", code))?;
    }
    Ok(())
}

#[test]
fn a_read_that_fails_ends_it_behind_the_windows(rt: HostRuntime) -> Result<(), Fail> {
    let asked = options(4, 100, Until::End, 0)?;
    let drip = Drip::new(LONG.as_bytes(), LONG.len() as u64);
    let lines = "window 1 events 4 atomic from 2 to 5\nwindow 2 events 4 atomic from 6 to 9\n";
    let ended = ("read failed", None);
    expect_followed(&rt, rt.alloc(), drip, &no_naps(), asked, ended, lines)
}

#[test]
fn a_write_that_fails_ends_it(rt: HostRuntime) -> Result<(), Fail> {
    for room in [0, 10, 100, 200] {
        let mut texts = OneText::new(LONG.as_bytes());
        let mut writer = Counted::new(Cup::new(rt.alloc(), room, 1000, true, false));
        let asked = options(4, 100, Until::End, 0)?;
        let answer = follow_run(&rt, rt.alloc(), &mut texts, &mut writer, &no_naps(), asked);
        same(end_of(&answer), ("write failed", None))?;
        same(writer.into_inner().held.len(), room)?;
    }
    Ok(())
}

#[test]
fn a_record_has_an_end(rt: HostRuntime) -> Result<(), Fail> {
    let mut text = Vec::new(rt.alloc());
    text.extend_from_slice(b"event,process,op,data\n")?;
    text.resize(2_000_000, b'x')?;
    let asked = options(1, 100, Until::End, 0)?;
    let (end, code, out) = followed(
        &rt,
        rt.alloc(),
        &mut OneText::new(text.as_slice()),
        &no_naps(),
        asked,
    );
    same((end, code), ("whole", Some(3)))?;
    assert!(rt; out.starts_with(b"window 1 refused record 2: toolong\n"));
    Ok(())
}

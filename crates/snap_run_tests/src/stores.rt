//! Texts of stores that tell a version of each update: their reports, their explanations, and the devices of their runs that fail.
use super::asking::end_of_run;
use super::checks::same;
use snap_core::{Counted, Limit};
use snap_explain::{Detail, Entries};
use snap_runs::{Asked, Question, run_cut};
use snap_testing::{Cup, Drip};
use std::alloc::{AllocError, Global};
use std::io::{Read, Write};
use std::test::Fail;
use std::thread::Threads;

// The text of a store with these records after the header.
fn store(alloc: Global, records: &str) -> Result<String, AllocError> {
    format!(in alloc; "at,event,process,op,data\n{records}")
}

// How the run over a text of a store ends, and what it writes.
fn cut<Rt: Threads + Sync>(
    rt: &Rt,
    alloc: Global,
    asked: Asked<'_>,
    text: &[u8],
    limit: Limit,
) -> Result<(&'static str, String), Fail> {
    let mut reader = Counted::new(text);
    let mut writer = Counted::new(Vec::new(alloc));
    let end = end_of_run(run_cut(rt, alloc, asked, &mut reader, &mut writer, limit));
    let out = String::from_str(alloc, str::from_utf8(&writer.into_inner())?)?;
    Ok((end, out))
}

// The explanation of the first fault of each kind.
fn explanation() -> Asked<'static> {
    Asked::Answer(Question::Explanation(Detail {
        listed: Entries::OfFault,
        faults: 1,
    }))
}

// Each text of a store, with these records after the header, ends and is answered so.
fn expect_cut<Rt: Threads + Sync>(
    rt: &Rt,
    alloc: Global,
    asked: Asked<'_>,
    stores: &[(&str, &str, &str)],
) -> Result<(), Fail> {
    for (records, end, known) in stores {
        let text = store(alloc, records)?;
        same(
            cut(rt, alloc, asked, text.as_bytes(), Limit::usual())?,
            (*end, String::from_str(alloc, known)?),
        )?;
    }
    Ok(())
}

// The example of the page of formats. Version 9 ends before version 4; a view shows version 12, which has no end; none shows version 15.
const WORKED: &str = "\
1,begin,0,update,0:4:7
2,begin,1,update,0:9:8
3,end,1,update,
4,begin,2,view,
5,end,2,view,0:9:8
6,end,0,update,
7,begin,1,update,0:12:5
8,begin,2,view,
9,end,2,view,0:12:5
10,begin,3,update,0:15:1
11,begin,0,update,0:20:6
12,end,0,update,
";

// A view shows version 12, which version 20 ends. The records are not in the order of the stamps.
const SHUFFLED: &str =
    "4,begin,1,update,0:20:6\n3,end,2,view,0:12:5\n1,begin,0,update,0:12:5\n5,end,1,update,\n2,begin,2,view,\n";

// The view of version 2 ends before version 1 begins, and so before the cut version 2 does.
const EARLY: &str =
    "1,begin,0,update,0:2:8\n2,begin,2,view,\n3,end,2,view,0:2:8\n4,begin,1,update,0:1:7\n5,end,1,update,\n6,end,0,update,\n";

// Stores, and their reports.
const REPORTS: &[(&str, &str, &str)] = &[
    (
        WORKED,
        "atomic",
        "events 12 calls 6 pending 0 views 2\nregular yes\nmonotone yes\natomic yes\norder 6\n\
        1 p0 update 0:1:7\n2 p1 update 0:2:8\n3 p2 view 0:2:8\n4 p1 update 0:3:5\n5 p2 view 0:3:5\n6 p0 update 0:4:6\n",
    ),
    (
        SHUFFLED,
        "atomic",
        "events 6 calls 3 pending 0 views 1\nregular yes\nmonotone yes\natomic yes\norder 3\n\
        1 p0 update 0:1:5\n2 p2 view 0:1:5\n3 p1 update 0:2:6\n",
    ),
    (
        EARLY,
        "irregular",
        "events 6 calls 3 pending 0 views 1\nregular no\nmonotone yes\natomic no\n\
        proximity 1 first view 1 entry 0:2 early\n",
    ),
    // two components may have one version
    (
        "1,begin,0,update,0:4:7\n2,end,0,update,\n3,begin,0,update,1:4:8\n4,end,0,update,\n",
        "atomic",
        "events 4 calls 2 pending 0 views 0\nregular yes\nmonotone yes\natomic yes\norder 2\n\
        1 p0 update 0:1:7\n2 p0 update 1:1:8\n",
    ),
    // a later view shows less
    (
        "1,begin,0,update,0:5:7\n2,begin,1,view,\n3,end,1,view,0:5:7\n4,begin,1,view,\n5,end,1,view,\n6,end,0,update,\n",
        "regular",
        "events 6 calls 3 pending 0 views 2\nregular yes\nmonotone no\natomic no\n\
        read 1 first view 2 view 3 component 0\n",
    ),
    // a view shows a version between two, which no update has: it gets the number after theirs
    (
        "1,begin,0,update,0:4:7\n2,end,0,update,\n3,begin,0,update,0:6:8\n4,end,0,update,\n5,begin,1,view,\n6,end,1,view,0:5:9\n",
        "irregular",
        "events 6 calls 3 pending 0 views 1\nregular no\nmonotone yes\natomic no\n\
        integrity 1 first view 3 entry 0:3:9\n",
    ),
    // no view shows the only update, which has no end
    (
        "1,begin,3,update,0:15:1\n",
        "atomic",
        "events 0 calls 0 pending 0 views 0\nregular yes\nmonotone yes\natomic yes\norder 0\n",
    ),
];

#[test]
fn the_cut_history_has_its_report(rt: HostRuntime) -> Result<(), Fail> {
    expect_cut(&rt, rt.alloc(), Asked::Report, REPORTS)
}

// Stores, and the lines of their verdicts.
const VERDICTS: &[(&str, &str, &str)] = &[
    (WORKED, "atomic", "regular yes\nmonotone yes\natomic yes\n"),
    (EARLY, "irregular", "regular no\nmonotone yes\natomic no\n"),
];

#[test]
fn quiet_reports_have_the_verdicts_alone(rt: HostRuntime) -> Result<(), Fail> {
    expect_cut(&rt, rt.alloc(), Asked::Verdicts, VERDICTS)
}

// Stores, and their explanations. The records are those of the text, and an end that only the cut gives has that of its begin.
const EXPLANATIONS: &[(&str, &str, &str)] = &[
    (
        WORKED,
        "atomic",
        "atomic: in this order each view shows the latest updates before it\n\
        \x20 call 1 of process 0, records 2 and 7: update 0:1:7\n\
        \x20 call 2 of process 1, records 3 and 4: update 0:2:8\n\
        \x20 call 3 of process 2, records 5 and 6: view 0:2:8\n\
        \x20 call 4 of process 1, records 8 and 8: update 0:3:5\n\
        \x20 call 5 of process 2, records 9 and 10: view 0:3:5\n\
        \x20 call 6 of process 0, records 12 and 13: update 0:4:6\n",
    ),
    (
        SHUFFLED,
        "atomic",
        "atomic: in this order each view shows the latest updates before it\n\
        \x20 call 1 of process 0, records 4 and 4: update 0:1:5\n\
        \x20 call 2 of process 2, records 6 and 3: view 0:1:5\n\
        \x20 call 3 of process 1, records 2 and 5: update 0:2:6\n",
    ),
    (
        EARLY,
        "irregular",
        "not regular\n\
        proximity: view 1 shows 0:2, though that update began after the view had ended\n\
        \x20 call 1 of process 2, records 3 and 4: view 0:2:8\n\
        \x20 call 3 of process 0, records 2 and 7: update 0:2:8\n",
    ),
];

#[test]
fn the_explanation_names_the_records_of_the_text(rt: HostRuntime) -> Result<(), Fail> {
    expect_cut(&rt, rt.alloc(), explanation(), EXPLANATIONS)
}

// Stores without a cut history, and what is said of each. A report, its verdicts and an explanation say the same.
const SAID: &[(&str, &str, &str)] = &[
    (
        "1,begin,0,update,0:8:7\n2,end,0,update,\n3,begin,1,update,0:5:6\n4,end,1,update,\n",
        "irregular",
        "contradiction ended record 3 begun record 4\n",
    ),
    (
        "3,begin,1,update,0:5:6\n4,end,1,update,\n1,begin,0,update,0:8:7\n2,end,0,update,\n",
        "irregular",
        "contradiction ended record 5 begun record 2\n",
    ),
    // the least component is told
    (
        "1,begin,1,update,1:8:7\n2,end,1,update,\n3,begin,1,update,1:5:6\n4,end,1,update,\n\
        5,begin,0,update,0:3:7\n6,end,0,update,\n7,begin,0,update,0:1:6\n8,end,0,update,\n",
        "irregular",
        "contradiction ended record 7 begun record 8\n",
    ),
    // the lowest version is told
    (
        "1,begin,0,update,0:2:1\n2,end,0,update,\n3,begin,0,update,0:1:1\n4,end,0,update,\n\
        5,begin,0,update,0:4:1\n6,end,0,update,\n7,begin,0,update,0:3:1\n8,end,0,update,\n",
        "irregular",
        "contradiction ended record 3 begun record 4\n",
    ),
    (
        "1,begin,0,update,0:4:7\n2,begin,1,update,0:4:8\n",
        "refused",
        "refused record 3: number\n",
    ),
    (
        "2,begin,1,update,0:4:8\n1,begin,0,update,0:4:7\n",
        "refused",
        "refused record 2: number\n",
    ),
    (
        "1,begin,0,update,0:4:7\n2,begin,0,view,\n",
        "refused",
        "refused record 3: busy\n",
    ),
    ("1,end,0,view,\n", "refused", "refused record 2: idle\n"),
    (
        "2,end,0,update,\n1,begin,0,view,\n",
        "refused",
        "refused record 2: otherop\n",
    ),
    (
        "1,begin,0,view,\n1,begin,1,view,\n",
        "refused",
        "refused record 3: repeated\n",
    ),
    // a fault of an event is found before a contradiction
    (
        "1,begin,0,update,0:8:7\n2,end,0,update,\n3,begin,1,update,0:5:6\n4,end,1,update,\n5,end,1,update,\n",
        "refused",
        "refused record 6: idle\n",
    ),
];

#[test]
fn a_store_without_a_cut_history_has_its_line(rt: HostRuntime) -> Result<(), Fail> {
    for asked in [Asked::Report, Asked::Verdicts, explanation()] {
        expect_cut(&rt, rt.alloc(), asked, SAID)?;
    }
    Ok(())
}

#[test]
fn the_first_record_is_the_header_with_stamps(rt: HostRuntime) -> Result<(), Fail> {
    let alloc = rt.alloc();
    let known = String::from_str(alloc, "refused record 1: header\n")?;
    let text = b"event,process,op,data\nbegin,0,view,\n";
    same(
        cut(&rt, alloc, Asked::Report, text, Limit::usual())?,
        ("refused", known),
    )
}

// Numbers of events that a history may have, and what is said of the five events of a store with an end that only the cut gives.
const LIMITED: &[(u32, &str, &str)] = &[
    (3, "refused", "refused record 5: toomany\n"),
    (4, "refused", "refused record 6: toomany\n"),
    (5, "refused", "refused record 6: toomany\n"),
    (6, "atomic", "regular yes\nmonotone yes\natomic yes\n"),
];

#[test]
fn the_cut_history_has_at_most_as_many_events_as_the_limit(rt: HostRuntime) -> Result<(), Fail> {
    let alloc = rt.alloc();
    let text = store(alloc, SHUFFLED)?;
    for (events, end, known) in LIMITED {
        let Some(limit) = Limit::new(*events) else {
            return Err(Fail::from("no limit"));
        };
        same(
            cut(&rt, alloc, Asked::Verdicts, text.as_bytes(), limit)?,
            (*end, String::from_str(alloc, known)?),
        )?;
    }
    Ok(())
}

// How the run over a store ends, from a reader to a writer, and the failures that the two count.
fn cut_over<Rt: Threads + Sync, R: Read + Drop, W: Write + Drop>(
    rt: &Rt,
    alloc: Global,
    asked: Asked<'_>,
    reader: R,
    writer: W,
) -> (&'static str, u64, u64) {
    let mut reader = Counted::new(reader);
    let mut writer = Counted::new(writer);
    let usual = Limit::usual();
    let end = end_of_run(run_cut(rt, alloc, asked, &mut reader, &mut writer, usual));
    (end, reader.failures(), writer.failures())
}

// A reader that fails at some byte ends the run, and so does a writer that fails before the end or when it is flushed.
fn expect_ends<Rt: Threads + Sync>(
    rt: &Rt,
    alloc: Global,
    asked: Asked<'_>,
    text: &[u8],
) -> Result<(), Fail> {
    for fails_at in 1..=text.len() as u64 + 1 {
        let drip = Drip::new(text, fails_at);
        same(
            cut_over(rt, alloc, asked, drip, Vec::new(alloc)),
            ("read failed", 1, 0),
        )?;
    }
    for (room, fails_at_flush) in [(5, false), (100_000, true)] {
        let cup = Cup::new(alloc, room, 5, true, fails_at_flush);
        same(
            cut_over(rt, alloc, asked, text, cup),
            ("write failed", 0, 1),
        )?;
    }
    Ok(())
}

#[test]
fn a_device_that_fails_ends_the_run_over_a_store(rt: HostRuntime) -> Result<(), Fail> {
    let alloc = rt.alloc();
    let shuffled = store(alloc, SHUFFLED)?;
    let contradiction = store(
        alloc,
        "1,begin,0,update,0:8:7\n2,end,0,update,\n3,begin,1,update,0:5:6\n4,end,1,update,\n",
    )?;
    for asked in [Asked::Report, Asked::Verdicts, explanation()] {
        expect_ends(&rt, alloc, asked, shuffled.as_bytes())?;
        expect_ends(&rt, alloc, asked, contradiction.as_bytes())?;
        expect_ends(&rt, alloc, asked, b"no store")?;
    }
    Ok(())
}

//! The explanations of worked texts.
use super::asking::answered;
use super::checks::{history, same};
use snap_explain::{Detail, Entries};
use snap_runs::Question;
use std::alloc::Global;
use std::test::Fail;
use std::thread::Threads;

// How the explanation of a text by this many faults of a kind ends, and what it writes.
fn explained_by<Rt: Threads + Sync>(
    rt: &Rt,
    alloc: Global,
    text: &[u8],
    faults: u32,
) -> Result<(&'static str, String), Fail> {
    let detail = Detail {
        listed: Entries::OfFault,
        faults,
    };
    answered(rt, alloc, Question::Explanation(detail), text)
}

// How the explanation of a text ends, and what it writes.
fn explained<Rt: Threads + Sync>(
    rt: &Rt,
    alloc: Global,
    text: &[u8],
) -> Result<(&'static str, String), Fail> {
    explained_by(rt, alloc, text, 1)
}

// The sentence and the calls of a view of nothing, after the update in records 2 and 3.
const FIRST: &str =
    "proximity: view 2 shows 0:0, though update 0:1 had ended before the view began\n\
    \x20 call 2 of process 1, records 4 and 5: view\n\
    \x20 call 1 of process 0, records 2 and 3: update 0:1:7\n";

const SECOND: &str =
    "proximity: view 3 shows 0:0, though update 0:1 had ended before the view began\n\
    \x20 call 3 of process 1, records 6 and 7: view\n\
    \x20 call 1 of process 0, records 2 and 3: update 0:1:7\n";

#[test]
fn each_view_with_a_fault_of_a_kind_is_told_up_to_a_number(rt: HostRuntime) -> Result<(), Fail> {
    let alloc = rt.alloc();
    let text = history(
        alloc,
        "begin,0,update,0:1:7\nend,0,update,\nbegin,1,view,\nend,1,view,\nbegin,1,view,\nend,1,view,\n",
    )?;
    let first = format!(in alloc; "not regular\n{FIRST}")?;
    let both = format!(in alloc; "not regular\n{FIRST}{SECOND}")?;
    same(
        explained_by(&rt, alloc, text.as_bytes(), 1)?,
        ("irregular", first),
    )?;
    same(
        explained_by(&rt, alloc, text.as_bytes(), 1000)?,
        ("irregular", both),
    )
}

#[test]
fn records_of_stamped_events_are_those_of_the_text(rt: HostRuntime) -> Result<(), Fail> {
    let alloc = rt.alloc();
    let text =
        b"at,event,process,op,data\n5,begin,1,view,\n6,end,1,view,\n3,begin,0,update,0:1:7\n4,end,0,update,\n";
    let known = "not regular\n\
        proximity: view 2 shows 0:0, though update 0:1 had ended before the view began\n\
        \x20 call 2 of process 1, records 2 and 3: view\n\
        \x20 call 1 of process 0, records 4 and 5: update 0:1:7\n";
    same(
        explained(&rt, alloc, text)?,
        ("irregular", String::from_str(alloc, known)?),
    )
}

#[test]
fn an_atomic_history_is_explained_by_its_order(rt: HostRuntime) -> Result<(), Fail> {
    let alloc = rt.alloc();
    let text = history(
        alloc,
        "begin,0,update,0:1:3\nbegin,1,view,\nend,1,view,\nend,0,update,\n",
    )?;
    let known = "atomic: in this order each view shows the latest updates before it\n\
        \x20 call 2 of process 1, records 3 and 4: view\n\
        \x20 call 1 of process 0, records 2 and 5: update 0:1:3\n";
    same(
        explained(&rt, alloc, text.as_bytes())?,
        ("atomic", String::from_str(alloc, known)?),
    )
}

// Texts that are not a history, and the explanation of each.
const REFUSED: &[(&str, &str)] = &[
    (
        "",
        "refused record 1: header\n\
        the first record is event,process,op,data, or at,event,process,op,data where records have stamps\n\
        \x20 no record of the text has that number\n",
    ),
    (
        "event,process,op,data\nbegin,0,view,\nbegin,01,view,\n",
        "refused record 3: process\n\
        the field process is a number from 0 to 65535, without a sign or leading zeros\n\
        \x20 record 3 has the fields \"begin\" \"01\" \"view\" \"\"\n",
    ),
    (
        "event,process,op,data\nbegin,0,update,0:1:7\nend,0,update,\nbegin,0,update,0:3:8\n",
        "refused record 4: number\n\
        an update has the next number of its component, which is one more than the updates of it that began before\n\
        \x20 record 4 has the fields \"begin\" \"0\" \"update\" \"0:3:8\"\n",
    ),
    (
        "event,process,op,data\nbegin,0,\"a \"\"scan\"\", or\nso\",\n",
        "refused record 2: op\n\
        the field op is update or view\n\
        \x20 record 2 has the fields \"begin\" \"0\" \"a \"scan\", or\\nso\" \"\"\n",
    ),
    (
        "event,process,op,data\nbegin,0,\x1b[2J,\n",
        "refused record 2: op\n\
        the field op is update or view\n\
        \x20 record 2 has the fields \"begin\" \"0\" \"\\x1b[2J\" \"\"\n",
    ),
    (
        "at,event,process,op,data\n2,end,1,view,\n1,begin,0,view,\n",
        "refused record 2: idle\n\
        a process ends only a call that it has begun and not yet ended\n\
        \x20 record 2 has the fields \"2\" \"end\" \"1\" \"view\" \"\"\n",
    ),
];

#[test]
fn a_text_that_is_no_history_gets_the_rule_that_it_breaks_and_the_record(
    rt: HostRuntime,
) -> Result<(), Fail> {
    let alloc = rt.alloc();
    for (text, known) in REFUSED {
        let known = String::from_str(alloc, known)?;
        same(explained(&rt, alloc, text.as_bytes())?, ("refused", known))?;
    }
    Ok(())
}

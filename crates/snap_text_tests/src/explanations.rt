//! The explanations of worked histories, against texts that were written by hand.
ghost use Rattle.std.specs.Prelude.{◌≡◌, length, IfOk};

use snap_check::order_alone;
use snap_core::{History, Limit};
use snap_explain::{Entries, explain, explain_refusal};
use snap_index::Index;
use snap_tally::tally_and_chain_alone;
use snap_testing::Step::{Update, Updated, View, Viewed};
use snap_testing::worked::{
    ATOMIC_RUN, CROSSED_VIEWS, MISSED_UPDATE, NEVER_WRITTEN, NEW_THEN_OLD, NOTHING, SEEN_PENDING,
    SHOWN_TOO_EARLY, STALE_AND_WRONG, WRONG_VALUE,
};
use snap_testing::{Shown, Step, history_of};
use snap_text::TextFault;
use std::alloc::{AllocError, Global};
use std::test::Fail;

// The numbers of the records of a history's events, from `first` on.
fn records_from(alloc: Global, history: &History, first: u16) -> Result<Vec<u32>, AllocError>
    ensures { IfOk result (λ records. length records.items ≡ length history.now.events) }
{
    let mut records = Vec::new(alloc);
    for place in 0..history.len() {
        records.push(place as u32 + u32::from(first))?;
    }
    Ok(records)
}

// The explanation of an index whose events are in these records.
fn explained(
    alloc: Global,
    index: &Index<'_>,
    records: &[u32],
    listed: Entries,
) -> Result<Vec<u8>, AllocError>
    requires { length records.now ≡ length index.now }
{
    let (tally, chain) = tally_and_chain_alone(alloc, index)?;
    let order = order_alone(alloc, index, &tally, chain)?;
    explain(alloc, index, &tally, records, order.as_deref(), listed)
}

// The explanation of a history whose events are in the records from `first` on.
fn explained_from(
    alloc: Global,
    history: &History,
    first: u16,
    listed: Entries,
) -> Result<Vec<u8>, AllocError> {
    let records = records_from(alloc, history, first)?;
    let index = Index::build(alloc, history)?;
    explained(alloc, &index, &records, listed)
}

// The explanation of the history of some steps, whose events are in the records from `first` on.
fn explanation_from(alloc: Global, steps: &[Step<'_>], first: u16) -> Result<Vec<u8>, Fail> {
    let history = history_of(alloc, steps)?;
    Ok(explained_from(alloc, &history, first, Entries::OfFault)?)
}

// An update that is shown by a view that ends before it, and that never ends.
const EARLY_AND_PENDING: &[Step<'static>] = &[
    Update(3, (9, 1, 4)),
    Updated(3),
    View(65535),
    Viewed(65535, &[(9, 2, 5)]),
    Update(3, (9, 2, 5)),
];

// Histories, the record of the first event of each, and its explanation.
const WORKED: &[(&[Step<'static>], u16, &str)] = &[
    (
        NOTHING,
        2,
        "atomic: in this order each view shows the latest updates before it\n",
    ),
    (
        ATOMIC_RUN,
        2,
        "atomic: in this order each view shows the latest updates before it\n\
        \x20 call 1 of process 0, records 2 and 3: update 0:1:10\n\
        \x20 call 3 of process 2, records 5 and 7: view 0:1:10\n\
        \x20 call 2 of process 1, records 4 and 11: update 1:1:20\n\
        \x20 call 4 of process 0, records 6 and 8: update 0:2:11\n\
        \x20 call 5 of process 3, records 9 and 10: view 0:2:11 1:1:20\n",
    ),
    (
        SEEN_PENDING,
        2,
        "atomic: in this order each view shows the latest updates before it\n\
        \x20 call 1 of process 0, record 2, pending: update 0:1:3\n\
        \x20 call 3 of process 2, records 4 and 5: view 0:1:3\n",
    ),
    (
        WRONG_VALUE,
        2,
        "not regular\n\
        integrity: view 2 shows 0:1:8, which no update wrote\n\
        \x20 call 2 of process 1, records 4 and 5: view 0:1:8\n\
        \x20 call 1 of process 0, records 2 and 3: update 0:1:7\n",
    ),
    (
        NEVER_WRITTEN,
        2,
        "not regular\n\
        integrity: view 1 shows 0:4294967295:7, which no update wrote\n\
        \x20 call 1 of process 1, records 2 and 3: view 0:4294967295:7\n",
    ),
    (
        STALE_AND_WRONG,
        2,
        "not regular\n\
        integrity: view 3 shows 0:1:9, which no update wrote\n\
        \x20 call 3 of process 2, records 6 and 7: view 0:1:9\n\
        \x20 call 1 of process 0, records 2 and 3: update 0:1:7\n\
        proximity: view 2 shows 0:0, though update 0:1 had ended before the view began\n\
        \x20 call 2 of process 1, records 4 and 5: view\n\
        \x20 call 1 of process 0, records 2 and 3: update 0:1:7\n",
    ),
    (
        SHOWN_TOO_EARLY,
        2,
        "not regular\n\
        proximity: view 1 shows 0:1, though that update began after the view had ended\n\
        \x20 call 1 of process 1, records 2 and 3: view 0:1:7\n\
        \x20 call 2 of process 0, records 4 and 5: update 0:1:7\n",
    ),
    (
        NEW_THEN_OLD,
        2,
        "regular, and not atomic\n\
        read: view 2 shows more of component 0 than view 3, and had ended before that view began\n\
        \x20 view 2 shows 0:1; view 3 shows 0:0\n\
        \x20 call 2 of process 1, records 3 and 4: view 0:1:7\n\
        \x20 call 3 of process 2, records 5 and 6: view\n\
        \x20 call 1 of process 0, records 2 and 7: update 0:1:7\n",
    ),
    (
        CROSSED_VIEWS,
        2,
        "regular, and not atomic\n\
        read: view 3 shows more of component 0 than view 4, and less of component 1\n\
        \x20 view 3 shows 0:1 and 1:0; view 4 shows 0:0 and 1:1\n\
        \x20 call 3 of process 2, records 4 and 6: view 0:1:1\n\
        \x20 call 4 of process 3, records 5 and 7: view 1:1:1\n\
        \x20 call 1 of process 0, records 2 and 8: update 0:1:1\n\
        \x20 call 2 of process 1, records 3 and 9: update 1:1:1\n",
    ),
    (
        MISSED_UPDATE,
        2,
        "regular, and not atomic\n\
        write: view 1 shows update 1:1, and misses update 0:1, which had ended before that one began\n\
        \x20 call 1 of process 2, records 2 and 7: view 1:1:6\n\
        \x20 call 2 of process 0, records 3 and 4: update 0:1:5\n\
        \x20 call 3 of process 1, records 5 and 6: update 1:1:6\n",
    ),
    (
        EARLY_AND_PENDING,
        100,
        "not regular\n\
        proximity: view 2 shows 9:2, though that update began after the view had ended\n\
        \x20 call 2 of process 65535, records 102 and 103: view 9:2:5\n\
        \x20 call 3 of process 3, record 104, pending: update 9:2:5\n",
    ),
];

#[test]
fn each_worked_history_has_its_explanation_with_records_from_the_first_on(
    rt: HostRuntime,
) -> Result<(), Fail> {
    for (steps, first, text) in WORKED {
        let found = explanation_from(rt.alloc(), steps, *first)?;
        assert!(rt; found.as_slice() == text.as_bytes(), "{text}");
    }
    Ok(())
}

// An entry of each of 64 components: of two components these, and of the others 7, which update 1 wrote.
fn board(alloc: Global, one: Shown, two: Shown) -> Result<Vec<Shown>, AllocError> {
    let mut entries = Vec::new(alloc);
    for component in 0..64u8 {
        entries.push(if component == one.0 {
            one
        } else if component == two.0 {
            two
        } else {
            (component, 1, 7)
        })?;
    }
    Ok(entries)
}

// Two views of 64 components that overlap two updates. Each shows another one of these.
fn crossed_boards(alloc: Global) -> Result<History, Fail> {
    let earlier = board(alloc, (61, 2, 9), (31, 1, 7))?;
    let later = board(alloc, (61, 1, 7), (31, 2, 8))?;
    let mut steps = Vec::new(alloc);
    for component in 0..64u8 {
        let writer = u16::from(component);
        steps.extend_from_slice(&[Update(writer, (component, 1, 7)), Updated(writer)])?;
    }
    steps.extend_from_slice(&[
        Update(31, (31, 2, 8)),
        Update(61, (61, 2, 9)),
        View(64),
        View(65),
        Viewed(64, &earlier),
        Viewed(65, &later),
        Updated(31),
        Updated(61),
    ])?;
    Ok(history_of(alloc, &steps)?)
}

const CROSSED: &str = "regular, and not atomic\n\
    read: view 67 shows more of component 61 than view 68, and less of component 31\n\
    \x20 view 67 shows 61:2 and 31:1; view 68 shows 61:1 and 31:2\n\
    \x20 call 67 of process 64, records 132 and 134: view 31:1:7 61:2:9 and 62 more entries\n\
    \x20 call 68 of process 65, records 133 and 135: view 31:2:8 61:1:7 and 62 more entries\n\
    \x20 call 66 of process 61, records 131 and 137: update 61:2:9\n\
    \x20 call 65 of process 31, records 130 and 136: update 31:2:8\n";

#[test]
fn of_large_views_the_entries_are_named_in_which_they_differ(rt: HostRuntime) -> Result<(), Fail> {
    let history = crossed_boards(rt.alloc())?;
    let found = explained_from(rt.alloc(), &history, 2, Entries::OfFault)?;
    assert!(rt; found.as_slice() == CROSSED.as_bytes(), "two large views");
    Ok(())
}

// What begins the line of a view, and the entries of its board.
fn view_line(alloc: Global, front: &str, entries: &[Shown]) -> Result<String, AllocError> {
    let mut line = String::from_str(alloc, front)?;
    for (component, number, value) in entries {
        let entry = format!(in alloc; " {component}:{number}:{value}")?;
        line.push_str(&entry)?;
    }
    Ok(line)
}

#[test]
fn all_entries_of_large_views_are_listed_if_that_is_asked_for(rt: HostRuntime) -> Result<(), Fail> {
    let alloc = rt.alloc();
    let earlier = board(alloc, (61, 2, 9), (31, 1, 7))?;
    let later = board(alloc, (61, 1, 7), (31, 2, 8))?;
    let first = view_line(
        alloc,
        "  call 67 of process 64, records 132 and 134: view",
        &earlier,
    )?;
    let second = view_line(
        alloc,
        "  call 68 of process 65, records 133 and 135: view",
        &later,
    )?;
    let found = explained_from(alloc, &crossed_boards(alloc)?, 2, Entries::Whole)?;
    let mut lines = found.split(|byte| *byte == b'\n').skip(3);
    assert!(rt; lines.next() == Some(first.as_bytes()), "the first view");
    assert!(rt; lines.next() == Some(second.as_bytes()), "the second view");
    assert!(rt;
        found.starts_with(&CROSSED.as_bytes()[..163]),
        "what stands before the views"
    );
    Ok(())
}

// Places, faults and what is said about them, for a text with one record after its header.
const REFUSED: &[(u32, TextFault, &str)] = &[
    (
        0,
        TextFault::TooLong,
        "refused record 0: toolong\n\
        a text has at most 67108864 bytes; --events N allows 1024 for each of up to 1048576 events\n\
        \x20 no record of the text has that number\n",
    ),
    (
        1,
        TextFault::Header,
        "refused record 1: header\n\
        the first record is event,process,op,data, or at,event,process,op,data where records have stamps\n\
        \x20 record 1 has the fields \"event\" \"process\" \"op\"\n",
    ),
    (
        2,
        TextFault::TooMany,
        "refused record 2: toomany\n\
        a history has at most 65536 events; --events N allows up to 1048576\n\
        \x20 record 2 has the fields \"end\" \"1\" \"view\" \"0:1:7  1:1:8\"\n",
    ),
    (
        2,
        TextFault::BadData,
        "refused record 2: data\n\
        entry 2 is empty: one space stands between two entries, and none before the first or after the last\n\
        the begin of an update has one entry in the field data\n\
        the end of a view has entries with rising components and one space between two, or none\n\
        any other record has an empty field data\n\
        an entry is COMPONENT:NUMBER:VALUE, from 0:1:0 to 255:4294967295:4294967295, without signs or leading zeros\n\
        \x20 record 2 has the fields \"end\" \"1\" \"view\" \"0:1:7  1:1:8\"\n",
    ),
];

#[test]
fn a_fault_of_a_text_has_its_rule_and_the_record_of_its_place(rt: HostRuntime) -> Result<(), Fail> {
    let text = b"event,process,op\nend,1,view,0:1:7  1:1:8\n".as_slice();
    for (place, fault, known) in REFUSED {
        let said = explain_refusal(rt.alloc(), text, *place, *fault, Limit::usual())?;
        assert!(rt; said.as_slice() == known.as_bytes(), "{known}");
    }
    Ok(())
}

// Limits of events, faults, and the rule that is then said.
const RULES: &[(u32, TextFault, &str)] = &[
    (
        131_072,
        TextFault::TooMany,
        "\na history has at most 131072 events; --events N allows up to 1048576\n",
    ),
    (
        131_072,
        TextFault::TooLong,
        "\na text has at most 134217728 bytes; --events N allows 1024 for each of up to 1048576 events\n",
    ),
    (
        1_048_575,
        TextFault::TooMany,
        "\na history has at most 1048575 events; --events N allows up to 1048576\n",
    ),
    (
        1_048_576,
        TextFault::TooMany,
        "\na history has at most 1048576 events\n",
    ),
    (
        1_048_576,
        TextFault::TooLong,
        "\na text has at most 1073741824 bytes\n",
    ),
    (
        65_536,
        TextFault::Order,
        "\nan update ends after all updates of its component with lower numbers have ended\n",
    ),
];

// Whether the rule is said about a fault of a text under a limit.
fn says(alloc: Global, fault: TextFault, limit: Limit, rule: &str) -> Result<bool, Fail> {
    let said = explain_refusal(alloc, b"", 0, fault, limit)?;
    Ok(str::from_utf8(&said)?.contains(rule))
}

#[test]
fn a_rule_names_the_limit_that_holds(rt: HostRuntime) -> Result<(), Fail> {
    for (events, fault, rule) in RULES {
        let limit = Limit::new(*events).ok_or("a limit")?;
        assert!(rt; says(rt.alloc(), *fault, limit, *rule)?, "{rule}");
    }
    Ok(())
}

//! Long texts, of which workers draw pieces. Their first fault is that of the text, wherever it is cut.
use super::checks::{cutting, expect, history};
use snap_core::OpenGate;
use snap_testing::{add_updates, updates_order};
use std::alloc::Global;
use std::sync::Wait;
use std::test::Fail;
use std::thread::Threads;

// This many updates make some 900,000 bytes, which are cut into 13 pieces.
const UPDATES: u32 = 24_000;

// The number of updates before a record, the record, and its fault.
const FAULTS: &[(u32, &str, &str)] = &[
    (0, "begin,1,view", "fields"),
    (0, "end,0,update,", "idle"),
    (3, "end,1,view,", "idle"),
    (6_000, "begin,1,update,0:1:1", "writer"),
    (11_999, "begin,1,view,0:1:0", "data"),
    (12_000, "begin,0,update,0:1:1", "number"),
    (12_001, "stop,1,view,", "event"),
    (18_500, "begin,1,views,", "op"),
    (23_999, "begin,x,view,", "process"),
    (24_000, "begin,1,view,,", "fields"),
];

// The text of all updates, with some lines after `first.0` of them, and other lines after `second.0`.
fn text_with(alloc: Global, first: (u32, &str), second: (u32, &str)) -> Result<String, Fail> {
    let mut text = history(alloc, "")?;
    add_updates(alloc, &mut text, 0, first.0)?;
    text.push_str(first.1)?;
    add_updates(alloc, &mut text, first.0, second.0)?;
    text.push_str(second.1)?;
    add_updates(alloc, &mut text, second.0, UPDATES)?;
    Ok(text)
}

// The checks of a text by 1 to 8 workers end so, and write this report.
fn expect_all<Rt: Threads + Wait + Sync>(
    rt: &Rt,
    alloc: Global,
    text: &str,
    end: &str,
    report: &str,
) -> Result<(), Fail> {
    for workers in [1, 2, 3, 4, 8] {
        expect(
            rt,
            alloc,
            text.as_bytes(),
            cutting(8, workers)?,
            &OpenGate,
            end,
            report,
        )?;
    }
    Ok(())
}

// The checks of a text name its first fault, which comes after this many updates.
fn expect_fault<Rt: Threads + Wait + Sync>(
    rt: &Rt,
    alloc: Global,
    text: &str,
    before: u32,
    fault: &str,
) -> Result<(), Fail> {
    let place = u64::from(before) * 2 + 2;
    let report = format!(in alloc; "refused record {place}: {fault}\n")?;
    expect_all(rt, alloc, text, "refused", &report)
}

#[test]
fn the_first_fault_of_a_long_text_is_found_wherever_it_stands(rt: HostRuntime) -> Result<(), Fail> {
    let alloc = rt.alloc();
    for (before, record, fault) in FAULTS {
        let line = format!(in alloc; "{record}\n")?;
        let text = text_with(alloc, (*before, &line), (UPDATES, ""))?;
        expect_fault(&rt, alloc, &text, *before, fault)?;
    }
    Ok(())
}

#[test]
fn of_two_faults_in_two_pieces_the_first_counts(rt: HostRuntime) -> Result<(), Fail> {
    let alloc = rt.alloc();
    let faults = [
        ("end,1,view,\n", "idle", "begin,1,view\n"),
        ("begin,1,view\n", "fields", "end,1,view,\n"),
    ];
    for (line, fault, other) in faults {
        for (before, behind) in [(10, 18_000), (13_000, 13_001), (18_100, 24_000)] {
            let text = text_with(alloc, (before, line), (behind, other))?;
            expect_fault(&rt, alloc, &text, before, fault)?;
        }
    }
    Ok(())
}

fn updates_report(alloc: Global) -> Result<String, Fail> {
    let order = updates_order(alloc, UPDATES)?;
    let head = "regular yes\nmonotone yes\natomic yes\n";
    Ok(format!(in alloc;
        "events {} calls {UPDATES} pending 0 views 0\n{head}order {UPDATES}\n{order}",
        UPDATES * 2
    )?)
}

// 400,000 empty lines.
fn blank_lines(alloc: Global) -> Result<String, Fail> {
    let mut blank = String::new(alloc);
    for _ in 0..400_000 {
        blank.push_str("\n")?;
    }
    Ok(blank)
}

#[test]
fn empty_lines_between_the_records_of_a_long_text_are_none(rt: HostRuntime) -> Result<(), Fail> {
    let alloc = rt.alloc();
    let report = updates_report(alloc)?;
    let blank = blank_lines(alloc)?;
    for before in [0, 5, 12_000, UPDATES] {
        let text = text_with(alloc, (before, &blank), (UPDATES, "\n"))?;
        expect_all(&rt, alloc, &text, "atomic", &report)?;
    }
    Ok(())
}

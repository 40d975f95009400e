//! Texts as long as they may be, and histories with many calls, components or processes.
use crate::checked::expect_report;
use snap_check::{Status, check_run};
use snap_core::{Counted, OpenGate};
use snap_pairs::Cutting;
use snap_testing::{Newlines, add_updates, updates_order};
use std::alloc::{AllocError, Global};
use std::process::Abort;
use std::test::Fail;
use std::thread::Threads;

// The check of a text by 8 pieces and 2 workers ends so, and writes this report.
fn expect<R: Threads + Sync + Abort>(
    rt: &R,
    alloc: Global,
    text: &str,
    status: Status,
    report: &str,
) -> Result<(), Fail> {
    let worked = ("a long text", text.as_bytes(), status, report);
    expect_report(rt, alloc, worked, Cutting::new(8, 2)?, &OpenGate)
}

// The text with `updates` updates of component 0, each ended at once.
fn updates_text(alloc: Global, updates: u32) -> Result<String, AllocError> {
    let mut text = String::from_str(alloc, "event,process,op,data\n")?;
    add_updates(alloc, &mut text, 0, updates)?;
    Ok(text)
}

// The report of an atomic history with these numbers of events, completed calls and completed views, whose order has these lines.
fn atomic_report(
    alloc: Global,
    counts: (u32, u32, u32),
    lines: &str,
) -> Result<String, AllocError> {
    let (events, calls, views) = counts;
    format!(in alloc;
        "events {events} calls {calls} pending 0 views {views}\n\
         regular yes\nmonotone yes\natomic yes\norder {calls}\n{lines}"
    )
}

// A history with `updates` updates, each ended at once, has them in its order.
fn expect_updates<R: Threads + Sync + Abort>(
    rt: &R,
    alloc: Global,
    updates: u16,
) -> Result<(), Fail> {
    let updates = u32::from(updates);
    let text = updates_text(alloc, updates)?;
    let lines = updates_order(alloc, updates)?;
    let report = atomic_report(alloc, (updates * 2, updates, 0), &lines)?;
    expect(rt, alloc, &text, Status::Atomic, &report)
}

#[test]
fn a_history_of_8192_updates_has_them_in_its_order(rt: HostRuntime) -> Result<(), Fail> {
    expect_updates(&rt, rt.alloc(), 8192)
}

#[test]
fn a_history_has_at_most_65536_events(rt: HostRuntime) -> Result<(), Fail> {
    expect_updates(&rt, rt.alloc(), 32768)?;
    let mut text = updates_text(rt.alloc(), 32768)?;
    text.push_str("begin,0,view,\n")?;
    let line = "refused record 65538: toomany\n";
    expect(&rt, rt.alloc(), &text, Status::Refused, line)
}

// What the check of a number of newlines writes.
fn checked_newlines<R: Threads + Sync>(
    rt: &R,
    alloc: Global,
    left: usize,
) -> Result<Vec<u8>, Fail> {
    let mut reader = Counted::new(Newlines { left });
    let mut writer = Counted::new(Vec::new(alloc));
    let cutting = Cutting::new(8, 2)?;
    match check_run(rt, alloc, &mut reader, &mut writer, cutting, &OpenGate) {
        Ok(Status::Refused) => Ok(writer.into_inner()),
        _ => Err(Fail::from("it was not refused")),
    }
}

#[test]
fn a_text_has_at_most_67108864_bytes(rt: HostRuntime) -> Result<(), Fail> {
    let longest = checked_newlines(&rt, rt.alloc(), 67_108_864)?;
    assert_eq!(rt; str::from_utf8(&longest)?, "refused record 1: header\n");
    let longer = checked_newlines(&rt, rt.alloc(), 67_108_865)?;
    assert_eq!(rt; str::from_utf8(&longer)?, "refused record 0: toolong\n");
    Ok(())
}

// The text of `updates` updates, each with a view after it that shows it, and the lines of their order.
fn seen_updates(alloc: Global, updates: u16) -> Result<(String, String), AllocError> {
    let mut text = String::from_str(alloc, "event,process,op,data\n")?;
    let mut lines = String::new(alloc);
    for before in 0..updates {
        let number = u32::from(before) + 1;
        let records = format!(in alloc;
            "begin,0,update,0:{number}:0\nend,0,update,\nbegin,0,view,\nend,0,view,0:{number}:0\n"
        )?;
        text.push_str(&records)?;
        let order = format!(in alloc;
            "{} p0 update 0:{number}:0\n{} p0 view 0:{number}:0\n",
            2 * number - 1,
            2 * number
        )?;
        lines.push_str(&order)?;
    }
    Ok((text, lines))
}

#[test]
fn updates_that_are_each_seen_are_in_the_order_of_their_calls(rt: HostRuntime) -> Result<(), Fail> {
    let (text, lines) = seen_updates(rt.alloc(), 4096)?;
    let report = atomic_report(rt.alloc(), (16384, 8192, 4096), &lines)?;
    expect(&rt, rt.alloc(), &text, Status::Atomic, &report)
}

// The records of one update of each component, by the process of its number, the lines of their order, and the entries.
fn one_of_each(alloc: Global) -> Result<(String, String, String), AllocError> {
    let mut records = String::new(alloc);
    let mut lines = String::new(alloc);
    let mut entries = String::new(alloc);
    for process in 0..256u32 {
        let entry = format!(in alloc; "{process}:1:{process}")?;
        let update = format!(in alloc; "begin,{process},update,{entry}\nend,{process},update,\n")?;
        records.push_str(&update)?;
        let line = format!(in alloc; "{} p{process} update {entry}\n", process + 1)?;
        lines.push_str(&line)?;
        entries.push_str(" ")?;
        entries.push_str(&entry)?;
    }
    Ok((records, lines, entries))
}

#[test]
fn a_view_may_show_all_256_components(rt: HostRuntime) -> Result<(), Fail> {
    let alloc = rt.alloc();
    let (records, lines, entries) = one_of_each(alloc)?;
    let shown = entries.trim_start();
    let text = format!(in alloc;
        "event,process,op,data\n{records}begin,256,view,\nend,256,view,{shown}\n"
    )?;
    let lines = format!(in alloc; "{lines}257 p256 view {shown}\n")?;
    let report = atomic_report(alloc, (514, 257, 1), &lines)?;
    expect(&rt, alloc, &text, Status::Atomic, &report)
}

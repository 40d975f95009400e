//! Histories that a board's run leaves, and their reports.
use super::checks::{cutting, end_of, same};
use snap_core::{Counted, Gate, OpenGate};
use snap_record::{Pace, Plan, Step, rounds_plan};
use snap_runs::{record_run, record_run_stamped};
use snap_testing::Cup;
use snap_threads::Cutting;
use std::alloc::Global;
use std::sync::Wait;
use std::test::Fail;
use std::thread::Threads;

// Two workers, each of which stores one value and then takes a view.
fn one_round(alloc: Global) -> Result<Plan, Fail> {
    Ok(rounds_plan(alloc, 2, 1, false)?)
}

// How the recording of a plan ends, and what it writes.
fn record<Rt: Threads + Wait + Sync, G: Gate>(
    rt: &Rt,
    alloc: Global,
    plan: &Plan,
    judge: bool,
    cutting: Cutting,
    gate: &G,
) -> (&'static str, Vec<u8>) {
    let mut writer = Counted::new(Vec::new(alloc));
    let answer = record_run(rt, alloc, plan, judge, &mut writer, cutting, gate);
    (end_of(answer), writer.into_inner())
}

fn has_line(text: &str, line: &str) -> bool {
    text.lines().any(|found| found == line)
}

/// The text has the header, this number of records after it, and each of these lines.
pub(super) fn expect_text(text: &[u8], records: usize, wanted: &[&str]) -> Result<(), Fail> {
    let text = str::from_utf8(text)?;
    expect_head(text, "event,process,op,data", records)?;
    for line in wanted {
        if !has_line(text, line) {
            return Err(Fail::from(*line));
        }
    }
    Ok(())
}

// The text has this header, and this number of records after it.
fn expect_head(text: &str, header: &str, records: usize) -> Result<(), Fail> {
    same(text.lines().next(), Some(header))?;
    same(text.lines().skip(1).count(), records)
}

// How the recording of a plan with stamps ends, the text in the writer, and the failures that it counts.
fn record_stamped<Rt: Threads + Wait + Sync>(
    rt: &Rt,
    alloc: Global,
    plan: &Plan,
    room: usize,
) -> (&'static str, Vec<u8>, u64) {
    let mut writer = Counted::new(Cup::new(alloc, room, 100, true, false));
    let answer = record_run_stamped(rt, alloc, plan, &mut writer, &OpenGate);
    let failures = writer.failures();
    (end_of(answer), writer.into_inner().held, failures)
}

/// The text has the header of texts with stamps. The records after it have these stamps, in this order.
pub(super) fn expect_stamps(text: &[u8], wanted: &[&str]) -> Result<(), Fail> {
    let text = str::from_utf8(text)?;
    expect_head(text, "at,event,process,op,data", wanted.len())?;
    if !has_stamps(text, wanted) {
        return Err(Fail::from(text));
    }
    Ok(())
}

// Whether the records after the header have these stamps, in this order.
fn has_stamps(text: &str, wanted: &[&str]) -> bool {
    for (line, stamp) in text.lines().skip(1).zip(wanted) {
        if line.split(',').next() != Some(*stamp) {
            return false;
        }
    }
    true
}

// The recording of a plan with stamps ends, and its records have these stamps.
fn expect_stamped<Rt: Threads + Wait + Sync>(
    rt: &Rt,
    alloc: Global,
    plan: &Plan,
    wanted: &[&str],
) -> Result<(), Fail> {
    let (end, text, failures) = record_stamped(rt, alloc, plan, 1000);
    same((end, failures), ("recorded", 0))?;
    expect_stamps(&text, wanted)
}

// Worker 0 stores, scans and stores again, and the others have no calls.
fn lone_scan(alloc: Global, workers: usize) -> Result<Plan, Fail> {
    let mut scripts = vec![in alloc;
        vec![in alloc; Step::Store(9), Step::Scan(3), Step::Store(8)]?,
    ]?;
    for _ in 1..workers {
        scripts.push(Vec::new(alloc))?;
    }
    Ok(Plan::new(scripts)?)
}

// The first store draws 0 and 1. The scan begins at 2. No store overlaps it, so its first two collects read the same. It draws 3
// between them, which is not the stamp of an event, and ends at 4. The second store draws 5 and 6.
#[test]
fn a_lone_scan_leaves_the_stamp_between_its_collects_out(rt: HostRuntime) -> Result<(), Fail> {
    for workers in 2..9 {
        let plan = lone_scan(rt.alloc(), workers)?;
        expect_stamped(&rt, rt.alloc(), &plan, &["0", "1", "2", "4", "5", "6"])?;
    }
    Ok(())
}

#[test]
fn a_recording_with_stamps_whose_writer_fails_has_a_front_of_its_text(
    rt: HostRuntime,
) -> Result<(), Fail> {
    let plan = one_round(rt.alloc())?;
    let (end, text, failures) = record_stamped(&rt, rt.alloc(), &plan, 10);
    same((end, failures), ("write failed", 1))?;
    same(text.as_slice(), b"at,event,p".as_slice())
}

/// The head of the report on the history of one scanned round.
pub(super) const ATOMIC_HEAD: &[u8] =
    b"events 8 calls 4 pending 0 views 2\nregular yes\nmonotone yes\natomic yes\norder 4\n";

// The workers, their rounds, the number of runs that are judged, and how each report begins, if that is known.
const SCANNED: &[(u32, u32, u32, &[u8])] = &[
    (2, 1, 20, ATOMIC_HEAD),
    (4, 1024, 20, b""),
    (8, 512, 5, b""),
];

// The judged recording of a plan is atomic, and its report begins with `head`.
fn expect_atomic<Rt: Threads + Wait + Sync>(
    rt: &Rt,
    alloc: Global,
    plan: &Plan,
    head: &[u8],
) -> Result<(), Fail> {
    let (end, report) = record(rt, alloc, plan, true, cutting(8, 2)?, &OpenGate);
    same((end, report.starts_with(head)), ("atomic", true))
}

#[test]
fn a_judged_recording_of_scanning_workers_is_atomic_in_every_run(
    rt: HostRuntime,
) -> Result<(), Fail> {
    for (workers, rounds, runs, head) in SCANNED {
        let plan = rounds_plan(rt.alloc(), *workers, *rounds, true)?;
        for _ in 0..*runs {
            expect_atomic(&rt, rt.alloc(), &plan, head)?;
        }
    }
    Ok(())
}

/// The greatest number of runs of racing workers, until one of them is not atomic. Workers that run at the same time need one or
/// two. Workers that take turns on one processor need more.
const RACES: u32 = 2000;

#[test]
fn judged_recordings_of_four_workers_are_not_all_atomic_without_scans(
    rt: HostRuntime,
) -> Result<(), Fail> {
    let plan = rounds_plan(rt.alloc(), 4, 1024, false)?;
    let cutting = cutting(8, 2)?;
    for _ in 0..RACES {
        let (end, _report) = record(&rt, rt.alloc(), &plan, true, cutting, &Pace::of(4));
        if end != "atomic" {
            return same(end, "regular");
        }
    }
    Err(Fail::from("each run was atomic"))
}

// The recording of a plan fails in each cup with room for less than these bytes, and a front of them is in the cup.
fn expect_front<Rt: Threads + Wait + Sync>(
    rt: &Rt,
    alloc: Global,
    plan: &Plan,
    judge: bool,
    cutting: Cutting,
    front: &[u8],
) -> Result<(), Fail> {
    for room in 0..front.len() {
        let mut writer = Counted::new(Cup::new(alloc, room, 1, true, false));
        let answer = record_run(rt, alloc, plan, judge, &mut writer, cutting, &OpenGate);
        let failures = writer.failures();
        let is_front = writer.into_inner().held.as_slice() == &front[..room];
        same(
            (end_of(answer), failures, is_front),
            ("write failed", 1, true),
        )?;
    }
    Ok(())
}

#[test]
fn a_recording_whose_writer_fails_has_a_front_of_its_text(rt: HostRuntime) -> Result<(), Fail> {
    let plan = one_round(rt.alloc())?;
    let cutting = cutting(8, 2)?;
    let text = b"event,process,op,data\nbegin,";
    expect_front(&rt, rt.alloc(), &plan, false, cutting, text)?;
    let report = b"events 8 calls 4 pending 0 views 2\nregular yes\n";
    expect_front(&rt, rt.alloc(), &plan, true, cutting, report)
}

#[test]
fn a_recording_whose_flush_fails_is_written_whole(rt: HostRuntime) -> Result<(), Fail> {
    let plan = one_round(rt.alloc())?;
    let cutting = cutting(8, 2)?;
    let mut writer = Counted::new(Cup::new(rt.alloc(), 1000, 1000, true, true));
    let answer = record_run(
        &rt,
        rt.alloc(),
        &plan,
        false,
        &mut writer,
        cutting,
        &OpenGate,
    );
    same(end_of(answer), "write failed")?;
    same(writer.failures(), 1)?;
    expect_text(&writer.into_inner().held, 8, &["end,1,update,"])
}

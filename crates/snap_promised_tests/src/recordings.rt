//! Histories that are recorded and written, with stamps or without, or judged.
use snap_check::Status;
use snap_core::{Counted, Gate, OpenGate};
use snap_pairs::Cutting;
use snap_record::{Plan, rounds_plan};
use snap_runs::{record_run, record_run_stamped};
use std::alloc::Global;
use std::process::Abort;
use std::sync::Wait;
use std::test::Fail;
use std::thread::Threads;

/// The text that the recording of a plan writes.
pub(crate) fn recorded<R: Threads + Wait + Sync + Abort, G: Gate>(
    rt: &R,
    alloc: Global,
    plan: &Plan,
    gate: &G,
) -> Result<Vec<u8>, Fail> {
    let mut writer = Counted::new(Vec::new(alloc));
    let cutting = Cutting::new(8, 2)?;
    let answer = record_run(rt, alloc, plan, false, &mut writer, cutting, gate);
    assert!(rt; answer.ok() == Some(Status::Recorded));
    Ok(writer.into_inner())
}

/// A text has this first line, this number of lines in all, and each of these lines.
pub(crate) fn expect_lines(
    rt: &impl Abort,
    text: &[u8],
    header: &str,
    count: usize,
    wanted: &[&str],
) -> Result<(), Fail> {
    let text = str::from_utf8(text)?;
    assert!(rt; text.lines().next() == Some(header) && text.lines().count() == count);
    for line in wanted {
        assert!(rt; text.lines().any(|found| found == *line), "no line {line}");
    }
    Ok(())
}

// The workers of one round, whether they scan, the number of lines of their text, and some of these lines.
const ONE_ROUND: &[(u32, bool, usize, &[&str])] = &[
    (
        2,
        false,
        9,
        &["begin,0,update,0:1:1", "begin,1,update,1:1:65537"],
    ),
    (
        3,
        false,
        13,
        &[
            "begin,0,update,0:1:1",
            "begin,1,update,1:1:65537",
            "begin,2,update,2:1:131073",
        ],
    ),
    (
        2,
        true,
        9,
        &["begin,0,update,0:1:1", "begin,1,update,1:1:65537"],
    ),
];

#[test]
fn one_round_has_a_header_and_four_records_for_each_worker(rt: HostRuntime) -> Result<(), Fail> {
    for (workers, scan, count, wanted) in ONE_ROUND {
        let plan = rounds_plan(rt.alloc(), *workers, 1, *scan)?;
        let text = recorded(&rt, rt.alloc(), &plan, &OpenGate)?;
        expect_lines(&rt, &text, "event,process,op,data", *count, wanted)?;
    }
    Ok(())
}

// The status of a judged recording of a plan, and its report.
fn judged<R: Threads + Wait + Sync>(
    rt: &R,
    alloc: Global,
    plan: &Plan,
) -> Result<(Status, Vec<u8>), Fail> {
    let mut writer = Counted::new(Vec::new(alloc));
    let cutting = Cutting::new(8, 2)?;
    let status = record_run(rt, alloc, plan, true, &mut writer, cutting, &OpenGate)?;
    Ok((status, writer.into_inner()))
}

#[test]
fn a_judged_round_is_regular_and_monotone_in_every_run(rt: HostRuntime) -> Result<(), Fail> {
    let plan = rounds_plan(rt.alloc(), 2, 1, false)?;
    let head = b"events 8 calls 4 pending 0 views 2\nregular yes\nmonotone yes\n";
    for _ in 0..20 {
        let (status, report) = judged(&rt, rt.alloc(), &plan)?;
        assert!(rt; matches!(status, Status::Atomic | Status::Regular) && report.starts_with(head));
    }
    Ok(())
}

#[test]
fn a_judged_round_of_scans_is_atomic_in_every_run(rt: HostRuntime) -> Result<(), Fail> {
    let plan = rounds_plan(rt.alloc(), 2, 1, true)?;
    let head =
        b"events 8 calls 4 pending 0 views 2\nregular yes\nmonotone yes\natomic yes\norder 4\n";
    for _ in 0..20 {
        let (status, report) = judged(&rt, rt.alloc(), &plan)?;
        assert!(rt; status == Status::Atomic && report.starts_with(head));
    }
    Ok(())
}

// Whether the records of a text have these stamps, in this order.
fn has_stamps(text: &str, stamps: &[&str]) -> bool {
    let records = text.lines().skip(1);
    records
        .zip(stamps)
        .all(|(record, stamp)| record.split(',').next() == Some(*stamp))
}

#[test]
fn one_round_with_stamps_has_the_stamps_from_0_to_7_in_order(rt: HostRuntime) -> Result<(), Fail> {
    let plan = rounds_plan(rt.alloc(), 2, 1, false)?;
    let mut writer = Counted::new(Vec::new(rt.alloc()));
    let status = record_run_stamped(&rt, rt.alloc(), &plan, &mut writer, &OpenGate)?;
    assert_eq!(rt; status, Status::Recorded);
    let text = writer.into_inner();
    expect_lines(&rt, &text, "at,event,process,op,data", 9, &[])?;
    assert!(rt;
        has_stamps(
            str::from_utf8(&text)?,
            &["0", "1", "2", "3", "4", "5", "6", "7"]
        )
    );
    Ok(())
}

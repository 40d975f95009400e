//! Recordings of plans that scan.
use super::{expect_both_shown, greatest_refusal, refusal, two_scripts};
use snap_core::OpenGate;
use snap_record::{PlanRefusal, Step, record_plan};
use snap_testing::Meeting;
use std::alloc::Global;
use std::test::Fail;

/// Two lists: the first has `steps` scans of `tries` tries, and the second is empty.
fn scans(alloc: Global, steps: usize, tries: u32) -> Result<Vec<Vec<Step>>, Fail> {
    Ok(vec![in alloc; vec![in alloc; Step::Scan(tries); steps]?, Vec::new(alloc)]?)
}

#[test]
fn scans_of_a_plan_are_limited(rt: HostRuntime) -> Result<(), Fail> {
    let refused = Some(PlanRefusal::TooLong);
    for (steps, tries, known) in [
        (1, 0, refused),
        (1, 1025, refused),
        (1022, 1024, None),
        (1023, 1024, refused),
    ] {
        let lists = scans(rt.alloc(), steps, tries)?;
        assert!(rt; refusal(lists) == known, "{steps} scans of {tries} tries");
    }
    Ok(())
}

#[test]
fn plans_scan_more_by_the_greatest_limit(rt: HostRuntime) -> Result<(), Fail> {
    for (steps, known) in [(16352, None), (16353, Some(PlanRefusal::TooLong))] {
        let lists = scans(rt.alloc(), steps, 1024)?;
        assert!(rt; greatest_refusal(lists) == known, "{steps} scans");
    }
    Ok(())
}

#[test]
fn two_workers_scan_behind_their_stores(rt: HostRuntime) -> Result<(), Fail> {
    let alloc = rt.alloc();
    let (first, second) = (
        [Step::Store(5), Step::Scan(64)],
        [Step::Store(6), Step::Scan(64)],
    );
    let plan = two_scripts(alloc, &first, &second)?;
    let gate = Meeting::at_turn(1);
    let recording = record_plan(&rt, alloc, &plan, &gate)?;
    assert!(rt; gate.was_held());
    assert!(rt; recording.interfered == 0 && recording.history.len() == 8);
    expect_both_shown(&rt, &recording);
    Ok(())
}

#[test]
fn the_stamps_of_a_lone_scan_leave_its_middle_tick_out(rt: HostRuntime) -> Result<(), Fail> {
    let alloc = rt.alloc();
    let first = [Step::Store(9), Step::Scan(3), Step::Store(8)];
    let plan = two_scripts(alloc, &first, &[])?;
    let recording = record_plan(&rt, alloc, &plan, &OpenGate)?;
    assert!(rt; recording.stamps.as_slice() == [0, 1, 2, 4, 5, 6].as_slice());
    Ok(())
}

#[test]
fn a_plan_may_have_collects_and_scans(rt: HostRuntime) -> Result<(), Fail> {
    let alloc = rt.alloc();
    let first = [Step::Store(9), Step::View, Step::Scan(3), Step::View];
    let plan = two_scripts(alloc, &first, &[])?;
    let recording = record_plan(&rt, alloc, &plan, &OpenGate)?;
    assert!(rt; recording.interfered == 0);
    assert!(rt; recording.stamps.as_slice() == [0, 1, 2, 3, 4, 6, 7, 8].as_slice());
    Ok(())
}

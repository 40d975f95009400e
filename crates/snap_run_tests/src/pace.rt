//! The gate at which workers keep pace.
use snap_core::Gate;
use snap_record::{Pace, record_plan, rounds_plan};
use std::test::Fail;

#[test]
fn a_worker_alone_goes_on_at_the_gate_of_two(rt: HostRuntime) -> Result<(), Fail> {
    let gate = Pace::of(2);
    for turn in 0..33 {
        gate.at(0, turn);
    }
    let plan = rounds_plan(rt.alloc(), 2, 1, false)?;
    let recording = record_plan(&rt, rt.alloc(), &plan, &gate)?;
    assert_eq!(rt; recording.history.len(), 8);
    Ok(())
}

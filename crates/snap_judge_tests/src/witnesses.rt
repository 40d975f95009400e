//! The witnesses of worked histories, against histories known from outside.
use snap_conditions::tally_range;
use snap_core::History;
use snap_index::Index;
use snap_testing::Step::{Update, Updated, View, Viewed};
use snap_testing::worked::{
    ALL_PENDING, ATOMIC_RUN, CROSSED_VIEWS, MISSED_UPDATE, NEVER_WRITTEN, NEW_THEN_OLD, NOTHING,
    SHOWN_TOO_EARLY, STALE_AND_WRONG, STALE_VIEW, WRONG_VALUE,
};
use snap_testing::{Step, history_of};
use snap_witness::witness;
use std::alloc::{AllocError, Global};
use std::process::Abort;
use std::test::Fail;

// The events of a history, as they are printed.
fn printed(alloc: Global, history: &History) -> Result<String, AllocError> {
    format!(in alloc; "{:?}", history.events())
}

fn events(alloc: Global, steps: &[Step<'_>]) -> Result<String, Fail> {
    let history = history_of(alloc, steps)?;
    Ok(printed(alloc, &history)?)
}

// The events of the witness of an index, or nothing if it has none.
fn witness_of(alloc: Global, index: &Index<'_>) -> Result<String, AllocError> {
    let tally = tally_range(index, 0, index.view_count());
    match witness(alloc, index, &tally)? {
        Some(found) => printed(alloc, &found),
        None => Ok(String::new(alloc)),
    }
}

// The events of the witness of these steps.
fn witness_events(alloc: Global, steps: &[Step<'_>]) -> Result<String, Fail> {
    let history = history_of(alloc, steps)?;
    let index = Index::build(alloc, &history)?;
    Ok(witness_of(alloc, &index)?)
}

// These steps have this witness.
fn expect(
    rt: &impl Abort,
    alloc: Global,
    steps: &[Step<'_>],
    known: &[Step<'_>],
) -> Result<(), Fail> {
    let found = witness_events(alloc, steps)?;
    assert_eq!(rt; found, events(alloc, known)?);
    Ok(())
}

// Two rounds of two writers, each seen by a view, before a fault.
const BEFORE: &[Step<'static>] = &[
    Update(0, (0, 1, 10)),
    Updated(0),
    Update(1, (1, 1, 20)),
    Updated(1),
    View(2),
    Viewed(2, &[(0, 1, 10), (1, 1, 20)]),
    Update(0, (0, 2, 11)),
    Updated(0),
];

const ATOMIC: &[&[Step<'static>]] = &[NOTHING, ALL_PENDING, ATOMIC_RUN, BEFORE];

#[test]
fn a_history_that_is_atomic_has_no_witness(rt: HostRuntime) -> Result<(), Fail> {
    for steps in ATOMIC {
        assert_eq!(rt; witness_events(rt.alloc(), steps)?.as_str(), "");
    }
    Ok(())
}

const OF_ONE_FAULT: &[&[Step<'static>]] = &[
    STALE_VIEW,
    WRONG_VALUE,
    SHOWN_TOO_EARLY,
    NEW_THEN_OLD,
    CROSSED_VIEWS,
    MISSED_UPDATE,
];

#[test]
fn a_history_of_one_fault_and_no_other_call_is_its_own_witness(
    rt: HostRuntime,
) -> Result<(), Fail> {
    for steps in OF_ONE_FAULT {
        expect(&rt, rt.alloc(), steps, steps)?;
    }
    Ok(())
}

#[test]
fn an_integrity_fault_comes_before_a_proximity_fault(rt: HostRuntime) -> Result<(), Fail> {
    let wrong = [
        Update(0, (0, 1, 7)),
        Updated(0),
        View(2),
        Viewed(2, &[(0, 1, 9)]),
    ];
    expect(&rt, rt.alloc(), STALE_AND_WRONG, &wrong)
}

#[test]
fn a_number_that_no_update_has_is_left_alone(rt: HostRuntime) -> Result<(), Fail> {
    let alone = [View(1), Viewed(1, &[(0, 1, 7)])];
    expect(&rt, rt.alloc(), NEVER_WRITTEN, &alone)
}

// After the two rounds these steps have this witness.
fn expect_behind(
    rt: &impl Abort,
    alloc: Global,
    steps: &[Step<'static>],
    known: &[Step<'static>],
) -> Result<(), Fail> {
    let mut all = Vec::from_slice(alloc, BEFORE)?;
    all.extend_from_slice(steps)?;
    expect(rt, alloc, &all, known)
}

#[test]
fn a_stale_view_misses_the_next_update_alone(rt: HostRuntime) -> Result<(), Fail> {
    let steps = [View(3), Viewed(3, &[(0, 1, 10), (1, 1, 20)])];
    let known = [Update(0, (0, 1, 11)), Updated(0), View(3), Viewed(3, &[])];
    expect_behind(&rt, rt.alloc(), &steps, &known)
}

#[test]
fn a_read_fault_in_turn_needs_one_update(rt: HostRuntime) -> Result<(), Fail> {
    let steps = [
        Update(0, (0, 3, 12)),
        View(2),
        Viewed(2, &[(0, 3, 12), (1, 1, 20)]),
        View(3),
        Viewed(3, &[(0, 2, 11), (1, 1, 20)]),
        Updated(0),
    ];
    let known = [
        Update(0, (0, 1, 12)),
        View(2),
        Viewed(2, &[(0, 1, 12)]),
        View(3),
        Viewed(3, &[]),
        Updated(0),
    ];
    expect_behind(&rt, rt.alloc(), &steps, &known)
}

#[test]
fn crossed_views_need_both_updates(rt: HostRuntime) -> Result<(), Fail> {
    let steps = [
        Update(0, (0, 3, 12)),
        Update(1, (1, 2, 21)),
        View(2),
        View(3),
        Viewed(2, &[(0, 3, 12), (1, 1, 20)]),
        Viewed(3, &[(0, 2, 11), (1, 2, 21)]),
        Updated(1),
    ];
    let known = [
        Update(0, (0, 1, 12)),
        Update(1, (1, 1, 21)),
        View(2),
        View(3),
        Viewed(2, &[(0, 1, 12)]),
        Viewed(3, &[(1, 1, 21)]),
        Updated(1),
    ];
    expect_behind(&rt, rt.alloc(), &steps, &known)
}

#[test]
fn a_write_fault_needs_the_missed_and_the_shown_update(rt: HostRuntime) -> Result<(), Fail> {
    let steps = [
        View(3),
        Update(0, (0, 3, 12)),
        Updated(0),
        Update(1, (1, 2, 21)),
        Viewed(3, &[(0, 2, 11), (1, 2, 21)]),
    ];
    let known = [
        View(3),
        Update(0, (0, 1, 12)),
        Updated(0),
        Update(1, (1, 1, 21)),
        Viewed(3, &[(1, 1, 21)]),
    ];
    expect_behind(&rt, rt.alloc(), &steps, &known)
}

//! Tallies of two views that are merged.
use super::{Known, found, reads};
use snap_conditions::{ReadFault, Tally, merge, tally_range};
use snap_index::Index;
use snap_testing::worked::{ATOMIC_RUN, CROSSED_VIEWS, NEW_THEN_OLD, STALE_AND_WRONG};
use snap_testing::{Step, history_of};
use std::alloc::Global;
use std::process::Abort;
use std::test::Fail;

// The faults of both tallies, which are few.
fn merged(rt: &impl Abort, first: &Tally, second: &Tally) -> Tally {
    assert!(rt; first.integrity.count() <= 9 && second.integrity.count() <= 9);
    assert!(rt; first.proximity.count() <= 9 && second.proximity.count() <= 9);
    assert!(rt; first.read.count() <= 9 && second.read.count() <= 9);
    assert!(rt; first.write.count() <= 9 && second.write.count() <= 9);
    assert!(rt; first.stale <= 9 && second.stale <= 9);
    merge(*first, *second)
}

// Two merged tallies have these faults.
fn expect_merged(rt: &impl Abort, first: &Tally, second: &Tally, known: Known) {
    assert!(rt; found(&merged(rt, first, second)) == known);
}

// The tallies of the first and of the second view of an index, and of both.
fn tallies_of_two(rt: &impl Abort, index: &Index<'_>) -> [Tally; 3] {
    assert!(rt; index.view_count() == 2);
    [
        tally_range(index, 0, 1),
        tally_range(index, 1, 2),
        tally_range(index, 0, 2),
    ]
}

// The tallies of the first and of the second view of a history, and of both.
fn tallies(rt: &impl Abort, alloc: Global, steps: &[Step<'_>]) -> Result<[Tally; 3], Fail> {
    let history = history_of(alloc, steps)?;
    let index = Index::build(alloc, &history)?;
    Ok(tallies_of_two(rt, &index))
}

// The tallies of the two views of a history together have its faults, and its tally has those and no more.
fn expect_parts_merged(rt: &impl Abort, alloc: Global, steps: &[Step<'_>]) -> Result<(), Fail> {
    let [first, second, all] = tallies(rt, alloc, steps)?;
    expect_merged(rt, &first, &second, found(&all));
    expect_merged(rt, &second, &first, found(&all));
    expect_merged(rt, &all, &Tally::none(), found(&all));
    expect_merged(rt, &Tally::none(), &all, found(&all));
    Ok(())
}

#[test]
fn merged_tallies_have_the_faults_of_both(rt: HostRuntime) -> Result<(), Fail> {
    expect_parts_merged(&rt, rt.alloc(), STALE_AND_WRONG)?;
    expect_parts_merged(&rt, rt.alloc(), NEW_THEN_OLD)?;
    expect_parts_merged(&rt, rt.alloc(), ATOMIC_RUN)
}

#[test]
fn the_first_fault_of_merged_tallies_is_that_of_the_first(rt: HostRuntime) -> Result<(), Fail> {
    let [first, second, _all] = tallies(&rt, rt.alloc(), CROSSED_VIEWS)?;
    let of_first = ReadFault {
        view: 2,
        other: 3,
        component: 0,
    };
    let of_second = ReadFault {
        view: 3,
        other: 2,
        component: 1,
    };
    expect_merged(&rt, &first, &second, reads(2, of_first));
    expect_merged(&rt, &second, &first, reads(2, of_second));
    expect_merged(&rt, &second, &second, reads(2, of_second));
    Ok(())
}

//! The sums of worked views, and whether these are a chain and in order.
use snap_conditions::{chain, ordered, tally_without_read, view_sum};
use snap_index::Index;
use snap_testing::worked::{ATOMIC_RUN, CROSSED_VIEWS, MISSED_UPDATE, NEW_THEN_OLD, NOTHING};
use snap_testing::{Step, history_of};
use snap_views::view_sums;
use std::alloc::Global;
use std::process::Abort;
use std::test::Fail;

// What is known about the views of a history: their sums, their chain, if there is one, and whether they are in order.
type Known = (&'static [u64], Option<&'static [u32]>, bool);

// The views of an index have these sums.
fn expect_sums(rt: &impl Abort, index: &Index<'_>, sums: &[u64]) {
    assert_eq!(rt; index.view_count() as usize, sums.len());
    for i in 0..index.view_count() {
        assert!(rt;
            Some(&view_sum(index, i)) == sums.get(i as usize),
            "of view {i}"
        );
    }
}

// This is known about the views of an index.
fn expect_known(
    rt: &impl Abort,
    alloc: Global,
    index: &Index<'_>,
    known: Known,
) -> Result<(), Fail> {
    let (known_sums, known_chain, is_ordered) = known;
    expect_sums(rt, index, known_sums);
    let sums = view_sums(alloc, index)?;
    let found = chain(alloc, index, &sums)?;
    assert!(rt; found.as_deref() == known_chain, "{found:?}");
    assert_eq!(rt; ordered(alloc, index, &sums)?, is_ordered);
    Ok(())
}

const WORKED: &[(&[Step<'static>], Known)] = &[
    (CROSSED_VIEWS, (&[1, 1], None, true)),
    (NEW_THEN_OLD, (&[1, 0], Some(&[1, 0]), false)),
    (ATOMIC_RUN, (&[1, 3], Some(&[0, 1]), true)),
    (MISSED_UPDATE, (&[1], Some(&[0]), true)),
    (NOTHING, (&[], Some(&[]), true)),
];

// This is known about the views of a history.
fn expect(rt: &impl Abort, alloc: Global, steps: &[Step<'_>], known: Known) -> Result<(), Fail> {
    let history = history_of(alloc, steps)?;
    let index = Index::build(alloc, &history)?;
    expect_known(rt, alloc, &index, known)
}

#[test]
fn comparable_views_are_a_chain_by_their_sums(rt: HostRuntime) -> Result<(), Fail> {
    for (steps, known) in WORKED {
        expect(&rt, rt.alloc(), steps, *known)?;
    }
    Ok(())
}

// The number of write faults of the tally of all views of an index, without its read faults.
fn write_faults(index: &Index<'_>) -> u64 {
    tally_without_read(index, 0, index.view_count())
        .write
        .count()
}

#[test]
fn a_missed_update_is_found_beside_a_chain_in_order(rt: HostRuntime) -> Result<(), Fail> {
    let history = history_of(rt.alloc(), MISSED_UPDATE)?;
    assert_eq!(rt; write_faults(&Index::build(rt.alloc(), &history)?), 1);
    Ok(())
}

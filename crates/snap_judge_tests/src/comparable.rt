//! The tallies of histories in which any two views are comparable.
ghost use Rattle.snap_core.specs.Calls.{calls_of};
ghost use Rattle.snap_views.specs.Chains.{IsViewChain};
ghost use Rattle.snap_views.specs.Quick.{AreComparable};
ghost use Rattle.std.specs.Prelude.{◌≡◌, IfOk};

use snap_conditions::{ReadFault, Tally, tally_range};
use snap_core::OpenGate;
use snap_index::Index;
use snap_pairs::tally_and_chain;
use snap_tally::{ViewGrid, tally_and_chain_alone, tally_by_grid};
use snap_testing::Step::{Update, Updated, View, Viewed};
use snap_testing::{Step, history_of};
use snap_threads::Cutting;
use snap_views::{ViewChain, ViewOrder, view_order, view_sums};
use std::alloc::Global;
use std::process::Abort;
use std::test::Fail;
use std::thread::Threads;

// During open updates of three components five views follow one another, and one more, which began first, overlaps them all. The
// first of the five shows all updates, the last shows none, and the second and the third show the same one.
const NEW_THEN_OLD_BESIDE: &[Step<'static>] = &[
    Update(0, (0, 1, 7)),
    Update(1, (1, 1, 8)),
    Update(2, (2, 1, 9)),
    View(4),
    View(3),
    Viewed(3, &[(0, 1, 7), (1, 1, 8), (2, 1, 9)]),
    View(3),
    Viewed(3, &[(0, 1, 7)]),
    View(3),
    Viewed(3, &[(0, 1, 7)]),
    View(3),
    Viewed(3, &[(0, 1, 7), (1, 1, 8)]),
    View(3),
    Viewed(3, &[]),
    Viewed(4, &[(0, 1, 7), (1, 1, 8)]),
    Updated(0),
    Updated(1),
    Updated(2),
];

// The first of the five views is a read fault with each later one, and so is each view between with the last one.
const ALL_FAULTS: u64 = 7;

const FIRST_FAULT: ReadFault = ReadFault {
    view: 4,
    other: 5,
    component: 1,
};

// During two open updates two views, one after the other, show both of them.
const SAME_TWICE: &[Step<'static>] = &[
    Update(0, (0, 1, 7)),
    Update(1, (1, 1, 8)),
    View(2),
    Viewed(2, &[(0, 1, 7), (1, 1, 8)]),
    View(2),
    Viewed(2, &[(0, 1, 7), (1, 1, 8)]),
    Updated(0),
    Updated(1),
];

// A tally has this number of read faults, each with a stale view, and no other fault. The first read fault is this one.
fn are_reads(tally: &Tally, count: u64, first: Option<ReadFault>) -> bool {
    tally.integrity.count() == 0
        && tally.proximity.count() == 0
        && tally.write.count() == 0
        && tally.read.count() == count
        && tally.read.first() == first
        && tally.stale == count
}

// By a grid of its views an index has these read faults, and its views at places 1 and 2 have five of them.
fn expect_by_grid(
    rt: &impl Abort,
    alloc: Global,
    index: &Index<'_>,
    grid: &ViewGrid<'_, '_>,
) -> Result<(), Fail>
    requires { grid.now ≡ index.now }
{
    assert!(rt; index.view_count() == 6);
    let all = tally_by_grid(alloc, grid, 0, 6)?;
    assert!(rt; are_reads(&all, ALL_FAULTS, Some(FIRST_FAULT)));
    let some = tally_by_grid(alloc, grid, 1, 3)?;
    assert!(rt; are_reads(&some, 5, Some(FIRST_FAULT)));
    Ok(())
}

// The chain of the views of an index, of which some two are a read fault.
fn chain_with_fault(alloc: Global, index: &Index<'_>) -> Result<ViewChain, Fail>
    ensures chain { IfOk result (λ chain. IsViewChain (calls_of index.now) chain) }
    ensures comparable { IfOk result (λ _. AreComparable (calls_of index.now)) }
{
    let sums = view_sums(alloc, index)?;
    match view_order(alloc, index, sums)? {
        ViewOrder::Comparable(chain) => Ok(chain),
        _ => Err(Fail::from("no chain with a fault")),
    }
}

// By the grid of the chain of its views an index has these read faults too.
fn expect_by_chain(rt: &impl Abort, alloc: Global, index: &Index<'_>) -> Result<(), Fail> {
    let chain = chain_with_fault(alloc, index)?;
    assert!(rt; chain.places.as_slice() == [5, 2, 3, 0, 4, 1].as_slice());
    let grid = ViewGrid::of_chain(alloc, index, &chain)?;
    expect_by_grid(rt, alloc, index, &grid)
}

// On one thread an index has this number of read faults, this one the first, and a chain or none.
fn expect_alone(
    rt: &impl Abort,
    alloc: Global,
    index: &Index<'_>,
    count: u64,
    first: Option<ReadFault>,
    is_chain: bool,
) -> Result<(), Fail> {
    let (found, chain) = tally_and_chain_alone(alloc, index)?;
    assert!(rt; chain.is_some() == is_chain && are_reads(&found, count, first));
    Ok(())
}

// With two workers an index has all faults.
fn expect_by_two<R: Threads + Sync + Abort>(
    rt: &R,
    alloc: Global,
    index: &Index<'_>,
) -> Result<(), Fail> {
    let cutting = Cutting::new(3, 2)?;
    let (found, _chain) = tally_and_chain(rt, alloc, index, cutting, &OpenGate)?;
    assert!(rt; are_reads(&found, ALL_FAULTS, Some(FIRST_FAULT)));
    Ok(())
}

// The faults of `NEW_THEN_OLD_BESIDE`, by each way of finding them.
fn expect_all_faults<R: Threads + Sync + Abort>(
    rt: &R,
    alloc: Global,
    index: &Index<'_>,
) -> Result<(), Fail> {
    expect_alone(rt, alloc, index, ALL_FAULTS, Some(FIRST_FAULT), false)?;
    expect_by_two(rt, alloc, index)?;
    expect_by_chain(rt, alloc, index)
}

#[test]
fn comparable_views_have_the_read_faults_counted_by_hand(rt: HostRuntime) -> Result<(), Fail> {
    let history = history_of(rt.alloc(), NEW_THEN_OLD_BESIDE)?;
    let index = Index::build(rt.alloc(), &history)?;
    expect_all_faults(&rt, rt.alloc(), &index)
}

#[test]
fn views_that_show_the_same_are_no_fault(rt: HostRuntime) -> Result<(), Fail> {
    let history = history_of(rt.alloc(), SAME_TWICE)?;
    let index = Index::build(rt.alloc(), &history)?;
    expect_alone(&rt, rt.alloc(), &index, 0, None, true)
}

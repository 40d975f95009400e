//! The sums, the chains and the grids of views.
use crate::fault::{Fault, expect};
use snap_conditions::Tally;
use snap_core::COMPONENT_COUNT;
use snap_index::Index;
use snap_tally::{ViewGrid, columns_between, tally_and_chain_alone, tally_by_grid};
use snap_testing::Step::{Update, Updated, View, Viewed};
use snap_testing::worked::{ATOMIC_RUN, CROSSED_VIEWS, NEW_THEN_OLD};
use snap_testing::{Step, history_of};
use snap_views::{ViewOrder, chain, ordered, view_order, view_sums};
use std::alloc::Global;

// During an open update of component 1 seven views show it, one after another, and a later one does not.
const SEVEN_NEW_THEN_OLD: &[Step<'static>] = &[
    Update(0, (1, 1, 7)),
    View(1),
    Viewed(1, &[(1, 1, 7)]),
    View(2),
    Viewed(2, &[(1, 1, 7)]),
    View(3),
    Viewed(3, &[(1, 1, 7)]),
    View(4),
    Viewed(4, &[(1, 1, 7)]),
    View(5),
    Viewed(5, &[(1, 1, 7)]),
    View(6),
    Viewed(6, &[(1, 1, 7)]),
    View(7),
    Viewed(7, &[(1, 1, 7)]),
    View(8),
    Viewed(8, &[]),
    Updated(0),
];

// During two open updates two views disagree, and one of them shows a number that is far from all others.
const FAR_AND_CROSSED: &[Step<'static>] = &[
    Update(0, (0, 1, 1)),
    Update(1, (1, 1, 1)),
    View(2),
    View(3),
    Viewed(2, &[(0, u32::MAX, 1)]),
    Viewed(3, &[(1, 1, 1)]),
    Updated(0),
    Updated(1),
];

// A list was made, and is this one.
fn expect_places(made: Option<Vec<u32>>, known: Option<&[u32]>) -> Result<(), Fault> {
    match made {
        Some(places) => expect(Some(places.as_slice()) == known),
        None => expect(known.is_none()),
    }
}

// The views of an index have these sums and this chain.
fn expect_sorted(
    alloc: Global,
    index: &Index<'_>,
    known_sums: &[u64],
    known_chain: Option<&[u32]>,
) -> Result<(), Fault> {
    let sums = view_sums(alloc, index)?;
    expect(sums.as_slice() == known_sums)?;
    expect_places(chain(alloc, index, &sums)?, known_chain)
}

// The views of an index are a chain or not, and in order or not. Their sums say so, and so does their comparison.
fn expect_order(
    alloc: Global,
    index: &Index<'_>,
    is_chain: bool,
    is_ordered: bool,
) -> Result<(), Fault> {
    let sums = view_sums(alloc, index)?;
    expect(ordered(alloc, index, &sums)? == is_ordered)?;
    expect(match view_order(alloc, index, sums)? {
        ViewOrder::Faultless(_) => is_chain && is_ordered,
        ViewOrder::Comparable(_) => is_chain && !is_ordered,
        ViewOrder::Crossing => !is_chain,
    })
}

// The views of an index have these sums and this chain, and are in order or not.
fn expect_views(
    alloc: Global,
    index: &Index<'_>,
    known_sums: &[u64],
    known_chain: Option<&[u32]>,
    is_ordered: bool,
) -> Result<(), Fault> {
    expect_sorted(alloc, index, known_sums, known_chain)?;
    expect_order(alloc, index, known_chain.is_some(), is_ordered)
}

// The views of a history have these sums and this chain, and are in order or not.
fn expect_chain(
    alloc: Global,
    steps: &[Step<'_>],
    known_sums: &[u64],
    known_chain: Option<&[u32]>,
    is_ordered: bool,
) -> Result<(), Fault> {
    let history = history_of(alloc, steps)?;
    let index = Index::build(alloc, &history)?;
    expect_views(alloc, &index, known_sums, known_chain, is_ordered)
}

/// Views that disagree are not a chain. A view after a newer one makes a chain out of order. Those of an atomic run are a chain in order.
pub(crate) fn chains(alloc: Global) -> Result<(), Fault> {
    expect_chain(alloc, CROSSED_VIEWS, &[1, 1], None, true)?;
    expect_chain(alloc, NEW_THEN_OLD, &[1, 0], Some(&[1, 0]), false)?;
    expect_chain(alloc, ATOMIC_RUN, &[1, 3], Some(&[0, 1]), true)
}

// A tally has this number of read faults and stale views, and no other fault.
fn expect_faults(found: &Tally, read: u64, stale: u64) -> Result<(), Fault> {
    expect(found.integrity.count() == 0 && found.proximity.count() == 0)?;
    expect(found.read.count() == read && found.write.count() == 0 && found.stale == stale)
}

// The grid by which a history is tallied.
#[derive(Clone, Copy)]
enum Way {
    // The grid of the views.
    Views,
    // The grid of columns that are made before it.
    Columns,
    // The grid of the chain of the views, of which some two are a read fault.
    Chain,
}

fn tally_by_views(alloc: Global, index: &Index<'_>) -> Result<Tally, Fault> {
    let grid = ViewGrid::build(alloc, index)?;
    Ok(tally_by_grid(alloc, &grid, 0, index.view_count())?)
}

fn tally_by_columns(alloc: Global, index: &Index<'_>) -> Result<Tally, Fault> {
    let columns = columns_between(alloc, index, 0, COMPONENT_COUNT)?;
    let grid = ViewGrid::of_columns(alloc, index, columns)?;
    Ok(tally_by_grid(alloc, &grid, 0, index.view_count())?)
}

fn tally_by_chain(alloc: Global, index: &Index<'_>) -> Result<Tally, Fault> {
    let sums = view_sums(alloc, index)?;
    let ViewOrder::Comparable(chain) = view_order(alloc, index, sums)? else {
        return Err(Fault::Wrong);
    };
    let grid = ViewGrid::of_chain(alloc, index, &chain)?;
    Ok(tally_by_grid(alloc, &grid, 0, index.view_count())?)
}

fn tally_by(alloc: Global, index: &Index<'_>, way: Way) -> Result<Tally, Fault> {
    match way {
        Way::Views => tally_by_views(alloc, index),
        Way::Columns => tally_by_columns(alloc, index),
        Way::Chain => tally_by_chain(alloc, index),
    }
}

// The tally by such a grid. If memory is refused and the grid is of columns or of a chain, it is made once more.
fn tally_again_by(alloc: Global, index: &Index<'_>, way: Way) -> Result<Tally, Fault> {
    match (tally_by(alloc, index, way), way) {
        (Err(Fault::Memory), Way::Columns | Way::Chain) => tally_by(alloc, index, way),
        (answer, _) => answer,
    }
}

// The tally of a history by such a grid.
fn tally_of(alloc: Global, steps: &[Step<'_>], way: Way) -> Result<Tally, Fault> {
    let history = history_of(alloc, steps)?;
    let index = Index::build(alloc, &history)?;
    tally_again_by(alloc, &index, way)
}

// By such a grid a history has this number of read faults and stale views.
fn expect_tally(
    alloc: Global,
    steps: &[Step<'_>],
    way: Way,
    read: u64,
    stale: u64,
) -> Result<(), Fault> {
    expect_faults(&tally_of(alloc, steps, way)?, read, stale)
}

// By the grid of its views a history has this number of faults of numbers that were never written, and this number of read faults.
fn expect_far(alloc: Global, steps: &[Step<'_>], integrity: u64, read: u64) -> Result<(), Fault> {
    let found = tally_of(alloc, steps, Way::Views)?;
    expect(found.integrity.count() == integrity && found.read.count() == read)
}

/// Grids of few views, of views most of which leave a component out, and of a number far from the others.
pub(crate) fn grids(alloc: Global) -> Result<(), Fault> {
    expect_tally(alloc, CROSSED_VIEWS, Way::Views, 2, 0)?;
    expect_tally(alloc, NEW_THEN_OLD, Way::Views, 1, 1)?;
    expect_tally(alloc, ATOMIC_RUN, Way::Views, 0, 0)?;
    expect_tally(alloc, SEVEN_NEW_THEN_OLD, Way::Views, 7, 7)?;
    expect_far(alloc, FAR_AND_CROSSED, 1, 2)
}

/// Columns, and a grid of them. If memory is refused, both are made once more.
pub(crate) fn columns(alloc: Global) -> Result<(), Fault> {
    expect_tally(alloc, SEVEN_NEW_THEN_OLD, Way::Columns, 7, 7)
}

/// A grid of the chain of views. If memory is refused, it is made once more.
pub(crate) fn grid_of_chain(alloc: Global) -> Result<(), Fault> {
    expect_tally(alloc, SEVEN_NEW_THEN_OLD, Way::Chain, 7, 7)
}

// On one thread an index has this number of read faults and stale views, and its views are a chain or not. If memory is refused, it
// is judged once more.
fn expect_alone(
    alloc: Global,
    index: &Index<'_>,
    read: u64,
    stale: u64,
    is_chain: bool,
) -> Result<(), Fault> {
    let (found, chain) = match tally_and_chain_alone(alloc, index) {
        Ok(both) => both,
        Err(_refused) => tally_and_chain_alone(alloc, index)?,
    };
    expect(chain.is_some() == is_chain)?;
    expect_faults(&found, read, stale)
}

// On one thread a history has this number of read faults and stale views, and its views are a chain or not.
fn expect_tally_and_chain(
    alloc: Global,
    steps: &[Step<'_>],
    read: u64,
    stale: u64,
    is_chain: bool,
) -> Result<(), Fault> {
    let history = history_of(alloc, steps)?;
    let index = Index::build(alloc, &history)?;
    expect_alone(alloc, &index, read, stale, is_chain)
}

/// Tallies on one thread, with a chain if there is no read fault.
pub(crate) fn tallies_and_chains(alloc: Global) -> Result<(), Fault> {
    expect_tally_and_chain(alloc, ATOMIC_RUN, 0, 0, true)?;
    expect_tally_and_chain(alloc, SEVEN_NEW_THEN_OLD, 7, 7, false)
}

//! The tally of all completed views, on the calling thread.
ghost use Rattle.std.specs.Prelude.{◌≡◌, ◌↔◌, [], IfOk, IfSome, IsSome};
ghost use Rattle.snap_core.specs.Calls.{calls_of, views_of};
ghost use Rattle.snap_views.specs.Chains.{IsViewChain};
ghost use Rattle.snap_theory.specs.Faults.{read_faults};
ghost use Rattle.snap_conditions.specs.Tally.{tally_of};

use crate::by_grid::tally_by_grid;
use crate::view_grid::ViewGrid;
use snap_conditions::{Tally, tally_without_read};
use snap_core::Ownership;
use snap_index::Index;
use snap_views::{ViewChain, ViewOrder, view_order, view_sums};
use std::alloc::{AllocError, Global};

/// The tally of all completed views, and these as a chain exactly when no two of them are a read fault. No grid of the views is
/// made then. The error is lack of memory.
pub fn tally_and_chain_alone<O: Ownership>(
    alloc: Global,
    index: &Index<'_, O>,
) -> Result<(Tally, Option<ViewChain>), AllocError>
    ensures tally { IfOk result (λ answer. answer.0 ≡ tally_of (calls_of index.now) (views_of (calls_of index.now))) }
    ensures chain { IfOk result (λ answer. IfSome answer.1 (IsViewChain (calls_of index.now))) }
    ensures found { IfOk result (λ answer. IsSome answer.1 ↔ (read_faults (calls_of index.now) (views_of (calls_of index.now)) ≡ [])) }
{
    let sums = view_sums(alloc, index)?;
    match view_order(alloc, index, sums)? {
        ViewOrder::Faultless(chain) => {
            let tally = tally_without_read(index, 0, index.view_count());
            Ok((tally, Some(chain)))
        }
        ViewOrder::Comparable(chain) => {
            let grid = ViewGrid::of_chain(alloc, index, &chain)?;
            Ok((tally_by(alloc, index, grid)?, None))
        }
        ViewOrder::Crossing => Ok((tally_by_columns(alloc, index)?, None)),
    }
}

// The tally of all completed views, of which two may cross.
fn tally_by_columns<O: Ownership>(alloc: Global, index: &Index<'_, O>) -> Result<Tally, AllocError>
    ensures { IfOk result (λ tally. tally ≡ tally_of (calls_of index.now) (views_of (calls_of index.now))) }
{
    let grid = ViewGrid::build(alloc, index)?;
    tally_by(alloc, index, grid)
}

// The tally of all completed views, by a grid of them.
fn tally_by<O: Ownership>(
    alloc: Global,
    index: &Index<'_, O>,
    grid: ViewGrid<'_, '_, O>,
) -> Result<Tally, AllocError>
    requires { grid ≡ index.now }
    ensures { IfOk result (λ tally. tally ≡ tally_of (calls_of index.now) (views_of (calls_of index.now))) }
{
    tally_by_grid(alloc, &grid, 0, index.view_count())
}

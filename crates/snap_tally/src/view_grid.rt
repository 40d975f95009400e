//! The grid of the completed views.
ghost use Rattle.std.specs.Prelude.{◌≡◌, ◌<◌, ◌≤◌, ◌∷◌, [], length, option_map, IfOk, IfSome};
ghost use Rattle.snap_core.specs.Calls.{calls_of, views_of};
ghost use Rattle.snap_core.specs.Bounded.{IsBoundedOrdered};
ghost use Rattle.snap_core.specs.Entries.{component_count};
ghost use Rattle.snap_views.specs.Chains.{IsViewChain};
ghost use Rattle.snap_tally.specs.Grids.{AreColumnsOf};
ghost use Rattle.snap_tally.specs.inside.Grids.{ArePlacesOf, ShowAll};
ghost use Rattle.snap_theory.specs.Faults.{first_of, read_faults, stale_count};
ghost use Rattle.snap_views.specs.Quick.{AreComparable};
ghost use Rattle.snap_views.specs.Seen.{AreViewPlaces, view_in, views_at, views_between};

use crate::columns::columns_between;
use crate::ranks::ranks;
use snap_core::{COMPONENT_COUNT, OneWriter, Ownership};
use snap_grid::{Column, Grid, by_ranks, joined};
use snap_index::Index;
use snap_views::{ViewChain, view_at};
use std::alloc::{AllocError, Global};
use std::marker::Model;

/// The read faults of a range of views.
#[derive(Clone, Copy)]
pub struct ReadPairs {
    /// Their number.
    pub count: u64,
    /// The places of the two views of the first read fault; none if there is none.
    pub first: Option<(u32, u32)>,
    /// The number of pairs of a view of the range and a view that it precedes and that shows less of some component.
    pub stale: u64,
}

/// What the completed views of an index show, kept so that counting their read faults and stale views is fast.
#[derive(Drop)]
pub struct ViewGrid<'i, 'h, O: Ownership = OneWriter> {
    index: &'i Index<'h, O>,
    grid: Grid,
}

impl<'i, 'h, O: Ownership> Model for ViewGrid<'i, 'h, O> {
    ghost use Rattle.std.specs.Prelude.{List};
    ghost use Rattle.snap_core.specs.declared.event.Event.{Event};
    ghost use Rattle.snap_tally.specs.inside.Grids.{IsGridOf};

    ghost Value = { List Event };

    ghost view = { λ c. c.index.now };

    ghost invariant = { λ c. IsGridOf c.index.now c.grid };
}

// The places at which each completed view begins and ends.
fn places_of<O: Ownership>(
    alloc: Global,
    index: &Index<'_, O>,
) -> Result<(Vec<u32>, Vec<u32>), AllocError>
    requires { IsBoundedOrdered index.now }
    ensures { IfOk result (λ places. ArePlacesOf (calls_of index.now) (length (views_of (calls_of index.now))) places.0.items places.1.items) }
{
    let count = index.view_count() as usize;
    let mut begins = Vec::with_capacity(alloc, count)?;
    let mut ends = Vec::with_capacity(alloc, count)?;
    for place in 0..index.view_count() {
        let view = view_at(index, place);
        begins.push(view.call.begun)?;
        ends.push(view.call.ended.unwrap_or(u32::MAX))?;
    }
    Ok((begins, ends))
}

impl<'i, 'h, O: Ownership> ViewGrid<'i, 'h, O> {
    /// The grid of the completed views of an index, which it borrows. The error is lack of memory.
    pub fn build(alloc: Global, index: &'i Index<'h, O>) -> Result<ViewGrid<'i, 'h, O>, AllocError>
        ensures { IfOk result (λ grid. grid ≡ index.now) }
    {
        let columns = columns_between(alloc, index, 0, COMPONENT_COUNT)?;
        ViewGrid::of_columns(alloc, index, columns)
    }

    /// The grid of `build`, from the columns of all components, as `columns_between` gives them. The error is lack of memory.
    pub fn of_columns(
        alloc: Global,
        index: &'i Index<'h, O>,
        columns: Vec<Column>,
    ) -> Result<ViewGrid<'i, 'h, O>, AllocError>
        requires { AreColumnsOf (calls_of index.now) 0 component_count columns.items }
        ensures { IfOk result (λ grid. grid ≡ index.now) }
    {
        // this call shows what is known of the index's history
        let _events = index.event_count();
        let ranked = by_ranks(alloc, columns)?;
        let keys = joined(alloc, ranked)?;
        ViewGrid::of_keys(alloc, index, keys)
    }

    /// The grid of `build` by one column, the ranks of the views. Of any two views, one must show no component above the other's.
    /// The error is lack of memory.
    pub fn of_chain(
        alloc: Global,
        index: &'i Index<'h, O>,
        chain: &ViewChain,
    ) -> Result<ViewGrid<'i, 'h, O>, AllocError>
        requires chain { IsViewChain (calls_of index.now) chain.now }
        requires comparable { AreComparable (calls_of index.now) }
        ensures { IfOk result (λ grid. grid ≡ index.now) }
    {
        // this call shows what is known of the index's history
        let _events = index.event_count();
        let ranks = ranks(alloc, index, chain)?;
        let keys = vec![in alloc; Column::alone(alloc, ranks)?]?;
        ViewGrid::of_keys(alloc, index, keys)
    }

    // The grid of these columns. They must show, of any two views, whether one shows more of some component than the other.
    fn of_keys(
        alloc: Global,
        index: &'i Index<'h, O>,
        keys: Vec<Column>,
    ) -> Result<ViewGrid<'i, 'h, O>, AllocError>
        requires kept { IsBoundedOrdered index.now }
        requires keys { ShowAll (calls_of index.now) keys.items }
        ensures { IfOk result (λ grid. grid ≡ index.now) }
    {
        let (begins, ends) = places_of(alloc, index)?;
        Ok(ViewGrid {
            index,
            grid: Grid::new(alloc, keys, begins, ends)?,
        })
    }

    /// The index whose views the grid has.
    pub fn index(&self) -> &'i Index<'h, O>
        ensures { result.now ≡ self.now }
    {
        self.index
    }

    // The places of the views of the first read fault whose first view is the one at a place.
    fn first_pair(&self, alloc: Global, place: usize) -> Result<Option<(u32, u32)>, AllocError>
        requires { place < length (views_of (calls_of self.now)) }
        ensures first { IfOk result (λ found. option_map (views_at (calls_of self.now)) found ≡ first_of (read_faults (calls_of self.now) (view_in (calls_of self.now) place ∷ []))) }
        ensures within { IfOk result (λ found. IfSome found (AreViewPlaces (calls_of self.now))) }
    {
        let Some(other) = self.grid.first_clash(alloc, place)? else {
            return Ok(None);
        };
        Ok(Some((place as u32, other as u32)))
    }

    /// The read faults whose first view is one of the completed views from `from` to `to - 1`. It also gives the number of views that
    /// are stale to these. Views are counted from 0 in the order of call numbers. The error is lack of memory.
    pub fn read_pairs(&self, alloc: Global, from: u32, to: u32) -> Result<ReadPairs, AllocError>
        requires order { from ≤ to }
        requires views { to ≤ length (views_of (calls_of self.now)) }
        ensures count { IfOk result (λ found. found.count ≡ length (read_faults (calls_of self.now) (views_between (calls_of self.now) from to))) }
        ensures first { IfOk result (λ found. option_map (views_at (calls_of self.now)) found.first ≡ first_of (read_faults (calls_of self.now) (views_between (calls_of self.now) from to))) }
        ensures within { IfOk result (λ found. IfSome found.first (AreViewPlaces (calls_of self.now))) }
        ensures stale { IfOk result (λ found. found.stale ≡ stale_count (calls_of self.now) (views_between (calls_of self.now) from to)) }
    {
        let found = self.grid.clashes(alloc, from as usize, to as usize)?;
        let first = match found.first {
            Some(place) => self.first_pair(alloc, place)?,
            None => None,
        };
        Ok(ReadPairs {
            count: found.count,
            first,
            stale: found.drops,
        })
    }
}

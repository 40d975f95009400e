//! The tally of a range of views by a grid of all of them.
ghost use Rattle.std.specs.Prelude.{◌≡◌, ◌≤◌, length, IfOk};
ghost use Rattle.snap_core.specs.Calls.{calls_of, views_of};
ghost use Rattle.snap_theory.specs.Faults.{read_faults, stale_count};
ghost use Rattle.snap_conditions.specs.Parts.{part_of};
ghost use Rattle.snap_conditions.specs.Tally.{reported_read, tally_of};
ghost use Rattle.snap_views.specs.Seen.{views_between};

use crate::view_grid::ViewGrid;
use snap_conditions::{Part, ReadFault, Tally, read_fault_of, tally_without_read};
use snap_core::Ownership;
use std::alloc::{AllocError, Global};

/// The read faults whose first view is one of the completed views from `from` to `to - 1`, as they are reported. It also gives
/// the number of views that are stale to these. Views are counted from 0 in the order of call numbers. A grid compares 512 views
/// at once, from `from` on, so a smaller range takes as long. The error is lack of memory.
pub fn read_faults_by_grid<O: Ownership>(
    alloc: Global,
    grid: &ViewGrid<'_, '_, O>,
    from: u32,
    to: u32,
) -> Result<(Part<ReadFault>, u64), AllocError>
    requires order { from ≤ to }
    requires views { to ≤ length (views_of (calls_of grid.now)) }
    ensures faults { IfOk result (λ found. found.0 ≡ part_of reported_read (read_faults (calls_of grid.now) (views_between (calls_of grid.now) from to))) }
    ensures stale { IfOk result (λ found. found.1 ≡ stale_count (calls_of grid.now) (views_between (calls_of grid.now) from to)) }
{
    let index = grid.index();
    let pairs = grid.read_pairs(alloc, from, to)?;
    let faults = match pairs.first {
        Some((place, other)) => Part::of(pairs.count, read_fault_of(index, place, other)),
        None => Part::none(),
    };
    Ok((faults, pairs.stale))
}

/// The faults whose first view is one of the completed views from `from` to `to - 1`, as `tally_range` gives them. Views are
/// counted from 0 in the order of call numbers. The read faults come from the grid of all views. The error is lack of memory.
pub fn tally_by_grid<O: Ownership>(
    alloc: Global,
    grid: &ViewGrid<'_, '_, O>,
    from: u32,
    to: u32,
) -> Result<Tally, AllocError>
    requires order { from ≤ to }
    requires views { to ≤ length (views_of (calls_of grid.now)) }
    ensures { IfOk result (λ tally. tally ≡ tally_of (calls_of grid.now) (views_between (calls_of grid.now) from to)) }
{
    let (read, stale) = read_faults_by_grid(alloc, grid, from, to)?;
    let others = tally_without_read(grid.index(), from, to);
    Ok(Tally {
        integrity: others.integrity,
        proximity: others.proximity,
        read,
        write: others.write,
        stale,
    })
}

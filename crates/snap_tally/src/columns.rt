//! The numbers that the completed views show, column by column.
ghost use Rattle.std.specs.Prelude.{◌≡◌, ◌<◌, ◌≤◌, ℕ, true, length, All, IfOk};
ghost use Rattle.snap_core.specs.Calls.{calls_of, views_of};
ghost use Rattle.snap_core.specs.Entries.{AreEntries, EntryFits, component_count, rises};
ghost use Rattle.snap_core.specs.Bounded.{IsBoundedOrdered};
ghost use Rattle.snap_tally.specs.Grids.{AreColumnsOf};
ghost use Rattle.snap_tally.specs.inside.NumberTables.{AreFilled};
ghost use Rattle.snap_views.specs.Rows.{number_among};

use crate::number_table::NumberTable;
use snap_core::{Entry, Ownership};
use snap_grid::{Column, TABLE_LIMIT};
use snap_index::Index;
use snap_views::view_at;
use std::alloc::{AllocError, Global};

// The entries of the components from `from` to before `to`, which are neighbours.
fn entries_between(entries: &[Entry], from: usize, to: usize) -> &[Entry]
    requires entries { AreEntries entries.now }
    requires order { from ≤ to }
    ensures rising { rises result.now ≡ true }
    ensures fit { All EntryFits result.now }
    ensures numbers { (k : ℕ) → from ≤ k → k < to → number_among result.now k ≡ number_among entries.now k }
{
    let first = entries.partition_point(|entry| usize::from(entry.component) < from);
    let end = entries.partition_point(|entry| usize::from(entry.component) < to);
    &entries[first..end]
}

// The numbers that all completed views show of the components from `from` to before `to`.
fn numbers_between<O: Ownership>(
    alloc: Global,
    index: &Index<'_, O>,
    from: usize,
    to: usize,
) -> Result<NumberTable, AllocError>
    requires kept { IsBoundedOrdered index.now }
    requires order { from ≤ to }
    ensures { IfOk result (λ table. AreFilled (calls_of index.now) from to (length (views_of (calls_of index.now))) table) }
{
    let mut table = NumberTable::new(alloc)?;
    let count = index.view_count() as usize;
    for place in 0..index.view_count() {
        let entries = entries_between(view_at(index, place).entries, from, to);
        table.put_view(alloc, count, place as usize, entries)?;
    }
    Ok(table)
}

/// A column for each component from `from` to `to - 1` that some completed view lists. It has the numbers that all completed
/// views show of the component, in the order of call numbers. The columns of two adjoining ranges are together those of both. The
/// error is lack of memory.
pub fn columns_between<O: Ownership>(
    alloc: Global,
    index: &Index<'_, O>,
    from: usize,
    to: usize,
) -> Result<Vec<Column>, AllocError>
    requires order { from ≤ to }
    requires within { to ≤ component_count }
    ensures { IfOk result (λ columns. AreColumnsOf (calls_of index.now) from to columns.items) }
{
    // this call shows what is known of the index's history
    let _events = index.event_count();
    let mut table = numbers_between(alloc, index, from, to)?;
    let mut columns = Vec::new(alloc);
    for k in from..to {
        let numbers = table.take(alloc, k as u8);
        if !numbers.is_empty() {
            // a faulty view may show the update after the last
            let limit = index
                .update_count(k as u8)
                .saturating_add(1)
                .min(TABLE_LIMIT);
            columns.push(Column::new(alloc, numbers, limit)?)?;
        }
    }
    Ok(columns)
}

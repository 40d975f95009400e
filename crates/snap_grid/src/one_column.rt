//! The clashes of rows in a single column, in which each clash is a drop.
ghost use Rattle.std.specs.Prelude.{◌≡◌, ◌≤◌, ◌<◌, ◌+◌, ℕ, Bool, length, nat_lt, sum_by, find, IfOk, IfSome};
ghost use Rattle.std.specs.List.{range_with_len};
ghost use Rattle.snap_grid.specs.Columns.{HaveSameRows, number};
ghost use Rattle.snap_masks.specs.Limits.{row_limit};
ghost use Rattle.snap_grid.specs.inside.Sweeps.{AreDropsOfOne};

use crate::grid::Clashes;
use crate::sweep::{drops_of, rises};
use snap_masks::Column;
use std::alloc::{AllocError, Global};

// How often each row drops, if there is one column and no row begins before an earlier one.
pub(crate) fn drops_of_one(
    alloc: Global,
    columns: &[Column],
    begins: &[u32],
    ends: &[u32],
) -> Result<Option<Vec<u32>>, AllocError>
    requires { HaveSameRows columns.now begins.now ends.now }
    ensures { IfOk result (λ drops. IfSome drops (λ counts. AreDropsOfOne columns.now begins.now ends.now counts.items)) }
{
    if columns.len() != 1 || !rises(begins) {
        return Ok(None);
    }
    let counts = drops_of(alloc, columns[0].numbers(), begins, ends)?;
    Ok(Some(counts))
}

// The clashes of the rows from `from` on, by how often each of them drops.
pub(crate) fn clashes_of_one(counts: &[u32], from: usize) -> Clashes
    requires few { length counts.now ≤ row_limit }
    requires within { from + length counts.now ≤ row_limit }
    ensures count { (f : ℕ → ℕ) → ((i : ℕ) → i < length counts.now → f (from + i) ≡ number counts.now i) → result.count ≡ sum_by f (range_with_len from (length counts.now)) }
    ensures drops { result.drops ≡ result.count }
    ensures first { (p : ℕ → Bool) → ((i : ℕ) → i < length counts.now → p (from + i) ≡ nat_lt 0 (number counts.now i)) → result.first ≡ find p (range_with_len from (length counts.now)) }
{
    let mut count = 0;
    let mut first = None;
    for i in 0..counts.len() {
        count += u64::from(counts[i]);
        first = first.or((counts[i] > 0).then_some(from + i));
    }
    Clashes {
        count,
        drops: count,
        first,
    }
}

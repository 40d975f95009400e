//! The sums of the numbers that views show.
ghost use Rattle.std.specs.Prelude.{◌≡◌, ◌<◌, length, IfOk};
ghost use Rattle.snap_core.specs.Calls.{calls_of, views_of};
ghost use Rattle.snap_core.specs.Entries.{AreEntries};
ghost use Rattle.snap_views.specs.Chains.{AreViewSums};
ghost use Rattle.snap_views.specs.Quick.{shown_sum, entry_sum};
ghost use Rattle.snap_views.specs.Seen.{view_in};

use crate::seen::view_at;
use snap_core::{Entry, Ownership};
use snap_index::Index;
use std::alloc::{AllocError, Global};

/// The sum of the numbers of a view's entries.
pub fn entries_sum(entries: &[Entry]) -> u64
    requires { AreEntries entries.now }
    ensures { result ≡ entry_sum entries.now }
{
    let mut sum = 0;
    for entry in entries {
        sum += u64::from(entry.number);
    }
    sum
}

/// The sum of the numbers that the `i`-th completed view by call number shows, counted from 0.
pub fn view_sum(index: &Index<'_, impl Ownership>, i: u32) -> u64
    requires { i < length (views_of (calls_of index.now)) }
    ensures { result ≡ shown_sum (view_in (calls_of index.now) i) }
{
    entries_sum(view_at(index, i).entries)
}

/// The sums of the numbers that the completed views show, by call number. The error is lack of memory.
pub fn view_sums<O: Ownership>(alloc: Global, index: &Index<'_, O>) -> Result<Vec<u64>, AllocError>
    ensures { IfOk result (λ sums. AreViewSums (calls_of index.now) sums.items) }
{
    let mut sums = Vec::with_capacity(alloc, index.view_count() as usize)?;
    for place in 0..index.view_count() {
        sums.push(view_sum(index, place))?;
    }
    Ok(sums)
}

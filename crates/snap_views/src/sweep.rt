//! Whether the sums of the completed views keep precedence.
ghost use Rattle.std.specs.Prelude.{◌≡◌, ◌+◌, ◌↔◌, length, IfOk, IsTrue};
ghost use Rattle.snap_core.specs.Calls.{calls_of, views_of};
ghost use Rattle.snap_core.specs.Bounded.{IsBoundedOrdered};
ghost use Rattle.snap_views.specs.Chains.{AreViewSums};
ghost use Rattle.snap_views.specs.Quick.{AreOrdered};
ghost use Rattle.snap_views.specs.inside.Sweeps.{IsSwept};

use crate::seen::view_at;
use snap_core::Ownership;
use snap_index::Index;
use std::alloc::{AllocError, Global};

/// Whether no completed view precedes one with a smaller sum of the numbers that it shows. `sums` has the sum of each
/// completed view, by call number. The error is lack of memory.
pub fn ordered(
    alloc: Global,
    index: &Index<'_, impl Ownership>,
    sums: &[u64],
) -> Result<bool, AllocError>
    requires { AreViewSums (calls_of index.now) sums.now }
    ensures { IfOk result (λ answer. IsTrue answer ↔ AreOrdered (calls_of index.now)) }
{
    // this call shows what is known of the index's history
    let _events = index.event_count();
    let greatest = greatest_before(alloc, index, sums)?;
    for place in 0..index.view_count() {
        let begun = view_at(index, place).call.begun;
        if sums[place as usize] < greatest[begun as usize] {
            return Ok(false);
        }
    }
    Ok(true)
}

// For each place the greatest sum of the completed views that ended before it, 0 if none did.
fn greatest_before<O: Ownership>(
    alloc: Global,
    index: &Index<'_, O>,
    sums: &[u64],
) -> Result<Vec<u64>, AllocError>
    requires kept { IsBoundedOrdered index.now }
    requires sums { AreViewSums (calls_of index.now) sums.now }
    ensures size { IfOk result (λ greatest. length greatest.items ≡ length index.now + 1) }
    ensures greatest { IfOk result (λ greatest. IsSwept (calls_of index.now) (length (views_of (calls_of index.now))) (length greatest.items) greatest.items) }
{
    let mut greatest = sums_behind_ends(alloc, index, sums)?;
    for place in 1..greatest.len() {
        greatest[place] = greatest[place].max(greatest[place - 1]);
    }
    Ok(greatest)
}

// The sum of each completed view at the place after its end, 0 at every other place.
fn sums_behind_ends<O: Ownership>(
    alloc: Global,
    index: &Index<'_, O>,
    sums: &[u64],
) -> Result<Vec<u64>, AllocError>
    requires kept { IsBoundedOrdered index.now }
    requires sums { AreViewSums (calls_of index.now) sums.now }
    ensures size { IfOk result (λ behind. length behind.items ≡ length index.now + 1) }
    ensures sums { IfOk result (λ behind. IsSwept (calls_of index.now) (length (views_of (calls_of index.now))) 0 behind.items) }
{
    let mut behind = Vec::from_elem(alloc, 0u64, index.event_count() as usize + 1)?;
    for place in 0..index.view_count() {
        if let Some(ended) = view_at(index, place).call.ended {
            let next = ended as usize + 1;
            behind[next] = behind[next].max(sums[place as usize]);
        }
    }
    Ok(behind)
}

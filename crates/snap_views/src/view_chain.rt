//! The completed views as a chain, in which each shows no less than those before it.
ghost use Rattle.std.specs.Prelude.{◌≡◌, ◌<◌, ◌≤◌, ◌↔◌, ℕ, length, map, All, IfOk, IfSome, IsSome, IsTrue};
ghost use Rattle.snap_core.specs.Calls.{calls_of};
ghost use Rattle.snap_core.specs.Entries.{AreEntries, component_count};
ghost use Rattle.snap_core.specs.Bounded.{IsBoundedOrdered};
ghost use Rattle.snap_views.specs.Chains.{AreViewSums, IsChain};
ghost use Rattle.snap_views.specs.inside.Chains.{IsSummed, Climbs, joined, summed_views};
ghost use Rattle.snap_views.specs.Quick.{AreComparable};
ghost use Rattle.snap_views.specs.Rows.{AreNumbersOf, number_among, row_number, sum_below};

use crate::seen::view_at;
use snap_core::{COMPONENT_COUNT, EVENT_CAP, Entry, Ownership};
use snap_index::Index;
use std::alloc::{AllocError, Global};

/// The completed views of a history as a chain, in which each shows no less than those before it.
#[derive(Drop)]
pub struct ViewChain {
    /// The places of the views by call number, counted from 0, sorted by the sums of the numbers that they show and then by place.
    pub places: Vec<u32>,
    /// The sum of each view, by call number.
    pub sums: Vec<u64>,
}

/// The places of the completed views by call number, counted from 0. They are sorted by the sums of the numbers that the views
/// show, and then by place. `None` exactly when two of these views cross: each shows a component above the other's. `sums` has the
/// sum of each completed view, by call number. The error is lack of memory.
pub fn chain(
    alloc: Global,
    index: &Index<'_, impl Ownership>,
    sums: &[u64],
) -> Result<Option<Vec<u32>>, AllocError>
    requires { AreViewSums (calls_of index.now) sums.now }
    ensures sorted { IfOk result (λ found. IfSome found (λ places. IsChain (calls_of index.now) places.items)) }
    ensures comparable { IfOk result (λ found. IsSome found ↔ AreComparable (calls_of index.now)) }
{
    // this call shows what is known of the index's history
    let _events = index.event_count();
    let mut keys = keys(alloc, index, sums)?;
    if some_cross(index, &keys) {
        return Ok(None);
    }
    // a key is compared as one number, since the place of a view is less than the limit
    keys.sort_unstable_by_key(
        |key| -> u64
            ensures { result ≡ joined key.now }
        {
            key.0
                .wrapping_mul(EVENT_CAP as u64)
                .wrapping_add(u64::from(key.1))
        },
    );
    if !climbs(index, &keys) {
        return Ok(None);
    }
    Ok(Some(places(alloc, &keys)?))
}

// About this many pairs of neighbours by call number are compared before the views are sorted. Views of a chain gain nothing by it.
const PAIRS_TRIED: usize = 16;

// Whether two views cross, among pairs of neighbours by call number at even spaces. If so, no chain is sorted in vain.
fn some_cross<O: Ownership>(index: &Index<'_, O>, keys: &[(u64, u32)]) -> bool
    requires kept { IsBoundedOrdered index.now }
    requires keys { All (IsSummed (calls_of index.now)) keys.now }
    ensures { IsTrue result → ¬ AreComparable (calls_of index.now) }
{
    let last = keys.len().saturating_sub(1);
    let step = (last / PAIRS_TRIED).max(1);
    let mut at = 0;
    while at < last {
        if cross(index, keys[at], keys[at + 1]) {
            return true;
        }
        at = at.saturating_add(step);
    }
    false
}

// Whether each of two views shows a component above the other's.
fn cross<O: Ownership>(index: &Index<'_, O>, one: (u64, u32), other: (u64, u32)) -> bool
    requires kept { IsBoundedOrdered index.now }
    requires one { IsSummed (calls_of index.now) one }
    requires other { IsSummed (calls_of index.now) other }
    ensures { IsTrue result → ¬ AreComparable (calls_of index.now) }
{
    !climbs(index, &[one, other]) && !climbs(index, &[other, one])
}

// The sum of each completed view, and its place.
fn keys<O: Ownership>(
    alloc: Global,
    index: &Index<'_, O>,
    sums: &[u64],
) -> Result<Vec<(u64, u32)>, AllocError>
    requires { AreViewSums (calls_of index.now) sums.now }
    ensures { IfOk result (λ keys. keys.items ≡ summed_views (calls_of index.now)) }
{
    let mut keys = Vec::with_capacity(alloc, index.view_count() as usize)?;
    for place in 0..index.view_count() {
        keys.push((sums[place as usize], place))?;
    }
    Ok(keys)
}

// The places of keys.
fn places(alloc: Global, keys: &[(u64, u32)]) -> Result<Vec<u32>, AllocError>
    ensures { IfOk result (λ places. places.items ≡ map (λ key. key.1) keys.now) }
{
    let mut places = Vec::with_capacity(alloc, keys.len())?;
    for (_sum, place) in keys {
        places.push(*place)?;
    }
    Ok(places)
}

// Whether each of these views shows no component above the next one's.
fn climbs<O: Ownership>(index: &Index<'_, O>, keys: &[(u64, u32)]) -> bool
    requires kept { IsBoundedOrdered index.now }
    requires keys { All (IsSummed (calls_of index.now)) keys.now }
    ensures { IsTrue result ↔ Climbs (calls_of index.now) keys.now (length keys.now) }
{
    let mut numbers = [0; COMPONENT_COUNT];
    let mut last = 0;
    for (sum, place) in keys {
        let view = view_at(index, *place);
        if !climb(&mut numbers, last, view.entries) {
            return false;
        }
        last = *sum;
    }
    true
}

// Takes the numbers of a view into a row, whose numbers have this sum. It answers whether the row showed no component above the
// view. That is so exactly when the smaller of both numbers of each component add up to that sum. The row is then the view's.
fn climb(numbers: &mut [u32; COMPONENT_COUNT], sum: u64, entries: &[Entry]) -> bool
    requires entries { AreEntries entries.now }
    requires sum { sum ≡ sum_below (row_number numbers.old) component_count }
    ensures below { IsTrue result ↔ ((k : ℕ) → k < component_count → row_number numbers.old k ≤ number_among entries.now k) }
    ensures taken { IsTrue result → AreNumbersOf entries.now numbers.new }
    ensures size { length numbers.new ≡ component_count }
{
    let mut lesser = 0;
    for entry in entries {
        let k = entry.component as usize;
        lesser += u64::from(entry.number.min(numbers[k]));
        numbers[k] = entry.number;
    }
    lesser == sum
}

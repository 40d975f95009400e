//! How often the rows of one column drop, by a sweep over their ends and a tree of their ranks.
ghost use Rattle.std.specs.Prelude.{◌≡◌, ◌≤◌, ◌<◌, ◌-◌, ◌+◌, ℕ, length, get_or, IfOk, IsTrue};
ghost use Rattle.snap_grid.specs.Columns.{IsOrderedAs, number};
ghost use Rattle.snap_masks.specs.Limits.{row_limit};
ghost use Rattle.snap_grid.specs.inside.Sweeps.{AreDrops, AreEndsInOrder, HasCounted, Rises};

use crate::tree::{empty_tree, raise, sum_below};
use snap_masks::{Bounds, distinct_of, ranks_of};
use std::alloc::{AllocError, Global};

// Whether none of the numbers is less than one before it.
pub(crate) fn rises(numbers: &[u32]) -> bool
    ensures { IsTrue result → Rises numbers.now }
{
    for i in 1..numbers.len() {
        if numbers[i] < numbers[i - 1] {
            return false;
        }
    }
    true
}

// The end and the place of each row, in the order of ends.
fn ends_in_order(alloc: Global, ends: &[u32]) -> Result<Vec<(u32, u32)>, AllocError>
    requires few { length ends.now ≤ row_limit }
    ensures { IfOk result (λ keys. AreEndsInOrder ends.now keys.items) }
{
    let mut keys = Vec::with_capacity(alloc, ends.len())?;
    for row in 0..ends.len() {
        keys.push((ends[row], row as u32))?;
    }
    keys.sort_unstable_by_key(
        |key| -> u32
            ensures { result ≡ key.now.0 }
        { key.0 },
    );
    Ok(keys)
}

// Counts the rows before `from` that begin after `end`; those from `from` on are counted already. It gives the first counted row.
fn count_behind(
    nodes: &mut [u32],
    size: usize,
    ranks: &[u32],
    begins: &[u32],
    from: usize,
    end: u32,
) -> usize
    requires counted { HasCounted size ranks.now from nodes.old }
    requires rows { length ranks.now ≡ length begins.now }
    requires few { length begins.now ≤ row_limit }
    requires ranks { (i : ℕ) → i < length ranks.now → number ranks.now i < size }
    ensures counted { HasCounted size ranks.now result nodes.new }
    ensures before { result ≤ from }
    ensures behind { (b : ℕ) → result ≤ b → b < from → end < number begins.now b }
    ensures last { 0 < result → number begins.now (result - 1) ≤ end }
{
    let mut first = from;
    while first > 0 && begins[first - 1] > end {
        first -= 1;
        raise(nodes, size, ranks[first] as usize);
    }
    first
}

// Numbers that compare as the given ones and are at most their count: the given ones if they are small enough, or else their ranks.
fn small_ranks(alloc: Global, numbers: &[u32]) -> Result<Vec<u32>, AllocError>
    requires few { length numbers.now ≤ row_limit }
    ensures order { IfOk result (λ ranks. IsOrderedAs numbers.now ranks.items) }
    ensures small { IfOk result (λ ranks. (i : ℕ) → i < length ranks.items → number ranks.items i ≤ length numbers.now) }
{
    if Bounds::of(numbers).greatest as usize <= numbers.len() {
        return numbers.to_vec(alloc);
    }
    let distinct = distinct_of(alloc, numbers)?;
    let ranks = ranks_of(alloc, numbers, &distinct)?;
    Ok(ranks)
}

// For each row the number of rows that have a smaller number and begin after its end. The begins rise. The sweep goes from the last
// end to the first. A tree counts the rows that begin after an end, by the ranks of their numbers.
pub(crate) fn drops_of(
    alloc: Global,
    numbers: &[u32],
    begins: &[u32],
    ends: &[u32],
) -> Result<Vec<u32>, AllocError>
    requires rows { (length numbers.now ≡ length begins.now) × (length ends.now ≡ length begins.now) }
    requires few { length begins.now ≤ row_limit }
    requires rising { Rises begins.now }
    ensures { IfOk result (λ counts. AreDrops numbers.now begins.now ends.now counts.items) }
{
    let ranks = small_ranks(alloc, numbers)?;
    let size = numbers.len() + 1;
    let mut tree = empty_tree(alloc, size)?;
    let nodes = tree.as_mut_slice();
    let keys = ends_in_order(alloc, ends)?;
    let mut counts = vec![in alloc; 0u32; ends.len()]?;
    let mut from = begins.len();
    let mut left = keys.len();
    while left > 0 {
        left -= 1;
        let (end, row) = keys[left];
        from = count_behind(nodes, size, &ranks, begins, from, end);
        counts[row as usize] = sum_below(nodes, size, ranks[row as usize] as usize);
    }
    Ok(counts)
}

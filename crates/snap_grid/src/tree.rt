//! Sums of counts in a tree. To raise a count, or to add up the counts below a place, takes as many steps as the size has bits.
ghost use Rattle.std.specs.Prelude.{◌≡◌, ◌≤◌, ◌<◌, ◌+◌, ◌^◌, ℕ, get_or, nat_lt, length, if◌then◌else◌, IfOk};
ghost use Rattle.snap_grid.specs.inside.Trees.{IsTree, sum_below_place};

use std::alloc::{AllocError, Global};

// The tree of `size` counts of 0.
pub(crate) fn empty_tree(alloc: Global, size: usize) -> Result<Vec<u32>, AllocError>
    requires some { 0 < size }
    requires few { size + size < 2 ^ 64 }
    ensures tree { IfOk result (λ nodes. IsTree size nodes.items) }
    ensures empty { IfOk result (λ nodes. (i : ℕ) → get_or nodes.items i 0 ≡ 0) }
{
    vec![in alloc; 0u32; size + size]
}

// Raises the count at a place of a tree of `size` counts by 1.
pub(crate) fn raise(nodes: &mut [u32], size: usize, place: usize)
    requires tree { IsTree size nodes.old }
    requires place { place < size }
    requires small { (i : ℕ) → get_or nodes.old i 0 + 1 < 2 ^ 32 }
    ensures tree { IsTree size nodes.new }
    ensures raised { (upper : ℕ) → sum_below_place size nodes.new upper ≡ sum_below_place size nodes.old upper + (if nat_lt place upper then 1 else 0) }
    ensures most { (i : ℕ) → get_or nodes.new i 0 ≤ get_or nodes.old i 0 + 1 }
{
    let mut node = size + place;
    while node > 0 {
        nodes[node] += 1;
        node /= 2;
    }
}

// What a node has if it is asked for; else 0.
fn node_if(nodes: &[u32], node: usize, is_asked: bool) -> u32
    requires { node < length nodes.now }
    ensures { result ≡ (if is_asked then get_or nodes.now node 0 else 0) }
{
    if is_asked { nodes[node] } else { 0 }
}

// The sum of the counts below a place. The nodes from `low` to before `high` are still to be added. The first is added here if its
// number is odd, and the last if its number is even. The nodes above them have the sums of the others.
pub(crate) fn sum_below(nodes: &[u32], size: usize, place: usize) -> u32
    requires tree { IsTree size nodes.now }
    requires place { place ≤ size }
    requires small { sum_below_place size nodes.now place < 2 ^ 32 }
    ensures { result ≡ sum_below_place size nodes.now place }
{
    let mut low = size;
    let mut high = size + place;
    let mut sum = 0;
    while low < high {
        sum += node_if(nodes, low, low % 2 == 1);
        sum += node_if(nodes, high - 1, high % 2 == 1);
        low = (low + 1) / 2;
        high /= 2;
    }
    sum
}

//! The ranks of the sums of the completed views.
ghost use Rattle.std.specs.Prelude.{IfOk};
ghost use Rattle.snap_core.specs.Calls.{calls_of};
ghost use Rattle.snap_core.specs.Bounded.{IsBoundedOrdered};
ghost use Rattle.snap_grid.specs.Columns.{IsOrderedAs};
ghost use Rattle.snap_views.specs.Chains.{IsViewChain};

use snap_core::Ownership;
use snap_index::Index;
use snap_views::ViewChain;
use std::alloc::{AllocError, Global};

// The rank of the sum of each completed view, by call number: the number of views with a smaller sum.
pub(crate) fn ranks<O: Ownership>(
    alloc: Global,
    index: &Index<'_, O>,
    chain: &ViewChain,
) -> Result<Vec<u32>, AllocError>
    requires kept { IsBoundedOrdered index.now }
    requires chain { IsViewChain (calls_of index.now) chain.now }
    ensures { IfOk result (λ ranks. IsOrderedAs chain.now.sums.items ranks.items) }
{
    let mut ranks = Vec::from_elem(alloc, 0u32, index.view_count() as usize)?;
    let mut last = 0;
    let mut rank = 0;
    for at in 0..index.view_count() {
        let place = chain.places[at as usize] as usize;
        let sum = chain.sums[place];
        if last < sum {
            last = sum;
            rank = at;
        }
        ranks[place] = rank;
    }
    Ok(ranks)
}

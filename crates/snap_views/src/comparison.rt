//! The quick test for read faults: how the completed views of a history compare.
ghost use Rattle.std.specs.Prelude.{◌≡◌, ◌↔◌, [], IfOk, IfSome, IsSome};
ghost use Rattle.snap_core.specs.Calls.{calls_of, views_of};
ghost use Rattle.snap_views.specs.Chains.{AreViewSums, IsViewChain};
ghost use Rattle.snap_views.specs.Orders.{IsFaultless, chain_of};
ghost use Rattle.snap_views.specs.Quick.{AreComparable};
ghost use Rattle.snap_theory.specs.Faults.{read_faults};

use crate::sweep::ordered;
use crate::view_chain::{ViewChain, chain};
use snap_core::Ownership;
use snap_index::Index;
use std::alloc::{AllocError, Global};

/// How the completed views of a history compare.
#[derive(Drop)]
pub enum ViewOrder {
    /// No two views are a read fault.
    Faultless(ViewChain),
    /// Of any two views, one shows no component above the other's, but some two are a read fault.
    Comparable(ViewChain),
    /// There are two views of which each shows a component above the other's.
    Crossing,
}

/// How the completed views compare: as a chain, unless two of them cross. `sums` has the sum of each completed view, by call
/// number. The error is lack of memory.
pub fn view_order<O: Ownership>(
    alloc: Global,
    index: &Index<'_, O>,
    sums: Vec<u64>,
) -> Result<ViewOrder, AllocError>
    requires { AreViewSums (calls_of index.now) sums.items }
    ensures chain { IfOk result (λ order. IfSome (chain_of order) (IsViewChain (calls_of index.now))) }
    ensures comparable { IfOk result (λ order. IsSome (chain_of order) ↔ AreComparable (calls_of index.now)) }
    ensures faultless { IfOk result (λ order. IsFaultless order ↔ (read_faults (calls_of index.now) (views_of (calls_of index.now)) ≡ [])) }
{
    // this call shows what is known of the index's history
    let _events = index.event_count();
    let Some(places) = chain(alloc, index, &sums)? else {
        return Ok(ViewOrder::Crossing);
    };
    let is_ordered = ordered(alloc, index, &sums)?;
    let chain = ViewChain { places, sums };
    if !is_ordered {
        return Ok(ViewOrder::Comparable(chain));
    }
    Ok(ViewOrder::Faultless(chain))
}

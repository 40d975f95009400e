//! The printed order.
ghost use Rattle.std.specs.Prelude.{◌≡◌, map, IfOk};
ghost use Rattle.snap_core.specs.Calls.{calls_of};
ghost use Rattle.snap_core.specs.Events.{event_cap};
ghost use Rattle.snap_views.specs.Chains.{IsViewChain};
ghost use Rattle.snap_theory.specs.Faults.{HasNoFault};
ghost use Rattle.snap_theory.specs.KeyOrder.{as_one};
ghost use Rattle.snap_theory.specs.Keys.{printed_keys};
ghost use Rattle.snap_theory.specs.Levels.{printed_order};
ghost use Rattle.snap_order.specs.Numbers.{IsLegalList};

use crate::levels::Levels;
use rayon::current_num_threads;
use snap_core::{EVENT_CAP, Ownership};
use snap_index::Index;
use snap_views::{ViewChain, ViewOrder, view_order, view_sums};
use std::alloc::{AllocError, Global};
use std::thread::Threads;

// The greatest number of workers that share the calls of `build`: in a model of the map more of them took as long.
const MOST_WORKERS: usize = 2;

/// The printed order of a history without a fault, by call numbers from 0. It has all completed calls, and the pending updates
/// of which some completed view shows the number or a later one. It is sorted by level; within a level updates come before
/// views; then it is sorted by call number. It is a legal order. The error is lack of memory.
///
/// The views are sorted once. Then each level is a search among them, which begins near the level of the last call. In a
/// history of 32,768 calls or more a second thread takes half of the calls, if there is a second processor.
pub fn build<R: Threads + Sync>(
    rt: &R,
    alloc: Global,
    index: &Index<'_, impl Ownership + Sync>,
) -> Result<Vec<u32>, AllocError>
    requires { HasNoFault (calls_of index.now) }
    ensures printed { IfOk result
        (λ order. order.items ≡ map (λ c. c.number) (printed_order (calls_of index.now))) }
    ensures legal { IfOk result (λ order. IsLegalList (calls_of index.now) order.items) }
{
    let chain = chain_of(alloc, index)?;
    let workers = current_num_threads(rt).min(MOST_WORKERS) as u32;
    build_of_chain(rt, alloc, index, chain, workers)
}

/// The order of `build`, along a given chain of the completed views. At most `workers` workers share the calls, and each of them
/// has at least 16,384.
pub fn build_of_chain<R: Threads + Sync, O: Ownership + Sync>(
    rt: &R,
    alloc: Global,
    index: &Index<'_, O>,
    chain: ViewChain,
    workers: u32,
) -> Result<Vec<u32>, AllocError>
    requires fault { HasNoFault (calls_of index.now) }
    requires chain { IsViewChain (calls_of index.now) chain }
    ensures printed { IfOk result
        (λ order. order.items ≡ map (λ c. c.number) (printed_order (calls_of index.now))) }
    ensures legal { IfOk result (λ order. IsLegalList (calls_of index.now) order.items) }
{
    let keys = Levels::of(index, chain).keys_shared(rt, alloc, workers)?;
    ordered(alloc, index, keys)
}

/// The order of `build_of_chain` on the calling thread, for a caller without a runtime.
pub fn build_alone<O: Ownership>(
    alloc: Global,
    index: &Index<'_, O>,
    chain: ViewChain,
) -> Result<Vec<u32>, AllocError>
    requires fault { HasNoFault (calls_of index.now) }
    requires chain { IsViewChain (calls_of index.now) chain }
    ensures printed { IfOk result
        (λ order. order.items ≡ map (λ c. c.number) (printed_order (calls_of index.now))) }
    ensures legal { IfOk result (λ order. IsLegalList (calls_of index.now) order.items) }
{
    let keys = Levels::of(index, chain).keys(alloc)?;
    ordered(alloc, index, keys)
}

// The completed views of a history without a fault, as a chain.
fn chain_of<O: Ownership>(alloc: Global, index: &Index<'_, O>) -> Result<ViewChain, AllocError>
    requires { HasNoFault (calls_of index.now) }
    ensures { IfOk result (IsViewChain (calls_of index.now)) }
{
    let sums = view_sums(alloc, index)?;
    match view_order(alloc, index, sums)? {
        ViewOrder::Faultless(chain) => Ok(chain),
        _ => unreachable!(),
    }
}

// The printed order by the keys of the printed calls.
fn ordered<O: Ownership>(
    alloc: Global,
    index: &Index<'_, O>,
    mut keys: Vec<(u32, u32)>,
) -> Result<Vec<u32>, AllocError>
    requires fault { HasNoFault (calls_of index.now) }
    requires keys { keys.items ≡ printed_keys (calls_of index.now) }
    ensures printed { IfOk result
        (λ order. order.items ≡ map (λ c. c.number) (printed_order (calls_of index.now))) }
    ensures legal { IfOk result (λ order. IsLegalList (calls_of index.now) order.items) }
{
    // this call shows that the events are a history
    let _events = index.event_count();
    // a key is compared as one number, since the number of a call is less than the limit
    keys.sort_unstable_by_key(
        |key| -> u64
            ensures { result ≡ as_one event_cap key.now }
        { u64::from(key.0) * EVENT_CAP as u64 + u64::from(key.1) },
    );
    numbers(alloc, &keys)
}

fn numbers(alloc: Global, keys: &[(u32, u32)]) -> Result<Vec<u32>, AllocError>
    ensures { IfOk result (λ numbers. numbers.items ≡ map (λ k. k.1) keys.now) }
{
    let mut numbers = Vec::with_capacity(alloc, keys.len())?;
    for (_rank, number) in keys {
        numbers.push(*number)?;
    }
    Ok(numbers)
}

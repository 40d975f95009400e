//! The levels of calls: places in the chain of the completed views.
ghost use Rattle.std.specs.Prelude.{◌≡◌, ◌<◌, ◌≤◌, ◌↔◌, length, get_or, nat_lt, count_by, slice_get, Some, IfOk, IsTrue};
ghost use Rattle.std.specs.Option.{option_map};
ghost use Rattle.snap_core.specs.Calls.{calls_of, call_numbered, views_of, shown_number};
ghost use Rattle.snap_views.specs.Chains.{IsViewChain};
ghost use Rattle.snap_theory.specs.Faults.{HasNoFault};
ghost use Rattle.snap_views.specs.Quick.{entry_sum, shown_sum};
ghost use Rattle.snap_views.specs.Seen.{view_in};
ghost use Rattle.snap_index.specs.IndexedCalls.{answer_of, number_of};
ghost use Rattle.snap_theory.specs.Keys.{printed_keys, rank_of};
ghost use Rattle.snap_theory.specs.Levels.{update_level as spec_update_level};
ghost use Rattle.snap_order.specs.inside.Blocks.{AreBlocks, IsBlock, block_start, keys_between};

use crate::near::partition_near;
use rayon::prelude::*;
use snap_core::{Entry, Ownership, View};
use snap_index::{CallOp, Index};
use snap_views::{ViewChain, entries_sum};
use std::alloc::{AllocError, Global};
use std::marker::Model;
use std::thread::Threads;

/// The levels of the calls of an index whose history has no fault.
#[derive(Drop)]
pub(crate) struct Levels<'i, 'h, O: Ownership> {
    index: &'i Index<'h, O>,
    // the places of the completed views in a chain, in which each view shows no less than those before it
    chain: Vec<u32>,
    // the sum of the numbers that each completed view shows, by place
    sums: Vec<u64>,
}

impl<'i, 'h, O: Ownership> Model for Levels<'i, 'h, O> {
    ghost use Rattle.std.specs.Prelude.{List};
    ghost use Rattle.snap_core.specs.declared.event.Event.{Event};
    ghost use Rattle.snap_order.specs.inside.Chains.{IsSummedChain};

    ghost Value = { List Event };

    ghost view = { λ a. a.index.now };

    ghost invariant = { λ a. IsSummedChain a.index.now a.chain.items a.sums.items };
}

// The least number of calls of a thread: the levels of fewer take less time than its start.
const CALLS_A_THREAD: u32 = 16_384;

// The first number of a block, if `calls` calls are cut into `blocks` blocks. It is also the end of the block before it.
fn start_of(blocks: u32, block: u32, calls: u32) -> u32
    requires some { 0 < blocks }
    requires block { block ≤ blocks }
    ensures start { result ≡ block_start blocks block calls }
    ensures inside { result ≤ calls }
{
    (u64::from(block) * u64::from(calls) / u64::from(blocks)) as u32
}

// The number that the completed view at a place shows of a component, 0 if it shows none.
fn shown_at<O: Ownership>(index: &Index<'_, O>, place: u32, component: u8) -> u32
    ensures { result ≡ shown_number (view_in (calls_of index.now) place) component }
{
    match index.view(place) {
        Some(view) => view.number(component),
        None => 0,
    }
}

// The sum at a place, 0 if there is none.
fn sum_at(sums: &[u64], place: u32) -> u64
    ensures { result ≡ get_or sums.now place 0 }
{
    sums.get(place as usize).copied().unwrap_or(0)
}

impl<'i, 'h, O: Ownership> Levels<'i, 'h, O> {
    // The levels by a chain of the completed views.
    pub(crate) fn of(index: &'i Index<'h, O>, chain: ViewChain) -> Levels<'i, 'h, O>
        requires fault { HasNoFault (calls_of index.now) }
        requires chain { IsViewChain (calls_of index.now) chain }
        ensures { result ≡ index.now }
    {
        // this call shows that the events are a history
        let _events = index.event_count();
        Levels {
            index,
            chain: chain.places,
            sums: chain.sums,
        }
    }

    // The keys of the printed calls, rank and number, by call number.
    pub(crate) fn keys(&self, alloc: Global) -> Result<Vec<(u32, u32)>, AllocError>
        ensures { IfOk result (λ keys. keys.items ≡ printed_keys (calls_of self.now)) }
    {
        self.keys_between(alloc, 0, self.index.call_count())
    }

    // The keys of one of `blocks` blocks.
    fn keys_of_block(
        &self,
        alloc: Global,
        blocks: u32,
        block: u32,
    ) -> Result<Vec<(u32, u32)>, AllocError>
        requires { block < blocks }
        ensures { IsBlock (calls_of self.now) blocks block result }
    {
        let calls = self.index.call_count();
        let from = start_of(blocks, block, calls);
        let to = start_of(blocks, block + 1, calls);
        self.keys_between(alloc, from, to)
    }

    // The keys of all blocks, in their order.
    fn joined(
        &self,
        alloc: Global,
        blocks: u32,
        mut parts: Vec<Result<Vec<(u32, u32)>, AllocError>>,
    ) -> Result<Vec<(u32, u32)>, AllocError>
        requires some { 0 < blocks }
        requires count { length parts.items ≡ blocks }
        requires parts { AreBlocks (calls_of self.now) blocks parts.items }
        ensures { IfOk result (λ keys. keys.items ≡ printed_keys (calls_of self.now)) }
    {
        let mut all = Vec::new(alloc);
        while let Some(part) = parts.pop() {
            let mut keys = part?;
            keys.append(&mut all)?;
            all = keys;
        }
        Ok(all)
    }

    // The keys, rank and number, of the printed calls with numbers from `from` to before `to`, by call number.
    fn keys_between(&self, alloc: Global, from: u32, to: u32) -> Result<Vec<(u32, u32)>, AllocError>
        requires order { from ≤ to }
        requires calls { to ≤ length (calls_of self.now) }
        ensures { IfOk result (λ keys. keys.items ≡ keys_between (calls_of self.now) from to) }
    {
        // this call shows that the events are a history
        let _events = self.index.event_count();
        let mut keys = Vec::with_capacity(alloc, (to - from) as usize)?;
        // the number of completed views before the call
        let mut views = self.views_before(from);
        // the level of the last printed call, to which that of the next is mostly close
        let mut level = 0;
        for number in from..to {
            if let Some(rank) = self.rank(number, views, level) {
                keys.push((rank, number))?;
                level = rank / 2;
            }
            if self.is_view_at(views, number) {
                views += 1;
            }
        }
        Ok(keys)
    }

    // The number of completed views before the call of a number.
    fn views_before(&self, number: u32) -> u32 {
        let mut low = 0;
        let mut high = if number == 0 {
            0
        } else {
            self.index.view_count()
        };
        while low < high {
            let middle = low + (high - low) / 2;
            if self
                .index
                .view_call(middle)
                .is_some_and(|call| call < number)
            {
                low = middle + 1;
            } else {
                high = middle;
            }
        }
        low
    }

    // Whether the completed view at a place is the call of a number.
    fn is_view_at(&self, place: u32, number: u32) -> bool
        ensures { IsTrue result ↔ (option_map number_of (slice_get (views_of (calls_of self.now)) place) ≡ Some number) }
    {
        self.index.view_call(place) == Some(number)
    }

    // The sum of what a completed view shows. It is known already if the view is the one at the place.
    fn sum_of(&self, number: u32, place: u32, view: &View) -> u64
        requires number { number < length (calls_of self.now) }
        requires view { answer_of (call_numbered (calls_of self.now) number) ≡ Some view.now }
        ensures { result ≡ entry_sum view.now }
    {
        if self.is_view_at(place, number) {
            sum_at(&self.sums, place)
        } else {
            entries_sum(view.entries())
        }
    }

    // The rank of a printed call: twice its level, and one more for a view. A view may be the completed view at `place`. The search for
    // the level begins at `near`, and any number will do.
    fn rank(&self, number: u32, place: u32, near: u32) -> Option<u32>
        requires { number < length (calls_of self.now) }
        ensures { let calls = calls_of self.now in result ≡ rank_of calls (call_numbered calls number) }
    {
        let call = self.index.call(number)?;
        match call.op {
            CallOp::Update(entry) => {
                let level = self.update_level(entry, near);
                // a pending update is printed if some completed view shows its number or a later one
                let is_printed = call.ended.is_some() || level < self.index.view_count();
                is_printed.then_some(2 * level)
            }
            CallOp::View => {
                let view = self.index.answer(number)?;
                let sum = self.sum_of(number, place, view);
                Some(2 * self.view_level(sum, near) + 1)
            }
        }
    }

    // The number of completed views that show an earlier number of the entry's component, or none. The search begins at `near`, and
    // any number will do.
    fn update_level(&self, entry: Entry, near: u32) -> u32
        ensures level { result ≡ spec_update_level (calls_of self.now) entry }
        ensures few { result ≤ length (views_of (calls_of self.now)) }
    {
        let Entry {
            component,
            number,
            ..
        } = entry;
        let index = self.index;
        partition_near(&self.chain, near as usize, |place| {
            shown_at(index, *place, component) < number
        }) as u32
    }

    // The number of completed views with a smaller sum than this. The search begins at `near`, and any number will do.
    fn view_level(&self, sum: u64, near: u32) -> u32
        ensures level { result ≡ count_by (λ s. nat_lt (shown_sum s) sum) (views_of (calls_of self.now)) }
        ensures few { result ≤ length (views_of (calls_of self.now)) }
    {
        let sums = self.sums.as_slice();
        partition_near(&self.chain, near as usize, |place| {
            sum_at(sums, *place) < sum
        }) as u32
    }
}

impl<'i, 'h, O: Ownership + Sync> Levels<'i, 'h, O> {
    // The keys of `keys`. At most `workers` workers share the calls: each has a block of them, in a thread of its own.
    pub(crate) fn keys_shared<R: Threads + Sync>(
        &self,
        rt: &R,
        alloc: Global,
        workers: u32,
    ) -> Result<Vec<(u32, u32)>, AllocError>
        ensures { IfOk result (λ keys. keys.items ≡ printed_keys (calls_of self.now)) }
    {
        let blocks = workers.min(self.index.call_count() / CALLS_A_THREAD);
        if blocks < 2 {
            return self.keys(alloc);
        }
        let parts = self.parts(rt, alloc, blocks)?;
        self.joined(alloc, blocks, parts)
    }

    // The keys of each of `blocks` blocks.
    fn parts<R: Threads + Sync>(
        &self,
        rt: &R,
        alloc: Global,
        blocks: u32,
    ) -> Result<Vec<Result<Vec<(u32, u32)>, AllocError>>, AllocError>
        ensures count { IfOk result (λ parts. length parts.items ≡ blocks) }
        ensures parts { IfOk result (λ parts. AreBlocks (calls_of self.now) blocks parts.items) }
    {
        (0..blocks)
            .into_par_iter()
            .map(
                |block: u32| -> Result<Vec<(u32, u32)>, AllocError>
                    requires { block < blocks }
                    ensures { IsBlock (calls_of self.entry.now) blocks block result }
                { self.keys_of_block(alloc, blocks, block) },
            )
            .with_min_len(1)
            .collect(rt, alloc)
    }
}

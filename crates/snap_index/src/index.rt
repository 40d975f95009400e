//! The index of a history, and its look-ups.
ghost use Rattle.std.specs.Prelude.{◌≡◌, ◌<◌, ◌≤◌, ◌+◌, ℕ, length, map, count_by, find, IfOk, slice_get};
ghost use Rattle.std.specs.Option.{option_and_then, option_copied, option_map};
ghost use Rattle.snap_core.specs.Calls.{calls_of, views_of, is_update_numbered, call_numbered, precedes as spec_precedes};
ghost use Rattle.snap_core.specs.Entries.{component_count};
ghost use Rattle.snap_core.specs.Bounded.{IsBoundedBy, IsBoundedOrdered};
ghost use Rattle.snap_index.specs.IndexedCalls.{as_indexed, number_of, write_of, entries_shown, answer_of};
ghost use Rattle.snap_index.specs.Updates.{is_update_of, updates_of, is_pending};

use crate::call::{Call, CallOp, Write};
use crate::listing::{answered, list_calls};
use crate::table::UpdateTable;
use snap_core::{Event, History, OneWriter, Ownership, View};
use std::alloc::{AllocError, Global};
use std::marker::Model;

// The number of a completed view's call, and what the view shows.
#[derive(Clone, Copy)]
struct CompletedView<'h> {
    call: u32,
    view: &'h View,
}

/// The calls of a history, with look-ups by number. A call's number is the number of begins before its own.
#[derive(Drop)]
pub struct Index<'h, O: Ownership = OneWriter> {
    history: &'h History<O>,
    calls: Vec<Call>,
    views: Vec<CompletedView<'h>>,
    updates: UpdateTable<Write>,
    pending: u32,
}

impl<'h, O: Ownership> Model for Index<'h, O> {
    ghost use Rattle.std.specs.Prelude.{List};
    ghost use Rattle.snap_core.specs.declared.event.Event.{Event};

    ghost Value = { List Event };

    ghost use Rattle.snap_index.specs.inside.Tables.{IsIndex};

    ghost view = { λ a. a.history.now.events };

    ghost invariant = { λ a. IsIndex a.history.now.events a.calls.items a.views.items a.updates a.pending };
}

impl<'h, O: Ownership> Index<'h, O> {
    /// The index of a history, which it borrows, by one pass over its events. The error is lack of memory.
    pub fn build(alloc: Global, history: &'h History<O>) -> Result<Index<'h, O>, AllocError>
        ensures { IfOk result (λ index. index ≡ history.now.events) }
    {
        let events = history.events();
        let calls = list_calls(alloc, events)?;
        let mut views = Vec::new(alloc);
        let mut updates = UpdateTable::new(alloc);
        let mut pending = 0;
        for (c, call) in calls.iter().enumerate() {
            let number = c as u32;
            match call.op {
                CallOp::Update(entry) => {
                    let write = Write {
                        call: number,
                        value: entry.value,
                        begun: call.begun,
                        ended: call.ended,
                    };
                    updates.put(entry.component, write)?;
                }
                CallOp::View => {
                    if let Some(view) = answered(events, call.ended) {
                        views.push(CompletedView { call: number, view })?;
                    }
                }
            }
            if call.ended.is_none() {
                pending += 1;
            }
        }
        Ok(Index {
            history,
            calls,
            views,
            updates,
            pending,
        })
    }

    /// The events of the history, in order.
    pub fn events(&self) -> &[Event]
        ensures events { result.now ≡ self.now }
        ensures kept { IsBoundedBy O.writers self.now }
        ensures ordered { IsBoundedOrdered self.now }
    {
        self.history.events()
    }

    /// The number of events of the history.
    pub fn event_count(&self) -> u32
        ensures count { result ≡ length self.now }
        ensures kept { IsBoundedBy O.writers self.now }
        ensures ordered { IsBoundedOrdered self.now }
    {
        self.events().len() as u32
    }

    /// The number of its calls.
    pub fn call_count(&self) -> u32
        ensures { result ≡ length (calls_of self.now) }
    {
        self.calls.len() as u32
    }

    /// The number of calls without an end, updates and views alike.
    pub fn pending_count(&self) -> u32
        ensures { result ≡ count_by is_pending (calls_of self.now) }
    {
        self.pending
    }

    /// The number of completed views.
    pub fn view_count(&self) -> u32
        ensures { result ≡ length (views_of (calls_of self.now)) }
    {
        self.views.len() as u32
    }

    /// The call of a number, counted from 0; none if there is no such call.
    pub fn call(&self, c: u32) -> Option<&Call>
        ensures { option_copied result ≡ option_map as_indexed (slice_get (calls_of self.now) c) }
    {
        self.calls.get(c as usize)
    }

    /// What call `c` answered, if it is a completed view. None for an update, for a pending view, and if there is no such call.
    pub fn answer(&self, c: u32) -> Option<&View>
        ensures { option_copied result ≡ option_and_then answer_of (slice_get (calls_of self.now) c) }
    {
        answered(self.history.events(), self.call(c)?.ended)
    }

    /// The call number of the `i`-th completed view by call number, counted from 0; none if there are fewer.
    pub fn view_call(&self, i: u32) -> Option<u32>
        ensures { result ≡ option_map number_of (slice_get (views_of (calls_of self.now)) i) }
    {
        Some(self.views.get(i as usize)?.call)
    }

    /// What the `i`-th completed view by call number shows, counted from 0; none if there are fewer.
    pub fn view(&self, i: u32) -> Option<&View>
        ensures { option_copied result ≡ option_map entries_shown (slice_get (views_of (calls_of self.now)) i) }
    {
        Some(self.views.get(i as usize)?.view)
    }

    /// The call number of update `n` of component `k`, pending or not; none if there is none. Updates are numbered from 1.
    pub fn update_call(&self, k: u8, n: u32) -> Option<u32>
        ensures { result ≡ option_map number_of (find (is_update_numbered k n) (calls_of self.now)) }
    {
        Some(self.write(k, n)?.call)
    }

    /// Update `n` of component `k`, pending or not; none if there is none. Updates are numbered from 1.
    pub fn update(&self, k: u8, n: u32) -> Option<&Call>
        ensures { option_copied result ≡ option_map as_indexed (find (is_update_numbered k n) (calls_of self.now)) }
    {
        let c = self.update_call(k, n)?;
        self.call(c)
    }

    /// The value, the call number, the begin and the end of update `n` of component `k`, pending or not. Updates are numbered from 1.
    pub fn write(&self, k: u8, n: u32) -> Option<&Write>
        ensures { option_copied result ≡ option_map write_of (find (is_update_numbered k n) (calls_of self.now)) }
    {
        let updates = self.updates(k);
        let place = n.checked_sub(1)?;
        updates.get(place as usize)
    }

    /// The values, call numbers, begins and ends of the updates of component `k`, in their order. Update `n` is the `n`-th.
    pub fn updates(&self, k: u8) -> &[Write]
        ensures updates { result.now ≡ map write_of (updates_of k (calls_of self.now)) }
        ensures kept { IsBoundedBy O.writers self.now }
        ensures ordered { IsBoundedOrdered self.now }
    {
        // this call shows what the events are
        let _events = self.events();
        self.updates.of(k)
    }

    /// The number of updates of component `k`, with the pending ones.
    pub fn update_count(&self, k: u8) -> u32
        ensures { result ≡ count_by (is_update_of k) (calls_of self.now) }
    {
        self.updates(k).len() as u32
    }

    /// One more than the last component with an update; 0 if there is no update.
    pub fn update_limit(&self) -> usize
        ensures few { result ≤ component_count }
        ensures none { (k : ℕ) → result ≤ k → k < component_count → count_by (is_update_of k) (calls_of self.now) ≡ 0 }
        ensures least { (k : ℕ) → result ≡ k + 1 → 0 < count_by (is_update_of k) (calls_of self.now) }
    {
        self.updates.limit()
    }

    /// Whether call `a` precedes call `b`: it ended before that began. Both must be numbers of calls.
    pub fn precedes(&self, a: u32, b: u32) -> bool
        requires a { a < length (calls_of self.now) }
        requires b { b < length (calls_of self.now) }
        ensures { result ≡ spec_precedes (call_numbered (calls_of self.now) a) (call_numbered (calls_of self.now) b) }
    {
        match self.calls[a as usize].ended {
            Some(ended) => ended < self.calls[b as usize].begun,
            None => false,
        }
    }
}

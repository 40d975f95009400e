//! The calls of a history, listed by one pass from its end.
ghost use Rattle.std.specs.Prelude.{◌≡◌, ◌≤◌, ◌<◌, ℕ, length, get_or, map, IfOk};
ghost use Rattle.std.specs.Option.{option_copied};
ghost use Rattle.snap_core.specs.Calls.{calls_of};
ghost use Rattle.snap_core.specs.declared.event.Event.{Event};
ghost use Rattle.snap_core.specs.Events.{event_cap, process_of};
ghost use Rattle.snap_index.specs.Answered.{answered_at};
ghost use Rattle.snap_index.specs.IndexedCalls.{as_indexed, begun_by as spec_begun_by};

use crate::call::{Call, CallOp};
use snap_core::{Event, View};
use std::alloc::{AllocError, Global};

fn begun_by(event: &Event) -> Option<CallOp>
    ensures { result ≡ spec_begun_by event.now }
{
    match event {
        Event::BeginUpdate { entry, .. } => Some(CallOp::Update(*entry)),
        Event::BeginView { .. } => Some(CallOp::View),
        _ => None,
    }
}

/// One more than the greatest process of some events; 0 if there are none.
pub fn process_limit(events: &[Event]) -> usize
    ensures { (i : ℕ) (e : Event) → i < length events.now → process_of (get_or events.now i e) < result }
{
    let mut limit = 0;
    for event in events {
        limit = limit.max(event.process() as usize + 1);
    }
    limit
}

/// The calls of a list of events in the order of their begins, by one pass from the end. The error is lack of memory.
pub fn list_calls(alloc: Global, events: &[Event]) -> Result<Vec<Call>, AllocError>
    requires { length events.now ≤ event_cap }
    ensures { IfOk result (λ calls. calls.items ≡ map as_indexed (calls_of events.now)) }
{
    // the place of each process's next event
    let mut next: Vec<Option<u32>> = vec![in alloc; None; process_limit(events)]?;
    // most calls have two events
    let mut calls = Vec::with_capacity(alloc, events.len() / 2 + 1)?;
    let mut i = events.len();
    while i > 0 {
        i -= 1;
        let event = &events[i];
        let p = event.process();
        let ended = next[p as usize];
        if let Some(op) = begun_by(event) {
            calls.push(Call {
                process: p,
                op,
                begun: i as u32,
                ended,
            })?;
        }
        next[p as usize] = Some(i as u32);
    }
    calls.reverse();
    Ok(calls)
}

/// What the event at the end of a call answers, if the call has an end and the event ends a view.
pub fn answered(events: &[Event], ended: Option<u32>) -> Option<&View>
    ensures { option_copied result ≡ answered_at events.now ended }
{
    match events.get(ended? as usize)? {
        Event::EndView { view, .. } => Some(view),
        _ => None,
    }
}

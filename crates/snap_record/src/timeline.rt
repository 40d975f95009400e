//! The records of all workers, put in order by their stamps.
ghost use Rattle.std.specs.Prelude.{◌≡◌, ◌≤◌, IfOk, length};
ghost use Rattle.snap_core.specs.Events.{IsHistory};
ghost use Rattle.snap_board.specs.History.{begin_of, end_of, stamped_events, events_in, event_stamps, Merged, AreApart};

use snap_board::{Record, RecordedOp};
use snap_core::{Event, EventRefusal, History, Limit};
use std::alloc::{AllocError, Global};

// The begin and the end of a call, each with its stamp.
fn ends_of(call: Record) -> ((u64, Event), (u64, Event))
    ensures begin { result.0 ≡ (call.begun, begin_of call.process call.op) }
    ensures end { result.1 ≡ (call.ended, end_of call.process call.op) }
{
    let Record {
        process,
        begun,
        ended,
        op,
    } = call;
    let (begin, end) = match op {
        RecordedOp::Stored(entry) => (
            Event::BeginUpdate { process, entry },
            Event::EndUpdate { process },
        ),
        RecordedOp::Viewed(view) => (
            Event::BeginView { process },
            Event::EndView { process, view },
        ),
    };
    ((begun, begin), (ended, end))
}

// The begins and ends of the records, each with its stamp.
fn stamped(alloc: Global, all: Vec<Record>) -> Result<Vec<(u64, Event)>, AllocError>
    ensures { IfOk result (λ events. events.items ≡ stamped_events all.items) }
{
    let mut events = Vec::new(alloc);
    'each: for call in all {
        let (begin, end) = ends_of(call);
        events.push(begin)?;
        events.push(end)?;
    }
    Ok(events)
}

/// The begins and ends of the records, in the order of their stamps.
pub(crate) fn in_order(alloc: Global, all: Vec<Record>) -> Result<Vec<(u64, Event)>, AllocError>
    requires { AreApart (stamped_events all.items) }
    ensures merged { IfOk result (λ events. Merged all.items events.items) }
    ensures len { IfOk result (λ events. length events.items ≡ length (stamped_events all.items)) }
{
    let mut events = stamped(alloc, all)?;
    events.sort_unstable_by_key(
        |event| -> u64
            ensures { result ≡ event.now.0 }
        { event.0 },
    );
    Ok(events)
}

pub(crate) fn stamps_of(alloc: Global, events: &[(u64, Event)]) -> Result<Vec<u64>, AllocError>
    ensures { IfOk result (λ stamps. stamps.items ≡ event_stamps events.now) }
{
    let mut stamps = Vec::new(alloc);
    'each: for k in 0..events.len() {
        stamps.push(events[k].0)?;
    }
    Ok(stamps)
}

/// The history of these events, by a limit of events.
pub(crate) fn history_of(
    alloc: Global,
    events: Vec<(u64, Event)>,
    limit: Limit,
) -> Result<History, AllocError>
    requires history { IsHistory (events_in events.items) }
    requires short { length events.items ≤ limit.events }
    ensures events { IfOk result (λ history. history.events ≡ events_in events.items) }
    ensures limit { IfOk result (λ history. history.limit.events ≡ limit.events) }
{
    let mut history = History::with_limit(alloc, limit);
    'each: for (_, event) in events {
        match history.push(event) {
            Ok(()) => {}
            Err((_, refusal)) => {
                let is_memory = refusal == EventRefusal::Memory;
                prove!(is_memory);
                return Err(AllocError);
            }
        }
    }
    Ok(history)
}

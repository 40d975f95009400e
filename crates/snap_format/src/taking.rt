//! Records that a history takes in order.
ghost use Rattle.std.specs.Prelude.{◌≡◌, ◌≤◌, ◌+◌, ◌∷◌, [], Ok, MatchOption};
ghost use Rattle.snap_core.specs.Events.{event_cap};
ghost use Rattle.snap_format.specs.Faults.{fault_of};
ghost use Rattle.snap_format.specs.Taking.{TakesEvent, TakesRow};
ghost use Rattle.snap_text.specs.Fields.{Fields, row_event};

use crate::fault::fault_for;
use crate::fields::event_of_record;
use crate::refusal::ReadRefusal;
use snap_core::{AnyWriters, Event, EventRefusal, History, Limit};
use snap_text::{Known, TextFault};
use std::alloc::Global;

/// The most records that are read: one more than a history may have events, since that one has a fault.
pub fn row_limit(limit: Limit) -> u32
    ensures rows { result ≡ limit.events + 1 }
    ensures most { result ≤ event_cap + 1 }
{
    limit.events() as u32 + 1
}

/// Adds the event of a record to a history, by the record's four fields. The refusal is the record's fault, or want of memory.
#[inline(always)]
pub fn take_fields(
    alloc: Global,
    known: &mut Known,
    history: &mut History<AnyWriters>,
    place: u32,
    fields: (&[u8], &[u8], &[u8], &[u8]),
) -> Result<(), ReadRefusal>
    ensures takes { TakesRow history.old.limit place history.old.events history.new.events (fields.entry.0.now ∷ fields.entry.1.now ∷ fields.entry.2.now ∷ fields.entry.3.now ∷ []) result }
    ensures limit { history.new.limit ≡ history.old.limit }
{
    let (event, process, op, data) = fields;
    match event_of_record(alloc, known, place, event, process, op, data) {
        // a full history refuses every event
        Ok(event) => take_event(history, place, event),
        Err(_) if history.is_full() => Err(ReadRefusal::Text {
            place,
            fault: TextFault::TooMany,
        }),
        Err(refusal) => Err(refusal),
    }
}

/// Adds the event of a record to a history. The refusal is the record's fault, or want of memory.
#[inline(always)]
pub fn take_event(
    history: &mut History<AnyWriters>,
    place: u32,
    event: Event,
) -> Result<(), ReadRefusal>
    ensures takes { (r : Fields) → row_event r ≡ Ok event → TakesRow history.old.limit place history.old.events history.new.events r result }
    ensures limit { history.new.limit ≡ history.old.limit }
{
    if let Err((_, refusal)) = history.push(event) {
        return Err(refused_at(place, refusal));
    }
    Ok(())
}

/// Adds an event to a history. The refusal is the event's fault, with this place, or want of memory.
pub(crate) fn push_event(
    history: &mut History<AnyWriters>,
    place: u32,
    event: Event,
) -> Result<(), ReadRefusal>
    ensures takes { TakesEvent history.old.limit place history.old.events history.new.events event result }
    ensures limit { history.new.limit ≡ history.old.limit }
{
    if let Err((_, refusal)) = history.push(event) {
        return Err(refused_at(place, refusal));
    }
    Ok(())
}

// The answer to a record whose event a history refuses.
fn refused_at(place: u32, refusal: EventRefusal) -> ReadRefusal
    ensures { MatchOption (fault_of refusal) (result ≡ ReadRefusal.Memory) (λ fault. result ≡ ReadRefusal.Text place fault) }
{
    match fault_for(refusal) {
        Some(fault) => ReadRefusal::Text { place, fault },
        None => ReadRefusal::Memory,
    }
}

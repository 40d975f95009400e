//! Records with stamps, and their events in the order of the stamps.
ghost use Rattle.std.specs.Prelude.{◌≡◌, ◌∷◌, [], List, IfOk};
ghost use Rattle.snap_format.specs.Stamps.{places_of};
ghost use Rattle.snap_core.specs.declared.limit.Limit.{Limit};
ghost use Rattle.snap_format.specs.StampedTexts.{OrdersStamped};
ghost use Rattle.snap_format.specs.Stamping.{AnswersStamps, ReadsStamped, TakesStamped, TakesTurns};
ghost use Rattle.snap_text.specs.Fields.{Fields};

use crate::fields::stamped_of_record;
use crate::refusal::ReadRefusal;
use crate::repeats::{are_rising, repeated_place, sort_by_stamp};
use crate::stamped::Stamped;
use crate::taking::push_event;
use snap_core::{AnyWriters, History, Limit};
use snap_text::{Known, TextFault};
use std::alloc::{AllocError, Global};

/// Adds the stamped event of a record to those before it, by the record's five fields. It does not check that the stamp is new.
pub fn take_stamped(
    alloc: Global,
    known: &mut Known,
    stamped: &mut Vec<Stamped>,
    limit: Limit,
    place: u32,
    fields: (&[u8], &[u8], &[u8], &[u8], &[u8]),
) -> Result<(), ReadRefusal>
    ensures { TakesStamped limit place stamped.old.items stamped.new.items (fields.entry.0.now ∷ fields.entry.1.now ∷ fields.entry.2.now ∷ fields.entry.3.now ∷ fields.entry.4.now ∷ []) result }
{
    if stamped.len() >= limit.events() {
        return Err(ReadRefusal::Text {
            place,
            fault: TextFault::TooMany,
        });
    }
    let (at, event) = stamped_of_record(alloc, known, place, fields)?;
    stamped.push(Stamped { at, place, event })?;
    Ok(())
}

// The numbers of the records of events.
fn places_in(alloc: Global, stamped: &[Stamped]) -> Result<Vec<u32>, AllocError>
    ensures { IfOk result (λ places. places.items ≡ places_of stamped.now) }
{
    stamped.iter().map(|event| event.place).collect(alloc)
}

// The history of events in this order, or the first fault.
fn take_turns(
    alloc: Global,
    stamped: Vec<Stamped>,
    limit: Limit,
) -> Result<History<AnyWriters>, ReadRefusal>
    ensures { TakesTurns limit stamped.items result }
{
    let mut history = History::of_any(alloc, limit);
    'each: for Stamped {
        at: _,
        place,
        event,
    } in stamped {
        push_event(&mut history, place, event)?;
    }
    Ok(history)
}

/// Stamped events in the order of their stamps, or the first fault of a record by itself. The events were taken from records, up to
/// the first with a fault other than a repeated stamp. Sorted by stamps, they show whether one repeats.
pub fn in_stamp_order(
    alloc: Global,
    mut stamped: Vec<Stamped>,
    read: Result<(), ReadRefusal>,
) -> Result<Vec<Stamped>, ReadRefusal>
    ensures { (limit : Limit) (rows : List Fields) → ReadsStamped limit rows stamped.items read → OrdersStamped limit rows result }
{
    sort_by_stamp(&mut stamped);
    if !are_rising(&stamped) {
        return Err(ReadRefusal::Text {
            place: repeated_place(alloc, stamped)?,
            fault: TextFault::Repeated,
        });
    }
    read?;
    Ok(stamped)
}

/// The history of stamped events in the order of their stamps, and the number of each event's record; or the first fault. The events
/// were taken from records, as for `in_stamp_order`.
pub fn history_by_stamps(
    alloc: Global,
    stamped: Vec<Stamped>,
    read: Result<(), ReadRefusal>,
    limit: Limit,
) -> Result<(History<AnyWriters>, Vec<u32>), ReadRefusal>
    ensures { (rows : List Fields) → ReadsStamped limit rows stamped.items read → AnswersStamps limit rows result }
{
    let sorted = in_stamp_order(alloc, stamped, read)?;
    let places = places_in(alloc, &sorted)?;
    Ok((take_turns(alloc, sorted, limit)?, places))
}

//! The fields of one record: whether they are a header, and the event that they spell.
ghost use Rattle.std.specs.Prelude.{◌≡◌, ◌∷◌, []};
ghost use Rattle.snap_format.specs.Layout.{is_header_row, is_stamped_header_row};
ghost use Rattle.snap_format.specs.Stamps.{stamped_row};
ghost use Rattle.snap_format.specs.Taking.{GivesFields};
ghost use Rattle.snap_text.specs.Fields.{event_of};

use crate::refusal::ReadRefusal;
use snap_core::Event;
use snap_text::{Known, TextFault, stamp_of};
use std::alloc::Global;

/// Whether four fields are those of the header.
pub fn are_header(fields: (&[u8], &[u8], &[u8], &[u8])) -> bool
    ensures { result ≡ is_header_row (fields.entry.0.now ∷ fields.entry.1.now ∷ fields.entry.2.now ∷ fields.entry.3.now ∷ []) }
{
    let (a, b, c, d) = fields;
    a == b"event".as_slice()
        && b == b"process".as_slice()
        && c == b"op".as_slice()
        && d == b"data".as_slice()
}

/// Whether five fields are those of the header of a text whose records have stamps.
pub fn are_stamped_header(fields: (&[u8], &[u8], &[u8], &[u8], &[u8])) -> bool
    ensures { result ≡ is_stamped_header_row (fields.entry.0.now ∷ fields.entry.1.now ∷ fields.entry.2.now ∷ fields.entry.3.now ∷ fields.entry.4.now ∷ []) }
{
    let (t, a, b, c, d) = fields;
    t == b"at".as_slice() && are_header((a, b, c, d))
}

/// The event that the four fields of a record at a place spell, or the first fault in them.
pub fn event_of_record(
    alloc: Global,
    known: &mut Known,
    place: u32,
    event: &[u8],
    process: &[u8],
    op: &[u8],
    text: &[u8],
) -> Result<Event, ReadRefusal>
    ensures { GivesFields place result (event_of event.now process.now op.now text.now) }
{
    match snap_text::event_of_fields(alloc, known, event, process, op, text)? {
        Ok(event) => Ok(event),
        Err(fault) => Err(ReadRefusal::Text { place, fault }),
    }
}

/// The stamp and the event that the five fields of a record at a place spell, or the first fault in them.
#[inline(always)]
pub fn stamped_of_record(
    alloc: Global,
    known: &mut Known,
    place: u32,
    fields: (&[u8], &[u8], &[u8], &[u8], &[u8]),
) -> Result<(u64, Event), ReadRefusal>
    ensures { GivesFields place result (stamped_row (fields.entry.0.now ∷ fields.entry.1.now ∷ fields.entry.2.now ∷ fields.entry.3.now ∷ fields.entry.4.now ∷ [])) }
{
    let (at, event, process, op, data) = fields;
    let Some(at) = stamp_of(at) else {
        return Err(ReadRefusal::Text {
            place,
            fault: TextFault::BadAt,
        });
    };
    let event = event_of_record(alloc, known, place, event, process, op, data)?;
    Ok((at, event))
}

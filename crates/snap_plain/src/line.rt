//! The record of one plain line, for a text that is read line by line.
ghost use Rattle.std.specs.Prelude.{◌≡◌, ◌∷◌, [], Ok, IfSome};
ghost use Rattle.snap_format.specs.Rows.{rows_of};
ghost use Rattle.snap_format.specs.Stamps.{stamped_row};
ghost use Rattle.snap_plain.specs.Lines.{HasRows};
ghost use Rattle.snap_text.specs.Fields.{Fields, row_event};

use crate::ahead::event_first;
use crate::fields::five_first;
use crate::front::{behind_newlines, behind_order_mark};
use crate::lines::is_plain;
use snap_core::Event;
use snap_format::stamped_of_record;
use snap_text::Known;
use std::alloc::Global;

// A plain line behind a byte order mark. None if the line is not plain.
fn plain_line(line: &[u8]) -> Option<&[u8]>
    ensures { IfSome result (λ plain. HasRows plain.now (rows_of line.now)) }
{
    if is_plain(line) {
        Some(behind_order_mark(line))
    } else {
        None
    }
}

/// The event that a plain line spells, without `csv`. None if the line has a fault or memory ran out: then `csv` reads it.
pub fn plain_event(alloc: Global, known: &mut Known, line: &[u8]) -> Option<Event>
    ensures { IfSome result (λ x. (row : Fields) × (rows_of line.now ≡ row ∷ []) × (row_event row ≡ Ok x)) }
{
    let line = plain_line(line)?;
    let Ok(Some((event, rest))) = event_first(alloc, known, line) else {
        return None;
    };
    if !rest.is_empty() {
        return None;
    }
    Some(event)
}

/// The same for a line with a stamp: the stamp and the event that it spells.
pub fn plain_stamped(alloc: Global, known: &mut Known, line: &[u8]) -> Option<(u64, Event)>
    ensures { IfSome result (λ x. (row : Fields) × (rows_of line.now ≡ row ∷ []) × (stamped_row row ≡ Ok x)) }
{
    let line = behind_newlines(plain_line(line)?, 0);
    let (fields, rest) = five_first(line)?;
    if !rest.is_empty() {
        return None;
    }
    stamped_of_record(alloc, known, 0, fields).ok()
}

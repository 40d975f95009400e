//! The record of one line, for a text that is read line by line.
ghost use Rattle.std.specs.Prelude.{◌≡◌, [], IfOk, List, MatchOption};
ghost use Rattle.csv.specs.Records.{fields_of};
ghost use Rattle.snap_csv.specs.OneLine.{AnswersHeader, AnswersLine, HasFirst};
ghost use Rattle.snap_csv.specs.inside.Rows.{Stands};
ghost use Rattle.snap_format.specs.Rows.{rows_of};
ghost use Rattle.snap_text.specs.Fields.{Fields};

use crate::fields::{four_fields, is_header};
use crate::rows::{next_row, reader_of};
use csv::{ByteRecord, Reader};
use snap_core::Event;
use snap_format::{ReadRefusal, event_of_record};
use snap_plain::plain_event;
use snap_text::{Known, TextFault};
use std::alloc::{AllocError, Global};

/// Reads the first record of a line, and says whether it is the only one; none if the line has no record.
pub(crate) fn only_row(
    alloc: Global,
    line: &[u8],
    row: &mut ByteRecord,
) -> Result<Option<bool>, AllocError>
    ensures { IfOk result (λ found. MatchOption found (rows_of line.now ≡ []) (HasFirst (rows_of line.now) (fields_of row.new))) }
{
    only_row_left(alloc, &mut reader_of(alloc, line), row)
}

// Reads the first record that a reader has left, and says whether it is the only one; none if there is no record.
fn only_row_left(
    alloc: Global,
    reader: &mut Reader<&[u8]>,
    row: &mut ByteRecord,
) -> Result<Option<bool>, AllocError>
    ensures { (rows : List Fields) → Stands reader.old rows → IfOk result (λ found. MatchOption found (rows ≡ []) (HasFirst rows (fields_of row.new))) }
{
    if !next_row(reader, row)? {
        return Ok(None);
    }
    let more = next_row(reader, &mut ByteRecord::new(alloc))?;
    Ok(Some(!more))
}

/// Whether a line is the header of a text without stamps, and nothing else; none if the line has no record.
pub fn is_header_line(alloc: Global, line: &[u8]) -> Result<Option<bool>, AllocError>
    ensures { AnswersHeader (rows_of line.now) result }
{
    let mut row = ByteRecord::new(alloc);
    match only_row(alloc, line, &mut row)? {
        None => Ok(None),
        Some(only) => Ok(Some(only && is_header(&row))),
    }
}

/// The event that the record of a line spells, or the fault of the line at the given place; none if the line has no record.
/// `known` has what is known of earlier views. It makes the reading faster, and changes no answer.
pub fn read_line(
    alloc: Global,
    known: &mut Known,
    line: &[u8],
    place: u32,
) -> Result<Option<Event>, ReadRefusal>
    ensures { AnswersLine place (rows_of line.now) result }
{
    if let Some(event) = plain_event(alloc, known, line) {
        return Ok(Some(event));
    }
    let mut row = ByteRecord::new(alloc);
    let Some(only) = only_row(alloc, line, &mut row)? else {
        return Ok(None);
    };
    if only {
        if let Some((event, process, op, data)) = four_fields(&row) {
            let event = event_of_record(alloc, known, place, event, process, op, data)?;
            return Ok(Some(event));
        }
    }
    Err(ReadRefusal::Text {
        place,
        fault: TextFault::Fields,
    })
}

//! The record of one line, for a text with stamps that is read line by line.
ghost use Rattle.snap_csv.specs.OneLine.{AnswersStamped, AnswersStampedHeader};
ghost use Rattle.snap_format.specs.Rows.{rows_of};

use crate::fields::{five_fields, is_stamped_header};
use crate::line::only_row;
use csv::ByteRecord;
use snap_core::Event;
use snap_format::{ReadRefusal, stamped_of_record};
use snap_plain::plain_stamped;
use snap_text::{Known, TextFault};
use std::alloc::{AllocError, Global};

/// Whether a line is the header of a text whose records have stamps, and nothing else; none if the line has no record.
pub fn is_stamped_header_line(alloc: Global, line: &[u8]) -> Result<Option<bool>, AllocError>
    ensures { AnswersStampedHeader (rows_of line.now) result }
{
    let mut row = ByteRecord::new(alloc);
    match only_row(alloc, line, &mut row)? {
        None => Ok(None),
        Some(only) => Ok(Some(only && is_stamped_header(&row))),
    }
}

/// The stamp and the event that the record of a line spells, or the fault of the line at the given place; none if the line has no
/// record. `known` is as in `read_line`.
pub fn read_stamped_line(
    alloc: Global,
    known: &mut Known,
    line: &[u8],
    place: u32,
) -> Result<Option<(u64, Event)>, ReadRefusal>
    ensures { AnswersStamped place (rows_of line.now) result }
{
    if let Some(found) = plain_stamped(alloc, known, line) {
        return Ok(Some(found));
    }
    let mut row = ByteRecord::new(alloc);
    let Some(only) = only_row(alloc, line, &mut row)? else {
        return Ok(None);
    };
    if only {
        if let Some(fields) = five_fields(&row) {
            let found = stamped_of_record(alloc, known, place, fields)?;
            return Ok(Some(found));
        }
    }
    Err(ReadRefusal::Text {
        place,
        fault: TextFault::Fields,
    })
}

//! The history of a text, or the first fault.
ghost use Rattle.std.specs.Prelude.{◌≡◌, ◌∷◌, [], true, List, All, IfOk, IfSome, IsTrue};
ghost use Rattle.snap_core.specs.Counting.{inner_of, failures_in};
ghost use Rattle.snap_core.specs.UsualLimits.{usual_limit};
ghost use Rattle.snap_csv.specs.Answers.{AnswersText, AnswersWhole, Counts, Leaves};
ghost use Rattle.snap_csv.specs.inside.Rows.{Stands};
ghost use Rattle.snap_format.specs.Layout.{is_header_row};
ghost use Rattle.snap_format.specs.Rows.{rows_of};
ghost use Rattle.snap_plain.specs.Lines.{IsPlain};
ghost use Rattle.snap_format.specs.Taking.{AnswersNumbered, AnswersRows, Midway, TakesRest, TakesRow};
ghost use Rattle.snap_text.specs.Fields.{Fields};
ghost use Rattle.csv.specs.Records.{fields_of};

use crate::fields::{four_fields, is_header, is_stamped_header};
use crate::intake::take_in;
use crate::rows::{next_row, reader_of};
use crate::stamped::stamped_history;
use csv::{ByteRecord, Reader};
use snap_core::{AnyWriters, Counted, History, Limit};
use snap_format::{ReadRefusal, bytes_within, row_limit, take_fields};
use snap_plain::{history_of_lines, history_of_lines_shared, is_plain, lines_of};
use snap_text::{Known, TextFault};
use snap_threads::Cutting;
use std::alloc::Global;
use std::io::Read;
use std::thread::Threads;

// Adds the event of a record to a history.
fn take_row(
    alloc: Global,
    known: &mut Known,
    history: &mut History<AnyWriters>,
    place: u32,
    row: &ByteRecord,
) -> Result<(), ReadRefusal>
    ensures takes { TakesRow history.old.limit place history.old.events history.new.events (fields_of row.now) result }
    ensures limit { history.new.limit ≡ history.old.limit }
{
    let Some(fields) = four_fields(row) else {
        return Err(ReadRefusal::Text {
            place,
            fault: TextFault::Fields,
        });
    };
    take_fields(alloc, known, history, place, fields)
}

/// The history of a text, or its first fault; and the numbers of its events' records if these have stamps. Records without
/// stamps follow one another, and their numbers are not kept. A text that is known to be plain may be cut at its marks.
pub(crate) fn numbered_history(
    alloc: Global,
    text: &[u8],
    plain: bool,
    limit: Limit,
) -> Result<(History<AnyWriters>, Option<Vec<u32>>), ReadRefusal>
    requires { IsTrue plain → All IsPlain text.now }
    ensures { AnswersNumbered limit (rows_of text.now) result }
{
    if plain {
        history_of_lines(alloc, lines_of(text), limit)
    } else {
        rows_history(alloc, text, limit)
    }
}

/// The answer of `numbered_history`. The workers of a cutting share the reading of a plain text.
pub(crate) fn numbered_shared<Rt: Threads + Sync>(
    rt: &Rt,
    alloc: Global,
    text: &[u8],
    plain: bool,
    limit: Limit,
    cutting: Cutting,
) -> Result<(History<AnyWriters>, Option<Vec<u32>>), ReadRefusal>
    requires { IsTrue plain → All IsPlain text.now }
    ensures { AnswersNumbered limit (rows_of text.now) result }
{
    if !plain {
        return rows_history(alloc, text, limit);
    }
    history_of_lines_shared(rt, alloc, lines_of(text), limit, cutting)
}

// The answer of `numbered_history` for any text, by `csv`.
fn rows_history(
    alloc: Global,
    text: &[u8],
    limit: Limit,
) -> Result<(History<AnyWriters>, Option<Vec<u32>>), ReadRefusal>
    ensures { AnswersNumbered limit (rows_of text.now) result }
{
    history_by_rows(
        alloc,
        &mut Known::new(alloc),
        &mut reader_of(alloc, text),
        &mut ByteRecord::new(alloc),
        limit,
    )
}

// The answer of `numbered_history` for the records that a reader has left.
fn history_by_rows(
    alloc: Global,
    known: &mut Known,
    reader: &mut Reader<&[u8]>,
    row: &mut ByteRecord,
    limit: Limit,
) -> Result<(History<AnyWriters>, Option<Vec<u32>>), ReadRefusal>
    ensures { (rows : List Fields) → Stands reader.old rows → AnswersNumbered limit rows result }
{
    if next_row(reader, row)? {
        if is_header(row) {
            return history_under_header(alloc, known, reader, row, limit);
        }
        if is_stamped_header(row) {
            let (history, records) = stamped_history(alloc, known, reader, row, limit)?;
            return Ok((history, Some(records)));
        }
    }
    Err(ReadRefusal::Text {
        place: 1,
        fault: TextFault::Header,
    })
}

// The history of the records that a reader has left under the header, or the first fault.
fn history_under_header(
    alloc: Global,
    known: &mut Known,
    reader: &mut Reader<&[u8]>,
    row: &mut ByteRecord,
    limit: Limit,
) -> Result<(History<AnyWriters>, Option<Vec<u32>>), ReadRefusal>
    ensures { (head : Fields) (later : List Fields) → is_header_row head ≡ true → Stands reader.old later → AnswersNumbered limit (head ∷ later) result }
{
    let mut history = History::of_any(alloc, limit);
    take_rows(alloc, known, reader, row, limit, &mut history)?;
    Ok((history, None))
}

// Adds the events of the records that a reader has left to an empty history, up to the first fault.
fn take_rows(
    alloc: Global,
    known: &mut Known,
    reader: &mut Reader<&[u8]>,
    row: &mut ByteRecord,
    limit: Limit,
    history: &mut History<AnyWriters>,
) -> Result<(), ReadRefusal>
    requires limit { history.old.limit ≡ limit }
    requires empty { history.old.events ≡ [] }
    ensures { (rows : List Fields) → Midway limit rows (Stands reader.old) history.old.events 0 → TakesRest limit rows history.new result }
{
    for i in 0..row_limit(limit) {
        if !next_row(reader, row)? {
            return Ok(());
        }
        take_row(alloc, known, history, i + 2, row)?;
    }
    unreachable!()
}

// The history of a text, or its first fault.
fn history_of(
    alloc: Global,
    text: &[u8],
    plain: bool,
    limit: Limit,
) -> Result<History<AnyWriters>, ReadRefusal>
    requires { IsTrue plain → All IsPlain text.now }
    ensures { AnswersRows limit (rows_of text.now) result }
{
    let (history, _) = numbered_history(alloc, text, plain, limit)?;
    Ok(history)
}

// The history of a text, or its first fault. The workers of a cutting share the reading of a plain text.
fn history_shared<Rt: Threads + Sync>(
    rt: &Rt,
    alloc: Global,
    text: &[u8],
    plain: bool,
    limit: Limit,
    cutting: Cutting,
) -> Result<History<AnyWriters>, ReadRefusal>
    requires { IsTrue plain → All IsPlain text.now }
    ensures { AnswersRows limit (rows_of text.now) result }
{
    let (history, _) = numbered_shared(rt, alloc, text, plain, limit, cutting)?;
    Ok(history)
}

/// Reads a history: first the whole text, at most 67,108,864 bytes, and then its records in order. If the text has no fault, the
/// answer is its history, with the usual limit of events. Else it is the first fault with the place of its record. Places count
/// from 1, and a text that is too long has its fault at place 0.
///
/// `Device` is the answer at the first read that fails, of whatever kind: it is not tried again. The reader's count of failures
/// then rose, or is at `u64::MAX`. `Memory` is the answer if memory ran out. With every answer but `Device` the count is
/// unchanged. After an error a part of the text is taken from the reader.
pub fn read_history<R: Read>(alloc: Global, reader: &mut Counted<R>) -> Result<History, ReadRefusal>
    ensures text { IfSome (R.remaining (inner_of reader.old)) (λ text. AnswersText usual_limit text result) }
    ensures limit { IfOk result (λ history. history.limit ≡ usual_limit) }
    ensures counts { Counts (failures_in reader.old) (failures_in reader.new) result }
{
    let limit = Limit::usual();
    let mut room = Vec::new(alloc);
    let plain = take_in(alloc, reader, &mut room, limit)?;
    let history = history_of(alloc, &room, plain, limit)?;
    Ok(history.into_one())
}

/// Reads as `read_history`, for a history of at most as many events as the limit, and a text of at most 1,024 bytes for each.
/// The history has this limit. Workers of a cutting read pieces of a long text side by side. The calling thread alone reads a
/// text with stamps, quotes or carriage returns. The text is left in a vector, even if it was refused at a record, so that the
/// vector's memory can serve for something else. What the vector had is lost.
pub fn read_history_with<Rt: Threads + Sync, R: Read>(
    rt: &Rt,
    alloc: Global,
    reader: &mut Counted<R>,
    room: &mut Vec<u8>,
    limit: Limit,
    cutting: Cutting,
) -> Result<History<AnyWriters>, ReadRefusal>
    ensures text { IfSome (R.remaining (inner_of reader.old)) (λ text. AnswersText limit text result) }
    ensures limit { IfOk result (λ history. history.limit ≡ limit) }
    ensures counts { Counts (failures_in reader.old) (failures_in reader.new) result }
    ensures room { IfSome (R.remaining (inner_of reader.old)) (λ text. Leaves text room.new.items result) }
{
    let plain = take_in(alloc, reader, room, limit)?;
    history_shared(rt, alloc, room, plain, limit, cutting)
}

/// Reads the history of a text in memory: the text is not copied, and no device can fail. The history may have as many events as
/// the limit, and the text 1,024 bytes for each.
pub fn read_text(
    alloc: Global,
    text: &[u8],
    limit: Limit,
) -> Result<History<AnyWriters>, ReadRefusal>
    ensures text { AnswersWhole limit text.now result }
    ensures limit { IfOk result (λ history. history.limit ≡ limit) }
{
    if text.len() > bytes_within(limit) {
        return Err(ReadRefusal::Text {
            place: 0,
            fault: TextFault::TooLong,
        });
    }
    history_of(alloc, text, is_plain(text), limit)
}

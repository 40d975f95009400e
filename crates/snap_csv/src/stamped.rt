//! Histories in texts whose records have stamps, as `csv` reads them.
ghost use Rattle.std.specs.Prelude.{◌≡◌, ◌≤◌, [], IfOk, IfSome, List, length};
ghost use Rattle.csv.specs.Records.{fields_of};
ghost use Rattle.snap_core.specs.Counting.{failures_in, inner_of};
ghost use Rattle.snap_csv.specs.Answers.{Counts, Leaves};
ghost use Rattle.snap_csv.specs.StampedAnswers.{AnswersStampedText};
ghost use Rattle.snap_csv.specs.inside.Rows.{Stands};
ghost use Rattle.snap_csv.specs.inside.StampedRows.{AnswersStampedRows};
ghost use Rattle.snap_format.specs.Rows.{rows_of};
ghost use Rattle.snap_format.specs.StampedTexts.{OrdersStamped};
ghost use Rattle.snap_format.specs.Stamping.{AnswersStamps, ReadsStamped, TakesStamped};
ghost use Rattle.snap_text.specs.Fields.{Fields};

use crate::fields::{five_fields, is_stamped_header};
use crate::intake::take_in;
use crate::rows::{next_row, reader_of};
use csv::{ByteRecord, Reader};
use snap_core::{AnyWriters, Counted, History, Limit};
use snap_format::{
    ReadRefusal, Stamped, history_by_stamps, in_stamp_order, row_limit, take_stamped,
};
use snap_text::{Known, TextFault};
use std::alloc::Global;
use std::io::Read;

// Adds the stamped event of a record of `csv` to those before it.
fn take_stamped_row(
    alloc: Global,
    known: &mut Known,
    stamped: &mut Vec<Stamped>,
    limit: Limit,
    place: u32,
    row: &ByteRecord,
) -> Result<(), ReadRefusal>
    ensures { TakesStamped limit place stamped.old.items stamped.new.items (fields_of row.now) result }
{
    let Some(fields) = five_fields(row) else {
        return Err(ReadRefusal::Text {
            place,
            fault: TextFault::Fields,
        });
    };
    take_stamped(alloc, known, stamped, limit, place, fields)
}

// Takes the stamped events of the records that are left, up to the first with a fault other than a repeated stamp.
fn read_stamped(
    alloc: Global,
    known: &mut Known,
    reader: &mut Reader<&[u8]>,
    row: &mut ByteRecord,
    limit: Limit,
    stamped: &mut Vec<Stamped>,
) -> Result<(), ReadRefusal>
    requires { stamped.old.items ≡ [] }
    ensures { (rows : List Fields) → Stands reader.old rows → ReadsStamped limit rows stamped.new.items result }
{
    for i in 0..row_limit(limit) {
        if !next_row(reader, row)? {
            return Ok(());
        }
        take_stamped_row(alloc, known, stamped, limit, i + 2, row)?;
    }
    unreachable!()
}

/// The history of the records that a reader has left, each with a stamp, and the number of each event's record; or the
/// first fault.
pub(crate) fn stamped_history(
    alloc: Global,
    known: &mut Known,
    reader: &mut Reader<&[u8]>,
    row: &mut ByteRecord,
    limit: Limit,
) -> Result<(History<AnyWriters>, Vec<u32>), ReadRefusal>
    ensures { (rows : List Fields) → Stands reader.old rows → AnswersStamps limit rows result }
{
    let mut stamped = Vec::new(alloc);
    let read = read_stamped(alloc, known, reader, row, limit, &mut stamped);
    history_by_stamps(alloc, stamped, read, limit)
}

// The stamped events of the records that a reader has left, in the order of their stamps; or the first fault of a record by itself.
fn events_under_header(
    alloc: Global,
    known: &mut Known,
    reader: &mut Reader<&[u8]>,
    row: &mut ByteRecord,
    limit: Limit,
) -> Result<Vec<Stamped>, ReadRefusal>
    ensures { (rows : List Fields) → Stands reader.old rows → OrdersStamped limit rows result }
{
    let mut stamped = Vec::new(alloc);
    let read = read_stamped(alloc, known, reader, row, limit, &mut stamped);
    in_stamp_order(alloc, stamped, read)
}

// The same for a reader that has the header left too.
fn events_by_rows(
    alloc: Global,
    known: &mut Known,
    reader: &mut Reader<&[u8]>,
    row: &mut ByteRecord,
    limit: Limit,
) -> Result<Vec<Stamped>, ReadRefusal>
    ensures { (rows : List Fields) → Stands reader.old rows → AnswersStampedRows limit rows result }
{
    if next_row(reader, row)? {
        if is_stamped_header(row) {
            return events_under_header(alloc, known, reader, row, limit);
        }
    }
    Err(ReadRefusal::Text {
        place: 1,
        fault: TextFault::Header,
    })
}

/// Reads the stamped events of a text, in the order of their stamps, and takes them for no history: each record is tested by itself
/// alone. The text has at most as many events as the limit, and 1,024 bytes for each. The first record must be the header of
/// texts with stamps. Or else the answer is the first fault, with the place of its record.
///
/// What `read_records` promises about devices, memory and the vector is true here too.
pub fn read_stamped_events<R: Read>(
    alloc: Global,
    reader: &mut Counted<R>,
    room: &mut Vec<u8>,
    limit: Limit,
) -> Result<Vec<Stamped>, ReadRefusal>
    ensures text { IfSome (R.remaining (inner_of reader.old)) (λ text. AnswersStampedText limit text result) }
    ensures short { IfOk result (λ sorted. length sorted.items ≤ limit.events) }
    ensures counts { Counts (failures_in reader.old) (failures_in reader.new) result }
    ensures room { IfSome (R.remaining (inner_of reader.old)) (λ text. Leaves text room.new.items result) }
{
    let _plain = take_in(alloc, reader, room, limit)?;
    events_by_rows(
        alloc,
        &mut Known::new(alloc),
        &mut reader_of(alloc, room),
        &mut ByteRecord::new(alloc),
        limit,
    )
}

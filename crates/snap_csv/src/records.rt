//! Histories with the numbers of their records, and records by number.
ghost use Rattle.std.specs.Prelude.{◌≡◌, ◌≤◌, ◌+◌, ℕ, IfOk, IfSome, List, length, map, option_map};
ghost use Rattle.std.specs.List.{range_with_len};
ghost use Rattle.csv.specs.Records.{fields_of};
ghost use Rattle.snap_core.specs.declared.limit.Limit.{Limit};
ghost use Rattle.snap_core.specs.Counting.{inner_of, failures_in};
ghost use Rattle.snap_core.specs.Events.{event_cap};
ghost use Rattle.snap_csv.specs.Answers.{AnswersRecords, Counts, Leaves};
ghost use Rattle.snap_csv.specs.inside.Rows.{AnswersListed, Stands};
ghost use Rattle.snap_format.specs.Records.{record_at};
ghost use Rattle.snap_format.specs.Rows.{rows_of};
ghost use Rattle.snap_format.specs.Taking.{AnswersNumbered, numbers_kept};
ghost use Rattle.snap_text.specs.Fields.{Fields};

use crate::intake::take_in;
use crate::read::{numbered_history, numbered_shared};
use crate::rows::{next_row, reader_of};
use csv::{ByteRecord, Reader};
use snap_core::{AnyWriters, Counted, History, Limit};
use snap_format::ReadRefusal;
use snap_threads::Cutting;
use std::alloc::{AllocError, Global};
use std::io::Read;
use std::thread::Threads;

// The numbers of `count` records, one after the other under the header.
fn in_turn(alloc: Global, count: usize) -> Result<Vec<u32>, AllocError>
    requires { count ≤ event_cap }
    ensures { IfOk result (λ numbers. numbers.items ≡ range_with_len 2 count) }
{
    (2..count as u32 + 2).collect(alloc)
}

// The numbers of the records of `count` events: those that were kept, or one after the other under the header.
fn numbers_in(alloc: Global, count: usize, kept: Option<Vec<u32>>) -> Result<Vec<u32>, AllocError>
    requires { count ≤ event_cap }
    ensures { IfOk result (λ numbers. numbers.items ≡ numbers_kept count kept) }
{
    match kept {
        Some(numbers) => Ok(numbers),
        None => in_turn(alloc, count),
    }
}

// The history of a text, and the number of each event's record in place of those that were kept; or the first fault.
fn listed(
    alloc: Global,
    numbered: Result<(History<AnyWriters>, Option<Vec<u32>>), ReadRefusal>,
) -> Result<(History<AnyWriters>, Vec<u32>), ReadRefusal>
    ensures { (limit : Limit) (rows : List Fields) → AnswersNumbered limit rows numbered → AnswersListed limit rows result }
{
    let (history, kept) = numbered?;
    let records = numbers_in(alloc, history.len(), kept)?;
    Ok((history, records))
}

/// Reads a history as `read_history_with`, on the calling thread alone, and gives with it the number of each event's record. The
/// numbers count from 1: the header is record 1. The vector then has the text, even if it was refused at a record, and
/// `record_of` can look it up. The history may have as many events as the limit, and the text 1,024 bytes for each.
pub fn read_records<R: Read>(
    alloc: Global,
    reader: &mut Counted<R>,
    room: &mut Vec<u8>,
    limit: Limit,
) -> Result<(History<AnyWriters>, Vec<u32>), ReadRefusal>
    ensures text { IfSome (R.remaining (inner_of reader.old)) (λ text. AnswersRecords limit text result) }
    ensures each { IfOk result (λ x. length x.1.items ≡ length x.0.events) }
    ensures limit { IfOk result (λ x. x.0.limit ≡ limit) }
    ensures counts { Counts (failures_in reader.old) (failures_in reader.new) result }
    ensures room { IfSome (R.remaining (inner_of reader.old)) (λ text. Leaves text room.new.items result) }
{
    let plain = take_in(alloc, reader, room, limit)?;
    listed(alloc, numbered_history(alloc, room, plain, limit))
}

/// Reads as `read_records`. Workers of a cutting read pieces of a long text side by side, as by `read_history_with`.
pub fn read_records_with<Rt: Threads + Sync, R: Read>(
    rt: &Rt,
    alloc: Global,
    reader: &mut Counted<R>,
    room: &mut Vec<u8>,
    limit: Limit,
    cutting: Cutting,
) -> Result<(History<AnyWriters>, Vec<u32>), ReadRefusal>
    ensures text { IfSome (R.remaining (inner_of reader.old)) (λ text. AnswersRecords limit text result) }
    ensures each { IfOk result (λ x. length x.1.items ≡ length x.0.events) }
    ensures limit { IfOk result (λ x. x.0.limit ≡ limit) }
    ensures counts { Counts (failures_in reader.old) (failures_in reader.new) result }
    ensures room { IfSome (R.remaining (inner_of reader.old)) (λ text. Leaves text room.new.items result) }
{
    let plain = take_in(alloc, reader, room, limit)?;
    listed(
        alloc,
        numbered_shared(rt, alloc, room, plain, limit, cutting),
    )
}

// A copy of the fields of a record.
fn fields_in(alloc: Global, row: &ByteRecord) -> Result<Vec<Vec<u8>>, AllocError>
    ensures { IfOk result (λ fields. map (λ f. f.items) fields.items ≡ fields_of row.now) }
{
    let mut fields = Vec::new(alloc);
    for field in row.iter() {
        fields.push(Vec::from_slice(alloc, field)?)?;
    }
    Ok(fields)
}

/// The fields of a record of a text, counted from 1, without the quotes around them; none if the text has no such record.
pub fn record_of(alloc: Global, text: &[u8], place: u32) -> Result<Option<Vec<Vec<u8>>>, AllocError>
    ensures { IfOk result (λ found. option_map (λ fields. map (λ f. f.items) fields.items) found ≡ record_at (rows_of text.now) place) }
{
    let Some(before) = place.checked_sub(1) else {
        return Ok(None);
    };
    record_behind(
        alloc,
        &mut reader_of(alloc, text),
        &mut ByteRecord::new(alloc),
        before,
    )
}

// The fields of the record after the first `before` of those that a reader has left.
fn record_behind(
    alloc: Global,
    reader: &mut Reader<&[u8]>,
    row: &mut ByteRecord,
    before: u32,
) -> Result<Option<Vec<Vec<u8>>>, AllocError>
    ensures { (rows : List Fields) → Stands reader.old rows → IfOk result (λ found. option_map (λ fields. map (λ f. f.items) fields.items) found ≡ record_at rows (before + 1)) }
{
    for _ in 0..before {
        if !next_row(reader, row)? {
            return Ok(None);
        }
    }
    if !next_row(reader, row)? {
        return Ok(None);
    }
    Ok(Some(fields_in(alloc, row)?))
}

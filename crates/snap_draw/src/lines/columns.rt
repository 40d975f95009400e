//! The columns of a line: where they are, the name before them, and the records above them.
use crate::layout::character_of;
use crate::picture::Picture;
use crate::shapes::Shapes;
use crate::words::{place_at, record_at};
use snap_core::Ownership;
use snap_report::put_number;
use std::alloc::AllocError;

// The characters before those of the first column.
const LEFT: usize = 8;

// The characters for the columns, so that a line has at most 120.
const ROOM: usize = 111;

const LEAST_STEP: usize = 4;

const GREATEST_STEP: usize = 16;

// The number of characters of a column.
pub(crate) fn step_of(columns: usize) -> usize {
    (ROOM / columns.max(1)).max(LEAST_STEP).min(GREATEST_STEP)
}

// The right edge of the columns.
pub(crate) fn edge_of(shapes: &Shapes) -> usize {
    character_of(step_of(shapes.columns), shapes.columns)
}

// Adds a character this many times.
pub(crate) fn put_run(out: &mut Vec<u8>, byte: u8, count: usize) -> Result<(), AllocError> {
    for _ in 0..count {
        out.push(byte)?;
    }
    Ok(())
}

// Adds the name of a line, up to the first column.
pub(crate) fn put_name(out: &mut Vec<u8>, name: &[u8]) -> Result<(), AllocError> {
    out.extend_from_slice(name)?;
    put_run(out, b' ', LEFT.saturating_sub(name.len()))
}

// Adds the name of a process.
pub(crate) fn put_process(out: &mut Vec<u8>, process: u32) -> Result<(), AllocError> {
    let before = out.len();
    put_number(out, b"p", u64::from(process))?;
    let name = out.len().saturating_sub(before);
    put_run(out, b' ', LEFT.saturating_sub(name))
}

// Adds a number at a character of a line, after what ends at another one, and answers where the number ends.
fn put_record(
    out: &mut Vec<u8>,
    record: u64,
    from: usize,
    end: usize,
) -> Result<usize, AllocError> {
    put_run(out, b' ', from.saturating_sub(end))?;
    let before = out.len();
    put_number(out, b"", record)?;
    Ok(from.saturating_add(out.len().saturating_sub(before)))
}

// Adds above each column the number of the record of its event, if there is room after the one before.
pub(crate) fn put_records<O: Ownership>(
    out: &mut Vec<u8>,
    picture: &Picture<'_, '_, O>,
) -> Result<(), AllocError> {
    let shapes = picture.shapes;
    put_name(out, b"record")?;
    let mut end = 0usize;
    for column in 0..shapes.columns {
        let from = character_of(step_of(shapes.columns), column);
        if let Some(place) = place_at(&shapes.bars, column) {
            if end == 0 || end < from {
                end = put_record(out, record_at(picture.numbering.records, place), from, end)?;
            }
        }
    }
    out.extend_from_slice(b"\n")
}

//! What is said of a call that is drawn.
use crate::marks::is_marked;
use crate::picture::{Numbering, Picture};
use crate::shapes::Bar;
use snap_core::Ownership;
use snap_index::{Call, CallOp, Index};
use snap_report::{put_call, put_entry, put_number};
use std::alloc::{AllocError, Global};

/// The record of the event at a place.
pub(crate) fn record_at(records: &[u32], place: u32) -> u64 {
    u64::from(records.get(place as usize).copied().unwrap_or(0))
}

/// The place of the event of a column.
pub(crate) fn place_at(bars: &[Bar], column: usize) -> Option<u32> {
    for bar in bars {
        if bar.begin == column {
            return Some(bar.drawn.call.begun);
        }
        if bar.end == Some(column) {
            return bar.drawn.call.ended;
        }
    }
    None
}

// Adds what a call does.
fn put_operation<O: Ownership>(
    out: &mut Vec<u8>,
    index: &Index<'_, O>,
    bar: &Bar,
) -> Result<(), AllocError> {
    if let CallOp::Update(entry) = bar.drawn.call.op {
        return put_entry(out, b"update ", &entry);
    }
    out.extend_from_slice(b"view")?;
    if let Some(view) = index.answer(bar.drawn.number) {
        for entry in view.entries() {
            put_entry(out, b" ", entry)?;
        }
    }
    Ok(())
}

// Adds the records of a call, and that it is pending if it is.
fn put_records(out: &mut Vec<u8>, records: &[u32], call: &Call) -> Result<(), AllocError> {
    let begun = record_at(records, call.begun);
    match call.ended {
        Some(ended) => {
            put_number(out, b", records ", begun)?;
            put_number(out, b" and ", record_at(records, ended))?;
            out.extend_from_slice(b": ")
        }
        None => {
            put_number(out, b", record ", begun)?;
            out.extend_from_slice(b", pending: ")
        }
    }
}

/// Adds the number of a call in the run, if there is one, between two texts.
pub(crate) fn put_source(
    out: &mut Vec<u8>,
    before: &[u8],
    numbering: &Numbering<'_>,
    number: u32,
    after: &[u8],
) -> Result<(), AllocError> {
    match numbering.source(number) {
        Some(source) => {
            put_call(out, before, source)?;
            out.extend_from_slice(after)
        }
        None => Ok(()),
    }
}

/// Adds a call in full, as an explanation does, with its number in the run.
pub(crate) fn put_title<O: Ownership>(
    out: &mut Vec<u8>,
    picture: &Picture<'_, '_, O>,
    bar: &Bar,
) -> Result<(), AllocError> {
    let numbering = &picture.numbering;
    let number = bar.drawn.number;
    put_call(out, b"call ", number)?;
    put_source(out, b" (call ", numbering, number, b" of the run)")?;
    put_number(out, b" of process ", u64::from(bar.drawn.call.process))?;
    put_records(out, numbering.records, &bar.drawn.call)?;
    put_operation(out, picture.index, bar)
}

/// Adds text, cut if it has more characters than the room.
pub(crate) fn put_cut(out: &mut Vec<u8>, text: &[u8], room: usize) -> Result<(), AllocError> {
    if text.len() <= room {
        return out.extend_from_slice(text);
    }
    out.extend_from_slice(&text[..room.saturating_sub(1)])?;
    // an ellipsis in UTF-8
    out.extend_from_slice(&[0xe2, 0x80, 0xa6])
}

/// The short name of a call: its number, and what it does.
pub(crate) fn label_of<O: Ownership>(
    alloc: Global,
    index: &Index<'_, O>,
    bar: &Bar,
) -> Result<Vec<u8>, AllocError> {
    let mut label = Vec::new(alloc);
    put_call(&mut label, b"", bar.drawn.number)?;
    label.extend_from_slice(b" ")?;
    put_operation(&mut label, index, bar)?;
    Ok(label)
}

// What an explanation says that a call does, if it has a line of this call.
fn told_of<'a>(alloc: Global, said: &'a [u8], number: u32) -> Result<Option<&'a [u8]>, AllocError> {
    let mut front = Vec::new(alloc);
    put_call(&mut front, b"  call ", number)?;
    front.extend_from_slice(b" of process ")?;
    for line in said.split(|byte| *byte == b'\n') {
        if line.starts_with(&front) {
            return Ok(line.splitn(2, |byte| *byte == b':').nth(1));
        }
    }
    Ok(None)
}

/// The short name of a call in a picture with room for labels. Of a wide view of a fault it has the entries that the explanation lists.
pub(crate) fn short_label<O: Ownership>(
    alloc: Global,
    picture: &Picture<'_, '_, O>,
    bar: &Bar,
) -> Result<Vec<u8>, AllocError> {
    let number = bar.drawn.number;
    if is_marked(&picture.shapes.marks, number) {
        if let Some(told) = told_of(alloc, picture.said, number)? {
            let mut label = Vec::new(alloc);
            put_call(&mut label, b"", number)?;
            label.extend_from_slice(told)?;
            return Ok(label);
        }
    }
    label_of(alloc, picture.index, bar)
}

//! A picture in lines of characters. A character of a line is a byte, but for the one that says that something is cut.
use crate::layout::lines_of;
use crate::picture::{Picture, front_of, is_sentence, verdict_of};
use bars::{put_bars, put_cut_calls};
use columns::{put_records, step_of};
use notes::put_notes;
use snap_core::Ownership;
use snap_report::put_number;
use std::alloc::{AllocError, Global};

mod bars;
mod columns;
mod notes;

// What the signs mean.
const KEY: &[u8] = b"[ ] update  ( ) view  > no end";

const KEY_OF_MARKS: &[u8] = b"  ! call of a fault, its kind below";

const KEY_OF_PLACES: &[u8] = b"  # place in the printed order, below";

// Adds how many calls are left out, if some are.
fn put_left_out<O: Ownership>(
    out: &mut Vec<u8>,
    picture: &Picture<'_, '_, O>,
) -> Result<(), AllocError> {
    let all = u64::from(picture.index.call_count());
    let drawn = picture.shapes.bars.len() as u64;
    if drawn == all {
        return Ok(());
    }
    put_number(out, b"calls drawn ", drawn)?;
    put_number(out, b", left out ", all.saturating_sub(drawn))?;
    out.extend_from_slice(b"\n")
}

// Adds what the signs mean.
fn put_key<O: Ownership>(
    out: &mut Vec<u8>,
    picture: &Picture<'_, '_, O>,
) -> Result<(), AllocError> {
    out.extend_from_slice(KEY)?;
    if !picture.shapes.marks.is_empty() {
        out.extend_from_slice(KEY_OF_MARKS)?;
    }
    if !picture.order.is_empty() {
        out.extend_from_slice(KEY_OF_PLACES)?;
    }
    out.extend_from_slice(b"\n")
}

// Adds a line for each lane, and its notes.
fn put_lines<O: Ownership>(
    alloc: Global,
    out: &mut Vec<u8>,
    picture: &Picture<'_, '_, O>,
) -> Result<(), AllocError> {
    let lines = lines_of(alloc, step_of(picture.shapes.columns), picture.shapes)?;
    for line in &lines {
        put_bars(alloc, out, picture, line)?;
        put_notes(alloc, out, picture, line)?;
    }
    Ok(())
}

// Adds the lanes, with the records above them and what the signs mean below.
fn put_lanes<O: Ownership>(
    alloc: Global,
    out: &mut Vec<u8>,
    picture: &Picture<'_, '_, O>,
) -> Result<(), AllocError> {
    if picture.shapes.lanes.is_empty() {
        return out.extend_from_slice(b"no calls\n");
    }
    put_left_out(out, picture)?;
    put_records(out, picture)?;
    put_lines(alloc, out, picture)?;
    put_key(out, picture)
}

fn put_sentence(out: &mut Vec<u8>, before: &[u8], line: &[u8]) -> Result<(), AllocError> {
    out.extend_from_slice(before)?;
    out.extend_from_slice(line)?;
    out.extend_from_slice(b"\n")
}

// Adds the sentence on the first fault of each kind, after an empty line.
fn put_sentences(out: &mut Vec<u8>, said: &[u8]) -> Result<(), AllocError> {
    let mut before: &[u8] = b"\n";
    for line in said.split(|byte| *byte == b'\n').skip(1) {
        if is_sentence(line) {
            put_sentence(out, before, line)?;
            before = b"";
        }
    }
    Ok(())
}

// Adds the picture, the verdict and the sentences.
fn put_text<O: Ownership>(
    alloc: Global,
    out: &mut Vec<u8>,
    picture: &Picture<'_, '_, O>,
) -> Result<(), AllocError> {
    out.extend_from_slice(front_of(verdict_of(picture.said)))?;
    out.extend_from_slice(b"\n\n")?;
    put_lanes(alloc, out, picture)?;
    put_sentences(out, picture.said)?;
    put_cut_calls(alloc, out, picture)
}

/// The picture, with the verdict above it and the sentences on its faults below. The error is want of memory.
pub fn text_lines<O: Ownership>(
    alloc: Global,
    picture: &Picture<'_, '_, O>,
) -> Result<Vec<u8>, AllocError> {
    let mut out = Vec::new(alloc);
    put_text(alloc, &mut out, picture)?;
    Ok(out)
}

// Adds the explanation and the picture.
fn put_explained<O: Ownership>(
    alloc: Global,
    out: &mut Vec<u8>,
    picture: &Picture<'_, '_, O>,
) -> Result<(), AllocError> {
    out.extend_from_slice(picture.said)?;
    out.extend_from_slice(b"\n")?;
    put_lanes(alloc, out, picture)?;
    put_cut_calls(alloc, out, picture)
}

/// The explanation, with the picture below it. The error is want of memory.
pub fn explained_lines<O: Ownership>(
    alloc: Global,
    picture: &Picture<'_, '_, O>,
) -> Result<Vec<u8>, AllocError> {
    let mut out = Vec::new(alloc);
    put_explained(alloc, &mut out, picture)?;
    Ok(out)
}

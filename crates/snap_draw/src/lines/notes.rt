//! The notes below the bars of a lane.
use super::columns::{edge_of, put_name, put_run};
use crate::kinds::put_kinds;
use crate::layout::{Line, Span};
use crate::picture::Picture;
use crate::words::{put_cut, put_source};
use snap_core::Ownership;
use snap_report::put_number;
use std::alloc::{AllocError, Global};

// What is below a bar: the kinds of the first faults that it is of, or its place in the printed order, and its number in the run.
fn note_of<O: Ownership>(
    alloc: Global,
    picture: &Picture<'_, '_, O>,
    span: &Span,
) -> Result<Vec<u8>, AllocError> {
    let mut note = Vec::new(alloc);
    let number = span.bar.drawn.number;
    put_kinds(&mut note, &picture.shapes.marks, number, b" ")?;
    if let Some(place) = span.bar.place {
        put_number(&mut note, b" #", (place as u64).saturating_add(1))?;
    }
    let before: &[u8] = if note.is_empty() {
        b" call "
    } else {
        b", call "
    };
    put_source(
        &mut note,
        before,
        &picture.numbering,
        number,
        b" of the run",
    )?;
    Ok(note)
}

// Adds the note of a bar, with the room up to the next one, after notes that end at a character. Answers where they end then.
fn put_note<O: Ownership>(
    alloc: Global,
    notes: &mut Vec<u8>,
    picture: &Picture<'_, '_, O>,
    span: &Span,
    next: usize,
    end: usize,
) -> Result<usize, AllocError> {
    let note = note_of(alloc, picture, span)?;
    let Some(text) = note.strip_prefix(b" ") else {
        return Ok(end);
    };
    let room = next.saturating_sub(span.from).saturating_sub(1);
    put_run(notes, b' ', span.from.saturating_sub(end))?;
    put_cut(notes, text, room)?;
    Ok(span.from.saturating_add(text.len().min(room)))
}

// Adds the notes of the bars of a line.
fn put_notes_of<O: Ownership>(
    alloc: Global,
    notes: &mut Vec<u8>,
    picture: &Picture<'_, '_, O>,
    spans: &[Span],
) -> Result<(), AllocError> {
    let mut end = 0usize;
    for (place, span) in spans.iter().enumerate() {
        let next = match spans.get(place.saturating_add(1)) {
            Some(other) => other.from,
            None => edge_of(picture.shapes),
        };
        end = put_note(alloc, notes, picture, span, next, end)?;
    }
    Ok(())
}

// Adds the line of notes below a line, if one of its bars has a note.
pub(crate) fn put_notes<O: Ownership>(
    alloc: Global,
    out: &mut Vec<u8>,
    picture: &Picture<'_, '_, O>,
    line: &Line,
) -> Result<(), AllocError> {
    let mut notes = Vec::new(alloc);
    put_notes_of(alloc, &mut notes, picture, &line.spans)?;
    if notes.is_empty() {
        return Ok(());
    }
    put_name(out, b"")?;
    out.extend_from_slice(&notes)?;
    out.extend_from_slice(b"\n")
}

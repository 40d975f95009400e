//! The calls of a lane as bars with labels, and in full those whose labels are cut.
use super::columns::{edge_of, put_process, put_run, step_of};
use crate::layout::{Line, Span, span_of};
use crate::marks::is_marked;
use crate::picture::Picture;
use crate::shapes::Bar;
use crate::words::{label_of, put_cut, put_title};
use snap_core::Ownership;
use snap_index::CallOp;
use std::alloc::{AllocError, Global};

// The label of a call, after a mark if it is one of a first fault.
fn marked_label<O: Ownership>(
    alloc: Global,
    picture: &Picture<'_, '_, O>,
    span: &Span,
) -> Result<Vec<u8>, AllocError> {
    let mut label = Vec::new(alloc);
    if is_marked(&picture.shapes.marks, span.bar.drawn.number) {
        label.push(b'!')?;
    }
    label.extend_from_slice(&label_of(alloc, picture.index, &span.bar)?)?;
    Ok(label)
}

// How many characters there are between the ends of a bar.
fn room_of(span: &Span, edge: usize) -> usize {
    span.to
        .unwrap_or(edge)
        .saturating_sub(span.from)
        .saturating_sub(1)
}

// Adds the label of a call, cut or filled up to its room.
fn put_label<O: Ownership>(
    alloc: Global,
    out: &mut Vec<u8>,
    picture: &Picture<'_, '_, O>,
    span: &Span,
    edge: usize,
    fill: u8,
) -> Result<(), AllocError> {
    let label = marked_label(alloc, picture, span)?;
    let room = room_of(span, edge);
    put_cut(out, &label, room)?;
    if label.len() < room {
        out.push(b' ')?;
        put_run(
            out,
            fill,
            room.saturating_sub(label.len()).saturating_sub(1),
        )?;
    }
    Ok(())
}

// Adds a bar: its label between its ends.
fn put_bar<O: Ownership>(
    alloc: Global,
    out: &mut Vec<u8>,
    picture: &Picture<'_, '_, O>,
    span: &Span,
    edge: usize,
) -> Result<(), AllocError> {
    let (begin, fill, end) = match span.bar.drawn.call.op {
        CallOp::Update(_entry) => (b'[', b'=', b']'),
        CallOp::View => (b'(', b'-', b')'),
    };
    out.push(begin)?;
    put_label(alloc, out, picture, span, edge, fill)?;
    out.push(if span.to.is_some() { end } else { b'>' })?;
    Ok(())
}

pub(crate) fn put_bars<O: Ownership>(
    alloc: Global,
    out: &mut Vec<u8>,
    picture: &Picture<'_, '_, O>,
    line: &Line,
) -> Result<(), AllocError> {
    let edge = edge_of(picture.shapes);
    put_process(out, line.process)?;
    let mut at = 0usize;
    for span in &line.spans {
        put_run(out, b' ', span.from.saturating_sub(at))?;
        put_bar(alloc, out, picture, span, edge)?;
        at = span.to.unwrap_or(edge).saturating_add(1);
    }
    out.extend_from_slice(b"\n")
}

// Whether the label of a call has no room.
fn is_cut<O: Ownership>(
    alloc: Global,
    picture: &Picture<'_, '_, O>,
    bar: &Bar,
) -> Result<bool, AllocError> {
    let shapes = picture.shapes;
    let span = span_of(step_of(shapes.columns), bar);
    let label = marked_label(alloc, picture, &span)?;
    Ok(room_of(&span, edge_of(shapes)) < label.len())
}

// Adds a call in full.
fn put_cut_call<O: Ownership>(
    out: &mut Vec<u8>,
    before: &[u8],
    picture: &Picture<'_, '_, O>,
    bar: &Bar,
) -> Result<(), AllocError> {
    out.extend_from_slice(before)?;
    put_title(out, picture, bar)?;
    out.extend_from_slice(b"\n")
}

// Adds the calls whose labels had no room, each in full.
pub(crate) fn put_cut_calls<O: Ownership>(
    alloc: Global,
    out: &mut Vec<u8>,
    picture: &Picture<'_, '_, O>,
) -> Result<(), AllocError> {
    let mut before: &[u8] = b"\ncalls whose labels are cut\n  ";
    for bar in &picture.shapes.bars {
        if is_cut(alloc, picture, bar)? {
            put_cut_call(out, before, picture, bar)?;
            before = b"  ";
        }
    }
    Ok(())
}

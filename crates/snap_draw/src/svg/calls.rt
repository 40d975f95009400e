//! The calls of a picture.
use super::look::{FAULT, PENDING, ROUND, UPDATE, UPDATE_ARROW, VIEW, VIEW_ARROW};
use super::parts::put_parts;
use super::scale::{MARGIN, WIDE, across, right_of, x_of, y_of};
use crate::kinds::put_kinds;
use crate::marks::{Mark, is_marked};
use crate::picture::Picture;
use crate::shapes::{Bar, Shapes};
use crate::words::{put_cut, put_title, record_at, short_label};
use snap_core::Ownership;
use snap_index::CallOp;
use snap_report::{put_call, put_number};
use std::alloc::{AllocError, Global};

/// The column where the next call of a bar's lane begins.
pub(crate) fn next_of(bars: &[Bar], bar: &Bar) -> Option<usize> {
    let mut next = None;
    for other in bars {
        if other.lane == bar.lane && bar.begin < other.begin {
            next = Some(other.begin.min(next.unwrap_or(other.begin)));
        }
    }
    next
}

/// The number of characters that have room up to the next call of a bar's lane. After the last call the room goes up to the edge of a
/// picture of this width.
pub(crate) fn room_of(bars: &[Bar], bar: &Bar, width: usize) -> usize {
    let end = match next_of(bars, bar) {
        Some(column) => across(column),
        None => width,
    };
    end.saturating_sub(MARGIN).saturating_sub(across(bar.begin)) / WIDE
}

fn put_classes(out: &mut Vec<u8>, marks: &[Mark], bar: &Bar) -> Result<(), AllocError> {
    out.extend_from_slice(match bar.drawn.call.op {
        CallOp::Update(_entry) => b"<g class=\"call update",
        CallOp::View => b"<g class=\"call view",
    })?;
    if bar.drawn.call.ended.is_none() {
        out.extend_from_slice(b" pending")?;
    }
    put_kinds(out, marks, bar.drawn.number, b" fault-")
}

// Adds the number of a call and its records.
fn put_numbers(out: &mut Vec<u8>, records: &[u32], bar: &Bar) -> Result<(), AllocError> {
    put_call(out, b"\" data-id=\"call-", bar.drawn.number)?;
    let begun = record_at(records, bar.drawn.call.begun);
    put_parts(out, &[(b"\" data-records=\"", begun)], b"-")?;
    if let Some(ended) = bar.drawn.call.ended {
        put_number(out, b"", record_at(records, ended))?;
    }
    out.extend_from_slice(b"\" tabindex=\"0\" role=\"img\"><title>")
}

// Adds what names a call: its classes, its number and its records.
fn put_names<O: Ownership>(
    out: &mut Vec<u8>,
    picture: &Picture<'_, '_, O>,
    bar: &Bar,
) -> Result<(), AllocError> {
    put_classes(out, &picture.shapes.marks, bar)?;
    put_numbers(out, picture.numbering.records, bar)?;
    put_title(out, picture, bar)?;
    out.extend_from_slice(b"</title>")
}

fn put_look(out: &mut Vec<u8>, marks: &[Mark], bar: &Bar) -> Result<(), AllocError> {
    let is_view = matches!(bar.drawn.call.op, CallOp::View);
    out.extend_from_slice(match (is_marked(marks, bar.drawn.number), is_view) {
        (true, _) => FAULT,
        (false, true) => VIEW,
        (false, false) => UPDATE,
    })?;
    if is_view {
        out.extend_from_slice(ROUND)?;
    }
    if bar.end.is_none() {
        out.extend_from_slice(PENDING)?;
    }
    Ok(())
}

// Adds the arrow of a pending call.
fn put_arrow(out: &mut Vec<u8>, bar: &Bar, x: u64, y: u64) -> Result<(), AllocError> {
    put_parts(
        out,
        &[(b"<path class=\"open\" d=\"M ", x), (b" ", y)],
        b" l 9 9 l -9 9\"",
    )?;
    out.extend_from_slice(match bar.drawn.call.op {
        CallOp::Update(_entry) => UPDATE_ARROW,
        CallOp::View => VIEW_ARROW,
    })?;
    out.extend_from_slice(b"/>")
}

// Adds the bar of a call, and after a pending one an arrow.
fn put_bar(out: &mut Vec<u8>, shapes: &Shapes, bar: &Bar) -> Result<(), AllocError> {
    let x = x_of(bar.begin);
    let y = y_of(bar.lane, 18);
    let end = match bar.end {
        Some(column) => x_of(column),
        None => right_of(shapes.columns),
    };
    put_parts(
        out,
        &[
            (b"<rect class=\"bar\" x=\"", x),
            (b"\" y=\"", y),
            (b"\" width=\"", end.saturating_sub(x)),
        ],
        b"\" height=\"18\"",
    )?;
    put_look(out, &shapes.marks, bar)?;
    out.extend_from_slice(b"/>")?;
    match bar.end {
        Some(_column) => Ok(()),
        None => put_arrow(out, bar, end, y),
    }
}

// Adds text of a class at a place, cut if it is longer than its room.
fn put_words(
    out: &mut Vec<u8>,
    class: &[u8],
    (x, y): (u64, u64),
    text: &[u8],
    room: usize,
) -> Result<(), AllocError> {
    put_parts(out, &[(class, x), (b"\" y=\"", y)], b"\">")?;
    put_cut(out, text, room)?;
    out.extend_from_slice(b"</text>")
}

// Adds the short name of a call above its bar.
fn put_label<O: Ownership>(
    alloc: Global,
    out: &mut Vec<u8>,
    picture: &Picture<'_, '_, O>,
    bar: &Bar,
    room: usize,
) -> Result<(), AllocError> {
    let label = short_label(alloc, picture, bar)?;
    let place = (x_of(bar.begin), y_of(bar.lane, 13));
    put_words(out, b"<text class=\"label\" x=\"", place, &label, room)
}

// Adds the kinds of fault below a bar, if its call has one.
fn put_tag(
    alloc: Global,
    out: &mut Vec<u8>,
    marks: &[Mark],
    bar: &Bar,
    room: usize,
) -> Result<(), AllocError> {
    let mut tag = Vec::new(alloc);
    put_kinds(&mut tag, marks, bar.drawn.number, b" ")?;
    if tag.is_empty() {
        return Ok(());
    }
    let text = tag.strip_prefix(b" ").unwrap_or(&tag);
    let place = (x_of(bar.begin), y_of(bar.lane, 49));
    put_words(
        out,
        b"<text class=\"tag\" fill=\"--fault\" font-weight=\"bold\" x=\"",
        place,
        text,
        room,
    )
}

// Adds a call: its names, its bar, its label, and its kinds of fault.
fn put_drawn<O: Ownership>(
    alloc: Global,
    out: &mut Vec<u8>,
    picture: &Picture<'_, '_, O>,
    bar: &Bar,
    room: usize,
) -> Result<(), AllocError> {
    put_names(out, picture, bar)?;
    put_bar(out, picture.shapes, bar)?;
    put_label(alloc, out, picture, bar, room)?;
    put_tag(alloc, out, &picture.shapes.marks, bar, room)?;
    out.extend_from_slice(b"</g>\n")
}

pub(crate) fn put_calls<O: Ownership>(
    alloc: Global,
    out: &mut Vec<u8>,
    picture: &Picture<'_, '_, O>,
    width: usize,
) -> Result<(), AllocError> {
    for bar in &picture.shapes.bars {
        let room = room_of(&picture.shapes.bars, bar, width);
        put_drawn(alloc, out, picture, bar, room)?;
    }
    Ok(())
}

//! The strip above a picture: where the window is in the run, and where the first faults are.
use super::parts::put_parts;
use super::scale::{LEFT, right_of};
use crate::marks::Mark;
use crate::shapes::{Bar, Shapes};
use crate::words::record_at;
use snap_conditions::Kind;
use snap_core::Ownership;
use snap_index::Index;
use std::alloc::AllocError;

// The places of the first and of the last event that is drawn.
fn ends_of(bars: &[Bar]) -> (u32, u32) {
    let mut first = None;
    let mut last = 0;
    for bar in bars {
        let begun = bar.drawn.call.begun;
        first = Some(begun.min(first.unwrap_or(begun)));
        last = bar.drawn.call.ended.unwrap_or(begun).max(last);
    }
    (first.unwrap_or(0), last)
}

// The place of the first begin of the calls of the first fault of a kind.
fn first_of<O: Ownership>(index: &Index<'_, O>, marks: &[Mark], kind: Kind) -> Option<u32> {
    let mut first = None;
    for mark in marks {
        if mark.kind == kind {
            if let Some(call) = index.call(mark.call) {
                first = Some(call.begun.min(first.unwrap_or(call.begun)));
            }
        }
    }
    first
}

// How far along a strip of a width an event is.
fn along(place: u32, events: u32, width: u64) -> u64 {
    let way = u64::from(place).saturating_mul(width);
    LEFT.saturating_add(way / u64::from(events).max(1))
}

// Adds which records are drawn, and of which.
fn put_span(
    out: &mut Vec<u8>,
    records: &[u32],
    ends: (u32, u32),
    events: u32,
) -> Result<(), AllocError> {
    let (first, last) = ends;
    put_parts(
        out,
        &[
            (
                b"<g data-id=\"strip\"><title>records ",
                record_at(records, first),
            ),
            (b" to ", record_at(records, last)),
            (b" of ", record_at(records, 0)),
            (b" to ", record_at(records, events.saturating_sub(1))),
        ],
        b"</title>",
    )
}

// Adds the run, and the window in it.
fn put_window(
    out: &mut Vec<u8>,
    ends: (u32, u32),
    events: u32,
    width: u64,
) -> Result<(), AllocError> {
    let (first, last) = ends;
    let from = along(first, events, width);
    let to = along(last.saturating_add(1), events, width);
    put_parts(
        out,
        &[
            (b"<rect class=\"all\" x=\"64\" y=\"34\" width=\"", width),
            (
                b"\" height=\"8\" fill=\"--faint\"/><rect class=\"window\" x=\"",
                from,
            ),
            (b"\" y=\"31\" width=\"", to.saturating_sub(from)),
        ],
        b"\" height=\"14\" fill=\"none\" stroke=\"--quiet\" stroke-width=\"1.5\"/>",
    )
}

// Adds a mark of a kind.
fn put_tick(out: &mut Vec<u8>, kind: Kind, x: u64) -> Result<(), AllocError> {
    out.extend_from_slice(b"<path class=\"tick fault-")?;
    out.extend_from_slice(kind.word().as_bytes())?;
    put_parts(
        out,
        &[(b"\" d=\"M ", x)],
        b" 29 v 18\" fill=\"none\" stroke=\"--fault\" stroke-width=\"3\"/>",
    )
}

// Adds a mark for each kind that has a fault.
fn put_ticks<O: Ownership>(
    out: &mut Vec<u8>,
    index: &Index<'_, O>,
    marks: &[Mark],
    width: u64,
) -> Result<(), AllocError> {
    for kind in &Kind::ALL {
        if let Some(place) = first_of(index, marks, *kind) {
            put_tick(out, *kind, along(place, index.event_count(), width))?;
        }
    }
    Ok(())
}

pub(crate) fn put_strip<O: Ownership>(
    out: &mut Vec<u8>,
    shapes: &Shapes,
    index: &Index<'_, O>,
    records: &[u32],
) -> Result<(), AllocError> {
    let events = index.event_count();
    let width = right_of(shapes.columns).saturating_sub(LEFT);
    let ends = ends_of(&shapes.bars);
    put_span(out, records, ends, events)?;
    put_window(out, ends, events, width)?;
    put_ticks(out, index, &shapes.marks, width)?;
    out.extend_from_slice(b"</g>\n")
}

//! What a page holds beside its picture: the pieces of a long history, the steps of its printed order, and the calls of its faults.
use super::parts::{put_escaped, put_parts};
use crate::picture::{Picture, front_of, is_sentence};
use crate::shapes::{Bar, Shapes};
use snap_core::Ownership;
use snap_index::{CallOp, Index};
use snap_report::{put_call, put_entry, put_number};
use std::alloc::{AllocError, Global};

// The number of components that a board can have.
const COMPONENTS: usize = 256;

// The numbers of the first and of the last call of some bars, counted from 1, and the place of the first begin.
fn ends_of(bars: &[Bar]) -> (u64, u64, u64) {
    let (Some(first), Some(last)) = (bars.first(), bars.last()) else {
        return (0, 0, 0);
    };
    (
        u64::from(first.drawn.number).saturating_add(1),
        u64::from(last.drawn.number).saturating_add(1),
        u64::from(first.drawn.call.begun),
    )
}

/// Adds what a page has before a piece: its first and its last call, and the place of its first event.
pub(crate) fn put_piece(out: &mut Vec<u8>, shapes: &Shapes) -> Result<(), AllocError> {
    let (first, last, from) = ends_of(&shapes.bars);
    put_parts(
        out,
        &[
            (b"<template data-first='", first),
            (b"' data-last='", last),
            (b"' data-from='", from),
        ],
        b"'>",
    )
}

// Adds which calls the pieces have, of how many.
fn put_calls(out: &mut Vec<u8>, parts: &[Shapes], all: u64) -> Result<(), AllocError> {
    let (Some(one), Some(other)) = (parts.first(), parts.last()) else {
        return Ok(());
    };
    let (first, _end, _from) = ends_of(&one.bars);
    let (_begin, last, _place) = ends_of(&other.bars);
    let held = last.saturating_add(1).saturating_sub(first);
    put_parts(
        out,
        &[
            (b"This page holds the calls ", first),
            (b" to ", last),
            (b" of ", all),
            (b", in pictures of ", one.bars.len() as u64),
            (b". It leaves out ", all.saturating_sub(held)),
        ],
        b" calls.</p>\n",
    )
}

/// Adds in words what the pieces of a page hold, and what they leave out.
pub(crate) fn put_extent<O: Ownership>(
    out: &mut Vec<u8>,
    picture: &Picture<'_, '_, O>,
) -> Result<(), AllocError> {
    if picture.parts.is_empty() {
        return Ok(());
    }
    let all = u64::from(picture.index.call_count());
    let events = u64::from(picture.index.event_count());
    put_parts(
        out,
        &[
            (b"<p id='held' data-events='", events),
            (b"' data-calls='", all),
        ],
        b"'>",
    )?;
    put_calls(out, picture.parts, all)
}

// Adds a step of the printed order: the number of its call, and what that writes if it is an update.
fn put_step<O: Ownership>(
    out: &mut Vec<u8>,
    index: &Index<'_, O>,
    number: u32,
) -> Result<(), AllocError> {
    put_call(out, b" ", number)?;
    match index.call(number) {
        Some(call) => match call.op {
            CallOp::Update(entry) => put_entry(out, b":", &entry),
            CallOp::View => Ok(()),
        },
        None => Ok(()),
    }
}

// The first and the last place in the printed order of some bars, after those of others.
fn places_of(bars: &[Bar], places: Option<(usize, usize)>) -> Option<(usize, usize)> {
    let mut found = places;
    for bar in bars {
        if let Some(place) = bar.place {
            let (first, last) = found.unwrap_or((place, place));
            found = Some((first.min(place), last.max(place)));
        }
    }
    found
}

// The first and the last place of all calls that a page holds.
fn places_held<O: Ownership>(picture: &Picture<'_, '_, O>) -> Option<(usize, usize)> {
    let mut found = places_of(&picture.shapes.bars, None);
    for part in picture.parts {
        found = places_of(&part.bars, found);
    }
    found
}

// The component that a call writes.
fn written_by<O: Ownership>(index: &Index<'_, O>, number: u32) -> Option<usize> {
    match index.call(number)?.op {
        CallOp::Update(entry) => Some(usize::from(entry.component)),
        CallOp::View => None,
    }
}

// Adds the latest update of each component in some steps.
fn put_board<O: Ownership>(
    alloc: Global,
    out: &mut Vec<u8>,
    index: &Index<'_, O>,
    before: &[u32],
) -> Result<(), AllocError> {
    let mut latest: Vec<Option<u32>> = Vec::new(alloc);
    latest.resize(COMPONENTS, None)?;
    for number in before {
        if let Some(component) = written_by(index, *number) {
            if let Some(place) = latest.get_mut(component) {
                *place = Some(*number);
            }
        }
    }
    for number in &latest {
        if let Some(number) = number {
            put_step(out, index, *number)?;
        }
    }
    Ok(())
}

/// Adds the steps of the printed order up to the last call that a page holds. Before the first one of these it adds the board.
pub(crate) fn put_steps<O: Ownership>(
    alloc: Global,
    out: &mut Vec<u8>,
    picture: &Picture<'_, '_, O>,
) -> Result<(), AllocError> {
    let Some((first, last)) = places_held(picture) else {
        return Ok(());
    };
    out.extend_from_slice(b"<script type='text/plain' id='steps'>")?;
    for (place, number) in picture.order.iter().enumerate() {
        if place == first {
            put_board(alloc, out, picture.index, &picture.order[..place])?;
        }
        if first <= place && place <= last {
            put_step(out, picture.index, *number)?;
        }
    }
    out.extend_from_slice(b"</script>\n")
}

/// Adds what the explanation says below the sentence on each fault: how its calls differ.
pub(crate) fn put_reasons(out: &mut Vec<u8>, said: &[u8]) -> Result<(), AllocError> {
    let mut end: &[u8] = b"";
    for line in said.split(|byte| *byte == b'\n').skip(1) {
        if is_sentence(line) {
            out.extend_from_slice(end)?;
            out.extend_from_slice(b"<pre class='why' data-of='fault-")?;
            put_escaped(out, front_of(line))?;
            out.extend_from_slice(b"' hidden>")?;
            end = b"</pre>\n";
        } else if !end.is_empty() && !line.is_empty() {
            put_escaped(out, line)?;
            out.extend_from_slice(b"\n")?;
        }
    }
    out.extend_from_slice(end)
}

//! The pieces of a long history that a page holds.
ghost use Rattle.std.specs.Prelude.{◌≡◌, IfOk, map};
ghost use Rattle.snap_core.specs.Calls.{calls_of, views_of};
ghost use Rattle.snap_conditions.specs.Tally.{tally_of};
ghost use Rattle.snap_draw.specs.Calls.{drawn_call};
ghost use Rattle.snap_draw.specs.Marks.{marks_of};
ghost use Rattle.snap_draw.specs.Pieces.{AreEach, center_of as spec_center_of, held_calls as spec_held_calls, piece_at as spec_piece_at, pieces_of, starts_of as spec_starts_of};

use crate::drawn::{Drawn, all_calls};
use crate::marks::{Mark, marks};
use crate::shapes::{Shapes, shapes_with};
use crate::window::{Place, Window, calls_from, first_around};
use snap_conditions::Tally;
use snap_core::Ownership;
use snap_index::Index;
use std::alloc::{AllocError, Global};

// The call around which a page holds others.
fn center_of(place: Place, marks: &[Mark]) -> u32
    ensures { result ≡ spec_center_of place marks.now }
{
    match place {
        Place::Faults => match marks.first() {
            Some(mark) => mark.call,
            None => 0,
        },
        Place::From(call) | Place::Around(call) => call,
    }
}

// The calls that a page holds in pieces: none if a window has all calls.
fn held_calls(
    alloc: Global,
    most: usize,
    window: Window,
    marks: &[Mark],
    calls: &[Drawn],
) -> Result<Vec<Drawn>, AllocError>
    ensures { IfOk result (λ held. held.items ≡ spec_held_calls most window marks.now calls.now) }
{
    if calls.len() <= window.calls {
        return Ok(Vec::new(alloc));
    }
    let first = first_around(most, calls.len(), center_of(window.place, marks));
    calls_from(alloc, first, most, calls)
}

// The places in a list of this length at which its pieces begin.
fn starts_of(alloc: Global, size: usize, length: usize) -> Result<Vec<usize>, AllocError>
    ensures { IfOk result (λ starts. starts.items ≡ spec_starts_of size length) }
{
    (0..length)
        .filter(|place| place % size.max(1) == 0)
        .collect(alloc)
}

fn piece_at(
    alloc: Global,
    size: usize,
    held: &[Drawn],
    place: usize,
) -> Result<Vec<Drawn>, AllocError>
    ensures { IfOk result (λ piece. piece.items ≡ spec_piece_at size held.now place) }
{
    held.iter().copied().skip(place).take(size).collect(alloc)
}

// The shapes of each piece.
fn each_of(
    alloc: Global,
    size: usize,
    held: &[Drawn],
    marks: &[Mark],
    order: &[u32],
) -> Result<Vec<Shapes>, AllocError>
    ensures { IfOk result (λ parts. AreEach order.now marks.now (pieces_of size held.now) parts.items) }
{
    let starts = starts_of(alloc, size, held.len())?;
    let mut parts = Vec::new(alloc);
    for at in 0..starts.len() {
        let piece = piece_at(alloc, size, held, starts[at])?;
        let own = Vec::from_slice(alloc, marks)?;
        parts.push(shapes_with(alloc, &piece, own, order)?)?;
    }
    Ok(parts)
}

/// The shapes of the pieces that a page holds of a history with more calls than its window. They are windows of that many calls, one
/// after the other, up to `most` calls around the place of the window. The error is want of memory.
pub fn parts_of<O: Ownership>(
    alloc: Global,
    index: &Index<'_, O>,
    tally: &Tally,
    order: &[u32],
    window: Window,
    most: usize,
) -> Result<Vec<Shapes>, AllocError>
    requires tally { tally.now ≡ tally_of (calls_of index.now) (views_of (calls_of index.now)) }
    ensures { IfOk result (λ parts. AreEach order.now (marks_of (calls_of index.now) tally.now)
        (pieces_of window.calls (spec_held_calls most window (marks_of (calls_of index.now) tally.now) (map drawn_call (calls_of index.now)))) parts.items) }
{
    let marks = marks(alloc, index, tally)?;
    let calls = all_calls(alloc, index)?;
    let held = held_calls(alloc, most, window, &marks, &calls)?;
    each_of(alloc, window.calls, &held, &marks, order)
}

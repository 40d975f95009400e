//! Which calls of a history are drawn.
ghost use Rattle.std.specs.Prelude.{◌≡◌, IfOk};
ghost use Rattle.snap_draw.specs.Window.{calls_from as spec_calls_from, drawn_in, ends_before as spec_ends_before, first_around as spec_first_around, has_call as spec_has_call, is_among as spec_is_among, is_beside as spec_is_beside, is_near as spec_is_near, marked_calls as spec_marked_calls, marked_or_among as spec_marked_or_among, near_calls as spec_near_calls, overlap as spec_overlap, overlaps_one as spec_overlaps_one, usual_lines as spec_usual_lines, usual_page as spec_usual_page, window_of};

use crate::drawn::Drawn;
use crate::marks::{Mark, is_marked};
use snap_options::LINE_CALLS;
use std::alloc::{AllocError, Global};

/// The number of calls that are drawn on a page or as SVG if no other is asked for.
pub const PAGE_CALLS: usize = 60;

/// Which calls are drawn of a history that has more calls than a window. Calls are counted from 0.
#[derive(Clone, Copy)]
pub enum Place {
    /// Those of the first faults, and the first that overlap one of these. If there is no fault, the first calls.
    Faults,
    /// A call, and those that begin after it.
    From(u32),
    /// A call with those that begin before and after it.
    Around(u32),
}

/// A part of a history: the most calls that it has, and which they are.
#[derive(Clone, Copy)]
pub struct Window {
    pub calls: usize,
    pub place: Place,
}

impl Window {
    /// The window of a page or of SVG if no other is asked for.
    pub fn usual_page() -> Window
        ensures { result ≡ spec_usual_page }
    {
        Window {
            calls: PAGE_CALLS,
            place: Place::Faults,
        }
    }

    /// The window of lines of characters if no other is asked for.
    pub fn usual_lines() -> Window
        ensures { result ≡ spec_usual_lines }
    {
        Window {
            calls: LINE_CALLS as usize,
            place: Place::Faults,
        }
    }
}

/// Whether a history of `calls` calls has the call that a place names.
pub fn has_call(place: Place, calls: u32) -> bool
    ensures { result ≡ spec_has_call place calls }
{
    match place {
        Place::Faults => true,
        Place::From(call) | Place::Around(call) => call < calls,
    }
}

fn is_among(calls: &[Drawn], number: u32) -> bool
    ensures { result ≡ spec_is_among calls.now number }
{
    calls.iter().any(|drawn| drawn.number == number)
}

// Whether a call with this end ended before a place.
fn ends_before(ended: Option<u32>, place: u32) -> bool
    ensures { result ≡ spec_ends_before ended place }
{
    match ended {
        Some(end) => end < place,
        None => false,
    }
}

// Whether neither of two calls ended before the other began.
fn overlap(one: &Drawn, other: &Drawn) -> bool
    ensures { result ≡ spec_overlap one.now other.now }
{
    !ends_before(one.call.ended, other.call.begun) && !ends_before(other.call.ended, one.call.begun)
}

fn overlaps_one(calls: &[Drawn], drawn: &Drawn) -> bool
    ensures { result ≡ spec_overlaps_one calls.now drawn.now }
{
    calls.iter().any(|other| overlap(other, drawn))
}

fn is_near(marked: &[Drawn], drawn: &Drawn) -> bool
    ensures { result ≡ spec_is_near marked.now drawn.now }
{
    marked.is_empty() || overlaps_one(marked, drawn)
}

// Whether a call is near the marked ones, and is not one of them.
fn is_beside(marks: &[Mark], marked: &[Drawn], drawn: &Drawn) -> bool
    ensures { result ≡ spec_is_beside marks.now marked.now drawn.now }
{
    !is_marked(marks, drawn.number) && is_near(marked, drawn)
}

fn marked_calls(alloc: Global, marks: &[Mark], calls: &[Drawn]) -> Result<Vec<Drawn>, AllocError>
    ensures { IfOk result (λ marked. marked.items ≡ spec_marked_calls marks.now calls.now) }
{
    calls
        .iter()
        .copied()
        .filter(|drawn| is_marked(marks, drawn.number))
        .collect(alloc)
}

fn near_calls(
    alloc: Global,
    limit: usize,
    marks: &[Mark],
    calls: &[Drawn],
) -> Result<Vec<Drawn>, AllocError>
    ensures { IfOk result (λ near. near.items ≡ spec_near_calls limit marks.now calls.now) }
{
    let marked = marked_calls(alloc, marks, calls)?;
    calls
        .iter()
        .copied()
        .filter(|drawn| is_beside(marks, &marked, drawn))
        .take(limit.saturating_sub(marked.len()))
        .collect(alloc)
}

// The calls that are marked or near.
fn marked_or_among(
    alloc: Global,
    marks: &[Mark],
    near: &[Drawn],
    calls: &[Drawn],
) -> Result<Vec<Drawn>, AllocError>
    ensures { IfOk result (λ drawn. drawn.items ≡ spec_marked_or_among marks.now near.now calls.now) }
{
    calls
        .iter()
        .copied()
        .filter(|drawn| is_marked(marks, drawn.number) || is_among(near, drawn.number))
        .collect(alloc)
}

// All calls of a history if they are not more than the limit. Otherwise those that are marked, and of the others the first that overlap
// one of these, up to the limit. If none is marked, the first calls.
#[tactic(auto, unfolding(crate::specs::Window::window_of))]
fn near_faults(
    alloc: Global,
    limit: usize,
    marks: &[Mark],
    calls: Vec<Drawn>,
) -> Result<Vec<Drawn>, AllocError>
    ensures { IfOk result (λ drawn. drawn.items ≡ window_of limit marks.now calls.items) }
{
    if calls.len() <= limit {
        return Ok(calls);
    }
    let near = near_calls(alloc, limit, marks, &calls)?;
    marked_or_among(alloc, marks, &near, &calls)
}

/// The first calls from a number on, up to a count.
pub(crate) fn calls_from(
    alloc: Global,
    first: usize,
    count: usize,
    calls: &[Drawn],
) -> Result<Vec<Drawn>, AllocError>
    ensures { IfOk result (λ drawn. drawn.items ≡ spec_calls_from first count calls.now) }
{
    calls
        .iter()
        .copied()
        .filter(|drawn| first <= drawn.number as usize)
        .take(count)
        .collect(alloc)
}

/// The number of the first call of a window around a call, of a history of `all` calls.
pub(crate) fn first_around(count: usize, all: usize, call: u32) -> usize
    ensures { result ≡ spec_first_around count all call }
{
    (call as usize)
        .saturating_sub(count / 2)
        .min(all.saturating_sub(count))
}

/// The calls of a window, of all calls of a history.
pub(crate) fn calls_in(
    alloc: Global,
    window: Window,
    marks: &[Mark],
    calls: Vec<Drawn>,
) -> Result<Vec<Drawn>, AllocError>
    ensures { IfOk result (λ drawn. drawn.items ≡ drawn_in window.place window.calls marks.now calls.items) }
{
    match window.place {
        Place::Faults => near_faults(alloc, window.calls, marks, calls),
        Place::From(call) => calls_from(alloc, call as usize, window.calls, &calls),
        Place::Around(call) => {
            let first = first_around(window.calls, calls.len(), call);
            calls_from(alloc, first, window.calls, &calls)
        }
    }
}

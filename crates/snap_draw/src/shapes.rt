//! The shapes of a history.
ghost use Rattle.std.specs.Prelude.{◌≡◌, IfOk, map};
ghost use Rattle.snap_core.specs.Calls.{calls_of, views_of};
ghost use Rattle.snap_conditions.specs.Tally.{tally_of};
ghost use Rattle.snap_draw.specs.Marks.{marks_of};
ghost use Rattle.snap_draw.specs.Timelines.{AreShapes, bar_of as spec_bar_of, calls_drawn, column_of as spec_column_of, end_column as spec_end_column, has_process as spec_has_process, lane_of as spec_lane_of, lanes_below as spec_lanes_below, lanes_of as spec_lanes_of, place_of as spec_place_of, places_of as spec_places_of};

use crate::drawn::{Drawn, all_calls};
use crate::marks::{Mark, marks};
use crate::window::{Window, calls_in};
use snap_conditions::Tally;
use snap_core::Ownership;
use snap_index::Index;
use std::alloc::{AllocError, Global};

// processes are numbers of 16 bits
const PROCESS_COUNT: u32 = 65536;

/// The bar of a call: its lane, the columns of its begin and its end, and its place in the printed order, counted from 0. A
/// pending call has no end.
#[derive(Clone, Copy)]
pub struct Bar {
    pub drawn: Drawn,
    pub lane: usize,
    pub begin: usize,
    pub end: Option<usize>,
    pub place: Option<usize>,
}

/// What is drawn of a history: the processes, a lane each, the bars of the calls, and the number of columns that they need. The calls
/// of the first fault of each kind are marked.
#[derive(Drop)]
pub struct Shapes {
    pub lanes: Vec<u32>,
    pub bars: Vec<Bar>,
    pub columns: usize,
    pub marks: Vec<Mark>,
}

fn has_process(calls: &[Drawn], process: u32) -> bool
    ensures { result ≡ spec_has_process calls.now process }
{
    calls
        .iter()
        .any(|drawn| u32::from(drawn.call.process) == process)
}

// The processes of some calls below a number, in order.
fn lanes_below(alloc: Global, calls: &[Drawn], limit: u32) -> Result<Vec<u32>, AllocError>
    ensures { IfOk result (λ lanes. lanes.items ≡ spec_lanes_below limit calls.now) }
{
    (0..limit)
        .filter(|process| has_process(calls, *process))
        .collect(alloc)
}

fn lanes_of(alloc: Global, calls: &[Drawn]) -> Result<Vec<u32>, AllocError>
    ensures { IfOk result (λ lanes. lanes.items ≡ spec_lanes_of calls.now) }
{
    lanes_below(alloc, calls, PROCESS_COUNT)
}

// The places of the events of some calls.
fn places_of(alloc: Global, calls: &[Drawn]) -> Result<Vec<u32>, AllocError>
    ensures { IfOk result (λ places. places.items ≡ spec_places_of calls.now) }
{
    calls
        .iter()
        .map(|drawn| drawn.call.begun)
        .chain(calls.iter().filter_map(|drawn| drawn.call.ended))
        .collect(alloc)
}

fn column_of(places: &[u32], place: u32) -> usize
    ensures { result ≡ spec_column_of places.now place }
{
    places.iter().filter(|other| **other < place).count()
}

fn end_column(places: &[u32], ended: Option<u32>) -> Option<usize>
    ensures { result ≡ spec_end_column places.now ended }
{
    match ended {
        Some(place) => Some(column_of(places, place)),
        None => None,
    }
}

fn lane_of(lanes: &[u32], process: u32) -> usize
    ensures { result ≡ spec_lane_of lanes.now process }
{
    lanes.iter().filter(|lane| **lane < process).count()
}

fn place_of(order: &[u32], number: u32) -> Option<usize>
    ensures { result ≡ spec_place_of order.now number }
{
    order.iter().position(|other| *other == number)
}

fn bar_of(lanes: &[u32], places: &[u32], order: &[u32], drawn: &Drawn) -> Bar
    ensures { result ≡ spec_bar_of lanes.now places.now order.now drawn.now }
{
    Bar {
        drawn: *drawn,
        lane: lane_of(lanes, u32::from(drawn.call.process)),
        begin: column_of(places, drawn.call.begun),
        end: end_column(places, drawn.call.ended),
        place: place_of(order, drawn.number),
    }
}

fn bars_of(
    alloc: Global,
    lanes: &[u32],
    places: &[u32],
    order: &[u32],
    calls: &[Drawn],
) -> Result<Vec<Bar>, AllocError>
    ensures { IfOk result (λ bars. bars.items ≡ map (spec_bar_of lanes.now places.now order.now) calls.now) }
{
    calls
        .iter()
        .map(|drawn| bar_of(lanes, places, order, drawn))
        .collect(alloc)
}

/// The shapes of the calls that are drawn.
pub(crate) fn shapes_with(
    alloc: Global,
    calls: &[Drawn],
    marks: Vec<Mark>,
    order: &[u32],
) -> Result<Shapes, AllocError>
    ensures { IfOk result (AreShapes order.now marks.items calls.now) }
{
    let lanes = lanes_of(alloc, calls)?;
    let places = places_of(alloc, calls)?;
    let bars = bars_of(alloc, &lanes, &places, order, calls)?;
    Ok(Shapes {
        lanes,
        bars,
        columns: places.len(),
        marks,
    })
}

/// The shapes of a history, by its index, the tally of all its completed views, and the numbers of the printed order. There are no
/// numbers if the history is not atomic. The calls of a window are drawn.
pub fn shapes_of<O: Ownership>(
    alloc: Global,
    index: &Index<'_, O>,
    tally: &Tally,
    order: &[u32],
    window: Window,
) -> Result<Shapes, AllocError>
    requires tally { tally.now ≡ tally_of (calls_of index.now) (views_of (calls_of index.now)) }
    ensures { IfOk result (AreShapes order.now (marks_of (calls_of index.now) tally.now) (calls_drawn window (calls_of index.now) tally.now)) }
{
    let marks = marks(alloc, index, tally)?;
    let calls = all_calls(alloc, index)?;
    let calls = calls_in(alloc, window, &marks, calls)?;
    shapes_with(alloc, &calls, marks, order)
}

//! Which characters the bars take in a picture by lines.
ghost use Rattle.std.specs.Prelude.{◌≡◌, IfOk, length, map};
ghost use Rattle.std.specs.List.{range_with_len};
ghost use Rattle.snap_draw.specs.declared.layout.Line.{Line};
ghost use Rattle.snap_draw.specs.inside.Layout.{character_of as spec_character_of, end_character as spec_end_character, span_of as spec_span_of, spans_in as spec_spans_in};

use crate::shapes::{Bar, Shapes};
use std::alloc::{AllocError, Global};

/// A bar, with the characters of its begin and its end, counted from those of the first column. A pending call has no end.
#[derive(Clone, Copy)]
pub(crate) struct Span {
    pub(crate) bar: Bar,
    pub(crate) from: usize,
    pub(crate) to: Option<usize>,
}

/// A process, and the spans of its calls.
#[derive(Drop)]
pub(crate) struct Line {
    pub(crate) process: u32,
    pub(crate) spans: Vec<Span>,
}

/// The character of a column, if each is `step` characters wide.
pub(crate) fn character_of(step: usize, column: usize) -> usize
    ensures { result ≡ spec_character_of step column }
{
    column.saturating_mul(step)
}

fn end_character(step: usize, end: Option<usize>) -> Option<usize>
    ensures { result ≡ spec_end_character step end }
{
    match end {
        Some(column) => Some(character_of(step, column)),
        None => None,
    }
}

pub(crate) fn span_of(step: usize, bar: &Bar) -> Span
    ensures { result ≡ spec_span_of step bar.now }
{
    Span {
        bar: *bar,
        from: character_of(step, bar.begin),
        to: end_character(step, bar.end),
    }
}

// The spans of the bars of a lane.
fn spans_in(alloc: Global, step: usize, bars: &[Bar], lane: usize) -> Result<Vec<Span>, AllocError>
    ensures { IfOk result (λ spans. spans.items ≡ spec_spans_in step bars.now lane) }
{
    bars.iter()
        .filter(|bar| bar.lane == lane)
        .map(|bar| span_of(step, bar))
        .collect(alloc)
}

/// A line for each lane, with the spans of its bars.
pub(crate) fn lines_of(alloc: Global, step: usize, shapes: &Shapes) -> Result<Vec<Line>, AllocError>
    ensures lanes { IfOk result (λ lines. map (λ (l : Line). l.process) lines.items ≡ shapes.now.lanes.items) }
    ensures spans { IfOk result (λ lines. map (λ (l : Line). l.spans.items) lines.items
        ≡ map (spec_spans_in step shapes.now.bars.items) (range_with_len 0 (length shapes.now.lanes.items))) }
{
    let mut lines = Vec::new(alloc);
    for lane in 0..shapes.lanes.len() {
        lines.push(Line {
            process: shapes.lanes[lane],
            spans: spans_in(alloc, step, &shapes.bars, lane)?,
        })?;
    }
    Ok(lines)
}

//! The number of calls that are open at once, and the length of the longest.
ghost use Rattle.std.specs.Prelude.{◌≡◌, All, IfOk, Some};
ghost use Rattle.snap_stats.specs.Overlaps.{greatest};
ghost use Rattle.snap_stats.specs.inside.Spans.{Rises, open_in, span_length};

use crate::span::Span;
use crate::timeline::Timeline;
use std::alloc::{AllocError, Global};

/// The greatest number of calls that are open at once.
pub(crate) fn most_open(alloc: Global, calls: &[Span]) -> Result<usize, AllocError>
    requires { All Rises calls.now }
    ensures { IfOk result (λ most. most ≡ greatest (open_in calls.now) calls.now) }
{
    let times = Timeline::new(alloc, calls)?;
    let mut most = 0;
    for call in calls {
        most = most.max(times.count_met(call.begun, Some(call.begun)));
    }
    Ok(most)
}

// The number of events that a call lasts, its begin and its end among them, or 0 for a pending call.
fn length_of(call: &Span) -> usize
    ensures { result ≡ span_length call.now }
{
    match call.ended {
        Some(ended) => ended.saturating_sub(call.begun) as usize + 1,
        None => 0,
    }
}

/// The number of events that the longest of the calls lasts, or 0 if none is completed.
pub(crate) fn longest(calls: &[Span]) -> usize
    ensures { result ≡ greatest span_length calls.now }
{
    let mut longest = 0;
    for call in calls {
        longest = longest.max(length_of(call));
    }
    longest
}

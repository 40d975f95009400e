//! The number of views that overlap other calls.
ghost use Rattle.std.specs.Prelude.{◌≡◌, ◌||◌, not, All, IfOk};
ghost use Rattle.snap_stats.specs.inside.Spans.{Rises, overlapping_in};

use crate::span::Span;
use crate::timeline::Timeline;
use std::alloc::{AllocError, Global};

/// The numbers of completed views that overlap an update, another completed view, and neither.
#[derive(Clone, Copy, PartialEq, Eq, Debug)]
pub struct Overlapping {
    pub update: usize,
    pub view: usize,
    pub nothing: usize,
}

// Whether a view overlaps neither an update nor another view.
fn is_alone(meets_update: bool, meets_view: bool) -> bool
    ensures { result ≡ not (meets_update || meets_view) }
{
    !(meets_update || meets_view)
}

/// The numbers of views that overlap an update, another view, and neither.
pub(crate) fn count_overlaps(
    alloc: Global,
    updates: &[Span],
    views: &[Span],
) -> Result<Overlapping, AllocError>
    requires updates { All Rises updates.now }
    requires views { All Rises views.now }
    ensures { IfOk result (λ overlapping. overlapping ≡ overlapping_in updates.now views.now) }
{
    let update_times = Timeline::new(alloc, updates)?;
    let view_times = Timeline::new(alloc, views)?;
    let mut update = 0;
    let mut view = 0;
    let mut nothing = 0;
    for span in views {
        let meets_update = update_times.count_met(span.begun, span.ended) > 0;
        // the view itself is one of those that it meets
        let meets_view = view_times.count_met(span.begun, span.ended) > 1;
        if meets_update {
            update += 1;
        }
        if meets_view {
            view += 1;
        }
        if is_alone(meets_update, meets_view) {
            nothing += 1;
        }
    }
    Ok(Overlapping {
        update,
        view,
        nothing,
    })
}

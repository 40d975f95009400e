//! The history of a store: its events with ranks for versions, cut to the times that the versions allow.
ghost use Rattle.std.specs.Prelude.{◌≡◌, ◌≤◌, IfOk, length, map};
ghost use Rattle.snap_core.specs.Events.{event_cap};
ghost use Rattle.snap_core.specs.Ordered.{IsOrdered};
ghost use Rattle.snap_versions.specs.Cuts.{event_of};
ghost use Rattle.snap_versions.specs.Stores.{IsStore, many_writers, place_of};

use crate::cut::cut_rows;
use crate::moment::{Cut, Moment};
use crate::numbered::numbered_calls;
use crate::turns::first_refused;
use snap_core::{AnyWriters, Event, EventRefusal, History, Limit, Writers};
use std::alloc::{AllocError, Global};

/// What the events of a store are.
#[derive(Drop)]
pub enum Store {
    /// The history of the cut calls. Each of its events has the place, counted from 0, of the event of the store that it was. An end that
    /// only the cut gives has the place of the begin.
    Cut(History<AnyWriters>, Vec<u32>),
    /// The event at this place is the first that no store may have, for this reason.
    Refused(usize, EventRefusal),
    /// The versions contradict time: an update ended at the first place, and one of its component with a lower version began at the
    /// second, which is later.
    Contradiction { ended: u32, begun: u32 },
    /// The history has more events than the limit.
    TooMany,
}

// The history of moments, and their places.
fn history_told(
    alloc: Global,
    moments: Vec<Moment>,
    limit: Limit,
) -> Result<(History<AnyWriters>, Vec<u32>), AllocError>
    requires ordered { IsOrdered (map event_of moments.items) }
    requires short { length moments.items ≤ limit.events }
    ensures events { IfOk result (λ told. told.0.events ≡ map event_of moments.items) }
    ensures limit { IfOk result (λ told. told.0.limit ≡ many_writers limit) }
    ensures places { IfOk result (λ told. told.1.items ≡ map place_of moments.items) }
{
    let mut history = History::of_any(alloc, limit.with_writers(Writers::Many));
    let mut places = Vec::with_capacity(alloc, moments.len())?;
    'each: for Moment {
        at: _,
        place,
        event,
    } in moments {
        match history.push(event) {
            Ok(()) => places.push(place)?,
            Err((_, refusal)) => {
                let is_memory = refusal == EventRefusal::Memory;
                prove!(is_memory);
                return Err(AllocError);
            }
        }
    }
    Ok((history, places))
}

/// The history of the events of a store that tells a version of each update, as the number of its entry. A pending update that no
/// view shows is left out, the others are numbered 1, 2, 3 in the order of their versions, and each is cut to the times that this order
/// allows. The history has many writers of a component, and at most as many events as the limit.
///
/// There is none if an event is refused, or if the versions contradict time. The error is lack of memory.
pub fn store_history(alloc: Global, events: &[Event], limit: Limit) -> Result<Store, AllocError>
    requires { length events.now ≤ event_cap }
    ensures { IfOk result (IsStore limit events.now) }
{
    if let Some((place, refusal)) = first_refused(alloc, events)? {
        return Ok(Store::Refused(place, refusal));
    }
    let rows = numbered_calls(alloc, events)?;
    let moments = match cut_rows(alloc, rows)? {
        Cut::Told(moments) => moments,
        Cut::Contradiction { ended, begun } => {
            return Ok(Store::Contradiction { ended, begun });
        }
    };
    if moments.len() > limit.events() {
        return Ok(Store::TooMany);
    }
    let (history, places) = history_told(alloc, moments, limit)?;
    Ok(Store::Cut(history, places))
}

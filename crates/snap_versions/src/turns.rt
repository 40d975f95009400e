//! The first event of a store that is refused.
ghost use Rattle.std.specs.Prelude.{◌≡◌, ◌≤◌, IfOk, Some, length, slice_index_or, None};
ghost use Rattle.std.specs.Option.{MatchOption};
ghost use Rattle.snap_core.specs.Calls.{calls_of};
ghost use Rattle.snap_core.specs.Events.{EventFits};
ghost use Rattle.snap_theory.specs.Versioned.{AreVersioned};
ghost use Rattle.snap_versions.specs.Refused.{AnswersTurns};
ghost use Rattle.snap_versions.specs.inside.Turns.{opened_by, turn_refusal, version_of};

use snap_core::{Event, EventRefusal};
use snap_index::process_limit;
use std::alloc::{AllocError, Global};
use std::collections::BTreeSet;

// One more than the greatest number of an update.
const NUMBERS: u64 = 1 << 32;

// The kind of call that a process has begun.
#[derive(Clone, Copy)]
enum Kind {
    Update,
    View,
}

fn opened_by(event: &Event) -> Option<Kind>
    ensures { result ≡ opened_by event.now }
{
    match event {
        Event::BeginUpdate { .. } => Some(Kind::Update),
        Event::BeginView { .. } => Some(Kind::View),
        Event::EndUpdate { .. } | Event::EndView { .. } => None,
    }
}

// Why an event is not the turn of its process, by the call that this has begun.
fn turn_refusal(begun: Option<Kind>, event: &Event) -> Option<EventRefusal>
    ensures { result ≡ turn_refusal begun event.now }
{
    match (begun, event) {
        (Some(_), Event::BeginUpdate { .. } | Event::BeginView { .. }) => Some(EventRefusal::Busy),
        (None, Event::EndUpdate { .. } | Event::EndView { .. }) => Some(EventRefusal::Idle),
        (Some(Kind::Update), Event::EndView { .. }) | (Some(Kind::View), Event::EndUpdate { .. }) =>
            { Some(EventRefusal::OtherOp) }
        _ => None,
    }
}

// The version of an update as one number, by its component and its number; none of any other event.
fn version_of(event: &Event) -> Option<u64>
    ensures version { result ≡ version_of event.now }
    ensures fits { EventFits event.now }
{
    event.fits();
    match event {
        Event::BeginUpdate { entry, .. } => {
            Some(u64::from(entry.component) * NUMBERS + u64::from(entry.number))
        }
        _ => None,
    }
}

/// The place of the first event that none of a store may have, after those before it, with the reason: a begin of a process with an open
/// call, an end without one or of the other kind, or an update whose version an earlier one has. The reason in the last case is
/// `Number`. If there is none, each process takes turns, and two updates of a component have two versions. The error is lack of
/// memory.
pub fn first_refused(
    alloc: Global,
    events: &[Event],
) -> Result<Option<(usize, EventRefusal)>, AllocError>
    ensures { IfOk result (AnswersTurns events.now) }
{
    let mut begun: Vec<Option<Kind>> = vec![in alloc; None; process_limit(events)]?;
    let mut versions = BTreeSet::new(alloc);
    for i in 0..events.len() {
        let event = &events[i];
        let process = event.process() as usize;
        if let Some(refusal) = turn_refusal(begun[process], event) {
            return Ok(Some((i, refusal)));
        }
        if let Some(version) = version_of(event) {
            if !versions.insert(version)? {
                return Ok(Some((i, EventRefusal::Number)));
            }
        }
        begun[process] = opened_by(event);
    }
    Ok(None)
}

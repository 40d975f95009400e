//! What is left of the events of some calls.
ghost use Rattle.std.specs.Prelude.{◌≡◌, ◌≤◌, ◌++◌, ◌∷◌, [], None, length, IfOk, OnOk};
ghost use Rattle.snap_core.specs.Events.{IsHistory, event_cap};
ghost use Rattle.snap_core.specs.Refusals.{refusal_of};
ghost use Rattle.snap_theory.specs.Kept.{kept_entries as spec_kept_entries, kept_event as spec_kept_event, kept_from, is_among as spec_is_among};
ghost use Rattle.snap_theory.specs.Witness.{numbers_of};

use snap_core::{Entry, Event, EventRefusal, History, Limit, View};
use std::alloc::{AllocError, Global};

// The number in the first pair with a component, 0 if there is none.
fn number_of(pairs: &[(u8, u32)], k: u8) -> u32
    ensures { result ≡ numbers_of pairs.now k }
{
    for i in 0..pairs.len() {
        if pairs[i].0 == k {
            return pairs[i].1;
        }
    }
    0
}

// The entries of kept updates among those of a view.
fn kept_entries(
    alloc: Global,
    entries: &[Entry],
    pairs: &[(u8, u32)],
) -> Result<Vec<Entry>, AllocError>
    ensures { IfOk result (λ kept. kept.items ≡ spec_kept_entries (numbers_of pairs.now) entries.now) }
{
    let mut kept = Vec::new(alloc);
    for i in 0..entries.len() {
        let e = entries[i];
        if e.number == number_of(pairs, e.component) {
            kept.push(Entry {
                component: e.component,
                number: 1,
                value: e.value,
            })?;
        }
    }
    Ok(kept)
}

// A view as the witness has it.
pub(crate) fn kept_view(alloc: Global, view: &View, pairs: &[(u8, u32)]) -> Result<View, AllocError>
    ensures { IfOk result (λ kept. kept ≡ spec_kept_entries (numbers_of pairs.now) view.now) }
{
    let kept = kept_entries(alloc, view.entries(), pairs)?;
    match View::from_entries(kept) {
        Ok(view) => Ok(view),
        Err(_refused) => unreachable!(),
    }
}

// A kept event as the witness has it.
pub(crate) fn kept_event(
    alloc: Global,
    event: &Event,
    pairs: &[(u8, u32)],
) -> Result<Event, AllocError>
    ensures { IfOk result (λ kept. kept ≡ spec_kept_event (numbers_of pairs.now) event.now) }
{
    Ok(match event {
        Event::BeginUpdate { process, entry } => Event::BeginUpdate {
            process: *process,
            entry: Entry {
                component: entry.component,
                number: 1,
                value: entry.value,
            },
        },
        Event::BeginView { process } => Event::BeginView { process: *process },
        Event::EndUpdate { process } => Event::EndUpdate { process: *process },
        Event::EndView { process, view } => {
            let view = kept_view(alloc, view, pairs)?;
            Event::EndView {
                process: *process,
                view,
            }
        }
    })
}

// Whether a place is among some.
pub(crate) fn is_among(places: &[u32], place: u32) -> bool
    ensures { result ≡ spec_is_among places.now place }
{
    places.iter().any(|p| *p == place)
}

// Appends an event that is not refused.
fn append(history: &mut History, event: Event) -> Result<(), AllocError>
    requires { refusal_of history.old.limit history.old.events event ≡ None }
    ensures events { OnOk result (history.new.events ≡ history.old.events ++ event ∷ []) }
    ensures limit { history.new.limit ≡ history.old.limit }
{
    match history.push(event) {
        Ok(()) => Ok(()),
        Err((_event, refusal)) => match refusal {
            EventRefusal::Memory => Err(AllocError),
            _ => unreachable!(),
        },
    }
}

// The history of the events at some places, if that is one. The places have at most one update of each component, whose number
// is paired with the component. It becomes update 1, and a view shows what it showed of these updates. The error is lack of memory.
pub(crate) fn keep(
    alloc: Global,
    events: &[Event],
    places: &[u32],
    pairs: &[(u8, u32)],
) -> Result<History, AllocError>
    requires history { IsHistory (kept_from (spec_is_among places.now) (numbers_of pairs.now) 0 events.now) }
    requires short { length events.now ≤ event_cap }
    ensures { IfOk result (λ kept. kept.events ≡ kept_from (spec_is_among places.now) (numbers_of pairs.now) 0 events.now) }
{
    let mut history = History::with_limit(alloc, Limit::greatest());
    for i in 0..events.len() {
        if is_among(places, i as u32) {
            let event = kept_event(alloc, &events[i], pairs)?;
            append(&mut history, event)?;
        }
    }
    Ok(history)
}

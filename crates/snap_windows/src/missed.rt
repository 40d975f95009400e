//! Views that show less than what was left.
ghost use Rattle.std.specs.Prelude.{◌≡◌, ◌↔◌, ◌<◌, ◌⊎◌, ℕ, Option, Some, IsTrue, MatchOption};
ghost use Rattle.snap_core.specs.declared.entry.Entry.{Entry};
ghost use Rattle.snap_core.specs.Entries.{AreEntries, entry_of, number_in};
ghost use Rattle.snap_windows.specs.Last.{HasLeft};
ghost use Rattle.snap_windows.specs.Missed.{EventMisses, EventShowsNoLess, Misses, ShowsNoLess};

use crate::last::Wrote;
use snap_core::{COMPONENT_COUNT, Entry, Event, View};

// Whether a view shows an entry of a component, or one with a greater number.
fn shows(view: &View, component: u8, entry: Entry) -> bool
    ensures { IsTrue result ↔ ((entry_of component view.now ≡ Some entry) ⊎ (entry.number < number_in (entry_of component view.now))) }
{
    // this call shows what is known of a view
    let _entries = view.entries();
    let number = view.number(component);
    number > entry.number
        // a component that is not listed has number 0
        || number > 0
            && entry
                == Entry {
                    component,
                    number,
                    value: view.value(component),
                }
}

// What was left of the first component of which a view shows neither that nor a later number; none if there is no such component.
fn missed(left: &[Option<Wrote>; COMPONENT_COUNT], view: &View) -> Option<Entry>
    ensures { (f : ℕ → Option Entry) → HasLeft left.now f → MatchOption result (ShowsNoLess f view.now) (Misses f view.now) }
{
    // this call shows what is known of a view
    let _entries = view.entries();
    'each: for component in 0..COMPONENT_COUNT {
        if let Some(wrote) = left[component] {
            if !shows(view, component as u8, wrote.entry) {
                return Some(wrote.entry);
            }
        }
    }
    None
}

/// What was left of the first component of which the view that an event ends shows neither that nor a later number. None if there
/// is no such component, or the event ends no view.
pub(crate) fn missed_by(left: &[Option<Wrote>; COMPONENT_COUNT], event: &Event) -> Option<Entry>
    ensures { (f : ℕ → Option Entry) → HasLeft left.now f → MatchOption result (EventShowsNoLess f event.now) (EventMisses f event.now) }
{
    match event {
        Event::EndView { process: _, view } => missed(left, view),
        _ => None,
    }
}

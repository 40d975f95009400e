//! The last update of each component.
ghost use Rattle.std.specs.Prelude.{◌≡◌, ◌∷◌, [], ◌++◌, List, ℕ, Option};
ghost use Rattle.snap_core.specs.declared.event.Event.{Event};
ghost use Rattle.snap_windows.specs.Last.{HasLast};

use snap_core::{COMPONENT_COUNT, Entry, Event};

/// An update: its process, and what it writes.
#[derive(Clone, Copy)]
pub(crate) struct Wrote {
    pub(crate) process: u16,
    pub(crate) entry: Entry,
}

/// The last updates in an empty list of events.
pub(crate) fn none() -> [Option<Wrote>; COMPONENT_COUNT]
    ensures { HasLast result [] }
{
    [None; COMPONENT_COUNT]
}

/// Notes one more event.
pub(crate) fn note(last: &mut [Option<Wrote>; COMPONENT_COUNT], event: &Event)
    ensures { (es : List Event) → HasLast last.old es → HasLast last.new (es ++ event.now ∷ []) }
{
    if let Event::BeginUpdate { process, entry } = event {
        last[usize::from(entry.component)] = Some(Wrote {
            process: *process,
            entry: *entry,
        });
    }
}

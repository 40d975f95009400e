//! The events of a window, and where they stand.
ghost use Rattle.std.specs.Prelude.{◌≡◌, ◌≢◌, [], None};
ghost use Rattle.snap_follow.specs.Misses.{first_missed as spec_first_missed};
ghost use Rattle.snap_follow.specs.Spans.{HasOneMore, IsSpanOf, ends_view as spec_ends_view};

use snap_core::{Entry, Event};

/// The place of a record: the number of its text in the recording, from 0, and its own number in that text, from 1. The header is
/// record 1.
#[derive(Clone, Copy)]
pub struct Place {
    pub text: usize,
    pub number: u64,
}

/// The events of a window.
#[derive(Clone, Copy)]
pub struct Span {
    /// The numbers of its events and of its completed views.
    pub events: u64,
    pub views: u64,
    /// The places of its first and of its last event.
    pub first: Place,
    pub last: Place,
    /// An entry that was left before it, and the place at which the first view ends that shows neither that nor a later number.
    pub missed: Option<(Entry, Place)>,
}

impl Span {
    /// A window without events, after a record.
    pub(crate) fn behind(place: Place) -> Span
        ensures none { IsSpanOf result [] }
        ensures missed { result.missed ≡ None }
    {
        Span {
            events: 0,
            views: 0,
            first: place,
            last: place,
            missed: None,
        }
    }

    // The place of its first event, once one more has come at this place.
    fn first_with(self, place: Place) -> Place
        ensures { (self.events ≡ 0 → result ≡ place) × (self.events ≢ 0 → result ≡ self.first) }
    {
        if self.events == 0 { place } else { self.first }
    }

    /// The window with one event more, which is at this place and misses this entry.
    pub(crate) fn with(self, event: &Event, place: Place, missed: Option<Entry>) -> Span
        ensures more { HasOneMore self event.now place result }
        ensures missed { result.missed ≡ spec_first_missed self.missed missed place }
    {
        Span {
            events: self.events.saturating_add(1),
            views: self.views.saturating_add(u64::from(ends_view(event))),
            first: self.first_with(place),
            last: place,
            missed: first_missed(self.missed, missed, place),
        }
    }
}

// What a view of a window misses first, once an event at a place misses this entry.
fn first_missed(
    before: Option<(Entry, Place)>,
    missed: Option<Entry>,
    place: Place,
) -> Option<(Entry, Place)>
    ensures { result ≡ spec_first_missed before missed place }
{
    match (before, missed) {
        (None, Some(entry)) => Some((entry, place)),
        _ => before,
    }
}

// Whether an event completes a view.
fn ends_view(event: &Event) -> bool
    ensures { result ≡ spec_ends_view event.now }
{
    matches!(event, Event::EndView { .. })
}

//! What a history may be, as a caller chooses it: its greatest number of events, and who may write a component.
ghost use Rattle.std.specs.Prelude.{◌≡◌, IsSome, IfSome, ◌↔◌};
ghost use Rattle.snap_core.specs.Limits.{IsLimit};
ghost use Rattle.snap_core.specs.declared.writers.Writers.TheVariants.{One};

use crate::history::EVENT_CAP;
use crate::writers::Writers;

/// The limit of events if none is chosen.
pub const EVENT_LIMIT: usize = 65_536;

/// What a history may be: its greatest number of events, 1 to `EVENT_CAP`, and how many processes may write a component.
#[derive(Clone, Copy, PartialEq, Eq, Debug)]
pub struct Limit {
    pub(crate) events: u32,
    pub(crate) writers: Writers,
    ghost fits: { IsLimit events },
}

impl Limit {
    /// The limit of this many events, with one writer of each component; none if that is not 1 to `EVENT_CAP`.
    pub fn new(events: u32) -> Option<Limit>
        ensures limit { IfSome result (λ limit. limit.events ≡ events) }
        ensures writers { IfSome result (λ limit. limit.writers ≡ One) }
        ensures given { IsSome result ↔ IsLimit events }
    {
        if !(1..=EVENT_CAP as u32).contains(&events) {
            return None;
        }
        Some(Limit {
            events,
            writers: Writers::One,
        })
    }

    /// The same limit of events, where so many processes may write a component.
    pub fn with_writers(self, writers: Writers) -> Limit
        ensures events { result.events ≡ self.events }
        ensures writers { result.writers ≡ writers }
    {
        Limit {
            events: self.events,
            writers,
        }
    }

    /// How many processes may write a component of a history with this limit.
    pub fn writers(self) -> Writers
        ensures { result ≡ self.writers }
    {
        self.writers
    }

    /// The number of events that a history with this limit may have.
    pub fn events(self) -> usize
        ensures events { result ≡ self.events }
        ensures fits { IsLimit result }
    {
        self.events as usize
    }
}

//! Begins and ends of calls, once these are cut to the times that the versions allow.
use snap_core::Event;

/// A begin or an end of a cut call.
#[derive(Drop)]
pub struct Moment {
    /// When it is, once the call is cut: the place of an event of the store.
    pub at: u32,
    /// The place of the event before it was cut. An update that the store never ended has that of its begin.
    pub place: u32,
    pub event: Event,
}

/// What a cut leaves of the calls of a store.
#[derive(Drop)]
pub enum Cut {
    /// The begins and ends of the cut calls, in their order.
    Told(Vec<Moment>),
    /// The versions contradict time: an update ended at the first place, and one of its component with a lower version began
    /// at the second place, which is later.
    Contradiction { ended: u32, begun: u32 },
}

//! An event in a text whose records have stamps.

use snap_core::Event;

/// An event with its stamp and the number of its record.
#[derive(Drop)]
pub struct Stamped {
    pub at: u64,
    pub place: u32,
    pub event: Event,
}

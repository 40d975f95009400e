//! What the tests of the other crates share: worked histories, readers and writers that fail, and gates at which workers meet. Only
//! tests use it.
#![tactic(auto)]

mod devices;
mod gates;
mod steps;
mod texts;
pub mod worked;

pub use devices::{Cup, Drip, Newlines};
pub use gates::{Arrivals, Held, Meeting};
pub use steps::{Refused, Shown, Step, entry, event_of, history_of};
pub use texts::{add_updates, updates_order};

//! What a run has shown: the number of its calls, and the number of those that overlap.
#![tactic(auto)]

mod open;
mod overlaps;
mod processes;
mod shown;
mod span;
mod stats;
mod text;
mod timeline;

pub use overlaps::Overlapping;
pub use stats::{ComponentStats, Stats, stats_of};
pub use text::stats_text;

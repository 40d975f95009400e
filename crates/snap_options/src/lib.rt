//! What may be asked for in a picture or in an explanation: how much at most, and in which colours.
#![tactic(auto)]

mod limits;
mod scheme;

pub use limits::{FAULT_LIMIT, LINE_CALLS, MOST_CALLS};
pub use scheme::Scheme;

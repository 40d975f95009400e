//! Histories in plain texts, which have no quote and no carriage return.
#![tactic(auto)]

mod ahead;
mod beside;
mod fields;
mod front;
mod line;
mod lines;
mod pieces;
mod rings;

pub use beside::history_of_lines_shared;
pub use line::{plain_event, plain_stamped};
pub use lines::{Lines, history_of_lines, is_plain, lines_of};

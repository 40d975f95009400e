//! The calls of a history, with look-ups by number.
#![tactic(auto)]

mod call;
mod index;
mod listing;
mod table;

pub use call::{Call, CallOp, Write};
pub use index::Index;
pub use listing::{answered, list_calls, process_limit};

//! The printed order of a history, and the check of an order.
#![tactic(auto)]

mod checking;
mod last_entries;
mod levels;
mod near;
mod printing;

pub use checking::check_order;
pub use printing::{build, build_alone, build_of_chain};

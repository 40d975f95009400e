//! The tally of all views of a history, by workers that draw pieces of the views from one counter.
#![tactic(auto)]

mod gather;
mod pieces;
mod reads;
mod whole;
mod worker;

pub use snap_threads::{Claim, Claims, Cutting, CuttingRefusal};
pub use whole::{tally, tally_and_chain};

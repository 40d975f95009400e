//! The events of a store that tells a version of each update, as a history that the judge takes.
#![tactic(auto)]

mod cut;
mod kept;
mod listed;
mod moment;
mod moments;
mod numbered;
mod ranked;
mod ranks;
mod row;
mod store;
mod times;
mod turns;
mod unshown;
mod update;
mod versions;

pub use cut::cut_rows;
pub use moment::{Cut, Moment};
pub use numbered::numbered_calls;
pub use row::{Operation, Row};
pub use store::{Store, store_history};
pub use turns::first_refused;

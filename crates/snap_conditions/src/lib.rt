//! The tally of the faults of a history over a range of views, and what it says of the history.
#![tactic(auto)]

mod fault;
mod integrity;
mod law;
mod part;
mod proximity;
mod range;
mod read;
mod row;
mod shown_and_next;
mod stale;
mod tally;
mod updates;
mod write;

pub use fault::{Fault, IntegrityFault, Kind, ProximityFault, ReadFault, Side, WriteFault};
pub use law::{conditions_by_tally, monotone_by_tally, regular_by_tally, tallies_join};
pub use part::Part;
pub use range::{tally_range, tally_without_read};
pub use read::read_fault_of;
pub use snap_theory::monotone_without_read_fault;
pub use snap_views::{chain, no_read_fault_by_sums, ordered, view_sum};
pub use tally::{Tally, is_atomic, is_monotone, is_regular, merge};

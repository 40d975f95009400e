//! The completed views of a history as a whole: their sums, their chain, and the quick test for read faults.
#![tactic(auto)]

mod comparison;
mod law;
mod quick_test;
mod seen;
mod sweep;
mod view_chain;

pub use comparison::{ViewOrder, view_order};
pub use law::no_read_fault_by_sums;
pub use quick_test::{entries_sum, view_sum, view_sums};
pub use seen::{SeenView, view_at};
pub use sweep::ordered;
pub use view_chain::{ViewChain, chain};

//! Small histories that show why a history is not atomic.
#![tactic(auto)]

mod calls;
mod fault_calls;
mod finding;
mod keeping;

pub use fault_calls::{
    FaultCalls, concerned, first_fault_of, least_exceeding, read_updates, side_number,
    view_numbered,
};
pub use finding::{kept_calls, witness};

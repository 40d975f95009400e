//! The tally of the completed views by a grid of them.
#![tactic(auto)]

mod by_grid;
mod columns;
mod number_table;
mod ranks;
mod view_grid;
mod whole;

pub use by_grid::{read_faults_by_grid, tally_by_grid};
pub use columns::columns_between;
pub use view_grid::{ReadPairs, ViewGrid};
pub use whole::tally_and_chain_alone;

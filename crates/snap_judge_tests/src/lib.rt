//! Tests of the public calls on indexes, grids, tallies, pieces, orders, witnesses and stores.
#![tactic(auto)]

#[cfg(test)]
mod comparable;
#[cfg(test)]
mod grids;
#[cfg(test)]
mod indexes;
#[cfg(test)]
mod orders;
#[cfg(test)]
mod pieces;
#[cfg(test)]
mod stores;
#[cfg(test)]
mod tallies;
#[cfg(test)]
mod witnesses;

//! Rows of numbers by columns, and how many pairs of rows clash, block by block.
#![tactic(auto)]

mod block;
mod grid;
mod kind;
mod kinds;
mod one_column;
mod sweep;
mod together;
mod tree;

pub use grid::{Clashes, Grid};
pub use snap_masks::{Bounds, Column, ROW_LIMIT, TABLE_LIMIT, WIDTH, by_ranks};
pub use together::joined;

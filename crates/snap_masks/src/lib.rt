//! Columns of numbers in blocks of 512 rows, and masks of the rows whose number is below another.
#![tactic(auto)]

mod bounds;
mod column;
mod facing;
mod mask;
mod masks;
mod ranked;

pub use bounds::Bounds;
pub use column::{Column, ROW_LIMIT, TABLE_LIMIT, by_ranks};
pub use facing::{Facing, MasksAround};
pub use mask::{Mask, WIDTH, mask_of_all};
pub use masks::Masks;
pub use ranked::{distinct_of, ranks_of};

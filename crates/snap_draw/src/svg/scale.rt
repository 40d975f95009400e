//! Where things are in a picture, in its units. A number that is too great for its type becomes the type's greatest.
pub(crate) const LEFT: u64 = 64;

pub(crate) const COLUMN: u64 = 48;

pub(crate) const LANE: u64 = 58;

pub(crate) const TOP: u64 = 92;

/// The width of a character of a label.
pub(crate) const WIDE: usize = 7;

/// The free room between a label and what is right of it.
pub(crate) const MARGIN: usize = 6;

// A number of steps from a start.
pub(crate) fn scaled(count: usize, step: u64, start: u64) -> u64 {
    (count as u64).saturating_mul(step).saturating_add(start)
}

// The middle of a column.
pub(crate) fn x_of(column: usize) -> u64 {
    scaled(column, COLUMN, LEFT + COLUMN / 2)
}

// The middle of a column, as a size.
pub(crate) fn across(column: usize) -> usize {
    column.saturating_mul(48).saturating_add(88)
}

// A height in a lane, from its top.
pub(crate) fn y_of(lane: usize, down: u64) -> u64 {
    scaled(lane, LANE, TOP.saturating_add(down))
}

// Where the lanes end on the right.
pub(crate) fn right_of(columns: usize) -> u64 {
    scaled(columns, COLUMN, LEFT + COLUMN / 4)
}

//! How much may be asked for at most.

/// The most calls of a window on a page or as SVG, and the most that a page holds of a longer history.
pub const MOST_CALLS: u32 = 2000;

/// The most calls of a window in lines of characters.
pub const LINE_CALLS: u32 = 12;

/// The most faults of a kind in an explanation.
pub const FAULT_LIMIT: u32 = 1000;

//! The worked histories, and what is known about them from outside.
use snap_testing::{Step, worked};

/// Each with its name, and its numbers of integrity, proximity, read and write faults and of stale views.
pub(super) const WORKED: &[(&str, &[Step<'static>], [u64; 5])] = &[
    ("nothing", worked::NOTHING, [0, 0, 0, 0, 0]),
    ("stale view", worked::STALE_VIEW, [0, 1, 0, 0, 0]),
    ("wrong value", worked::WRONG_VALUE, [1, 0, 0, 0, 0]),
    ("largest number", worked::LARGEST_NUMBER, [1, 0, 0, 0, 0]),
    ("shown too early", worked::SHOWN_TOO_EARLY, [0, 1, 0, 0, 0]),
    ("never written", worked::NEVER_WRITTEN, [1, 0, 0, 0, 0]),
    ("new then old", worked::NEW_THEN_OLD, [0, 0, 1, 0, 1]),
    ("crossed views", worked::CROSSED_VIEWS, [0, 0, 2, 0, 0]),
    ("all pending", worked::ALL_PENDING, [0, 0, 0, 0, 0]),
    ("missed update", worked::MISSED_UPDATE, [0, 0, 0, 1, 0]),
    ("seen pending", worked::SEEN_PENDING, [0, 0, 0, 0, 0]),
    (
        "view beside update",
        worked::VIEW_BESIDE_UPDATE,
        [0, 0, 0, 0, 0],
    ),
    ("atomic run", worked::ATOMIC_RUN, [0, 0, 0, 0, 0]),
    ("stale and wrong", worked::STALE_AND_WRONG, [1, 1, 0, 0, 0]),
    ("pending view", worked::PENDING_VIEW, [0, 0, 0, 0, 0]),
];

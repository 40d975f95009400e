//! Small histories, each named after what it shows.
use crate::steps::Step;
use crate::steps::Step::{Update, Updated, View, Viewed};

/// Nothing happens.
pub const NOTHING: &[Step<'static>] = &[];

/// A view misses an update that ended before it began.
pub const STALE_VIEW: &[Step<'static>] = &[
    Update(0, (0, 1, 7)),
    Updated(0),
    View(1),
    Viewed(1, &[]),
];

/// After an update a view shows a value that nobody wrote.
pub const WRONG_VALUE: &[Step<'static>] = &[
    Update(0, (0, 1, 7)),
    Updated(0),
    View(1),
    Viewed(1, &[(0, 1, 8)]),
];

/// After an update a view shows the largest number that there is.
pub const LARGEST_NUMBER: &[Step<'static>] = &[
    Update(0, (0, 1, 7)),
    Updated(0),
    View(1),
    Viewed(1, &[(0, u32::MAX, 7)]),
];

/// A view shows an update before it begins.
pub const SHOWN_TOO_EARLY: &[Step<'static>] = &[
    View(1),
    Viewed(1, &[(0, 1, 7)]),
    Update(0, (0, 1, 7)),
    Updated(0),
];

/// A view shows an update that never begins.
pub const NEVER_WRITTEN: &[Step<'static>] = &[
    View(1),
    Viewed(1, &[(0, u32::MAX, 7)]),
    Update(0, (0, 1, 7)),
    Updated(0),
];

/// A view misses an update that ended before it, and another shows a value that nobody wrote.
pub const STALE_AND_WRONG: &[Step<'static>] = &[
    Update(0, (0, 1, 7)),
    Updated(0),
    View(1),
    Viewed(1, &[]),
    View(2),
    Viewed(2, &[(0, 1, 9)]),
];

/// During an open update one view shows it, and a later view does not.
pub const NEW_THEN_OLD: &[Step<'static>] = &[
    Update(0, (0, 1, 7)),
    View(1),
    Viewed(1, &[(0, 1, 7)]),
    View(2),
    Viewed(2, &[]),
    Updated(0),
];

/// Two views disagree about the order of two updates.
pub const CROSSED_VIEWS: &[Step<'static>] = &[
    Update(0, (0, 1, 1)),
    Update(1, (1, 1, 1)),
    View(2),
    View(3),
    Viewed(2, &[(0, 1, 1)]),
    Viewed(3, &[(1, 1, 1)]),
    Updated(0),
    Updated(1),
];

/// Each of four views shows a different one of four open updates, of components far from one another.
pub const FOUR_WAYS: &[Step<'static>] = &[
    Update(0, (0, 1, 1)),
    Update(1, (63, 1, 1)),
    Update(2, (64, 1, 1)),
    Update(3, (255, 1, 1)),
    View(4),
    View(5),
    View(6),
    View(7),
    Viewed(4, &[(0, 1, 1)]),
    Viewed(5, &[(63, 1, 1)]),
    Viewed(6, &[(64, 1, 1)]),
    Viewed(7, &[(255, 1, 1)]),
    Updated(0),
    Updated(1),
    Updated(2),
    Updated(3),
];

/// A view shows an update and not the one that ended before it began.
pub const MISSED_UPDATE: &[Step<'static>] = &[
    View(2),
    Update(0, (0, 1, 5)),
    Updated(0),
    Update(1, (1, 1, 6)),
    Updated(1),
    Viewed(2, &[(1, 1, 6)]),
];

/// Two updates and two views, none ended.
pub const ALL_PENDING: &[Step<'static>] = &[
    Update(0, (0, 1, 1)),
    Update(1, (1, 1, 1)),
    View(2),
    View(3),
];

/// Two updates and two views, none ended, with the last component and the last process that there are.
pub const PENDING_AT_THE_LIMITS: &[Step<'static>] = &[
    Update(0, (0, 1, 1)),
    Update(1, (255, 1, 1)),
    View(2),
    View(65535),
];

/// One view that does not end.
pub const PENDING_VIEW: &[Step<'static>] = &[View(0)];

/// A view shows one of two pending updates.
pub const SEEN_PENDING: &[Step<'static>] = &[
    Update(0, (0, 1, 3)),
    Update(1, (1, 1, 4)),
    View(2),
    Viewed(2, &[(0, 1, 3)]),
];

/// A view during an update does not show it.
pub const VIEW_BESIDE_UPDATE: &[Step<'static>] = &[
    Update(0, (0, 1, 3)),
    View(1),
    Viewed(1, &[]),
    Updated(0),
];

/// Five calls of four processes, all ended, with a legal order.
pub const ATOMIC_RUN: &[Step<'static>] = &[
    Update(0, (0, 1, 10)),
    Updated(0),
    Update(1, (1, 1, 20)),
    View(2),
    Update(0, (0, 2, 11)),
    Viewed(2, &[(0, 1, 10)]),
    Updated(0),
    View(3),
    Viewed(3, &[(0, 2, 11), (1, 1, 20)]),
    Updated(1),
];

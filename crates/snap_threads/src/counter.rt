//! The counter's one word, the numbers that claims drew from it, and the three kinds of step: a draw, a split and a join.
use crate::cutting::Cutting;
use atomic_table::{Join, Play, Split, TableRule};
use std::collections::LinkedList;

/// What one seat knows: the numbers that each of its claims drew. No value of it is made.
pub(crate) type Hand = LinkedList<LinkedList<u64>>;

/// The rule of the counter, which holds between any two steps.
pub(crate) struct Draws;

impl TableRule<(), Hand, Cutting> for Draws {
    ghost use Rattle.snap_threads.specs.inside.Draws.{IsDrawn, empties};

    ghost holds = { λ cutting state. IsDrawn cutting.pieces cutting.workers state };

    ghost first = { λ cutting. empties cutting.workers };
}

/// One claim draws the number that it finds in the counter.
pub(crate) struct Draw;

impl Play<(), Hand> for Draw {
    ghost use Rattle.snap_threads.specs.inside.Draws.{DrawsFound};

    ghost then = { DrawsFound };
}

/// One claim is cut off from those that were not dealt yet.
pub(crate) struct Deal;

impl Split<Hand> for Deal {
    ghost use Rattle.snap_threads.specs.inside.Draws.{but_first, only_first};

    ghost left = { but_first };

    ghost right = { only_first };
}

/// The claims of two seats are put together, each with its own list.
pub(crate) struct Collect;

impl Join<Hand> for Collect {
    ghost use Rattle.std.specs.Prelude.{◌++◌, []};

    ghost both = { λ these those. these ++ those };

    ghost spent = { [] };
}

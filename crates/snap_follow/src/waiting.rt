//! Records with stamps that wait until enough others wait.
ghost use Rattle.std.specs.Prelude.{◌≡◌, ◌==◌, ◌∷◌, [], length, List, IfOk, MatchOption, false, true};
ghost use Rattle.snap_follow.specs.declared.waiting.Turn.{Turn};
ghost use Rattle.snap_follow.specs.Followed.{HasStamp};
ghost use Rattle.snap_follow.specs.inside.Waits.{AddsTurn, FitsAt};

use crate::span::Place;
use snap_core::Event;
use std::alloc::{AllocError, Global};
use std::collections::VecDeque;

/// The event of a record, the stamp of the record, and its place.
#[derive(Drop)]
pub(crate) struct Turn {
    pub(crate) at: u64,
    pub(crate) place: Place,
    pub(crate) event: Event,
}

/// The records that wait, in the order of their stamps.
#[derive(Drop)]
pub(crate) struct Waiting {
    turns: VecDeque<Turn>,
}

impl Waiting {
    /// Nothing waits.
    pub(crate) fn new(alloc: Global) -> Waiting
        ensures { result.turns.items ≡ [] }
    {
        Waiting {
            turns: VecDeque::new(alloc),
        }
    }

    /// Whether nothing waits.
    pub(crate) fn is_empty(&self) -> bool
        ensures { result ≡ (length self.now.turns.items == 0) }
    {
        self.turns.is_empty()
    }

    /// The number of records that wait.
    pub(crate) fn len(&self) -> usize
        ensures { result ≡ length self.now.turns.items }
    {
        self.turns.len()
    }

    // How many of the records come before a stamp; none if one of them has this stamp. Most come last, so the search begins there: it goes
    // back in steps that double, and then by halves.
    fn rank(&self, at: u64) -> Option<usize>
        ensures { MatchOption result (HasStamp self.now.turns.items at) (FitsAt self.now.turns.items at) }
    {
        let (mut low, mut high) = (0, self.turns.len());
        let mut step: usize = 1;
        while low < high {
            let middle = if low == 0 {
                high.saturating_sub(step)
            } else {
                low + (high - low) / 2
            };
            let found = self.turns[middle].at;
            if found == at {
                return None;
            }
            if found < at {
                low = middle + 1;
            } else {
                high = middle;
                step = step.saturating_mul(2);
            }
        }
        Some(low)
    }

    /// Adds a record. Answers whether no other has its stamp; otherwise nothing changes. The error is want of memory.
    pub(crate) fn add(&mut self, turn: Turn) -> Result<bool, AllocError>
        ensures added { IfOk result (λ is_new. is_new ≡ true → AddsTurn self.old.turns.items turn self.new.turns.items) }
        ensures repeated { IfOk result (λ is_new. is_new ≡ false → HasStamp self.old.turns.items turn.at) }
    {
        let Some(rank) = self.rank(turn.at) else {
            return Ok(false);
        };
        self.turns.insert(rank, turn)?;
        Ok(true)
    }

    /// Takes the record with the least stamp, if one waits.
    pub(crate) fn take_first(&mut self) -> Option<Turn>
        ensures { MatchOption result ((self.old.turns.items ≡ []) × (self.new ≡ self.old)) (λ turn. self.old.turns.items ≡ turn ∷ self.new.turns.items) }
    {
        if self.turns.is_empty() {
            return None;
        }
        self.turns.pop_front()
    }
}

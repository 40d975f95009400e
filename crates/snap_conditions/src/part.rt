//! The number of faults of one kind, and the first of them.
ghost use Rattle.std.specs.Prelude.{◌≡◌, ◌+◌, ◌<◌, ◌^◌, ◌↔◌, Some, IsTrue, IsSome};
ghost use Rattle.snap_conditions.specs.Parts.{no_part, noted, merged_part};

use std::marker::Model;

/// The number of faults of one kind, and the first of them. There is a first exactly when the count is not 0.
#[derive(Clone, Copy, PartialEq, Eq, Debug)]
pub struct Part<F> {
    count: u64,
    first: Option<F>,
}

impl<F> Model for Part<F> {
    ghost use Rattle.std.specs.Prelude.{◌≡◌, is_some, ltb};
    ghost use Rattle.snap_conditions.specs.PartValue.{PartValue};

    ghost Value = { PartValue F };

    ghost view = { λ p. record { count = p.count; first = p.first } };

    ghost invariant = { λ p. is_some p.first ≡ ltb 0 p.count };

    ghost inverse = { λ v. record { count = v.count; first = v.first } };
}

impl<F> Part<F> {
    /// The part without a fault.
    pub fn none() -> Part<F>
        ensures { result ≡ no_part }
    {
        Part {
            count: 0,
            first: None,
        }
    }

    /// `count` faults, of which `first` is the first. The count is not 0.
    pub fn of(count: u64, first: F) -> Part<F>
        requires { 0 < count }
        ensures { result ≡ record { count = count; first = Some first } }
    {
        Part {
            count,
            first: Some(first),
        }
    }

    /// The number of faults.
    pub fn count(&self) -> u64
        ensures count { result ≡ self.now.count }
        ensures first { IsSome self.now.first ↔ (0 < self.now.count) }
    {
        self.count
    }
}

impl<F: Copy> Part<F> {
    /// The first fault; there is one exactly when the count is not 0.
    pub fn first(&self) -> Option<F>
        ensures first { result ≡ self.now.first }
        ensures counted { IsSome result ↔ (0 < self.now.count) }
    {
        self.first
    }

    // The part with one more fault after the others, if one was found.
    pub(crate) fn note(self, found: Option<F>) -> Part<F>
        requires { self.count + 1 < 2 ^ 64 }
        ensures { result ≡ noted self found }
    {
        match found {
            Some(fault) => Part {
                count: self.count + 1,
                first: Some(self.first.unwrap_or(fault)),
            },
            None => self,
        }
    }

    // The part with `count` more faults after its own. It has at least one.
    pub(crate) fn with_more(self, count: u64) -> Part<F>
        requires some { 0 < self.count }
        requires fits { self.count + count < 2 ^ 64 }
        ensures { result ≡ record { count = self.count + count; first = self.first } }
    {
        Part {
            count: self.count + count,
            first: self.first,
        }
    }

    // The faults of both, with those of `second` after its own.
    pub(crate) fn merge(self, second: Part<F>) -> Part<F>
        requires { self.count + second.count < 2 ^ 64 }
        ensures { result ≡ merged_part self second }
    {
        Part {
            count: self.count + second.count,
            first: self.first.or(second.first),
        }
    }
}

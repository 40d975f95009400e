//! Stamps that repeat. Among sorted stamps a repeat is next to the stamp that it repeats. So no set of stamps is kept while a text
//! is read.
ghost use Rattle.std.specs.Prelude.{◌≡◌, ◌==◌, ◌↔◌, List, ℕ, IfOk, IsTrue};
ghost use Rattle.std.specs.List.{IsDistinct};
ghost use Rattle.std.specs.List.Sorted.{IsNonDecreasingBy, IsPermutation, IsStrictlyIncreasing};
ghost use Rattle.snap_format.specs.declared.stamped.Stamped.{Stamped};
ghost use Rattle.snap_format.specs.Stamping.{FirstRepeat};
ghost use Rattle.snap_format.specs.Stamps.{places_of, stamps_of};

use crate::stamped::Stamped;
use std::alloc::{AllocError, Global};
use std::collections::BTreeSet;

pub(crate) fn sort_by_stamp(stamped: &mut Vec<Stamped>)
    ensures same { IsPermutation stamped.old.items stamped.new.items }
    ensures rising { IsNonDecreasingBy (λ (x : Stamped). x.at) stamped.new.items }
{
    stamped.sort_unstable_by_key(
        |event| -> u64
            ensures { result ≡ event.now.at }
        { event.at },
    );
}

// Sorts events by the numbers of their records.
fn sort_by_place(stamped: &mut Vec<Stamped>)
    ensures same { IsPermutation stamped.old.items stamped.new.items }
    ensures rising { IsNonDecreasingBy (λ (x : Stamped). x.place) stamped.new.items }
{
    stamped.sort_unstable_by_key(
        |event| -> u32
            ensures { result ≡ event.now.place }
        { event.place },
    );
}

/// Whether each stamp is greater than the one before it.
pub(crate) fn are_rising(stamped: &[Stamped]) -> bool
    ensures { IsTrue result ↔ IsStrictlyIncreasing (stamps_of stamped.now) }
{
    for i in 1..stamped.len() {
        if stamped[i].at <= stamped[i - 1].at {
            return false;
        }
    }
    true
}

/// The number of the first record whose stamp an earlier one has. The events may be in any order. The error is want of memory.
pub(crate) fn repeated_place(alloc: Global, mut stamped: Vec<Stamped>) -> Result<u32, AllocError>
    requires { ¬ IsDistinct (λ (a : ℕ) (b : ℕ). a == b) (stamps_of stamped.items) }
    ensures { IfOk result (λ place. (xs : List Stamped) → IsPermutation xs stamped.items → IsStrictlyIncreasing (places_of xs) → FirstRepeat xs place) }
{
    sort_by_place(&mut stamped);
    let mut seen = BTreeSet::new(alloc);
    for i in 0..stamped.len() {
        if !seen.insert(stamped[i].at)? {
            return Ok(stamped[i].place);
        }
    }
    unreachable!()
}

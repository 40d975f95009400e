//! The numbers that a view shows, in a row that other views are compared with.
ghost use Rattle.std.specs.Prelude.{◌≡◌, ◌↔◌, IsTrue};
ghost use Rattle.snap_core.specs.Entries.{AreEntries};
ghost use Rattle.snap_views.specs.Rows.{AreNumbersOf, IsLessSomewhere, number_among, row_number};
ghost use Rattle.snap_conditions.specs.Rows.{first_less};

use snap_core::{COMPONENT_COUNT, Entry};
use std::marker::Model;

// The number that entries show of each component, 0 if they list none.
pub(crate) fn numbers_of(entries: &[Entry]) -> [u32; COMPONENT_COUNT]
    requires { AreEntries entries.now }
    ensures { AreNumbersOf entries.now result }
{
    let mut numbers = [0; COMPONENT_COUNT];
    for entry in entries {
        numbers[entry.component as usize] = entry.number;
    }
    numbers
}

// Whether each of two views shows more of some component than the other.
#[derive(Clone, Copy)]
pub(crate) struct Excess {
    pub(crate) first: bool,
    pub(crate) second: bool,
}

// The number that a view shows of each component, kept so that comparing other views with it is fast.
#[derive(Drop)]
pub(crate) struct Row {
    numbers: [u32; COMPONENT_COUNT],
    // for each component, the sum of its number and of the numbers of the components below it
    sums: [u64; COMPONENT_COUNT],
}

impl Model for Row {
    ghost use Rattle.std.specs.Prelude.{ℕ, List};
    ghost use Rattle.snap_conditions.specs.Rows.{AreSums};

    ghost Value = { List ℕ };

    ghost view = { λ r. r.numbers };

    ghost invariant = { λ r. AreSums r.numbers r.sums };
}

impl Row {
    // The row of a view with these entries.
    pub(crate) fn of(entries: &[Entry]) -> Row
        requires { AreEntries entries.now }
        ensures { AreNumbersOf entries.now result }
    {
        let numbers = numbers_of(entries);
        let mut sums = [0; COMPONENT_COUNT];
        let mut sum = 0;
        for k in 0..COMPONENT_COUNT {
            sum += u64::from(numbers[k]);
            sums[k] = sum;
        }
        Row { numbers, sums }
    }

    // Compares the view with another by that one's entries, and stops as soon as each shows more of some component. A view shows more
    // exactly when the sum of its numbers is greater than the sum of the smaller numbers of the two.
    pub(crate) fn compare(&self, other: &[Entry]) -> Excess
        requires { AreEntries other.now }
        ensures first { IsTrue result.first ↔ IsLessSomewhere (number_among other.now) (row_number self.now) }
        ensures second { IsTrue result.second ↔ IsLessSomewhere (row_number self.now) (number_among other.now) }
    {
        let mut lesser = 0;
        let mut sum = 0;
        for entry in other {
            let k = entry.component as usize;
            lesser += u64::from(entry.number.min(self.numbers[k]));
            sum += u64::from(entry.number);
            if lesser < sum && lesser < self.sums[k] {
                return Excess {
                    first: true,
                    second: true,
                };
            }
        }
        Excess {
            first: lesser < self.sums[COMPONENT_COUNT - 1],
            second: lesser < sum,
        }
    }

    // The least component of which the view shows more than a view with these entries.
    pub(crate) fn first_excess(&self, other: &[Entry]) -> Option<u8>
        requires { AreEntries other.now }
        ensures { result ≡ first_less (number_among other.now) (row_number self.now) }
    {
        let numbers = numbers_of(other);
        for k in 0..COMPONENT_COUNT {
            if numbers[k] < self.numbers[k] {
                return Some(k as u8);
            }
        }
        None
    }
}

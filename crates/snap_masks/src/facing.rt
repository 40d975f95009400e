//! A block's numbers in one column, against those of another block.
ghost use Rattle.std.specs.Prelude.{◌≡◌, ◌<◌, ◌+◌, length, nat_lt};
ghost use Rattle.snap_masks.specs.Numbers.{number};
ghost use Rattle.snap_masks.specs.Masks.{mask_by};
ghost use Rattle.snap_masks.specs.inside.Tables.{AreRankedElse, AreUnder};

use crate::bounds::Bounds;
use crate::mask::Mask;
use crate::ranked::Ranked;

/// One column of our rows and of a block of theirs, for which bounds alone do not decide.
#[derive(Drop)]
pub struct Facing<'b, 'g> {
    /// Our numbers.
    pub ours: &'g [u32],
    pub(crate) bounds: Bounds,
    /// The table of our masks; empty if there is none.
    pub under: &'b [Mask],
    // our numbers by their ranks, if there is no table
    pub(crate) ranked: &'b Option<Ranked<'g>>,
    /// Their numbers.
    pub theirs: &'g [u32],
    // the ranks of their numbers in the column, if they are known
    pub(crate) places: &'g [u32],
    ghost tables: { AreUnder ours.now bounds under.now },
    ghost ranked_else: { AreRankedElse ours.now under.now ranked.now },
}

/// The mask of our numbers below one of theirs, and the mask of our numbers that are at most that one.
#[derive(Drop)]
pub struct MasksAround<'b> {
    pub below: &'b Mask,
    pub at_most: &'b Mask,
}

impl<'b, 'g> Facing<'b, 'g> {
    /// The masks around a number of theirs, which are neighbours in the table.
    #[inline]
    pub fn around(&self, row: usize) -> MasksAround<'b>
        requires tabled { 0 < length self.now.under.now }
        requires row { row < length self.now.theirs.now }
        ensures below { result.below.now ≡ mask_by (λ n. nat_lt n (number self.now.theirs.now row)) self.now.ours.now }
        ensures at_most { result.at_most.now ≡ mask_by (λ n. nat_lt n (number self.now.theirs.now row + 1)) self.now.ours.now }
    {
        let x = u64::from(self.theirs[row]) + 1;
        let behind = x.saturating_sub(u64::from(self.bounds.least)) as usize;
        let place = behind.min(self.under.len() - 2);
        MasksAround {
            below: &self.under[place],
            at_most: &self.under[place + 1],
        }
    }

    /// The masks around a number of theirs, if there is no table.
    pub fn around_far(&self, row: usize) -> MasksAround<'b>
        requires far { length self.now.under.now ≡ 0 }
        requires row { row < length self.now.theirs.now }
        ensures below { result.below.now ≡ mask_by (λ n. nat_lt n (number self.now.theirs.now row)) self.now.ours.now }
        ensures at_most { result.at_most.now ≡ mask_by (λ n. nat_lt n (number self.now.theirs.now row + 1)) self.now.ours.now }
    {
        let Some(ranked) = self.ranked else {
            unreachable!()
        };
        let guess = match self.places.get(row) {
            Some(place) => ranked.guess(*place),
            None => 0,
        };
        ranked.around(self.theirs[row], guess)
    }
}

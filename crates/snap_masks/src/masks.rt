//! The masks of a block's numbers in one column, by a table of what is below each number.
ghost use Rattle.std.specs.Prelude.{◌≡◌, ◌≤◌, ◌<◌, ◌+◌, ◌-◌, ℕ, length, get_or, nat_lt, IfOk};
ghost use Rattle.snap_masks.specs.Masks.{mask_by};
ghost use Rattle.snap_masks.specs.Limits.{table_limit};

use crate::bounds::Bounds;
use crate::facing::Facing;
use crate::mask::{Mask, mask_of_all};
use crate::ranked::Ranked;
use std::alloc::{AllocError, Global};
use std::marker::Model;

// `count` masks of no row.
pub(crate) fn empty_masks(alloc: Global, count: usize) -> Result<Vec<Mask>, AllocError>
    ensures count { IfOk result (λ masks. length masks.items ≡ count) }
    ensures empty { IfOk result (λ masks. (x : ℕ) → get_or masks.items x 0 ≡ 0) }
{
    let mut masks = Vec::with_capacity(alloc, count)?;
    for _mask in 0..count {
        masks.push(Mask::none())?;
    }
    Ok(masks)
}

// Fills a table of empty masks with the masks of the numbers below each x, from the least on. A row whose number is x is first
// put at x + 1, and then each mask is joined to the next.
pub(crate) fn fill(table: &mut [Mask], numbers: &[u32], least: u32)
    requires few { length numbers.now ≤ 512 }
    requires empty { (x : ℕ) → get_or table.old x 0 ≡ 0 }
    requires least { (i : ℕ) → i < length numbers.now → least ≤ get_or numbers.now i 0 }
    requires within { (i : ℕ) → i < length numbers.now → get_or numbers.now i 0 - least + 1 < length table.old }
    ensures size { length table.new ≡ length table.old }
    ensures tabled { (x : ℕ) → x < length table.old → get_or table.new x 0 ≡ mask_by (λ n. nat_lt n (least + x)) numbers.now }
{
    for i in 0..numbers.len() {
        table[(numbers[i] - least) as usize + 1].set(i);
    }
    for x in 1..table.len() {
        table[x] = table[x].or(&table[x - 1]);
    }
}

/// Up to 512 numbers, kept so that the masks of those below another number are found fast.
#[derive(Drop)]
pub struct Masks<'c> {
    numbers: &'c [u32],
    bounds: Bounds,
    // after an empty mask, the masks of the numbers below each x, from the least to two more than the greatest; nothing if the
    // spread is too large
    under: Vec<Mask>,
    // the numbers by their ranks, if there is no table
    ranked: Option<Ranked<'c>>,
    // the mask of all
    all: Mask,
}

impl<'c> Model for Masks<'c> {
    ghost use Rattle.std.specs.Prelude.{ℕ, List};
    ghost use Rattle.snap_masks.specs.inside.Tables.{AreTables};

    ghost Value = { List ℕ };

    ghost view = { λ m. m.numbers.now };

    ghost invariant = { λ m. AreTables m.numbers.now m.bounds m.under.items m.ranked m.all };
}

impl<'c> Masks<'c> {
    /// The masks of at most 512 numbers, with a table if their spread is at most `limit`. `places` may have their ranks in a column,
    /// which makes comparing without a table faster.
    pub fn of(
        alloc: Global,
        numbers: &'c [u32],
        limit: u32,
        places: &[u32],
    ) -> Result<Masks<'c>, AllocError>
        requires numbers { length numbers.now ≤ 512 }
        requires limit { limit ≤ table_limit }
        ensures { IfOk result (λ masks. masks ≡ numbers.now) }
    {
        let bounds = Bounds::of(numbers);
        let mut under = Vec::new(alloc);
        let mut ranked = None;
        let spread = bounds.greatest.saturating_sub(bounds.least);
        if spread <= limit {
            under = empty_masks(alloc, spread as usize + 4)?;
            fill(&mut under[1..], numbers, bounds.least);
        } else {
            ranked = Some(Ranked::of(alloc, numbers, places)?);
        }
        Ok(Masks {
            numbers,
            bounds,
            under,
            ranked,
            all: mask_of_all(numbers.len()),
        })
    }

    /// Bounds of all the numbers.
    pub fn bounds(&self) -> Bounds
        ensures { (i : ℕ) → i < length self.now → (result.least ≤ get_or self.now i 0) × (get_or self.now i 0 ≤ result.greatest) }
    {
        self.bounds
    }

    /// The masks against other numbers. `places` may have the ranks of these in their column.
    pub fn facing<'m>(&'m self, theirs: &'c [u32], places: &'c [u32]) -> Facing<'m, 'c>
        ensures ours { result.ours.now ≡ self.now }
        ensures theirs { result.theirs.now ≡ theirs.now }
    {
        Facing {
            ours: self.numbers,
            bounds: self.bounds,
            under: &self.under,
            ranked: &self.ranked,
            theirs,
            places,
        }
    }

    /// The mask of the numbers below x. It is fastest if x is above all of them, or not above any.
    #[inline]
    pub fn before(&self, x: u32) -> Mask
        ensures { result ≡ mask_by (λ n. nat_lt n x) self.now }
    {
        if x <= self.bounds.least {
            Mask::none()
        } else if self.bounds.greatest < x {
            self.all.copy()
        } else if self.under.is_empty() {
            let Some(ranked) = &self.ranked else {
                unreachable!()
            };
            ranked.around(x, 0).below.copy()
        } else {
            self.under[(x - self.bounds.least) as usize + 1].copy()
        }
    }
}

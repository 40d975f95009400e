//! Blocks of rows, and which rows of a block pass or clash with another row.
ghost use Rattle.std.specs.Prelude.{◌≡◌, ◌≤◌, ◌<◌, ◌+◌, ◌*◌, ◌-◌, ◌&&◌, ◌||◌, true, false, not, [], Bool, ℕ, cond, length, get_or, nat_lt, IsTrue, IfOk};
ghost use Rattle.snap_grid.specs.Columns.{any_passes};
ghost use Rattle.snap_masks.specs.Masks.{mask_below};
ghost use Rattle.snap_grid.specs.inside.Kept.{AreRows, HaveRows};
ghost use Rattle.snap_grid.specs.inside.Facing.{AreFacing, AreFar, AreTabled, IsWhole, any_faces, faces};
ghost use Rattle.snap_masks.specs.Limits.{row_limit};

use snap_masks::{Bounds, Column, Facing, Mask, Masks, WIDTH, mask_of_all};
use std::alloc::{AllocError, Global};

// The number of columns after which the code tests whether the others can still change the result.
const COLUMNS_A_TEST: usize = 8;

// Whether each of our numbers is greater than each of theirs, if `more`; else whether each is less.
fn all_pass(more: bool, ours: Bounds, theirs: Bounds) -> bool
    ensures { result ≡ cond more (nat_lt theirs.greatest ours.least) (nat_lt ours.greatest theirs.least) }
{
    if more {
        theirs.greatest < ours.least
    } else {
        ours.greatest < theirs.least
    }
}

// Whether some of our numbers may be greater than one of theirs, if `more`; else whether some may be less.
fn some_pass(more: bool, ours: Bounds, theirs: Bounds) -> bool
    ensures { result ≡ cond more (nat_lt theirs.least ours.greatest) (nat_lt ours.least theirs.greatest) }
{
    if more {
        theirs.least < ours.greatest
    } else {
        ours.least < theirs.greatest
    }
}

// Whether bounds leave something open. It is still unknown whether some of our numbers are greater, unless `more`, and whether
// some are less, unless `less`.
fn is_open(more: bool, less: bool, ours: Bounds, theirs: Bounds) -> bool
    ensures more { result ≡ false → more ≡ false → nat_lt theirs.least ours.greatest ≡ false }
    ensures less { result ≡ false → less ≡ false → nat_lt ours.least theirs.greatest ≡ false }
{
    !more && some_pass(true, ours, theirs) || !less && some_pass(false, ours, theirs)
}

// The mask of our rows that have a greater number than another row in some column. And the mask of those with a smaller one.
#[derive(Drop)]
pub(crate) struct Passing {
    pub(crate) more: Mask,
    pub(crate) less: Mask,
}

// Our rows against a block of theirs.
#[derive(Drop)]
pub(crate) struct Against<'b, 'g> {
    // the columns whose masks have a table, and those that have none
    near: Vec<Facing<'b, 'g>>,
    far: Vec<Facing<'b, 'g>>,
    all: &'b Mask,
    // whether bounds show that each of our rows has a greater number than each of theirs in some column, and whether a smaller one
    more: bool,
    less: bool,
    ours: usize,
    theirs: usize,
    ghost near_tabled: { AreTabled near.items },
    ghost far_ranked: { AreFar far.items },
    ghost near_facing: { AreFacing near.items ours theirs },
    ghost far_facing: { AreFacing far.items ours theirs },
    ghost whole: { IsWhole all.now ours theirs },
}

impl<'b, 'g> Against<'b, 'g> {
    // The mask of all our rows, or of none.
    #[inline]
    fn all_if(&self, all: bool) -> Mask
        ensures { result ≡ mask_below (λ a. all) self.now.ours }
    {
        if all { self.all.copy() } else { Mask::none() }
    }

    // All our rows pass both tests.
    #[inline]
    fn full(&self) -> Passing
        ensures { (result.more ≡ self.now.all.now) × (result.less ≡ self.now.all.now) }
    {
        Passing {
            more: self.all.copy(),
            less: self.all.copy(),
        }
    }

    // The masks of our rows that pass a row of theirs.
    #[inline(always)]
    pub(crate) fn passing(&self, row: usize) -> Passing
        requires { row < self.now.theirs }
        ensures more { result.more ≡ mask_below (λ a. faces true self.now.more self.now.near.items self.now.far.items a row) self.now.ours }
        ensures less { result.less ≡ mask_below (λ a. faces false self.now.less self.now.near.items self.now.far.items a row) self.now.ours }
    {
        let mut at_most = self.all_if(!self.more);
        let mut less = self.all_if(self.less);
        let columns = self.near.len();
        let mut done = 0;
        while done < columns {
            let end = columns.min(done + COLUMNS_A_TEST);
            for j in done..end {
                let around = self.near[j].around(row);
                at_most = at_most.and(around.at_most);
                less = less.or(around.below);
            }
            done = end;
            if done < columns && at_most.or(&less.xor(self.all)).is_none() {
                return self.full();
            }
        }
        if self.far.is_empty() {
            return Passing {
                more: self.all.xor(&at_most),
                less,
            };
        }
        self.passing_far(row, &at_most.copy(), &less.copy())
    }

    // The mask of our rows that have a greater number than a row of theirs in some column.
    #[inline(always)]
    fn greater(&self, row: usize) -> Mask
        requires { row < self.now.theirs }
        ensures { result ≡ mask_below (λ a. faces true self.now.more self.now.near.items self.now.far.items a row) self.now.ours }
    {
        if !self.far.is_empty() {
            return self.passing(row).more;
        }
        let mut at_most = self.all_if(!self.more);
        let columns = self.near.len();
        let mut done = 0;
        while done < columns {
            let end = columns.min(done + COLUMNS_A_TEST);
            for j in done..end {
                at_most = at_most.and(self.near[j].around(row).at_most);
            }
            done = end;
            if at_most.is_none() {
                return self.all.copy();
            }
        }
        self.all.xor(&at_most)
    }

    // The mask of our rows that clash with a row of theirs. If `apart`, each of ours ends before it begins; else none does.
    #[inline]
    pub(crate) fn clashing(&self, row: usize, apart: bool) -> Mask
        requires { row < self.now.theirs }
        ensures { result ≡ mask_below (λ a. faces true self.now.more self.now.near.items self.now.far.items a row && (apart || faces false self.now.less self.now.near.items self.now.far.items a row)) self.now.ours }
    {
        if apart {
            return self.greater(row);
        }
        let passing = self.passing(row);
        passing.more.and(&passing.less)
    }

    // The answer of `passing`, after it went through the columns with a table.
    #[cold]
    #[inline(never)]
    fn passing_far(&self, row: usize, near_at_most: &Mask, near_less: &Mask) -> Passing
        requires row { row < self.now.theirs }
        requires at_most { near_at_most.now ≡ mask_below (λ a. not (self.now.more || any_faces true self.now.near.items a row)) self.now.ours }
        requires less { near_less.now ≡ mask_below (λ a. self.now.less || any_faces false self.now.near.items a row) self.now.ours }
        ensures more { result.more ≡ mask_below (λ a. faces true self.now.more self.now.near.items self.now.far.items a row) self.now.ours }
        ensures less { result.less ≡ mask_below (λ a. faces false self.now.less self.now.near.items self.now.far.items a row) self.now.ours }
    {
        let mut at_most = near_at_most.copy();
        let mut less = near_less.copy();
        for j in 0..self.far.len() {
            if at_most.or(&less.xor(self.all)).is_none() {
                return self.full();
            }
            let far = self.far[j].around_far(row);
            at_most = at_most.and(far.at_most);
            less = less.or(far.below);
        }
        Passing {
            more: self.all.xor(&at_most),
            less,
        }
    }
}

// Up to 512 neighbouring rows, kept so that comparing them with others is fast.
#[derive(Drop)]
pub(crate) struct Block<'g> {
    columns: &'g [Column],
    masks: Vec<Masks<'g>>,
    from: usize,
    count: usize,
    all: Mask,
    ghost rows: { AreRows columns.now masks.items from count all },
}

impl<'g> Block<'g> {
    // The block of `count` rows from `from` on.
    pub(crate) fn of(
        alloc: Global,
        columns: &'g [Column],
        from: usize,
        count: usize,
    ) -> Result<Block<'g>, AllocError>
        requires few { count ≤ 512 }
        requires small { from ≤ row_limit }
        requires rows { HaveRows columns.now (from + count) }
        ensures columns { IfOk result (λ block. block.columns.now ≡ columns.now) }
        ensures rows { IfOk result (λ block. (block.from ≡ from) × (block.count ≡ count)) }
    {
        let mut masks = Vec::with_capacity(alloc, columns.len())?;
        for j in 0..columns.len() {
            masks.push(columns[j].masks(alloc, from, from + count)?)?;
        }
        Ok(Block {
            columns,
            masks,
            from,
            count,
            all: mask_of_all(count),
        })
    }

    // Whether bounds alone show that each of our rows passes each of theirs in some column.
    fn all_pass(&self, more: bool, block: usize) -> bool
        requires { (j : ℕ) → j < length self.now.columns.now → block * 512 < length (get_or self.now.columns.now j []) }
        ensures { IsTrue result → (a s : ℕ) → a < self.now.count → block * 512 ≤ s → s < block * 512 + 512 → HaveRows self.now.columns.now (s + 1) → any_passes more self.now.columns.now (self.now.from + a) s ≡ true }
    {
        for j in 0..self.columns.len() {
            if all_pass(more, self.masks[j].bounds(), self.columns[j].bounds(block)) {
                return true;
            }
        }
        false
    }

    // Whether bounds alone show that none of our rows passes one of theirs in any column.
    pub(crate) fn none_pass(&self, more: bool, block: usize) -> bool
        requires { (j : ℕ) → j < length self.now.columns.now → block * 512 < length (get_or self.now.columns.now j []) }
        ensures { IsTrue result → (a s : ℕ) → a < self.now.count → block * 512 ≤ s → s < block * 512 + 512 → HaveRows self.now.columns.now (s + 1) → any_passes more self.now.columns.now (self.now.from + a) s ≡ false }
    {
        for j in 0..self.columns.len() {
            if some_pass(more, self.masks[j].bounds(), self.columns[j].bounds(block)) {
                return false;
            }
        }
        true
    }

    // Our rows against the first `count` rows of a block.
    pub(crate) fn against(
        &self,
        alloc: Global,
        block: usize,
        count: usize,
    ) -> Result<Against<'_, 'g>, AllocError>
        requires some { 0 < count }
        requires few { count ≤ 512 }
        requires rows { HaveRows self.now.columns.now (block * 512 + count) }
        requires small { block < row_limit }
        ensures rows { IfOk result (λ against. (against.ours ≡ self.now.count) × (against.theirs ≡ count)) }
        ensures more { IfOk result (λ against. (a i : ℕ) → a < self.now.count → i < count → faces true against.more against.near.items against.far.items a i ≡ any_passes true self.now.columns.now (self.now.from + a) (block * 512 + i)) }
        ensures less { IfOk result (λ against. (a i : ℕ) → a < self.now.count → i < count → faces false against.less against.near.items against.far.items a i ≡ any_passes false self.now.columns.now (self.now.from + a) (block * 512 + i)) }
    {
        let more = self.all_pass(true, block);
        let less = self.all_pass(false, block);
        let mut near = Vec::new(alloc);
        let mut far = Vec::new(alloc);
        for j in 0..self.columns.len() {
            let ours = self.masks[j].bounds();
            let theirs = self.columns[j].bounds(block);
            if is_open(more, less, ours, theirs) {
                let theirs = self.columns[j].rows(block * WIDTH, block * WIDTH + count);
                let places = self.columns[j].places(block * WIDTH, block * WIDTH + count);
                let column = self.masks[j].facing(theirs, places);
                if column.under.is_empty() {
                    far.push(column)?;
                } else {
                    near.push(column)?;
                }
            }
        }
        Ok(Against {
            near,
            far,
            all: &self.all,
            more,
            less,
            ours: self.count,
            theirs: count,
        })
    }
}

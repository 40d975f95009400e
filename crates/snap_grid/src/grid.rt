//! Grids, their clashes and their drops.
ghost use Rattle.std.specs.Prelude.{◌≡◌, ◌≤◌, ◌<◌, ◌+◌, ◌*◌, ◌-◌, true, false, ℕ, Bool, [], length, get_or, min, nat_lt, take, drop, sum_by, count_by, find, IfOk, IsTrue};
ghost use Rattle.std.specs.List.{range_with_len, list_any};
ghost use Rattle.snap_grid.specs.Columns.{GridValue, any_passes, clashes, number, passes as spec_passes, rows_of, clash_count, drop_count, has_clash, HaveSameRows};
ghost use Rattle.snap_grid.specs.inside.Facing.{faces};
ghost use Rattle.snap_grid.specs.inside.Kinds.{AreKinds};
ghost use Rattle.snap_masks.specs.Masks.{mask_below};
ghost use Rattle.snap_grid.specs.inside.Clashes.{AreApart, ClashesWith};
ghost use Rattle.snap_masks.specs.Limits.{row_limit};

use crate::block::{Against, Block};
use crate::kind::Kind;
use crate::kinds::Kinds;
use crate::one_column::{clashes_of_one, drops_of_one};
use snap_masks::{Column, Mask, Masks, TABLE_LIMIT, WIDTH};
use std::alloc::{AllocError, Global};
use std::marker::Model;

/// Rows of numbers by columns, each with the places of its begin and its end.
#[derive(Drop)]
pub struct Grid {
    columns: Vec<Column>,
    begins: Column,
    ends: Vec<u32>,
    // the kinds of each block of rows
    kinds: Vec<Kinds>,
    // how often each row drops, if there is one column and the begins rise
    drops: Option<Vec<u32>>,
}

impl Model for Grid {
    ghost use Rattle.snap_grid.specs.Columns.{GridValue};
    ghost use Rattle.snap_grid.specs.inside.Kinds.{IsGrid};

    ghost Value = { GridValue };

    ghost view = { λ g. record { columns = g.columns.items; begins = g.begins; ends = g.ends.items } };

    ghost invariant = { λ g. IsGrid g.columns.items g.begins g.ends.items g.kinds.items g.drops };
}

/// The number of clashes, the number of drops, and the first row that has a clash.
#[derive(Clone, Copy)]
pub struct Clashes {
    pub count: u64,
    pub drops: u64,
    pub first: Option<usize>,
}

// The number of clashes, the number of drops, and the mask of our rows that have a clash.
#[derive(Drop)]
pub(crate) struct Clashing {
    pub(crate) count: u64,
    pub(crate) drops: u64,
    pub(crate) rows: Mask,
}

// Whether a number is greater than another, if `more`; else whether it is less.
#[inline]
fn passes(more: bool, number: u32, other: u32) -> bool
    ensures { result ≡ spec_passes more number other }
{
    if more { other < number } else { number < other }
}

// The first row of a mask whose bit 0 is the row `from`.
fn first_row(from: usize, rows: &Mask) -> Option<usize>
    requires { from ≤ row_limit }
    ensures { (n : ℕ) (p : ℕ → Bool) → rows.now ≡ mask_below (λ a. p (from + a)) n → result ≡ find p (range_with_len from n) }
{
    let first = rows.first()?;
    Some(from + first)
}

impl Grid {
    /// The grid of these columns and rows. The error is lack of memory.
    pub fn new(
        alloc: Global,
        columns: Vec<Column>,
        begins: Vec<u32>,
        ends: Vec<u32>,
    ) -> Result<Grid, AllocError>
        requires { HaveSameRows columns.items begins.items ends.items }
        ensures { IfOk result (λ grid. grid ≡ record { columns = columns.items; begins = begins.items; ends = ends.items }) }
    {
        let mut kinds: Vec<Kinds> = Vec::new(alloc);
        let mut start = 0;
        while start < ends.len() {
            let count = (ends.len() - start).min(WIDTH);
            kinds.push(Kinds::of(alloc, &columns, start, count)?)?;
            start += WIDTH;
        }
        let drops = drops_of_one(alloc, &columns, &begins, &ends)?;
        let begins = Column::alone(alloc, begins)?;
        Ok(Grid {
            columns,
            begins,
            ends,
            kinds,
            drops,
        })
    }

    // Whether bounds alone show that none of our rows clashes with one of a block, or drops to it. `ends` are the ends of our rows.
    // There are two cases. None of our rows has a greater number. Or none ends before one of the block begins, and either none has a
    // smaller number, or there is only one column.
    fn are_apart(&self, ours: &Block<'_>, ends: &Masks<'_>, block: usize, count: usize) -> bool
        requires columns { ours.now.columns.now ≡ self.now.columns }
        requires ends { ends.now ≡ take ours.now.count (drop ours.now.from self.now.ends) }
        requires within { ours.now.from + ours.now.count ≤ length self.now.begins }
        requires some { 0 < count }
        requires few { count ≤ 512 }
        requires rows { block * 512 + count ≤ length self.now.begins }
        ensures { IsTrue result → AreApart self.now ours.now.from ours.now.count (block * 512) count }
    {
        let begins = self.begins.bounds(block);
        if ours.none_pass(true, block) {
            return true;
        }
        if begins.greatest > ends.bounds().least {
            return false;
        }
        if self.columns.len() <= 1 {
            return true;
        }
        ours.none_pass(false, block)
    }

    // The kinds of a block of rows.
    fn kinds_of(&self, block: usize) -> &[Kind]
        requires { block * 512 < length self.now.begins }
        ensures { AreKinds self.now.columns (block * 512) (min 512 (length self.now.begins - block * 512)) result.now }
    {
        self.kinds[block].all()
    }

    // Our rows against the kinds of a block. If `apart`, each of ours ends before each of theirs begins; else none of ours does.
    fn kinds_clashing(
        &self,
        ours: &Block<'_>,
        against: &Against<'_, '_>,
        block: usize,
        count: usize,
        apart: bool,
    ) -> Clashing
        requires columns { ours.now.columns.now ≡ self.now.columns }
        requires some { 0 < count }
        requires whole { count ≡ min 512 (length self.now.begins - block * 512) }
        requires rows { (against.now.ours ≡ ours.now.count) × (against.now.theirs ≡ count) }
        requires more { (a i : ℕ) → a < ours.now.count → i < count → faces true against.now.more against.now.near.items against.now.far.items a i ≡ any_passes true ours.now.columns.now (ours.now.from + a) (block * 512 + i) }
        requires less { (a i : ℕ) → a < ours.now.count → i < count → faces false against.now.less against.now.near.items against.now.far.items a i ≡ any_passes false ours.now.columns.now (ours.now.from + a) (block * 512 + i) }
        requires apart { (a i : ℕ) → a < ours.now.count → i < count → nat_lt (number self.now.ends (ours.now.from + a)) (number self.now.begins (block * 512 + i)) ≡ apart }
        ensures { ClashesWith self.now ours.now.from ours.now.count (block * 512) count result }
    {
        let kinds = self.kinds_of(block);
        let mut found = 0;
        let mut rows = Mask::none();
        for k in 0..kinds.len() {
            let kind = kinds[k];
            let mask = against.clashing(usize::from(kind.row), apart);
            found += u64::from(kind.times) * u64::from(mask.count());
            rows = rows.or(&mask);
        }
        Clashing {
            count: found,
            drops: if apart { found } else { 0 },
            rows,
        }
    }

    // Our rows, with these ends, against a block of rows.
    fn clashing(
        &self,
        alloc: Global,
        ours: &Block<'_>,
        ends: &Masks<'_>,
        block: usize,
        count: usize,
    ) -> Result<Clashing, AllocError>
        requires columns { ours.now.columns.now ≡ self.now.columns }
        requires ends { ends.now ≡ take ours.now.count (drop ours.now.from self.now.ends) }
        requires within { ours.now.from + ours.now.count ≤ length self.now.begins }
        requires some { 0 < count }
        requires whole { count ≡ min 512 (length self.now.begins - block * 512) }
        ensures { IfOk result (ClashesWith self.now ours.now.from ours.now.count (block * 512) count) }
    {
        let begins = self.begins.bounds(block);
        if self.are_apart(ours, ends, block, count) {
            return Ok(Clashing {
                count: 0,
                drops: 0,
                rows: Mask::none(),
            });
        }
        let against = ours.against(alloc, block, count)?;
        if begins.greatest <= ends.bounds().least {
            return Ok(self.kinds_clashing(ours, &against, block, count, false));
        }
        if ends.bounds().greatest < begins.least {
            return Ok(self.kinds_clashing(ours, &against, block, count, true));
        }
        let mut found = 0;
        let mut drops = 0;
        let mut rows = Mask::none();
        for i in 0..count {
            let before = ends.before(self.begins.number(block * WIDTH + i));
            let passing = against.passing(i);
            let mask = passing.more.and(&passing.less.or(&before));
            let dropping = passing.more.and(&before);
            found += u64::from(mask.count());
            drops += u64::from(dropping.count());
            rows = rows.or(&mask);
        }
        Ok(Clashing {
            count: found,
            drops,
            rows,
        })
    }

    // The `count` rows from `from` on against all rows.
    fn block_clashing(
        &self,
        alloc: Global,
        from: usize,
        count: usize,
    ) -> Result<Clashing, AllocError>
        requires few { count ≤ 512 }
        requires within { from + count ≤ length self.now.begins }
        ensures count { IfOk result (λ c. c.count ≡ sum_by (clash_count self.now) (range_with_len from count)) }
        ensures drops { IfOk result (λ c. c.drops ≡ sum_by (drop_count self.now) (range_with_len from count)) }
        ensures few { IfOk result (λ c. c.count ≤ count * row_limit) }
        ensures few_drops { IfOk result (λ c. c.drops ≤ count * row_limit) }
        ensures rows { IfOk result (λ c. c.rows ≡ mask_below (λ a. has_clash self.now (from + a)) count) }
    {
        let all = self.ends.len();
        let ours = Block::of(alloc, &self.columns, from, count)?;
        let ends = Masks::of(alloc, &self.ends[from..from + count], TABLE_LIMIT, &[])?;
        let mut found = 0;
        let mut drops = 0;
        let mut rows = Mask::none();
        let mut block = 0;
        let mut done = 0;
        while done < all {
            let theirs = (all - done).min(WIDTH);
            let more = self.clashing(alloc, &ours, &ends, block, theirs)?;
            found += more.count;
            drops += more.drops;
            rows = rows.or(&more.rows);
            block += 1;
            done += theirs;
        }
        Ok(Clashing {
            count: found,
            drops,
            rows,
        })
    }

    // Whether a row has in some column a greater number than another, if `more`; else a smaller number.
    fn passes(&self, more: bool, row: usize, other: usize) -> bool
        requires row { row < length self.now.begins }
        requires other { other < length self.now.begins }
        ensures { result ≡ any_passes more self.now.columns row other }
    {
        for j in 0..self.columns.len() {
            let ours = self.columns[j].number(row);
            let theirs = self.columns[j].number(other);
            if passes(more, ours, theirs) {
                return true;
            }
        }
        false
    }

    // Whether a row clashes with another.
    fn is_clash(&self, row: usize, other: usize) -> bool
        requires row { row < length self.now.begins }
        requires other { other < length self.now.begins }
        ensures { result ≡ clashes self.now row other }
    {
        self.passes(true, row, other)
            && (self.ends[row] < self.begins.number(other) || self.passes(false, row, other))
    }

    // The first of the `count` rows from `first` on that a row clashes with.
    fn first_clash_among(&self, row: usize, first: usize, count: usize) -> Option<usize>
        requires row { row < length self.now.begins }
        requires within { first + count ≤ length self.now.begins }
        ensures { result ≡ find (clashes self.now row) (range_with_len first count) }
    {
        // the length shows that there are at most `ROW_LIMIT` rows
        let _rows = self.ends.len();
        for other in first..first + count {
            if self.is_clash(row, other) {
                return Some(other);
            }
        }
        None
    }

    /// The first row that a row clashes with; none if there is none. It skips blocks whose bounds show that there is none in them. The
    /// error is lack of memory.
    pub fn first_clash(&self, alloc: Global, row: usize) -> Result<Option<usize>, AllocError>
        requires { row < length self.now.begins }
        ensures { IfOk result (λ first. first ≡ find (clashes self.now row) (rows_of self.now)) }
    {
        let ours = Block::of(alloc, &self.columns, row, 1)?;
        let ends = Masks::of(alloc, &self.ends[row..row + 1], TABLE_LIMIT, &[])?;
        let rows = self.ends.len();
        let mut block: usize = 0;
        while block * WIDTH < rows {
            let count = (rows - block * WIDTH).min(WIDTH);
            if !self.are_apart(&ours, &ends, block, count) {
                let first = self.first_clash_among(row, block * WIDTH, count);
                if first.is_some() {
                    return Ok(first);
                }
            }
            block += 1;
        }
        Ok(None)
    }

    /// The clashes and the drops of the rows from `from` to before `to` with all rows. It counts both, and gives the first row with a
    /// clash. A row drops to one that has a smaller number in some column and begins after the row's end. It clashes with one to
    /// which it drops. It also clashes with one that has a smaller number in some column and a greater number in another. The error
    /// is lack of memory.
    pub fn clashes(&self, alloc: Global, from: usize, to: usize) -> Result<Clashes, AllocError>
        requires order { from ≤ to }
        requires within { to ≤ length self.now.begins }
        ensures count { IfOk result (λ c. c.count ≡ sum_by (clash_count self.now) (range_with_len from (to - from))) }
        ensures drops { IfOk result (λ c. c.drops ≡ sum_by (drop_count self.now) (range_with_len from (to - from))) }
        ensures first { IfOk result (λ c. c.first ≡ find (has_clash self.now) (range_with_len from (to - from))) }
    {
        // the length shows that there are at most `ROW_LIMIT` rows
        let _rows = self.ends.len();
        if let Some(drops) = &self.drops {
            return Ok(clashes_of_one(&drops[from..to], from));
        }
        let mut count = 0;
        let mut drops = 0;
        let mut first = None;
        let mut start = from;
        while start < to {
            let rows = (to - start).min(WIDTH);
            let more = self.block_clashing(alloc, start, rows)?;
            count += more.count;
            drops += more.drops;
            first = first.or(first_row(start, &more.rows));
            start += rows;
        }
        Ok(Clashes {
            count,
            drops,
            first,
        })
    }
}

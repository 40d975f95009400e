//! Columns of numbers, and their ranks.
ghost use Rattle.std.specs.Prelude.{◌≡◌, ◌≤◌, ◌<◌, ◌+◌, ◌*◌, ◌-◌, ℕ, length, get_or, take, drop, min, IfOk};
ghost use Rattle.snap_masks.specs.declared.bounds.Bounds.{Bounds};
ghost use Rattle.snap_masks.specs.Numbers.{AreOrderedAs, IsOrderedAs};
ghost use Rattle.snap_masks.specs.Numbers.{IsBounded};
ghost use Rattle.snap_masks.specs.Limits.{row_limit, table_limit};

use crate::bounds::Bounds;
use crate::mask::WIDTH;
use crate::masks::Masks;
use crate::ranked::{distinct_of, ranks_of};
use std::alloc::{AllocError, Global};
use std::marker::Model;

/// The greatest number of rows of a grid.
pub const ROW_LIMIT: usize = 1_048_576;

/// The greatest spread of the numbers of a table: it has a mask of 64 bytes for each number between them.
pub const TABLE_LIMIT: u32 = 65_536;

/// The numbers of all rows in one column.
#[derive(Drop)]
pub struct Column {
    numbers: Vec<u32>,
    // the bounds of each block of rows
    bounds: Vec<Bounds>,
    // the greatest spread of numbers whose masks have a table
    limit: u32,
    // the ranks of the numbers, if their spread is larger than that
    ranks: Vec<u32>,
}

// The bounds of each block of some numbers.
fn bounds_of(alloc: Global, numbers: &[u32]) -> Result<Vec<Bounds>, AllocError>
    requires few { length numbers.now ≤ row_limit }
    ensures blocks { IfOk result (λ bounds. (block : ℕ) → block * 512 < length numbers.now → block < length bounds.items) }
    ensures bounded { IfOk result (λ bounds. (block : ℕ) (b : Bounds) → block * 512 < length numbers.now → IsBounded numbers.now block (get_or bounds.items block b)) }
{
    let mut bounds = Vec::new(alloc);
    let mut start = 0;
    while start < numbers.len() {
        let end = numbers.len().min(start + WIDTH);
        bounds.push(Bounds::of(&numbers[start..end]))?;
        start += WIDTH;
    }
    Ok(bounds)
}

// The ranks of some numbers, if their spread is larger than a limit; else none.
fn ranks_beyond(alloc: Global, numbers: &[u32], limit: u32) -> Result<Vec<u32>, AllocError>
    requires { length numbers.now ≤ row_limit }
    ensures { IfOk result (λ ranks. 0 < length ranks.items → IsOrderedAs numbers.now ranks.items) }
{
    let bounds = Bounds::of(numbers);
    if bounds.greatest.saturating_sub(bounds.least) <= limit {
        return Ok(Vec::new(alloc));
    }
    let distinct = distinct_of(alloc, numbers)?;
    let ranks = ranks_of(alloc, numbers, &distinct)?;
    Ok(ranks)
}

// At most this many different numbers with a large spread are replaced by their ranks. The masks of the ranks then have a table.
const FEW_RANKS: u32 = 1024;

/// Columns in which rows compare as they do in the given ones. Numbers with a large spread, but few different ones, are replaced
/// by their ranks, which makes comparing faster. The error is lack of memory.
pub fn by_ranks(alloc: Global, mut columns: Vec<Column>) -> Result<Vec<Column>, AllocError>
    ensures { IfOk result (λ keys. AreOrderedAs columns.items keys.items) }
{
    let mut keys = Vec::with_capacity(alloc, columns.len())?;
    while let Some(column) = columns.pop() {
        keys.push(column.by_rank(alloc)?)?;
    }
    Ok(keys)
}

impl Model for Column {
    ghost use Rattle.std.specs.Prelude.{ℕ, List};
    ghost use Rattle.snap_masks.specs.inside.Kept.{IsColumn};

    ghost Value = { List ℕ };

    ghost view = { λ c. c.numbers.items };

    ghost invariant = { λ c. IsColumn c.numbers.items c.bounds.items c.limit c.ranks.items };
}

impl Column {
    /// The column of these numbers, at most `ROW_LIMIT`. A block of 512 rows gets a table if its numbers spread at most as far as
    /// `limit`, which is at most `TABLE_LIMIT`. Comparing is fast then. The table takes 64 bytes for each number of the spread.
    pub fn new(alloc: Global, numbers: Vec<u32>, limit: u32) -> Result<Column, AllocError>
        requires few { length numbers.items ≤ row_limit }
        requires limit { limit ≤ table_limit }
        ensures { IfOk result (λ column. column ≡ numbers.items) }
    {
        let bounds = bounds_of(alloc, &numbers)?;
        let ranks = ranks_beyond(alloc, &numbers, limit)?;
        Ok(Column {
            numbers,
            bounds,
            limit,
            ranks,
        })
    }

    /// The column of these numbers without ranks, for a grid of this column alone.
    pub fn alone(alloc: Global, numbers: Vec<u32>) -> Result<Column, AllocError>
        requires few { length numbers.items ≤ row_limit }
        ensures { IfOk result (λ column. column ≡ numbers.items) }
    {
        let bounds = bounds_of(alloc, &numbers)?;
        Ok(Column {
            numbers,
            bounds,
            limit: 0,
            ranks: Vec::new(alloc),
        })
    }

    // The column of the ranks, if these are known and few of them are different; else this column.
    fn by_rank(self, alloc: Global) -> Result<Column, AllocError>
        ensures { IfOk result (IsOrderedAs self) }
    {
        if self.ranks.is_empty() || Bounds::of(&self.ranks).greatest >= FEW_RANKS {
            return Ok(self);
        }
        let Column { ranks, .. } = self;
        Column::new(alloc, ranks, FEW_RANKS)
    }

    /// Bounds of the numbers of a block of 512 rows. The block must have a row.
    pub fn bounds(&self, block: usize) -> Bounds
        requires { block * 512 < length self.now }
        ensures { (i : ℕ) → block * 512 ≤ i → i < block * 512 + 512 → i < length self.now → (result.least ≤ get_or self.now i 0) × (get_or self.now i 0 ≤ result.greatest) }
    {
        self.bounds[block]
    }

    /// The number of a row, counted from 0.
    #[inline]
    pub fn number(&self, place: usize) -> u32
        requires { place < length self.now }
        ensures { result ≡ get_or self.now place 0 }
    {
        self.numbers[place]
    }

    /// The numbers of all rows.
    pub fn numbers(&self) -> &[u32]
        ensures { result.now ≡ self.now }
    {
        &self.numbers
    }

    /// The numbers of the rows from `from` to before `to`.
    pub fn rows(&self, from: usize, to: usize) -> &[u32]
        requires order { from ≤ to }
        requires within { to ≤ length self.now }
        ensures { result.now ≡ take (to - from) (drop from self.now) }
    {
        &self.numbers[from..to]
    }

    /// The ranks of the numbers of the rows from `from` to before `to`; none if the column has no ranks.
    pub fn places(&self, from: usize, to: usize) -> &[u32] {
        if from <= to && to <= self.ranks.len() {
            &self.ranks[from..to]
        } else {
            &[]
        }
    }

    /// The masks of the rows from `from` to before `to`, at most 512.
    pub fn masks<'c>(
        &'c self,
        alloc: Global,
        from: usize,
        to: usize,
    ) -> Result<Masks<'c>, AllocError>
        requires order { from ≤ to }
        requires few { to ≤ from + 512 }
        requires within { to ≤ length self.now }
        ensures { IfOk result (λ masks. masks ≡ take (to - from) (drop from self.now)) }
    {
        Masks::of(
            alloc,
            self.rows(from, to),
            self.limit,
            self.places(from, to),
        )
    }
}

//! Columns that rise together, added up to one.
ghost use Rattle.std.specs.Prelude.{◌≡◌, ◌<◌, ◌≤◌, [], length, get_or, IfOk, IfSome, IsTrue, OnOk};
ghost use Rattle.snap_grid.specs.Columns.{TellAlike};
ghost use Rattle.snap_grid.specs.inside.Together.{AreBetween, AreSums, IsAdded, IsPartner, RiseTogether};
ghost use Rattle.snap_masks.specs.Limits.{row_limit};

use crate::sweep::rises;
use snap_masks::{Bounds, Column, ROW_LIMIT, TABLE_LIMIT};
use std::alloc::{AllocError, Global};

// About how many rows are compared before all are.
const SAMPLES: usize = 128;

// The number of columns to which a column may be added.
const TRIED: usize = 4;

// What comparisons that show nothing may take in all: one for a few rows, and `ALL_ROWS` for all of them. Two columns that are
// added up give as much back.
const CREDIT: u32 = 16;

const ALL_ROWS: u32 = 4;

// Whether a few rows show that two columns do not rise together.
fn cross_in_samples(ours: &[u32], theirs: &[u32]) -> bool {
    let count = ours.len().min(theirs.len());
    let step = count / SAMPLES + 1;
    let mut row = step;
    while row < count {
        let before = row - step;
        if ours[before] < ours[row] && theirs[row] < theirs[before] {
            return true;
        }
        if ours[row] < ours[before] && theirs[before] < theirs[row] {
            return true;
        }
        row += step;
    }
    false
}

// The greatest of their numbers in the rows in which ours is smaller than a number, for each number.
fn edges_of(alloc: Global, ours: &[u32], theirs: &[u32]) -> Result<Vec<u32>, AllocError> {
    let greatest = Bounds::of(ours).greatest.min(TABLE_LIMIT);
    let mut edges = vec![in alloc; 0u32; greatest as usize + 2]?;
    for (number, other) in ours.iter().zip(theirs) {
        if let Some(edge) = edges.get_mut(*number as usize + 1) {
            *edge = (*edge).max(*other);
        }
    }
    let mut most = 0;
    for edge in edges.iter_mut() {
        most = most.max(*edge);
        *edge = most;
    }
    Ok(edges)
}

// Whether each of their numbers is between the edges before and behind the number of ours.
fn are_between(edges: &[u32], ours: &[u32], theirs: &[u32]) -> bool
    requires { length theirs.now ≡ length ours.now }
    ensures { IsTrue result → AreBetween edges.now ours.now theirs.now }
{
    for row in 0..ours.len() {
        let place = ours[row] as usize;
        if place + 1 >= edges.len() {
            return false;
        }
        if theirs[row] < edges[place] || edges[place + 1] < theirs[row] {
            return false;
        }
    }
    true
}

// Whether of any two rows none has a smaller number than the other in one column, and a greater one in the other column.
fn rise_together(alloc: Global, ours: &[u32], theirs: &[u32]) -> Result<bool, AllocError>
    requires { length theirs.now ≡ length ours.now }
    ensures { IfOk result (λ rise. IsTrue rise → RiseTogether ours.now theirs.now) }
{
    let edges = edges_of(alloc, ours, theirs)?;
    Ok(rises(&edges) && are_between(&edges, ours, theirs))
}

// The sums of two columns, unless one of them is too great for a table.
fn sums_of(alloc: Global, ours: &[u32], theirs: &[u32]) -> Result<Option<Vec<u32>>, AllocError>
    requires { length theirs.now ≡ length ours.now }
    ensures { IfOk result (λ found. IfSome found (λ sums. AreSums ours.now theirs.now sums.items)) }
{
    let mut sums = Vec::with_capacity(alloc, ours.len())?;
    for row in 0..ours.len() {
        let sum = u64::from(ours[row]) + u64::from(theirs[row]);
        if sum > u64::from(TABLE_LIMIT) {
            return Ok(None);
        }
        sums.push(sum as u32)?;
    }
    Ok(Some(sums))
}

// Whether the numbers of a column are far apart, so that they have no table.
fn is_far(column: &Column) -> bool {
    !column.places(0, column.numbers().len()).is_empty()
}

// The place of a column among the first of some, and its sums with another column, if these two rise together.
#[derive(Drop)]
struct Partner {
    place: usize,
    sums: Vec<u32>,
}

// The first of a few columns that rises together with a column. No more are compared once `credit` is used up.
fn partner_of(
    alloc: Global,
    column: &Column,
    columns: &[Column],
    credit: &mut u32,
) -> Result<Option<Partner>, AllocError>
    ensures { IfOk result (λ found. IfSome found (IsPartner column.now columns.now)) }
{
    let numbers = column.numbers();
    if is_far(column) || numbers.len() > ROW_LIMIT {
        return Ok(None);
    }
    for place in 0..columns.len().min(TRIED) {
        let others = columns[place].numbers();
        if *credit > 0 && !is_far(&columns[place]) && others.len() == numbers.len() {
            if cross_in_samples(numbers, others) {
                *credit -= 1;
            } else if rise_together(alloc, numbers, others)?
                && let Some(sums) = sums_of(alloc, numbers, others)?
            {
                return Ok(Some(Partner { place, sums }));
            } else {
                *credit = credit.saturating_sub(ALL_ROWS);
            }
        }
    }
    Ok(None)
}

// Adds a column to some: to the numbers of one with which it rises together, or else as one more.
fn add(
    alloc: Global,
    columns: &mut Vec<Column>,
    column: Column,
    credit: &mut u32,
) -> Result<(), AllocError>
    ensures { OnOk result (IsAdded column columns.old.items columns.new.items) }
{
    match partner_of(alloc, &column, columns, credit)? {
        Some(Partner { place, sums }) => {
            columns[place] = Column::new(alloc, sums, TABLE_LIMIT)?;
            *credit = credit.saturating_add(ALL_ROWS);
            Ok(())
        }
        None => Ok(columns.push(column)?),
    }
}

/// Columns that tell alike of any two rows whether one has a greater number in some column. Columns that rise together are added up to
/// one: if of any two rows none has a smaller number in one of them and a greater number in another. The error is lack of memory.
pub fn joined(alloc: Global, mut columns: Vec<Column>) -> Result<Vec<Column>, AllocError>
    ensures { IfOk result (λ keys. TellAlike columns.items keys.items) }
{
    let mut keys: Vec<Column> = Vec::with_capacity(alloc, columns.len())?;
    let mut credit = CREDIT;
    while let Some(column) = columns.pop() {
        add(alloc, &mut keys, column, &mut credit)?;
    }
    Ok(keys)
}

//! Clashes of small grids, counted by hand.
ghost use Rattle.std.specs.Prelude.{◌≡◌, ◌≤◌, ◌<◌, ℕ, [], get_or, length, IfOk};

use snap_grid::{Column, Grid};
use std::alloc::{AllocError, Global};
use std::process::Abort;
use std::test::Fail;

mod first_clashes;

/// A number of rows of one number, one after the other.
type Run = (usize, u32);

/// The number of clashes, the number of drops, and the first row that clashes.
type Known = (u64, u64, Option<usize>);

fn numbers_of(alloc: Global, runs: &[Run]) -> Result<Vec<u32>, AllocError> {
    let mut numbers = Vec::new(alloc);
    for &(times, number) in runs {
        numbers.extend_from_slice(&vec![in alloc; number; times]?)?;
    }
    Ok(numbers)
}

// The places of the begins and ends of `rows` rows: each ends before the next begins, or none does.
fn places_of(alloc: Global, rows: u32, apart: bool) -> Result<(Vec<u32>, Vec<u32>), AllocError> {
    let mut begins = Vec::new(alloc);
    let mut ends = Vec::new(alloc);
    for row in 0..rows {
        begins.push(row)?;
        ends.push(if apart { row } else { u32::MAX })?;
    }
    Ok((begins, ends))
}

// The grid of these columns, each of `rows` rows. Each row ends before the next begins, or none does.
fn grid_of_columns(
    rt: &impl Abort,
    alloc: Global,
    columns: Vec<Column>,
    rows: usize,
    apart: bool,
) -> Result<(usize, Grid), AllocError>
    requires few { rows ≤ 65536 }
    requires same { (j : ℕ) → j < length columns.items → length (get_or columns.items j []) ≡ rows }
    ensures { IfOk result (λ r. length r.1.begins ≡ r.0) }
{
    let (begins, ends) = places_of(alloc, rows as u32, apart)?;
    assert!(rt; begins.len() == rows && ends.len() == rows);
    Ok((rows, Grid::new(alloc, columns, begins, ends)?))
}

// The grid of one column, and its number of rows.
fn grid_of_one(
    rt: &impl Abort,
    alloc: Global,
    runs: &[Run],
    apart: bool,
) -> Result<(usize, Grid), AllocError>
    ensures { IfOk result (λ r. length r.1.begins ≡ r.0) }
{
    let numbers = numbers_of(alloc, runs)?;
    let rows = numbers.len();
    assert!(rt; rows <= 65536);
    let columns = vec![in alloc; Column::new(alloc, numbers, 9)?]?;
    grid_of_columns(rt, alloc, columns, rows, apart)
}

// The grid of two columns, with tables for numbers up to a limit, and its number of rows.
fn grid_of(
    rt: &impl Abort,
    alloc: Global,
    first: &[Run],
    second: &[Run],
    limit: u32,
    apart: bool,
) -> Result<(usize, Grid), AllocError>
    ensures { IfOk result (λ r. length r.1.begins ≡ r.0) }
{
    let first = numbers_of(alloc, first)?;
    let second = numbers_of(alloc, second)?;
    let rows = first.len();
    assert!(rt; limit < 65536 && rows <= 65536 && second.len() == rows);
    let columns = vec![in alloc;
        Column::new(alloc, first, limit)?,
        Column::new(alloc, second, limit)?,
    ]?;
    grid_of_columns(rt, alloc, columns, rows, apart)
}

// The rows from one to before another have these clashes.
fn expect_range(
    rt: &impl Abort,
    alloc: Global,
    grid: &Grid,
    from: usize,
    to: usize,
    known: Known,
) -> Result<(), Fail>
    requires in_order { from ≤ to }
    requires within { to ≤ length grid.now.begins }
{
    let found = grid.clashes(alloc, from, to)?;
    let found = (found.count, found.drops, found.first);
    assert!(rt; found == known, "{from}..{to}");
    Ok(())
}

// Each of these ranges of a grid's rows has such clashes, each of which is a drop.
fn expect_drops(
    rt: &impl Abort,
    alloc: Global,
    grid: &Grid,
    rows: usize,
    known: &[(usize, usize, u64, Option<usize>)],
) -> Result<(), Fail>
    requires { rows ≡ length grid.now.begins }
{
    for &(from, to, count, row) in known {
        assert!(rt; from <= to && to <= rows);
        expect_range(rt, alloc, grid, from, to, (count, count, row))?;
    }
    Ok(())
}

// For a grid whose rows all have the number 0 in the second column, and each end before the next begins. Row a clashes with row b,
// and drops to it, if and only if it comes before b and has the greater first number.
fn expect_falls(
    rt: &impl Abort,
    alloc: Global,
    first: &[Run],
    limit: u32,
    known: &[(usize, usize, u64, Option<usize>)],
) -> Result<(), Fail> {
    let second = (numbers_of(alloc, first)?.len(), 0);
    let (rows, grid) = grid_of(rt, alloc, first, &[second], limit, true)?;
    expect_drops(rt, alloc, &grid, rows, known)
}

// All rows of the grid of two columns have these clashes.
fn expect_whole(
    rt: &impl Abort,
    alloc: Global,
    first: &[Run],
    second: &[Run],
    apart: bool,
    known: Known,
) -> Result<(), Fail> {
    let (rows, grid) = grid_of(rt, alloc, first, second, 2, apart)?;
    expect_range(rt, alloc, &grid, 0, rows, known)
}

#[test]
fn rows_with_the_same_number_clash_with_none(rt: HostRuntime) -> Result<(), Fail> {
    expect_falls(&rt, rt.alloc(), &[(130, 5)], 5, &[(0, 130, 0, None)])
}

#[test]
fn the_last_row_of_a_lane_falls_to_all_rows_of_the_next_but_its_equal(
    rt: HostRuntime,
) -> Result<(), Fail> {
    let rows = [(63, 5), (1, 6), (63, 5), (1, 6)];
    let known = [
        (0, 128, 63, Some(63)),
        (0, 63, 0, None),
        (63, 64, 63, Some(63)),
        (64, 128, 0, None),
    ];
    expect_falls(&rt, rt.alloc(), &rows, 6, &known)
}

#[test]
fn the_last_row_of_a_block_falls_to_all_rows_of_the_next_but_its_equal(
    rt: HostRuntime,
) -> Result<(), Fail> {
    let rows = [(511, 5), (1, 6), (511, 5), (1, 6)];
    let known = [
        (0, 1024, 511, Some(511)),
        (0, 511, 0, None),
        (511, 512, 511, Some(511)),
        (512, 1024, 0, None),
    ];
    expect_falls(&rt, rt.alloc(), &rows, 6, &known)
}

#[test]
fn blocks_whose_bounds_touch_are_looked_at_row_by_row(rt: HostRuntime) -> Result<(), Fail> {
    let rows = [(511, 6), (1, 5), (512, 5)];
    let known = [
        (0, 1024, 262143, Some(0)),
        (510, 512, 513, Some(510)),
        (511, 1024, 0, None),
    ];
    expect_falls(&rt, rt.alloc(), &rows, 6, &known)
}

#[test]
fn numbers_above_the_limit_are_compared_too(rt: HostRuntime) -> Result<(), Fail> {
    let rows = [(1, u32::MAX), (1, 0), (1, u32::MAX), (1, 9), (1, 3)];
    let known = [
        (0, 5, 6, Some(0)),
        (1, 3, 2, Some(2)),
        (3, 4, 1, Some(3)),
        (4, 5, 0, None),
    ];
    expect_falls(&rt, rt.alloc(), &rows, 3, &known)
}

// The first three rows fall to the last (1 > 0), and the far one to the four after it. The next three fall to the last (2 > 0).
// That is 3 + 4 + 3.
#[test]
fn one_far_number_is_greater_than_all_others_of_its_block(rt: HostRuntime) -> Result<(), Fail> {
    let rows = [(3, 1), (1, u32::MAX), (3, 2), (1, 0)];
    let known = [
        (0, 8, 10, Some(0)),
        (3, 4, 4, Some(3)),
        (4, 7, 3, Some(4)),
        (7, 8, 0, None),
    ];
    expect_falls(&rt, rt.alloc(), &rows, 2, &known)
}

// The first row falls to the four others, and the third to the two after it. The second and the fourth fall to the last alone. That
// is 4 + 2 + 1 + 1.
#[test]
fn numbers_that_are_all_far_apart_are_compared_by_their_ranks(rt: HostRuntime) -> Result<(), Fail> {
    let rows = [
        (1, u32::MAX),
        (1, 1_000_000_000),
        (1, u32::MAX - 1),
        (1, 3_000_000_000),
        (1, 999_999_999),
    ];
    let known = [
        (0, 5, 8, Some(0)),
        (1, 2, 1, Some(1)),
        (2, 4, 3, Some(2)),
        (4, 5, 0, None),
    ];
    expect_falls(&rt, rt.alloc(), &rows, 0, &known)
}

// Each of the first two rows falls to the four rows with a 9. Each of the other two with the greatest number falls to the last row.
// That is 2 * 4 + 2 * 1. No row falls to one of the same number.
#[test]
fn equal_far_numbers_have_the_same_rank(rt: HostRuntime) -> Result<(), Fail> {
    let rows = [(2, u32::MAX), (3, 9), (2, u32::MAX), (1, 9)];
    let known = [
        (0, 8, 10, Some(0)),
        (2, 5, 0, None),
        (4, 6, 1, Some(5)),
        (7, 8, 0, None),
    ];
    expect_falls(&rt, rt.alloc(), &rows, 1, &known)
}

// The numbers 7 to 10 are near the least, and the last is not. Each of the rows with 10, 9 and 8 falls to those of a lesser number
// after it: 3 + 2 + 1. The first falls to the four others.
#[test]
fn numbers_near_the_least_and_far_from_it_stand_in_one_block(rt: HostRuntime) -> Result<(), Fail> {
    let rows = [(1, u32::MAX), (1, 10), (1, 9), (1, 8), (1, 7)];
    let known = [(0, 5, 10, Some(0)), (1, 4, 6, Some(1)), (3, 5, 1, Some(3))];
    expect_falls(&rt, rt.alloc(), &rows, 4, &known)
}

// The one row of the second block has a number between the two of the first. The first row falls to it and to the 511 rows of 0.
#[test]
fn a_block_of_far_numbers_faces_one_of_a_single_row(rt: HostRuntime) -> Result<(), Fail> {
    let rows = [(1, u32::MAX), (511, 0), (1, 1_000_000)];
    let known = [
        (0, 513, 512, Some(0)),
        (1, 513, 0, None),
        (512, 513, 0, None),
    ];
    expect_falls(&rt, rt.alloc(), &rows, 0, &known)
}

// The second block begins with a number that is greater than all of the first, to which none falls. It falls to the last row, and
// so does the last row of the first block.
#[test]
fn a_number_behind_all_ranks_of_a_block_is_less_than_none_of_them(
    rt: HostRuntime,
) -> Result<(), Fail> {
    let rows = [(511, 0), (1, 5_000_000), (1, u32::MAX), (1, 4)];
    let known = [
        (0, 514, 2, Some(511)),
        (0, 511, 0, None),
        (511, 512, 1, Some(511)),
        (512, 514, 1, Some(512)),
    ];
    expect_falls(&rt, rt.alloc(), &rows, 3, &known)
}

// Each of the first two rows has the greater number in one column. The third is less than none of them in any column.
#[test]
fn rows_that_are_crossed_in_far_numbers_clash_both_ways(rt: HostRuntime) -> Result<(), Fail> {
    let first = [(1, u32::MAX - 1), (1, 0), (1, u32::MAX)];
    let second = [(1, 0), (1, u32::MAX - 1), (1, u32::MAX)];
    expect_whole(&rt, rt.alloc(), &first, &second, false, (2, 0, Some(0)))?;
    expect_whole(&rt, rt.alloc(), &first, &second, true, (2, 1, Some(0)))
}

#[test]
fn crossed_rows_clash_both_ways_and_drop_only_to_later_ones(rt: HostRuntime) -> Result<(), Fail> {
    let first = [(1, 1), (1, 0), (1, 2)];
    let second = [(1, 0), (1, 1), (1, 2)];
    expect_whole(&rt, rt.alloc(), &first, &second, false, (2, 0, Some(0)))?;
    expect_whole(&rt, rt.alloc(), &first, &second, true, (2, 1, Some(0)))
}

#[test]
fn equal_rows_are_counted_each_where_they_overlap_or_follow_one_another(
    rt: HostRuntime,
) -> Result<(), Fail> {
    let first = [(1, 2), (3, 1), (2, 0)];
    let second = [(1, 2), (3, 0), (2, 1)];
    expect_whole(&rt, rt.alloc(), &first, &second, false, (12, 0, Some(1)))?;
    expect_whole(&rt, rt.alloc(), &first, &second, true, (17, 11, Some(0)))
}

// All rows of the grid of one column have these clashes.
fn expect_one_column(
    rt: &impl Abort,
    alloc: Global,
    runs: &[Run],
    apart: bool,
    known: Known,
) -> Result<(), Fail> {
    let (rows, grid) = grid_of_one(rt, alloc, runs, apart)?;
    expect_range(rt, alloc, &grid, 0, rows, known)
}

// The rows of the first block and of the third have both greater and lesser numbers than those of the second.
#[test]
fn rows_of_one_column_clash_only_with_those_to_which_they_drop(
    rt: HostRuntime,
) -> Result<(), Fail> {
    let runs = [(256, 2), (256, 0), (512, 1), (256, 2), (256, 0)];
    expect_one_column(&rt, rt.alloc(), &runs, false, (0, 0, None))?;
    let falls = 256 * (256 + 512 + 256) + 512 * 256 + 256 * 256;
    expect_one_column(&rt, rt.alloc(), &runs, true, (falls, falls, Some(0)))
}

#[test]
fn equal_rows_of_a_later_block_are_counted_each(rt: HostRuntime) -> Result<(), Fail> {
    let rows = [(512, 7), (500, 3), (12, 9)];
    let known = [
        (0, 1024, 256000, Some(0)),
        (511, 1024, 500, Some(511)),
        (512, 1024, 0, None),
    ];
    expect_falls(&rt, rt.alloc(), &rows, 9, &known)
}

//! The first row that a row clashes with.
use super::{Run, grid_of};
use std::alloc::Global;
use std::process::Abort;
use std::test::Fail;

// In a grid whose rows may each end before the next begins, the first row with which each of some rows clashes.
fn expect_first(
    rt: &impl Abort,
    alloc: Global,
    first: &[Run],
    second: &[Run],
    apart: bool,
    known: &[(usize, Option<usize>)],
) -> Result<(), Fail> {
    let (rows, grid) = grid_of(rt, alloc, first, second, 5, apart)?;
    for &(row, other) in known {
        assert!(rt; row < rows);
        assert_eq!(rt; grid.first_clash(alloc, row)?, other, "{row}");
    }
    Ok(())
}

#[test]
fn the_first_row_that_one_falls_to_may_stand_blocks_behind_it(rt: HostRuntime) -> Result<(), Fail> {
    let first = [(700, 5), (1, 4), (400, 5), (1, 3)];
    let second = [(1102, 0)];
    let known = [
        (0, Some(700)),
        (699, Some(700)),
        (700, Some(1101)),
        (701, Some(1101)),
        (1101, None),
    ];
    expect_first(&rt, rt.alloc(), &first, &second, true, &known)
}

#[test]
fn the_first_row_that_one_of_a_far_number_falls_to_is_found_by_blocks(
    rt: HostRuntime,
) -> Result<(), Fail> {
    let first = [(700, u32::MAX), (1, 1_000_000), (400, u32::MAX), (1, 3)];
    let second = [(1102, 0)];
    let known = [
        (0, Some(700)),
        (699, Some(700)),
        (700, Some(1101)),
        (1100, Some(1101)),
        (1101, None),
    ];
    expect_first(&rt, rt.alloc(), &first, &second, true, &known)
}

#[test]
fn of_rows_that_overlap_each_clashes_first_with_one_that_it_is_crossed_with(
    rt: HostRuntime,
) -> Result<(), Fail> {
    let first = [(1, 1), (1, 0), (1, 2)];
    let second = [(1, 0), (1, 1), (1, 2)];
    let known = [(0, Some(1)), (1, Some(0)), (2, None)];
    expect_first(&rt, rt.alloc(), &first, &second, false, &known)
}

//! Scans of a board.
ghost use Rattle.snap_board.specs.Desks.{IsDeskOf};
ghost use Rattle.std.specs.Prelude.{◌<◌};

use super::{Of, is_of, is_view, opened, store_nine, taken};
use snap_board::{Board, Desk, ScanRefusal};
use snap_testing::entry;
use std::alloc::Global;
use std::process::Abort;
use std::test::Fail;
use std::thread::join;

// A scan of at most `tries` tries has these stamps, and shows only a 9 of desk 1.
fn scan_nine(
    rt: &impl Abort,
    alloc: Global,
    board: &Board,
    desk: &mut Desk,
    tries: u32,
    of: Of,
) -> Result<(), Fail>
    requires desk { IsDeskOf board.now desk.old }
    requires tries { 0 < tries }
    ensures { IsDeskOf board.now desk.new }
{
    let scanned = board.scan(alloc, desk, tries)?;
    assert!(rt; is_of(&scanned, of) && is_view(&scanned, entry(1, 1, 9)));
    Ok(())
}

#[test]
fn a_scan_ends_behind_its_middle_tick(rt: HostRuntime) -> Result<(), Fail> {
    let alloc = rt.alloc();
    let (board, mut gathered, mut one) = opened(alloc, 2)?;
    let mut zero = taken(alloc, &board, &mut gathered)?;
    store_nine(&rt, &board, &mut one)?;
    scan_nine(&rt, alloc, &board, &mut one, 3, (1, 2, 4))?;
    scan_nine(&rt, alloc, &board, &mut zero, 1, (0, 5, 7))
}

// A scan of `tries` tries is refused.
fn expect_refused(rt: &impl Abort, alloc: Global, board: &Board, desk: &mut Desk, tries: u32)
    requires desk { IsDeskOf board.now desk.old }
    requires tries { 0 < tries }
    ensures { IsDeskOf board.now desk.new }
{
    assert!(rt; board.scan(alloc, desk, tries).err() == Some(ScanRefusal::Spent));
}

// A scan of as many tries as there can be is the first call on the board.
fn expect_scanned(
    rt: &impl Abort,
    alloc: Global,
    board: &Board,
    desk: &mut Desk,
) -> Result<(), Fail>
    requires { IsDeskOf board.now desk.old }
    ensures { IsDeskOf board.now desk.new }
{
    let scanned = board.scan(alloc, desk, 1_048_574)?;
    assert!(rt; is_of(&scanned, (0, 0, 2)));
    Ok(())
}

#[test]
fn a_scan_is_spent_by_its_tries(rt: HostRuntime) -> Result<(), Fail> {
    let alloc = rt.alloc();
    let (board, _gathered, mut desk) = opened(alloc, 1)?;
    expect_refused(&rt, alloc, &board, &mut desk, 1_048_575);
    expect_scanned(&rt, alloc, &board, &mut desk)?;
    expect_refused(&rt, alloc, &board, &mut desk, 1_048_574);
    let viewed = board.collect(alloc, &mut desk)?;
    assert!(rt; is_of(&viewed, (0, 3, 4)));
    Ok(())
}

/// Stores 1 to 1,000, and answers whether each store has a record.
fn store_up(board: &Board, mut desk: Desk) -> (Desk, bool)
    requires { IsDeskOf board.now desk }
    ensures { IsDeskOf board.now result.0 }
{
    let mut recorded = true;
    'values: for below in 0..1000 {
        recorded = board.store(&mut desk, below + 1).is_ok() && recorded;
    }
    (desk, recorded)
}

/// Scans 1,000 times with one try, and answers whether each scan has a record or was interfered with.
fn scan_often(alloc: Global, board: &Board, mut desk: Desk) -> (Desk, bool)
    requires { IsDeskOf board.now desk }
    ensures { IsDeskOf board.now result.0 }
{
    let mut answered = true;
    'scans: for _ in 0..1000 {
        let scanned = board.scan(alloc, &mut desk, 1);
        answered = matches!(&scanned, Ok(_) | Err(ScanRefusal::Interfered)) && answered;
    }
    (desk, answered)
}

// A collect shows only the last of the 1,000 stores.
fn collect_last(rt: &impl Abort, alloc: Global, board: &Board, desk: &mut Desk) -> Result<(), Fail>
    requires { IsDeskOf board.now desk.old }
    ensures { IsDeskOf board.now desk.new }
{
    let viewed = board.collect(alloc, desk)?;
    assert!(rt; is_view(&viewed, entry(0, 1000, 1000)));
    Ok(())
}

#[test]
fn scans_beside_stores_answer_or_are_interfered_with(rt: HostRuntime) -> Result<(), Fail> {
    let alloc = rt.alloc();
    let (board, mut gathered, one) = opened(alloc, 2)?;
    let zero = taken(alloc, &board, &mut gathered)?;
    let ((mut one, answered), (mut zero, recorded)) = join(
        &rt,
        || -> (Desk, bool)
            requires { IsDeskOf board one }
            ensures { IsDeskOf board result.0 }
        { scan_often(alloc, &board, one) },
        || -> (Desk, bool)
            requires { IsDeskOf board zero }
            ensures { IsDeskOf board result.0 }
        { store_up(&board, zero) },
    );
    assert!(rt; answered && recorded);
    collect_last(&rt, alloc, &board, &mut one)?;
    collect_last(&rt, alloc, &board, &mut zero)
}

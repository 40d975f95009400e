//! The scans of a board.
ghost use Rattle.snap_board.specs.Desks.{IsDeskOf};
ghost use Rattle.std.specs.Prelude.{◌≡◌, ◌<◌};

use crate::boards::{Of, is_view, store_nine, taken};
use snap_core::Entry;
use snap_record::{Board, Desk, Record, RecordedOp, ScanRefusal};
use snap_testing::entry;
use std::alloc::Global;
use std::process::Abort;
use std::test::Fail;
use std::thread::join;

// A scan of at most `tries` tries has these stamps, and shows these entries.
fn expect_scanned(
    rt: &impl Abort,
    alloc: Global,
    board: &Board,
    desk: &mut Desk,
    tries: u32,
    of: Of,
    want: &[Entry],
) -> Result<(), Fail>
    requires desk { IsDeskOf board.now desk.old }
    requires tries { 0 < tries }
    ensures { IsDeskOf board.now desk.new }
{
    let scanned = board.scan(alloc, desk, tries)?;
    assert!(rt; is_view(&scanned, of, want));
    Ok(())
}

#[test]
fn a_scan_draws_a_tick_between_its_two_collects(rt: HostRuntime) -> Result<(), Fail> {
    let alloc = rt.alloc();
    let (board, mut gathered) = Board::open(alloc, 2)?;
    let mut one = taken(alloc, &board, &mut gathered, 1)?;
    let mut zero = taken(alloc, &board, &mut gathered, 0)?;
    store_nine(&rt, &board, &mut one)?;
    let nine = [entry(1, 1, 9)];
    expect_scanned(&rt, alloc, &board, &mut one, 3, (1, 2, 4), &nine)?;
    expect_scanned(&rt, alloc, &board, &mut zero, 1, (0, 5, 7), &nine)
}

// A scan of `tries` tries is refused.
fn expect_spent(rt: &impl Abort, alloc: Global, board: &Board, desk: &mut Desk, tries: u32)
    requires desk { IsDeskOf board.now desk.old }
    requires tries { 0 < tries }
    ensures { IsDeskOf board.now desk.new }
{
    assert!(rt; board.scan(alloc, desk, tries).err() == Some(ScanRefusal::Spent));
}

#[test]
fn a_scan_that_could_draw_more_ticks_than_are_left_is_refused(rt: HostRuntime) -> Result<(), Fail> {
    let alloc = rt.alloc();
    let (board, mut gathered) = Board::open(alloc, 1)?;
    let mut desk = taken(alloc, &board, &mut gathered, 0)?;
    expect_spent(&rt, alloc, &board, &mut desk, 1_048_575);
    expect_scanned(&rt, alloc, &board, &mut desk, 1_048_574, (0, 0, 2), &[])?;
    expect_spent(&rt, alloc, &board, &mut desk, 1_048_574);
    let viewed = board.collect(alloc, &mut desk)?;
    assert!(rt; is_view(&viewed, (0, 3, 4), &[]));
    Ok(())
}

// Stores 1 to 1,000, and answers whether each store has a record.
fn store_up(board: &Board, mut desk: Desk) -> (Desk, bool)
    requires { IsDeskOf board.now desk }
    ensures { IsDeskOf board.now result.0 }
{
    let mut recorded = true;
    'values: for below in 0..1000 {
        recorded = board.store(&mut desk, below + 1).is_ok() && recorded;
    }
    (desk, recorded)
}

// Scans 1,000 times with one try, and answers whether each scan has a record or was interfered with.
fn scan_often(alloc: Global, board: &Board, mut desk: Desk) -> (Desk, bool)
    requires { IsDeskOf board.now desk }
    ensures { IsDeskOf board.now result.0 }
{
    let mut answered = true;
    'scans: for _ in 0..1000 {
        let scanned = board.scan(alloc, &mut desk, 1);
        answered = matches!(&scanned, Ok(_) | Err(ScanRefusal::Interfered)) && answered;
    }
    (desk, answered)
}

// Whether a record is of a view that shows only this entry.
fn shows_alone(record: &Record, want: Entry) -> bool {
    match &record.op {
        RecordedOp::Stored(_) => false,
        RecordedOp::Viewed(view) => view.entries() == [want].as_slice(),
    }
}

// A collect shows only the last of the 1,000 stores.
fn collect_last(rt: &impl Abort, alloc: Global, board: &Board, desk: &mut Desk) -> Result<(), Fail>
    requires { IsDeskOf board.now desk.old }
    ensures { IsDeskOf board.now desk.new }
{
    let viewed = board.collect(alloc, desk)?;
    assert!(rt; shows_alone(&viewed, entry(0, 1000, 1000)));
    Ok(())
}

#[test]
fn scans_beside_stores_answer_or_are_interfered_with(rt: HostRuntime) -> Result<(), Fail> {
    let alloc = rt.alloc();
    let (board, mut gathered) = Board::open(alloc, 2)?;
    let one = taken(alloc, &board, &mut gathered, 1)?;
    let zero = taken(alloc, &board, &mut gathered, 0)?;
    let ((mut one, answered), (mut zero, recorded)) = join(
        &rt,
        || -> (Desk, bool)
            requires { IsDeskOf board one }
            ensures { IsDeskOf board result.0 }
        { scan_often(alloc, &board, one) },
        || -> (Desk, bool)
            requires { IsDeskOf board zero }
            ensures { IsDeskOf board result.0 }
        { store_up(&board, zero) },
    );
    assert!(rt; answered && recorded);
    collect_last(&rt, alloc, &board, &mut one)?;
    collect_last(&rt, alloc, &board, &mut zero)
}

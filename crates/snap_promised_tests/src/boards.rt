//! The stores, collects and desks of a board.
ghost use Rattle.snap_board.specs.Desks.{IsDeskOf, IsGatheredOf};
ghost use Rattle.std.specs.Prelude.{◌≡◌, IfOk};

use snap_core::Entry;
use snap_record::{
    Board, Closed, CollectRefusal, Desk, Gathered, OpenRefusal, Record, RecordedOp, StoreRefusal,
};
use snap_testing::entry;
use std::alloc::Global;
use std::process::Abort;
use std::test::Fail;

// The highest of the desks that are in, which is that of this process.
pub(crate) fn taken(
    alloc: Global,
    board: &Board,
    gathered: &mut Gathered,
    process: u16,
) -> Result<Desk, Fail>
    requires { IsGatheredOf board.now gathered.old }
    ensures gathered { IsGatheredOf board.now gathered.new }
    ensures desk { IfOk result (λ desk. IsDeskOf board.now desk) }
{
    match board.take(alloc, gathered)? {
        Some(desk) if desk.process() == process => Ok(desk),
        _ => Err(Fail::from("not that desk")),
    }
}

// A board that does not close, since a desk is out.
fn still_open(board: Board, gathered: Gathered) -> Result<(Board, Gathered), Fail>
    requires { IsGatheredOf board gathered }
    ensures { IfOk result (λ r. (r.0 ≡ board) × (r.1 ≡ gathered)) }
{
    match board.close(gathered) {
        Ok(_) => Err(Fail::from("closed with a desk out")),
        Err(both) => Ok(both),
    }
}

// What is left of a closed board.
fn closed(board: Board, gathered: Gathered) -> Result<Closed, Fail>
    requires { IsGatheredOf board gathered }
{
    match board.close(gathered) {
        Ok(closed) => Ok(closed),
        Err(_both) => Err(Fail::from("not closed")),
    }
}

/// A process, and the stamps of the begin and the end of a call.
pub(crate) type Of = (u16, u64, u64);

/// Whether a record has this process and these stamps, and is of a store of this entry.
fn is_store(record: &Record, of: Of, want: Entry) -> bool {
    match &record.op {
        RecordedOp::Stored(entry) => {
            (record.process, record.begun, record.ended) == of && *entry == want
        }
        RecordedOp::Viewed(_) => false,
    }
}

/// Whether a record has this process and these stamps, and is of a view that shows exactly these entries.
pub(crate) fn is_view(record: &Record, of: Of, want: &[Entry]) -> bool {
    match &record.op {
        RecordedOp::Stored(_) => false,
        RecordedOp::Viewed(view) => {
            (record.process, record.begun, record.ended) == of && view.entries() == want
        }
    }
}

/// Desk 1 stores 9, as the first call on its board.
pub(crate) fn store_nine(rt: &impl Abort, board: &Board, desk: &mut Desk) -> Result<(), Fail>
    requires { IsDeskOf board.now desk.old }
    ensures { IsDeskOf board.now desk.new }
{
    let stored = board.store(desk, 9)?;
    assert!(rt; is_store(&stored, (1, 0, 1), entry(1, 1, 9)));
    Ok(())
}

// Desk 1 collects, as the second call on its board, and sees only its 9.
fn collect_nine(rt: &impl Abort, alloc: Global, board: &Board, desk: &mut Desk) -> Result<(), Fail>
    requires { IsDeskOf board.now desk.old }
    ensures { IsDeskOf board.now desk.new }
{
    let viewed = board.collect(alloc, desk)?;
    assert!(rt; is_view(&viewed, (1, 2, 3), &[entry(1, 1, 9)]));
    Ok(())
}

// What is left of the board of two desks on which desk 1 stored 9.
fn expect_closed_nine(rt: &impl Abort, closed: &Closed) {
    assert!(rt; closed.desks() == 2);
    assert!(rt; closed.entry(1) == Some(entry(1, 1, 9)) && closed.entry(0).is_none());
}

#[test]
fn a_board_closes_once_both_its_desks_are_back(rt: HostRuntime) -> Result<(), Fail> {
    let alloc = rt.alloc();
    let (board, mut gathered) = Board::open(alloc, 2)?;
    let mut one = taken(alloc, &board, &mut gathered, 1)?;
    store_nine(&rt, &board, &mut one)?;
    collect_nine(&rt, alloc, &board, &mut one)?;
    let (board, mut gathered) = still_open(board, gathered)?;
    let zero = taken(alloc, &board, &mut gathered, 0)?;
    assert!(rt; board.take(alloc, &mut gathered)?.is_none() && gathered.held() == 0);
    let gathered = board.give_back(gathered, zero);
    let gathered = board.give_back(gathered, one);
    expect_closed_nine(&rt, &closed(board, gathered)?);
    Ok(())
}

#[test]
fn a_board_has_1_to_8_desks(rt: HostRuntime) -> Result<(), Fail> {
    for desks in [0, 9] {
        match Board::open(rt.alloc(), desks) {
            Ok(_) => panic!(rt; "opened"),
            Err(refusal) => assert_eq!(rt; refusal, OpenRefusal::Desks),
        }
    }
    Ok(())
}

// Desk 0 stores 0 so often that it has no tick left.
fn spend(rt: &impl Abort, board: &Board, desk: &mut Desk) -> Result<(), Fail>
    requires { IsDeskOf board.now desk.old }
    ensures { IsDeskOf board.now desk.new }
{
    'stores: for before in 0..524_288u32 {
        let stored = board.store(desk, 0)?;
        let begun = 2 * u64::from(before);
        assert!(rt; is_store(&stored, (0, begun, begun + 1), entry(0, before + 1, 0)));
    }
    Ok(())
}

// A desk without ticks left neither stores nor collects.
fn expect_spent(rt: &impl Abort, alloc: Global, board: &Board, desk: &mut Desk)
    requires { IsDeskOf board.now desk.old }
    ensures { IsDeskOf board.now desk.new }
{
    assert!(rt; board.store(desk, 0).err() == Some(StoreRefusal::Spent));
    assert!(rt; board.collect(alloc, desk).err() == Some(CollectRefusal::Spent));
}

#[test]
fn a_desk_is_spent_after_1048576_ticks(rt: HostRuntime) -> Result<(), Fail> {
    let (board, mut gathered) = Board::open(rt.alloc(), 1)?;
    let mut desk = taken(rt.alloc(), &board, &mut gathered, 0)?;
    spend(&rt, &board, &mut desk)?;
    expect_spent(&rt, rt.alloc(), &board, &mut desk);
    let gathered = board.give_back(gathered, desk);
    let closed = closed(board, gathered)?;
    assert!(rt; closed.entry(0) == Some(entry(0, 524_288, 0)));
    Ok(())
}

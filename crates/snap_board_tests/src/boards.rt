//! Stores, collects and the closing of a board, each call with its wanted answer.
ghost use Rattle.snap_board.specs.Desks.{IsDeskOf, IsGatheredOf};
ghost use Rattle.std.specs.Prelude.{◌≡◌, IfOk};

use snap_board::{
    Board, Closed, CollectRefusal, Desk, Gathered, OpenRefusal, Record, RecordedOp, StoreRefusal,
    TickLimit,
};
use snap_core::Entry;
use snap_testing::entry;
use std::alloc::Global;
use std::process::Abort;
use std::test::Fail;

mod pauses;
mod scans;

// The highest of the desks that are in.
fn taken(alloc: Global, board: &Board, gathered: &mut Gathered) -> Result<Desk, Fail>
    requires { IsGatheredOf board.now gathered.old }
    ensures gathered { IsGatheredOf board.now gathered.new }
    ensures desk { IfOk result (λ desk. IsDeskOf board.now desk) }
{
    Ok(board.take(alloc, gathered)?.ok_or("no desk is in")?)
}

// A new board of `desks` desks, its gathered desks, and its highest desk.
fn opened(alloc: Global, desks: u8) -> Result<(Board, Gathered, Desk), Fail>
    ensures gathered { IfOk result (λ r. IsGatheredOf r.0 r.1) }
    ensures desk { IfOk result (λ r. IsDeskOf r.0 r.2) }
{
    let (board, mut gathered) = Board::open(alloc, desks)?;
    let desk = taken(alloc, &board, &mut gathered)?;
    Ok((board, gathered, desk))
}

// A new board of one desk that may draw `ticks` ticks, its gathered desks, and its desk.
fn opened_with(alloc: Global, ticks: u32) -> Result<(Board, Gathered, Desk), Fail>
    ensures gathered { IfOk result (λ r. IsGatheredOf r.0 r.1) }
    ensures desk { IfOk result (λ r. IsDeskOf r.0 r.2) }
{
    let limit = TickLimit::new(ticks).ok_or("no limit")?;
    let (board, mut gathered) = Board::with_ticks(alloc, 1, limit)?;
    let desk = taken(alloc, &board, &mut gathered)?;
    Ok((board, gathered, desk))
}

// A board that does not close, since a desk is out.
fn still_open(board: Board, gathered: Gathered) -> Result<(Board, Gathered), Fail>
    requires { IsGatheredOf board gathered }
    ensures { IfOk result (λ r. (r.0 ≡ board) × (r.1 ≡ gathered)) }
{
    match board.close(gathered) {
        Ok(_) => Err(Fail::new("closed with a desk out")),
        Err(both) => Ok(both),
    }
}

// What is left of a closed board.
fn closed(board: Board, gathered: Gathered) -> Result<Closed, Fail>
    requires { IsGatheredOf board gathered }
{
    match board.close(gathered) {
        Ok(closed) => Ok(closed),
        Err(_both) => Err(Fail::from("not closed")),
    }
}

// What is left of a board that is closed after this desk came back.
fn closed_with(board: Board, gathered: Gathered, desk: Desk) -> Result<Closed, Fail>
    requires gathered { IsGatheredOf board gathered }
    requires desk { IsDeskOf board desk }
{
    let gathered = board.give_back(gathered, desk);
    closed(board, gathered)
}

fn store(rt: &impl Abort, board: &Board, desk: &mut Desk, value: u32)
    requires { IsDeskOf board.now desk.old }
    ensures { IsDeskOf board.now desk.new }
{
    assert!(rt; board.store(desk, value).is_ok());
}

/// Whether the record is of a store of this entry.
fn is_store(record: &Record, want: Entry) -> bool {
    match &record.op {
        RecordedOp::Stored(entry) => *entry == want,
        RecordedOp::Viewed(_) => false,
    }
}

/// Whether the record is of a view that shows only this entry.
fn is_view(record: &Record, want: Entry) -> bool {
    match &record.op {
        RecordedOp::Stored(_) => false,
        RecordedOp::Viewed(view) => view.entries().len() == 1 && view.entries()[0] == want,
    }
}

// A process, and the stamps of the begin and the end of a call.
type Of = (u16, u64, u64);

/// Whether the record is of the process and has these stamps.
fn is_of(record: &Record, of: Of) -> bool {
    (record.process, record.begun, record.ended) == of
}

// Desk 1 stores 9, as the first call on the board.
fn store_nine(rt: &impl Abort, board: &Board, desk: &mut Desk) -> Result<(), Fail>
    requires { IsDeskOf board.now desk.old }
    ensures { IsDeskOf board.now desk.new }
{
    assert!(rt; desk.process() == 1);
    let stored = board.store(desk, 9)?;
    assert!(rt; is_of(&stored, (1, 0, 1)) && is_store(&stored, entry(1, 1, 9)));
    Ok(())
}

// The desk collects, and sees only that 9.
fn collect_nine(rt: &impl Abort, alloc: Global, board: &Board, desk: &mut Desk) -> Result<(), Fail>
    requires { IsDeskOf board.now desk.old }
    ensures { IsDeskOf board.now desk.new }
{
    let viewed = board.collect(alloc, desk)?;
    assert!(rt; is_of(&viewed, (1, 2, 3)) && is_view(&viewed, entry(1, 1, 9)));
    Ok(())
}

#[test]
fn a_desk_stores_and_collects(rt: HostRuntime) -> Result<(), Fail> {
    let (board, _gathered, mut one) = opened(rt.alloc(), 2)?;
    store_nine(&rt, &board, &mut one)?;
    collect_nine(&rt, rt.alloc(), &board, &mut one)
}

#[test]
fn a_board_is_closed_once_all_its_desks_are_in(rt: HostRuntime) -> Result<(), Fail> {
    let (board, gathered, one) = opened(rt.alloc(), 2)?;
    let (board, gathered) = still_open(board, gathered)?;
    assert!(rt; gathered.held() == 1);
    let gathered = board.give_back(gathered, one);
    assert!(rt; gathered.held() == 2);
    assert!(rt; closed(board, gathered)?.desks() == 2);
    Ok(())
}

#[test]
fn a_board_is_closed_once_both_its_desks_came_back(rt: HostRuntime) -> Result<(), Fail> {
    let (board, mut gathered, mut one) = opened(rt.alloc(), 2)?;
    let mut zero = taken(rt.alloc(), &board, &mut gathered)?;
    store(&rt, &board, &mut zero, 7);
    store(&rt, &board, &mut one, 9);
    let gathered = board.give_back(gathered, one);
    let (board, gathered) = still_open(board, gathered)?;
    let gathered = board.give_back(gathered, zero);
    assert!(rt; gathered.held() == 2);
    let closed = closed(board, gathered)?;
    assert!(rt; closed.entry(0) == Some(entry(0, 1, 7)) && closed.entry(1) == Some(entry(1, 1, 9)));
    Ok(())
}

#[test]
fn the_highest_desk_goes_out_first(rt: HostRuntime) -> Result<(), Fail> {
    let alloc = rt.alloc();
    let (board, mut gathered) = Board::open(alloc, 2)?;
    assert!(rt; gathered.held() == 2);
    let one = taken(alloc, &board, &mut gathered)?;
    let zero = taken(alloc, &board, &mut gathered)?;
    assert!(rt; one.process() == 1 && zero.process() == 0);
    assert!(rt; board.take(alloc, &mut gathered)?.is_none() && gathered.held() == 0);
    Ok(())
}

#[test]
fn a_closed_board_has_the_last_store_of_each_desk(rt: HostRuntime) -> Result<(), Fail> {
    let (board, gathered, mut one) = opened(rt.alloc(), 2)?;
    store(&rt, &board, &mut one, 8);
    store(&rt, &board, &mut one, 9);
    let closed = closed_with(board, gathered, one)?;
    assert!(rt; closed.entry(1) == Some(entry(1, 2, 9)));
    assert!(rt; closed.entry(0).is_none() && closed.entry(2).is_none());
    Ok(())
}

#[test]
fn boards_have_one_to_eight_desks(rt: HostRuntime) -> Result<(), Fail> {
    let alloc = rt.alloc();
    for desks in [0, 9] {
        match Board::open(alloc, desks) {
            Ok(_) => panic!(rt; "opened"),
            Err(refusal) => assert_eq!(rt; refusal, OpenRefusal::Desks),
        }
    }
    assert!(rt; Board::open(alloc, 1).is_ok() && Board::open(alloc, 8).is_ok());
    Ok(())
}

// Stores 0 `stores` times, as the first calls of a desk.
fn spend(rt: &impl Abort, board: &Board, desk: &mut Desk, stores: u32) -> Result<(), Fail>
    requires { IsDeskOf board.now desk.old }
    ensures { IsDeskOf board.now desk.new }
{
    'stores: for before in 0..stores {
        let stored = board.store(desk, 0)?;
        assert!(rt; is_store(&stored, entry(0, before + 1, 0)));
    }
    Ok(())
}

// A desk without ticks left neither stores nor collects.
fn expect_spent(rt: &impl Abort, alloc: Global, board: &Board, desk: &mut Desk)
    requires { IsDeskOf board.now desk.old }
    ensures { IsDeskOf board.now desk.new }
{
    assert!(rt; board.store(desk, 0).err() == Some(StoreRefusal::Spent));
    assert!(rt; board.collect(alloc, desk).err() == Some(CollectRefusal::Spent));
}

#[test]
fn a_desk_is_spent_after_its_last_tick(rt: HostRuntime) -> Result<(), Fail> {
    let (board, gathered, mut desk) = opened(rt.alloc(), 1)?;
    spend(&rt, &board, &mut desk, 524_288)?;
    expect_spent(&rt, rt.alloc(), &board, &mut desk);
    let closed = closed_with(board, gathered, desk)?;
    assert!(rt; closed.entry(0) == Some(entry(0, 524_288, 0)));
    Ok(())
}

#[test]
fn a_desk_may_draw_as_many_ticks_as_its_board_says(rt: HostRuntime) -> Result<(), Fail> {
    for (ticks, stores) in [(5, 2), (1_048_578, 524_289)] {
        let (board, _gathered, mut desk) = opened_with(rt.alloc(), ticks)?;
        spend(&rt, &board, &mut desk, stores)?;
        expect_spent(&rt, rt.alloc(), &board, &mut desk);
    }
    Ok(())
}

#[test]
fn a_limit_of_ticks_is_1_to_16777216(rt: HostRuntime) {
    for (ticks, known) in [
        (0, false),
        (1, true),
        (16_777_216, true),
        (16_777_217, false),
    ] {
        assert!(rt; TickLimit::new(ticks).is_some() == known, "{ticks} ticks");
    }
}

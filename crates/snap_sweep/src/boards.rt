//! Desks of a board, which are as before if memory is refused.
ghost use Rattle.std.specs.Prelude.{IfOk, IfSome};
ghost use Rattle.snap_board.specs.Desks.{IsDeskOf, IsGatheredOf};

use crate::fault::{Fault, expect};
use snap_core::Entry;
use snap_record::{Board, CollectRefusal, Desk, Gathered, Record, RecordedOp, ScanRefusal};
use snap_testing::entry;
use std::alloc::{AllocError, Global};

// The record has these stamps and is of a view that shows only this entry.
fn expect_view(record: &Record, begun: u64, ended: u64, shown: Entry) -> Result<(), Fault> {
    let shows = match &record.op {
        RecordedOp::Stored(_) => false,
        RecordedOp::Viewed(view) => view.entries().len() == 1 && view.entries()[0] == shown,
    };
    expect(record.begun == begun && record.ended == ended && shows)
}

// Takes a desk, and once more if that is refused.
fn take_desk(
    alloc: Global,
    board: &Board,
    gathered: &mut Gathered,
) -> Result<Option<Desk>, AllocError>
    requires { IsGatheredOf board.now gathered.old }
    ensures gathered { IsGatheredOf board.now gathered.new }
    ensures desk { IfOk result (λ taken. IfSome taken (λ desk. IsDeskOf board.now desk)) }
{
    match board.take(alloc, gathered) {
        Ok(taken) => Ok(taken),
        Err(_refused) => board.take(alloc, gathered),
    }
}

// Stores, and then collects. If the collect is refused, it collects again, with the stamps that the refused collect would have had.
fn store_and_collect(alloc: Global, board: &Board, desk: &mut Desk) -> Result<(), Fault>
    requires { IsDeskOf board.now desk.old }
    ensures { IsDeskOf board.now desk.new }
{
    let Ok(stored) = board.store(desk, 9) else {
        return Err(Fault::Wrong);
    };
    expect(desk.process() == 1 && stored.begun == 0 && stored.ended == 1)?;
    let viewed = match board.collect(alloc, desk) {
        Err(CollectRefusal::Memory) => board.collect(alloc, desk)?,
        answer => answer?,
    };
    expect_view(&viewed, 2, 3, entry(1, 1, 9))
}

// A new board of two desks, its gathered desks, and its highest desk.
fn opened(alloc: Global) -> Result<(Board, Gathered, Desk), Fault>
    ensures gathered { IfOk result (λ r. IsGatheredOf r.0 r.1) }
    ensures desk { IfOk result (λ r. IsDeskOf r.0 r.2) }
{
    let (board, mut gathered) = Board::open(alloc, 2)?;
    match take_desk(alloc, &board, &mut gathered)? {
        Some(desk) => Ok((board, gathered, desk)),
        None => Err(Fault::Wrong),
    }
}

/// The first desk stores and collects. After a refusal the next `take` gives the same desk, and the next collect has the
/// stamps that the refused one would have had.
pub(crate) fn collect(alloc: Global) -> Result<(), Fault> {
    let (board, gathered, mut desk) = opened(alloc)?;
    store_and_collect(alloc, &board, &mut desk)?;
    let gathered = board.give_back(gathered, desk);
    let Ok(closed) = board.close(gathered) else {
        return Err(Fault::Wrong);
    };
    expect(closed.entry(1) == Some(entry(1, 1, 9)) && closed.entry(0).is_none())
}

// Stores, and then scans. If the scan is refused, it scans again, with the stamps that the refused scan would have had.
fn store_and_scan(alloc: Global, board: &Board, desk: &mut Desk) -> Result<(), Fault>
    requires { IsDeskOf board.now desk.old }
    ensures { IsDeskOf board.now desk.new }
{
    let Ok(_stored) = board.store(desk, 9) else {
        return Err(Fault::Wrong);
    };
    let scanned = match board.scan(alloc, desk, 3) {
        Err(ScanRefusal::Memory) => board.scan(alloc, desk, 3)?,
        answer => answer?,
    };
    expect_view(&scanned, 2, 4, entry(1, 1, 9))
}

/// The first desk stores and scans. After a refusal the next scan has the stamps that the refused one would have had.
pub(crate) fn scan(alloc: Global) -> Result<(), Fault> {
    let (board, _gathered, mut desk) = opened(alloc)?;
    store_and_scan(alloc, &board, &mut desk)
}

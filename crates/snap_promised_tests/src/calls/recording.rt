//! Callers of the calls of snap_record.
ghost use Rattle.std.specs.Prelude.{◌≡◌, ◌<◌, ◌≤◌, All};
ghost use Rattle.snap_board.specs.Desks.{IsDeskOf, IsGatheredOf};
ghost use Rattle.snap_record.specs.Relays.{IsSenderOf, IsTakerOf};

use snap_core::{Entry, Gate};
use snap_record::{
    Board, Closed, CollectRefusal, Desk, Gathered, OpenRefusal, Plan, PlanRefusal, Record,
    RecordRefusal, Recording, Relay, ScanRefusal, Sender, Step, StoreRefusal, Taker,
};
use std::alloc::{AllocError, Global};
use std::sync::Wait;
use std::thread::Threads;

fn board_open(alloc: Global, desks: u8) -> Result<(Board, Gathered), OpenRefusal> {
    Board::open(alloc, desks)
}

fn board_take(
    board: &Board,
    alloc: Global,
    gathered: &mut Gathered,
) -> Result<Option<Desk>, AllocError>
    requires { IsGatheredOf board.now gathered.old }
{
    board.take(alloc, gathered)
}

fn board_give_back(board: &Board, gathered: Gathered, desk: Desk) -> Gathered
    requires gathered { IsGatheredOf board.now gathered }
    requires desk { IsDeskOf board.now desk }
{
    board.give_back(gathered, desk)
}

fn board_close(board: Board, gathered: Gathered) -> Result<Closed, (Board, Gathered)>
    requires { IsGatheredOf board gathered }
{
    board.close(gathered)
}

fn board_store(board: &Board, desk: &mut Desk, value: u32) -> Result<Record, StoreRefusal>
    requires { IsDeskOf board.now desk.old }
{
    board.store(desk, value)
}

fn board_collect(board: &Board, alloc: Global, desk: &mut Desk) -> Result<Record, CollectRefusal>
    requires { IsDeskOf board.now desk.old }
{
    board.collect(alloc, desk)
}

fn board_scan(
    board: &Board,
    alloc: Global,
    desk: &mut Desk,
    tries: u32,
) -> Result<Record, ScanRefusal>
    requires desk { IsDeskOf board.now desk.old }
    requires tries { 0 < tries }
{
    board.scan(alloc, desk, tries)
}

fn desk_process(desk: &Desk) -> u16 {
    desk.process()
}

fn gathered_held(gathered: &Gathered) -> u8 {
    gathered.held()
}

fn closed_desks(closed: &Closed) -> u8 {
    closed.desks()
}

fn closed_entry(closed: &Closed, k: u8) -> Option<Entry> {
    closed.entry(k)
}

fn plan_new(scripts: Vec<Vec<Step>>) -> Result<Plan, PlanRefusal> {
    Plan::new(scripts)
}

fn rounds_plan(alloc: Global, workers: u32, rounds: u32, scan: bool) -> Result<Plan, PlanRefusal> {
    snap_record::rounds_plan(alloc, workers, rounds, scan)
}

fn record_plan<R: Threads + Wait + Sync, G: Gate>(
    rt: &R,
    alloc: Global,
    plan: &Plan,
    gate: &G,
) -> Result<Recording, RecordRefusal> {
    snap_record::record_plan(rt, alloc, plan, gate)
}

fn relay_start<R: Wait>(
    rt: &R,
    alloc: Global,
    workers: u8,
) -> Result<(Relay, Vec<Sender>, Taker), AllocError>
    requires { (1 ≤ workers) × (workers ≤ 8) }
{
    Relay::start(rt, alloc, workers)
}

fn relay_send<R: Wait>(
    relay: &Relay,
    rt: &R,
    alloc: Global,
    sender: &mut Sender,
    call: Record,
) -> Result<(), Record>
    requires start { IsSenderOf relay.now sender.old }
    requires own { call.process ≡ sender.old.place }
{
    relay.send(rt, alloc, sender, call)
}

fn relay_next<R: Wait>(relay: &Relay, rt: &R, taker: &mut Taker) -> Option<Record>
    requires { IsTakerOf relay.now taker.old }
{
    relay.next(rt, taker)
}

fn relay_finish<R: Wait>(
    relay: Relay,
    rt: &R,
    senders: Vec<Sender>,
    taker: Taker,
) -> Result<(), (Relay, Vec<Sender>, Taker)>
    requires senders { All (IsSenderOf relay) senders.items }
    requires taker { IsTakerOf relay taker }
{
    relay.finish(rt, senders, taker)
}

//! A relay, its senders and its taker.
ghost use Rattle.snap_board.specs.Desks.{IsDeskOf};
ghost use Rattle.std.specs.Prelude.{◌≡◌, All, IfOk};
ghost use Rattle.snap_record.specs.Relays.{IsSenderOf, IsTakerOf};

use snap_core::Entry;
use snap_record::{Board, Desk, Record, RecordedOp, Relay, Sender, Taker};
use snap_testing::entry;
use std::alloc::{AllocError, Global};
use std::process::Abort;
use std::sync::Wait;
use std::test::Fail;

// A relay with its two senders and its taker.
fn start_two<R: Wait>(rt: &R, alloc: Global) -> Result<(Relay, Sender, Sender, Taker), AllocError>
    ensures relay { IfOk result (λ r. r.0.workers ≡ 2) }
    ensures zero { IfOk result (λ r. IsSenderOf r.0 r.1 × (r.1.place ≡ 0)) }
    ensures one { IfOk result (λ r. IsSenderOf r.0 r.2 × (r.2.place ≡ 1)) }
    ensures taker { IfOk result (λ r. IsTakerOf r.0 r.3) }
{
    let (relay, mut senders, taker) = Relay::start(rt, alloc, 2)?;
    let Some(one) = senders.pop() else {
        unreachable!()
    };
    let Some(zero) = senders.pop() else {
        unreachable!()
    };
    Ok((relay, zero, one, taker))
}

// The record of a store by this process.
fn stored_by(process: u16) -> Record
    ensures { result.process ≡ process }
{
    Record {
        process,
        begun: 0,
        ended: 1,
        op: RecordedOp::Stored(entry(0, 1, 7)),
    }
}

// A process, and the stamps of the begin and the end of a call.
type Of = (u16, u64, u64);

/// Whether this is a record of the process with these stamps.
fn is_of(record: &Record, of: Of) -> bool {
    (record.process, record.begun, record.ended) == of
}

/// Whether the record is of a store of this entry.
fn has_stored(record: &Record, want: Entry) -> bool {
    match &record.op {
        RecordedOp::Stored(entry) => *entry == want,
        RecordedOp::Viewed(_) => false,
    }
}

/// Whether the record is of a collect or a scan that shows exactly these entries.
fn has_viewed(record: &Record, want: &[Entry]) -> bool {
    match &record.op {
        RecordedOp::Stored(_) => false,
        RecordedOp::Viewed(view) => view.entries() == want,
    }
}

fn two_desks(alloc: Global) -> Result<(Board, Desk, Desk), Fail>
    ensures zero { IfOk result (λ r. IsDeskOf r.0 r.1 × (r.1.desk ≡ 0)) }
    ensures one { IfOk result (λ r. IsDeskOf r.0 r.2 × (r.2.desk ≡ 1)) }
{
    let (board, mut gathered) = Board::open(alloc, 2)?;
    let one = board.take(alloc, &mut gathered)?.ok_or("no desk is in")?;
    let zero = board.take(alloc, &mut gathered)?.ok_or("no desk is in")?;
    if one.process() == 1 && zero.process() == 0 {
        Ok((board, zero, one))
    } else {
        Err(Fail::from("other desks"))
    }
}

// The records that two desks of a board make, one after the other. Desk 1 stores 9, desk 0 collects and stores 7, desk 1 scans.
fn made_in_turn(
    alloc: Global,
    board: &Board,
    zero: &mut Desk,
    one: &mut Desk,
) -> Result<(Record, Record, Record, Record), Fail>
    requires zero { IsDeskOf board.now zero.old × (zero.old.desk ≡ 0) }
    requires one { IsDeskOf board.now one.old × (one.old.desk ≡ 1) }
    ensures { IfOk result (λ r. (r.0.process ≡ 1) × (r.1.process ≡ 0) × (r.2.process ≡ 0) × (r.3.process ≡ 1)) }
{
    let first = board.store(one, 9)?;
    let second = board.collect(alloc, zero)?;
    let third = board.store(zero, 7)?;
    let fourth = board.scan(alloc, one, 3)?;
    Ok((first, second, third, fourth))
}

// The records that two desks of a new board make, one after the other.
fn made_alone(alloc: Global) -> Result<(Record, Record, Record, Record), Fail>
    ensures { IfOk result (λ r. (r.0.process ≡ 1) × (r.1.process ≡ 0) × (r.2.process ≡ 0) × (r.3.process ≡ 1)) }
{
    let (board, mut zero, mut one) = two_desks(alloc)?;
    made_in_turn(alloc, &board, &mut zero, &mut one)
}

// Sends a record, which the relay takes.
fn send<R: Wait + Abort>(rt: &R, alloc: Global, relay: &Relay, sender: &mut Sender, call: Record)
    requires start { IsSenderOf relay.now sender.old }
    requires own { call.process ≡ sender.old.place }
    ensures same { IsSenderOf relay.now sender.new }
    ensures place { sender.new.place ≡ sender.old.place }
{
    assert!(rt; relay.send(rt, alloc, sender, call).is_ok());
}

// Sends the records that two desks make, one after the other.
fn send_in_turn<R: Wait + Abort>(
    rt: &R,
    alloc: Global,
    relay: &Relay,
    zero: &mut Sender,
    one: &mut Sender,
) -> Result<(), Fail>
    requires zero { IsSenderOf relay.now zero.old × (zero.old.place ≡ 0) }
    requires one { IsSenderOf relay.now one.old × (one.old.place ≡ 1) }
    ensures zero { IsSenderOf relay.now zero.new }
    ensures one { IsSenderOf relay.now one.new }
{
    let (first, second, third, fourth) = made_alone(alloc)?;
    send(rt, alloc, relay, one, first);
    send(rt, alloc, relay, zero, second);
    send(rt, alloc, relay, zero, third);
    send(rt, alloc, relay, one, fourth);
    Ok(())
}

// The next record, which is there.
fn next<R: Wait>(rt: &R, relay: &Relay, taker: &mut Taker) -> Result<Record, Fail>
    requires { IsTakerOf relay.now taker.old }
    ensures { IsTakerOf relay.now taker.new }
{
    Ok(relay.next(rt, taker).ok_or("nothing came")?)
}

// The next record is of this process.
fn expect_next<R: Wait + Abort>(
    rt: &R,
    relay: &Relay,
    taker: &mut Taker,
    process: u16,
) -> Result<(), Fail>
    requires { IsTakerOf relay.now taker.old }
    ensures { IsTakerOf relay.now taker.new }
{
    let record = next(rt, relay, taker)?;
    assert_eq!(rt; record.process, process);
    Ok(())
}

// The next record has this process and these stamps, and is of a store of this entry.
fn expect_stored<R: Wait + Abort>(
    rt: &R,
    relay: &Relay,
    taker: &mut Taker,
    of: Of,
    want: Entry,
) -> Result<(), Fail>
    requires { IsTakerOf relay.now taker.old }
    ensures { IsTakerOf relay.now taker.new }
{
    let record = next(rt, relay, taker)?;
    assert!(rt; is_of(&record, of) && has_stored(&record, want));
    Ok(())
}

// The next record has this process and these stamps, and is of a collect or a scan that shows exactly these entries.
fn expect_viewed<R: Wait + Abort>(
    rt: &R,
    relay: &Relay,
    taker: &mut Taker,
    of: Of,
    want: &[Entry],
) -> Result<(), Fail>
    requires { IsTakerOf relay.now taker.old }
    ensures { IsTakerOf relay.now taker.new }
{
    let record = next(rt, relay, taker)?;
    assert!(rt; is_of(&record, of) && has_viewed(&record, want));
    Ok(())
}

// The records that two desks make one after the other come in this order. Stamp 7 is the scan's middle tick.
fn expect_in_turn<R: Wait + Abort>(rt: &R, relay: &Relay, taker: &mut Taker) -> Result<(), Fail>
    requires { IsTakerOf relay.now taker.old }
    ensures { IsTakerOf relay.now taker.new }
{
    let (nine, seven) = (entry(1, 1, 9), entry(0, 1, 7));
    expect_stored(rt, relay, taker, (1, 0, 1), nine)?;
    expect_viewed(rt, relay, taker, (0, 2, 3), &[nine])?;
    expect_stored(rt, relay, taker, (0, 4, 5), seven)?;
    expect_viewed(rt, relay, taker, (1, 6, 8), &[seven, nine])
}

// A relay with these two senders ends.
fn expect_end<R: Wait + Abort>(
    rt: &R,
    alloc: Global,
    relay: Relay,
    zero: Sender,
    one: Sender,
    taker: Taker,
) -> Result<(), Fail>
    requires zero { IsSenderOf relay zero }
    requires one { IsSenderOf relay one }
    requires taker { IsTakerOf relay taker }
{
    let both = vec![in alloc; zero, one]?;
    assert!(rt; relay.finish(rt, both, taker).is_ok());
    Ok(())
}

// The relay and its ends, which come back because the relay does not end.
fn unfinished<R: Wait>(
    rt: &R,
    relay: Relay,
    senders: Vec<Sender>,
    taker: Taker,
) -> Result<(Relay, Vec<Sender>, Taker), Fail>
    requires senders { All (IsSenderOf relay) senders.items }
    requires taker { IsTakerOf relay taker }
    ensures { IfOk result (λ r. (r.0 ≡ relay) × (r.1 ≡ senders) × (r.2 ≡ taker)) }
{
    match relay.finish(rt, senders, taker) {
        Ok(()) => Err(Fail::from("the relay has ended")),
        Err(back) => Ok(back),
    }
}

#[test]
fn records_come_with_their_stamps_and_entries(rt: HostRuntime) -> Result<(), Fail> {
    let alloc = rt.alloc();
    let (relay, mut zero, mut one, mut taker) = start_two(&rt, alloc)?;
    send_in_turn(&rt, alloc, &relay, &mut zero, &mut one)?;
    expect_in_turn(&rt, &relay, &mut taker)?;
    expect_end(&rt, alloc, relay, zero, one, taker)
}

#[test]
fn a_relay_ends_with_no_record_left(rt: HostRuntime) -> Result<(), Fail> {
    let alloc = rt.alloc();
    let (relay, zero, mut one, taker) = start_two(&rt, alloc)?;
    send(&rt, alloc, &relay, &mut one, stored_by(1));
    let both = vec![in alloc; zero, one]?;
    let (relay, both, mut taker) = unfinished(&rt, relay, both, taker)?;
    expect_next(&rt, &relay, &mut taker, 1)?;
    assert!(rt; relay.next(&rt, &mut taker).is_none());
    assert!(rt; relay.finish(&rt, both, taker).is_ok());
    Ok(())
}

#[test]
fn a_fresh_relay_has_no_record(rt: HostRuntime) -> Result<(), Fail> {
    let alloc = rt.alloc();
    let (relay, zero, mut one, mut taker) = start_two(&rt, alloc)?;
    assert!(rt; relay.next(&rt, &mut taker).is_none());
    send(&rt, alloc, &relay, &mut one, stored_by(1));
    expect_next(&rt, &relay, &mut taker, 1)?;
    expect_end(&rt, alloc, relay, zero, one, taker)
}

#[test]
fn a_relay_ends_with_all_its_senders(rt: HostRuntime) -> Result<(), Fail> {
    let alloc = rt.alloc();
    let (relay, zero, one, taker) = start_two(&rt, alloc)?;
    let senders = vec![in alloc; zero]?;
    let (relay, mut senders, taker) = unfinished(&rt, relay, senders, taker)?;
    senders.push(one)?;
    assert!(rt; relay.finish(&rt, senders, taker).is_ok());
    Ok(())
}

#[test]
fn a_relay_has_a_sender_for_each_worker(rt: HostRuntime) -> Result<(), Fail> {
    let alloc = rt.alloc();
    for workers in [1, 8] {
        let (relay, senders, taker) = Relay::start(&rt, alloc, workers)?;
        assert_eq!(rt; senders.len(), usize::from(workers));
        assert!(rt; relay.finish(&rt, senders, taker).is_ok());
    }
    Ok(())
}

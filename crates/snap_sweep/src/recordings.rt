//! Records that go through a relay, and recordings.
ghost use Rattle.std.specs.Prelude.{◌≡◌, IfOk};
ghost use Rattle.snap_record.specs.Relays.{IsSenderOf, IsTakerOf};

use crate::fault::{Fault, expect};
use snap_core::OpenGate;
use snap_record::{Record, RecordedOp, Recording, Relay, Sender, Taker, record_plan, rounds_plan};
use snap_testing::entry;
use std::alloc::Global;
use std::sync::Wait;
use std::thread::Threads;

// Sends a record of a process. If it is refused, it comes back, and is sent again.
fn send<R: Wait>(
    rt: &R,
    alloc: Global,
    relay: &Relay,
    sender: &mut Sender,
    process: u16,
) -> Result<(), Fault>
    requires start { IsSenderOf relay.now sender.old }
    requires own { process ≡ sender.old.place }
    ensures { IsSenderOf relay.now sender.new }
{
    let record = Record {
        process,
        begun: 0,
        ended: 1,
        op: RecordedOp::Stored(entry(0, 1, 7)),
    };
    let Err(back) = relay.send(rt, alloc, sender, record) else {
        return Ok(());
    };
    match relay.send(rt, alloc, sender, back) {
        Ok(()) => Ok(()),
        Err(_again) => Err(Fault::Memory),
    }
}

// The next record is one of this process.
fn expect_next<R: Wait>(rt: &R, relay: &Relay, taker: &mut Taker, process: u16) -> Result<(), Fault>
    requires { IsTakerOf relay.now taker.old }
    ensures { IsTakerOf relay.now taker.new }
{
    let Some(record) = relay.next(rt, taker) else {
        return Err(Fault::Wrong);
    };
    expect(record.process == process)
}

// A relay with its two senders and its taker.
fn start_two<R: Wait>(rt: &R, alloc: Global) -> Result<(Relay, Sender, Sender, Taker), Fault>
    ensures zero { IfOk result (λ r. IsSenderOf r.0 r.1 × (r.1.place ≡ 0)) }
    ensures one { IfOk result (λ r. IsSenderOf r.0 r.2 × (r.2.place ≡ 1)) }
    ensures taker { IfOk result (λ r. IsTakerOf r.0 r.3) }
{
    let (relay, mut senders, taker) = Relay::start(rt, alloc, 2)?;
    let Some(one) = senders.pop() else {
        return Err(Fault::Wrong);
    };
    let Some(zero) = senders.pop() else {
        return Err(Fault::Wrong);
    };
    Ok((relay, zero, one, taker))
}

/// Records of two senders come in the order in which they were sent.
pub(crate) fn relay<R: Wait>(rt: &R, alloc: Global) -> Result<(), Fault> {
    let (relay, mut zero, mut one, mut taker) = start_two(rt, alloc)?;
    expect(relay.next(rt, &mut taker).is_none())?;
    send(rt, alloc, &relay, &mut one, 1)?;
    send(rt, alloc, &relay, &mut zero, 0)?;
    expect_next(rt, &relay, &mut taker, 1)?;
    expect_next(rt, &relay, &mut taker, 0)?;
    let both = vec![in alloc; zero, one]?;
    expect(relay.finish(rt, both, taker).is_ok())
}

// A recording has 24 events, but two fewer for each interfered scan, and a stamp for each event that is there.
fn expect_rounds(recording: &Recording, has_scans: bool) -> Result<(), Fault> {
    let event_count = recording.history.len() as u64;
    expect(event_count + 2 * u64::from(recording.interfered) == 24)?;
    expect(has_scans || recording.interfered == 0)?;
    expect(recording.stamps.len() == recording.history.len())
}

/// Two workers in three rounds of a store and a view each make 24 events with as many stamps. Each interfered scan makes two fewer.
pub(crate) fn recording<R: Threads + Wait + Sync>(
    rt: &R,
    alloc: Global,
    has_scans: bool,
) -> Result<(), Fault> {
    let plan = rounds_plan(alloc, 2, 3, has_scans)?;
    expect_rounds(&record_plan(rt, alloc, &plan, &OpenGate)?, has_scans)
}

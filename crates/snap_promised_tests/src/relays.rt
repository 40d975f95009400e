//! A relay, which carries records from several senders to one taker.
ghost use Rattle.std.specs.Prelude.{◌≡◌, All, IfOk};
ghost use Rattle.snap_record.specs.Relays.{IsSenderOf, IsTakerOf};

use snap_record::{Record, RecordedOp, Relay, Sender, Taker};
use snap_testing::entry;
use std::alloc::{AllocError, Global};
use std::process::Abort;
use std::sync::Wait;
use std::test::Fail;

// A relay with its two senders, that at place 0 first, and its taker.
fn start_two<R: Wait + Abort>(
    rt: &R,
    alloc: Global,
) -> Result<(Relay, Sender, Sender, Taker), AllocError>
    ensures zero { IfOk result (λ r. IsSenderOf r.0 r.1 × (r.1.place ≡ 0)) }
    ensures one { IfOk result (λ r. IsSenderOf r.0 r.2 × (r.2.place ≡ 1)) }
    ensures taker { IfOk result (λ r. IsTakerOf r.0 r.3) }
{
    let (relay, mut senders, taker) = Relay::start(rt, alloc, 2)?;
    let Some(one) = senders.pop() else {
        unreachable!()
    };
    let Some(zero) = senders.pop() else {
        unreachable!()
    };
    Ok((relay, zero, one, taker))
}

// Sends a record of the sender's worker, which the relay takes.
fn send<R: Wait + Abort>(rt: &R, alloc: Global, relay: &Relay, sender: &mut Sender, process: u16)
    requires start { IsSenderOf relay.now sender.old }
    requires own { process ≡ sender.old.place }
    ensures same { IsSenderOf relay.now sender.new }
{
    let call = Record {
        process,
        begun: 0,
        ended: 1,
        op: RecordedOp::Stored(entry(0, 1, 7)),
    };
    assert!(rt; relay.send(rt, alloc, sender, call).is_ok());
}

// The process of the next record, if there is one.
fn next_process<R: Wait>(rt: &R, relay: &Relay, taker: &mut Taker) -> Option<u16>
    requires { IsTakerOf relay.now taker.old }
    ensures { IsTakerOf relay.now taker.new }
{
    let record = relay.next(rt, taker)?;
    Some(record.process)
}

// The next record is of this process, or there is none.
fn expect_next<R: Wait + Abort>(rt: &R, relay: &Relay, taker: &mut Taker, known: Option<u16>)
    requires { IsTakerOf relay.now taker.old }
    ensures { IsTakerOf relay.now taker.new }
{
    assert_eq!(rt; next_process(rt, relay, taker), known);
}

// The relay and its ends, which come back because the relay does not end.
fn unfinished<R: Wait>(
    rt: &R,
    relay: Relay,
    senders: Vec<Sender>,
    taker: Taker,
) -> Result<(Relay, Vec<Sender>, Taker), Fail>
    requires senders { All (IsSenderOf relay) senders.items }
    requires taker { IsTakerOf relay taker }
    ensures { IfOk result (λ r. (r.0 ≡ relay) × (r.1 ≡ senders) × (r.2 ≡ taker)) }
{
    match relay.finish(rt, senders, taker) {
        Ok(()) => Err(Fail::from("the relay has ended")),
        Err(back) => Ok(back),
    }
}

// The two senders of a vector.
fn two_of(rt: &impl Abort, relay: &Relay, mut senders: Vec<Sender>) -> (Sender, Sender)
    requires { All (IsSenderOf relay.now) senders.items }
    ensures { IsSenderOf relay.now result.0 × IsSenderOf relay.now result.1 }
{
    let one = senders.pop().expect(rt, "the second sender");
    let zero = senders.pop().expect(rt, "the first sender");
    (zero, one)
}

#[test]
fn records_come_in_the_order_in_which_they_were_sent_and_all_before_the_end(
    rt: HostRuntime,
) -> Result<(), Fail> {
    let alloc = rt.alloc();
    let (relay, mut zero, mut one, mut taker) = start_two(&rt, alloc)?;
    expect_next(&rt, &relay, &mut taker, None);
    send(&rt, alloc, &relay, &mut one, 1);
    send(&rt, alloc, &relay, &mut zero, 0);
    expect_next(&rt, &relay, &mut taker, Some(1));
    let both = vec![in alloc; zero, one]?;
    let (relay, both, mut taker) = unfinished(&rt, relay, both, taker)?;
    expect_next(&rt, &relay, &mut taker, Some(0));
    expect_next(&rt, &relay, &mut taker, None);
    let (zero, one) = two_of(&rt, &relay, both);
    let alone = vec![in alloc; zero]?;
    let (relay, mut both, taker) = unfinished(&rt, relay, alone, taker)?;
    both.push(one)?;
    assert!(rt; relay.finish(&rt, both, taker).is_ok());
    Ok(())
}

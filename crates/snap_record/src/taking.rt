//! How the calling thread takes the records of all workers.
ghost use Rattle.std.specs.Prelude.{◌≡◌, [], IfOk, OnOk, All, length};
ghost use Rattle.snap_record.specs.Relays.{IsSenderOf, IsTakerOf, HasPlaces, TookAll};
ghost use Rattle.snap_record.specs.inside.Workers.{IsTakenOf};

use crate::relay::{Relay, Sender, Taker, count_all};
use snap_board::Record;
use std::alloc::{AllocError, Global};
use std::sync::Wait;

/// The taker, and the records that it took.
#[derive(Drop)]
pub(crate) struct Taken {
    pub(crate) taker: Taker,
    pub(crate) records: Vec<Record>,
}

// Takes one record, and answers whether there was one.
fn take_one<R: Wait>(rt: &R, relay: &Relay, taken: &mut Taken) -> Result<bool, AllocError>
    requires { IsTakenOf relay.now taken.old }
    ensures { OnOk result (IsTakenOf relay.now taken.new) }
{
    let Some(call) = relay.next(rt, &mut taken.taker) else {
        return Ok(false);
    };
    taken.records.push(call)?;
    Ok(true)
}

/// Takes records until none comes.
pub(crate) fn take_some<R: Wait>(
    rt: &R,
    alloc: Global,
    relay: &Relay,
    taker: Taker,
) -> Result<Taken, AllocError>
    requires { IsTakerOf relay.now taker × (taker.taken ≡ []) }
    ensures { IfOk result (IsTakenOf relay.now) }
{
    let mut taken = Taken {
        taker,
        records: Vec::new(alloc),
    };
    'turns: for _ in rt.forever() {
        if !take_one(rt, relay, &mut taken)? {
            break;
        }
    }
    Ok(taken)
}

// Takes records until there are `count` in all.
fn take_until<R: Wait>(
    rt: &R,
    relay: &Relay,
    mut taken: Taken,
    count: u128,
) -> Result<Taken, AllocError>
    requires { IsTakenOf relay.now taken }
    ensures taken { IfOk result (IsTakenOf relay.now) }
    ensures count { IfOk result (λ all. length all.taker.taken ≡ count) }
{
    'turns: for _ in rt.forever() {
        if u128::from(taken.taker.count()) == count {
            return Ok(taken);
        }
        take_one(rt, relay, &mut taken)?;
    }
    unreachable!()
}

/// Takes what the workers sent and is not yet taken, and ends the relay. An empty answer of `next` does not show that all records
/// were taken. So this goes by the senders' counts.
pub(crate) fn take_all<R: Wait>(
    rt: &R,
    relay: Relay,
    senders: Vec<Sender>,
    taken: Taken,
) -> Result<Vec<Record>, AllocError>
    requires senders { All (IsSenderOf relay) senders.items }
    requires places { HasPlaces senders.items relay.workers }
    requires taken { IsTakenOf relay taken }
    ensures { IfOk result (λ all. TookAll relay.workers all.items senders.items) }
{
    let Some(sent) = count_all(relay.workers(), &senders) else {
        unreachable!()
    };
    let Taken { taker, records } = take_until(rt, &relay, taken, sent)?;
    let Ok(()) = relay.finish(rt, senders, taker) else {
        unreachable!()
    };
    Ok(records)
}

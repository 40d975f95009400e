//! A queue that carries records from several senders to one taker.
ghost use Rattle.std.specs.Prelude.{◌≡◌, ℕ, ◌≤◌, ◌↔◌, [], IfErr, IfOk, OnOk, IsOk, IsTrue, MatchOption, MatchResult, option_map, All, length};
ghost use Rattle.crossbeam_queue.specs.SegTies.{IsSegPassOf};
ghost use Rattle.snap_record.specs.declared.delivery.Role.TheVariants.{Takes};
ghost use Rattle.snap_record.specs.inside.Delivery.{new_taker};
ghost use Rattle.snap_record.specs.Plans.{worker_limit};
ghost use Rattle.snap_record.specs.Relays.{IsSenderOf, IsTakerOf, sent_more, taken_more, AreNew, HasPlaces, IsDone, TookAll, count_sent, sender_at};
ghost use Rattle.snap_record.specs.inside.Ends.{TookIn, made_of};
ghost use Rattle.snap_record.specs.Ends.{taken_of};

use crate::delivery::{MakeSender, Pass, PopRecord, PushRecord, Queue, SumUp, TakeIn};
use snap_board::Record;
use std::alloc::{AllocError, Global};
use std::marker::Model;
use std::sync::Wait;

/// The greatest number of records that a sender sends, and that the taker takes.
const RECORD_LIMIT: u64 = 1 << 62;

/// A queue that carries the records of several workers to one taker.
pub struct Relay {
    queue: Queue,
    workers: u8,
}

impl Model for Relay {
    ghost use Rattle.snap_record.specs.Relays.{RelayView};

    ghost Value = { RelayView };

    ghost view = { λ r. record { queue = r.queue; workers = r.workers } };
}

impl Drop for Relay {
    fn drop(self) {
        let Relay { queue, workers: _ } = self;
        queue.destroy();
    }
}

/// The end of the worker of one place. It sends the records of the process of that number.
#[derive(Drop)]
pub struct Sender {
    pass: Pass,
    place: u8,
    count: u64,
}

impl Model for Sender {
    ghost use Rattle.snap_record.specs.Relays.{SenderView};

    ghost Value = { SenderView };

    ghost use Rattle.snap_record.specs.Ends.{IsSender, sender_view};

    ghost view = { sender_view };

    ghost invariant = { IsSender };
}

impl Sender {
    fn place(&self) -> u8
        ensures { result ≡ self.now.place }
    {
        self.place
    }

    // The number of records that it sent.
    fn count(&self) -> u64
        ensures { result ≡ length self.now.sent }
    {
        self.count
    }
}

/// The end that takes the records of all workers.
#[derive(Drop)]
pub struct Taker {
    pass: Pass,
    workers: u8,
    count: u64,
}

impl Model for Taker {
    ghost use Rattle.snap_record.specs.Relays.{TakerView};

    ghost Value = { TakerView };

    ghost use Rattle.snap_record.specs.inside.Ends.{IsTaker};
    ghost use Rattle.snap_record.specs.Ends.{taker_view};

    ghost view = { taker_view };

    ghost invariant = { IsTaker };
}

impl Taker {
    // The number of records that it took.
    pub(crate) fn count(&self) -> u64
        ensures { result ≡ length self.now.taken }
    {
        self.count
    }
}

// A sender for each place below `workers`, which the taker's pass makes.
fn make_senders(
    alloc: Global,
    queue: &Queue,
    pass: &mut Pass,
    workers: u8,
) -> Result<Vec<Sender>, AllocError>
    requires { IsSegPassOf queue.now pass.old × (pass.old.me.view.client ≡ new_taker) }
    ensures pass { OnOk result (IsSegPassOf queue.now pass.new × (pass.new.me.view.client ≡ Takes [] workers [])) }
    ensures senders { IfOk result (λ v. AreNew queue.now workers v.items) }
{
    let mut senders = Vec::new(alloc);
    'places: for place in 0..workers {
        let theirs = queue.another::<MakeSender>(pass);
        senders.push(Sender {
            pass: theirs,
            place,
            count: 0,
        })?;
    }
    Ok(senders)
}

impl Relay {
    /// A relay of 1 to `WORKER_LIMIT` workers, with a sender for each and with a taker. The sender at place w is worker w's. The
    /// queue is empty, and nothing was sent or taken.
    pub fn start<R: Wait>(
        _rt: &R,
        alloc: Global,
        workers: u8,
    ) -> Result<(Relay, Vec<Sender>, Taker), AllocError>
        requires { (1 ≤ workers) × (workers ≤ worker_limit) }
        ensures relay { IfOk result (λ r. r.0.workers ≡ workers) }
        ensures senders { IfOk result (λ r. AreNew r.0.queue workers r.1.items) }
        ensures taker { IfOk result (λ r. r.2 ≡ record { queue = r.0.queue; workers = workers; taken = [] }) }
    {
        let (queue, mut pass) = Queue::with_rule(alloc)?;
        let relay = Relay { queue, workers };
        let senders = make_senders(alloc, &relay.queue, &mut pass, workers)?;
        let taker = Taker {
            pass,
            workers,
            count: 0,
        };
        Ok((relay, senders, taker))
    }

    /// The number of workers that it was started for.
    pub(crate) fn workers(&self) -> u8
        ensures { result ≡ self.now.workers }
    {
        self.workers
    }

    /// Puts a record of the sender's worker at the end of the queue. If memory runs out, or after 2^62 records of the sender, the
    /// record comes back. Then the queue and the sender are unchanged.
    pub fn send<R: Wait>(
        &self,
        rt: &R,
        _alloc: Global,
        sender: &mut Sender,
        call: Record,
    ) -> Result<(), Record>
        requires start { IsSenderOf self.now sender.old }
        requires own { call.process ≡ sender.old.place }
        ensures { MatchResult result (λ _. sender.new ≡ sent_more sender.old call) (λ back. (back ≡ call) × (sender.new ≡ sender.old)) }
    {
        if sender.count >= RECORD_LIMIT {
            return Err(call);
        }
        self.queue
            .push_as::<PushRecord, R>(rt, &mut sender.pass, call)?;
        sender.count += 1;
        Ok(())
    }

    /// Takes the first record of the queue. If there is none, the queue and the taker are unchanged, but senders may have more to
    /// send. After 2^62 records, more than the queue carries, it takes none.
    pub fn next<R: Wait>(&self, rt: &R, taker: &mut Taker) -> Option<Record>
        requires { IsTakerOf self.now taker.old }
        ensures { MatchOption result (taker.new ≡ taker.old) (λ call. taker.new ≡ taken_more taker.old call) }
    {
        if taker.count >= RECORD_LIMIT {
            return None;
        }
        let call = self.queue.pop_as::<PopRecord, R>(rt, &mut taker.pass)?;
        taker.count += 1;
        Some(call)
    }

    /// Ends the relay if all its senders are there and the number of taken records is the number that they sent. The taken records
    /// of each worker are then those that it sent, in its order, each once, and there are no others. Otherwise the relay, the
    /// senders and the taker come back unchanged.
    pub fn finish<R: Wait>(
        self,
        rt: &R,
        senders: Vec<Sender>,
        taker: Taker,
    ) -> Result<(), (Relay, Vec<Sender>, Taker)>
        requires senders { All (IsSenderOf self) senders.items }
        requires taker { IsTakerOf self taker }
        ensures exact { IsOk result ↔ IsDone self senders.items taker }
        ensures ok { OnOk result (TookAll self.workers taker.taken senders.items) }
        ensures err { IfErr result (λ back. (back.0 ≡ self) × (back.1 ≡ senders) × (back.2 ≡ taker)) }
    {
        if !is_done(self.workers, &senders, taker.count) {
            return Err((self, senders, taker));
        }
        settle(rt, &self, senders, taker);
        Ok(())
    }
}

// The number of records that the first sender of the place sent, or nothing if there is no such sender.
fn count_at(senders: &[Sender], place: u8) -> Option<u64>
    ensures { result ≡ option_map (λ s. length s.sent) (sender_at senders.now place) }
{
    senders
        .iter()
        .find(|sender| sender.place() == place)
        .map(|sender| sender.count())
}

// The number of records that the senders of the places below `workers` sent, or nothing if one of these is missing. The sum may
// exceed a u64.
pub(crate) fn count_all(workers: u8, senders: &[Sender]) -> Option<u128>
    ensures { MatchOption result (¬ HasPlaces senders.now workers) (λ n. HasPlaces senders.now workers × (n ≡ count_sent senders.now workers)) }
{
    let mut sum: u128 = 0;
    'places: for place in 0..workers {
        sum += u128::from(count_at(senders, place)?);
    }
    Some(sum)
}

fn is_done(workers: u8, senders: &[Sender], taken: u64) -> bool
    ensures { IsTrue result ↔ (HasPlaces senders.now workers × (count_sent senders.now workers ≡ taken)) }
{
    match count_all(workers, senders) {
        Some(sent) => sent == u128::from(taken),
        None => false,
    }
}

// Takes all senders in again, and learns that the queue is empty.
fn settle<R: Wait>(rt: &R, relay: &Relay, senders: Vec<Sender>, taker: Taker)
    requires senders { All (IsSenderOf relay.now) senders.items }
    requires taker { IsTakerOf relay.now taker }
    requires done { IsDone relay.now senders.items taker }
    ensures { TookAll relay.now.workers taker.taken senders.items }
{
    let Taker {
        mut pass,
        workers: _,
        count: _,
    } = taker;
    take_in(&relay.queue, &mut pass, senders);
    relay.queue.len_as::<SumUp, R>(rt, &mut pass);
}

fn take_in(queue: &Queue, pass: &mut Pass, mut senders: Vec<Sender>)
    requires senders { All (λ s. s.queue ≡ queue.now) senders.items }
    requires taker { IsSegPassOf queue.now pass.old × (pass.old.me.view.client ≡ Takes (taken_of pass.old.me.view.client) (made_of pass.old.me.view.client) []) }
    ensures { IsSegPassOf queue.now pass.new × TookIn pass.old.me.view.client senders.items [] pass.new.me.view.client }
{
    'each: while let Some(sender) = senders.pop() {
        let Sender {
            pass: theirs,
            place: _,
            count: _,
        } = sender;
        queue.absorb::<TakeIn>(pass, theirs);
    }
}

//! The rule of the queue of records, and what each of its passes knows.
use crossbeam_queue::protocol::{Join, Lesson, Outcome, Protocol, Split};
use crossbeam_queue::{RuledSegQueue, SegPass};
use snap_board::Record;
use std::collections::LinkedList;

/// A sender that was taken in again: its place, and what it sent. No program makes a value of this type.
pub(crate) struct Ended {
    pub place: u64,
    pub sent: LinkedList<Record>,
}

/// What a pass knows. No program makes a value of this type.
pub(crate) enum Role {
    /// A sender: its place, and what it sent.
    Sends(u64, LinkedList<Record>),
    /// The taker: what it took, the number of senders that it made, and those that it took in again.
    Takes(LinkedList<Record>, u64, LinkedList<Ended>),
    /// A pass that was taken in.
    Spent,
}

/// What is true between any two steps on the queue.
pub(crate) struct InOrder;

impl Protocol<Record, Role> for InOrder {
    ghost use Rattle.snap_record.specs.inside.Delivery.{Delivers, new_taker};

    ghost holds = { Delivers };

    ghost first = { new_taker };
}

/// The taker makes the sender of the next place.
pub(crate) struct MakeSender;

impl Split<Role> for MakeSender {
    ghost use Rattle.snap_record.specs.inside.Delivery.{one_made, next_sender};

    ghost left = { one_made };

    ghost right = { next_sender };
}

/// The taker takes a sender in again.
pub(crate) struct TakeIn;

impl Join<Role> for TakeIn {
    ghost use Rattle.snap_record.specs.inside.Delivery.{taken_in};
    ghost use Rattle.snap_record.specs.declared.delivery.Role.TheVariants.{Spent};

    ghost both = { taken_in };

    ghost spent = { Spent };
}

/// A sender's record joins at the back.
pub(crate) struct PushRecord;

impl Outcome<Record, Role> for PushRecord {
    ghost use Rattle.std.specs.Prelude.{◌≡◌};
    ghost use Rattle.snap_record.specs.inside.Delivery.{after_push};

    ghost then = { λ v x w. w ≡ after_push v x };
}

/// The taker takes the record at the front.
pub(crate) struct PopRecord;

impl Outcome<Record, Role> for PopRecord {
    ghost use Rattle.std.specs.Prelude.{◌≡◌};
    ghost use Rattle.snap_record.specs.inside.Delivery.{after_pop};

    ghost then = { λ v x w. w ≡ after_pop v x };
}

impl Lesson<Record, Role> for PopRecord {
    ghost use Rattle.std.specs.Prelude.{⊤};

    ghost fact = { λ v items. ⊤ };
}

/// The taker learns what is in the queue, from what it took and what the senders sent.
pub(crate) struct SumUp;

impl Lesson<Record, Role> for SumUp {
    ghost use Rattle.snap_record.specs.inside.Delivery.{AddsUp};

    ghost fact = { AddsUp };
}

pub(crate) type Queue = RuledSegQueue<Record, Role, InOrder>;

pub(crate) type Pass = SegPass<Record, Role>;

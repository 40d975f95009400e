//! The rule of the board's table, and the kinds of steps on its words.
use crate::account::Accounts;
use crate::limit::TickLimit;
use atomic_table::{Join, Play, Split, TableRule};

/// How many desks a board has, and how many ticks each may draw.
#[derive(Clone, Copy)]
pub struct Size {
    pub desks: u8,
    pub limit: TickLimit,
}

/// What is true between any two steps on the board's words.
pub struct BoardRule;

impl TableRule<(), Accounts, Size> for BoardRule {
    ghost use Rattle.snap_account.specs.Rule.{Boarded, newcomers};

    ghost holds = { λ k s. Boarded k.desks k.limit.ticks s };

    ghost first = { λ k. newcomers k.desks };
}

/// The begin tick of a store.
pub struct BeginStore;

impl Play<(), Accounts> for BeginStore {
    ghost use Rattle.snap_account.specs.Plays.{BeginsStore};

    ghost then = { BeginsStore };
}

/// The begin tick of a collect or a scan.
pub struct BeginView;

impl Play<(), Accounts> for BeginView {
    ghost use Rattle.snap_account.specs.Plays.{BeginsView};

    ghost then = { BeginsView };
}

/// The store of a component's word.
pub struct WriteWord;

impl Play<(), Accounts> for WriteWord {
    ghost use Rattle.snap_account.specs.Plays.{Writes};

    ghost then = { Writes };
}

/// The load of a component's word, by a collect or a scan.
pub struct ReadWord;

impl Play<(), Accounts> for ReadWord {
    ghost use Rattle.snap_account.specs.Plays.{Reads};

    ghost then = { Reads };
}

/// The end tick of a call that has a record.
pub struct EndCall;

impl Play<(), Accounts> for EndCall {
    ghost use Rattle.snap_account.specs.Plays.{Ends};

    ghost then = { Ends };
}

/// The middle tick of a scan, between two of its collects.
pub struct MiddleTick;

impl Play<(), Accounts> for MiddleTick {
    ghost use Rattle.snap_account.specs.Plays.{Middles};

    ghost then = { Middles };
}

/// The closing tick of a scan that has no record.
pub struct GiveUp;

impl Play<(), Accounts> for GiveUp {
    ghost use Rattle.snap_account.specs.Plays.{GivesUp};

    ghost then = { GivesUp };
}

/// A load of the clock by a seat of several desks. It shows that its accounts are of different desks.
pub struct LookOver;

impl Play<(), Accounts> for LookOver {
    ghost use Rattle.snap_account.specs.Plays.{HasEachOnce};

    ghost then = { HasEachOnce };
}

/// The first account goes out to a seat of its own.
pub struct GoOut;

impl Split<Accounts> for GoOut {
    ghost use Rattle.snap_account.specs.Plays.{but_first, only_first};

    ghost left = { but_first };

    ghost right = { only_first };
}

/// The accounts of two seats become those of one.
pub struct ComeIn;

impl Join<Accounts> for ComeIn {
    ghost use Rattle.snap_account.specs.Plays.{merge};
    ghost use Rattle.std.specs.Prelude.{[]};

    ghost both = { merge };

    ghost spent = { [] };
}

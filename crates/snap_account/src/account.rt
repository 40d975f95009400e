//! What a seat of the board knows: accounts of desks. No program makes a value of these types.
use std::collections::LinkedList;

/// What an answered call did, as numbers and values. A collect has one pair for each component, with number 0 for the initial state.
pub enum Answer {
    Stored(u64, u64),
    /// A collect.
    Viewed(LinkedList<(u64, u64)>),
    /// A scan with a record: its last middle tick, and what it read before it and after it.
    Scanned(u64, LinkedList<(u64, u64)>),
    /// A scan without a record: the number of its middle ticks, and what its first and its last collect read.
    Interfered(u64, LinkedList<(u64, u64)>, LinkedList<(u64, u64)>),
}

/// A call that was answered, with the ticks that it drew: its begin, its middle ticks in their order, and its end.
pub struct Answered {
    pub begun: u64,
    pub middles: LinkedList<u64>,
    pub ended: u64,
    pub op: Answer,
}

/// An open scan with a middle tick.
pub struct Scan {
    pub begun: u64,
    /// What its first collect read.
    pub first: LinkedList<(u64, u64)>,
    /// Its middle ticks, in their order.
    pub middles: LinkedList<u64>,
    /// The last of them.
    pub middle: u64,
    /// What the collect before that tick read.
    pub before: LinkedList<(u64, u64)>,
    /// What it read after that tick.
    pub since: LinkedList<(u64, u64)>,
}

/// The open call of a desk.
pub enum Doing {
    Idle,
    /// A store that is not written: its begin tick.
    Begun(u64),
    /// A store that is written: its begin tick, number and value.
    Written(u64, u64, u64),
    /// A collect, or the first collect of a scan: its begin tick, and what it has read.
    Viewing(u64, LinkedList<(u64, u64)>),
    Scanning(Scan),
}

/// What one desk did: its answered calls, its open call, and the number of ticks that it drew.
pub struct Account {
    pub desk: u64,
    pub calls: LinkedList<Answered>,
    pub doing: Doing,
    pub ticks: u64,
}

/// The accounts that a seat holds.
pub type Accounts = LinkedList<Account>;

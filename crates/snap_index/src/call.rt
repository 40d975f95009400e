//! Calls as an index keeps them, without what views show.
use snap_core::Entry;

/// What a call does.
#[derive(Clone, Copy, PartialEq, Eq, Debug)]
pub enum CallOp {
    Update(Entry),
    View,
}

/// A call with the places, counted from 0, of the events that begin and end it. A pending call has no end.
#[derive(Clone, Copy, PartialEq, Eq, Debug)]
pub struct Call {
    pub process: u16,
    pub op: CallOp,
    pub begun: u32,
    pub ended: Option<u32>,
}

/// What an update writes, with the places, counted from 0, of the events that begin and end it. A pending update has no end.
#[derive(Clone, Copy)]
pub struct Write {
    /// The call number of the update, from 0.
    pub call: u32,
    pub value: u32,
    pub begun: u32,
    pub ended: Option<u32>,
}

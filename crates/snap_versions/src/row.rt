//! A call of a store, numbered anew.
use snap_core::{Entry, View};

/// What a call does: an update with its entry, or a view with its answer. A view without an end has no answer.
#[derive(Drop)]
pub enum Operation {
    Update(Entry),
    View(Option<View>),
}

/// A call with its number in the order of begins, and the places, counted from 0, of the events that begin and end it. A pending
/// call has no end.
#[derive(Drop)]
pub struct Row {
    pub number: u32,
    pub process: u16,
    pub operation: Operation,
    pub begun: u32,
    pub ended: Option<u32>,
}

//! Records of calls.
use snap_core::{Entry, View};

/// What a call did.
#[derive(Debug, Drop)]
pub enum RecordedOp {
    Stored(Entry),
    Viewed(View),
}

/// One call of a desk. The stamps of its begin and its end are values of the board's clock.
#[derive(Debug, Drop)]
pub struct Record {
    pub process: u16,
    pub begun: u64,
    pub ended: u64,
    pub op: RecordedOp,
}

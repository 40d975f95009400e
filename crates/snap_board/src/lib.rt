//! A board of atomic words whose desks store, collect and scan.
#![tactic(auto)]

mod board;
mod calls;
mod desk_state;
mod pauses;
mod record;
mod refusals;
mod scan;
mod slots;

pub use board::{Board, Closed, DESK_LIMIT, Desk, Gathered};
pub use pauses::drawn_place;
pub use record::{Record, RecordedOp};
pub use refusals::{CollectRefusal, OpenRefusal, ScanRefusal, StoreRefusal};
pub use snap_account::{TICK_CAP, TICK_LIMIT, TickLimit};

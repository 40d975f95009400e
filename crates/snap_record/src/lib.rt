//! A recorder of what several threads do on a board, and a relay that carries the records of several threads to one.
#![tactic(auto)]

mod delivery;
mod pace;
mod plan;
mod recorder;
mod relay;
mod taking;
mod timeline;
mod worker;

pub use pace::Pace;
pub use plan::{
    LEAST_WORKERS, Plan, PlanRefusal, ROUND_LIMIT, Step, TRY_LIMIT, WORKER_LIMIT, rounds_plan,
    rounds_plan_within,
};
pub use recorder::{RecordRefusal, Recording, record_plan};
pub use relay::{Relay, Sender, Taker};
pub use snap_board::{
    Board, Closed, CollectRefusal, DESK_LIMIT, Desk, Gathered, OpenRefusal, Record, RecordedOp,
    ScanRefusal, StoreRefusal, TICK_CAP, TICK_LIMIT, TickLimit,
};

//! The status and the report of a history and of a text; the check, from a reader to a writer, and what other runs share with it.
#![tactic(auto)]

mod check;
mod fault;
mod judge;
mod judging;
mod law;
mod options;
mod reading;
mod status;
mod workers;

pub use check::{check_run, check_run_with, verdict};
pub use fault::RunFault;
pub use judge::{brief_verdict_of, judge_text, order_alone, order_by, status_of, verdict_of};
pub use judging::{Alone, Judging, Workers, workers_of};
pub use law::{each_text_has_a_report, one_report};
pub use options::{CheckOptions, Checking};
pub use status::Status;
pub use workers::{SHARED_FROM, SHARED_PIECES, cutting_for};

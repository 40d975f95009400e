//! The answer for a text as one JSON object on a line. That of a history has its counts, its verdicts and the first fault of each kind.
#![tactic(auto)]

mod call;
mod differs;
mod faults;
mod law;
mod line;
mod object;
mod stats;

pub use law::one_name;
pub use object::{few_views_line, history_line, refusal_line, trouble_line};
pub use stats::stats_line;

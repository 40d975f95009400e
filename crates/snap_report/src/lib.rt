//! The text of a report: lines of words, with the counts of a history, the verdicts, and an order or the faults.
#![tactic(auto)]

mod faults;
mod order;
mod refusal;
mod text;
mod words;

pub use refusal::refusal_text;
pub use text::{report, report_in, report_shared, verdict_text};
pub use words::{put_call, put_entry, put_number, put_update};

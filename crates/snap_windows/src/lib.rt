//! The judge of a recording of any length: its events come one by one, and it is judged window by window.
#![tactic(auto)]

mod judge;
mod last;
mod missed;
mod renumber;

pub use judge::{Verdict, WindowJudge};

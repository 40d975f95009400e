//! What each command of the program does with the system, except the check of files. It opens texts, lists names, says troubles,
//! and starts a run. Layers before the system show colours of the verdicts, and the progress of a check of many texts.
#![tactic(auto)]

mod failure;
mod files;
mod following;
mod names;
mod outlet;
mod painted;
mod progress;
mod questions;
mod refusal;
mod runs;
mod shown;
mod verdicts;
mod watched;

pub use failure::Failure;
pub use files::{open_only, system};
pub use following::follow;
pub use names::names_of;
pub use outlet::Outlet;
pub use painted::Painted;
pub use progress::Progress;
pub use questions::{explanation, explanation_of_cut, report_of_cut, witness};
pub use refusal::too_few_views;
pub use runs::{answer, cut, draw, record, stats};
pub use shown::{in_colors, progress_of};
pub use verdicts::send_painted;
pub use watched::{Cleared, Watched};

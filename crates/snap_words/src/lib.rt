//! The words of the command line, and the jobs that they ask for.
#![tactic(auto)]

mod check_command;
mod color;
mod command;
mod command_jobs;
mod cut_job;
mod cut_refusals;
mod draw_command;
mod drawing;
mod explain_command;
mod format;
mod given;
mod input;
mod job;
mod lines;
mod option_values;
mod ranges;
mod record_command;
mod refusals;
mod shrink_command;
mod shrunk;
mod stats_command;
mod word;
mod writers;

pub use color::Color;
pub use drawing::{Form, Part, Place};
pub use format::Format;
pub use given::{Words, wanted_by, words_of};
pub use input::{Input, names_input_twice};
pub use job::{Job, JobFault, Options, Windows, job_of};
pub use lines::{check_lines, cut_lines, picture_lines, record_lines, source_lines, stats_lines};
pub use shrunk::Shrunk;

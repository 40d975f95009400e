//! The answers for several named texts: each line of a report has the name before it, or a JSON object or a test case names its text.
#![tactic(auto)]

mod crew;
mod files;
mod format;
mod page;
mod round;
mod suite;
mod sum;
mod sums;

pub use crew::{Crew, Files};
pub use files::check_all;
pub use format::{FileOptions, Format};
pub use suite::suite_all;
pub use sum::sum_all;

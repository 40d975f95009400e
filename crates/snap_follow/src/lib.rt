//! The judge of a recording that grows: it is read line by line, judged window by window, and answered by a line for each window.
#![tactic(auto)]

mod answers;
mod course;
mod folder;
mod follow;
mod form;
mod lines;
mod pieces;
mod quotes;
mod run;
mod span;
mod sums;
mod texts;
mod waiting;

pub use course::RECORD_LIMIT;
pub use folder::FolderTexts;
pub use follow::{Ended, Follow, Window};
pub use form::Form;
pub use run::{FollowFault, FollowOptions, Followed, Until, follow_run};
pub use span::{Place, Span};
pub use texts::{FileText, Lost, OneText, Opened, Reason, Texts, TextsFault};

//! Histories as text.
#![tactic(auto)]

mod fields;
mod intake;
mod line;
mod read;
mod records;
mod refusal;
mod rows;
mod stamped;
mod stamped_line;
mod writing;

pub use line::{is_header_line, read_line};
pub use read::{read_history, read_history_with, read_text};
pub use records::{read_records, read_records_with, record_of};
pub use refusal::WriteRefusal;
pub use snap_format::{ReadRefusal, Stamped, bytes_within, fault_for};
pub use snap_text::{TextFault, fields_of};
pub use stamped::read_stamped_events;
pub use stamped_line::{is_stamped_header_line, read_stamped_line};
pub use writing::{write_history, write_history_stamped};

//! The fields of records: what they spell, and how they are spelled.
#![tactic(auto)]

mod entries;
mod fault;
mod fields;
mod known;
mod law;
mod number;
mod spelling;
mod words;

pub use fault::TextFault;
pub use fields::event_of_fields;
pub use known::Known;
pub use law::{fields_are_one_events, fields_read_back, records_are_spelled};
pub use number::stamp_of;
pub use spelling::fields_of;
pub use words::{ENTRY_SIZE, write_entry, write_number, write_text};

//! What a text of records means, and the history of the fields of its records, one record after the other.
#![tactic(auto)]

mod by_stamps;
mod fault;
mod fields;
mod law;
mod refusal;
mod repeats;
mod size;
mod stamped;
mod taking;

pub use by_stamps::{history_by_stamps, in_stamp_order, take_stamped};
pub use fault::fault_for;
pub use fields::{are_header, are_stamped_header, event_of_record, stamped_of_record};
pub use law::{
    headers_differ, narrow_texts_are_short, records_spell_events, stamped_texts_read_back,
    texts_are_decided, texts_are_histories, texts_are_short, texts_have_no_fault,
    texts_have_one_fault, texts_have_one_reading, texts_read_back,
};
pub use refusal::ReadRefusal;
pub use size::bytes_within;
pub use stamped::Stamped;
pub use taking::{row_limit, take_event, take_fields};

//! Why a history is not atomic, or an order that shows that it is: sentences, with each call concerned and its records. Or why a
//! text is not a history. Sentences also stand in the test case of a text, in XML.
#![tactic(auto)]

mod call;
mod explanation;
mod faults;
mod first_faults;
mod mistake;
mod refusal;
mod test_case;
mod view;
mod xml;

pub use explanation::{Detail, explain, explain_faults, sentences};
pub use refusal::explain_refusal;
pub use test_case::{Ending, ended_case, passed_case};
pub use view::Entries;
pub use xml::xml_laws;

//! What the program answers to a text besides its report, and the run that writes it. It is a JSON object, an explanation, a witness, a
//! picture, counts, or a test case. The runs that record a history are here too.
#![tactic(auto)]

mod answers;
mod ask;
mod asked;
mod cut;
mod draw;
mod draw_witness;
mod explain;
mod map;
mod markup;
mod object;
mod question;
mod recording;
mod rounds;
mod shrink;
mod stats;
mod store_run;
mod store_text;
mod table;
mod test_case;

pub use ask::{answer_to, run};
pub use asked::Asked;
pub use object::object_name;
pub use question::{Named, Question};
pub use recording::{record_run, record_run_stamped};
pub use rounds::{Rounds, Written, record_rounds};
pub use store_run::run_cut;

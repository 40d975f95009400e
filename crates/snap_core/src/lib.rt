//! Events, views and histories of a single-writer board, and what it means that a history is regular, monotone or atomic.
#![tactic(auto)]

mod counted;
mod entry;
mod event;
mod gate;
mod history;
mod law;
mod limit;
mod ownership;
mod tables;
mod usual_limit;
mod view;
mod writers;

pub use counted::Counted;
pub use entry::{COMPONENT_COUNT, Entry, are_same};
pub use event::Event;
pub use gate::{Gate, OpenGate};
pub use history::{EVENT_CAP, EventRefusal, History};
pub use law::histories_grow;
pub use limit::{EVENT_LIMIT, Limit};
pub use ownership::{AnyWriters, OneWriter, Ownership};
pub use view::{View, ViewRefusal};
pub use writers::Writers;

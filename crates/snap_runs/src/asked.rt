//! What may be asked of a text of a store.
use crate::question::Question;

/// What may be asked of a text of a store, once its updates are cut.
#[derive(Clone, Copy)]
pub enum Asked<'n> {
    /// The report of the cut history, as `check` writes it.
    Report,
    /// The lines of its verdicts alone.
    Verdicts,
    /// The answer to a question about the cut history.
    Answer(Question<'n>),
}

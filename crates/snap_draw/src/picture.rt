//! What a picture shows.
ghost use Rattle.std.specs.Prelude.{◌≡◌, slice_get};

use crate::shapes::Shapes;
use snap_core::Ownership;
use snap_index::Index;

/// How the events and the calls of a history are numbered elsewhere: the records of its events in its text, and the numbers that its
/// calls have in a run that it is made from. There are no such numbers if it is made from no run.
#[derive(Clone, Copy)]
pub struct Numbering<'a> {
    pub records: &'a [u32],
    pub sources: &'a [u32],
}

impl Numbering<'_> {
    /// The number that a call has in the run, if there is one. A call is given by its own number.
    pub(crate) fn source(&self, number: u32) -> Option<u32>
        ensures { result ≡ slice_get self.now.sources.now number }
    {
        self.sources.get(number as usize).copied()
    }
}

/// What a picture shows: the shapes of a history, its index, its numbering, the numbers of its printed order, and the explanation. There
/// is no order if the history is not atomic. A page of a long history has the shapes of its pieces too.
#[derive(Clone, Copy)]
pub struct Picture<'a, 'h, O: Ownership> {
    pub shapes: &'a Shapes,
    pub parts: &'a [Shapes],
    pub index: &'a Index<'h, O>,
    pub numbering: Numbering<'a>,
    pub order: &'a [u32],
    pub said: &'a [u8],
}

/// Whether a line of an explanation is the verdict or a sentence on a fault, and not the line of a call.
pub(crate) fn is_sentence(line: &[u8]) -> bool {
    !line.is_empty() && !line.starts_with(b"  ")
}

/// A line up to its first colon.
pub(crate) fn front_of(line: &[u8]) -> &[u8] {
    line.split(|byte| *byte == b':').next().unwrap_or(line)
}

/// The line of the verdict.
pub(crate) fn verdict_of(said: &[u8]) -> &[u8] {
    said.split(|byte| *byte == b'\n').next().unwrap_or(said)
}

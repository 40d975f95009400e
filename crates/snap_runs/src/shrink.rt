//! The text of what a history is cut down to.
ghost use Rattle.std.specs.Prelude.{◌≡◌, IfOk};
ghost use Rattle.snap_core.specs.declared.writers.Writers.{Writers};
ghost use Rattle.snap_core.specs.Bounded.{IsHistoryBy};
ghost use Rattle.snap_format.specs.Layout.{history_text};
ghost use Rattle.snap_runs.specs.Shrinking.{ShrinksHistory};

use crate::cut::judged_witness;
use snap_check::{Judging, Status};
use snap_core::{AnyWriters, Counted, History};
use snap_csv::write_history;
use std::alloc::{AllocError, Global};

fn text_of(alloc: Global, history: &History<AnyWriters>) -> Result<Vec<u8>, AllocError>
    ensures { IfOk result (λ text. text.items ≡ history_text history.now.events) }
{
    let mut writer = Counted::new(Vec::new(alloc));
    match write_history(alloc, &mut writer, history) {
        Ok(()) => Ok(writer.into_inner()),
        // a vector refuses bytes only if memory is exhausted
        Err(_) => Err(AllocError),
    }
}

/// The status of the history of a text with this number of bytes, and the text of its witness. An atomic history is left whole.
pub(crate) fn shrunk<J: Judging>(
    judging: &J,
    alloc: Global,
    history: &History<AnyWriters>,
    bytes: usize,
) -> Result<(Status, Vec<u8>), AllocError>
    requires ready { J.ready }
    ensures { IfOk result (λ answer. (writers : Writers) → IsHistoryBy writers history.now.events → ShrinksHistory writers history.now.events answer.0 answer.1.items) }
{
    let (status, found) = judged_witness(judging, alloc, history, bytes)?;
    let text = match found {
        Some((left, _numbers)) => text_of(alloc, &left)?,
        None => text_of(alloc, history)?,
    };
    Ok((status, text))
}

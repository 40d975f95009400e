//! The picture of what a history is cut down to.
ghost use Rattle.std.specs.Prelude.{IfOk, length};
ghost use Rattle.std.specs.List.{range_with_len};
ghost use Rattle.snap_core.specs.declared.writers.Writers.{Writers};
ghost use Rattle.snap_core.specs.Bounded.{IsHistoryBy};
ghost use Rattle.snap_draw.specs.Window.{usual_lines};
ghost use Rattle.snap_runs.specs.Drawing.{IsDrawing};
ghost use Rattle.snap_runs.specs.Markups.{is_lines};
ghost use Rattle.snap_runs.specs.declared.markup.Said.TheVariants.{Sentences};
ghost use Rattle.snap_runs.specs.WitnessDrawing.{DrawsWitness};

use crate::cut::{judged_witness, records_of};
use crate::draw::drawn;
use crate::markup::Lines;
use snap_check::{Judging, Status};
use snap_core::{AnyWriters, History};
use snap_draw::{Numbering, Window};
use std::alloc::{AllocError, Global};

// The picture of what the history of a text with this number of bytes is cut down to, by the records of its own text. The sources are the
// numbers of its calls in the history.
fn picture_of<J: Judging>(
    judging: &J,
    alloc: Global,
    history: &History<AnyWriters>,
    sources: &[u32],
    bytes: usize,
) -> Result<Vec<u8>, AllocError>
    requires ready { J.ready }
    ensures { IfOk result (λ text. IsDrawing usual_lines 0 Sentences is_lines history.now.events (range_with_len 2 (length history.now.events)) sources.now text.items) }
{
    // this call shows what is known of the history
    let _events = history.events();
    let records = records_of(alloc, history.len())?;
    let numbering = Numbering {
        records: &records,
        sources,
    };
    let markup = Lines {
        window: Window::usual_lines(),
    };
    let (_, text) = drawn(judging, alloc, &markup, history, numbering, bytes)?;
    Ok(text)
}

/// The status of the history of a text with this number of bytes, and the picture of its witness. An atomic history is drawn whole.
pub(crate) fn witness_drawn<J: Judging>(
    judging: &J,
    alloc: Global,
    history: &History<AnyWriters>,
    bytes: usize,
) -> Result<(Status, Vec<u8>), AllocError>
    requires ready { J.ready }
    ensures { IfOk result (λ answer. (writers : Writers) → IsHistoryBy writers history.now.events → DrawsWitness writers history.now.events answer.0 answer.1.items) }
{
    let (status, found) = judged_witness(judging, alloc, history, bytes)?;
    let text = match found {
        Some((left, numbers)) => picture_of(judging, alloc, &left, &numbers, bytes)?,
        None => picture_of(judging, alloc, history, &[], bytes)?,
    };
    Ok((status, text))
}

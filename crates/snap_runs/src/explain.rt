//! The explanation of a history.
ghost use Rattle.std.specs.Prelude.{◌≡◌, IfOk, length};
ghost use Rattle.snap_core.specs.declared.writers.Writers.{Writers};
ghost use Rattle.snap_core.specs.Bounded.{IsHistoryBy};
ghost use Rattle.snap_runs.specs.Explaining.{ExplainsHistory};

use snap_check::{Judging, Status, status_of};
use snap_core::{AnyWriters, History};
use snap_explain::{Detail, explain_faults};
use snap_index::Index;
use std::alloc::{AllocError, Global};

// The status of a history, and its explanation by its index and the records of its events.
fn explained_by<J: Judging>(
    judging: &J,
    alloc: Global,
    detail: Detail,
    index: &Index<'_, AnyWriters>,
    records: &[u32],
    bytes: usize,
) -> Result<(Status, Vec<u8>), AllocError>
    requires ready { J.ready }
    requires each { length records.now ≡ length index.now }
    ensures { IfOk result (λ answer. (writers : Writers) → IsHistoryBy writers index.now → ExplainsHistory detail writers index.now records.now answer.0 answer.1.items) }
{
    let (tally, chain) = judging.tally_and_chain(alloc, index, bytes)?;
    let order = judging.order(alloc, index, &tally, chain, bytes)?;
    let text = explain_faults(alloc, index, &tally, records, order.as_deref(), detail)?;
    Ok((status_of(index, &tally), text))
}

/// The status of the history of a text with this number of bytes, and its explanation by the records of its events.
pub(crate) fn explained<J: Judging>(
    judging: &J,
    alloc: Global,
    detail: Detail,
    history: &History<AnyWriters>,
    records: &[u32],
    bytes: usize,
) -> Result<(Status, Vec<u8>), AllocError>
    requires ready { J.ready }
    requires each { length records.now ≡ length history.now.events }
    ensures { IfOk result (λ answer. (writers : Writers) → IsHistoryBy writers history.now.events → ExplainsHistory detail writers history.now.events records.now answer.0 answer.1.items) }
{
    let index = Index::build(alloc, history)?;
    explained_by(judging, alloc, detail, &index, records, bytes)
}

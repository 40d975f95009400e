//! What a history is cut down to, and the numbers that the calls of that have in the history.
ghost use Rattle.std.specs.Prelude.{◌≡◌, ◌≤◌, IfOk};
ghost use Rattle.std.specs.List.{range_with_len};
ghost use Rattle.snap_core.specs.declared.writers.Writers.{Writers};
ghost use Rattle.snap_core.specs.Bounded.{IsHistoryBy};
ghost use Rattle.snap_core.specs.Calls.{calls_of, views_of};
ghost use Rattle.snap_core.specs.Events.{event_cap};
ghost use Rattle.snap_conditions.specs.Tally.{tally_of};
ghost use Rattle.snap_check.specs.Verdicts.{HasStatus};
ghost use Rattle.snap_runs.specs.Cutting.{IsNumbered};

use snap_check::{Judging, Status, status_of};
use snap_conditions::Tally;
use snap_core::{AnyWriters, History};
use snap_index::Index;
use snap_witness::{kept_calls, witness};
use std::alloc::{AllocError, Global};

// The numbers of the records of this number of events, one after the other under the header.
pub(crate) fn records_of(alloc: Global, count: usize) -> Result<Vec<u32>, AllocError>
    requires { count ≤ event_cap }
    ensures { IfOk result (λ records. records.items ≡ range_with_len 2 count) }
{
    (2..count as u32 + 2).collect(alloc)
}

// The witness of the first fault of a history, and the numbers that the calls of the witness have in the history; none if it is atomic.
pub(crate) fn numbered_witness(
    alloc: Global,
    index: &Index<'_, AnyWriters>,
    tally: &Tally,
) -> Result<Option<(History<AnyWriters>, Vec<u32>)>, AllocError>
    requires tally { tally.now ≡ tally_of (calls_of index.now) (views_of (calls_of index.now)) }
    ensures { IfOk result (IsNumbered index.now) }
{
    // what is known of the history that the index is of
    let _events = index.event_count();
    let Some(left) = witness(alloc, index, tally)? else {
        return Ok(None);
    };
    let Some(numbers) = kept_calls(alloc, index, tally)? else {
        unreachable!()
    };
    Ok(Some((left.into_any(), numbers)))
}

/// The status of the history of a text with this number of bytes, and its witness with the numbers that the calls of that have in the
/// history; none if it is atomic.
pub(crate) fn judged_witness<J: Judging>(
    judging: &J,
    alloc: Global,
    history: &History<AnyWriters>,
    bytes: usize,
) -> Result<(Status, Option<(History<AnyWriters>, Vec<u32>)>), AllocError>
    requires ready { J.ready }
    ensures status { IfOk result (λ answer. (writers : Writers) → IsHistoryBy writers history.now.events → HasStatus writers history.now.events answer.0) }
    ensures witness { IfOk result (λ answer. IsNumbered history.now.events answer.1) }
{
    let index = Index::build(alloc, history)?;
    let (tally, _chain) = judging.tally_and_chain(alloc, &index, bytes)?;
    let found = numbered_witness(alloc, &index, &tally)?;
    Ok((status_of(&index, &tally), found))
}

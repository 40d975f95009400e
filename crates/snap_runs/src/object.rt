//! The JSON object of a text.
ghost use Rattle.std.specs.Prelude.{◌≡◌, IfOk, length, string_bytes};
ghost use Rattle.snap_core.specs.declared.writers.Writers.{Writers};
ghost use Rattle.snap_core.specs.Bounded.{IsHistoryBy};
ghost use Rattle.snap_json.specs.Objects.{refusal_json};
ghost use Rattle.snap_json.specs.Values.{IsLineOf};
ghost use Rattle.snap_check.specs.Statuses.{code_of};
ghost use Rattle.snap_check.specs.declared.status.Status.TheVariants.{Refused};
ghost use Rattle.snap_runs.specs.Telling.{IsToldHistory, TellsHistory, object_name as spec_object_name};

use crate::question::Named;
use snap_check::{Judging, Status, status_of};
use snap_core::{AnyWriters, History};
use snap_index::Index;
use snap_json::{few_views_line, history_line, refusal_line};
use snap_text::TextFault;
use std::alloc::{AllocError, Global};

/// A name as an object has it, in Unicode.
pub fn object_name(alloc: Global, name: &[u8]) -> Result<String, AllocError>
    ensures { IfOk result (λ text. string_bytes text ≡ spec_object_name name.now) }
{
    String::from_utf8_lossy(alloc, name)
}

// The status of a history, and its object by the records of its events.
fn object_by<J: Judging>(
    judging: &J,
    alloc: Global,
    name: &str,
    index: &Index<'_, AnyWriters>,
    records: &[u32],
    bytes: usize,
) -> Result<(Status, Vec<u8>), AllocError>
    requires ready { J.ready }
    requires each { length records.now ≡ length index.now }
    ensures { IfOk result (λ answer. (writers : Writers) → IsHistoryBy writers index.now → IsToldHistory name.now writers index.now records.now answer.0 answer.1.items) }
{
    // what is known of the history that the index is of
    let _events = index.event_count();
    let (tally, _chain) = judging.tally_and_chain(alloc, index, bytes)?;
    let status = status_of(index, &tally);
    let line = history_line(alloc, name, status.code(), index, &tally, records)?;
    Ok((status, line))
}

/// The status of the history of a text with this number of bytes, and its object by the records of its events.
pub(crate) fn object_of<J: Judging>(
    judging: &J,
    alloc: Global,
    named: Named<'_>,
    history: &History<AnyWriters>,
    records: &[u32],
    bytes: usize,
) -> Result<(Status, Vec<u8>), AllocError>
    requires ready { J.ready }
    requires each { length records.now ≡ length history.now.events }
    ensures { IfOk result (λ answer. (writers : Writers) → IsHistoryBy writers history.now.events → TellsHistory (spec_object_name named.entry.name.now) named.entry.views writers history.now.events records.now answer.0 answer.1.items) }
{
    let shown = object_name(alloc, named.name)?;
    let index = Index::build(alloc, history)?;
    let views = index.view_count();
    if views < named.views {
        let code = Status::Refused.code();
        let line = few_views_line(alloc, &shown, code, views, named.views)?;
        return Ok((Status::Refused, line));
    }
    object_by(judging, alloc, &shown, &index, records, bytes)
}

/// The object of a text that is not a history.
pub(crate) fn refused_object(
    alloc: Global,
    name: &[u8],
    place: u32,
    fault: TextFault,
) -> Result<Vec<u8>, AllocError>
    ensures { IfOk result (λ line. IsLineOf (refusal_json (spec_object_name name.now) (code_of Refused) place fault) line.items) }
{
    let shown = object_name(alloc, name)?;
    refusal_line(alloc, &shown, Status::Refused.code(), place, fault)
}

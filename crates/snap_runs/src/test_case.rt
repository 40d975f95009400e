//! The test case of a text, in a document of JUnit.
ghost use Rattle.std.specs.Prelude.{◌≡◌, IfOk, length};
ghost use Rattle.snap_core.specs.declared.writers.Writers.{Writers};
ghost use Rattle.snap_core.specs.Bounded.{IsHistoryBy};
ghost use Rattle.snap_explain.specs.TestCases.{ended_case};
ghost use Rattle.snap_explain.specs.declared.test_case.Ending.TheVariants.{Failure};
ghost use Rattle.snap_runs.specs.TestCases.{IsHistoryCase, IsJudgedCase, IsRefusalCase, few_views_text};

use crate::question::Named;
use snap_check::{Judging, Status, status_of};
use snap_conditions::is_atomic;
use snap_core::{AnyWriters, History, Limit};
use snap_explain::{Ending, Entries, ended_case, explain, explain_refusal, passed_case};
use snap_index::Index;
use snap_report::put_number;
use snap_text::TextFault;
use std::alloc::{AllocError, Global};

// The status of a history, and its case by the records of its events.
fn case_by<J: Judging>(
    judging: &J,
    alloc: Global,
    name: &[u8],
    index: &Index<'_, AnyWriters>,
    records: &[u32],
    bytes: usize,
) -> Result<(Status, Vec<u8>), AllocError>
    requires ready { J.ready }
    requires each { length records.now ≡ length index.now }
    ensures { IfOk result (λ answer. (writers : Writers) → IsHistoryBy writers index.now → IsJudgedCase name.now writers index.now records.now answer.0 answer.1.items) }
{
    // what is known of the history that the index is of
    let _events = index.event_count();
    let (tally, _chain) = judging.tally_and_chain(alloc, index, bytes)?;
    let status = status_of(index, &tally);
    if is_atomic(&tally) {
        let text = passed_case(alloc, name)?;
        return Ok((status, text));
    }
    let said = explain(alloc, index, &tally, records, None, Entries::OfFault)?;
    let text = ended_case(alloc, Ending::Failure, name, &said)?;
    Ok((status, text))
}

// The case of a history with fewer completed views than it needs.
fn few_views_case(alloc: Global, name: &[u8], least: u32) -> Result<Vec<u8>, AllocError>
    ensures { IfOk result (λ text. text.items ≡ ended_case Failure name.now (few_views_text least)) }
{
    let mut said = Vec::new(alloc);
    put_number(&mut said, b"refused: fewer than ", u64::from(least))?;
    said.extend_from_slice(b" views\n")?;
    ended_case(alloc, Ending::Failure, name, &said)
}

/// The status of the history of a text with this number of bytes, and its test case by the records of its events. It has no status if it
/// has too few completed views.
pub(crate) fn judged_case<J: Judging>(
    judging: &J,
    alloc: Global,
    named: Named<'_>,
    history: &History<AnyWriters>,
    records: &[u32],
    bytes: usize,
) -> Result<(Option<Status>, Vec<u8>), AllocError>
    requires ready { J.ready }
    requires each { length records.now ≡ length history.now.events }
    ensures { IfOk result (λ answer. (writers : Writers) → IsHistoryBy writers history.now.events → IsHistoryCase named.entry.name.now named.entry.views writers history.now.events records.now answer.0 answer.1.items) }
{
    let index = Index::build(alloc, history)?;
    if index.view_count() < named.views {
        let text = few_views_case(alloc, named.name, named.views)?;
        return Ok((None, text));
    }
    let (status, text) = case_by(judging, alloc, named.name, &index, records, bytes)?;
    Ok((Some(status), text))
}

/// The test case of a text that is not a history, by its first fault and the place of that.
pub(crate) fn refused_case(
    alloc: Global,
    name: &[u8],
    text: &[u8],
    place: u32,
    fault: TextFault,
    limit: Limit,
) -> Result<Vec<u8>, AllocError>
    ensures { IfOk result (λ out. IsRefusalCase name.now limit text.now place fault out.items) }
{
    let said = explain_refusal(alloc, text, place, fault, limit)?;
    ended_case(alloc, Ending::Error, name, &said)
}

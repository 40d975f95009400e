//! The answers to a question: that of a history, and that of a text that is not one.
ghost use Rattle.std.specs.Prelude.{◌≡◌, IfOk, IsSome, Some, length};
ghost use Rattle.snap_core.specs.declared.writers.Writers.{Writers};
ghost use Rattle.snap_core.specs.Bounded.{IsHistoryBy};
ghost use Rattle.snap_runs.specs.Answers.{IsAlwaysAnswered, IsAnswerOf, IsRefusalOf};

use crate::draw::answered;
use crate::draw_witness::witness_drawn;
use crate::explain::explained;
use crate::map::mapped;
use crate::markup::{Explained, Lines, Page, Svg};
use crate::object::{object_of, refused_object};
use crate::question::Question;
use crate::shrink::shrunk;
use crate::stats::counted;
use crate::test_case::{judged_case, refused_case};
use snap_check::{Judging, Status};
use snap_core::{AnyWriters, History, Limit};
use snap_explain::explain_refusal;
use snap_report::refusal_text;
use snap_text::TextFault;
use std::alloc::{AllocError, Global};

// An answer that has a status.
fn certain(answer: (Status, Vec<u8>)) -> (Option<Status>, Vec<u8>)
    ensures { result ≡ (Some answer.0, answer.1) }
{
    let (status, text) = answer;
    (Some(status), text)
}

/// The answer to a question about the history of a text with this number of bytes, by the records of its events.
pub(crate) fn answer_of<J: Judging>(
    judging: &J,
    alloc: Global,
    question: Question<'_>,
    history: &History<AnyWriters>,
    records: &[u32],
    bytes: usize,
) -> Result<(Option<Status>, Vec<u8>), AllocError>
    requires ready { J.ready }
    requires each { length records.now ≡ length history.now.events }
    ensures answer { IfOk result (λ answer. (writers : Writers) → IsHistoryBy writers history.now.events → IsAnswerOf question.entry writers history.now.events records.now answer.0 answer.1.items) }
    ensures certain { IsAlwaysAnswered question.entry → IfOk result (λ answer. IsSome answer.0) }
{
    match question {
        Question::Explanation(detail) => {
            Ok(certain(explained(judging, alloc, detail, history, records, bytes)?))
        }
        Question::ExplanationDrawn(listed) => {
            let markup = Explained { listed };
            answered(judging, alloc, &markup, history, records, bytes)
        }
        Question::Object(named) => {
            Ok(certain(object_of(judging, alloc, named, history, records, bytes)?))
        }
        Question::TestCase(named) => judged_case(judging, alloc, named, history, records, bytes),
        Question::Witness => Ok(certain(shrunk(judging, alloc, history, bytes)?)),
        Question::WitnessDrawn => Ok(certain(witness_drawn(judging, alloc, history, bytes)?)),
        Question::WitnessMap => Ok(certain(mapped(judging, alloc, history, records, bytes)?)),
        Question::Page(scheme, window) => {
            let markup = Page { scheme, window };
            answered(judging, alloc, &markup, history, records, bytes)
        }
        Question::Svg(scheme, window) => {
            let markup = Svg { scheme, window };
            answered(judging, alloc, &markup, history, records, bytes)
        }
        Question::Lines(window) => {
            let markup = Lines { window };
            answered(judging, alloc, &markup, history, records, bytes)
        }
        Question::Counts(name) => Ok(certain(counted(alloc, name, history)?)),
    }
}

/// What is written of a text that is not a history, by its first fault and the place of that.
pub(crate) fn refusal_of(
    alloc: Global,
    question: Question<'_>,
    text: &[u8],
    place: u32,
    fault: TextFault,
    limit: Limit,
) -> Result<Vec<u8>, AllocError>
    ensures { IfOk result (λ out. IsRefusalOf question.entry limit text.now place fault out.items) }
{
    match question {
        Question::Object(named) => refused_object(alloc, named.name, place, fault),
        Question::TestCase(named) => refused_case(alloc, named.name, text, place, fault, limit),
        Question::Counts(Some(name)) => refused_object(alloc, name, place, fault),
        Question::Counts(None)
        | Question::Witness
        | Question::WitnessDrawn
        | Question::WitnessMap => { refusal_text(alloc, place, fault) }
        Question::Explanation(_)
        | Question::ExplanationDrawn(_)
        | Question::Page(_, _)
        | Question::Svg(_, _)
        | Question::Lines(_) => explain_refusal(alloc, text, place, fault, limit),
    }
}

//! The run of a question: it reads a text, and writes the answer.
ghost use Rattle.std.specs.Prelude.{IfOk, IsSome};
ghost use Rattle.snap_core.specs.Counting.{failures_in, inner_of};
ghost use Rattle.snap_check.specs.Runs.{JudgeCounts, JudgesBy, RunCounts, WroteBy};
ghost use Rattle.snap_runs.specs.Answers.{IsAlwaysAnswered, IsAnswerTo};

use crate::answers::{answer_of, refusal_of};
use crate::question::Question;
use snap_check::{Judging, RunFault, Status, Workers, workers_of};
use snap_core::{Counted, Limit};
use snap_csv::ReadRefusal;
use snap_threads::Cutting;
use std::alloc::Global;
use std::io::{Read, Write};
use std::thread::Threads;

/// The status of the text that a reader has, and what is written of it: what `run` answers and writes. There is no status if a window
/// names a call that the history lacks, or if it has too few completed views for its test case.
pub fn answer_to<J: Judging, R: Read>(
    judging: &J,
    alloc: Global,
    question: Question<'_>,
    reader: &mut Counted<R>,
    limit: Limit,
) -> Result<(Option<Status>, Vec<u8>), RunFault>
    requires ready { J.ready }
    ensures answer { JudgesBy (IsAnswerTo question.entry limit) (R.remaining (inner_of reader.old)) result }
    ensures certain { IsAlwaysAnswered question.entry → IfOk result (λ answer. IsSome answer.0) }
    ensures counts { JudgeCounts (failures_in reader.old) (failures_in reader.new) result }
{
    let mut room = Vec::new(alloc);
    match judging.read(alloc, reader, &mut room, limit) {
        Ok((history, records)) => {
            let bytes = room.len();
            Ok(answer_of(judging, alloc, question, &history, &records, bytes)?)
        }
        Err(ReadRefusal::Text { place, fault }) => {
            let text = refusal_of(alloc, question, &room, place, fault, limit)?;
            Ok((Some(Status::Refused), text))
        }
        Err(ReadRefusal::Device) => Err(RunFault::Read),
        Err(ReadRefusal::Memory) => Err(RunFault::Memory),
    }
}

// The workers of a question. A picture is usually made alone, so more workers share the pieces of a long text.
fn workers_for<'r, Rt: Threads + Sync>(rt: &'r Rt, question: &Question<'_>) -> Workers<'r, Rt> {
    let usual = Cutting::usual();
    let cutting = match question {
        Question::ExplanationDrawn(_)
        | Question::WitnessDrawn
        | Question::Page(_, _)
        | Question::Svg(_, _)
        | Question::Lines(_) => Cutting::new(8, 4).unwrap_or(usual),
        _ => usual,
    };
    workers_of(rt, cutting)
}

/// Reads a text, and writes the answer to a question about it. The status is that of `check_run`, but for what the question says. A
/// history may have as many events as the limit says, and its text 1,024 times as many bytes.
///
/// Nothing is written until the whole answer is built. After `Read` or `Memory` nothing went out. After `Write` a prefix of the answer
/// went out, perhaps all of it. The writer is flushed once at the end. The run returns if the reader and the writer do.
pub fn run<Rt: Threads + Sync, R: Read, W: Write>(
    rt: &Rt,
    alloc: Global,
    question: Question<'_>,
    reader: &mut Counted<R>,
    writer: &mut Counted<W>,
    limit: Limit,
) -> Result<Option<Status>, RunFault>
    ensures wrote { WroteBy (IsAnswerTo question.entry limit) (R.remaining (inner_of reader.old)) (W.contents (inner_of writer.old)) (W.contents (inner_of writer.new)) result }
    ensures certain { IsAlwaysAnswered question.entry → IfOk result (λ status. IsSome status) }
    ensures counts { RunCounts (failures_in reader.old) (failures_in reader.new) (failures_in writer.old) (failures_in writer.new) result }
{
    let workers = workers_for(rt, &question);
    let (status, text) = answer_to(&workers, alloc, question, reader, limit)?;
    match writer.send(&text) {
        Ok(()) => Ok(status),
        Err(_) => Err(RunFault::Write),
    }
}

//! The run over a text of a store: it reads and cuts it, and writes the answer.
ghost use Rattle.std.specs.Prelude.{◌≡◌, IfOk, IsSome, length};
ghost use Rattle.snap_core.specs.Bounded.{IsHistoryBy};
ghost use Rattle.snap_core.specs.Counting.{failures_in, inner_of};
ghost use Rattle.snap_core.specs.declared.writers.Writers.TheVariants.{Many};
ghost use Rattle.snap_check.specs.Options.{IsWritten};
ghost use Rattle.snap_check.specs.Runs.{JudgeCounts, JudgesBy, RunCounts, WroteBy};
ghost use Rattle.snap_report.specs.Lines.{line_text};
ghost use Rattle.snap_runs.specs.Answers.{IsCertain};
ghost use Rattle.snap_runs.specs.StoreAnswers.{IsAskedOf, IsCertainlyAsked, IsStoreAnswer, contradiction_line};

use crate::answers::answer_of;
use crate::asked::Asked;
use crate::store_text::{StoreText, read_store};
use snap_check::{CheckOptions, Checking, RunFault, Status, verdict, workers_of};
use snap_core::{AnyWriters, Counted, History, Limit, OpenGate};
use snap_csv::ReadRefusal;
use snap_report::{put_number, refusal_text};
use snap_threads::Cutting;
use std::alloc::{AllocError, Global};
use std::io::{Read, Write};
use std::thread::Threads;

// The line of a contradiction.
fn contradiction_text(alloc: Global, ended: u32, begun: u32) -> Result<Vec<u8>, AllocError>
    ensures { IfOk result (λ text. text.items ≡ line_text (contradiction_line ended begun)) }
{
    let mut out = Vec::new(alloc);
    put_number(&mut out, b"contradiction ended record ", u64::from(ended))?;
    put_number(&mut out, b" begun record ", u64::from(begun))?;
    out.extend_from_slice(b"\n")?;
    Ok(out)
}

// The status of a history, and its report or the lines of its verdicts.
fn judged<Rt: Threads + Sync>(
    rt: &Rt,
    alloc: Global,
    history: &History<AnyWriters>,
    quiet: bool,
) -> Result<(Option<Status>, Vec<u8>), AllocError>
    ensures answer { IfOk result (λ answer. IsCertain (IsWritten quiet Many history.now.events) answer.0 answer.1.items) }
    ensures certain { IfOk result (λ answer. IsSome answer.0) }
{
    let options = CheckOptions {
        quiet,
        ..CheckOptions::plain()
    };
    let checking = Checking {
        cutting: Cutting::usual(),
        gate: &OpenGate,
        options,
    };
    verdict(rt, alloc, history, Vec::new(alloc), &checking)
}

// The answer to what is asked of the cut history of a text with this number of bytes, by the records of its events.
fn asked_of<Rt: Threads + Sync>(
    rt: &Rt,
    alloc: Global,
    asked: Asked<'_>,
    history: &History<AnyWriters>,
    records: &[u32],
    bytes: usize,
) -> Result<(Option<Status>, Vec<u8>), AllocError>
    requires each { length records.now ≡ length history.now.events }
    ensures answer { IfOk result (λ answer. IsHistoryBy Many history.now.events → IsAskedOf asked.entry history.now.events records.now answer.0 answer.1.items) }
    ensures certain { IsCertainlyAsked asked.entry → IfOk result (λ answer. IsSome answer.0) }
{
    match asked {
        Asked::Report => judged(rt, alloc, history, false),
        Asked::Verdicts => judged(rt, alloc, history, true),
        Asked::Answer(question) => {
            let workers = workers_of(rt, Cutting::usual());
            answer_of(&workers, alloc, question, history, records, bytes)
        }
    }
}

// The status of the text of a store that a reader has, and what is written of it.
fn store_answer<Rt: Threads + Sync, R: Read>(
    rt: &Rt,
    alloc: Global,
    asked: Asked<'_>,
    reader: &mut Counted<R>,
    limit: Limit,
) -> Result<(Option<Status>, Vec<u8>), RunFault>
    ensures answer { JudgesBy (IsStoreAnswer asked.entry limit) (R.remaining (inner_of reader.old)) result }
    ensures certain { IsCertainlyAsked asked.entry → IfOk result (λ answer. IsSome answer.0) }
    ensures counts { JudgeCounts (failures_in reader.old) (failures_in reader.new) result }
{
    let mut room = Vec::new(alloc);
    match read_store(alloc, reader, &mut room, limit) {
        Ok(StoreText::History(history, records)) => {
            let bytes = room.len();
            Ok(asked_of(rt, alloc, asked, &history, &records, bytes)?)
        }
        Ok(StoreText::Contradiction { ended, begun }) => {
            let text = contradiction_text(alloc, ended, begun)?;
            Ok((Some(Status::Irregular), text))
        }
        Err(ReadRefusal::Text { place, fault }) => {
            let text = refusal_text(alloc, place, fault)?;
            Ok((Some(Status::Refused), text))
        }
        Err(ReadRefusal::Device) => Err(RunFault::Read),
        Err(ReadRefusal::Memory) => Err(RunFault::Memory),
    }
}

/// Reads a text with stamps of a store that tells a version of each update, cuts the updates to the times that the versions allow, and
/// writes what is asked of the history. The history has many writers of a component, and at most as many events as the limit.
///
/// If two updates contradict time, the line of the contradiction is written, with the records of the end of the one and the begin of the
/// other, and the status is that of a history that is not regular. If the text has a fault, the line of that is written.
///
/// What `run` promises about devices, memory and the writer is true here too.
pub fn run_cut<Rt: Threads + Sync, R: Read, W: Write>(
    rt: &Rt,
    alloc: Global,
    asked: Asked<'_>,
    reader: &mut Counted<R>,
    writer: &mut Counted<W>,
    limit: Limit,
) -> Result<Option<Status>, RunFault>
    ensures wrote { WroteBy (IsStoreAnswer asked.entry limit) (R.remaining (inner_of reader.old)) (W.contents (inner_of writer.old)) (W.contents (inner_of writer.new)) result }
    ensures certain { IsCertainlyAsked asked.entry → IfOk result (λ status. IsSome status) }
    ensures counts { RunCounts (failures_in reader.old) (failures_in reader.new) (failures_in writer.old) (failures_in writer.new) result }
{
    let (status, text) = store_answer(rt, alloc, asked, reader, limit)?;
    match writer.send(&text) {
        Ok(()) => Ok(status),
        Err(_) => Err(RunFault::Write),
    }
}

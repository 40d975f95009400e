//! A check, from a reader to a writer.
ghost use Rattle.std.specs.Prelude.{◌≡◌, IfOk, IsSome};
ghost use Rattle.snap_core.specs.Counting.{failures_in, inner_of};
ghost use Rattle.snap_core.specs.declared.writers.Writers.{Writers};
ghost use Rattle.snap_core.specs.Bounded.{IsHistoryBy};
ghost use Rattle.snap_check.specs.Options.{IsReportWith, IsVerdictWith, IsWritten};
ghost use Rattle.snap_check.specs.Runs.{JudgeCounts, JudgesBy, RunCounts, Wrote, WroteBy};

use crate::fault::RunFault;
use crate::judge::{brief_verdict_of, order_by, verdict_of};
use crate::options::{CheckOptions, Checking};
use crate::reading::{Reading, read_in};
use crate::status::Status;
use crate::workers::cutting_for;
use snap_core::{Counted, Gate, History, Ownership};
use snap_index::Index;
use snap_pairs::tally_and_chain;
use snap_threads::Cutting;
use std::alloc::{AllocError, Global};
use std::io::{Read, Write};
use std::thread::Threads;

// The status of a history by its index, and what is written of its report, in the memory of a vector.
fn judged<Rt: Threads + Sync, G: Gate, O: Ownership + Sync>(
    rt: &Rt,
    alloc: Global,
    index: &Index<'_, O>,
    room: Vec<u8>,
    checking: &Checking<'_, G>,
) -> Result<(Status, Vec<u8>), AllocError>
    ensures { IfOk result (λ answer. (writers : Writers) → IsHistoryBy writers index.now → IsWritten checking.now.options.quiet writers index.now answer.0 answer.1.items) }
{
    let (tally, chain) = tally_and_chain(rt, alloc, index, checking.cutting, checking.gate)?;
    if checking.options.quiet {
        return brief_verdict_of(alloc, index, &tally);
    }
    let workers = checking.cutting.workers();
    let order = order_by(rt, alloc, index, &tally, chain, workers)?;
    verdict_of(rt, index, &tally, order.as_deref(), room, workers)
}

/// The status of a history, and what is written of its report, in the memory of a vector. The answer has no status if the history
/// has fewer completed views than are asked for. Then nothing is to be written.
pub fn verdict<Rt: Threads + Sync, G: Gate, O: Ownership + Sync>(
    rt: &Rt,
    alloc: Global,
    history: &History<O>,
    room: Vec<u8>,
    checking: &Checking<'_, G>,
) -> Result<(Option<Status>, Vec<u8>), AllocError>
    ensures verdict { IfOk result (λ answer. IsVerdictWith checking.now.options O.writers history.now.events answer.0 answer.1.items) }
    ensures by_writers { IfOk result (λ answer. (writers : Writers) → IsHistoryBy writers history.now.events → IsVerdictWith checking.now.options writers history.now.events answer.0 answer.1.items) }
{
    // this call shows what is known of the history
    let _events = history.events();
    let index = Index::build(alloc, history)?;
    if index.view_count() < checking.options.views {
        return Ok((None, Vec::new(alloc)));
    }
    let (status, text) = judged(rt, alloc, &index, room, checking)?;
    Ok((Some(status), text))
}

// The status of a reader's text, and what is written of its report.
fn judge<Rt: Threads + Sync, R: Read, G: Gate>(
    rt: &Rt,
    alloc: Global,
    reader: &mut Counted<R>,
    checking: &Checking<'_, G>,
) -> Result<(Option<Status>, Vec<u8>), RunFault>
    ensures answer { JudgesBy (IsReportWith checking.now.options) (R.remaining (inner_of reader.old)) result }
    ensures counts { JudgeCounts (failures_in reader.old) (failures_in reader.new) result }
    ensures given { checking.now.options.views ≡ 0 → IfOk result (λ answer. IsSome answer.0) }
{
    // the text is not needed after it is read, and its memory serves for the report
    let mut room = Vec::new(alloc);
    let Checking {
        cutting,
        gate,
        options,
    } = *checking;
    match read_in(rt, alloc, reader, &mut room, options.limit, cutting)? {
        Reading::History(history) => {
            let cutting = cutting_for(room.len(), options.alone_below, options.finer, cutting);
            let checking = Checking {
                cutting,
                gate,
                options,
            };
            Ok(verdict(rt, alloc, &history, room, &checking)?)
        }
        Reading::Refusal(line) => Ok((Some(Status::Refused), line)),
    }
}

/// A check as `check_run` makes it, with options. It answers `None` if the text is a history with fewer completed views than are
/// asked for; then it writes nothing. Otherwise the status is that of `check_run`.
///
/// If quiet, it writes only the lines of the three verdicts of a history's report. The line of a text that is not a history stays
/// as it is. The limit of events replaces the usual one, and 1,024 bytes for each event replace the usual limit of bytes. A text of
/// fewer bytes than `alone_below` has one worker and one piece. Any other text has the workers of the cutting, and the pieces of
/// [`cutting_for`].
///
/// What `check_run` promises about devices, memory and waiting is true here too.
pub fn check_run_with<Rt: Threads + Sync, R: Read, W: Write, G: Gate>(
    rt: &Rt,
    alloc: Global,
    reader: &mut Counted<R>,
    writer: &mut Counted<W>,
    checking: &Checking<'_, G>,
) -> Result<Option<Status>, RunFault>
    ensures wrote { WroteBy (IsReportWith checking.now.options) (R.remaining (inner_of reader.old)) (W.contents (inner_of writer.old)) (W.contents (inner_of writer.new)) result }
    ensures counts { RunCounts (failures_in reader.old) (failures_in reader.new) (failures_in writer.old) (failures_in writer.new) result }
    ensures given { checking.now.options.views ≡ 0 → IfOk result (λ status. IsSome status) }
{
    let (status, text) = judge(rt, alloc, reader, checking)?;
    match writer.send(&text) {
        Ok(()) => Ok(status),
        Err(_) => Err(RunFault::Write),
    }
}

/// Reads a history and writes its report, or the line of its first fault. If it answers with a status, what went out is the report
/// of the text that the reader had. The status is that report's, whatever the cutting and the gate are.
///
/// Nothing is written until the whole report is built. After `Read` or `Memory` nothing went out, and after `Write` a front of the
/// report, or all of it. The first error of a device ends the run. `Read` and `Write` come only if the count of that device rose,
/// or was at its last value. The writer is flushed once at the end. The run returns if the reader, the writer and the gate return.
pub fn check_run<Rt: Threads + Sync, R: Read, W: Write, G: Gate>(
    rt: &Rt,
    alloc: Global,
    reader: &mut Counted<R>,
    writer: &mut Counted<W>,
    cutting: Cutting,
    gate: &G,
) -> Result<Status, RunFault>
    ensures wrote { Wrote (R.remaining (inner_of reader.old)) (W.contents (inner_of writer.old)) (W.contents (inner_of writer.new)) result }
    ensures counts { RunCounts (failures_in reader.old) (failures_in reader.new) (failures_in writer.old) (failures_in writer.new) result }
{
    let options = CheckOptions::plain();
    let checking = Checking {
        cutting,
        gate,
        options,
    };
    match check_run_with(rt, alloc, reader, writer, &checking) {
        Ok(Some(status)) => Ok(status),
        // no number of views is less than 0
        Ok(None) => unreachable!(),
        Err(fault) => Err(fault),
    }
}

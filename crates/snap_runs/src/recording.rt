//! The run that records a history.
ghost use Rattle.std.specs.Prelude.{◌≡◌, ◌<◌, ◌≤◌, IfOk, OnOk, length, true};
ghost use Rattle.std.specs.List.Sorted.{IsStrictlyIncreasing};
ghost use Rattle.snap_core.specs.declared.writers.Writers.{Writers};
ghost use Rattle.snap_core.specs.Bounded.{IsHistoryBy};
ghost use Rattle.snap_core.specs.Counting.{failures_in, inner_of};
ghost use Rattle.snap_format.specs.Layout.{history_text, stamped_text};
ghost use Rattle.snap_record.specs.Plans.{AreWorkers, HasNoViews};
ghost use Rattle.snap_runs.specs.Recordings.{HasStamps, IsRecorded, IsRecordingOf, IsStampedRecording, WriteCounts, WroteAs};
ghost use Rattle.snap_check.specs.Verdicts.{IsVerdict};
ghost use Rattle.snap_check.specs.declared.status.Status.TheVariants.{Atomic, Recorded};

use snap_check::{CheckOptions, Checking, RunFault, Status, verdict};
use snap_core::{AnyWriters, Counted, Gate, History, OpenGate};
use snap_csv::{write_history, write_history_stamped};
use snap_record::{Plan, Recording, record_plan};
use snap_threads::Cutting;
use std::alloc::{AllocError, Global};
use std::io::Write;
use std::sync::Wait;
use std::thread::Threads;

// The history of a run of the plan, and the stamps of its events.
fn recorded<Rt: Threads + Wait + Sync, G: Gate>(
    rt: &Rt,
    alloc: Global,
    plan: &Plan,
    gate: &G,
) -> Result<(History<AnyWriters>, Vec<u64>), AllocError>
    ensures workers { OnOk result (AreWorkers (length plan.now.scripts)) }
    ensures history { IfOk result (λ r. IsRecordingOf plan.now.scripts r.0.events) }
    ensures stamps { IfOk result (λ r. HasStamps plan.now.scripts r.0.events r.1.items) }
{
    let Ok(recording) = record_plan(rt, alloc, plan, gate) else {
        return Err(AllocError);
    };
    let Recording {
        history,
        interfered: _,
        stamps,
    } = recording;
    let _events = history.events();
    Ok((history.into_any(), stamps))
}

// Writes the text of a history, and answers a status.
fn write_text<W: Write>(
    alloc: Global,
    history: &History<AnyWriters>,
    status: Status,
    writer: &mut Counted<W>,
) -> Result<Status, RunFault>
    ensures wrote { WroteAs (λ answer out. (answer ≡ status) × (out ≡ history_text history.now.events))
        (W.contents (inner_of writer.old)) (W.contents (inner_of writer.new)) result }
    ensures counts { WriteCounts (failures_in writer.old) (failures_in writer.new) result }
{
    write_history(alloc, writer, history)?;
    Ok(status)
}

// Writes the text of a history with a stamp for each event.
fn write_stamped_text<W: Write>(
    alloc: Global,
    history: &History<AnyWriters>,
    stamps: &[u64],
    writer: &mut Counted<W>,
) -> Result<Status, RunFault>
    requires each { length stamps.now ≡ length history.now.events }
    requires rising { IsStrictlyIncreasing stamps.now }
    ensures wrote { WroteAs (λ status out. (status ≡ Recorded) × (out ≡ stamped_text stamps.now history.now.events))
        (W.contents (inner_of writer.old)) (W.contents (inner_of writer.new)) result }
    ensures counts { WriteCounts (failures_in writer.old) (failures_in writer.new) result }
{
    write_history_stamped(alloc, writer, history, stamps)?;
    Ok(Status::Recorded)
}

// Judges a history, and writes its report.
fn write_report<Rt: Threads + Wait + Sync, W: Write>(
    rt: &Rt,
    alloc: Global,
    history: &History<AnyWriters>,
    writer: &mut Counted<W>,
    cutting: Cutting,
) -> Result<Status, RunFault>
    ensures wrote { WroteAs (λ status out. (writers : Writers) → IsHistoryBy writers history.now.events → IsVerdict writers history.now.events status out) (W.contents (inner_of writer.old)) (W.contents (inner_of writer.new)) result }
    ensures counts { WriteCounts (failures_in writer.old) (failures_in writer.new) result }
{
    // this call shows what is known of the history
    let _events = history.events();
    let room = Vec::new(alloc);
    let checking = Checking {
        cutting,
        gate: &OpenGate,
        options: CheckOptions::plain(),
    };
    let (answer, text) = verdict(rt, alloc, history, room, &checking)?;
    let Some(status) = answer else {
        // no number of views is too small
        unreachable!()
    };
    match writer.send(&text) {
        Ok(()) => Ok(status),
        Err(_) => Err(RunFault::Write),
    }
}

/// Records a run of the plan on a board, and writes its history as text, with the status `Recorded`. With `judge` it writes the
/// history's report instead of the text, and the status is that report's, `Atomic` or `Regular`. The workers call the gate. The
/// judge has the cutting, and no gate.
///
/// The history is regular and monotone, and has no pending call. The process of a worker's number has the calls of that worker's
/// script in their order, each once, and no other. Scans that were interfered with are left out. Another run may give another
/// history. If no script has a collect, the history is atomic, and so is the verdict.
///
/// Nothing is written until the whole text or report is built. After `Memory` nothing went out, and the writer's count of failures
/// is unchanged. After `Write` a prefix went out, perhaps all of it, and that count rose, or had saturated. `Read` is never
/// answered. The writer is flushed once at the end. The run waits for its workers, and so for the gate.
pub fn record_run<Rt: Threads + Wait + Sync, W: Write, G: Gate>(
    rt: &Rt,
    alloc: Global,
    plan: &Plan,
    judge: bool,
    writer: &mut Counted<W>,
    cutting: Cutting,
    gate: &G,
) -> Result<Status, RunFault>
    ensures wrote { WroteAs (IsRecorded judge plan.now.scripts) (W.contents (inner_of writer.old)) (W.contents (inner_of writer.new)) result }
    ensures counts { WriteCounts (failures_in writer.old) (failures_in writer.new) result }
    ensures atomic { judge ≡ true → HasNoViews plan.now.scripts → IfOk result (λ status. status ≡ Atomic) }
{
    let (history, _) = recorded(rt, alloc, plan, gate)?;
    if judge {
        write_report(rt, alloc, &history, writer, cutting)
    } else {
        write_text(alloc, &history, Status::Recorded, writer)
    }
}

/// Records a run of the plan on a board, and writes its history as text with stamps, with the status `Recorded`. Before each event
/// is the stamp that the board gave it, that of its record's begin or end. The stamps rise strictly, and if no script has a scan they
/// are 0, 1, 2 and so on. The history, the refusals, the writer and the waiting are as in `record_run`.
pub fn record_run_stamped<Rt: Threads + Wait + Sync, W: Write, G: Gate>(
    rt: &Rt,
    alloc: Global,
    plan: &Plan,
    writer: &mut Counted<W>,
    gate: &G,
) -> Result<Status, RunFault>
    ensures wrote { WroteAs (IsStampedRecording plan.now.scripts) (W.contents (inner_of writer.old)) (W.contents (inner_of writer.new)) result }
    ensures counts { WriteCounts (failures_in writer.old) (failures_in writer.new) result }
{
    let (history, stamps) = recorded(rt, alloc, plan, gate)?;
    write_stamped_text(alloc, &history, stamps.as_slice(), writer)
}

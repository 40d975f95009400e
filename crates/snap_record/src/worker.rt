//! What one worker does with its script.
ghost use Rattle.std.specs.Prelude.{◌≡◌, ◌+◌, ◌*◌, ◌<◌, ◌≤◌, ◌++◌, ◌∷◌, [], IfOk, IfSome, IfNone, OnOk, MatchOption, length, slice_index_or, true};
ghost use Rattle.snap_core.specs.Events.{event_cap};
ghost use Rattle.snap_board.specs.Desks.{records, ticks, lost, collects, IsDeskOf};
ghost use Rattle.snap_record.specs.Scripts.{AreCallsOf, IsCallOf};
ghost use Rattle.snap_record.specs.inside.Scripts.{DidSome, IsStepOf};
ghost use Rattle.snap_board.specs.LastCall.{HasCalled};
ghost use Rattle.snap_record.specs.Choices.{tries_of, IsScan, one_view, views_in};
ghost use Rattle.snap_record.specs.Plans.{has_tries, step_ticks, draws_within};
ghost use Rattle.snap_record.specs.inside.Workers.{IsWorkerOf, IsUnused, HasTicksFor, HasRun};

use crate::plan::{Plan, Step};
use crate::relay::{Relay, Sender};
use snap_board::{Board, CollectRefusal, Desk, Record, ScanRefusal};
use snap_core::Gate;
use std::alloc::{AllocError, Global};
use std::sync::Wait;

/// A board, and the relay for the records of the calls on it.
#[derive(Drop)]
pub(crate) struct Recorder {
    pub(crate) board: Board,
    pub(crate) relay: Relay,
}

/// What a worker has: a desk of the board, and the sender at the desk's place.
#[derive(Drop)]
pub(crate) struct Worker {
    pub(crate) desk: Desk,
    pub(crate) sender: Sender,
}

/// A worker after its script, and the number of its scans without a record, or that memory was refused.
#[derive(Drop)]
pub(crate) struct Ran {
    pub(crate) worker: Worker,
    pub(crate) outcome: Result<u32, AllocError>,
}

// Makes the call of one step. A scan may have no record.
fn run_step(
    alloc: Global,
    board: &Board,
    desk: &mut Desk,
    step: Step,
) -> Result<Option<Record>, AllocError>
    requires desk { IsDeskOf board.now desk.old }
    requires tries { has_tries step ≡ true }
    requires room { ticks desk.old + step_ticks step ≤ board.now.limit }
    ensures desk { IsDeskOf board.now desk.new × (desk.new.desk ≡ desk.old.desk) }
    ensures ticks { OnOk result (ticks desk.new ≤ ticks desk.old + step_ticks step) }
    ensures recorded { IfOk result (λ o. MatchOption o (records desk.new ≡ records desk.old) (λ r. records desk.new ≡ records desk.old ++ r ∷ [])) }
    ensures lost { IfOk result (λ o. MatchOption o (lost desk.new ≡ lost desk.old ++ tries_of step) (λ r. lost desk.new ≡ lost desk.old)) }
    ensures scan { IfOk result (λ o. IfNone o (IsScan step)) }
    ensures step { IfOk result (λ o. IfSome o (IsStepOf desk.old.desk step)) }
    ensures views { OnOk result (collects desk.new ≡ collects desk.old + one_view step) }
    ensures call { OnOk result (HasCalled (IsCallOf step) desk.old desk.new) }
{
    match step {
        Step::Store(value) => match board.store(desk, value) {
            Ok(record) => Ok(Some(record)),
            Err(_) => unreachable!(),
        },
        Step::View => match board.collect(alloc, desk) {
            Ok(record) => Ok(Some(record)),
            Err(CollectRefusal::Memory) => Err(AllocError),
            Err(CollectRefusal::Spent) => unreachable!(),
        },
        Step::Scan(tries) => match board.scan(alloc, desk, tries) {
            Ok(record) => Ok(Some(record)),
            Err(ScanRefusal::Interfered) => Ok(None),
            Err(ScanRefusal::Memory) => Err(AllocError),
            Err(ScanRefusal::Spent) => unreachable!(),
        },
    }
}

// Makes the calls of a script in order, and sends the record of each when it has answered, until memory is refused. Answers the
// number of scans without a record. The gate is called before each step and at the end.
fn run_steps<R: Wait, G: Gate>(
    rt: &R,
    alloc: Global,
    recorder: &Recorder,
    worker: &mut Worker,
    script: &[Step],
    gate: &G,
) -> Result<u32, AllocError>
    requires worker { IsWorkerOf recorder.now worker.old × IsUnused worker.old }
    requires short { 2 * (length script.now) ≤ event_cap }
    requires room { draws_within recorder.now.board.limit script.now ≡ true }
    ensures worker { IsWorkerOf recorder.now worker.new × (worker.new.desk.desk ≡ worker.old.desk.desk) }
    ensures sent { OnOk result (records worker.new.desk ≡ worker.new.sender.sent) }
    ensures script { OnOk result (DidSome worker.old.desk.desk script.now worker.new.sender.sent (lost worker.new.desk)) }
    ensures count { IfOk result (λ count. count ≡ length (lost worker.new.desk)) }
    ensures views { OnOk result (collects worker.new.desk ≡ views_in script.now) }
    ensures calls { OnOk result (AreCallsOf script.now worker.new.desk.calls) }
{
    let number = u32::from(worker.desk.process());
    let mut interfered = 0u32;
    'steps: for (turn, step) in script.iter().enumerate() {
        gate.at(number, turn as u32);
        let made = run_step(alloc, &recorder.board, &mut worker.desk, *step)?;
        let Some(made) = made else {
            interfered += 1;
            continue;
        };
        let Ok(()) = recorder.relay.send(rt, alloc, &mut worker.sender, made) else {
            return Err(AllocError);
        };
    }
    gate.at(number, script.len() as u32);
    Ok(interfered)
}

/// Runs the script of the worker's number on its desk, and sends the records of its calls.
pub(crate) fn run_script<R: Wait, G: Gate>(
    rt: &R,
    alloc: Global,
    recorder: &Recorder,
    plan: &Plan,
    mut worker: Worker,
    gate: &G,
) -> Ran
    requires worker { IsWorkerOf recorder.now worker × IsUnused worker }
    requires number { worker.desk.desk < length plan.now.scripts }
    requires ticks { HasTicksFor plan.now recorder.now }
    ensures { HasRun recorder.now worker.desk.desk (slice_index_or plan.now.scripts worker.desk.desk []) result }
{
    let script = plan.script(worker.desk.process());
    let outcome = run_steps(rt, alloc, recorder, &mut worker, script, gate);
    Ran { worker, outcome }
}

//! A run of a plan on a new board, and the history that it leaves.
ghost use Rattle.std.specs.Prelude.{◌≡◌, ◌*◌, ◌≤◌, [], IfOk, OnOk, length, true, ◌<◌, ◌∷◌, ◌++◌, All, IsErr, MatchResult, Ok, slice_index_or};
ghost use Rattle.std.specs.List.Sorted.{IsStrictlyIncreasing};
ghost use Rattle.snap_core.specs.Events.{event_cap};
ghost use Rattle.snap_core.specs.Calls.{calls_of};
ghost use Rattle.snap_core.specs.Monotone.{IsMonotone};
ghost use Rattle.snap_core.specs.Regular.{IsRegular};
ghost use Rattle.snap_board.specs.Desks.{accounts, IsGatheredOf};
ghost use Rattle.snap_board.specs.History.{AllCompleted};
ghost use Rattle.snap_record.specs.Plans.{HasScripts, HasWholeScripts, HasNoScans, HasNoViews, AreWorkers, steps_in};
ghost use Rattle.snap_core.specs.Orders.{IsAtomic};
ghost use Rattle.snap_record.specs.Recording.{ArePlaces, AreStamped};
ghost use Rattle.snap_record.specs.inside.Recording.{DidScripts};
ghost use Rattle.snap_account.specs.Rule.{newcomers};
ghost use Rattle.snap_record.specs.Relays.{AreNew, IsSenderOf, IsTakerOf};
ghost use Rattle.snap_record.specs.inside.Workers.{IsWorkerOf, IsUnused, AreUnused, HasTicksFor, HasRun, HaveRun, HaveClosed, IsTakenOf};

use crate::plan::Plan;
use crate::relay::{Relay, Sender, Taker};
use crate::taking::{Taken, take_all, take_some};
use crate::timeline::{history_of, in_order, stamps_of};
use crate::worker::{Ran, Recorder, Worker, run_script};
use snap_board::{Board, Gathered, Record, TickLimit};
use snap_core::{Gate, History};
use snap_threads::each_job_beside;
use std::alloc::{AllocError, Global};
use std::sync::Wait;
use std::thread::Threads;

/// A recorded history, the number of scans that were left out because they have no record, and the stamps. The board gave each
/// event of the history its stamp.
#[derive(Drop)]
pub struct Recording {
    pub history: History,
    pub interfered: u32,
    pub stamps: Vec<u64>,
}

/// Why nothing was recorded.
#[derive(Clone, Copy, PartialEq, Eq, Debug)]
pub enum RecordRefusal {
    /// Memory ran out.
    Memory,
}

impl From<AllocError> for RecordRefusal {
    ghost use Rattle.std.specs.Prelude.{◌≡◌};
    ghost use Rattle.snap_record.specs.declared.recorder.RecordRefusal.TheVariants.{Memory};

    ghost from_gives = { λ _ refusal. refusal ≡ Memory };

    fn from(_error: AllocError) -> RecordRefusal {
        RecordRefusal::Memory
    }
}

// A worker for each sender, the last sender's first, each with the highest desk that is in.
fn workers_of(
    alloc: Global,
    recorder: &Recorder,
    gathered: &mut Gathered,
    mut senders: Vec<Sender>,
) -> Result<Vec<Worker>, AllocError>
    requires gathered { IsGatheredOf recorder.now.board gathered.old }
    requires rest { accounts gathered.old ≡ newcomers (length senders.items) }
    requires senders { AreNew recorder.now.relay.queue (length senders.items) senders.items }
    ensures gathered { OnOk result (IsGatheredOf recorder.now.board gathered.new × (accounts gathered.new ≡ [])) }
    ensures count { IfOk result (λ all. length all.items ≡ length senders.items) }
    ensures unused { IfOk result (λ all. AreUnused recorder.now (length senders.items) all.items) }
{
    let mut all = Vec::new(alloc);
    'places: while let Some(sender) = senders.pop() {
        let Some(desk) = recorder.board.take(alloc, gathered)? else {
            unreachable!()
        };
        all.push(Worker { desk, sender })?;
    }
    Ok(all)
}

// A board with the pauses of a seed and a relay for this many workers, each of whom may draw this many ticks. With them come the
// board's gathered desks, of which none is left, a worker for each desk, the highest first, and the relay's taker.
fn start_workers<R: Wait>(
    rt: &R,
    alloc: Global,
    workers: u8,
    ticks: TickLimit,
    seed: u32,
) -> Result<(Recorder, Gathered, Vec<Worker>, Taker), AllocError>
    requires { AreWorkers workers }
    ensures board { IfOk result (λ r. (r.0.board.desks ≡ workers) × (r.0.board.limit ≡ ticks.ticks)) }
    ensures relay { IfOk result (λ r. r.0.relay.workers ≡ workers) }
    ensures gathered { IfOk result (λ r. IsGatheredOf r.0.board r.1 × (accounts r.1 ≡ [])) }
    ensures count { IfOk result (λ r. length r.2.items ≡ workers) }
    ensures unused { IfOk result (λ r. AreUnused r.0 workers r.2.items) }
    ensures taker { IfOk result (λ r. IsTakerOf r.0.relay r.3 × (r.3.taken ≡ [])) }
{
    let Ok((board, mut gathered)) = Board::with_ticks(alloc, workers, ticks) else {
        return Err(AllocError);
    };
    let (relay, senders, taker) = Relay::start(rt, alloc, workers)?;
    let recorder = Recorder {
        board: board.with_seeded_pauses(seed),
        relay,
    };
    let all = workers_of(alloc, &recorder, &mut gathered, senders)?;
    Ok((recorder, gathered, all, taker))
}

// Runs the script of a worker, and then takes records until none comes.
fn run_first<R: Wait, G: Gate>(
    rt: &R,
    alloc: Global,
    recorder: &Recorder,
    plan: &Plan,
    worker: Worker,
    taker: Taker,
    gate: &G,
) -> (Ran, Result<Taken, AllocError>)
    requires worker { IsWorkerOf recorder.now worker × IsUnused worker }
    requires number { worker.desk.desk < length plan.now.scripts }
    requires ticks { HasTicksFor plan.now recorder.now }
    requires taker { IsTakerOf recorder.now.relay taker × (taker.taken ≡ []) }
    ensures ran { HasRun recorder.now worker.desk.desk (slice_index_or plan.now.scripts worker.desk.desk []) result.0 }
    ensures taken { IfOk result.1 (IsTakenOf recorder.now.relay) }
{
    let ran = run_script(rt, alloc, recorder, plan, worker, gate);
    let taken = take_some(rt, alloc, &recorder.relay, taker);
    (ran, taken)
}

// The workers that ran, one list after the other, and what was taken, unless memory was refused.
fn all_done(
    others: Result<Vec<Ran>, AllocError>,
    own: Ran,
    taken: Result<Taken, AllocError>,
) -> Result<(Vec<Ran>, Taken), AllocError>
    ensures ran { MatchResult others (λ rest. IfOk result (λ r. r.0.items ≡ rest.items ++ own ∷ [])) (λ _. IsErr result) }
    ensures taken { IfOk result (λ r. taken ≡ Ok r.1) }
{
    let mut all = others?;
    all.push(own)?;
    Ok((all, taken?))
}

// Runs the scripts of all workers at the same time. That of worker 0 runs on the calling thread, which then takes records until none comes.
fn run_all<R: Threads + Wait + Sync, G: Gate>(
    rt: &R,
    alloc: Global,
    recorder: &Recorder,
    plan: &Plan,
    mut workers: Vec<Worker>,
    taker: Taker,
    gate: &G,
) -> Result<(Vec<Ran>, Taken), AllocError>
    requires count { length workers.items ≡ length plan.now.scripts }
    requires some { 0 < length plan.now.scripts }
    requires ticks { HasTicksFor plan.now recorder.now }
    requires unused { AreUnused recorder.now (length plan.now.scripts) workers.items }
    requires taker { IsTakerOf recorder.now.relay taker × (taker.taken ≡ []) }
    ensures count { IfOk result (λ r. length r.0.items ≡ length plan.now.scripts) }
    ensures ran { IfOk result (λ r. HaveRun recorder.now plan.now.scripts r.0.items) }
    ensures taken { IfOk result (λ r. IsTakenOf recorder.now.relay r.1) }
{
    let Some(first) = workers.pop() else {
        unreachable!()
    };
    let (others, (own, taken)) = each_job_beside(
        rt,
        alloc,
        workers,
        &|worker: Worker| -> Ran
            requires { IsWorkerOf recorder.now worker × IsUnused worker × (worker.desk.desk < length plan.now.scripts) × HasTicksFor plan.now recorder.now }
            ensures { HasRun recorder.entry.now worker.desk.desk (slice_index_or plan.entry.now.scripts worker.desk.desk []) result }
        { run_script(rt, alloc, recorder, plan, worker, gate) },
        move || -> (Ran, Result<Taken, AllocError>)
            requires worker { IsWorkerOf recorder.now first × IsUnused first × (first.desk.desk < length plan.now.scripts) × HasTicksFor plan.now recorder.now }
            requires taker { IsTakerOf recorder.now.relay taker × (taker.taken ≡ []) }
            ensures ran { HasRun recorder.entry.now first.desk.desk (slice_index_or plan.entry.now.scripts first.desk.desk []) result.0 }
            ensures taken { IfOk result.1 (IsTakenOf recorder.entry.now.relay) }
        { run_first(rt, alloc, recorder, plan, first, taker, gate) },
    );
    all_done(others, own, taken)
}

// Gives all desks back, and closes the board. Answers the relay and its senders, the lowest first, and the number of scans without
// a record.
fn close_all(
    alloc: Global,
    recorder: Recorder,
    plan: &Plan,
    mut gathered: Gathered,
    mut rans: Vec<Ran>,
) -> Result<(Relay, Vec<Sender>, u32), AllocError>
    requires board { (recorder.board.desks ≡ length plan.now.scripts) × IsGatheredOf recorder.board gathered × (accounts gathered ≡ []) }
    requires count { length rans.items ≡ length plan.now.scripts }
    requires ran { HaveRun recorder plan.now.scripts rans.items }
    requires short { 2 * steps_in plan.now.scripts ≤ event_cap }
    ensures relay { IfOk result (λ r. r.0 ≡ recorder.relay) }
    ensures senders { IfOk result (λ r. All (IsSenderOf recorder.relay) r.1.items) }
    ensures closed { IfOk result (λ r. HaveClosed plan.now.scripts r.1.items r.2) }
{
    let Recorder { board, relay } = recorder;
    let mut senders = Vec::new(alloc);
    let mut interfered = 0;
    'each: while let Some(ran) = rans.pop() {
        let Ran { worker, outcome } = ran;
        let Worker { desk, sender } = worker;
        interfered += outcome?;
        senders.push(sender)?;
        gathered = board.give_back(gathered, desk);
    }
    let Ok(_) = board.close(gathered) else {
        unreachable!()
    };
    Ok((relay, senders, interfered))
}

// Runs a plan on a new board. Answers the records of all its calls, and the number of scans without a record.
fn run_plan<R: Threads + Wait + Sync, G: Gate>(
    rt: &R,
    alloc: Global,
    plan: &Plan,
    gate: &G,
) -> Result<(Vec<Record>, u32), AllocError>
    ensures workers { OnOk result (AreWorkers (length plan.now.scripts)) }
    ensures did { IfOk result (λ r. DidScripts plan.now.scripts r.0.items r.1) }
    ensures few { IfOk result (λ r. length r.0.items ≤ steps_in plan.now.scripts) }
{
    let (recorder, gathered, workers, taker) = start_workers(
        rt,
        alloc,
        plan.workers(),
        plan.ticks(),
        plan.seed(),
    )?;
    let (rans, taken) = run_all(rt, alloc, &recorder, plan, workers, taker, gate)?;
    let (relay, senders, interfered) = close_all(alloc, recorder, plan, gathered, rans)?;
    let all = take_all(rt, relay, senders, taken)?;
    Ok((all, interfered))
}

/// Records what the workers of a plan do on a board with a desk for each. Each does the script of its number. Worker 0 runs on the
/// calling thread, and so does each other worker for which no thread can be started. A worker gives up its turn within a collect,
/// and within some stores, so that calls overlap. The plan's seed draws where.
///
/// The gate is called as `at(w, t)` when t of worker w's calls have answered, for t from 0 to the script's length. If memory is
/// refused in a worker, it ends its script there, and the answer is then `Memory`. The records come to the calling thread through a
/// relay. So the call may wait for the relay's queue, as it waits for the workers.
///
/// The history is regular and monotone and has no pending call. Its stores and scans alone are atomic, so it is atomic if no script
/// has a collect. Worker w is process w in it, with the calls of its script in their order, each once. There is no other call. But
/// interfered scans are left out, and `interfered` is their number. The history's limit of events is the plan's.
///
/// The stamps are the board's: the stamp of each event is that of its record's begin or end, and they rise strictly. Each tick of
/// the board's clock, from 0 on, is a begin, a middle tick or an end of exactly one call of the scripts. Scans that were left out
/// are among these calls. So each try of a scan leaves a gap. If no script has a scan, the stamps are 0, 1, 2 and so on.
pub fn record_plan<R: Threads + Wait + Sync, G: Gate>(
    rt: &R,
    alloc: Global,
    plan: &Plan,
    gate: &G,
) -> Result<Recording, RecordRefusal>
    ensures workers { OnOk result (AreWorkers (length plan.now.scripts)) }
    ensures regular { IfOk result (λ r. IsRegular (calls_of r.history.events)) }
    ensures monotone { IfOk result (λ r. IsMonotone (calls_of r.history.events)) }
    ensures completed { IfOk result (λ r. AllCompleted (calls_of r.history.events)) }
    ensures atomic { HasNoViews plan.now.scripts → IfOk result (λ r. IsAtomic (calls_of r.history.events)) }
    ensures scripts { IfOk result (λ r. HasScripts plan.now.scripts r.history.events r.interfered) }
    ensures whole { HasNoScans plan.now.scripts → IfOk result (λ r. HasWholeScripts plan.now.scripts r.history.events) }
    ensures none_left { HasNoScans plan.now.scripts → IfOk result (λ r. r.interfered ≡ 0) }
    ensures stamps { IfOk result (λ r. AreStamped plan.now.scripts r.history.events r.stamps.items) }
    ensures rising { IfOk result (λ r. IsStrictlyIncreasing r.stamps.items) }
    ensures places { HasNoScans plan.now.scripts → IfOk result (λ r. ArePlaces r.stamps.items) }
    ensures each_stamp { IfOk result (λ r. length r.stamps.items ≡ length r.history.events) }
    ensures few { IfOk result (λ r. length r.history.events ≤ 2 * steps_in plan.now.scripts) }
    ensures limit { IfOk result (λ r. r.history.limit.events ≡ plan.now.limit) }
{
    let (all, interfered) = run_plan(rt, alloc, plan, gate)?;
    let events = in_order(alloc, all)?;
    let stamps = stamps_of(alloc, &events)?;
    let history = history_of(alloc, events, plan.limit())?;
    Ok(Recording {
        history,
        interfered,
        stamps,
    })
}

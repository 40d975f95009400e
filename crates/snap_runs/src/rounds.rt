//! Recordings of rounds of workers who keep pace.
ghost use Rattle.std.specs.Prelude.{◌≡◌, IfOk};
ghost use Rattle.snap_core.specs.Counting.{failures_in, inner_of};
ghost use Rattle.snap_record.specs.Plans.{AreRounds, AreWorkers, rounds_scripts};
ghost use Rattle.snap_runs.specs.Recordings.{IsWrittenAs, WriteCounts, WroteAs};

use crate::recording::{record_run, record_run_stamped};
use snap_check::{RunFault, Status};
use snap_core::{Counted, Limit};
use snap_record::{Pace, Plan, PlanRefusal, rounds_plan_within};
use snap_threads::Cutting;
use std::alloc::{AllocError, Global};
use std::io::Write;
use std::sync::Wait;
use std::thread::Threads;

/// Rounds of workers: in each a store and a view, or with `scan` a scan in place of the view. The seed draws where calls pause, as
/// `Plan::with_seed` says.
#[derive(Clone, Copy)]
pub struct Rounds {
    pub workers: u32,
    pub rounds: u32,
    pub scan: bool,
    pub seed: u32,
}

/// What is written of a recording.
#[derive(Clone, Copy)]
pub enum Written {
    /// Its text.
    History,
    /// Its text with stamps.
    Stamped,
    /// Its report.
    Report,
}

// The plan of some rounds.
fn plan_of(alloc: Global, rounds: Rounds) -> Result<Plan, AllocError>
    requires { AreWorkers rounds.workers × AreRounds rounds.rounds }
    ensures { IfOk result (λ plan. plan.scripts ≡ rounds_scripts rounds.scan rounds.workers rounds.rounds) }
{
    let Rounds {
        workers,
        rounds,
        scan,
        seed,
    } = rounds;
    match rounds_plan_within(alloc, workers, rounds, scan, Limit::greatest()) {
        Ok(plan) => Ok(plan.with_seed(seed)),
        Err(PlanRefusal::Memory) => Err(AllocError),
        Err(_) => unreachable!(),
    }
}

/// Records `LEAST_WORKERS` to `WORKER_LIMIT` workers in rounds. Their history is written as `record_run` does it, judged by the usual
/// cutting, or with stamps as `record_run_stamped` does it.
pub fn record_rounds<Rt: Threads + Wait + Sync, W: Write>(
    rt: &Rt,
    alloc: Global,
    rounds: Rounds,
    written: Written,
    writer: &mut Counted<W>,
) -> Result<Status, RunFault>
    requires { AreWorkers rounds.workers × AreRounds rounds.rounds }
    ensures wrote { WroteAs (IsWrittenAs written (rounds_scripts rounds.scan rounds.workers rounds.rounds)) (W.contents (inner_of writer.old)) (W.contents (inner_of writer.new)) result }
    ensures counts { WriteCounts (failures_in writer.old) (failures_in writer.new) result }
{
    let plan = plan_of(alloc, rounds)?;
    let pace = Pace::of(rounds.workers);
    let usual = Cutting::usual();
    match written {
        Written::History => record_run(rt, alloc, &plan, false, writer, usual, &pace),
        Written::Stamped => record_run_stamped(rt, alloc, &plan, writer, &pace),
        Written::Report => record_run(rt, alloc, &plan, true, writer, usual, &pace),
    }
}

//! Plans: a script of steps for each worker.
ghost use Rattle.std.specs.Prelude.{◌≡◌, ◌*◌, ◌<◌, ◌≤◌, [], Some, None, IfOk, IfErr, OnOk, IsTrue, ◌↔◌, length, slice_index_or, nat_le, true};
ghost use Rattle.snap_core.specs.Events.{event_cap};
ghost use Rattle.snap_core.specs.Limits.{event_limit};
ghost use Rattle.snap_account.specs.Limits.{tick_limit};
ghost use Rattle.snap_record.specs.Plans.{lists_of, steps_in, plan_refusal, ticks_within, worker_limit, values_each, are_workers, each_draws, draws_within, round_script, rounds_scripts, AreWorkers, AreUsualRounds, AreRoundsWithin, IsRoundsRefusal};

use snap_board::{DESK_LIMIT, TICK_LIMIT, TickLimit};
use snap_core::{EVENT_LIMIT, Limit};
use std::alloc::{AllocError, Global};
use std::marker::Model;

/// The least number of workers of a plan.
pub const LEAST_WORKERS: u32 = 2;

/// The greatest number of workers of a plan: each has a desk of the board.
pub const WORKER_LIMIT: u32 = DESK_LIMIT as u32;

/// The greatest number of tries of a plan's scan.
pub const TRY_LIMIT: u32 = 1024;

/// The number of ticks that a script may draw for each event of the plan's limit.
const TICKS_AN_EVENT: u32 = TICK_LIMIT / EVENT_LIMIT as u32;

/// The greatest number of events of a round: those of two calls of each worker.
const ROUND_EVENTS: usize = 4 * DESK_LIMIT;

/// The greatest number of rounds of `rounds_plan`.
pub const ROUND_LIMIT: u32 = (EVENT_LIMIT / ROUND_EVENTS) as u32;

/// The number of tries of each scan of `rounds_plan`.
const ROUND_TRIES: u32 = 64;

/// The values that `rounds_plan` gives worker w begin after w times this.
const VALUES_EACH: u32 = 65_536;

/// One step of a worker's script.
#[derive(Clone, Copy, PartialEq, Eq, Debug)]
pub enum Step {
    /// A store of this value to the worker's component.
    Store(u32),
    /// A collect.
    View,
    /// A scan with this number of tries.
    Scan(u32),
}

/// Why there is no plan, in the order in which the reasons are tested.
#[derive(Clone, Copy, PartialEq, Eq, Debug)]
pub enum PlanRefusal {
    /// There are not `LEAST_WORKERS` to `WORKER_LIMIT` lists.
    Workers,
    /// The steps have more events than the limit, two for each step. Or a script could draw more ticks than a desk may. Or a scan
    /// does not have 1 to `TRY_LIMIT` tries. Or the number of rounds is 0 or too large.
    TooLong,
    /// Memory ran out.
    Memory,
}

/// A script for each of `LEAST_WORKERS` to `WORKER_LIMIT` workers, together within a limit of events.
#[derive(Drop)]
pub struct Plan {
    scripts: Vec<Vec<Step>>,
    limit: Limit,
    // the seed that draws the pauses of a recording
    seed: u32,
}

impl Model for Plan {
    ghost use Rattle.std.specs.Prelude.{◌≡◌, None};
    ghost use Rattle.snap_record.specs.Plans.{PlanView, lists_of, plan_refusal, ticks_within};

    ghost Value = { PlanView };

    ghost view = { λ p. record { scripts = lists_of p.scripts.items; limit = p.limit.events } };

    ghost invariant = { λ p. plan_refusal p.limit.events (ticks_within p.limit.events) (lists_of p.scripts.items) ≡ None };
}

// The number of ticks that a script may draw, by the limit of events of all scripts together.
fn ticks_within(limit: Limit) -> TickLimit
    ensures { result.ticks ≡ ticks_within limit.events }
{
    let Some(ticks) = TickLimit::new(TICKS_AN_EVENT * limit.events() as u32) else {
        unreachable!()
    };
    ticks
}

// Whether a plan may have `count` workers.
fn are_workers(count: usize) -> bool
    ensures { result ≡ are_workers count }
{
    LEAST_WORKERS as usize <= count && count <= WORKER_LIMIT as usize
}

// Whether the scripts together have no more events than the limit.
fn are_short(scripts: &[Vec<Step>], limit: Limit) -> bool
    ensures { result ≡ nat_le (2 * steps_in (lists_of scripts.now)) limit.events }
{
    let mut room = limit.events() / 2;
    'scripts: for k in 0..scripts.len() {
        let steps = scripts[k].len();
        if steps > room {
            return false;
        }
        room -= steps;
    }
    true
}

// Whether the steps of a script draw at most `most` ticks, and its scans have 1 to `TRY_LIMIT` tries.
fn draws_within(steps: &[Step], most: u32) -> bool
    ensures { result ≡ draws_within most steps.now }
{
    let mut room = most;
    'steps: for k in 0..steps.len() {
        let ticks = match steps[k] {
            Step::Store(_) | Step::View => 2,
            Step::Scan(tries) => {
                if tries == 0 || tries > TRY_LIMIT {
                    return false;
                }
                tries + 2
            }
        };
        if ticks > room {
            return false;
        }
        room -= ticks;
    }
    true
}

// Whether each script draws at most `most` ticks, and its scans have 1 to `TRY_LIMIT` tries.
fn each_draws(scripts: &[Vec<Step>], most: u32) -> bool
    ensures { result ≡ each_draws most (lists_of scripts.now) }
{
    'scripts: for k in 0..scripts.len() {
        if !draws_within(&scripts[k], most) {
            return false;
        }
    }
    true
}

impl Plan {
    /// The plan of these scripts. The list at place w is worker w's. Together they have up to `EVENT_LIMIT` events, two for each
    /// step, and each list draws up to `TICK_LIMIT` ticks. After a refusal the lists are dropped.
    pub fn new(scripts: Vec<Vec<Step>>) -> Result<Plan, PlanRefusal>
        ensures ok { IfOk result (λ plan. plan ≡ record { scripts = lists_of scripts.items; limit = event_limit }) }
        ensures accepted { OnOk result (plan_refusal event_limit tick_limit (lists_of scripts.items) ≡ None) }
        ensures refused { IfErr result (λ refusal. plan_refusal event_limit tick_limit (lists_of scripts.items) ≡ Some refusal) }
    {
        Plan::with_limit(scripts, Limit::usual())
    }

    /// A plan as `new` gives it, with another limit of events, and of ticks in the same proportion: sixteen for each event.
    pub fn with_limit(scripts: Vec<Vec<Step>>, limit: Limit) -> Result<Plan, PlanRefusal>
        ensures ok { IfOk result (λ plan. plan ≡ record { scripts = lists_of scripts.items; limit = limit.events }) }
        ensures accepted { OnOk result (plan_refusal limit.events (ticks_within limit.events) (lists_of scripts.items) ≡ None) }
        ensures refused { IfErr result (λ refusal. plan_refusal limit.events (ticks_within limit.events) (lists_of scripts.items) ≡ Some refusal) }
    {
        if !are_workers(scripts.len()) {
            return Err(PlanRefusal::Workers);
        }
        let most = ticks_within(limit).ticks();
        if !are_short(&scripts, limit) || !each_draws(&scripts, most) {
            return Err(PlanRefusal::TooLong);
        }
        Ok(Plan {
            scripts,
            limit,
            seed: 0,
        })
    }

    /// The same plan with another seed than 0. A recording of the plan draws by the seed where its calls pause, as
    /// `Board::with_seeded_pauses` says. What is promised of a recording does not depend on the seed.
    pub fn with_seed(mut self, seed: u32) -> Plan
        ensures { result ≡ self }
    {
        self.seed = seed;
        self
    }

    // The seed that draws the pauses of a recording.
    pub(crate) fn seed(&self) -> u32 {
        self.seed
    }

    // The limit of the recording's events.
    pub(crate) fn limit(&self) -> Limit
        ensures limit { result.events ≡ self.now.limit }
        ensures short { 2 * steps_in self.now.scripts ≤ self.now.limit }
    {
        self.limit
    }

    // The number of ticks that each worker may draw.
    pub(crate) fn ticks(&self) -> TickLimit
        ensures { result.ticks ≡ ticks_within self.now.limit }
    {
        ticks_within(self.limit)
    }

    pub(crate) fn workers(&self) -> u8
        ensures workers { result ≡ length self.now.scripts }
        ensures range { AreWorkers result }
        ensures short { 2 * steps_in self.now.scripts ≤ event_cap }
    {
        self.scripts.len() as u8
    }

    pub(crate) fn script(&self, worker: u16) -> &[Step]
        requires { worker < length self.now.scripts }
        ensures script { result.now ≡ slice_index_or self.now.scripts worker [] }
        ensures short { 2 * length result.now ≤ event_cap }
        ensures room { draws_within (ticks_within self.now.limit) result.now ≡ true }
    {
        self.scripts[usize::from(worker)].as_slice()
    }
}

// What a worker does in `rounds` rounds: a store and a collect or a scan in each.
fn round_steps(alloc: Global, worker: u32, rounds: u32, scan: bool) -> Result<Vec<Step>, AllocError>
    requires { (worker < worker_limit) × (rounds ≤ values_each) }
    ensures { IfOk result (λ steps. steps.items ≡ round_script scan worker rounds) }
{
    let mut steps = Vec::new(alloc);
    for round in 0..rounds {
        steps.push(Step::Store(worker * VALUES_EACH + round + 1))?;
        steps.push(if scan {
            Step::Scan(ROUND_TRIES)
        } else {
            Step::View
        })?;
    }
    Ok(steps)
}

// Whether there may be `rounds` rounds.
fn are_rounds(rounds: u32, limit: Limit) -> bool
    ensures { IsTrue result ↔ AreRoundsWithin limit.events rounds }
{
    0 < rounds && ROUND_EVENTS * rounds as usize <= limit.events()
}

// The scripts of `workers` workers in `rounds` rounds.
fn round_lists(
    alloc: Global,
    workers: u32,
    rounds: u32,
    scan: bool,
) -> Result<Vec<Vec<Step>>, AllocError>
    requires { (workers ≤ worker_limit) × (rounds ≤ values_each) }
    ensures { IfOk result (λ lists. lists_of lists.items ≡ rounds_scripts scan workers rounds) }
{
    let mut lists = Vec::new(alloc);
    'workers: for worker in 0..workers {
        lists.push(round_steps(alloc, worker, rounds, scan)?)?;
    }
    Ok(lists)
}

/// The plan of `LEAST_WORKERS` to `WORKER_LIMIT` workers in 1 to `ROUND_LIMIT` rounds. In each round a worker makes two calls. In
/// round i, counted from 1, worker w stores w * 65,536 + i and then collects, or scans with 64 tries.
pub fn rounds_plan(
    alloc: Global,
    workers: u32,
    rounds: u32,
    scan: bool,
) -> Result<Plan, PlanRefusal>
    ensures ok { IfOk result (λ plan. plan ≡ record { scripts = rounds_scripts scan workers rounds; limit = event_limit }) }
    ensures range { OnOk result (AreWorkers workers × AreUsualRounds rounds) }
    ensures refused { IfErr result (IsRoundsRefusal AreUsualRounds workers rounds) }
{
    rounds_plan_within(alloc, workers, rounds, scan, Limit::usual())
}

/// A plan as `rounds_plan` gives it, with another limit of events. It may have a 32nd as many rounds as events: the number that
/// fits eight workers.
pub fn rounds_plan_within(
    alloc: Global,
    workers: u32,
    rounds: u32,
    scan: bool,
    limit: Limit,
) -> Result<Plan, PlanRefusal>
    ensures ok { IfOk result (λ plan. plan ≡ record { scripts = rounds_scripts scan workers rounds; limit = limit.events }) }
    ensures range { OnOk result (AreWorkers workers × AreRoundsWithin limit.events rounds) }
    ensures refused { IfErr result (IsRoundsRefusal (AreRoundsWithin limit.events) workers rounds) }
{
    if !are_workers(workers as usize) {
        return Err(PlanRefusal::Workers);
    }
    if !are_rounds(rounds, limit) {
        return Err(PlanRefusal::TooLong);
    }
    match round_lists(alloc, workers, rounds, scan) {
        Ok(lists) => Plan::with_limit(lists, limit),
        Err(_) => Err(PlanRefusal::Memory),
    }
}

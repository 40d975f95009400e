//! The runs of the commands that take one text or none, on the system.
ghost use Rattle.std.specs.Prelude.{◌≡◌, Ok, IfOk, IsErr, IsSome, MatchResult};
ghost use Rattle.snap_check.specs.Statuses.{code_of};
ghost use Rattle.snap_record.specs.Plans.{AreRounds, AreWorkers};
ghost use Rattle.snap_runs.specs.Answers.{IsAlwaysAnswered};
ghost use Rattle.snap_runs.specs.StoreAnswers.{IsCertainlyAsked};

use crate::failure::Failure;
use crate::files::open_only;
use crate::outlet::Outlet;
use crate::questions::{counts, picture};
use snap_check::{RunFault, Status};
use snap_core::{Counted, Limit};
use snap_runs::{Asked, Question, Rounds, Written, record_rounds, run, run_cut};
use snap_words::{Form, JobFault, Part, Place};
use std::alloc::{AllocError, Global};
use std::sync::Wait;
use std::thread::Threads;

// The exit status of a run that ended, or why it has none.
fn code_of<W>(ended: Result<Status, RunFault>, outlet: &Outlet<W>) -> Result<u8, Failure>
    ensures code { MatchResult ended (λ status. result ≡ Ok (code_of status)) (λ _. IsErr result) }
{
    match ended {
        Ok(status) => Ok(status.code()),
        Err(fault) => Err(Failure::of_run(fault, outlet)),
    }
}

// Answers a question about the only text. There is no status if the history lacks the call that a window names.
fn answered<Rt: Threads + Sync>(
    rt: &Rt,
    host: &HostRuntime,
    file: &Option<Vec<u8>>,
    question: Question<'_>,
    limit: Limit,
) -> Result<Option<Status>, Failure>
    ensures certain { IsAlwaysAnswered question.entry → IfOk result (λ status. IsSome status) }
{
    let mut reader = Counted::new(open_only(host, file)?);
    let mut writer = Counted::new(Outlet::new(host.stdout()));
    match run(rt, host.alloc(), question, &mut reader, &mut writer, limit) {
        Ok(status) => Ok(status),
        Err(fault) => Err(Failure::of_run(fault, &writer.into_inner())),
    }
}

/// Answers a question about the only text, and gives the exit status.
pub fn answer<Rt: Threads + Sync>(
    rt: &Rt,
    host: &HostRuntime,
    file: &Option<Vec<u8>>,
    question: Question<'_>,
    limit: Limit,
) -> Result<u8, Failure>
    requires { IsAlwaysAnswered question }
{
    match answered(rt, host, file, question, limit)? {
        Some(status) => Ok(status.code()),
        None => unreachable!(),
    }
}

/// Cuts the updates of the store in the only text to the times that their versions allow, answers what is asked of the history, and
/// gives the exit status.
pub fn cut<Rt: Threads + Sync>(
    rt: &Rt,
    host: &HostRuntime,
    file: &Option<Vec<u8>>,
    asked: Asked<'_>,
    limit: Limit,
) -> Result<u8, Failure>
    requires { IsCertainlyAsked asked }
{
    let mut reader = Counted::new(open_only(host, file)?);
    let mut writer = Counted::new(Outlet::new(host.stdout()));
    match run_cut(rt, host.alloc(), asked, &mut reader, &mut writer, limit) {
        Ok(Some(status)) => Ok(status.code()),
        Ok(None) => unreachable!(),
        Err(fault) => Err(Failure::of_run(fault, &writer.into_inner())),
    }
}

/// Counts what the history in the only text has shown, as an object or as lines. It gives the exit status.
pub fn stats<Rt: Threads + Sync>(
    rt: &Rt,
    host: &HostRuntime,
    file: &Option<Vec<u8>>,
    json: bool,
    limit: Limit,
) -> Result<u8, Failure> {
    answer(rt, host, file, counts(file, json), limit)
}

// Says that a history has not the call which an option names.
fn refusal_of(alloc: Global, option: &str, call: u32) -> Result<String, AllocError> {
    format!(in alloc;
        "error: invalid value '{call}' for '{option} <CALL>': the history has no call {call}\n\nFor more information, try '--help'.\n"
    )
}

// Why a history is not drawn that lacks the call which a place names.
fn lacking(alloc: Global, place: Place) -> Failure {
    let text = match place {
        Place::From(call) => refusal_of(alloc, "--from", call),
        Place::Around(call) => refusal_of(alloc, "--around", call),
        Place::Faults => String::from_str(alloc, "error: the history has no such call\n"),
    };
    match text {
        Ok(text) => Failure::Words(JobFault::Usage(text)),
        Err(_) => Failure::Words(JobFault::Memory),
    }
}

/// Draws a part of the history in the only text. It gives the exit status.
pub fn draw<Rt: Threads + Sync>(
    rt: &Rt,
    host: &HostRuntime,
    file: &Option<Vec<u8>>,
    form: Form,
    part: Part,
    limit: Limit,
) -> Result<u8, Failure> {
    match answered(rt, host, file, picture(form, part), limit)? {
        Some(status) => Ok(status.code()),
        None => Err(lacking(host.alloc(), part.place)),
    }
}

/// Records workers in rounds, and writes what is asked for of their history. It gives the exit status.
pub fn record<Rt: Threads + Wait + Sync>(
    rt: &Rt,
    host: &HostRuntime,
    rounds: Rounds,
    written: Written,
) -> Result<u8, Failure>
    requires { AreWorkers rounds.workers × AreRounds rounds.rounds }
{
    let mut writer = Counted::new(Outlet::new(host.stdout()));
    let ended = record_rounds(rt, host.alloc(), rounds, written, &mut writer);
    code_of(ended, &writer.into_inner())
}

//! Judges a recorded history of a single-writer board: is it regular, is it atomic, and why not?
#![tactic(auto)]

ghost use Rattle.std.specs.Prelude.{◌≡◌, MatchResult};
ghost use Rattle.snap_commands.specs.Failures.{failure_code};

mod check;
mod counts;
mod jobs;
mod options;
mod streams;
mod version;

use crate::jobs::done;
use crate::streams::held_place;
use crate::version::{asks_version, write_version};
use snap_check::RunFault;
use snap_commands::Failure;
use snap_words::{JobFault, wanted_by, words_of};
use std::process::ExitCode;
use std::sync::Wait;
use std::thread::Threads;

// Says the fault with which a run ended, and gives its exit status.
fn failed(rt: &HostRuntime, fault: &RunFault) -> u8
    ensures { result ≡ 4 }
{
    let _ = eprintln!(rt; "snapjudge: {fault}");
    4
}

// Does what the words of the command line ask for, and gives the exit status. The threads are those of `rt`; everything else is the host's.
fn run<Rt: Threads + Wait + Sync>(rt: &Rt, host: &HostRuntime) -> Result<u8, Failure> {
    let words = words_of(host, host.alloc())?;
    if asks_version(&words.texts) {
        return write_version(host);
    }
    done(rt, host, wanted_by(host.alloc(), words)?)
}

// The exit status of a run. It says why a run has none of its own.
fn code_of(host: &HostRuntime, ended: Result<u8, Failure>) -> u8
    ensures { MatchResult ended (λ code. result ≡ code) (λ why. result ≡ failure_code why) }
{
    match ended {
        Ok(code) => code,
        Err(Failure::Words(JobFault::Usage(text))) => {
            let _ = eprint!(host; "{text}");
            5
        }
        Err(Failure::Words(JobFault::Memory)) => failed(host, &RunFault::Memory),
        Err(Failure::Unopened | Failure::Unheard) => 4,
        Err(Failure::Run(fault)) => failed(host, &fault),
    }
}

fn main(rt: HostRuntime) -> ExitCode {
    let _first = held_place(&rt);
    let _second = held_place(&rt);
    let _third = held_place(&rt);
    let ended = run(&rt, &rt);
    ExitCode::from(code_of(&rt, ended))
}

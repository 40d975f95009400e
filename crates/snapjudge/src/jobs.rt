//! The run of each job.
ghost use Rattle.std.specs.Prelude.{◌≡◌, false, true};
ghost use Rattle.snap_words.specs.Jobs.{IsInRange};

use crate::check::check;
use crate::counts::count;
use snap_commands::{
    Failure, answer, cut, draw, explanation, explanation_of_cut, follow, record, report_of_cut,
    witness,
};
use snap_runs::{Rounds, Written};
use snap_words::Job;
use std::sync::Wait;
use std::thread::Threads;

// What is written of a recording. A job asks for a report or for stamps, but not for both.
fn written_of(judge: bool, stamped: bool) -> Written
    ensures stamped { stamped ≡ true → result ≡ Written.Stamped }
    ensures report { stamped ≡ false → judge ≡ true → result ≡ Written.Report }
    ensures history { stamped ≡ false → judge ≡ false → result ≡ Written.History }
{
    if stamped {
        Written::Stamped
    } else if judge {
        Written::Report
    } else {
        Written::History
    }
}

/// Does a job, and gives its exit status. The threads are those of `rt`; everything else is the host's.
pub(crate) fn done<Rt: Threads + Wait + Sync>(
    rt: &Rt,
    host: &HostRuntime,
    job: Job,
) -> Result<u8, Failure>
    requires { IsInRange job }
{
    match job {
        Job::Check {
            cutting,
            limit,
            options,
            input,
        } => check(rt, host, input, cutting, limit, options),
        Job::Follow {
            limit,
            windows,
            file,
        } => follow(rt, host, &file, limit, windows),
        Job::Cut { quiet, limit, file } => cut(rt, host, &file, report_of_cut(quiet), limit),
        Job::Shrink {
            shrunk,
            limit,
            file,
        } => answer(rt, host, &file, witness(shrunk), limit),
        Job::Explain {
            drawn,
            whole,
            faults,
            cut: true,
            limit,
            file,
        } => cut(
            rt,
            host,
            &file,
            explanation_of_cut(drawn, whole, faults),
            limit,
        ),
        Job::Explain {
            drawn,
            whole,
            faults,
            cut: false,
            limit,
            file,
        } => answer(rt, host, &file, explanation(drawn, whole, faults), limit),
        Job::Draw {
            form,
            part,
            limit,
            file,
        } => draw(rt, host, &file, form, part, limit),
        Job::Stats { json, limit, files } => count(rt, host, files, json, limit),
        Job::Record {
            workers,
            rounds,
            judge,
            scan,
            stamped,
            seed,
        } => {
            let rounds = Rounds {
                workers,
                rounds,
                scan,
                seed,
            };
            record(rt, host, rounds, written_of(judge, stamped))
        }
    }
}

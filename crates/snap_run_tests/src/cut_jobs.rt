//! The jobs of lines with --cut, and what is said about those that ask for none.
use self::Asked::{Explained, Report, Uncut};
use crate::jobs::job_on;
use crate::refused_words::expect_said;
use snap_core::{Limit, Writers};
use snap_words::Job;
use std::test::Fail;

// What is compared of the job that a line asks for.
#[derive(Clone, Copy, PartialEq)]
enum Asked {
    // whether the report of a cut is quiet, and its limit of events
    Report(bool, usize),
    // whether an explanation of a cut has a picture, and all entries, how many faults it tells, and its limit of events
    Explained(bool, bool, u32, usize),
    // the explanation of a history that is not cut
    Uncut,
    // any other job
    Other,
}

// Lines, the files that they name, and what is compared of the job that each asks for.
const CUTS: &[(&str, &[&str], Asked)] = &[
    ("snapjudge check --cut", &[], Report(false, 65536)),
    (
        "snapjudge check --cut --quiet a.csv",
        &["a.csv"],
        Report(true, 65536),
    ),
    (
        "snapjudge check -q a.csv --cut",
        &["a.csv"],
        Report(true, 65536),
    ),
    (
        "snapjudge check --cut --events 500",
        &[],
        Report(false, 500),
    ),
    (
        "snapjudge check --events=1048576 -q --cut -",
        &["-"],
        Report(true, 1048576),
    ),
    (
        "snapjudge check --cut --writers many",
        &[],
        Report(false, 65536),
    ),
    (
        "snapjudge check --cut --views 0 --format plain --no-progress",
        &[],
        Report(false, 65536),
    ),
    (
        "snapjudge explain --cut",
        &[],
        Explained(false, false, 1, 65536),
    ),
    (
        "snapjudge explain --cut --all --faults 3 a.csv",
        &["a.csv"],
        Explained(false, true, 3, 65536),
    ),
    (
        "snapjudge explain --draw --cut --writers many --events 7 -",
        &["-"],
        Explained(true, false, 1, 7),
    ),
    ("snapjudge explain --writers many a.csv", &["a.csv"], Uncut),
];

// What is compared of a job. That of a cut has many writers.
fn asked_by(job: &Job) -> Asked {
    match job {
        Job::Cut { quiet, limit, .. } if is_of_many(*limit) => Report(*quiet, limit.events()),
        Job::Explain {
            cut: true,
            drawn,
            whole,
            faults,
            limit,
            ..
        } if is_of_many(*limit) => Explained(*drawn, *whole, *faults, limit.events()),
        Job::Explain { cut: false, .. } => Uncut,
        _ => Asked::Other,
    }
}

fn is_of_many(limit: Limit) -> bool {
    limit.writers() == Writers::Many
}

#[test]
fn check_and_explain_take_a_cut(rt: HostRuntime) -> Result<(), Fail> {
    for (line, files, asked) in CUTS {
        if asked_by(&job_on(rt.alloc(), line, files)?) != *asked {
            return Err(Fail::from(*line));
        }
    }
    Ok(())
}

// Lines with what has no use with --cut, and what is said about them.
const REFUSED: &[(&str, &str)] = &[
    (
        "snapjudge check --cut --pieces 3",
        "error: the argument '--cut' cannot be used with '--pieces <P>'\n",
    ),
    (
        "snapjudge check --workers 2 --cut",
        "error: the argument '--cut' cannot be used with '--workers <W>'\n",
    ),
    (
        "snapjudge check --cut --views 1",
        "error: the argument '--cut' cannot be used with '--views <N>'\n",
    ),
    (
        "snapjudge check --cut --views 4 --events 7",
        "error: the argument '--cut' cannot be used with '--views <N>'\n",
    ),
    (
        "snapjudge check --cut a.csv b.csv",
        "error: --cut takes one history\n",
    ),
    (
        "snapjudge check --cut --writers one",
        "error: the argument '--cut' cannot be used with '--writers one'\n",
    ),
    (
        "snapjudge check --cut --follow",
        "error: the argument '--cut' cannot be used with '--follow'\n",
    ),
    (
        "snapjudge check --summary --cut",
        "error: the argument '--cut' cannot be used with '--summary'\n",
    ),
    (
        "snapjudge check --cut --format json",
        "error: the argument '--cut' cannot be used with '--format json'\n",
    ),
    (
        "snapjudge check --format=junit --cut",
        "error: the argument '--cut' cannot be used with '--format junit'\n",
    ),
    (
        "snapjudge check --cut --null",
        "error: the argument '--cut' cannot be used with '--null'\n",
    ),
    (
        "snapjudge check --cut --files-from l",
        "error: the argument '--cut' cannot be used with '--files-from <LIST>'\n",
    ),
    (
        "snapjudge check --cut --recursive d",
        "error: the argument '--cut' cannot be used with '--recursive <FOLDER>'\n",
    ),
    (
        "snapjudge check --cut --window 3",
        "error: the argument '--cut' cannot be used with '--window <N>'\n",
    ),
    (
        "snapjudge check --cut --window 8 --events 7",
        "error: the argument '--cut' cannot be used with '--window <N>'\n",
    ),
    (
        "snapjudge check --idle 1 --cut",
        "error: the argument '--cut' cannot be used with '--idle <SECONDS>'\n",
    ),
    (
        "snapjudge check --cut --late 1",
        "error: the argument '--cut' cannot be used with '--late <N>'\n",
    ),
    (
        "snapjudge check --cut --color always",
        "error: the argument '--cut' cannot be used with '--color <WHEN>'\n",
    ),
    (
        "snapjudge check --cut --color red",
        "error: invalid value for '--color <WHEN>'\n  [possible values: auto, always, never]\n\nFor more information, try '--help'.\n",
    ),
    (
        "snapjudge check --cut --writers two",
        "error: invalid value for '--writers <WRITERS>'\n  [possible values: one, many]\n\nFor more information, try '--help'.\n",
    ),
    (
        "snapjudge explain --cut --writers one",
        "error: the argument '--cut' cannot be used with '--writers one'\n",
    ),
    (
        "snapjudge explain --cut --draw --faults 2",
        "error: the argument '--draw' cannot be used with '--faults <N>'\n",
    ),
];

#[test]
fn what_has_no_use_with_a_cut_is_refused(rt: HostRuntime) -> Result<(), Fail> {
    expect_said(rt.alloc(), REFUSED)
}

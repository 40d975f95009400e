//! The recordings that words ask for.
use crate::jobs::job_on;
use snap_words::Job;
use std::test::Fail;

// Whether a recording is judged, scans, and has stamps.
type Flags = (bool, bool, bool);

const NO_FLAGS: Flags = (false, false, false);

// The workers and rounds of the recording that each line asks for, and its flags.
const RECORDS: &[(&str, u32, u32, Flags)] = &[
    ("snapjudge record", 2, 16, NO_FLAGS),
    (
        "snapjudge record --rounds 5 --judge",
        2,
        5,
        (true, false, false),
    ),
    (
        "snapjudge record --workers 2 --rounds=2048",
        2,
        2048,
        NO_FLAGS,
    ),
    ("snapjudge record --workers 3 --rounds 1", 3, 1, NO_FLAGS),
    (
        "snapjudge record --rounds 512 --workers=8",
        8,
        512,
        NO_FLAGS,
    ),
    (
        "snapjudge record --judge --rounds 1",
        2,
        1,
        (true, false, false),
    ),
    ("snapjudge record --scan", 2, 16, (false, true, false)),
    (
        "snapjudge record --scan --rounds 3 --judge",
        2,
        3,
        (true, true, false),
    ),
    ("snapjudge record --stamped", 2, 16, (false, false, true)),
    (
        "snapjudge record --stamped --rounds 7 --scan",
        2,
        7,
        (false, true, true),
    ),
    (
        "snapjudge record --events 1048576 --rounds 32768",
        2,
        32768,
        NO_FLAGS,
    ),
    ("snapjudge record --events 32 --rounds 1", 2, 1, NO_FLAGS),
    ("snapjudge record --events 32", 2, 1, NO_FLAGS),
    ("snapjudge record --events 63", 2, 1, NO_FLAGS),
    (
        "snapjudge record --events 64 --scan",
        2,
        2,
        (false, true, false),
    ),
    ("snapjudge record --workers 8 --events 100", 8, 3, NO_FLAGS),
    ("snapjudge record --events 511", 2, 15, NO_FLAGS),
    ("snapjudge record --events 512", 2, 16, NO_FLAGS),
    ("snapjudge record --events 1048576", 2, 16, NO_FLAGS),
];

// Whether a job is a recording of these numbers of workers and rounds, with these flags.
fn is_recording(job: &Job, wanted: (u32, u32), flags: Flags) -> bool {
    match job {
        Job::Record {
            workers,
            rounds,
            judge,
            scan,
            stamped,
            ..
        } => { (*workers, *rounds) == wanted && (*judge, *scan, *stamped) == flags }
        _ => false,
    }
}

#[test]
fn record_takes_workers_rounds_and_flags(rt: HostRuntime) -> Result<(), Fail> {
    for (line, workers, rounds, flags) in RECORDS {
        if !is_recording(&job_on(rt.alloc(), line, &[])?, (*workers, *rounds), *flags) {
            return Err(Fail::from(*line));
        }
    }
    Ok(())
}

// The seed of the recording that each line asks for.
const SEEDS: &[(&str, u32)] = &[
    ("snapjudge record", 0),
    ("snapjudge record --seed 0", 0),
    ("snapjudge record --seed 1 --rounds 7", 1),
    ("snapjudge record --rounds 7 --scan --judge --seed=77", 77),
    ("snapjudge record --stamped --seed 0077", 77),
    ("snapjudge record --seed 4294967295", 4_294_967_295),
];

#[test]
fn record_takes_a_seed(rt: HostRuntime) -> Result<(), Fail> {
    for (line, wanted) in SEEDS {
        match job_on(rt.alloc(), line, &[])? {
            Job::Record { seed, .. } => assert_eq!(rt; seed, *wanted),
            _ => return Err(Fail::from(*line)),
        }
    }
    Ok(())
}

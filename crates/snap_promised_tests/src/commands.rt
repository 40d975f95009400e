//! The jobs that words ask for.
use snap_words::{Job, JobFault, job_of};
use std::alloc::{AllocError, Global};
use std::test::Fail;

// The words of a command line.
fn words(alloc: Global, line: &str) -> Result<Vec<String>, AllocError> {
    let mut words = Vec::new(alloc);
    for word in line.split_whitespace() {
        words.push(String::from_str(alloc, word)?)?;
    }
    Ok(words)
}

// Lines that ask for no job.
const OTHER_LINES: &[&str] = &["snapjudge", "snapjudge judge", "snapjudge check --pieces 0"];

#[test]
fn other_words_get_the_usage(rt: HostRuntime) -> Result<(), Fail> {
    for line in OTHER_LINES {
        let answer = job_of(rt.alloc(), words(rt.alloc(), line)?);
        assert!(rt; matches!(answer, Err(JobFault::Usage(_))), "{line}");
    }
    Ok(())
}

// Lines that ask for a check, with its pieces and its workers.
const CHECKS: &[(&str, u32, u32)] = &[
    ("snapjudge check", 8, 2),
    ("snapjudge check --pieces 3 --workers 4", 3, 4),
];

// The pieces and the workers of the check that a line asks for.
fn check_of(alloc: Global, line: &str) -> Result<(u32, u32), Fail> {
    match job_of(alloc, words(alloc, line)?)? {
        Job::Check { cutting, .. } => Ok((cutting.pieces(), cutting.workers())),
        _ => Err(Fail::from(line)),
    }
}

#[test]
fn a_check_has_8_pieces_and_2_workers_unless_others_are_named(rt: HostRuntime) -> Result<(), Fail> {
    for (line, pieces, workers) in CHECKS {
        assert_eq!(rt; check_of(rt.alloc(), line)?, (*pieces, *workers));
    }
    Ok(())
}

// The workers and the rounds of a recording, and whether it is judged, scans, and has stamps.
type Recorded = (u32, u32, bool, bool, bool);

// Lines that ask for a recording.
const RECORDINGS: &[(&str, Recorded)] = &[
    ("snapjudge record", (2, 16, false, false, false)),
    (
        "snapjudge record --rounds 5 --judge",
        (2, 5, true, false, false),
    ),
    (
        "snapjudge record --workers 3 --rounds 1",
        (3, 1, false, false, false),
    ),
    (
        "snapjudge record --rounds 1 --scan",
        (2, 1, false, true, false),
    ),
    (
        "snapjudge record --rounds 1 --stamped",
        (2, 1, false, false, true),
    ),
];

// The recording that a line asks for.
fn recording_of(alloc: Global, line: &str) -> Result<Recorded, Fail> {
    match job_of(alloc, words(alloc, line)?)? {
        Job::Record {
            workers,
            rounds,
            judge,
            scan,
            stamped,
            ..
        } => Ok((workers, rounds, judge, scan, stamped)),
        _ => Err(Fail::from(line)),
    }
}

#[test]
fn a_recording_has_2_workers_and_16_rounds_unless_others_are_named(
    rt: HostRuntime,
) -> Result<(), Fail> {
    for (line, known) in RECORDINGS {
        assert!(rt; recording_of(rt.alloc(), line)? == *known, "{line}");
    }
    Ok(())
}

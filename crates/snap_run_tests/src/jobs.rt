//! The jobs that words ask for, and the files that they name.
use snap_core::{Limit, Writers};
use snap_options::Scheme;
use snap_words::{Form, Job, Shrunk, job_of};
use std::alloc::{AllocError, Global};
use std::test::Fail;

/// The words of a command line.
pub(crate) fn words(alloc: Global, line: &str) -> Result<Vec<String>, AllocError> {
    let mut words = Vec::new(alloc);
    for word in line.split_whitespace() {
        words.push(String::from_str(alloc, word)?)?;
    }
    Ok(words)
}

// Whether the names are exactly these files.
fn are_named(names: &[Vec<u8>], files: &[&str]) -> bool {
    if names.len() != files.len() {
        return false;
    }
    for i in 0..names.len() {
        if names[i].as_slice() != files[i].as_bytes() {
            return false;
        }
    }
    true
}

// Whether a name is the only one of these files, or absent if there is none.
fn is_named(name: &Option<Vec<u8>>, files: &[&str]) -> bool {
    match (name, files) {
        (Some(name), [file]) => name.as_slice() == file.as_bytes(),
        (None, []) => true,
        _ => false,
    }
}

// Whether a job is one on these files.
fn is_on(job: &Job, files: &[&str]) -> bool {
    match job {
        Job::Check { input, .. } => are_named(&input.files, files),
        Job::Stats { files: names, .. } => are_named(names, files),
        Job::Follow { file, .. }
        | Job::Cut { file, .. }
        | Job::Shrink { file, .. }
        | Job::Explain { file, .. }
        | Job::Draw { file, .. } => is_named(file, files),
        Job::Record { .. } => files.is_empty(),
    }
}

/// The job that a line asks for, if the list after it names each of its files.
pub(crate) fn job_on(alloc: Global, line: &str, files: &[&str]) -> Result<Job, Fail> {
    let Ok(job) = job_of(alloc, words(alloc, line)?) else {
        return Err(Fail::from(line));
    };
    if is_on(&job, files) {
        Ok(job)
    } else {
        Err(Fail::from(line))
    }
}

// Lines that name files, with the files.
const LINES_WITH_FILES: &[(&str, &[&str])] = &[
    ("snapjudge check a.csv", &["a.csv"]),
    (
        "snapjudge check b.csv --quiet - a.csv",
        &["b.csv", "-", "a.csv"],
    ),
    ("snapjudge check -- --quiet", &["--quiet"]),
    ("snapjudge check -q a.csv", &["a.csv"]),
    ("snapjudge check --follow a.csv --idle 3", &["a.csv"]),
    ("snapjudge check --follow", &[]),
    ("snapjudge check --cut a.csv", &["a.csv"]),
    ("snapjudge check --quiet --cut", &[]),
    ("snapjudge check - --cut --events 1048576", &["-"]),
    ("snapjudge shrink a.csv", &["a.csv"]),
    ("snapjudge shrink", &[]),
    ("snapjudge explain -", &["-"]),
    ("snapjudge explain", &[]),
    ("snapjudge explain --cut --all a.csv", &["a.csv"]),
    ("snapjudge explain --draw --cut", &[]),
    ("snapjudge draw a.csv", &["a.csv"]),
    ("snapjudge draw", &[]),
    ("snapjudge draw --svg -", &["-"]),
    ("snapjudge draw a.csv --text", &["a.csv"]),
    ("snapjudge stats a.csv", &["a.csv"]),
    ("snapjudge stats", &[]),
    ("snapjudge stats b.csv - a.csv", &["b.csv", "-", "a.csv"]),
    ("snapjudge stats --format json -", &["-"]),
    ("snapjudge stats --events 1048576 a.csv", &["a.csv"]),
    ("snapjudge shrink --draw a.csv", &["a.csv"]),
    ("snapjudge explain - --draw", &["-"]),
    ("snapjudge shrink --map a.csv", &["a.csv"]),
    ("snapjudge explain --all a.csv", &["a.csv"]),
    ("snapjudge explain --faults 1000 a.csv", &["a.csv"]),
    ("snapjudge explain --draw --all -", &["-"]),
    ("snapjudge draw --light a.csv", &["a.csv"]),
    ("snapjudge draw --svg --light a.csv", &["a.csv"]),
    ("snapjudge draw --dark --svg -", &["-"]),
    ("snapjudge draw --calls 2000 a.csv", &["a.csv"]),
    (
        "snapjudge draw --text --calls 12 --from 7 a.csv",
        &["a.csv"],
    ),
    ("snapjudge draw --svg --around 7 -", &["-"]),
    ("snapjudge shrink --events 1048576 a.csv", &["a.csv"]),
    ("snapjudge explain --events 1048576 --draw -", &["-"]),
    ("snapjudge draw a.csv --text --events 1048576", &["a.csv"]),
    ("snapjudge check --writers many a.csv", &["a.csv"]),
    ("snapjudge check --writers=one", &[]),
    ("snapjudge shrink a.csv --writers many", &["a.csv"]),
    ("snapjudge explain --writers many --draw -", &["-"]),
    ("snapjudge draw --svg --writers many", &[]),
    ("snapjudge stats --writers many a.csv -", &["a.csv", "-"]),
    ("snapjudge stats --writers one --events 1048576", &[]),
];

// The colours that the flags of a line name.
fn scheme_named(line: &str) -> Option<Scheme> {
    if line.contains(" --light") {
        Some(Scheme::Light)
    } else if line.contains(" --dark") {
        Some(Scheme::Dark)
    } else {
        None
    }
}

// The form of picture that the flags of a line name.
fn form_named(line: &str) -> Form {
    if line.contains(" --svg") {
        Form::Svg(scheme_named(line))
    } else if line.contains(" --text") {
        Form::Lines
    } else {
        Form::Page(scheme_named(line))
    }
}

// The limit of events that a line names.
fn events_named(line: &str) -> usize {
    if line.contains(" --events 1048576") {
        1048576
    } else {
        65536
    }
}

// The number of writers that a line names. With a cut it is many.
fn writers_named(line: &str) -> Writers {
    if line.contains(" --writers many") || line.contains(" --cut") {
        Writers::Many
    } else {
        Writers::One
    }
}

// Whether a limit is that which the words of a line name.
fn is_limit(line: &str, limit: Limit) -> bool {
    limit.events() == events_named(line) && limit.writers() == writers_named(line)
}

// Whether a job that reads one history draws, and has a limit, as the words of its line say.
fn is_drawn(line: &str, drawn: bool, limit: Limit) -> bool {
    drawn == line.contains(" --draw") && is_limit(line, limit)
}

// Whether a job is that of the command in its line.
fn is_its_command(job: &Job, line: &str) -> bool {
    match job {
        Job::Check { limit, .. } => {
            line.contains(" check")
                && !line.contains(" --follow")
                && !line.contains(" --cut")
                && limit.writers() == writers_named(line)
        }
        Job::Follow { .. } => line.contains(" check") && line.contains(" --follow"),
        Job::Cut { quiet, limit, .. } => {
            line.contains(" check")
                && line.contains(" --cut")
                && *quiet == line.contains(" --quiet")
                && is_limit(line, *limit)
        }
        Job::Shrink { shrunk, limit, .. } => {
            line.contains(" shrink")
                && is_drawn(line, *shrunk == Shrunk::Picture, *limit)
                && (*shrunk == Shrunk::Map) == line.contains(" --map")
        }
        Job::Explain {
            cut,
            drawn,
            whole,
            faults,
            limit,
            ..
        } => {
            line.contains(" explain")
                && *cut == line.contains(" --cut")
                && is_drawn(line, *drawn, *limit)
                && *whole == line.contains(" --all")
                && (*faults == 1000) == line.contains(" --faults")
        }
        Job::Draw { form, limit, .. } => {
            line.contains(" draw") && *form == form_named(line) && is_limit(line, *limit)
        }
        Job::Stats { json, limit, .. } => {
            line.contains(" stats") && *json == line.contains("json") && is_limit(line, *limit)
        }
        Job::Record { .. } => false,
    }
}

#[test]
fn files_are_those_of_the_words(rt: HostRuntime) -> Result<(), Fail> {
    for (line, files) in LINES_WITH_FILES {
        if !is_its_command(&job_on(rt.alloc(), line, files)?, line) {
            return Err(Fail::from(*line));
        }
    }
    Ok(())
}

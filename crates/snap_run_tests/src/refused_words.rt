//! Words that ask for no job, and what is said about them.
use crate::checks::same;
use crate::jobs::words;
use snap_words::{JobFault, job_of};
use std::alloc::{AllocError, Global};
use std::test::Fail;

// Lines that get the usage.
const OTHER_LINES: &[&str] = &[
    "snapjudge",
    "snapjudge judge",
    "snapjudge check --pieces 0",
    "snapjudge check --pieces 1025",
    "snapjudge check --pieces x",
    "snapjudge check --pieces",
    "snapjudge check --workers 0",
    "snapjudge check --workers 9",
    "snapjudge check --rounds 3",
    "snapjudge record --workers 1",
    "snapjudge record --workers 9",
    "snapjudge record --rounds 0",
    "snapjudge record --rounds 2049",
    "snapjudge record --rounds 2048 --events 65535",
    "snapjudge record --rounds 1 --events 31",
    "snapjudge record --rounds 32769 --events 1048576",
    "snapjudge record --events 31",
    "snapjudge record --events 0",
    "snapjudge record --events 1048577",
    "snapjudge record a.csv",
    "snapjudge record --pieces 8",
    "snapjudge record --judge=yes",
    "snapjudge record --scan=64",
    "snapjudge record --seed",
    "snapjudge record --seed abc",
    "snapjudge record --seed -1",
    "snapjudge record --seed 4294967296",
    "snapjudge record --seed 1 --seed 2",
    "snapjudge check --seed 1",
    "snapjudge record --judge --stamped",
    "snapjudge record --stamped --rounds 3 --judge",
    "snapjudge record --stamped=yes",
    "snapjudge check --stamped",
    "snapjudge check --writers",
    "snapjudge check --writers all",
    "snapjudge explain --writers",
    "snapjudge draw --writers one --writers many",
    "snapjudge record --writers many",
    "snapjudge check --scan",
    "snapjudge check --views",
    "snapjudge check --views 32769",
    "snapjudge check --views 3 --events 5",
    "snapjudge check --events 0",
    "snapjudge check --events 1048577",
    "snapjudge check --events",
    "snapjudge shrink --events 0",
    "snapjudge explain --events x",
    "snapjudge draw --events 1048577",
    "snapjudge stats --events 0",
    "snapjudge stats --format xml",
    "snapjudge stats --draw",
    "snapjudge stats - a.csv -",
    "snapjudge check --views -1",
    "snapjudge check --quiet=yes",
    "snapjudge check --format",
    "snapjudge check --format xml",
    "snapjudge check --format JSON",
    "snapjudge check --format json --quiet",
    "snapjudge check --quiet --format=json",
    "snapjudge check --quiet --format=junit",
    "snapjudge check --format Junit",
    "snapjudge stats --format junit",
    "snapjudge check --format json --format plain",
    "snapjudge check --follow=yes",
    "snapjudge check --window",
    "snapjudge check --window 0",
    "snapjudge check --window 1048577",
    "snapjudge check --idle",
    "snapjudge check --idle -1",
    "snapjudge check --idle 4294967296",
    "snapjudge check --late",
    "snapjudge check --follow --late -1",
    "snapjudge check --follow --late 1048577",
    "snapjudge check --follow a.csv b.csv",
    "snapjudge check - -",
    "snapjudge check - --files-from -",
    "snapjudge check -0",
    "snapjudge check --follow -0",
    "snapjudge check -q --summary",
    "snapjudge explain --format json",
    "snapjudge shrink a.csv b.csv",
    "snapjudge shrink --quiet",
    "snapjudge explain a.csv b.csv",
    "snapjudge explain --quiet",
    "snapjudge explain --follow",
    "snapjudge shrink --window 1000",
    "snapjudge record --quiet",
    "snapjudge record --views 3",
    "snapjudge record --idle 3",
    "snapjudge --help",
    "snapjudge check --help",
    "snapjudge record --help",
    "snapjudge shrink --help",
    "snapjudge explain --help",
    "snapjudge draw a.csv b.csv",
    "snapjudge draw --quiet",
    "snapjudge draw --svg=yes",
    "snapjudge draw --text=yes",
    "snapjudge draw --svg --text",
    "snapjudge draw --light --dark",
    "snapjudge draw --svg --dark --light",
    "snapjudge draw --text --light",
    "snapjudge draw --text --dark",
    "snapjudge draw --dark=yes",
    "snapjudge draw --calls 0",
    "snapjudge draw --calls 2001",
    "snapjudge draw --text --calls 13",
    "snapjudge draw --from 0",
    "snapjudge draw --around 1048577",
    "snapjudge draw --from 3 --around 3",
    "snapjudge draw --all",
    "snapjudge explain --all=yes",
    "snapjudge explain --dark",
    "snapjudge explain --faults 0",
    "snapjudge explain --faults 1001",
    "snapjudge explain --faults",
    "snapjudge explain --draw --faults 2",
    "snapjudge explain --map",
    "snapjudge shrink --map --draw",
    "snapjudge shrink --map=yes",
    "snapjudge shrink --faults 2",
    "snapjudge shrink --all",
    "snapjudge draw --text a.csv --svg",
    "snapjudge draw --draw",
    "snapjudge shrink --text",
    "snapjudge explain --svg",
    "snapjudge check --draw",
    "snapjudge draw --help",
    "snapjudge check --cut=yes",
    "snapjudge check --cut --rounds 3",
    "snapjudge shrink --cut",
    "snapjudge draw --cut",
    "snapjudge stats --cut",
    "snapjudge record --cut",
];

// Whether a line gets a text on the usage.
fn gets_usage(alloc: Global, line: &str) -> Result<bool, AllocError> {
    match job_of(alloc, words(alloc, line)?) {
        Err(JobFault::Usage(text)) => Ok(!text.is_empty()),
        _ => Ok(false),
    }
}

#[test]
fn other_words_get_the_usage(rt: HostRuntime) -> Result<(), Fail> {
    for line in OTHER_LINES {
        if !gets_usage(rt.alloc(), line)? {
            return Err(Fail::from(*line));
        }
    }
    Ok(())
}

// Lines with a number beyond the limit of events, or with a limit that allows no round, and what is said about it. It is what the
// parser says about a number that it refuses.
const BEYOND: &[(&str, &str)] = &[
    (
        "snapjudge record --rounds 2049",
        "error: invalid value '2049' for '--rounds <R>': 2049 is not in 1..=2048\n\nFor more information, try '--help'.\n",
    ),
    (
        "snapjudge record --rounds 0",
        "error: invalid value '0' for '--rounds <R>': 0 is not in 1..=2048\n\nFor more information, try '--help'.\n",
    ),
    (
        "snapjudge record --events 1048576 --rounds 32769",
        "error: invalid value '32769' for '--rounds <R>': 32769 is not in 1..=32768\n\nFor more information, try '--help'.\n",
    ),
    (
        "snapjudge record --events 100 --rounds 4",
        "error: invalid value '4' for '--rounds <R>': 4 is not in 1..=3\n\nFor more information, try '--help'.\n",
    ),
    (
        "snapjudge record --events 31",
        "error: invalid value '31' for '--events <N>': 31 is not in 32..=1048576\n\nFor more information, try '--help'.\n",
    ),
    (
        "snapjudge record --rounds 1 --events 31",
        "error: invalid value '31' for '--events <N>': 31 is not in 32..=1048576\n\nFor more information, try '--help'.\n",
    ),
    (
        "snapjudge check --views 32769",
        "error: invalid value '32769' for '--views <N>': 32769 is not in 0..=32768\n\nFor more information, try '--help'.\n",
    ),
    (
        "snapjudge check --events 7 --views 4",
        "error: invalid value '4' for '--views <N>': 4 is not in 0..=3\n\nFor more information, try '--help'.\n",
    ),
    (
        "snapjudge check --follow --events 999 --window 1000",
        "error: invalid value '1000' for '--window <N>': 1000 is not in 1..=999\n\nFor more information, try '--help'.\n",
    ),
    (
        "snapjudge check --window 65537 --follow",
        "error: invalid value '65537' for '--window <N>': 65537 is not in 1..=65536\n\nFor more information, try '--help'.\n",
    ),
];

// What is said about a line that asks for no job.
fn said_of(alloc: Global, line: &str) -> Result<String, Fail> {
    match job_of(alloc, words(alloc, line)?) {
        Err(JobFault::Usage(said)) => Ok(said),
        _ => Err(Fail::from(line)),
    }
}

/// This is said about each line.
pub(crate) fn expect_said(alloc: Global, known: &[(&str, &str)]) -> Result<(), Fail> {
    for (line, text) in known {
        same(said_of(alloc, line)?.as_str(), *text)?;
    }
    Ok(())
}

#[test]
fn a_number_beyond_the_limit_of_events_is_refused_as_the_parser_does(
    rt: HostRuntime,
) -> Result<(), Fail> {
    expect_said(rt.alloc(), BEYOND)
}

// Lines with options that do not go together, or with one that needs another, and what is said about them.
const TOGETHER: &[(&str, &str)] = &[
    (
        "snapjudge shrink --map --draw",
        "error: the argument '--draw' cannot be used with '--map'\n",
    ),
    (
        "snapjudge explain --faults 2 --draw",
        "error: the argument '--draw' cannot be used with '--faults <N>'\n",
    ),
    (
        "snapjudge draw --text --svg",
        "error: the argument '--svg' cannot be used with '--text'\n",
    ),
    (
        "snapjudge draw --svg --dark --light",
        "error: the argument '--light' cannot be used with '--dark'\n",
    ),
    (
        "snapjudge draw --around 3 --from 3",
        "error: the argument '--from <CALL>' cannot be used with '--around <CALL>'\n",
    ),
    (
        "snapjudge draw --text --light",
        "error: the argument '--light' cannot be used with '--text'\n",
    ),
    (
        "snapjudge draw --dark --text",
        "error: the argument '--dark' cannot be used with '--text'\n",
    ),
    (
        "snapjudge check --quiet --format json",
        "error: the argument '--quiet' cannot be used with '--format json'\n",
    ),
    (
        "snapjudge check --format junit --quiet",
        "error: the argument '--quiet' cannot be used with '--format junit'\n",
    ),
    (
        "snapjudge check --summary --format junit",
        "error: the argument '--summary' cannot be used with '--format junit'\n",
    ),
    (
        "snapjudge check --format=junit --follow",
        "error: the argument '--follow' cannot be used with '--format junit'\n",
    ),
    (
        "snapjudge check --summary --quiet",
        "error: the argument '--summary' cannot be used with '--quiet'\n",
    ),
    (
        "snapjudge check --follow --quiet",
        "error: the argument '--follow' cannot be used with '--quiet'\n",
    ),
    (
        "snapjudge check --format=json --follow",
        "error: the argument '--follow' cannot be used with '--format json'\n",
    ),
    (
        "snapjudge check --summary --follow",
        "error: the argument '--follow' cannot be used with '--summary'\n",
    ),
    (
        "snapjudge check --window 1000 --quiet",
        "error: the argument '--window <N>' needs '--follow'\n",
    ),
    (
        "snapjudge check --follow --pieces 8",
        "error: the argument '--follow' cannot be used with '--pieces <P>'\n",
    ),
    (
        "snapjudge check --workers=2 --follow",
        "error: the argument '--follow' cannot be used with '--workers <W>'\n",
    ),
    (
        "snapjudge check --writers two --follow",
        "error: invalid value for '--writers <WRITERS>'\n  [possible values: one, many]\n\nFor more information, try '--help'.\n",
    ),
    (
        "snapjudge stats --writers Many",
        "error: invalid value for '--writers <WRITERS>'\n  [possible values: one, many]\n\nFor more information, try '--help'.\n",
    ),
    (
        "snapjudge shrink --map --draw --writers 2",
        "error: invalid value for '--writers <WRITERS>'\n  [possible values: one, many]\n\nFor more information, try '--help'.\n",
    ),
    (
        "snapjudge check --follow --color auto",
        "error: the argument '--follow' cannot be used with '--color <WHEN>'\n",
    ),
    (
        "snapjudge check --follow --files-from list",
        "error: the argument '--follow' cannot be used with '--files-from <LIST>'\n",
    ),
    (
        "snapjudge check --follow -r runs",
        "error: the argument '--follow' cannot be used with '--recursive <FOLDER>'\n  tip: '--follow FOLDER' follows all recordings below a folder\n",
    ),
    (
        "snapjudge check --follow a.csv b.csv",
        "error: --follow takes one recording\n",
    ),
    (
        "snapjudge check a.csv --null",
        "error: the argument '--null' needs '--files-from <LIST>'\n",
    ),
    (
        "snapjudge check - a.csv --files-from=-",
        "error: - is standard input, and can be named once\n",
    ),
    (
        "snapjudge stats - a.csv -",
        "error: - is standard input, and can be named once\n",
    ),
    (
        "snapjudge check --json a.csv",
        "error: unexpected argument '--json' found\n\n  tip: '--format json' writes a JSON object for each history\n",
    ),
    (
        "snapjudge check --idle=0",
        "error: the argument '--idle <SECONDS>' needs '--follow'\n",
    ),
    (
        "snapjudge check --late 0",
        "error: the argument '--late <N>' needs '--follow'\n",
    ),
];

#[test]
fn options_go_together(rt: HostRuntime) -> Result<(), Fail> {
    expect_said(rt.alloc(), TOGETHER)
}

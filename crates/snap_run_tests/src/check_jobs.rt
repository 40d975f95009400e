//! The checks that words ask for.
use self::Asked::{Followed, Judged, Shown};
use crate::jobs::job_on;
use snap_core::Limit;
use snap_threads::Cutting;
use snap_words::{Color, Format, Job, Options, Windows};
use std::test::Fail;

// What is compared of the check that a line asks for.
#[derive(Clone, Copy)]
enum Asked {
    // its pieces and workers, whether it is quiet, its least number of views, its format, and its limit of events
    Judged(u32, u32, bool, u32, Format, usize),
    // whether it asks for sums and for no line of progress, and when its verdicts have colours
    Shown(bool, bool, Color),
    // that it goes by windows, from how many events on they end, after how many idle seconds it ends, and how many records may wait
    Followed(u32, u32, u32),
}

// Lines, and what is compared of the check that each asks for.
const CHECKS: &[(&str, Asked)] = &[
    (
        "snapjudge check",
        Judged(8, 2, false, 0, Format::Plain, 65536),
    ),
    (
        "snapjudge check --pieces 3 --workers 4",
        Judged(3, 4, false, 0, Format::Plain, 65536),
    ),
    (
        "snapjudge check --workers=8 --pieces=1024",
        Judged(1024, 8, false, 0, Format::Plain, 65536),
    ),
    (
        "snapjudge check --pieces 1 --workers 1",
        Judged(1, 1, false, 0, Format::Plain, 65536),
    ),
    (
        "snapjudge check --quiet",
        Judged(8, 2, true, 0, Format::Plain, 65536),
    ),
    (
        "snapjudge check -q",
        Judged(8, 2, true, 0, Format::Plain, 65536),
    ),
    (
        "snapjudge check --workers 3 --quiet",
        Judged(8, 3, true, 0, Format::Plain, 65536),
    ),
    (
        "snapjudge check --views 0",
        Judged(8, 2, false, 0, Format::Plain, 65536),
    ),
    (
        "snapjudge check --views 5",
        Judged(8, 2, false, 5, Format::Plain, 65536),
    ),
    (
        "snapjudge check --views=32768 --pieces 7 --quiet",
        Judged(7, 2, true, 32768, Format::Plain, 65536),
    ),
    (
        "snapjudge check --format json",
        Judged(8, 2, false, 0, Format::Json, 65536),
    ),
    (
        "snapjudge check --format junit --views 3",
        Judged(8, 2, false, 3, Format::Junit, 65536),
    ),
    (
        "snapjudge check --format=plain --quiet",
        Judged(8, 2, true, 0, Format::Plain, 65536),
    ),
    (
        "snapjudge check --views 5 --format=json --pieces 7",
        Judged(7, 2, false, 5, Format::Json, 65536),
    ),
    (
        "snapjudge check --events 1",
        Judged(8, 2, false, 0, Format::Plain, 1),
    ),
    (
        "snapjudge check --events=1048576 --views 524288",
        Judged(8, 2, false, 524288, Format::Plain, 1048576),
    ),
    ("snapjudge check", Shown(false, false, Color::Auto)),
    ("snapjudge check --summary", Shown(true, false, Color::Auto)),
    (
        "snapjudge check --color=never --no-progress",
        Shown(false, true, Color::Never),
    ),
    (
        "snapjudge check --color always --summary --views 3",
        Shown(true, false, Color::Always),
    ),
    (
        "snapjudge check --color auto --quiet",
        Shown(false, false, Color::Auto),
    ),
    ("snapjudge check --follow", Followed(1000, 0, 1000)),
    (
        "snapjudge check --follow --events 1999",
        Followed(1000, 0, 1000),
    ),
    (
        "snapjudge check --events 500 --follow",
        Followed(250, 0, 1000),
    ),
    ("snapjudge check --follow --events 1", Followed(1, 0, 1000)),
    (
        "snapjudge check --window 1 --follow --idle=4294967295",
        Followed(1, 4294967295, 1000),
    ),
    (
        "snapjudge check --follow --events 500 --window=500 --idle 5 --views 3",
        Followed(500, 5, 1000),
    ),
    ("snapjudge check --late 0 --follow", Followed(1000, 0, 0)),
    (
        "snapjudge check --follow --late=1048576",
        Followed(1000, 0, 1048576),
    ),
    (
        "snapjudge check --events 1048576 --window 1048576 --follow",
        Followed(1048576, 0, 1000),
    ),
];

// Whether a check with such a cutting, limit and options is this one.
fn is_asked(cutting: Cutting, limit: Limit, options: Options, asked: Asked) -> bool {
    match asked {
        Judged(pieces, workers, quiet, views, format, events) => {
            cutting.pieces() == pieces
                && cutting.workers() == workers
                && options.quiet == quiet
                && options.views == views
                && options.format == format
                && limit.events() == events
        }
        Shown(summary, no_progress, color) => {
            options.summary == summary
                && options.no_progress == no_progress
                && options.color == color
        }
        Followed(..) => false,
    }
}

// Whether a recording that is followed with such windows is this one.
fn is_followed(windows: Windows, asked: Asked) -> bool {
    match asked {
        Followed(least, idle, late) => {
            windows.least == least && windows.idle == idle && windows.late == late
        }
        _ => false,
    }
}

fn is_check(job: &Job, asked: Asked) -> bool {
    match job {
        Job::Check {
            cutting,
            limit,
            options,
            ..
        } => is_asked(*cutting, *limit, *options, asked),
        Job::Follow { windows, .. } => is_followed(*windows, asked),
        _ => false,
    }
}

#[test]
fn check_takes_pieces_workers_options_what_is_shown_and_windows(
    rt: HostRuntime,
) -> Result<(), Fail> {
    for (line, asked) in CHECKS {
        if !is_check(&job_on(rt.alloc(), line, &[])?, *asked) {
            return Err(Fail::from(*line));
        }
    }
    Ok(())
}

//! Checks that are quiet, or that ask for a number of completed views.
use super::checks::{STALE_REPORT, STALE_VIEW, cutting, end_of, history, history_up_to, same};
use snap_check::{
    CheckOptions, Checking, RunFault, SHARED_FROM, SHARED_PIECES, Status, check_run_with,
};
use snap_core::{Counted, Gate, Limit, OpenGate};
use snap_files::FileOptions;
use snap_testing::{Cup, Drip, Held, Meeting};
use snap_threads::Cutting;
use std::alloc::Global;
use std::io::{Read, Write};
use std::test::Fail;
use std::thread::Threads;

const NEW_THEN_OLD: &str = "\
begin,0,update,0:1:7
begin,1,view,
end,1,view,0:1:7
begin,2,view,
end,2,view,
end,0,update,
";

// A completed view and a pending view.
const HALF_PENDING: &str = "begin,0,view,\nbegin,1,view,\nend,1,view,\n";

const BUSY: &str = "begin,0,view,\nbegin,0,view,\n";

// A quiet check of a history within a limit of events.
fn quiet(limit: Limit) -> CheckOptions {
    CheckOptions {
        quiet: true,
        limit,
        ..CheckOptions::plain()
    }
}

// Records after the header, whether the check is quiet, the number of views that it asks for, how it ends, and what it writes.
const WORKED: &[(&str, bool, u32, &str, &str)] = &[
    (
        STALE_VIEW,
        true,
        0,
        "irregular",
        "regular no\nmonotone yes\natomic no\n",
    ),
    (
        NEW_THEN_OLD,
        true,
        0,
        "regular",
        "regular yes\nmonotone no\natomic no\n",
    ),
    (
        "",
        true,
        0,
        "atomic",
        "regular yes\nmonotone yes\natomic yes\n",
    ),
    (BUSY, true, 0, "refused", "refused record 3: busy\n"),
    (STALE_VIEW, false, 0, "irregular", STALE_REPORT),
    (STALE_VIEW, false, 1, "irregular", STALE_REPORT),
    (STALE_VIEW, false, 2, "too few views", ""),
    ("", false, 1, "too few views", ""),
    (HALF_PENDING, false, 2, "too few views", ""),
    (
        HALF_PENDING,
        false,
        1,
        "atomic",
        "events 3 calls 2 pending 1 views 1\nregular yes\nmonotone yes\natomic yes\norder 1\n2 p1 view\n",
    ),
    (BUSY, false, 32768, "refused", "refused record 3: busy\n"),
    (
        NEW_THEN_OLD,
        true,
        2,
        "regular",
        "regular yes\nmonotone no\natomic no\n",
    ),
    (STALE_VIEW, true, 2, "too few views", ""),
];

// How a check ends.
fn end_with(answer: Result<Option<Status>, RunFault>) -> &'static str {
    match answer {
        Ok(None) => "too few views",
        Ok(Some(status)) => end_of(Ok(status)),
        Err(fault) => end_of(Err(fault)),
    }
}

// How a check from a reader to a writer ends.
fn run_with<Rt: Threads + Sync, R: Read, W: Write>(
    rt: &Rt,
    alloc: Global,
    reader: &mut Counted<R>,
    writer: &mut Counted<W>,
    options: CheckOptions,
) -> Result<&'static str, Fail> {
    let checking = Checking {
        cutting: cutting(8, 2)?,
        gate: &OpenGate,
        options,
    };
    let answer = check_run_with(rt, alloc, reader, writer, &checking);
    Ok(end_with(answer))
}

// A check of a reader's text ends so, and writes this.
fn expect_with<Rt: Threads + Sync, R: Read + Drop>(
    rt: &Rt,
    alloc: Global,
    reader: R,
    options: CheckOptions,
    end: &str,
    report: &str,
) -> Result<(), Fail> {
    let mut reader = Counted::new(reader);
    let mut writer = Counted::new(Vec::new(alloc));
    let found = run_with(rt, alloc, &mut reader, &mut writer, options)?;
    same(found, end)?;
    same(str::from_utf8(&writer.into_inner())?, report)
}

#[test]
fn what_is_asked_for_is_written(rt: HostRuntime) -> Result<(), Fail> {
    let alloc = rt.alloc();
    for (records, quiet, views, end, report) in WORKED {
        let options = CheckOptions {
            quiet: *quiet,
            views: *views,
            ..CheckOptions::plain()
        };
        let text = history(alloc, records)?;
        expect_with(&rt, alloc, text.as_bytes(), options, end, report)?;
    }
    Ok(())
}

#[test]
fn a_read_that_fails_ends_a_quiet_check_before_anything_is_written(
    rt: HostRuntime,
) -> Result<(), Fail> {
    let alloc = rt.alloc();
    let text = history(alloc, STALE_VIEW)?;
    let mut reader = Counted::new(Drip::new(text.as_bytes(), 40));
    let mut writer = Counted::new(Vec::new(alloc));
    same(
        run_with(&rt, alloc, &mut reader, &mut writer, quiet(Limit::usual()))?,
        "read failed",
    )?;
    same(reader.failures(), 1)?;
    same(writer.into_inner().len(), 0)
}

#[test]
fn a_writer_that_fails_has_a_front_of_the_verdicts(rt: HostRuntime) -> Result<(), Fail> {
    let alloc = rt.alloc();
    let text = history(alloc, STALE_VIEW)?;
    let mut reader = Counted::new(text.as_bytes());
    let mut writer = Counted::new(Cup::new(alloc, 15, 4, true, false));
    same(
        run_with(&rt, alloc, &mut reader, &mut writer, quiet(Limit::usual()))?,
        "write failed",
    )?;
    same(
        str::from_utf8(&writer.into_inner().held)?,
        "regular no\nmono",
    )
}

// Limits of events, how a quiet check of four events within them ends, and what it writes.
const LIMITS: &[(u32, &str, &str)] = &[
    (1, "refused", "refused record 3: toomany\n"),
    (3, "refused", "refused record 5: toomany\n"),
    (4, "irregular", "regular no\nmonotone yes\natomic no\n"),
    (
        1_048_576,
        "irregular",
        "regular no\nmonotone yes\natomic no\n",
    ),
];

#[test]
fn a_history_has_at_most_as_many_events_as_are_asked_for(rt: HostRuntime) -> Result<(), Fail> {
    let alloc = rt.alloc();
    let text = history(alloc, STALE_VIEW)?;
    for (events, end, report) in LIMITS {
        let limit = Limit::new(*events).ok_or("a limit")?;
        expect_with(&rt, alloc, text.as_bytes(), quiet(limit), end, report)?;
    }
    Ok(())
}

#[test]
fn a_text_has_1024_bytes_for_each_event(rt: HostRuntime) -> Result<(), Fail> {
    let alloc = rt.alloc();
    let limit = Limit::new(2).ok_or("a limit")?;
    for (bytes, report) in [
        (2048, "refused record 1: header\n"),
        (2049, "refused record 0: toolong\n"),
    ] {
        let text = vec![in alloc; b'\n'; bytes]?;
        expect_with(&rt, alloc, text.as_slice(), quiet(limit), "refused", report)?;
    }
    Ok(())
}

#[test]
fn limits_are_1_to_1048576(rt: HostRuntime) {
    for events in [0, 1_048_577, u32::MAX] {
        assert!(rt; Limit::new(events).is_none());
    }
    for events in [1, 65_536, 1_048_576] {
        assert!(rt; Limit::new(events).is_some_and(|limit| limit.events() == events as usize));
    }
}

// Judges a text of this many bytes, whose workers pass a gate.
fn judge_past<Rt: Threads + Sync, G: Gate>(
    rt: &Rt,
    alloc: Global,
    options: CheckOptions,
    bytes: usize,
    cutting: Cutting,
    gate: &G,
) -> Result<(), Fail> {
    let text = history_up_to(alloc, STALE_VIEW, bytes)?;
    let mut reader = Counted::new(text.as_bytes());
    let mut writer = Counted::new(Vec::new(alloc));
    let checking = Checking {
        cutting,
        gate,
        options,
    };
    let answer = check_run_with(rt, alloc, &mut reader, &mut writer, &checking);
    same(end_with(answer), "irregular")?;
    same(str::from_utf8(&writer.into_inner())?, STALE_REPORT)
}

// With these options the check of a text of this many bytes has `workers` workers, who meet at their first pieces.
fn expect_workers<Rt: Threads + Sync>(
    rt: &Rt,
    alloc: Global,
    options: CheckOptions,
    bytes: usize,
    workers: u32,
) -> Result<(), Fail> {
    let gate = Meeting::of(workers, 0);
    judge_past(rt, alloc, options, bytes, cutting(1024, 2)?, &gate)?;
    same(gate.was_held(), true)
}

// The options that the program chooses, if the number of pieces is left to it or not.
fn chosen(finer: bool) -> CheckOptions {
    FileOptions::new(false, false, 0, Limit::usual(), finer).check
}

#[test]
fn the_program_lets_one_worker_judge_a_short_text(rt: HostRuntime) -> Result<(), Fail> {
    expect_workers(&rt, rt.alloc(), chosen(true), SHARED_FROM - 1, 1)?;
    expect_workers(&rt, rt.alloc(), chosen(true), SHARED_FROM, 2)
}

// Whether one worker, for whom 8 pieces of a long text are asked for, draws a piece of this number.
fn draws<Rt: Threads + Sync>(
    rt: &Rt,
    alloc: Global,
    finer: bool,
    piece: u32,
) -> Result<bool, Fail> {
    let gate = Meeting::of(1, piece);
    judge_past(rt, alloc, chosen(finer), SHARED_FROM, cutting(8, 1)?, &gate)?;
    Ok(gate.was_held())
}

#[test]
fn one_worker_has_8_pieces_of_a_long_text_only_if_they_are_asked_for(
    rt: HostRuntime,
) -> Result<(), Fail> {
    let alloc = rt.alloc();
    for (finer, pieces) in [(false, 8), (true, 1)] {
        same(draws(&rt, alloc, finer, pieces - 1)?, true)?;
        same(draws(&rt, alloc, finer, pieces)?, false)?;
    }
    Ok(())
}

#[test]
fn two_workers_share_more_pieces_unless_8_are_asked_for(rt: HostRuntime) -> Result<(), Fail> {
    let alloc = rt.alloc();
    for (finer, pieces) in [(false, 8), (true, SHARED_PIECES)] {
        // one holds a piece until the other has drawn all the rest
        let gate = Held::until(1, pieces - 2);
        judge_past(
            &rt,
            alloc,
            chosen(finer),
            SHARED_FROM,
            cutting(8, 2)?,
            &gate,
        )?;
        same(gate.was_left(), true)?;
    }
    Ok(())
}

#[test]
fn without_options_a_short_text_has_the_workers_that_were_asked_for(
    rt: HostRuntime,
) -> Result<(), Fail> {
    expect_workers(&rt, rt.alloc(), CheckOptions::plain(), 1024, 2)
}

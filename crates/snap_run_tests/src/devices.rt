//! Runs over readers and writers that fail, stop, or take little at a time.
use super::checks::{STALE_REPORT, STALE_VIEW, cutting, history, run, same};
use snap_core::Counted;
use snap_testing::{Cup, Drip};
use snap_threads::Cutting;
use std::alloc::Global;
use std::sync::Wait;
use std::test::Fail;
use std::thread::Threads;

// How a run ends if one read of its text fails, the failures that the reader counts, and the number of bytes that are written.
fn dripped<Rt: Threads + Wait + Sync>(
    rt: &Rt,
    alloc: Global,
    text: &[u8],
    cutting: Cutting,
    fails_at: u64,
) -> (&'static str, u64, usize) {
    let mut reader = Counted::new(Drip::new(text, fails_at));
    let mut writer = Counted::new(Vec::new(alloc));
    let end = run(rt, alloc, &mut reader, &mut writer, cutting);
    (end, reader.failures(), writer.into_inner().len())
}

#[test]
fn any_read_that_fails_ends_the_run_before_anything_is_written(
    rt: HostRuntime,
) -> Result<(), Fail> {
    let text = history(rt.alloc(), STALE_VIEW)?;
    let bytes = text.as_bytes();
    let cutting = cutting(2, 2)?;
    let reads = bytes.len() as u64 + 1;
    for fails_at in 1..=reads {
        let found = dripped(&rt, rt.alloc(), bytes, cutting, fails_at);
        same(found, ("read failed", 1, 0))?;
    }
    let found = dripped(&rt, rt.alloc(), bytes, cutting, reads + 1);
    same(found, ("irregular", 0, STALE_REPORT.len()))
}

// How a run that writes into a cup ends, the number of bytes in the cup, and whether they are a front of the report.
fn poured<Rt: Threads + Wait + Sync>(
    rt: &Rt,
    alloc: Global,
    text: &[u8],
    cutting: Cutting,
    cup: Cup,
) -> (&'static str, usize, bool) {
    let mut reader = Counted::new(text);
    let mut writer = Counted::new(cup);
    let end = run(rt, alloc, &mut reader, &mut writer, cutting);
    let cup = writer.into_inner();
    let is_front = STALE_REPORT.as_bytes().starts_with(&cup.held);
    (end, cup.held.len(), is_front)
}

#[test]
fn a_writer_whose_flush_fails_has_the_whole_report(rt: HostRuntime) -> Result<(), Fail> {
    let text = history(rt.alloc(), STALE_VIEW)?;
    let cup = Cup::new(rt.alloc(), 1000, 1000, true, true);
    let found = poured(&rt, rt.alloc(), text.as_bytes(), cutting(2, 2)?, cup);
    same(found, ("write failed", STALE_REPORT.len(), true))
}

#[test]
fn any_write_that_fails_ends_the_run_behind_the_bytes_before_it(
    rt: HostRuntime,
) -> Result<(), Fail> {
    let text = history(rt.alloc(), STALE_VIEW)?;
    let cutting = cutting(2, 2)?;
    for room in 0..STALE_REPORT.len() {
        let cup = Cup::new(rt.alloc(), room, 1, true, false);
        let found = poured(&rt, rt.alloc(), text.as_bytes(), cutting, cup);
        same(found, ("write failed", room, true))?;
    }
    Ok(())
}

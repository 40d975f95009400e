//! Recordings of rounds into writers that fail.
use super::checks::{end_of, same};
use super::recordings::{ATOMIC_HEAD, expect_stamps, expect_text};
use snap_core::Counted;
use snap_runs::{Rounds, Written, record_rounds};
use snap_testing::Cup;
use std::alloc::Global;
use std::sync::Wait;
use std::test::Fail;
use std::thread::Threads;

// How a recording into a cup ended, the number of failures that were counted, and the cup.
type Found = (&'static str, u64, Cup);

// One round of two workers, each of whom stores one value and then takes a view, or scans.
fn rounds<Rt: Threads + Wait + Sync>(
    rt: &Rt,
    alloc: Global,
    written: Written,
    scan: bool,
    cup: Cup,
) -> Found {
    let rounds = Rounds {
        workers: 2,
        rounds: 1,
        scan,
        seed: 0,
    };
    let mut writer = Counted::new(cup);
    let answer = record_rounds(rt, alloc, rounds, written, &mut writer);
    let failures = writer.failures();
    (end_of(answer), failures, writer.into_inner())
}

// A cup that takes one byte for each write until it is full. If its room is even, it then fails; otherwise it takes nothing.
fn small(alloc: Global, room: usize) -> Cup {
    Cup::new(alloc, room, 1, room % 2 == 0, false)
}

// The write fails, is counted once, and is the last call. The cup has exactly this, and nothing is flushed.
fn expect_front(found: Found, front: &[u8]) -> Result<(), Fail> {
    let (end, failures, cup) = found;
    same((end, failures, cup.flushes), ("write failed", 1, 0))?;
    same(cup.held.as_slice(), front)
}

// What is written, whether the recording scans, and what each run of it writes first.
const FRONTS: &[(Written, bool, &[u8])] = &[
    (Written::History, false, b"event,process,op,data\nbegin,"),
    (Written::History, true, b"event,process,op,data\nbegin,"),
    (
        Written::Report,
        false,
        b"events 8 calls 4 pending 0 views 2\nregular yes\nmonotone yes\natomic ",
    ),
    (Written::Report, true, ATOMIC_HEAD),
];

#[test]
fn rounds_whose_writer_fails_leave_a_front(rt: HostRuntime) -> Result<(), Fail> {
    for (written, scan, front) in FRONTS {
        for room in 0..front.len() {
            let cup = small(rt.alloc(), room);
            let found = rounds(&rt, rt.alloc(), *written, *scan, cup);
            expect_front(found, &front[..room])?;
        }
    }
    Ok(())
}

#[test]
fn rounds_with_stamps_whose_writer_fails_leave_a_front(rt: HostRuntime) -> Result<(), Fail> {
    let front = b"at,event,process,op,data\n0,begin,".as_slice();
    for scan in [false, true] {
        for room in 0..front.len() {
            let found = rounds(
                &rt,
                rt.alloc(),
                Written::Stamped,
                scan,
                small(rt.alloc(), room),
            );
            expect_front(found, &front[..room])?;
        }
    }
    Ok(())
}

// Cups with room for everything, of few bytes for each write and of many, and whether their flush fails; then how a recording ends.
const WIDE: &[(usize, bool, &str, u64)] = &[
    (3, false, "recorded", 0),
    (3, true, "write failed", 1),
    (1000, true, "write failed", 1),
];

#[test]
fn rounds_whose_flush_fails_are_written_whole(rt: HostRuntime) -> Result<(), Fail> {
    for (at_once, fails_at_flush, wanted, count) in WIDE {
        let cup = Cup::new(rt.alloc(), 1000, *at_once, true, *fails_at_flush);
        let (end, failures, cup) = rounds(&rt, rt.alloc(), Written::History, false, cup);
        same((end, failures, cup.flushes), (*wanted, *count, 1))?;
        expect_text(
            &cup.held,
            8,
            &["begin,0,update,0:1:1", "begin,1,update,1:1:65537"],
        )?;
    }
    Ok(())
}

#[test]
fn rounds_with_stamps_whose_flush_fails_are_written_whole(rt: HostRuntime) -> Result<(), Fail> {
    for (at_once, fails_at_flush, wanted, count) in WIDE {
        let cup = Cup::new(rt.alloc(), 1000, *at_once, true, *fails_at_flush);
        let (end, failures, cup) = rounds(&rt, rt.alloc(), Written::Stamped, false, cup);
        same((end, failures, cup.flushes), (*wanted, *count, 1))?;
        expect_stamps(&cup.held, &["0", "1", "2", "3", "4", "5", "6", "7"])?;
    }
    Ok(())
}

#[test]
fn a_judged_round_whose_flush_fails_has_no_verdict_and_its_whole_report(
    rt: HostRuntime,
) -> Result<(), Fail> {
    let cup = Cup::new(rt.alloc(), 1000, 1000, true, true);
    let (end, failures, cup) = rounds(&rt, rt.alloc(), Written::Report, true, cup);
    same((end, failures, cup.flushes), ("write failed", 1, 1))?;
    let report = str::from_utf8(&cup.held)?;
    // the head, and a line for each of the four calls
    same(report.lines().count(), 9)?;
    same(cup.held.starts_with(ATOMIC_HEAD), true)
}

//! Checks whose reader or writer fails, or takes little at a time.
use crate::reports::{STALE_REPORT, STALE_VIEW};
use snap_check::{RunFault, Status, check_run};
use snap_core::{Counted, OpenGate};
use snap_pairs::Cutting;
use snap_testing::{Cup, Drip};
use std::alloc::Global;
use std::test::Fail;
use std::thread::Threads;

#[test]
fn where_the_first_read_fails_nothing_is_written(rt: HostRuntime) -> Result<(), Fail> {
    let mut reader = Counted::new(Drip::new(STALE_VIEW.1.as_bytes(), 1));
    let mut writer = Counted::new(Vec::new(rt.alloc()));
    let cutting = Cutting::new(2, 2)?;
    let answer = check_run(
        &rt,
        rt.alloc(),
        &mut reader,
        &mut writer,
        cutting,
        &OpenGate,
    );
    assert!(rt; matches!(answer, Err(RunFault::Read)) && writer.into_inner().is_empty());
    Ok(())
}

// Whether the check of a text ends with this status, or fails at a write, and what is then in its cup.
fn poured<R: Threads + Sync>(
    rt: &R,
    alloc: Global,
    cup: Cup,
    status: Option<Status>,
) -> Result<(bool, Vec<u8>), Fail> {
    let mut reader = Counted::new(STALE_VIEW.1.as_bytes());
    let mut writer = Counted::new(cup);
    let cutting = Cutting::new(2, 2)?;
    let answer = check_run(rt, alloc, &mut reader, &mut writer, cutting, &OpenGate);
    let is_known = match answer {
        Ok(found) => status == Some(found),
        Err(fault) => status.is_none() && matches!(fault, RunFault::Write),
    };
    Ok((is_known, writer.into_inner().held))
}

// The room of a cup, the bytes that it takes for each write, and whether it fails when it is full. Then the status of the check, if
// it has one, and what is in the cup.
const CUPS: &[(usize, usize, bool, Option<Status>, &str)] = &[
    (10, 100, true, None, "events 4 c"),
    (1000, 1, true, Some(Status::Irregular), STALE_REPORT),
    (0, 1000, false, None, ""),
];

#[test]
fn a_writer_that_fails_has_the_bytes_that_it_took(rt: HostRuntime) -> Result<(), Fail> {
    for (room, at_once, fails_when_full, status, known) in CUPS {
        let cup = Cup::new(rt.alloc(), *room, *at_once, *fails_when_full, false);
        let (is_known, held) = poured(&rt, rt.alloc(), cup, *status)?;
        assert!(rt;
            is_known && held.as_slice() == known.as_bytes(),
            "{room} by {at_once}"
        );
    }
    Ok(())
}

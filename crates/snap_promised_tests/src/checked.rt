//! Checks of texts from memory, and their wanted answers.
use snap_check::{Status, check_run};
use snap_core::{Counted, Gate};
use snap_pairs::Cutting;
use std::alloc::Global;
use std::process::Abort;
use std::test::Fail;
use std::thread::Threads;

/// What a text shows, the text, how its check ends, and its report.
pub(crate) type Worked = (&'static str, &'static str, Status, &'static str);

/// How the check of a text ends, unless it fails, and what it writes.
pub(crate) fn checked<R: Threads + Sync, G: Gate>(
    rt: &R,
    alloc: Global,
    text: &[u8],
    cutting: Cutting,
    gate: &G,
) -> (Option<Status>, Vec<u8>) {
    let mut reader = Counted::new(text);
    let mut writer = Counted::new(Vec::new(alloc));
    let answer = check_run(rt, alloc, &mut reader, &mut writer, cutting, gate);
    (answer.ok(), writer.into_inner())
}

/// The check of a text ends so, and writes this report.
pub(crate) fn expect_report<R: Threads + Sync + Abort, G: Gate>(
    rt: &R,
    alloc: Global,
    worked: (&str, &[u8], Status, &str),
    cutting: Cutting,
    gate: &G,
) -> Result<(), Fail> {
    let (name, text, status, report) = worked;
    let (found, written) = checked(rt, alloc, text, cutting, gate);
    assert!(rt; found == Some(status), "{name}");
    assert_eq!(rt; str::from_utf8(&written)?, report, "{name}");
    Ok(())
}

/// The check of a worked text ends and reports as it must.
pub(crate) fn expect_worked<R: Threads + Sync + Abort, G: Gate>(
    rt: &R,
    alloc: Global,
    worked: Worked,
    cutting: Cutting,
    gate: &G,
) -> Result<(), Fail> {
    let (name, text, status, report) = worked;
    expect_report(
        rt,
        alloc,
        (name, text.as_bytes(), status, report),
        cutting,
        gate,
    )
}

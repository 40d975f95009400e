//! Checks of texts from memory, and their wanted answers.
use snap_check::{RunFault, Status, check_run};
use snap_core::{Counted, Gate, OpenGate};
use snap_threads::Cutting;
use std::alloc::{AllocError, Global};
use std::fmt::Debug;
use std::io::{Read, Write};
use std::sync::Wait;
use std::test::Fail;
use std::thread::Threads;

/// Records after the header, how the check of that text ends, and its report.
pub(super) type Worked = (&'static str, &'static str, &'static str);

/// The records of a view that misses an update which had ended.
pub(super) const STALE_VIEW: &str =
    "begin,0,update,0:1:7\nend,0,update,\nbegin,1,view,\nend,1,view,\n";

/// The report of that history.
pub(super) const STALE_REPORT: &str = "\
events 4 calls 2 pending 0 views 1
regular no
monotone yes
atomic no
proximity 1 first view 2 entry 0:0 old
";

/// The text of a history with these records after the header.
pub(super) fn history(alloc: Global, records: &str) -> Result<String, AllocError> {
    format!(in alloc; "event,process,op,data\n{records}")
}

/// The text of a history, with empty lines after it up to `bytes` bytes.
pub(super) fn history_up_to(
    alloc: Global,
    records: &str,
    bytes: usize,
) -> Result<String, AllocError> {
    let mut text = history(alloc, records)?;
    for _ in text.len()..bytes {
        text.push('\n')?;
    }
    Ok(text)
}

/// How a run ended.
pub(super) fn end_of(answer: Result<Status, RunFault>) -> &'static str {
    match answer {
        Ok(Status::Atomic) => "atomic",
        Ok(Status::Regular) => "regular",
        Ok(Status::Irregular) => "irregular",
        Ok(Status::Refused) => "refused",
        Ok(Status::Recorded) => "recorded",
        Err(RunFault::Read) => "read failed",
        Err(RunFault::Write) => "write failed",
        Err(RunFault::Memory) => "out of memory",
    }
}

/// The cutting into `pieces` pieces for `workers` workers.
pub(super) fn cutting(pieces: u32, workers: u32) -> Result<Cutting, Fail> {
    Ok(Cutting::new(pieces, workers)?)
}

/// How a run from a reader to a writer ended.
pub(super) fn run<Rt: Threads + Wait + Sync, R: Read, W: Write>(
    rt: &Rt,
    alloc: Global,
    reader: &mut Counted<R>,
    writer: &mut Counted<W>,
    cutting: Cutting,
) -> &'static str {
    end_of(check_run(rt, alloc, reader, writer, cutting, &OpenGate))
}

/// How the check of a text ends, and what it writes.
fn check<Rt: Threads + Wait + Sync, G: Gate>(
    rt: &Rt,
    alloc: Global,
    text: &[u8],
    cutting: Cutting,
    gate: &G,
) -> (&'static str, Vec<u8>) {
    let mut reader = Counted::new(text);
    let mut writer = Counted::new(Vec::new(alloc));
    let answer = check_run(rt, alloc, &mut reader, &mut writer, cutting, gate);
    (end_of(answer), writer.into_inner())
}

/// The two are the same; otherwise the failure prints both.
pub(super) fn same<T: PartialEq + Debug + Drop>(found: T, wanted: T) -> Result<(), Fail> {
    if found == wanted {
        return Ok(());
    }
    Err(Fail::new(format_args!("{found:?} is not {wanted:?}")))
}

/// The check of a text ends so, and writes this report.
pub(super) fn expect<Rt: Threads + Wait + Sync, G: Gate>(
    rt: &Rt,
    alloc: Global,
    text: &[u8],
    cutting: Cutting,
    gate: &G,
    end: &str,
    report: &str,
) -> Result<(), Fail> {
    let (found, out) = check(rt, alloc, text, cutting, gate);
    same(found, end)?;
    same(str::from_utf8(&out)?, report)
}

/// The check of a worked history ends and reports as it must.
pub(super) fn expect_worked<Rt: Threads + Wait + Sync, G: Gate>(
    rt: &Rt,
    alloc: Global,
    worked: Worked,
    cutting: Cutting,
    gate: &G,
) -> Result<(), Fail> {
    let (records, end, report) = worked;
    let text = history(alloc, records)?;
    expect(rt, alloc, text.as_bytes(), cutting, gate, end, report)
}

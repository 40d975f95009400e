//! Callers of the calls of snap_check, snap_runs and snap_words.
use snap_check::{RunFault, Status};
use snap_core::{Counted, Gate};
use snap_pairs::Cutting;
use snap_record::Plan;
use snap_words::{Job, JobFault};
use std::alloc::Global;
use std::io::{Read, Write};
use std::sync::Wait;
use std::thread::Threads;

fn status_code(status: Status) -> u8 {
    status.code()
}

fn check_run<Rt: Threads + Sync, R: Read, W: Write, G: Gate>(
    rt: &Rt,
    alloc: Global,
    reader: &mut Counted<R>,
    writer: &mut Counted<W>,
    cutting: Cutting,
    gate: &G,
) -> Result<Status, RunFault> {
    snap_check::check_run(rt, alloc, reader, writer, cutting, gate)
}

fn record_run<Rt: Threads + Wait + Sync, W: Write, G: Gate>(
    rt: &Rt,
    alloc: Global,
    plan: &Plan,
    judge: bool,
    writer: &mut Counted<W>,
    cutting: Cutting,
    gate: &G,
) -> Result<Status, RunFault> {
    snap_runs::record_run(rt, alloc, plan, judge, writer, cutting, gate)
}

fn record_run_stamped<Rt: Threads + Wait + Sync, W: Write, G: Gate>(
    rt: &Rt,
    alloc: Global,
    plan: &Plan,
    writer: &mut Counted<W>,
    gate: &G,
) -> Result<Status, RunFault> {
    snap_runs::record_run_stamped(rt, alloc, plan, writer, gate)
}

fn job_of(alloc: Global, words: Vec<String>) -> Result<Job, JobFault> {
    snap_words::job_of(alloc, words)
}

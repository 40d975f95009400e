//! Makes each call that takes memory on a small worked case, and says of each whether its answer is the whole one. If memory is
//! refused, as from outside, a call says so, and what it leaves is as it promises. The next line is then whole again. No user runs
//! this program; a script refuses it each allocation, one after the other.
#![tactic(auto)]

mod boards;
mod fault;
mod histories;
mod recordings;
mod texts;
mod views;

use fault::Fault;
use std::alloc::Global;
use std::sync::Wait;
use std::thread::Threads;
use texts::Made;

// The outcome of a case, in words.
fn outcome(seen: Result<(), Fault>) -> &'static str {
    match seen {
        Ok(()) => "whole",
        Err(Fault::Memory) => "out of memory",
        Err(Fault::Wrong) => "wrong",
    }
}

fn say(host: &HostRuntime, name: &str, seen: Result<(), Fault>) {
    let words = outcome(seen);
    let _ = println!(host; "{name}: {words}");
}

fn sweep_histories<R: Threads + Sync>(rt: &R, host: &HostRuntime, alloc: Global) {
    say(host, "push", histories::push(alloc));
    say(host, "index", histories::index(alloc));
    say(host, "order", histories::order(rt, alloc));
    say(host, "tally", histories::tally_of_pieces(rt, alloc));
    say(host, "tally of parts", histories::tally_of_parts(rt, alloc));
    let seen = histories::tallies_and_chains(rt, alloc);
    say(host, "tally and chain", seen);
}

fn sweep_views(host: &HostRuntime, alloc: Global) {
    say(host, "chains", views::chains(alloc));
    say(host, "grids", views::grids(alloc));
    say(host, "columns", views::columns(alloc));
    say(host, "grid of a chain", views::grid_of_chain(alloc));
    let seen = views::tallies_and_chains(alloc);
    say(host, "tally and chain on one thread", seen);
    say(host, "claims", histories::claims(alloc));
}

fn sweep_texts<R: Threads + Sync>(rt: &R, host: &HostRuntime, alloc: Global) {
    say(host, "read", texts::read(alloc));
    say(host, "read in memory", texts::read_in_memory(rt, alloc));
    say(host, "read with records", texts::read_with_records(alloc));
    say(host, "record", texts::record(alloc));
    say(host, "write", texts::write(alloc));
    say(host, "write with stamps", texts::write_stamped(alloc));
    say(host, "fields", texts::fields(alloc));
}

fn sweep_reports<R: Threads + Sync>(rt: &R, host: &HostRuntime, alloc: Global) {
    say(host, "report", texts::text_made(alloc, Made::Report));
    say(
        host,
        "report in memory",
        texts::text_made(alloc, Made::ReportInMemory),
    );
    let seen = texts::verdict_along_chain(rt, alloc);
    say(host, "verdict along a chain", seen);
    say(host, "words", texts::words(alloc));
    say(
        host,
        "verdicts alone",
        texts::text_made(alloc, Made::VerdictsAlone),
    );
    say(
        host,
        "brief verdict",
        texts::text_made(alloc, Made::BriefVerdict),
    );
    say(host, "witness", texts::text_made(alloc, Made::Witness));
    say(host, "refusal", texts::refusal(alloc));
    say(host, "verdict", texts::verdict(alloc));
}

fn sweep_boards<R: Threads + Wait + Sync>(rt: &R, host: &HostRuntime, alloc: Global) {
    say(host, "collect", boards::collect(alloc));
    say(host, "scan", boards::scan(alloc));
    say(host, "relay", recordings::relay(rt, alloc));
    let seen = recordings::recording(rt, alloc, false);
    say(host, "recording", seen);
    let seen = recordings::recording(rt, alloc, true);
    say(host, "recording of scans", seen);
}

fn main(rt: HostRuntime) {
    sweep_histories(&rt, &rt, rt.alloc());
    sweep_views(&rt, rt.alloc());
    sweep_texts(&rt, &rt, rt.alloc());
    sweep_reports(&rt, &rt, rt.alloc());
    sweep_boards(&rt, &rt, rt.alloc());
}

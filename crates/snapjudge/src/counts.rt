//! What the texts of some names have shown.
use snap_commands::{Failure, Outlet, stats, system};
use snap_core::{Counted, Limit};
use snap_files::{Crew, FileOptions, Files, check_all};
use snap_threads::Cutting;
use std::thread::Threads;

// What each of some texts has shown, with its name.
fn count_names<Rt: Threads + Sync>(
    rt: &Rt,
    host: &HostRuntime,
    names: &[Vec<u8>],
    json: bool,
    limit: Limit,
) -> Result<u8, Failure> {
    let mut writer = Counted::new(Outlet::new(host.stdout()));
    let mut errors = Counted::new(host.stderr());
    let crew = Crew {
        rt,
        cutting: Cutting::usual(),
    };
    let files = Files {
        opener: &system(host),
        names,
    };
    let options = FileOptions::counts(json, limit);
    let alloc = host.alloc();
    match check_all(&crew, alloc, &files, &mut writer, &mut errors, options) {
        Ok(code) => Ok(code),
        Err(fault) => Err(Failure::of_run(fault, &writer.into_inner())),
    }
}

/// Counts what the texts of some names have shown, or standard input if there are none. The answers of several have their names.
pub(crate) fn count<Rt: Threads + Sync>(
    rt: &Rt,
    host: &HostRuntime,
    names: Vec<Vec<u8>>,
    json: bool,
    limit: Limit,
) -> Result<u8, Failure> {
    if names.len() > 1 {
        return count_names(rt, host, &names, json, limit);
    }
    stats(rt, host, &names.into_iter().next(), json, limit)
}

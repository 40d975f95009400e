//! The check of several texts that writes only the sums.
ghost use Rattle.std.specs.Prelude.{◌≡◌, ◌++◌, ◌+◌, ◌<◌, ◌^◌, List, IfErr, IfOk, OnOk, length};
ghost use Rattle.snap_core.specs.Counting.{failures_in, inner_of};
ghost use Rattle.snap_check.specs.Runs.{RunCounts};
ghost use Rattle.snap_files.specs.Files.{Told, said};
ghost use Rattle.snap_files.specs.inside.Files.{paged};
ghost use Rattle.snap_files.specs.inside.Sums.{AreSums, Summed};
ghost use Rattle.snap_files.specs.Sums.{Judged, SumsAll, SumsSome, counting, judged_of};

use crate::crew::{Crew, Files};
use crate::format::{FileOptions, Format};
use crate::page::{Answer, code_of, told_of};
use crate::round::{pages_of, round_at};
use crate::sums::Sums;
use snap_check::{CheckOptions, RunFault};
use snap_core::Counted;
use snap_names::Opener;
use std::alloc::{AllocError, Global};
use std::io::Write;
use std::thread::Threads;

// What is asked of each text: its report is dropped, so it is a short one.
fn options_of(check: CheckOptions) -> FileOptions
    ensures { result ≡ counting check }
{
    FileOptions {
        format: Format::Plain,
        check: CheckOptions {
            quiet: true,
            ..check
        },
    }
}

// Counts the names of a round, and says why some have no status.
fn count_round<E: Write>(
    alloc: Global,
    names: &[Vec<u8>],
    pages: &[(Answer, Vec<u8>)],
    errors: &mut Counted<E>,
    sums: &mut Sums,
    options: FileOptions,
) -> Result<(), AllocError>
    requires { length pages.now ≡ length names.now }
    ensures counts { (before : List Judged) → length before + length names.now < 2 ^ 64 → AreSums before sums.old
        → OnOk result (AreSums (before ++ judged_of (paged names.now pages.now)) sums.new) }
    ensures told { OnOk result (Told (E.contents (inner_of errors.old)) (E.contents (inner_of errors.new)) (failures_in errors.old) (failures_in errors.new)
        (said options (paged names.now pages.now))) }
{
    for place in 0..names.len() {
        let name = &names[place];
        let (answer, _) = &pages[place];
        let told = told_of(alloc, name, options, answer)?;
        let _ = errors.send(&told);
        sums.add(code_of(answer));
    }
    Ok(())
}

// Judges the texts of some names, round by round, and counts them.
fn sums_of<Rt: Threads + Sync, O: Opener, E: Write>(
    crew: &Crew<'_, Rt>,
    alloc: Global,
    files: &Files<'_, O>,
    errors: &mut Counted<E>,
    check: CheckOptions,
) -> Result<Sums, AllocError>
    ensures { IfOk result (Summed (O.opens files.now.opener.now) check files.now.names.now (E.contents (inner_of errors.old)) (E.contents (inner_of errors.new))
        (failures_in errors.old) (failures_in errors.new)) }
{
    let Files { opener, names } = *files;
    let options = options_of(check);
    let mut sums = Sums::new();
    let mut from = 0;
    while from < names.len() {
        let round = round_at(names, from, crew.cutting);
        let pages = pages_of(crew, alloc, opener, round, options)?;
        count_round(alloc, round, &pages, errors, &mut sums, options)?;
        from += round.len();
    }
    Ok(sums)
}

/// Checks the texts of some names as `check_all` does, and writes no report. After all are judged, it writes the number of files with each
/// status, and the first of them in the order of the names. It answers the greatest exit status. A history with fewer completed views
/// than `check` asks for counts as refused, and so does one beyond its limit of events. The reasons go to the error output as at
/// `check_all`.
///
/// Memory holds what one round needs, and no report of an earlier round. Sums that can't be written end in `Write`.
pub fn sum_all<Rt: Threads + Sync, O: Opener, W: Write, E: Write>(
    crew: &Crew<'_, Rt>,
    alloc: Global,
    files: &Files<'_, O>,
    writer: &mut Counted<W>,
    errors: &mut Counted<E>,
    check: CheckOptions,
) -> Result<u8, RunFault>
    ensures all { IfOk result (SumsAll (O.opens files.now.opener.now) check files.now.names.now (W.contents (inner_of writer.old)) (W.contents (inner_of writer.new))
        (E.contents (inner_of errors.old)) (E.contents (inner_of errors.new)) (failures_in errors.old) (failures_in errors.new)) }
    ensures some { IfErr result (λ _. SumsSome (O.opens files.now.opener.now) check files.now.names.now (W.contents (inner_of writer.old)) (W.contents (inner_of writer.new))) }
    ensures counts { RunCounts 0 0 (failures_in writer.old) (failures_in writer.new) result }
{
    let sums = sums_of(crew, alloc, files, errors, check)?;
    let text = sums.text(alloc, files.names)?;
    if writer.send(&text).is_err() {
        return Err(RunFault::Write);
    }
    Ok(sums.greatest())
}

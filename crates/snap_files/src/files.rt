//! The answers for several texts.
ghost use Rattle.std.specs.Prelude.{◌≡◌, IfOk, IfErr, length};
ghost use Rattle.snap_core.specs.Counting.{failures_in, inner_of};
ghost use Rattle.snap_core.specs.Sending.{SendsFront};
ghost use Rattle.snap_files.specs.Files.{ChecksAll, ChecksSome, written};
ghost use Rattle.snap_files.specs.inside.Files.{WritesAll, paged};
ghost use Rattle.snap_check.specs.Runs.{RunCounts};

use crate::crew::{Crew, Files};
use crate::format::FileOptions;
use crate::page::{Answer, code_of, told_of};
use crate::round::{pages_of, round_at};
use snap_check::RunFault;
use snap_core::Counted;
use snap_names::Opener;
use std::alloc::Global;
use std::io::Write;
use std::thread::Threads;

/// Writes what there is for the names of a round, and says why some have no status. Answers their greatest exit status.
pub(crate) fn write_round<W: Write, E: Write>(
    alloc: Global,
    names: &[Vec<u8>],
    pages: &[(Answer, Vec<u8>)],
    writer: &mut Counted<W>,
    errors: &mut Counted<E>,
    options: FileOptions,
) -> Result<u8, RunFault>
    requires { length pages.now ≡ length names.now }
    ensures all { IfOk result (WritesAll options (paged names.now pages.now) (W.contents (inner_of writer.old)) (W.contents (inner_of writer.new))
        (E.contents (inner_of errors.old)) (E.contents (inner_of errors.new)) (failures_in errors.old) (failures_in errors.new)) }
    ensures some { IfErr result (λ _. SendsFront (W.contents (inner_of writer.old)) (W.contents (inner_of writer.new)) (written (paged names.now pages.now))) }
    ensures counts { RunCounts 0 0 (failures_in writer.old) (failures_in writer.new) result }
{
    let mut greatest = 0;
    for place in 0..names.len() {
        let name = &names[place];
        let (answer, out) = &pages[place];
        let told = told_of(alloc, name, options, answer)?;
        let _ = errors.send(&told);
        greatest = code_of(answer).max(greatest);
        if writer.send(out).is_err() {
            return Err(RunFault::Write);
        }
    }
    Ok(greatest)
}

/// Checks the texts of some names, each as `check_run_with` does. It checks as many texts at once as the cutting has workers, each
/// by one of them. All of them check a text that is long and alone. It writes the reports in the order of the names, each line with
/// the name before it. It answers the greatest exit status.
///
/// A name has the exit status 4 if its text can't be opened or read, or memory did not suffice for it. The reason goes to the error
/// output, and the other names are still checked. A failure of the error output is counted, and does not end the check.
///
/// If objects are asked for, each name has one in place of its report, as `Question::Object` has it, also without a status. If memory
/// does not suffice for the object of a name without a status, lack of memory is its reason. Then nothing is written for it.
///
/// If it is asked what the texts have shown, each name has that in place of its report, as `Question::Counts` has it.
///
/// A report that can't be written ends the check with `Write`. A reason for which memory does not suffice ends it with `Memory`.
pub fn check_all<Rt: Threads + Sync, O: Opener, W: Write, E: Write>(
    crew: &Crew<'_, Rt>,
    alloc: Global,
    files: &Files<'_, O>,
    writer: &mut Counted<W>,
    errors: &mut Counted<E>,
    options: FileOptions,
) -> Result<u8, RunFault>
    ensures all { IfOk result (ChecksAll (O.opens files.now.opener.now) options files.now.names.now (W.contents (inner_of writer.old)) (W.contents (inner_of writer.new))
        (E.contents (inner_of errors.old)) (E.contents (inner_of errors.new)) (failures_in errors.old) (failures_in errors.new)) }
    ensures some { IfErr result (λ _. ChecksSome (O.opens files.now.opener.now) options files.now.names.now (W.contents (inner_of writer.old)) (W.contents (inner_of writer.new))) }
    ensures counts { RunCounts 0 0 (failures_in writer.old) (failures_in writer.new) result }
{
    let Files { opener, names } = *files;
    let mut greatest = 0;
    let mut from = 0;
    while from < names.len() {
        let round = round_at(names, from, crew.cutting);
        let pages = pages_of(crew, alloc, opener, round, options)?;
        let code = write_round(alloc, round, &pages, writer, errors, options)?;
        greatest = code.max(greatest);
        from += round.len();
    }
    Ok(greatest)
}

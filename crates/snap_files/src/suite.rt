//! The check of several texts that answers with a document of JUnit.
ghost use Rattle.std.specs.Prelude.{◌≡◌, IfErr, IfOk, count_by, length};
ghost use Rattle.snap_core.specs.Counting.{failures_in, inner_of};
ghost use Rattle.snap_core.specs.Sending.{SendsFront};
ghost use Rattle.snap_check.specs.Runs.{RunCounts};
ghost use Rattle.snap_files.specs.inside.Files.{AreAnswered, paged};
ghost use Rattle.snap_files.specs.inside.Suites.{SendsAround, around};
ghost use Rattle.snap_files.specs.Suites.{WritesSuite, SomeOfSuite, is_error, is_failure, suite_front, with_cases};

use crate::crew::{Crew, Files};
use crate::files::write_round;
use crate::format::{FileOptions, Format};
use crate::page::Answer;
use crate::round::{pages_of, round_at};
use snap_check::{CheckOptions, RunFault, Status};
use snap_core::Counted;
use snap_names::Opener;
use snap_report::put_number;
use std::alloc::{AllocError, Global};
use std::io::Write;
use std::thread::Threads;

// What is asked of each text: its case.
fn options_of(check: CheckOptions) -> FileOptions
    ensures { result ≡ with_cases check }
{
    FileOptions {
        format: Format::Junit,
        check,
    }
}

// Whether the case of a name has a failure.
fn is_failure(answer: &Answer) -> bool
    ensures { result ≡ is_failure answer.now }
{
    match answer {
        Ok(Some(Status::Regular | Status::Irregular)) | Ok(None) => true,
        Ok(Some(Status::Atomic | Status::Refused | Status::Recorded)) | Err(_) => false,
    }
}

// Whether the case of a name has an error.
fn is_error(answer: &Answer) -> bool
    ensures { result ≡ is_error answer.now }
{
    match answer {
        Ok(Some(Status::Refused)) | Err(_) => true,
        Ok(_) => false,
    }
}

// The number of cases that have a failure.
fn failures_among(pages: &[(Answer, Vec<u8>)]) -> usize
    ensures { result ≡ count_by (λ page. is_failure page.0) pages.now }
{
    let mut count = 0;
    for page in pages {
        if is_failure(&page.0) {
            count += 1;
        }
    }
    count
}

// The number of cases that have an error.
fn errors_among(pages: &[(Answer, Vec<u8>)]) -> usize
    ensures { result ≡ count_by (λ page. is_error page.0) pages.now }
{
    let mut count = 0;
    for page in pages {
        if is_error(&page.0) {
            count += 1;
        }
    }
    count
}

// The begin of the document of some pages.
fn front_of(alloc: Global, pages: &[(Answer, Vec<u8>)]) -> Result<Vec<u8>, AllocError>
    ensures { IfOk result (λ front. front.items ≡ suite_front (length pages.now) (count_by (λ page. is_failure page.0) pages.now) (count_by (λ page. is_error page.0) pages.now)) }
{
    let mut front = Vec::new(alloc);
    put_number(
        &mut front,
        b"<?xml version=\"1.0\" encoding=\"UTF-8\"?>\n<testsuite name=\"snapjudge\" tests=\"",
        pages.len() as u64,
    )?;
    put_number(&mut front, b"\" failures=\"", failures_among(pages) as u64)?;
    put_number(&mut front, b"\" errors=\"", errors_among(pages) as u64)?;
    front.extend_from_slice(b"\">\n")?;
    Ok(front)
}

// The begin of a document, and what stands in it for some names.
#[derive(Drop)]
struct Cases<'c> {
    front: &'c [u8],
    names: &'c [Vec<u8>],
    pages: &'c [(Answer, Vec<u8>)],
}

// Writes a begin, the cases of some names and the end of the document, and says why some names have no status. Answers their greatest
// exit status.
fn send_around<W: Write, E: Write>(
    alloc: Global,
    cases: Cases<'_>,
    writer: &mut Counted<W>,
    errors: &mut Counted<E>,
    options: FileOptions,
) -> Result<u8, RunFault>
    requires { length cases.pages.now ≡ length cases.names.now }
    ensures all { IfOk result (SendsAround options cases.entry.front.now (paged cases.entry.names.now cases.entry.pages.now) (W.contents (inner_of writer.old)) (W.contents (inner_of writer.new))
        (E.contents (inner_of errors.old)) (E.contents (inner_of errors.new)) (failures_in errors.old) (failures_in errors.new)) }
    ensures some { IfErr result (λ _. SendsFront (W.contents (inner_of writer.old)) (W.contents (inner_of writer.new)) (around cases.entry.front.now (paged cases.entry.names.now cases.entry.pages.now))) }
    ensures counts { RunCounts 0 0 (failures_in writer.old) (failures_in writer.new) result }
{
    if writer.send(cases.front).is_err() {
        return Err(RunFault::Write);
    }
    let code = write_round(alloc, cases.names, cases.pages, writer, errors, options)?;
    if writer.send(b"</testsuite>\n").is_err() {
        return Err(RunFault::Write);
    }
    Ok(code)
}

// What is answered and written for each of some names, round by round.
fn all_pages<Rt: Threads + Sync, O: Opener>(
    crew: &Crew<'_, Rt>,
    alloc: Global,
    files: &Files<'_, O>,
    options: FileOptions,
) -> Result<Vec<(Answer, Vec<u8>)>, AllocError>
    ensures { IfOk result (λ pages. AreAnswered (O.opens files.now.opener.now) options files.now.names.now pages.items) }
{
    let Files { opener, names } = *files;
    let mut pages = Vec::new(alloc);
    let mut from = 0;
    while from < names.len() {
        let round = round_at(names, from, crew.cutting);
        let mut more = pages_of(crew, alloc, opener, round, options)?;
        pages.append(&mut more)?;
        from += round.len();
    }
    Ok(pages)
}

/// Checks the texts of some names as `check_all` does. After all are judged, it writes a document of JUnit, a test suite with one case
/// for each name, in their order. A case passes if its history is atomic. It has a failure if its history is not atomic, or has
/// fewer completed views than `check` asks for. It has an error if its text is refused, or can't be opened or read. `Question::TestCase`
/// says what is in a case. The exit status, and the reasons on the error output, are those of `check_all` for reports.
///
/// Memory holds the cases of all names, since the document begins with their counts. A document that can't be written ends in
/// `Write`. If memory does not suffice for the case of a name without a status, lack of memory is its reason, and the case is missing.
pub fn suite_all<Rt: Threads + Sync, O: Opener, W: Write, E: Write>(
    crew: &Crew<'_, Rt>,
    alloc: Global,
    files: &Files<'_, O>,
    writer: &mut Counted<W>,
    errors: &mut Counted<E>,
    check: CheckOptions,
) -> Result<u8, RunFault>
    ensures all { IfOk result (WritesSuite (O.opens files.now.opener.now) check files.now.names.now (W.contents (inner_of writer.old)) (W.contents (inner_of writer.new))
        (E.contents (inner_of errors.old)) (E.contents (inner_of errors.new)) (failures_in errors.old) (failures_in errors.new)) }
    ensures some { IfErr result (λ _. SomeOfSuite (O.opens files.now.opener.now) check files.now.names.now (W.contents (inner_of writer.old)) (W.contents (inner_of writer.new))) }
    ensures counts { RunCounts 0 0 (failures_in writer.old) (failures_in writer.new) result }
{
    let options = options_of(check);
    let pages = all_pages(crew, alloc, files, options)?;
    let front = front_of(alloc, &pages)?;
    let cases = Cases {
        front: &front,
        names: files.names,
        pages: &pages,
    };
    send_around(alloc, cases, writer, errors, options)
}

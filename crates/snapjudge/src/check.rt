//! The checks of one text and of several files. Each is a part over readers and writers, and a start of that part on the system.
ghost use Rattle.std.specs.Prelude.{◌≡◌, ◌≢◌, IfErr, IfOk, false, true};
ghost use Rattle.snap_check.specs.Options.{IsReportWith};
ghost use Rattle.snap_check.specs.Runs.{RunCounts, WroteBy};
ghost use Rattle.snap_core.specs.Counting.{failures_in, inner_of};
ghost use Rattle.snap_files.specs.Files.{ChecksAll, ChecksSome};
ghost use Rattle.snap_files.specs.Suites.{SomeOfSuite, WritesSuite};
ghost use Rattle.snap_files.specs.Sums.{SumsAll, SumsSome};
ghost use Rattle.snap_words.specs.declared.format.Format.TheVariants as asks;
ghost use Rattle.snapjudge.specs.Checks.{check_of, options_of};

use crate::options::file_options;
use snap_check::{Checking, RunFault, Status, check_run_with};
use snap_commands::{
    Cleared, Failure, Outlet, Painted, Progress, Watched, in_colors, names_of, open_only,
    progress_of, system, too_few_views,
};
use snap_core::{Counted, Limit, OpenGate};
use snap_files::{Crew, Files, check_all, suite_all, sum_all};
use snap_names::{Opener, SystemText};
use snap_threads::Cutting;
use snap_words::{Format, Input, Options};
use std::alloc::{AllocError, Global};
use std::fs::File;
use std::io::{Read, Write};
use std::thread::Threads;

// The check that is asked for: its options, and the limit of events.
#[derive(Clone, Copy)]
struct Asked {
    limit: Limit,
    options: Options,
}

// The check of a reader's text. It answers nothing if the history has too few views.
fn check_from<Rt: Threads + Sync, R: Read, W: Write>(
    crew: &Crew<'_, Rt>,
    alloc: Global,
    reader: &mut Counted<R>,
    writer: &mut Counted<W>,
    asked: Asked,
) -> Result<Option<Status>, RunFault>
    ensures wrote { WroteBy (IsReportWith (check_of asked.limit asked.options)) (R.remaining (inner_of reader.old)) (W.contents (inner_of writer.old)) (W.contents (inner_of writer.new)) result }
    ensures counts { RunCounts (failures_in reader.old) (failures_in reader.new) (failures_in writer.old) (failures_in writer.new) result }
{
    let checking = Checking {
        cutting: crew.cutting,
        gate: &OpenGate,
        options: file_options(asked.limit, asked.options).check,
    };
    check_run_with(crew.rt, alloc, reader, writer, &checking)
}

fn check_text<Rt: Threads + Sync>(
    crew: &Crew<'_, Rt>,
    host: &HostRuntime,
    text: SystemText<File>,
    asked: Asked,
) -> Result<u8, Failure> {
    let colors = in_colors(host, asked.options);
    let mut reader = Counted::new(text);
    let mut writer = Counted::new(Painted::new(Outlet::new(host.stdout()), colors));
    match check_from(crew, host.alloc(), &mut reader, &mut writer, asked) {
        Ok(Some(status)) => Ok(status.code()),
        Ok(None) => Ok(too_few_views(host, asked.options.views).code()),
        Err(fault) => Err(Failure::of_run(fault, &writer.into_inner().into_inner())),
    }
}

// The answers of some names, or their sums or their document.
fn answer_all<Rt: Threads + Sync, O: Opener, W: Write, E: Write>(
    crew: &Crew<'_, Rt>,
    alloc: Global,
    files: &Files<'_, O>,
    writer: &mut Counted<W>,
    errors: &mut Counted<E>,
    asked: Asked,
) -> Result<u8, RunFault>
    ensures sums { asked.options.summary ≡ true → IfOk result (SumsAll (O.opens files.now.opener.now) (check_of asked.limit asked.options) files.now.names.now (W.contents (inner_of writer.old)) (W.contents (inner_of writer.new))
        (E.contents (inner_of errors.old)) (E.contents (inner_of errors.new)) (failures_in errors.old) (failures_in errors.new)) }
    ensures document { asked.options.summary ≡ false → asked.options.format ≡ asks.Junit → IfOk result (WritesSuite (O.opens files.now.opener.now) (check_of asked.limit asked.options) files.now.names.now (W.contents (inner_of writer.old)) (W.contents (inner_of writer.new))
        (E.contents (inner_of errors.old)) (E.contents (inner_of errors.new)) (failures_in errors.old) (failures_in errors.new)) }
    ensures each { asked.options.summary ≡ false → asked.options.format ≢ asks.Junit → IfOk result (ChecksAll (O.opens files.now.opener.now) (options_of asked.limit asked.options) files.now.names.now (W.contents (inner_of writer.old)) (W.contents (inner_of writer.new))
        (E.contents (inner_of errors.old)) (E.contents (inner_of errors.new)) (failures_in errors.old) (failures_in errors.new)) }
    ensures some_sums { asked.options.summary ≡ true → IfErr result (λ _. SumsSome (O.opens files.now.opener.now) (check_of asked.limit asked.options) files.now.names.now (W.contents (inner_of writer.old)) (W.contents (inner_of writer.new))) }
    ensures some_of_document { asked.options.summary ≡ false → asked.options.format ≡ asks.Junit
        → IfErr result (λ _. SomeOfSuite (O.opens files.now.opener.now) (check_of asked.limit asked.options) files.now.names.now (W.contents (inner_of writer.old)) (W.contents (inner_of writer.new))) }
    ensures some { asked.options.summary ≡ false → asked.options.format ≢ asks.Junit
        → IfErr result (λ _. ChecksSome (O.opens files.now.opener.now) (options_of asked.limit asked.options) files.now.names.now (W.contents (inner_of writer.old)) (W.contents (inner_of writer.new))) }
    ensures counts { RunCounts 0 0 (failures_in writer.old) (failures_in writer.new) result }
{
    let options = file_options(asked.limit, asked.options);
    if asked.options.summary {
        sum_all(crew, alloc, files, writer, errors, options.check)
    } else if asked.options.format == Format::Junit {
        suite_all(crew, alloc, files, writer, errors, options.check)
    } else {
        check_all(crew, alloc, files, writer, errors, options)
    }
}

// The check of some names. The line of progress is off the terminal while an answer is written.
fn check_watched<Rt: Threads + Sync>(
    crew: &Crew<'_, Rt>,
    host: &HostRuntime,
    names: &[Vec<u8>],
    asked: Asked,
    progress: Option<&Progress<'_, HostRuntime>>,
) -> Result<u8, Failure> {
    let opener = &Watched {
        opener: system(host),
        progress,
    };
    let answers = Cleared {
        inner: Outlet::new(host.stdout()),
        progress,
    };
    let mut writer = Counted::new(Painted::new(answers, in_colors(host, asked.options)));
    let mut errors = Counted::new(Cleared {
        inner: host.stderr(),
        progress,
    });
    let files = Files { opener, names };
    match answer_all(crew, host.alloc(), &files, &mut writer, &mut errors, asked) {
        Ok(code) => Ok(code),
        Err(fault) => Err(Failure::of_run(fault, &writer.into_inner().into_inner().inner)),
    }
}

// The check of some names, with the name in each answer or in the sums.
fn check_names<Rt: Threads + Sync>(
    crew: &Crew<'_, Rt>,
    host: &HostRuntime,
    names: &[Vec<u8>],
    asked: Asked,
) -> Result<u8, Failure> {
    let line = progress_of(host, names.len(), asked.options);
    let progress = line.as_ref();
    let result = check_watched(crew, host, names, asked, progress);
    if let Some(progress) = progress {
        progress.clear();
    }
    result
}

// Whether the answers of a check have the names of their texts. Objects, documents and sums always do. Reports do if there are
// several, or if a list or a folder names the texts.
fn has_names(input: &Input, asked: Options) -> bool {
    asked.format != Format::Plain || asked.summary || input.has_sources() || input.files.len() > 1
}

// The name of standard input, alone.
fn input_alone(alloc: Global) -> Result<Vec<Vec<u8>>, AllocError> {
    let mut names = Vec::new(alloc);
    names.push(Vec::from_slice(alloc, b"-")?)?;
    Ok(names)
}

/// The check of the texts that the words, a list and a folder name, or of standard input if there are none.
pub(crate) fn check<Rt: Threads + Sync>(
    rt: &Rt,
    host: &HostRuntime,
    input: Input,
    cutting: Cutting,
    limit: Limit,
    options: Options,
) -> Result<u8, Failure> {
    let crew = Crew { rt, cutting };
    let asked = Asked { limit, options };
    if !has_names(&input, options) {
        let text = open_only(host, &input.into_file())?;
        return check_text(&crew, host, text, asked);
    }
    let mut input = input;
    if input.files.is_empty() && !input.has_sources() {
        input.files = input_alone(host.alloc())?;
    }
    let names = names_of(host, input)?;
    check_names(&crew, host, &names, asked)
}

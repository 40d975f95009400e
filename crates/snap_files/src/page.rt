//! What is answered, written and said for one name.
ghost use Rattle.std.specs.Prelude.{◌≡◌, ◌<◌, IfOk, IfSome, Ok, Err};
ghost use Rattle.snap_core.specs.Counting.{failures_in, inner_of};
ghost use Rattle.snap_check.specs.declared.fault.RunFault.TheVariants as faults;
ghost use Rattle.snap_json.specs.Objects.{trouble_json};
ghost use Rattle.snap_json.specs.Values.{IsLineOf};
ghost use Rattle.snap_files.specs.Files.{IsNamedCounts, IsNamedReport, IsPage, IsTextPage, IsTroublePage, answer_code, refusal_line_text, told_text, trouble_case};
ghost use Rattle.snap_runs.specs.Answers.{IsAnswerTo};
ghost use Rattle.snap_runs.specs.Telling.{object_name};
ghost use Rattle.snap_files.specs.inside.Files.{BlamesReader, IsTroubleBy};
ghost use Rattle.snap_names.specs.Said.{trouble_text};

use crate::crew::Crew;
use crate::format::{FileOptions, Format};
use snap_check::{CheckOptions, Checking, RunFault, Status, Workers, check_run_with};
use snap_core::{Counted, OpenGate};
use snap_explain::{Ending, ended_case};
use snap_names::{Opener, Trouble, name_lines, put_shown, trouble_line, trouble_words};
use snap_report::put_number;
use snap_runs::{Named, Question, answer_to, object_name};
use std::alloc::{AllocError, Global};
use std::io::Read;
use std::thread::Threads;

/// The status of a name, or `None` if its history has fewer completed views than are asked for, or else its trouble.
pub(crate) type Answer = Result<Option<Status>, Trouble>;

/// The exit status of a name.
pub(crate) fn code_of(answer: &Answer) -> u8
    ensures { result ≡ answer_code answer.now }
{
    match answer {
        Ok(Some(status)) => status.code(),
        Ok(None) => Status::Refused.code(),
        Err(_) => 4,
    }
}

// Why an opened text has no status, by the fault of its check.
fn trouble_of<O: Opener>(
    opener: &O,
    name: &[u8],
    reader: &Counted<O::Text>,
    fault: RunFault,
) -> Trouble
    requires { fault ≡ faults.Read → 0 < failures_in reader.now }
    ensures { IsTroubleBy (O.opens opener.now) name.now fault result }
{
    match fault {
        RunFault::Read => opener.unread(name, reader),
        // the report is written into memory
        RunFault::Write | RunFault::Memory => Trouble::Memory,
    }
}

// The status and the report of a reader's text, each line with the name before it.
fn named_report<Rt: Threads + Sync, R: Read>(
    crew: &Crew<'_, Rt>,
    alloc: Global,
    name: &[u8],
    reader: &mut Counted<R>,
    options: CheckOptions,
) -> Result<(Option<Status>, Vec<u8>), RunFault>
    ensures page { IfOk result (λ page. IfSome (R.remaining (inner_of reader.old)) (λ bytes. IsNamedReport options name.now bytes page.0 page.1.items)) }
    ensures blame { BlamesReader (failures_in reader.old) (failures_in reader.new) result }
{
    let mut writer = Counted::new(Vec::new(alloc));
    let checking = Checking {
        cutting: crew.cutting,
        gate: &OpenGate,
        options,
    };
    let status = check_run_with(crew.rt, alloc, reader, &mut writer, &checking)?;
    let report = writer.into_inner();
    let lines = name_lines(alloc, name, &report)?;
    Ok((status, lines))
}

// The answer to a question about a reader's text.
fn answer<Rt: Threads + Sync, R: Read>(
    crew: &Crew<'_, Rt>,
    alloc: Global,
    question: Question<'_>,
    reader: &mut Counted<R>,
    options: CheckOptions,
) -> Result<(Option<Status>, Vec<u8>), RunFault>
    ensures page { IfOk result (λ page. IfSome (R.remaining (inner_of reader.old)) (λ bytes. IsAnswerTo question.entry options.limit bytes page.0 page.1.items)) }
    ensures blame { BlamesReader (failures_in reader.old) (failures_in reader.new) result }
{
    let workers = Workers {
        rt: crew.rt,
        cutting: crew.cutting,
        alone_below: options.alone_below,
        finer: options.finer,
    };
    let (status, out) = answer_to(&workers, alloc, question, reader, options.limit)?;
    Ok((status, out))
}

// The status of a reader's text and what it has shown, each line with the name before it.
fn named_counts<Rt: Threads + Sync, R: Read>(
    crew: &Crew<'_, Rt>,
    alloc: Global,
    name: &[u8],
    reader: &mut Counted<R>,
    options: CheckOptions,
) -> Result<(Option<Status>, Vec<u8>), RunFault>
    ensures page { IfOk result (λ page. IfSome (R.remaining (inner_of reader.old)) (λ bytes. IsNamedCounts options.limit name.now bytes page.0 page.1.items)) }
    ensures blame { BlamesReader (failures_in reader.old) (failures_in reader.new) result }
{
    let (status, counts) = answer(crew, alloc, Question::Counts(None), reader, options)?;
    let lines = name_lines(alloc, name, &counts)?;
    Ok((status, lines))
}

// The status of a reader's text and what is written for it, in the format that is asked for.
fn text_page<Rt: Threads + Sync, R: Read>(
    crew: &Crew<'_, Rt>,
    alloc: Global,
    name: &[u8],
    reader: &mut Counted<R>,
    options: FileOptions,
) -> Result<(Option<Status>, Vec<u8>), RunFault>
    ensures page { IfOk result (λ page. IfSome (R.remaining (inner_of reader.old)) (λ bytes. IsTextPage options.format options.check name.now bytes page.0 page.1.items)) }
    ensures blame { BlamesReader (failures_in reader.old) (failures_in reader.new) result }
{
    let views = options.check.views;
    match options.format {
        Format::Plain => named_report(crew, alloc, name, reader, options.check),
        Format::Json => {
            let question = Question::Object(Named { name, views });
            answer(crew, alloc, question, reader, options.check)
        }
        Format::Counts => named_counts(crew, alloc, name, reader, options.check),
        Format::CountsObject => {
            let question = Question::Counts(Some(name));
            answer(crew, alloc, question, reader, options.check)
        }
        Format::Junit => {
            let question = Question::TestCase(Named { name, views });
            answer(crew, alloc, question, reader, options.check)
        }
    }
}

// The object of a name that met a trouble.
fn trouble_object(alloc: Global, name: &[u8], met: Trouble) -> Result<Vec<u8>, AllocError>
    ensures { IfOk result (λ line. IsLineOf (trouble_json (object_name name.now) (answer_code (Err met)) (trouble_text met)) line.items) }
{
    let shown = object_name(alloc, name)?;
    snap_json::trouble_line(alloc, &shown, code_of(&Err(met)), trouble_words(met))
}

// The test case of a name that met a trouble.
fn trouble_case(alloc: Global, name: &[u8], met: Trouble) -> Result<Vec<u8>, AllocError>
    ensures { IfOk result (λ text. text.items ≡ trouble_case name.now met) }
{
    ended_case(alloc, Ending::Error, name, trouble_words(met).as_bytes())
}

// The trouble of a name that met one, and what is written for it.
fn trouble_page(alloc: Global, name: &[u8], met: Trouble, format: Format) -> (Trouble, Vec<u8>)
    ensures { IsTroublePage format name.now met result.0 result.1.items }
{
    match format {
        Format::Plain | Format::Counts => (met, Vec::new(alloc)),
        Format::Json | Format::CountsObject => {
            match trouble_object(alloc, name, met) {
                Ok(line) => (met, line),
                Err(_) => (Trouble::Memory, Vec::new(alloc)),
            }
        }
        Format::Junit => {
            match trouble_case(alloc, name, met) {
                Ok(text) => (met, text),
                Err(_) => (Trouble::Memory, Vec::new(alloc)),
            }
        }
    }
}

/// What is answered for a name, and what is written for it.
pub(crate) fn check_name<Rt: Threads + Sync, O: Opener>(
    crew: &Crew<'_, Rt>,
    alloc: Global,
    opener: &O,
    name: &[u8],
    options: FileOptions,
) -> (Answer, Vec<u8>)
    ensures { IsPage (O.opens opener.now) options name.now result.0 result.1.items }
{
    let met = match opener.open(name) {
        Ok(text) => {
            let mut reader = Counted::new(text);
            match text_page(crew, alloc, name, &mut reader, options) {
                Ok((status, out)) => return (Ok(status), out),
                Err(fault) => trouble_of(opener, name, &reader, fault),
            }
        }
        Err(trouble) => trouble,
    };
    let (trouble, out) = trouble_page(alloc, name, met, options.format);
    (Err(trouble), out)
}

// What is said about a name whose history has fewer completed views than are asked for.
fn refusal_line(alloc: Global, name: &[u8], options: CheckOptions) -> Result<Vec<u8>, AllocError>
    ensures { IfOk result (λ line. line.items ≡ refusal_line_text options name.now) }
{
    let mut line = Vec::new(alloc);
    put_shown(&mut line, name)?;
    put_number(
        &mut line,
        b": refused: fewer than ",
        u64::from(options.views),
    )?;
    line.extend_from_slice(b" views\n")?;
    Ok(line)
}

/// What is said about a name on the error output.
pub(crate) fn told_of(
    alloc: Global,
    name: &[u8],
    options: FileOptions,
    answer: &Answer,
) -> Result<Vec<u8>, AllocError>
    ensures { IfOk result (λ line. line.items ≡ told_text options name.now answer.now) }
{
    match answer {
        Ok(Some(_)) => Ok(Vec::new(alloc)),
        Ok(None) => refusal_line(alloc, name, options.check),
        Err(trouble) => trouble_line(alloc, name, *trouble),
    }
}

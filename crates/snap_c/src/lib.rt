//! The program's answers to a text for callers in C.
#![tactic(auto)]

ghost use Rattle.std.specs.Prelude.{◌≡◌, Some, slice_get};
ghost use Rattle.snap_core.specs.UsualLimits.{usual_limit};
ghost use Rattle.snap_c.specs.Answers.{IsAnswered, IsAnsweredFor, IsChecked, IsCheckedFor};
ghost use Rattle.snap_c.specs.Questions.{IsAnswer, counts, explanation_of as spec_explanation_of, explanations, object_asked, picture_asked as spec_picture_asked, usual_window as spec_usual_window, window_asked as spec_window_asked, witnesses};
ghost use Rattle.snap_c.specs.declared.version.TheConstants.{VERSION as version};

mod limit;
mod question;
mod version;

use limit::limit_of;
use question::{
    Asked, answer_of, chosen, explained, explanation_of, picture_asked, usual_window, window_asked,
};
use snap_core::Limit;
use snap_explain::Entries;
use snap_runs::{Named, Question};
use std::alloc::Global;
use version::VERSION;

/// The answer if memory ran out.
const NO_MEMORY: u32 = 4;

/// The answer if the room is too small.
const NO_ROOM: u32 = 5;

/// The answer if a number names no limit.
const NO_LIMIT: u32 = 6;

/// The answer if an option is out of its range.
const NO_OPTION: u32 = 7;

// Answers what is asked of a text whose history may have as many events as the limit says.
fn answer(
    alloc: Global,
    asked: Asked<'_>,
    text: &[u8],
    limit: Limit,
    out: &mut [u8],
    length: &mut usize,
) -> u32
    ensures { IsAnswered (IsAnswer asked.entry limit text.now) out.old out.new length.new result }
{
    match answer_of(alloc, asked, text, limit) {
        Ok((Some(status), answer)) => {
            let needed = answer.len();
            *length = needed;
            if needed > out.len() {
                return NO_ROOM;
            }
            out[..needed].copy_from_slice(&answer);
            u32::from(status.code())
        }
        Ok((None, _)) => {
            *length = 0;
            NO_OPTION
        }
        Err(_) => {
            *length = 0;
            NO_MEMORY
        }
    }
}

// Answers what is asked of a text, if `events` names a limit and something is asked.
fn answer_within(
    alloc: Global,
    asked: Option<Asked<'_>>,
    text: &[u8],
    events: u32,
    out: &mut [u8],
    length: &mut usize,
) -> u32
    ensures { IsAnsweredFor events asked.entry text.now out.old out.new length.new result }
{
    *length = 0;
    let Some(limit) = limit_of(events) else {
        return NO_LIMIT;
    };
    match asked {
        Some(asked) => answer(alloc, asked, text, limit, out, length),
        None => NO_OPTION,
    }
}

/// Judges a text. The answer is 0 if the text is an atomic history, and 1 if it is a regular history that is not atomic. It is 2 if the
/// text is a history that is neither, and 3 if it is not a history. After 0 to 3 the report is at the front of `report`, `length`
/// bytes long, and the rest of `report` is unchanged. The answer is 5 if the report does not fit into `report`: `length` is then the
/// number of its bytes. It is 4 if memory ran out, and `length` is then 0. After 4 and 5 nothing was written into `report`.
#[unsafe(no_mangle)]
pub extern "C" fn snapjudge_check(
    alloc: Global,
    text: &[u8],
    report: &mut [u8],
    length: &mut usize,
) -> u32
    ensures { IsChecked usual_limit text.now report.old report.new length.new result }
{
    let usual = Limit::usual();
    answer(alloc, Asked::Report, text, usual, report, length)
}

/// Judges a text as `snapjudge_check` does, but a history may have `events` events in place of 65,536, and its text 1,024 times as
/// many bytes. If `events` is greater by 2,147,483,648, a component may have many writers, as by `--writers many`. The answer is 6 if
/// what is left is not 1 to 1,048,576. Then nothing was written into `report`, and `length` is 0.
#[unsafe(no_mangle)]
pub extern "C" fn snapjudge_check_limit(
    alloc: Global,
    text: &[u8],
    events: u32,
    report: &mut [u8],
    length: &mut usize,
) -> u32
    ensures { IsCheckedFor events text.now report.old report.new length.new result }
{
    answer_within(alloc, Some(Asked::Report), text, events, report, length)
}

/// Explains a text as `snapjudge explain` does if `form` is 0, and as `snapjudge explain --draw` if it is 1. If it is 2 or 3, the views of
/// a fault are listed whole too, as by `--all`. Everything else is as in `snapjudge_check_limit`. The answer is 7 if `form` is more than 3.
/// Then nothing was written into `out`, and `length` is 0.
#[unsafe(no_mangle)]
pub extern "C" fn snapjudge_explain(
    alloc: Global,
    text: &[u8],
    events: u32,
    form: u32,
    out: &mut [u8],
    length: &mut usize,
) -> u32
    ensures { IsAnsweredFor events (slice_get explanations form) text.now out.old out.new length.new result }
{
    let asked = chosen(
        &[
            explained(Entries::OfFault, 1),
            Asked::Of(Question::ExplanationDrawn(Entries::OfFault)),
            explained(Entries::Whole, 1),
            Asked::Of(Question::ExplanationDrawn(Entries::Whole)),
        ],
        form,
    );
    answer_within(alloc, asked, text, events, out, length)
}

/// Explains a text as `snapjudge explain --faults N` does, with `faults` for N, which is 1 to 1,000. If `whole` is 1, the views of a
/// fault are listed whole too, as by `--all`. The answer is 7 if `whole` is more, or if there is no such number of faults. Everything
/// else is as in `snapjudge_explain`.
#[unsafe(no_mangle)]
pub extern "C" fn snapjudge_explain_faults(
    alloc: Global,
    text: &[u8],
    events: u32,
    whole: u32,
    faults: u32,
    out: &mut [u8],
    length: &mut usize,
) -> u32
    ensures { IsAnsweredFor events (spec_explanation_of whole faults) text.now out.old out.new length.new result }
{
    let asked = explanation_of(whole, faults);
    answer_within(alloc, asked, text, events, out, length)
}

/// Writes the JSON object that `snapjudge check --format json` writes of a file with this text and this name. Everything else is as
/// in `snapjudge_check_limit`.
#[unsafe(no_mangle)]
pub extern "C" fn snapjudge_json(
    alloc: Global,
    text: &[u8],
    events: u32,
    name: &[u8],
    out: &mut [u8],
    length: &mut usize,
) -> u32
    ensures { IsAnsweredFor events (Some (object_asked name.entry)) text.now out.old out.new length.new result }
{
    let asked = Asked::Of(Question::Object(Named { name, views: 0 }));
    answer_within(alloc, Some(asked), text, events, out, length)
}

/// Cuts a history down to a witness as `snapjudge shrink` does if `form` is 0. If it is 1, it draws the witness as
/// `snapjudge shrink --draw` does. If it is 2, it writes which calls of the history the witness keeps, as `snapjudge shrink --map` does.
/// The answer is 7 if it is more. Everything else is as in `snapjudge_explain`.
#[unsafe(no_mangle)]
pub extern "C" fn snapjudge_shrink(
    alloc: Global,
    text: &[u8],
    events: u32,
    form: u32,
    out: &mut [u8],
    length: &mut usize,
) -> u32
    ensures { IsAnsweredFor events (slice_get witnesses form) text.now out.old out.new length.new result }
{
    let asked = chosen(
        &[
            Asked::Of(Question::Witness),
            Asked::Of(Question::WitnessDrawn),
            Asked::Of(Question::WitnessMap),
        ],
        form,
    );
    answer_within(alloc, asked, text, events, out, length)
}

/// Draws a history as `snapjudge draw` does. It draws a page if `form` is 0, SVG if it is 1, and characters if it is 2. It draws a light
/// page if `form` is 3, a dark one if it is 4, and dark SVG if it is 5. The answer is 7 if it is more. Everything else is as in
/// `snapjudge_explain`.
#[unsafe(no_mangle)]
pub extern "C" fn snapjudge_draw(
    alloc: Global,
    text: &[u8],
    events: u32,
    form: u32,
    out: &mut [u8],
    length: &mut usize,
) -> u32
    ensures { IsAnsweredFor events (spec_picture_asked form (Some (spec_usual_window form))) text.now out.old out.new length.new result }
{
    let asked = picture_asked(form, Some(usual_window(form)));
    answer_within(alloc, asked, text, events, out, length)
}

/// Draws a part of a history as `snapjudge draw --calls N` does. `calls` is the number N of its calls, or 0 for the usual number of the
/// form. It begins with call `from` as by `--from`, or is around call `around` as by `--around`. Calls are counted from 1, and 0
/// names none. The answer is 7 too if both are named, if the form has no room for as many calls, or if the history lacks the call.
/// Everything else is as in `snapjudge_draw`.
#[unsafe(no_mangle)]
pub extern "C" fn snapjudge_draw_calls(
    alloc: Global,
    text: &[u8],
    events: u32,
    form: u32,
    calls: u32,
    from: u32,
    around: u32,
    out: &mut [u8],
    length: &mut usize,
) -> u32
    ensures { IsAnsweredFor events (spec_picture_asked form (spec_window_asked form calls from around)) text.now out.old out.new length.new result }
{
    let asked = picture_asked(form, window_asked(form, calls, from, around));
    answer_within(alloc, asked, text, events, out, length)
}

/// Counts what a history has shown, as `snapjudge stats` does: as lines if `form` is 0. If it is 1, as the object that
/// `snapjudge stats --format json` writes of standard input. The answer is 0 if the text is a history, which is counted and not
/// judged. It is 7 if `form` is more than 1. Everything else is as in `snapjudge_explain`.
#[unsafe(no_mangle)]
pub extern "C" fn snapjudge_stats(
    alloc: Global,
    text: &[u8],
    events: u32,
    form: u32,
    out: &mut [u8],
    length: &mut usize,
) -> u32
    ensures { IsAnsweredFor events (slice_get counts form) text.now out.old out.new length.new result }
{
    let asked = chosen(
        &[Asked::Of(Question::Counts(None)), Asked::InputCounts],
        form,
    );
    answer_within(alloc, asked, text, events, out, length)
}

/// The version of the library. A caller compares it with that of the header or the wrapper.
#[unsafe(no_mangle)]
pub extern "C" fn snapjudge_version() -> u32
    ensures { result ≡ version }
{
    VERSION
}

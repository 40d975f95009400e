//! What may be asked of a text, and the answer.
ghost use Rattle.std.specs.Prelude.{◌≡◌, IfOk, slice_get};
ghost use Rattle.snap_c.specs.Questions.{IsAnswer, calls_asked as spec_calls_asked, explained as spec_explained, explanation_of as spec_explanation_of, most_calls as spec_most_calls, picture_asked as spec_picture_asked, place_asked as spec_place_asked, usual_window as spec_usual_window, window_asked as spec_window_asked};

use snap_check::{Alone, RunFault, Status, judge_text};
use snap_core::{Counted, Limit};
use snap_draw::{Place, Window};
use snap_explain::{Detail, Entries};
use snap_options::{FAULT_LIMIT, LINE_CALLS, MOST_CALLS, Scheme};
use snap_runs::{Question, answer_to};
use std::alloc::Global;

/// What may be asked of a text. The answer is that of a command of the program.
#[derive(Clone, Copy)]
pub(crate) enum Asked<'n> {
    /// `check`
    Report,
    /// The command of a question.
    Of(Question<'n>),
    /// `stats --format json` of standard input, whose name in an object is `-`
    InputCounts,
}

/// What a number asks for among some, counted from 0. None if there is no such number.
pub(crate) fn chosen<'n>(asked: &[Asked<'n>], number: u32) -> Option<Asked<'n>>
    ensures { result ≡ slice_get asked.now number }
{
    asked.get(number as usize).copied()
}

/// The explanation that lists these entries of the views of a fault, by this many faults of a kind.
pub(crate) fn explained<'n>(listed: Entries, faults: u32) -> Asked<'n>
    ensures { result ≡ spec_explained listed faults }
{
    Asked::Of(Question::Explanation(Detail { listed, faults }))
}

/// The explanation by this many faults of a kind: as by `--all` if `whole` is 1, and not if it is 0. None if it is more, and if the
/// number of faults is not 1 to 1,000.
pub(crate) fn explanation_of<'n>(whole: u32, faults: u32) -> Option<Asked<'n>>
    ensures { result ≡ spec_explanation_of whole faults }
{
    if faults == 0 || FAULT_LIMIT < faults {
        return None;
    }
    chosen(
        &[
            explained(Entries::OfFault, faults),
            explained(Entries::Whole, faults),
        ],
        whole,
    )
}

/// The number of the form of `snapjudge_draw` that has lines of characters.
const LINES: u32 = 2;

// The most calls that a form may be asked for.
fn most_calls(form: u32) -> u32
    ensures { result ≡ spec_most_calls form }
{
    if form == LINES {
        LINE_CALLS
    } else {
        MOST_CALLS
    }
}

/// The window of a form if no other is asked for.
pub(crate) fn usual_window(form: u32) -> Window
    ensures { result ≡ spec_usual_window form }
{
    if form == LINES {
        Window::usual_lines()
    } else {
        Window::usual_page()
    }
}

// The place at two calls that are counted from 1, of which at least one is 0 and none.
fn place_asked(from: u32, around: u32) -> Option<Place>
    ensures { result ≡ spec_place_asked from around }
{
    if from == 0 {
        if around == 0 {
            Some(Place::Faults)
        } else {
            Some(Place::Around(around - 1))
        }
    } else if around == 0 {
        Some(Place::From(from - 1))
    } else {
        None
    }
}

// The number of calls that is asked for of a form, which is the usual one for 0.
fn calls_asked(form: u32, calls: u32) -> usize
    ensures { result ≡ spec_calls_asked form calls }
{
    if calls == 0 {
        usual_window(form).calls
    } else {
        calls as usize
    }
}

/// The window that is asked for of a form, by a number of calls and by a call from which or around which it is. Calls are counted
/// from 1, and 0 asks for nothing. None if both calls are named, or if there are more calls than the form has room for.
pub(crate) fn window_asked(form: u32, calls: u32, from: u32, around: u32) -> Option<Window>
    ensures { result ≡ spec_window_asked form calls from around }
{
    let calls = calls_asked(form, calls);
    if (most_calls(form) as usize) < calls {
        return None;
    }
    match place_asked(from, around) {
        Some(place) => Some(Window { calls, place }),
        None => None,
    }
}

/// The picture of a window that a form asks for, if there is such a form and such a window.
pub(crate) fn picture_asked<'n>(form: u32, window: Option<Window>) -> Option<Asked<'n>>
    ensures { result ≡ spec_picture_asked form window }
{
    let Some(window) = window else {
        return None;
    };
    chosen(
        &[
            Asked::Of(Question::Page(None, window)),
            Asked::Of(Question::Svg(Scheme::Light, window)),
            Asked::Of(Question::Lines(window)),
            Asked::Of(Question::Page(Some(Scheme::Light), window)),
            Asked::Of(Question::Page(Some(Scheme::Dark), window)),
            Asked::Of(Question::Svg(Scheme::Dark, window)),
        ],
        form,
    )
}

/// The answer to what is asked of a text in memory, on the calling thread alone. A history may have as many events as the limit says.
/// There is no status if a window names a call that the history lacks.
pub(crate) fn answer_of(
    alloc: Global,
    asked: Asked<'_>,
    text: &[u8],
    limit: Limit,
) -> Result<(Option<Status>, Vec<u8>), RunFault>
    ensures { IfOk result (λ answer. IsAnswer asked.entry limit text.now answer.0 answer.1.items) }
{
    let mut reader = Counted::new(text);
    match asked {
        Asked::Report => {
            let (status, report) = judge_text(alloc, text, limit)?;
            Ok((Some(status), report))
        }
        Asked::Of(question) => answer_to(&Alone, alloc, question, &mut reader, limit),
        Asked::InputCounts => {
            let question = Question::Counts(Some(b"-"));
            answer_to(&Alone, alloc, question, &mut reader, limit)
        }
    }
}

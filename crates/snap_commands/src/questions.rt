//! The question that each command asks about its text.
ghost use Rattle.std.specs.Prelude.{◌≡◌, option_map, unwrap_or, vec_items};
ghost use Rattle.snap_commands.specs.Pictures.{place_of as spec_place_of, usual_calls as spec_usual_calls, window_of as spec_window_of};
ghost use Rattle.snap_commands.specs.Questions.{AsksCounts, entries_of as spec_entries_of, explanation as spec_explanation, name_of as spec_name_of, picture as spec_picture, report_of_cut as spec_report_of_cut, witness as spec_witness};
ghost use Rattle.snap_runs.specs.Answers.{IsAlwaysAnswered};
ghost use Rattle.snap_runs.specs.StoreAnswers.{IsCertainlyAsked};
ghost use Rattle.snap_runs.specs.declared.asked.Asked.TheVariants.{Answer};

use snap_draw::{PAGE_CALLS, Place as At, Window};
use snap_explain::{Detail, Entries};
use snap_options::{LINE_CALLS, Scheme};
use snap_runs::{Asked, Question};
use snap_words::{Form, Part, Place, Shrunk};

/// The question of `shrink`.
pub fn witness<'n>(shrunk: Shrunk) -> Question<'n>
    ensures question { result ≡ spec_witness shrunk }
    ensures always { IsAlwaysAnswered result }
{
    match shrunk {
        Shrunk::Witness => Question::Witness,
        Shrunk::Picture => Question::WitnessDrawn,
        Shrunk::Map => Question::WitnessMap,
    }
}

// Which entries of the views of a fault are listed.
fn entries_of(whole: bool) -> Entries
    ensures { result ≡ spec_entries_of whole }
{
    if whole {
        Entries::Whole
    } else {
        Entries::OfFault
    }
}

/// The question of `explain`, with a picture or by this many faults of a kind, and with all entries of the views of a fault or without.
pub fn explanation<'n>(drawn: bool, whole: bool, faults: u32) -> Question<'n>
    ensures question { result ≡ spec_explanation drawn whole faults }
    ensures always { IsAlwaysAnswered result }
{
    let listed = entries_of(whole);
    if drawn {
        Question::ExplanationDrawn(listed)
    } else {
        Question::Explanation(Detail { listed, faults })
    }
}

/// What `check --cut` asks: the report, or the lines of the verdicts alone.
pub fn report_of_cut<'n>(quiet: bool) -> Asked<'n>
    ensures asked { result ≡ spec_report_of_cut quiet }
    ensures certain { IsCertainlyAsked result }
{
    if quiet {
        Asked::Verdicts
    } else {
        Asked::Report
    }
}

/// What `explain --cut` asks: the question of `explain`.
pub fn explanation_of_cut<'n>(drawn: bool, whole: bool, faults: u32) -> Asked<'n>
    ensures asked { result ≡ Answer (spec_explanation drawn whole faults) }
    ensures certain { IsCertainlyAsked result }
{
    Asked::Answer(explanation(drawn, whole, faults))
}

// The name of the only text, as an object has it: - for standard input.
fn name_of(file: &Option<Vec<u8>>) -> &[u8]
    ensures { result.now ≡ spec_name_of (option_map vec_items file.now) }
{
    match file {
        Some(name) => name,
        None => b"-",
    }
}

/// The question of `stats`: an object, which has the name of the text, or lines.
pub(crate) fn counts(file: &Option<Vec<u8>>, json: bool) -> Question<'_>
    ensures question { AsksCounts json (spec_name_of (option_map vec_items file.now)) result }
    ensures always { IsAlwaysAnswered result }
{
    if json {
        Question::Counts(Some(name_of(file)))
    } else {
        Question::Counts(None)
    }
}

// The number of calls of a part, of a form that has this many if no number is asked for.
fn calls_of(part: Part, usual: usize) -> usize
    ensures { result ≡ unwrap_or part.calls usual }
{
    match part.calls {
        Some(calls) => calls as usize,
        None => usual,
    }
}

// The place that is asked for, of calls that are counted from 0.
fn place_of(place: Place) -> At
    ensures { result ≡ spec_place_of place }
{
    match place {
        Place::Faults => At::Faults,
        Place::From(call) => At::From(call.saturating_sub(1)),
        Place::Around(call) => At::Around(call.saturating_sub(1)),
    }
}

// The number of calls of a form if no other is asked for.
fn usual_calls(form: Form) -> usize
    ensures { result ≡ spec_usual_calls form }
{
    match form {
        Form::Page(_) | Form::Svg(_) => PAGE_CALLS,
        Form::Lines => LINE_CALLS as usize,
    }
}

// The window that a part asks for in a form.
fn window_of(form: Form, part: Part) -> Window
    ensures { result ≡ spec_window_of form part }
{
    Window {
        calls: calls_of(part, usual_calls(form)),
        place: place_of(part.place),
    }
}

/// The question of `draw`.
pub(crate) fn picture<'n>(form: Form, part: Part) -> Question<'n>
    ensures { result ≡ spec_picture form part }
{
    let window = window_of(form, part);
    match form {
        Form::Page(scheme) => Question::Page(scheme, window),
        Form::Svg(scheme) => Question::Svg(scheme.unwrap_or(Scheme::Light), window),
        Form::Lines => Question::Lines(window),
    }
}

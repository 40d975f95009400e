//! The forms of a picture, and the words that ask for one.
ghost use Rattle.std.specs.Prelude.{◌≡◌, ℕ, IfSome, None, Option, Some, false, true};
ghost use Rattle.clap.specs.Words.{found_of, rows_of};
ghost use Rattle.snap_options.specs.declared.scheme.Scheme.{Scheme};
ghost use Rattle.snap_core.specs.declared.limit.Limit.{Limit};
ghost use Rattle.snap_words.specs.Drawing.{AsksDrawWithin, AsksPlace, AsksScheme};
ghost use Rattle.snap_words.specs.Parts.{HasRoom, most_calls as spec_most_calls};
ghost use Rattle.snap_words.specs.declared.drawing.Form.{Form};
ghost use Rattle.snap_words.specs.declared.drawing.Part.{Part};
ghost use Rattle.snap_words.specs.declared.drawing.Place.{Place};

use crate::option_values::{flag_in, number_in};
use clap::ArgMatches;
use snap_options::{LINE_CALLS, MOST_CALLS, Scheme};

/// The form of a picture.
#[derive(Clone, Copy, PartialEq, Eq)]
pub enum Form {
    /// A page for a browser, in the colours of a scheme, or if none is given in those of the reader's system.
    Page(Option<Scheme>),
    /// SVG alone, which is light if no scheme is given.
    Svg(Option<Scheme>),
    /// Lines of characters, which have no colours.
    Lines,
}

/// Where the calls are that are drawn. Calls are counted from 1.
#[derive(Clone, Copy)]
pub enum Place {
    /// At the first faults, or at the begin if there is no fault.
    Faults,
    /// From a call on.
    From(u32),
    /// Around a call.
    Around(u32),
}

/// Which calls of a history are drawn: how many, which is the usual number of a form if it is absent, and where.
#[derive(Clone, Copy)]
pub struct Part {
    pub calls: Option<u32>,
    pub place: Place,
}

/// The most calls that a form may be asked for.
pub(crate) fn most_calls(form: Form) -> u32
    ensures { result ≡ spec_most_calls form }
{
    match form {
        Form::Page(_) | Form::Svg(_) => MOST_CALLS,
        Form::Lines => LINE_CALLS,
    }
}

/// Whether a form has room for as many calls as are asked for.
pub(crate) fn has_room(form: Form, calls: Option<u32>) -> bool
    ensures one { result ≡ true → HasRoom form calls }
    ensures asked { HasRoom form calls → result ≡ true }
{
    match calls {
        Some(calls) => 1 <= calls && calls <= most_calls(form),
        None => true,
    }
}

// The place that --from or --around asks for, or nothing if both are given.
fn place_in(matches: &ArgMatches<'_>) -> Option<Place>
    ensures { (place : Place) → AsksPlace (rows_of (found_of matches.now)) place → result ≡ Some place }
{
    let from = number_in(matches, "from");
    let around = number_in(matches, "around");
    match (from, around) {
        (Some(_), Some(_)) => None,
        (Some(call), None) => Some(Place::From(call)),
        (None, Some(call)) => Some(Place::Around(call)),
        (None, None) => Some(Place::Faults),
    }
}

/// The part that the options of `draw` ask for in a form. Nothing if they ask for two places, or for more calls than have room.
pub(crate) fn part_in(matches: &ArgMatches<'_>, form: Form) -> Option<Part>
    ensures room { IfSome result (λ part. HasRoom form part.calls) }
    ensures asked { (limit : Limit) (part : Part) → AsksDrawWithin limit (rows_of (found_of matches.now)) form part → result ≡ Some part }
{
    let calls = number_in(matches, "calls");
    let place = place_in(matches)?;
    if has_room(form, calls) {
        Some(Part { calls, place })
    } else {
        None
    }
}

// Whether the flags of `draw` ask for two schemes.
fn names_two_schemes(matches: &ArgMatches<'_>) -> bool
    ensures { (scheme : Option Scheme) → AsksScheme (rows_of (found_of matches.now)) scheme → result ≡ false }
{
    flag_in(matches, "light") && flag_in(matches, "dark")
}

// The scheme that the flags of `draw` ask for, if they ask for one.
fn scheme_in(matches: &ArgMatches<'_>) -> Option<Scheme>
    ensures { (scheme : Option Scheme) → AsksScheme (rows_of (found_of matches.now)) scheme → result ≡ scheme }
{
    if flag_in(matches, "light") {
        Some(Scheme::Light)
    } else if flag_in(matches, "dark") {
        Some(Scheme::Dark)
    } else {
        None
    }
}

// Lines of characters, or nothing if colours are asked for.
fn lines_in(scheme: Option<Scheme>) -> Option<Form>
    ensures { scheme ≡ None → result ≡ Some Form.Lines }
{
    match scheme {
        Some(_) => None,
        None => Some(Form::Lines),
    }
}

/// The form that the flags of `draw` ask for. Nothing if they ask for two, for two schemes, or for lines with a scheme.
pub(crate) fn form_in(matches: &ArgMatches<'_>) -> Option<Form>
    ensures { (limit : Limit) (form : Form) (part : Part) → AsksDrawWithin limit (rows_of (found_of matches.now)) form part → result ≡ Some form }
{
    let svg = flag_in(matches, "svg");
    let text = flag_in(matches, "text");
    let scheme = scheme_in(matches);
    if (svg && text) || names_two_schemes(matches) {
        None
    } else if svg {
        Some(Form::Svg(scheme))
    } else if text {
        lines_in(scheme)
    } else {
        Some(Form::Page(scheme))
    }
}

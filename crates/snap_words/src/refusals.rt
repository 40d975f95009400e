//! What is said about words that the parser takes but that ask for no job.
ghost use Rattle.std.specs.Prelude.{◌≡◌};
ghost use Rattle.clap.specs.Words.{found_of, rows_of};
ghost use Rattle.snap_words.specs.Jobs.{names_unheeded, names_windows};

use crate::color::color_in;
use crate::cut_refusals::{ONE_WRITER, cut_refusal};
use crate::drawing::{form_in, has_room, most_calls};
use crate::format::{Format, format_in, json_in};
use crate::option_values::{flag_in, is_given, number_in};
use crate::ranges::{ROUND_EVENTS, are_rounds, are_views};
use crate::writers::{leaves_many, writers_in};
use clap::ArgMatches;
use std::alloc::{AllocError, Global};

/// Whether an option of windows, --window, --idle or --late, is given.
pub(crate) fn names_windows(matches: &ArgMatches<'_>) -> bool
    ensures { result ≡ names_windows (rows_of (found_of matches.now)) }
{
    is_given(matches, "window") || is_given(matches, "idle") || is_given(matches, "late")
}

/// Whether an option is given that has no use with --follow.
pub(crate) fn names_unheeded(matches: &ArgMatches<'_>) -> bool
    ensures { result ≡ names_unheeded (rows_of (found_of matches.now)) }
{
    is_given(matches, "pieces")
        || is_given(matches, "workers")
        || is_given(matches, "color")
        || is_given(matches, "list")
        || is_given(matches, "folder")
}

// The option that has no use with --follow.
fn unheeded_refusal(matches: &ArgMatches<'_>) -> &'static str {
    if is_given(matches, "pieces") {
        "error: the argument '--follow' cannot be used with '--pieces <P>'\n"
    } else if is_given(matches, "workers") {
        "error: the argument '--follow' cannot be used with '--workers <W>'\n"
    } else if is_given(matches, "color") {
        "error: the argument '--follow' cannot be used with '--color <WHEN>'\n"
    } else if is_given(matches, "list") {
        "error: the argument '--follow' cannot be used with '--files-from <LIST>'\n"
    } else {
        "error: the argument '--follow' cannot be used with '--recursive <FOLDER>'\n  tip: '--follow FOLDER' follows all recordings below a folder\n"
    }
}

// Why a check with --follow asks for no job.
fn follow_refusal(matches: &ArgMatches<'_>, format: Format) -> &'static str {
    if flag_in(matches, "quiet") {
        "error: the argument '--follow' cannot be used with '--quiet'\n"
    } else if format == Format::Json {
        "error: the argument '--follow' cannot be used with '--format json'\n"
    } else if format == Format::Junit {
        "error: the argument '--follow' cannot be used with '--format junit'\n"
    } else if flag_in(matches, "summary") {
        "error: the argument '--follow' cannot be used with '--summary'\n"
    } else if names_unheeded(matches) {
        unheeded_refusal(matches)
    } else if flag_in(matches, "null") {
        NULL_ALONE
    } else {
        "error: --follow takes one recording\n"
    }
}

const NULL_ALONE: &str = "error: the argument '--null' needs '--files-from <LIST>'\n";

const INPUT_ONCE: &str = "error: - is standard input, and can be named once\n";

const UNKNOWN_FORMAT: &str =
    "error: invalid value for '--format <FORMAT>'\n  [possible values: plain, json, junit]\n\nFor more information, try '--help'.\n";

const UNKNOWN_WRITERS: &str =
    "error: invalid value for '--writers <WRITERS>'\n  [possible values: one, many]\n\nFor more information, try '--help'.\n";

const UNKNOWN_STATS_FORMAT: &str =
    "error: invalid value for '--format <FORMAT>'\n  [possible values: plain, json]\n\nFor more information, try '--help'.\n";

// Why a check asks for two forms of answer, if it does.
fn form_refusal(matches: &ArgMatches<'_>, format: Format) -> Option<&'static str> {
    let quiet = flag_in(matches, "quiet");
    match (flag_in(matches, "summary"), format) {
        (true, Format::Json) => {
            Some("error: the argument '--summary' cannot be used with '--format json'\n")
        }
        (true, Format::Junit) => {
            Some("error: the argument '--summary' cannot be used with '--format junit'\n")
        }
        (true, Format::Plain) if quiet => {
            Some("error: the argument '--summary' cannot be used with '--quiet'\n")
        }
        (false, Format::Json) if quiet => {
            Some("error: the argument '--quiet' cannot be used with '--format json'\n")
        }
        (false, Format::Junit) if quiet => {
            Some("error: the argument '--quiet' cannot be used with '--format junit'\n")
        }
        _ => None,
    }
}

// Why a check without --follow asks for no job.
fn check_refusal(matches: &ArgMatches<'_>, format: Format) -> &'static str {
    if is_given(matches, "window") {
        "error: the argument '--window <N>' needs '--follow'\n"
    } else if is_given(matches, "idle") {
        "error: the argument '--idle <SECONDS>' needs '--follow'\n"
    } else if is_given(matches, "late") {
        "error: the argument '--late <N>' needs '--follow'\n"
    } else if let Some(refusal) = form_refusal(matches, format) {
        refusal
    } else if flag_in(matches, "null") && !is_given(matches, "list") {
        NULL_ALONE
    } else {
        INPUT_ONCE
    }
}

// Why counts are not asked for.
fn stats_refusal(matches: &ArgMatches<'_>) -> &'static str {
    if json_in(matches).is_none() {
        UNKNOWN_STATS_FORMAT
    } else {
        INPUT_ONCE
    }
}

// Why an explanation is not asked for.
fn explain_refusal(matches: &ArgMatches<'_>) -> &'static str {
    if flag_in(matches, "cut") && !leaves_many(matches) {
        ONE_WRITER
    } else {
        "error: the argument '--draw' cannot be used with '--faults <N>'\n"
    }
}

// Why a picture is not asked for.
fn draw_refusal(matches: &ArgMatches<'_>) -> &'static str {
    if is_given(matches, "from") && is_given(matches, "around") {
        "error: the argument '--from <CALL>' cannot be used with '--around <CALL>'\n"
    } else if flag_in(matches, "light") && flag_in(matches, "dark") {
        "error: the argument '--light' cannot be used with '--dark'\n"
    } else if flag_in(matches, "svg") {
        "error: the argument '--svg' cannot be used with '--text'\n"
    } else if flag_in(matches, "light") {
        "error: the argument '--light' cannot be used with '--text'\n"
    } else {
        "error: the argument '--dark' cannot be used with '--text'\n"
    }
}

// Why a check asks for no job.
fn judged_refusal(matches: &ArgMatches<'_>) -> &'static str {
    let Some(format) = format_in(matches) else {
        return UNKNOWN_FORMAT;
    };
    if color_in(matches).is_none() {
        "error: invalid value for '--color <WHEN>'\n  [possible values: auto, always, never]\n\nFor more information, try '--help'.\n"
    } else if flag_in(matches, "cut") {
        cut_refusal(matches, format)
    } else if flag_in(matches, "follow") {
        follow_refusal(matches, format)
    } else {
        check_refusal(matches, format)
    }
}

// Why a command asks for no job. The parser tests each number by itself. It does not test the word of a format, of colours or of
// writers, nor whether two options go together.
fn command_refusal(name: &str, matches: &ArgMatches<'_>) -> &'static str {
    if writers_in(matches).is_none() {
        return UNKNOWN_WRITERS;
    }
    match name {
        "check" => judged_refusal(matches),
        "shrink" => "error: the argument '--draw' cannot be used with '--map'\n",
        "explain" => explain_refusal(matches),
        "draw" => draw_refusal(matches),
        "stats" => stats_refusal(matches),
        _ => "error: the argument '--judge' cannot be used with '--stamped'\n",
    }
}

// Why words that the parser takes ask for no job.
fn refusal_of(matches: &ArgMatches<'_>) -> &'static str {
    match matches.subcommand() {
        Some((name, inner)) => command_refusal(name, inner),
        None => "error: 'snapjudge' requires a subcommand but one was not provided\n",
    }
}

// Says that a number is not from the least to the most, as the parser says it.
fn range_refusal(
    alloc: Global,
    option: &str,
    number: u32,
    least: u32,
    most: u32,
) -> Result<String, AllocError> {
    format!(in alloc;
        "error: invalid value '{number}' for '{option}': {number} is not in {least}..={most}\n\nFor more information, try '--help'.\n"
    )
}

// The number that an option has, and the limit of events.
fn number_and_events(matches: &ArgMatches<'_>, id: &str) -> Option<(u32, u32)> {
    Some((number_in(matches, id)?, number_in(matches, "events")?))
}

// Says that a check asks for more completed views than a history can have, or for windows that only a longer one can have. Both have
// no use with --cut.
fn check_range_refusal(
    alloc: Global,
    matches: &ArgMatches<'_>,
) -> Result<Option<String>, AllocError> {
    if flag_in(matches, "cut") {
        return Ok(None);
    }
    let Some((views, events)) = number_and_events(matches, "views") else {
        return Ok(None);
    };
    if !are_views(events, views) {
        let text = range_refusal(alloc, "--views <N>", views, 0, events / 2)?;
        return Ok(Some(text));
    }
    match number_in(matches, "window") {
        Some(window) if flag_in(matches, "follow") && events < window => {
            let text = range_refusal(alloc, "--window <N>", window, 1, events)?;
            Ok(Some(text))
        }
        _ => Ok(None),
    }
}

// Says that a picture is asked for with more calls than its form has room for.
fn draw_range_refusal(
    alloc: Global,
    matches: &ArgMatches<'_>,
) -> Result<Option<String>, AllocError> {
    let Some(form) = form_in(matches) else {
        return Ok(None);
    };
    match number_in(matches, "calls") {
        Some(calls) if !has_room(form, Some(calls)) => {
            let text = range_refusal(alloc, "--calls <N>", calls, 1, most_calls(form))?;
            Ok(Some(text))
        }
        _ => Ok(None),
    }
}

// Says that a number is too great for another option, which the parser does not know.
fn number_refusal(alloc: Global, matches: &ArgMatches<'_>) -> Result<Option<String>, AllocError> {
    if let Some(inner) = matches.subcommand_matches("check") {
        return check_range_refusal(alloc, inner);
    }
    if let Some(inner) = matches.subcommand_matches("draw") {
        return draw_range_refusal(alloc, inner);
    }
    if let Some(inner) = matches.subcommand_matches("record") {
        let Some((rounds, events)) = number_and_events(inner, "rounds") else {
            return Ok(None);
        };
        if !are_rounds(events, rounds) {
            let text = range_refusal(alloc, "--rounds <R>", rounds, 1, events / ROUND_EVENTS)?;
            return Ok(Some(text));
        }
    }
    Ok(None)
}

/// Why words that the parser takes ask for no job, for the user.
pub(crate) fn usage_of(alloc: Global, matches: &ArgMatches<'_>) -> Result<String, AllocError> {
    match number_refusal(alloc, matches)? {
        Some(text) => Ok(text),
        None => String::from_str(alloc, refusal_of(matches)),
    }
}

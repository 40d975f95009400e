//! What is said about words that have no use with --cut.
use crate::format::Format;
use crate::option_values::{flag_in, is_given, number_in};
use crate::writers::leaves_many;
use clap::ArgMatches;

/// What is said if --cut is given, and --writers says one.
pub(crate) const ONE_WRITER: &str =
    "error: the argument '--cut' cannot be used with '--writers one'\n";

// The flag that has no use with --cut, if one is given.
fn flag_refusal(matches: &ArgMatches<'_>) -> Option<&'static str> {
    if flag_in(matches, "follow") {
        Some("error: the argument '--cut' cannot be used with '--follow'\n")
    } else if flag_in(matches, "summary") {
        Some("error: the argument '--cut' cannot be used with '--summary'\n")
    } else if flag_in(matches, "null") {
        Some("error: the argument '--cut' cannot be used with '--null'\n")
    } else {
        None
    }
}

// The option of cutting views into pieces, of sources or of colours that has no use with --cut, if one is given.
fn named_refusal(matches: &ArgMatches<'_>) -> Option<&'static str> {
    if is_given(matches, "pieces") {
        Some("error: the argument '--cut' cannot be used with '--pieces <P>'\n")
    } else if is_given(matches, "workers") {
        Some("error: the argument '--cut' cannot be used with '--workers <W>'\n")
    } else if is_given(matches, "color") {
        Some("error: the argument '--cut' cannot be used with '--color <WHEN>'\n")
    } else if is_given(matches, "list") {
        Some("error: the argument '--cut' cannot be used with '--files-from <LIST>'\n")
    } else if is_given(matches, "folder") {
        Some("error: the argument '--cut' cannot be used with '--recursive <FOLDER>'\n")
    } else {
        window_refusal(matches)
    }
}

// The option of windows, which has no use with --cut, if one is given.
fn window_refusal(matches: &ArgMatches<'_>) -> Option<&'static str> {
    if is_given(matches, "window") {
        Some("error: the argument '--cut' cannot be used with '--window <N>'\n")
    } else if is_given(matches, "idle") {
        Some("error: the argument '--cut' cannot be used with '--idle <SECONDS>'\n")
    } else if is_given(matches, "late") {
        Some("error: the argument '--cut' cannot be used with '--late <N>'\n")
    } else {
        None
    }
}

// The form of the answers that has no use with --cut, or the views that must be there, or more than one file.
fn form_refusal(matches: &ArgMatches<'_>, format: Format) -> &'static str {
    match format {
        Format::Json => "error: the argument '--cut' cannot be used with '--format json'\n",
        Format::Junit => "error: the argument '--cut' cannot be used with '--format junit'\n",
        Format::Plain => match number_in(matches, "views") {
            Some(0) => "error: --cut takes one history\n",
            _ => "error: the argument '--cut' cannot be used with '--views <N>'\n",
        },
    }
}

/// Why a check with --cut asks for no job.
pub(crate) fn cut_refusal(matches: &ArgMatches<'_>, format: Format) -> &'static str {
    if !leaves_many(matches) {
        return ONE_WRITER;
    }
    if let Some(refusal) = flag_refusal(matches) {
        return refusal;
    }
    match named_refusal(matches) {
        Some(refusal) => refusal,
        None => form_refusal(matches, format),
    }
}

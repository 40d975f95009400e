//! The formats of an answer, and the word for one.
ghost use Rattle.std.specs.Prelude.{◌≡◌, Bool, Some, codes, false, true};
ghost use Rattle.clap.specs.Words.{first_of, found_of, rows_of};
ghost use Rattle.snap_words.specs.Cutting.{AsksOther};
ghost use Rattle.snap_words.specs.Jobs.{format_text, object_format};
ghost use Rattle.snap_words.specs.declared.format.Format.{Format};
ghost use Rattle.snap_words.specs.declared.format.Format.TheVariants.{Plain};

use clap::ArgMatches;

/// The format of the answers of a check.
#[derive(Clone, Copy)]
pub enum Format {
    /// Reports.
    Plain,
    /// A JSON object for each text.
    Json,
    /// A document of JUnit, with a test case for each text.
    Junit,
}

// The format that a word names, or nothing if it is not known.
fn format_of(word: &str) -> Option<Format>
    ensures given { (format : Format) → word.now ≡ format_text format → result ≡ Some format }
{
    match word {
        "plain" => Some(Format::Plain),
        "json" => Some(Format::Json),
        "junit" => Some(Format::Junit),
        _ => None,
    }
}

/// The format that is asked for, or nothing if the word is not known.
pub(crate) fn format_in(matches: &ArgMatches<'_>) -> Option<Format>
    ensures given { (format : Format) → first_of (codes "format") (rows_of (found_of matches.now)) ≡ Some (format_text format) → result ≡ Some format }
{
    format_of(matches.get_str("format")?)
}

/// Whether a JSON object is asked for and not lines, or nothing if the word names neither.
pub(crate) fn json_in(matches: &ArgMatches<'_>) -> Option<bool>
    ensures given { (json : Bool) → first_of (codes "format") (rows_of (found_of matches.now)) ≡ Some (format_text (object_format json)) → result ≡ Some json }
{
    match format_in(matches)? {
        Format::Plain => Some(false),
        Format::Json => Some(true),
        Format::Junit => None,
    }
}

/// Whether reports are asked for, and no other format.
pub(crate) fn is_plain(matches: &ArgMatches<'_>) -> bool
    ensures plain { first_of (codes "format") (rows_of (found_of matches.now)) ≡ Some (format_text Plain) → result ≡ true }
    ensures other { AsksOther (rows_of (found_of matches.now)) → result ≡ false }
{
    match format_in(matches) {
        Some(Format::Plain) => true,
        Some(Format::Json) => false,
        Some(Format::Junit) => false,
        None => false,
    }
}

//! How many processes may write a component, and the word for it.
ghost use Rattle.std.specs.Prelude.{◌≡◌, Some, codes, false, true};
ghost use Rattle.clap.specs.Words.{first_of, found_of, rows_of};
ghost use Rattle.snap_core.specs.declared.writers.Writers.TheVariants.{One};
ghost use Rattle.snap_words.specs.Limits.{LeavesMany, SaysWriters, writers_text};

use clap::ArgMatches;
use snap_core::Writers;

// How many writers a word names, or nothing if it is not known.
fn writers_of(word: &str) -> Option<Writers>
    ensures given { (writers : Writers) → word.now ≡ writers_text writers → result ≡ Some writers }
{
    match word {
        "one" => Some(Writers::One),
        "many" => Some(Writers::Many),
        _ => None,
    }
}

/// How many processes may write a component: one, if the options don't say it. Nothing if the word is not known.
pub(crate) fn writers_in(matches: &ArgMatches<'_>) -> Option<Writers>
    ensures given { (writers : Writers) → SaysWriters (first_of (codes "writers") (rows_of (found_of matches.now))) writers → result ≡ Some writers }
{
    match matches.get_str("writers") {
        Some(word) => writers_of(word),
        None => Some(Writers::One),
    }
}

/// Whether the options leave many writers to a component: they say so, or say nothing of writers.
pub(crate) fn leaves_many(matches: &ArgMatches<'_>) -> bool
    ensures left { LeavesMany (first_of (codes "writers") (rows_of (found_of matches.now))) → result ≡ true }
    ensures one { first_of (codes "writers") (rows_of (found_of matches.now)) ≡ Some (writers_text One) → result ≡ false }
{
    match matches.get_str("writers") {
        Some(word) => word == "many",
        None => true,
    }
}

//! The job that `check --cut` asks for.
ghost use Rattle.std.specs.Prelude.{◌≡◌, Bool, Some, IfSome, IsNone, IsSomeAnd, codes, decimal, false, true};
ghost use Rattle.clap.specs.Words.{first_of, found_of, one_of, rows_of};
ghost use Rattle.snap_core.specs.declared.limit.Limit.{Limit};
ghost use Rattle.snap_core.specs.declared.writers.Writers.TheVariants.{One};
ghost use Rattle.snap_words.specs.Cutting.{AsksCut, AsksViews, FlagsUncut, IsCut, IsUncut, names_uncut};
ghost use Rattle.snap_words.specs.Inputs.{IsInputOf};
ghost use Rattle.snap_words.specs.Jobs.{IsInRange, files_of};
ghost use Rattle.snap_words.specs.Limits.{writers_text};

use crate::format::is_plain;
use crate::input::Input;
use crate::job::Job;
use crate::option_values::{cut_limit_in, flag_in, number_in};
use crate::refusals::{names_unheeded, names_windows};
use clap::ArgMatches;

// Whether an option with a value is given that has no use with --cut.
fn names_uncut(matches: &ArgMatches<'_>) -> bool
    ensures { result ≡ names_uncut (rows_of (found_of matches.now)) }
{
    names_unheeded(matches) || names_windows(matches)
}

// Whether a flag is given that has no use with --cut.
fn flags_uncut(matches: &ArgMatches<'_>) -> bool
    ensures asked { (limit : Limit) (quiet : Bool) → AsksCut limit quiet (rows_of (found_of matches.now)) → result ≡ false }
    ensures uncut { FlagsUncut (rows_of (found_of matches.now)) → result ≡ true }
{
    if flag_in(matches, "follow") {
        return true;
    }
    if flag_in(matches, "summary") {
        return true;
    }
    flag_in(matches, "null")
}

// Whether no completed view is asked for.
fn asks_no_views(matches: &ArgMatches<'_>) -> bool
    ensures none { one_of (codes "views") (rows_of (found_of matches.now)) ≡ Some (decimal 0) → result ≡ true }
    ensures some { AsksViews (rows_of (found_of matches.now)) → result ≡ false }
{
    matches!(number_in(matches, "views"), Some(0))
}

// Whether the options of `check` besides --writers are all of use with --cut, and name at most one history.
fn cuts_alone(matches: &ArgMatches<'_>, input: &Input) -> bool
    requires named { IsInputOf (rows_of (found_of matches.now)) input.now }
    ensures asked { (limit : Limit) (quiet : Bool) → AsksCut limit quiet (rows_of (found_of matches.now)) → result ≡ true }
    ensures uncut { IsUncut (rows_of (found_of matches.now)) → result ≡ false }
{
    if names_uncut(matches) {
        return false;
    }
    if flags_uncut(matches) {
        return false;
    }
    if !is_plain(matches) {
        return false;
    }
    if !asks_no_views(matches) {
        return false;
    }
    input.files.len() <= 1
}

/// The history that the options of `check` ask to judge once its updates are cut.
pub(crate) fn cut_in(matches: &ArgMatches<'_>, input: Input) -> Option<Job>
    requires named { IsInputOf (rows_of (found_of matches.now)) input }
    ensures job { IfSome result IsInRange }
    ensures asked { (limit : Limit) (quiet : Bool) → AsksCut limit quiet (rows_of (found_of matches.now)) → IsSomeAnd result (IsCut limit quiet (files_of (rows_of (found_of matches.now)))) }
    ensures one_writer { first_of (codes "writers") (rows_of (found_of matches.now)) ≡ Some (writers_text One) → IsNone result }
    ensures uncut { IsUncut (rows_of (found_of matches.now)) → IsNone result }
{
    let limit = cut_limit_in(matches)?;
    let quiet = flag_in(matches, "quiet");
    if !cuts_alone(matches, &input) {
        return None;
    }
    Some(Job::Cut {
        quiet,
        limit,
        file: input.into_file(),
    })
}

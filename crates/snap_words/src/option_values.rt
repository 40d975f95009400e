//! The values of the options of a command.
ghost use Rattle.std.specs.Prelude.{◌≡◌, ◌<◌, ◌^◌, ℕ, Bool, Some, None, false, true, codes, decimal, is_some, IfSome, IsNone, IsSomeAnd};
ghost use Rattle.clap.specs.Words.{first_of, found_of, one_of, rows_of};
ghost use Rattle.snap_core.specs.Limits.{IsLimit};
ghost use Rattle.snap_core.specs.declared.limit.Limit.{Limit};
ghost use Rattle.snap_core.specs.declared.writers.Writers.TheVariants.{One, Many};
ghost use Rattle.snap_words.specs.Jobs.{SaysOr, flag_text};
ghost use Rattle.snap_words.specs.Limits.{AsksCutLimit, AsksEvents, AsksLimit, AsksLimitWith, writers_text};

use crate::writers::{leaves_many, writers_in};
use clap::ArgMatches;
use snap_core::{Limit, Writers};

/// The number that an option has, or nothing if it has none.
pub(crate) fn number_in(matches: &ArgMatches<'_>, id: &str) -> Option<u32>
    ensures given { (n : ℕ) → n < 2 ^ 32 → one_of id.now (rows_of (found_of matches.now)) ≡ Some (decimal n) → result ≡ Some n }
    ensures absent { one_of id.now (rows_of (found_of matches.now)) ≡ None → result ≡ None }
{
    matches.get_one::<u32>(id)
}

/// The number that an option has, or the usual one if it was not given.
pub(crate) fn number_or(matches: &ArgMatches<'_>, id: &str, usual: u32) -> u32
    ensures { (n : ℕ) → n < 2 ^ 32 → SaysOr usual (one_of id.now (rows_of (found_of matches.now))) n → result ≡ n }
{
    number_in(matches, id).unwrap_or(usual)
}

/// Whether an option without a usual value was given.
pub(crate) fn is_given(matches: &ArgMatches<'_>, id: &str) -> bool
    ensures { result ≡ is_some (first_of id.now (rows_of (found_of matches.now))) }
{
    matches.get_str(id).is_some()
}

/// Whether a flag was given.
pub(crate) fn flag_in(matches: &ArgMatches<'_>, id: &str) -> bool
    ensures given { (flag : Bool) → one_of id.now (rows_of (found_of matches.now)) ≡ Some (flag_text flag) → result ≡ flag }
    ensures absent { one_of id.now (rows_of (found_of matches.now)) ≡ None → result ≡ false }
{
    matches.get_flag(id)
}

/// The number of events that is asked for as the limit.
pub(crate) fn events_in(matches: &ArgMatches<'_>) -> Option<u32>
    ensures limit { IfSome result IsLimit }
    ensures asked { (events : ℕ) → AsksEvents events (rows_of (found_of matches.now)) → result ≡ Some events }
{
    let events = number_in(matches, "events")?;
    let limit = Limit::new(events)?;
    Some(limit.events() as u32)
}

/// The limit that is asked for: of events, and of the writers of a component.
pub(crate) fn limit_in(matches: &ArgMatches<'_>) -> Option<Limit>
    ensures { (limit : Limit) → AsksLimit limit (rows_of (found_of matches.now)) → IsSomeAnd result (λ given. given ≡ limit) }
{
    let limit = Limit::new(number_in(matches, "events")?)?;
    Some(limit.with_writers(writers_in(matches)?))
}

/// The limit that is asked for beside --cut: of events, with many writers of each component. Nothing if the options say one writer.
pub(crate) fn cut_limit_in(matches: &ArgMatches<'_>) -> Option<Limit>
    ensures many { IfSome result (λ limit. limit.writers ≡ Many) }
    ensures asked { (limit : Limit) → AsksCutLimit limit (rows_of (found_of matches.now)) → IsSomeAnd result (λ given. given ≡ limit) }
    ensures one { first_of (codes "writers") (rows_of (found_of matches.now)) ≡ Some (writers_text One) → IsNone result }
{
    if !leaves_many(matches) {
        return None;
    }
    let events = number_in(matches, "events")?;
    let limit = Limit::new(events)?;
    Some(limit.with_writers(Writers::Many))
}

/// The limit that is asked for beside --cut, or without it.
pub(crate) fn limit_with(matches: &ArgMatches<'_>, cut: bool) -> Option<Limit>
    ensures many { cut ≡ true → IfSome result (λ limit. limit.writers ≡ Many) }
    ensures asked { (limit : Limit) → AsksLimitWith cut limit (rows_of (found_of matches.now)) → IsSomeAnd result (λ given. given ≡ limit) }
    ensures one { cut ≡ true → first_of (codes "writers") (rows_of (found_of matches.now)) ≡ Some (writers_text One) → IsNone result }
{
    if cut {
        cut_limit_in(matches)
    } else {
        limit_in(matches)
    }
}

//! What `shrink` writes, and the words that ask for it.
ghost use Rattle.std.specs.Prelude.{◌≡◌, Some, IsNone};
ghost use Rattle.clap.specs.Words.{found_of, rows_of};
ghost use Rattle.snap_core.specs.declared.limit.Limit.{Limit};
ghost use Rattle.snap_words.specs.Shrinking.{AsksShrinkWithin, DrawsMap};
ghost use Rattle.snap_words.specs.declared.shrunk.Shrunk.{Shrunk};

use crate::option_values::flag_in;
use clap::ArgMatches;

/// What is written of a history that is cut down to a witness.
#[derive(Clone, Copy, PartialEq, Eq)]
pub enum Shrunk {
    /// The witness.
    Witness,
    /// The picture of the witness.
    Picture,
    /// Which calls of the history the witness keeps.
    Map,
}

/// What the flags of `shrink` ask for, or nothing if they ask for two.
pub(crate) fn shrunk_in(matches: &ArgMatches<'_>) -> Option<Shrunk>
    ensures asked { (limit : Limit) (shrunk : Shrunk) → AsksShrinkWithin limit shrunk (rows_of (found_of matches.now)) → result ≡ Some shrunk }
    ensures both { DrawsMap (rows_of (found_of matches.now)) → IsNone result }
{
    let drawn = flag_in(matches, "draw");
    let mapped = flag_in(matches, "map");
    if drawn {
        return if mapped { None } else { Some(Shrunk::Picture) };
    }
    if mapped {
        Some(Shrunk::Map)
    } else {
        Some(Shrunk::Witness)
    }
}

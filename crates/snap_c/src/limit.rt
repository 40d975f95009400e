//! The limit that a number names.
ghost use Rattle.std.specs.Prelude.{◌≡◌, IfSome, IfNone};
ghost use Rattle.snap_core.specs.declared.limit.Limit.{Limit as SpecLimit};
ghost use Rattle.snap_c.specs.Answers.{word_of};

use snap_core::{Limit, Writers};

/// What is added to a number of events where a component may have many writers.
const MANY_WRITERS: u32 = 1 << 31;

/// The limit that a number names, if it names one.
pub(crate) fn limit_of(word: u32) -> Option<Limit>
    ensures some { IfSome result (λ limit. word_of limit ≡ word) }
    ensures none { IfNone result ((limit : SpecLimit) → word_of limit ≡ word → ⊥) }
{
    let (events, writers) = match word.checked_sub(MANY_WRITERS) {
        Some(events) => (events, Writers::Many),
        None => (word, Writers::One),
    };
    Some(Limit::new(events)?.with_writers(writers))
}

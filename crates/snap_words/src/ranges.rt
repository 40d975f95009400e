//! Which numbers are in their ranges, and which options go together.
ghost use Rattle.std.specs.Prelude.{◌≡◌, ◌<◌, true, false};
ghost use Rattle.snap_core.specs.Limits.{IsLimit};
ghost use Rattle.snap_record.specs.Plans.{AreRoundsWithin};
ghost use Rattle.snap_words.specs.Jobs.{AreFaults, AreViews, IsOneForm, IsWindow, usual_rounds, usual_window};

use crate::format::Format;
use crate::job::Options;
use snap_options::FAULT_LIMIT;
use snap_record::WORKER_LIMIT;

/// The greatest number of events of a round: two calls of each worker.
pub(crate) const ROUND_EVENTS: u32 = 4 * WORKER_LIMIT;

/// Whether a history of `events` events can have `views` completed views.
pub(crate) fn are_views(events: u32, views: u32) -> bool
    ensures one { result ≡ true → AreViews events views }
    ensures asked { AreViews events views → result ≡ true }
{
    2 * u64::from(views) <= u64::from(events)
}

/// Whether a recording of `events` events may have `rounds` rounds, of two calls of each worker.
pub(crate) fn are_rounds(events: u32, rounds: u32) -> bool
    ensures one { result ≡ true → AreRoundsWithin events rounds }
    ensures asked { AreRoundsWithin events rounds → result ≡ true }
{
    0 < rounds && u64::from(ROUND_EVENTS) * u64::from(rounds) <= u64::from(events)
}

/// The number of rounds of a recording if no option says it: at most as many as `events` events allow.
pub(crate) fn rounds_for(events: u32) -> u32
    ensures { result ≡ usual_rounds events }
{
    (events / ROUND_EVENTS).min(16)
}

/// Whether one form of answer is asked for.
pub(crate) fn is_one_form(options: Options) -> bool
    ensures one { result ≡ true → IsOneForm options }
    ensures asked { IsOneForm options → result ≡ true }
{
    if options.summary {
        !options.quiet && options.format == Format::Plain
    } else {
        !options.quiet || options.format == Format::Plain
    }
}

/// Whether an explanation may have this many faults of a kind, with a picture or without. A picture goes with one fault.
pub(crate) fn are_faults(faults: u32, drawn: bool) -> bool
    ensures one { result ≡ true → AreFaults faults × (drawn ≡ true → faults ≡ 1) }
    ensures asked { AreFaults faults → (drawn ≡ true → faults ≡ 1) → result ≡ true }
    ensures several { 1 < faults → drawn ≡ true → result ≡ false }
{
    if drawn {
        faults == 1
    } else {
        1 <= faults && faults <= FAULT_LIMIT
    }
}

/// From how many events on windows end, if no option says it. Half of a history, or more, is left for them to end in.
pub(crate) fn window_for(events: u32) -> u32
    ensures { result ≡ usual_window events }
{
    (events - events / 2).min(1000)
}

/// Whether windows of at most `events` events may end from `least` events on.
pub(crate) fn is_window(events: u32, least: u32) -> bool
    ensures one { result ≡ true → IsLimit events → IsWindow events least }
    ensures asked { IsWindow events least → result ≡ true }
{
    1 <= least && least <= events
}

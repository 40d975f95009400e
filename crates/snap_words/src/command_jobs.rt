//! The job that each command asks for by its options.
ghost use Rattle.std.specs.Prelude.{◌≡◌, ℕ, Bool, List, Some, codes, IfSome, IsNone, IsSomeAnd, true, false};
ghost use Rattle.clap.specs.Words.{Row, Text, found_of, rows_of};
ghost use Rattle.snap_core.specs.declared.limit.Limit.{Limit};
ghost use Rattle.snap_words.specs.Cutting.{AsksCut, CutsUnheeding, IsCut};
ghost use Rattle.snap_words.specs.Drawing.{AsksDrawWithin};
ghost use Rattle.snap_words.specs.Explaining.{AsksExplanationWithin, CutsOneWriter, DrawsFaults};
ghost use Rattle.snap_words.specs.Inputs.{IsInputOf};
ghost use Rattle.snap_words.specs.Shrinking.{AsksShrinkWithin, DrawsMap};
ghost use Rattle.snap_words.specs.inside.Found.{FindsJob};
ghost use Rattle.snap_words.specs.Jobs.{AsksCheck, AsksFollow, AsksRecordWithin, AsksStatsWithin, AsksTooManyRounds, Checking, Flags, FollowsUnheeding, IsCheck, IsDraw, IsExplain, IsFollow, IsInRange, IsRecord, IsShrink, IsStats, LacksFollow, NamesInputTwice, files_of, first_name, text_of, texts_of};
ghost use Rattle.snap_words.specs.declared.job.Windows.{Windows};

use crate::color::color_in;
use crate::cut_job::cut_in;
use crate::drawing::{Form, Part, form_in, part_in};
use crate::format::{format_in, is_plain, json_in};
use crate::input::{Input, inputs_among};
use crate::job::{Job, Options, Windows};
use crate::option_values::{
    events_in, flag_in, is_given, limit_in, limit_with, number_in, number_or,
};
use crate::ranges::{
    are_faults, are_rounds, are_views, is_one_form, is_window, rounds_for, window_for,
};
use crate::refusals::{names_unheeded, names_windows};
use crate::shrunk::{Shrunk, shrunk_in};
use clap::ArgMatches;
use snap_record::{LEAST_WORKERS, WORKER_LIMIT};
use snap_threads::Cutting;

// How a check is cut if no option says it.
const USUAL_PIECES: u32 = 8;

const USUAL_WORKERS: u32 = 2;

// The records that wait if no option says it.
const USUAL_LATE: u32 = 1000;

// The options of `check` besides its cutting and its limit.
fn options_in(matches: &ArgMatches<'_>) -> Option<Options>
    ensures { (asked : Checking) → AsksCheck (rows_of (found_of matches.now)) asked → result ≡ Some asked.options }
{
    let quiet = flag_in(matches, "quiet");
    let views = number_in(matches, "views")?;
    let format = format_in(matches)?;
    let summary = flag_in(matches, "summary");
    let no_progress = flag_in(matches, "no-progress");
    let color = color_in(matches)?;
    let finer = !is_given(matches, "pieces");
    Some(Options {
        quiet,
        views,
        format,
        summary,
        no_progress,
        color,
        finer,
    })
}

// How the options of `check` cut it.
fn cutting_in(matches: &ArgMatches<'_>) -> Option<Cutting>
    ensures { (asked : Checking) → AsksCheck (rows_of (found_of matches.now)) asked → IsSomeAnd result (λ cutting. (cutting.pieces ≡ asked.pieces) × (cutting.workers ≡ asked.workers)) }
{
    let pieces = number_or(matches, "pieces", USUAL_PIECES);
    let workers = number_or(matches, "workers", USUAL_WORKERS);
    Cutting::new(pieces, workers).ok()
}

// The check of histories that the options of `check` ask for.
fn check_in(matches: &ArgMatches<'_>, input: Input) -> Option<Job>
    requires named { IsInputOf (rows_of (found_of matches.now)) input }
    ensures job { IfSome result IsInRange }
    ensures asked { (asked : Checking) → AsksCheck (rows_of (found_of matches.now)) asked → IsSomeAnd result (IsCheck asked (files_of (rows_of (found_of matches.now)))) }
    ensures unfollowed { LacksFollow (rows_of (found_of matches.now)) → IsNone result }
{
    let cutting = cutting_in(matches)?;
    let limit = limit_in(matches)?;
    let options = options_in(matches)?;
    if names_windows(matches)
        || !input.is_readable()
        || !are_views(limit.events() as u32, options.views)
        || !is_one_form(options)
    {
        return None;
    }
    Some(Job::Check {
        cutting,
        limit,
        options,
        input,
    })
}

// Whether the options of `check` are all of use with --follow, and name at most one recording.
fn follows_alone(matches: &ArgMatches<'_>, input: &Input) -> bool
    requires named { IsInputOf (rows_of (found_of matches.now)) input.now }
    ensures asked { (limit : Limit) (windows : Windows) → AsksFollow limit (rows_of (found_of matches.now)) windows → result ≡ true }
    ensures unheeded { FollowsUnheeding (rows_of (found_of matches.now)) → result ≡ false }
{
    if names_unheeded(matches) {
        return false;
    }
    if flag_in(matches, "quiet") {
        return false;
    }
    if flag_in(matches, "summary") {
        return false;
    }
    if flag_in(matches, "null") {
        return false;
    }
    if !is_plain(matches) {
        return false;
    }
    input.files.len() <= 1
}

// The recording that the options of `check` ask to judge while it grows.
fn follow_in(matches: &ArgMatches<'_>, input: Input) -> Option<Job>
    requires named { IsInputOf (rows_of (found_of matches.now)) input }
    ensures job { IfSome result IsInRange }
    ensures asked { (limit : Limit) (windows : Windows) → AsksFollow limit (rows_of (found_of matches.now)) windows → IsSomeAnd result (IsFollow limit windows (files_of (rows_of (found_of matches.now)))) }
    ensures unheeded { FollowsUnheeding (rows_of (found_of matches.now)) → IsNone result }
{
    let limit = limit_in(matches)?;
    let events = limit.events() as u32;
    let views = number_in(matches, "views")?;
    let least = number_or(matches, "window", window_for(events));
    let idle = number_or(matches, "idle", 0);
    let late = number_or(matches, "late", USUAL_LATE);
    if !follows_alone(matches, &input) || !are_views(events, views) || !is_window(events, least) {
        return None;
    }
    Some(Job::Follow {
        limit,
        windows: Windows {
            least,
            idle,
            late,
            views,
        },
        file: input.into_file(),
    })
}

// What the options of `check` ask for.
fn judged_in(matches: &ArgMatches<'_>, input: Input) -> Option<Job>
    requires named { IsInputOf (rows_of (found_of matches.now)) input }
    ensures job { IfSome result IsInRange }
    ensures check { (asked : Checking) → AsksCheck (rows_of (found_of matches.now)) asked → IsSomeAnd result (IsCheck asked (files_of (rows_of (found_of matches.now)))) }
    ensures follow { (limit : Limit) (windows : Windows) → AsksFollow limit (rows_of (found_of matches.now)) windows → IsSomeAnd result (IsFollow limit windows (files_of (rows_of (found_of matches.now)))) }
    ensures cut { (limit : Limit) (quiet : Bool) → AsksCut limit quiet (rows_of (found_of matches.now)) → IsSomeAnd result (IsCut limit quiet (files_of (rows_of (found_of matches.now)))) }
    ensures unfollowed { LacksFollow (rows_of (found_of matches.now)) → IsNone result }
    ensures unheeded { FollowsUnheeding (rows_of (found_of matches.now)) → IsNone result }
    ensures uncut { CutsUnheeding (rows_of (found_of matches.now)) → IsNone result }
{
    if flag_in(matches, "cut") {
        cut_in(matches, input)
    } else if flag_in(matches, "follow") {
        follow_in(matches, input)
    } else {
        check_in(matches, input)
    }
}

// The recording that the options of `record` ask for.
fn record_in(matches: &ArgMatches<'_>) -> Option<Job>
    ensures job { IfSome result IsInRange }
    ensures asked { (events workers rounds seed : ℕ) (flags : Flags) → AsksRecordWithin events (rows_of (found_of matches.now)) workers rounds seed flags → IsSomeAnd result (IsRecord workers rounds seed flags) }
    ensures overfull { AsksTooManyRounds (rows_of (found_of matches.now)) → IsNone result }
{
    let events = events_in(matches)?;
    let workers = number_in(matches, "workers")?;
    let rounds = number_or(matches, "rounds", rounds_for(events));
    let seed = number_in(matches, "seed")?;
    let judge = flag_in(matches, "judge");
    let stamped = flag_in(matches, "stamped");
    if workers < LEAST_WORKERS
        || WORKER_LIMIT < workers
        || !are_rounds(events, rounds)
        || (judge && stamped)
    {
        return None;
    }
    Some(Job::Record {
        workers,
        rounds,
        judge,
        scan: flag_in(matches, "scan"),
        stamped,
        seed,
    })
}

// The drawing that the options of `draw` ask for.
fn draw_in(matches: &ArgMatches<'_>, file: Option<Vec<u8>>) -> Option<Job>
    ensures job { IfSome result IsInRange }
    ensures asked { (limit : Limit) (form : Form) (part : Part) (files : List Text) → text_of file ≡ first_name files → AsksDrawWithin limit (rows_of (found_of matches.now)) form part → IsSomeAnd result (IsDraw limit form part files) }
{
    let form = form_in(matches)?;
    let part = part_in(matches, form)?;
    let limit = limit_in(matches)?;
    Some(Job::Draw {
        form,
        part,
        limit,
        file,
    })
}

// The witness that the options of `shrink` ask for.
fn shrink_in(matches: &ArgMatches<'_>, file: Option<Vec<u8>>) -> Option<Job>
    ensures job { IfSome result IsInRange }
    ensures asked { (limit : Limit) (shrunk : Shrunk) (files : List Text) → text_of file ≡ first_name files → AsksShrinkWithin limit shrunk (rows_of (found_of matches.now)) → IsSomeAnd result (IsShrink limit shrunk files) }
    ensures both { DrawsMap (rows_of (found_of matches.now)) → IsNone result }
{
    let shrunk = shrunk_in(matches)?;
    let limit = limit_in(matches)?;
    Some(Job::Shrink {
        shrunk,
        limit,
        file,
    })
}

// The explanation that the options of `explain` ask for.
fn explain_in(matches: &ArgMatches<'_>, file: Option<Vec<u8>>) -> Option<Job>
    ensures job { IfSome result IsInRange }
    ensures asked { (limit : Limit) (cut drawn whole : Bool) (faults : ℕ) (files : List Text) → text_of file ≡ first_name files → AsksExplanationWithin limit cut drawn whole faults (rows_of (found_of matches.now)) → IsSomeAnd result (IsExplain limit cut drawn whole faults files) }
    ensures several { DrawsFaults (rows_of (found_of matches.now)) → IsNone result }
    ensures one_writer { CutsOneWriter (rows_of (found_of matches.now)) → IsNone result }
{
    let cut = flag_in(matches, "cut");
    let drawn = flag_in(matches, "draw");
    let whole = flag_in(matches, "all");
    let faults = number_in(matches, "faults")?;
    let limit = limit_with(matches, cut)?;
    if !are_faults(faults, drawn) {
        return None;
    }
    Some(Job::Explain {
        cut,
        drawn,
        whole,
        faults,
        limit,
        file,
    })
}

// The counts that the options of `stats` ask for.
fn stats_in(matches: &ArgMatches<'_>, files: Vec<Vec<u8>>) -> Option<Job>
    requires named { texts_of files.items ≡ files_of (rows_of (found_of matches.now)) }
    ensures job { IfSome result IsInRange }
    ensures asked { (limit : Limit) (json : Bool) → AsksStatsWithin limit json (rows_of (found_of matches.now)) → IsSomeAnd result (IsStats limit json (files_of (rows_of (found_of matches.now)))) }
    ensures repeated { NamesInputTwice (rows_of (found_of matches.now)) → IsNone result }
{
    let json = json_in(matches)?;
    let limit = limit_in(matches)?;
    if inputs_among(&files) > 1 {
        return None;
    }
    Some(Job::Stats { json, limit, files })
}

/// The job that a command asks for by its options, if each number is there and in its range.
pub(crate) fn job_in(name: &str, matches: &ArgMatches<'_>, input: Input) -> Option<Job>
    requires named { IsInputOf (rows_of (found_of matches.now)) input }
    ensures job { IfSome result IsInRange }
    ensures asked { FindsJob result name.now (rows_of (found_of matches.now)) }
{
    match name {
        "check" => judged_in(matches, input),
        "shrink" => shrink_in(matches, input.into_file()),
        "explain" => explain_in(matches, input.into_file()),
        "draw" => draw_in(matches, input.into_file()),
        "stats" => stats_in(matches, input.into_files()),
        _ => record_in(matches),
    }
}

//! The jobs, and the one that the words of a command line ask for.
ghost use Rattle.std.specs.Prelude.{◌≡◌, ℕ, Bool, List, Some, codes, IfOk, IsErr, MatchResult, map, string_bytes};
ghost use Rattle.clap.specs.Words.{Row, Text, kind_of, subcommand_rows_of};
ghost use Rattle.snap_core.specs.declared.limit.Limit.{Limit};
ghost use Rattle.snap_words.specs.Cutting.{AsksCut, CutsUnheeding, IsCut};
ghost use Rattle.snap_words.specs.Drawing.{AsksDrawWithin};
ghost use Rattle.snap_words.specs.Explaining.{AsksExplanationWithin, CutsOneWriter, DrawsFaults};
ghost use Rattle.snap_words.specs.Jobs.{AsksCheck, AsksFollow, AsksRecordWithin, AsksStatsWithin, AsksTooManyRounds, Checking, Flags, FollowsUnheeding, IsCheck, IsDraw, IsExplain, IsFollow, IsInRange, IsRecord, IsShrink, IsStats, LacksFollow, NamesInputTwice};
ghost use Rattle.snap_words.specs.inside.Found.{FindsGiven};
ghost use Rattle.snap_words.specs.Lines.{Means};
ghost use Rattle.snap_words.specs.Shrinking.{AsksShrinkWithin, DrawsMap};

use crate::color::Color;
use crate::command::program;
use crate::command_jobs::job_in;
use crate::drawing::{Form, Part};
use crate::format::Format;
use crate::input::{Input, input_in};
use crate::refusals::usage_of;
use crate::shrunk::Shrunk;
use clap::error::ErrorKind;
use clap::{ArgMatches, Error};
use snap_core::Limit;
use snap_threads::Cutting;
use std::alloc::{AllocError, Global};

/// The options of a check besides its cutting and its limit.
#[derive(Clone, Copy)]
pub struct Options {
    /// Whether only the lines of the verdicts are written of a report; not with another format.
    pub quiet: bool,
    /// The least number of completed views of a history.
    pub views: u32,
    /// Whether reports are written, or what takes their place.
    pub format: Format,
    /// Whether the sums of all files take the place of reports; not with `quiet` or another format.
    pub summary: bool,
    /// Whether no line on a terminal shows the progress.
    pub no_progress: bool,
    /// When the verdicts have colours.
    pub color: Color,
    /// Whether the program chooses the number of pieces of a long text, since no `--pieces` is given.
    pub finer: bool,
}

/// The options of a check that judges a recording while it grows.
#[derive(Clone, Copy)]
pub struct Windows {
    /// A window ends at the first moment without an open call after this many events: 1 to the limit of events.
    pub least: u32,
    /// The seconds without anything new after which it ends, or 0 if it does not end so.
    pub idle: u32,
    /// The most records with stamps that wait for others: 0 to the greatest limit of events.
    pub late: u32,
    /// The least number of completed views of all windows together.
    pub views: u32,
}

/// What the program is asked to do, and on which texts. A history may have as many events as the limit says. An absent file is
/// standard input, and so are no files at all.
#[derive(Drop)]
pub enum Job {
    /// Judge histories.
    Check {
        cutting: Cutting,
        limit: Limit,
        options: Options,
        input: Input,
    },
    /// Judge one recording while it grows, window by window. The limit is that of a window.
    Follow {
        limit: Limit,
        windows: Windows,
        file: Option<Vec<u8>>,
    },
    /// Judge the history of a store that tells a version of each update, once its updates are cut to the times that these allow. Each
    /// component may have many writers.
    Cut {
        quiet: bool,
        limit: Limit,
        file: Option<Vec<u8>>,
    },
    /// Cut a history down to a witness, and write that, its picture, or which calls it keeps.
    Shrink {
        shrunk: Shrunk,
        limit: Limit,
        file: Option<Vec<u8>>,
    },
    /// Explain a history, with a picture or without, and with all entries of the views of a fault or without. The first `faults`
    /// views with a fault of a kind are told: 1 to 1,000, and 1 with a picture. `cut` says whether the updates are cut first, as by
    /// `Cut`.
    Explain {
        cut: bool,
        drawn: bool,
        whole: bool,
        faults: u32,
        limit: Limit,
        file: Option<Vec<u8>>,
    },
    /// Draw a part of a history.
    Draw {
        form: Form,
        part: Part,
        limit: Limit,
        file: Option<Vec<u8>>,
    },
    /// Count what each history has shown, as lines or as a JSON object.
    Stats {
        json: bool,
        limit: Limit,
        files: Vec<Vec<u8>>,
    },
    /// Record `workers` workers in `rounds` rounds of a store and a view, or a scan in place of the view. The seed draws where calls
    /// pause. Judge the history if that is asked for, or write it with the stamps of its events, but not both.
    Record {
        workers: u32,
        rounds: u32,
        judge: bool,
        scan: bool,
        stamped: bool,
        seed: u32,
    },
}

/// Why the words ask for no job.
#[derive(Debug, Drop)]
pub enum JobFault {
    /// The words were not taken, or ask for help; the text is for the user.
    Usage(String),
    /// Memory ran out.
    Memory,
}

impl From<AllocError> for JobFault {
    ghost use Rattle.snap_words.specs.declared.job.JobFault.TheVariants.{Memory};

    ghost from_gives = { λ _ fault. fault ≡ Memory };

    fn from(_error: AllocError) -> JobFault {
        JobFault::Memory
    }
}

// What the parser says about `--json`. Its tip would take the word for a file.
const UNKNOWN_JSON: &str = "error: unexpected argument '--json' found";

const TIP_ON_JSON: &str = "error: unexpected argument '--json' found

  tip: '--format json' writes a JSON object for each history
";

// What is said about words that the parser does not take.
fn text_of(alloc: Global, error: &Error) -> Result<String, AllocError> {
    let text = error.to_string(alloc)?;
    if text.starts_with(UNKNOWN_JSON) {
        return String::from_str(alloc, TIP_ON_JSON);
    }
    Ok(text)
}

// Why there is no job if the parser does not take the words.
fn fault_of(alloc: Global, error: &Error) -> JobFault
    ensures { kind_of error.now ≡ ErrorKind.OutOfMemory → result ≡ JobFault.Memory }
{
    if error.kind() == ErrorKind::OutOfMemory {
        return JobFault::Memory;
    }
    match text_of(alloc, error) {
        Ok(text) => JobFault::Usage(text),
        Err(_) => JobFault::Memory,
    }
}

// The job that the command after the program's name asks for.
fn asked_by(alloc: Global, matches: &ArgMatches<'_>) -> Result<Job, JobFault>
    ensures job { IfOk result IsInRange }
    ensures asked { (command : Text) (rows : List Row) → subcommand_rows_of matches.now ≡ Some (command, rows) → FindsGiven result command rows }
{
    let Some((name, inner)) = matches.subcommand() else {
        return Err(JobFault::Usage(usage_of(alloc, matches)?));
    };
    let input = input_in(alloc, inner)?;
    match job_in(name, inner, input) {
        Some(job) => Ok(job),
        None => Err(JobFault::Usage(usage_of(alloc, matches)?)),
    }
}

/// The job that the words of a command line ask for. The program's name comes first. The kit defines how the parser reads words.
/// `Means` says it of [`program`], and the laws of this crate say it of whole lines.
pub fn job_of(alloc: Global, words: Vec<String>) -> Result<Job, JobFault>
    ensures job { IfOk result IsInRange }
    ensures check { (asked : Checking) (files : List Text)
        → Means (map string_bytes words.items) (codes "check") (λ rows. AsksCheck rows asked) files
        → MatchResult result (IsCheck asked files) (λ fault. fault ≡ JobFault.Memory) }
    ensures follow { (limit : Limit) (windows : Windows) (files : List Text)
        → Means (map string_bytes words.items) (codes "check") (λ rows. AsksFollow limit rows windows) files
        → MatchResult result (IsFollow limit windows files) (λ fault. fault ≡ JobFault.Memory) }
    ensures cut { (limit : Limit) (quiet : Bool) (files : List Text)
        → Means (map string_bytes words.items) (codes "check") (AsksCut limit quiet) files
        → MatchResult result (IsCut limit quiet files) (λ fault. fault ≡ JobFault.Memory) }
    ensures unfollowed { (files : List Text) → Means (map string_bytes words.items) (codes "check") LacksFollow files → IsErr result }
    ensures unheeded { (files : List Text) → Means (map string_bytes words.items) (codes "check") FollowsUnheeding files → IsErr result }
    ensures uncut { (files : List Text) → Means (map string_bytes words.items) (codes "check") CutsUnheeding files → IsErr result }
    ensures shrink { (limit : Limit) (shrunk : Shrunk) (files : List Text)
        → Means (map string_bytes words.items) (codes "shrink") (AsksShrinkWithin limit shrunk) files
        → MatchResult result (IsShrink limit shrunk files) (λ fault. fault ≡ JobFault.Memory) }
    ensures drawn_map { (files : List Text) → Means (map string_bytes words.items) (codes "shrink") DrawsMap files → IsErr result }
    ensures explain { (limit : Limit) (cut drawn whole : Bool) (faults : ℕ) (files : List Text)
        → Means (map string_bytes words.items) (codes "explain") (AsksExplanationWithin limit cut drawn whole faults) files
        → MatchResult result (IsExplain limit cut drawn whole faults files) (λ fault. fault ≡ JobFault.Memory) }
    ensures drawn_faults { (files : List Text) → Means (map string_bytes words.items) (codes "explain") DrawsFaults files → IsErr result }
    ensures one_writer { (files : List Text) → Means (map string_bytes words.items) (codes "explain") CutsOneWriter files → IsErr result }
    ensures draw { (limit : Limit) (form : Form) (part : Part) (files : List Text)
        → Means (map string_bytes words.items) (codes "draw") (λ rows. AsksDrawWithin limit rows form part) files
        → MatchResult result (IsDraw limit form part files) (λ fault. fault ≡ JobFault.Memory) }
    ensures stats { (limit : Limit) (json : Bool) (files : List Text)
        → Means (map string_bytes words.items) (codes "stats") (AsksStatsWithin limit json) files
        → MatchResult result (IsStats limit json files) (λ fault. fault ≡ JobFault.Memory) }
    ensures repeated { (files : List Text) → Means (map string_bytes words.items) (codes "stats") NamesInputTwice files → IsErr result }
    ensures recording { (events workers rounds seed : ℕ) (flags : Flags) (files : List Text)
        → Means (map string_bytes words.items) (codes "record") (λ rows. AsksRecordWithin events rows workers rounds seed flags) files
        → MatchResult result (IsRecord workers rounds seed flags) (λ fault. fault ≡ JobFault.Memory) }
    ensures overfull { (files : List Text) → Means (map string_bytes words.items) (codes "record") AsksTooManyRounds files → IsErr result }
{
    let command = program(alloc)?;
    match command.try_get_matches_from(words.as_slice()) {
        Err(error) => Err(fault_of(alloc, &error)),
        Ok(matches) => asked_by(alloc, &matches),
    }
}

//! What is asked of several texts.
ghost use Rattle.std.specs.Prelude.{◌≡◌, MatchBool};
ghost use Rattle.snap_check.specs.declared.workers.TheConstants.{SHARED_FROM};

use snap_check::{CheckOptions, SHARED_FROM};
use snap_core::Limit;

/// What is answered for a text, and in which form.
#[derive(Clone, Copy)]
pub enum Format {
    /// Its report, each line with the name before it.
    Plain,
    /// Its report as a JSON object on a line, which has the name.
    Json,
    /// What it has shown, each line with the name before it.
    Counts,
    /// What it has shown, as a JSON object on a line, which has the name.
    CountsObject,
    /// Its test case of a document of JUnit, which has the name.
    Junit,
}

/// What is asked of several texts.
#[derive(Clone, Copy)]
pub struct FileOptions {
    /// What is answered for each text.
    pub format: Format,
    /// The options of the check of each text. An object is always whole, so `quiet` changes only reports.
    pub check: CheckOptions,
}

impl FileOptions {
    /// The options of a check that answers with objects if `json` is set, and else with reports. A report is short if `quiet` is
    /// set. A history needs `views` completed views, and may have as many events as the limit says. A text of fewer than
    /// `SHARED_FROM` bytes has one worker. If `finer` is set, the number of pieces of any other text is left to the program.
    pub fn new(json: bool, quiet: bool, views: u32, limit: Limit, finer: bool) -> FileOptions
        ensures format { MatchBool json (result.format ≡ Format.Json) (result.format ≡ Format.Plain) }
        ensures check { (result.check.quiet ≡ quiet) × (result.check.views ≡ views) × (result.check.limit ≡ limit) }
        ensures alone { result.check.alone_below ≡ SHARED_FROM }
        ensures pieces { result.check.finer ≡ finer }
    {
        FileOptions {
            format: if json { Format::Json } else { Format::Plain },
            check: CheckOptions {
                quiet,
                views,
                limit,
                alone_below: SHARED_FROM,
                finer,
            },
        }
    }

    /// The options that ask what each text has shown, by objects if `json` is set, and else by lines. A history may have as many
    /// events as the limit says.
    pub fn counts(json: bool, limit: Limit) -> FileOptions
        ensures format { MatchBool json (result.format ≡ Format.CountsObject) (result.format ≡ Format.Counts) }
        ensures limit { result.check.limit ≡ limit }
        ensures alone { result.check.alone_below ≡ SHARED_FROM }
    {
        FileOptions {
            format: if json {
                Format::CountsObject
            } else {
                Format::Counts
            },
            ..FileOptions::new(json, false, 0, limit, true)
        }
    }
}

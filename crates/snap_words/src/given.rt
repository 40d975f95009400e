//! The words that a program is given, which may not be UTF-8, and what they ask for.
ghost use Rattle.std.specs.Prelude.{◌≡◌, ℕ, Bool, List, [], codes, IfOk, IsErr, MatchResult, map, string_bytes};
ghost use Rattle.clap.specs.Words.{Text};
ghost use Rattle.snap_core.specs.declared.limit.Limit.{Limit};
ghost use Rattle.snap_words.specs.Cutting.{AsksCut, CutsUnheeding, IsCut};
ghost use Rattle.snap_words.specs.Drawing.{AsksDrawWithin};
ghost use Rattle.snap_words.specs.Explaining.{AsksExplanationWithin, CutsOneWriter, DrawsFaults};
ghost use Rattle.snap_words.specs.Jobs.{AsksCheck, AsksFollow, AsksRecordWithin, AsksStatsWithin, AsksTooManyRounds, Checking, Flags, FollowsUnheeding, IsCheck, IsDraw, IsExplain, IsFollow, IsInRange, IsRecord, IsShrink, IsStats, LacksFollow, NamesInputTwice};
ghost use Rattle.snap_words.specs.Lines.{Means};
ghost use Rattle.snap_words.specs.Shrinking.{AsksShrinkWithin, DrawsMap};
ghost use Rattle.snap_words.specs.declared.drawing.Form.{Form};
ghost use Rattle.snap_words.specs.declared.drawing.Part.{Part};
ghost use Rattle.snap_words.specs.declared.job.Windows.{Windows};
ghost use Rattle.snap_words.specs.declared.shrunk.Shrunk.{Shrunk};

use crate::input::Input;
use crate::job::{Job, JobFault, job_of};
use std::alloc::{AllocError, Global};
use std::env::FillError;
use std::rt::Env;
use std::str;

// Replaces, in a text, the rest of a word from its first byte that is not UTF-8. No word has a zero byte.
const MARK: char = '\0';

/// The words, the program's name first. In a word that is not UTF-8 the mark replaces the rest, with the place of that rest among
/// the others.
#[derive(Drop)]
pub struct Words {
    /// The words as texts.
    pub texts: Vec<String>,
    /// The rests of those that are not UTF-8.
    pub others: Vec<Vec<u8>>,
}

// A word of the command line, or nothing if there are fewer.
fn word_at<Rt: Env>(rt: &Rt, alloc: Global, place: usize) -> Result<Option<Vec<u8>>, AllocError> {
    let mut word = Vec::new(alloc);
    for bits in 8..usize::BITS {
        word.resize(1 << bits, 0)?;
        match rt.arg(place, &mut word) {
            Ok(length) => {
                word.truncate(length);
                return Ok(Some(word));
            }
            Err(FillError::NotPresent) => return Ok(None),
            Err(FillError::TooLong) => {}
        }
    }
    Err(AllocError)
}

// The front of a word that is UTF-8.
fn front_of(word: &[u8]) -> &str {
    match word.utf8_chunks().next() {
        Some(chunk) => chunk.valid(),
        None => "",
    }
}

// Adds a word that is not UTF-8 to those before it.
fn add_other(alloc: Global, words: &mut Words, front: &str, rest: &[u8]) -> Result<(), AllocError> {
    let text = format!(in alloc; "{front}{MARK}{}", words.others.len())?;
    words.texts.push(text)?;
    words.others.push(Vec::from_slice(alloc, rest)?)?;
    Ok(())
}

// Adds a word to those before it.
fn add_word(alloc: Global, words: &mut Words, word: &[u8]) -> Result<(), AllocError> {
    let front = front_of(word);
    match word.strip_prefix(front.as_bytes()) {
        Some(rest) if !rest.is_empty() => add_other(alloc, words, front, rest),
        _ => Ok(words.texts.push(String::from_str(alloc, front)?)?),
    }
}

/// The words that a program is given, the name of the program first. The error is lack of memory.
pub fn words_of<Rt: Env>(rt: &Rt, alloc: Global) -> Result<Words, AllocError> {
    let mut words = Words {
        texts: Vec::new(alloc),
        others: Vec::new(alloc),
    };
    for place in 0..usize::MAX {
        let Some(word) = word_at(rt, alloc, place)? else {
            break;
        };
        add_word(alloc, &mut words, &word)?;
    }
    Ok(words)
}

// The place of the mark in a name, and the rest of the word that it replaces.
fn other_in<'a>(name: &[u8], others: &'a [Vec<u8>]) -> Option<(usize, &'a Vec<u8>)> {
    let at = name.iter().position(|byte| *byte == MARK as u8)?;
    let place = str::from_utf8(&name[at + 1..]).ok()?;
    let place = place.parse::<usize>().ok()?;
    Some((at, others.get(place)?))
}

// Puts the rest of its word into a name, in place of the mark.
fn make_whole(name: &mut Vec<u8>, others: &[Vec<u8>]) -> Result<(), AllocError> {
    if let Some((at, rest)) = other_in(name, others) {
        name.truncate(at);
        name.extend_from_slice(rest)?;
    }
    Ok(())
}

// The whole name for a name that may be absent.
fn whole_name(name: Option<Vec<u8>>, others: &[Vec<u8>]) -> Result<Option<Vec<u8>>, AllocError> {
    let Some(mut name) = name else {
        return Ok(None);
    };
    make_whole(&mut name, others)?;
    Ok(Some(name))
}

// The whole names for some names.
fn whole_files(files: Vec<Vec<u8>>, others: &[Vec<u8>]) -> Result<Vec<Vec<u8>>, AllocError> {
    let mut files = files;
    for name in &mut files {
        make_whole(name, others)?;
    }
    Ok(files)
}

fn whole_input(input: Input, others: &[Vec<u8>]) -> Result<Input, AllocError> {
    let Input {
        files,
        list,
        null,
        folder,
    } = input;
    Ok(Input {
        files: whole_files(files, others)?,
        list: whole_name(list, others)?,
        null,
        folder: whole_name(folder, others)?,
    })
}

// A job with the whole names of its texts.
fn whole_job(job: Job, others: &[Vec<u8>]) -> Result<Job, AllocError>
    requires { IsInRange job }
    ensures job { IfOk result IsInRange }
    ensures same { others.now ≡ [] → IfOk result (λ whole. whole ≡ job) }
{
    if others.is_empty() {
        return Ok(job);
    }
    Ok(match job {
        Job::Check {
            cutting,
            limit,
            options,
            input,
        } => Job::Check {
            cutting,
            limit,
            options,
            input: whole_input(input, others)?,
        },
        Job::Follow {
            limit,
            windows,
            file,
        } => Job::Follow {
            limit,
            windows,
            file: whole_name(file, others)?,
        },
        Job::Cut { quiet, limit, file } => Job::Cut {
            quiet,
            limit,
            file: whole_name(file, others)?,
        },
        Job::Shrink {
            shrunk,
            limit,
            file,
        } => Job::Shrink {
            shrunk,
            limit,
            file: whole_name(file, others)?,
        },
        Job::Explain {
            cut,
            drawn,
            whole,
            faults,
            limit,
            file,
        } => Job::Explain {
            cut,
            drawn,
            whole,
            faults,
            limit,
            file: whole_name(file, others)?,
        },
        Job::Draw {
            form,
            part,
            limit,
            file,
        } => Job::Draw {
            form,
            part,
            limit,
            file: whole_name(file, others)?,
        },
        Job::Stats { json, limit, files } => Job::Stats {
            json,
            limit,
            files: whole_files(files, others)?,
        },
        job => job,
    })
}

// The fault with this text for the user.
fn told(text: Result<String, AllocError>) -> JobFault {
    match text {
        Ok(text) => JobFault::Usage(text),
        Err(_) => JobFault::Memory,
    }
}

// The fault of a command line with a recording in place of a command, if that is what it has.
fn recording_fault(alloc: Global, texts: &[String]) -> Option<JobFault> {
    match texts.get(1) {
        Some(name) if name.ends_with(".csv") && !name.contains(MARK) => Some(told(format!(in alloc;
            "error: to judge a file, write: snapjudge check {name}\n"
        ))),
        _ => None,
    }
}

// Why there is no job, for the user. It does not quote a word that is not UTF-8. A recording in place of a command has a fault of its own.
fn readable(alloc: Global, fault: JobFault, recording: Option<JobFault>) -> JobFault
    ensures { fault ≡ JobFault.Memory → result ≡ JobFault.Memory }
{
    let text = match fault {
        JobFault::Usage(text) => text,
        JobFault::Memory => return JobFault::Memory,
    };
    if let Some(fault) = recording {
        return fault;
    }
    if text.contains(MARK) {
        return told(String::from_str(
            alloc,
            "error: a word that is not UTF-8 can only name a file, a list or a folder\n",
        ));
    }
    JobFault::Usage(text)
}

/// The job that the words of the command line ask for, on the names that these words give. If all words are UTF-8, it is the job
/// that `job_of` finds in them.
pub fn wanted_by(alloc: Global, words: Words) -> Result<Job, JobFault>
    ensures job { IfOk result IsInRange }
    ensures check { (asked : Checking) (files : List Text) → words.others.items ≡ []
        → Means (map string_bytes words.texts.items) (codes "check") (λ rows. AsksCheck rows asked) files
        → MatchResult result (IsCheck asked files) (λ fault. fault ≡ JobFault.Memory) }
    ensures follow { (limit : Limit) (windows : Windows) (files : List Text) → words.others.items ≡ []
        → Means (map string_bytes words.texts.items) (codes "check") (λ rows. AsksFollow limit rows windows) files
        → MatchResult result (IsFollow limit windows files) (λ fault. fault ≡ JobFault.Memory) }
    ensures cut { (limit : Limit) (quiet : Bool) (files : List Text) → words.others.items ≡ []
        → Means (map string_bytes words.texts.items) (codes "check") (AsksCut limit quiet) files
        → MatchResult result (IsCut limit quiet files) (λ fault. fault ≡ JobFault.Memory) }
    ensures unfollowed { (files : List Text) → Means (map string_bytes words.texts.items) (codes "check") LacksFollow files → IsErr result }
    ensures unheeded { (files : List Text) → Means (map string_bytes words.texts.items) (codes "check") FollowsUnheeding files → IsErr result }
    ensures uncut { (files : List Text) → Means (map string_bytes words.texts.items) (codes "check") CutsUnheeding files → IsErr result }
    ensures shrink { (limit : Limit) (shrunk : Shrunk) (files : List Text) → words.others.items ≡ []
        → Means (map string_bytes words.texts.items) (codes "shrink") (AsksShrinkWithin limit shrunk) files
        → MatchResult result (IsShrink limit shrunk files) (λ fault. fault ≡ JobFault.Memory) }
    ensures drawn_map { (files : List Text) → Means (map string_bytes words.texts.items) (codes "shrink") DrawsMap files → IsErr result }
    ensures explain { (limit : Limit) (cut drawn whole : Bool) (faults : ℕ) (files : List Text) → words.others.items ≡ []
        → Means (map string_bytes words.texts.items) (codes "explain") (AsksExplanationWithin limit cut drawn whole faults) files
        → MatchResult result (IsExplain limit cut drawn whole faults files) (λ fault. fault ≡ JobFault.Memory) }
    ensures drawn_faults { (files : List Text) → Means (map string_bytes words.texts.items) (codes "explain") DrawsFaults files → IsErr result }
    ensures one_writer { (files : List Text) → Means (map string_bytes words.texts.items) (codes "explain") CutsOneWriter files → IsErr result }
    ensures draw { (limit : Limit) (form : Form) (part : Part) (files : List Text) → words.others.items ≡ []
        → Means (map string_bytes words.texts.items) (codes "draw") (λ rows. AsksDrawWithin limit rows form part) files
        → MatchResult result (IsDraw limit form part files) (λ fault. fault ≡ JobFault.Memory) }
    ensures stats { (limit : Limit) (json : Bool) (files : List Text) → words.others.items ≡ []
        → Means (map string_bytes words.texts.items) (codes "stats") (AsksStatsWithin limit json) files
        → MatchResult result (IsStats limit json files) (λ fault. fault ≡ JobFault.Memory) }
    ensures repeated { (files : List Text) → Means (map string_bytes words.texts.items) (codes "stats") NamesInputTwice files → IsErr result }
    ensures recording { (events workers rounds seed : ℕ) (flags : Flags) (files : List Text) → words.others.items ≡ []
        → Means (map string_bytes words.texts.items) (codes "record") (λ rows. AsksRecordWithin events rows workers rounds seed flags) files
        → MatchResult result (IsRecord workers rounds seed flags) (λ fault. fault ≡ JobFault.Memory) }
    ensures overfull { (files : List Text) → Means (map string_bytes words.texts.items) (codes "record") AsksTooManyRounds files → IsErr result }
{
    let Words { texts, others } = words;
    let recording = recording_fault(alloc, &texts);
    match job_of(alloc, texts) {
        Ok(job) => Ok(whole_job(job, &others)?),
        Err(fault) => Err(readable(alloc, fault, recording)),
    }
}

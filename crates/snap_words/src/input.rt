//! The names of texts that a command line gives.
ghost use Rattle.std.specs.Prelude.{◌≡◌, ◌+◌, ◌≤◌, IfOk, IsSome, true, false, length, map};
ghost use Rattle.clap.specs.Words.{first_of, found_of, rows_of};
ghost use Rattle.snap_words.specs.Inputs.{IsInputOf};
ghost use Rattle.snap_words.specs.Jobs.{files_of, first_name, inputs_at, inputs_in, is_input, text_of, texts_of};

use crate::option_values::flag_in;
use clap::ArgMatches;
use std::alloc::{AllocError, Global};

/// The names of the texts of a check. If there are none at all, the text is standard input.
#[derive(Drop)]
pub struct Input {
    /// The files among the words; `-` is standard input.
    pub files: Vec<Vec<u8>>,
    /// A list of more names; `-` is standard input.
    pub list: Option<Vec<u8>>,
    /// Whether a zero byte, and not a line end, ends each name in the list.
    pub null: bool,
    /// A folder below which all recordings are judged too.
    pub folder: Option<Vec<u8>>,
}

fn is_input_name(name: &[u8]) -> bool
    ensures { result ≡ is_input name.now }
{
    name == b"-".as_slice()
}

/// How often standard input is among some names.
pub(crate) fn inputs_among(names: &[Vec<u8>]) -> usize
    ensures count { result ≡ inputs_in (texts_of names.now) }
    ensures each { result ≤ length names.now }
{
    let mut count = 0;
    for name in names {
        if is_input_name(name) {
            count += 1;
        }
    }
    count
}

/// Whether some names and a list name standard input more than once.
pub fn names_input_twice(names: &[Vec<u8>], list: &Option<Vec<u8>>) -> bool
    ensures { inputs_in (texts_of names.now) + inputs_at (text_of list.now) ≤ 1 → result ≡ false }
{
    let is_listed = match list {
        Some(list) => is_input_name(list),
        None => false,
    };
    let most = if is_listed { 0 } else { 1 };
    inputs_among(names) > most
}

impl Input {
    /// Whether there is a list or a folder, so that not only the words name texts.
    pub fn has_sources(&self) -> bool {
        self.list.is_some() || self.folder.is_some()
    }

    // Whether everything that is named can be read: a zero byte ends names only in a list, and standard input is named at most once.
    pub(crate) fn is_readable(&self) -> bool
        ensures { (self.now.null ≡ true → IsSome self.now.list) → inputs_in (texts_of self.now.files.items) + inputs_at (text_of self.now.list) ≤ 1 → result ≡ true }
    {
        (!self.null || self.list.is_some()) && !names_input_twice(&self.files, &self.list)
    }

    /// The files.
    pub(crate) fn into_files(self) -> Vec<Vec<u8>>
        ensures { result ≡ self.files }
    {
        self.files
    }

    /// The first file, or nothing if there is none.
    pub fn into_file(self) -> Option<Vec<u8>>
        ensures { text_of result ≡ first_name (texts_of self.files.items) }
    {
        self.files.into_iter().next()
    }
}

// A copy of each of some names.
fn copies_of(alloc: Global, names: &[&str]) -> Result<Vec<Vec<u8>>, AllocError>
    ensures { IfOk result (λ copies. texts_of copies.items ≡ map (λ name. name.now) names.now) }
{
    let mut copies = Vec::new(alloc);
    for name in names {
        copies.push(Vec::from_slice(alloc, name.as_bytes())?)?;
    }
    Ok(copies)
}

fn files_in(alloc: Global, matches: &ArgMatches<'_>) -> Result<Vec<Vec<u8>>, AllocError>
    ensures { IfOk result (λ files. texts_of files.items ≡ files_of (rows_of (found_of matches.now))) }
{
    match matches.get_strs("file") {
        Some(names) => copies_of(alloc, names),
        None => Ok(Vec::new(alloc)),
    }
}

// The text that an option has, or nothing if it has none.
fn text_in(alloc: Global, matches: &ArgMatches<'_>, id: &str) -> Result<Option<Vec<u8>>, AllocError>
    ensures { IfOk result (λ text. text_of text ≡ first_of id.now (rows_of (found_of matches.now))) }
{
    match matches.get_str(id) {
        Some(text) => Ok(Some(Vec::from_slice(alloc, text.as_bytes())?)),
        None => Ok(None),
    }
}

/// The names that a command gives.
pub(crate) fn input_in(alloc: Global, matches: &ArgMatches<'_>) -> Result<Input, AllocError>
    ensures { IfOk result (IsInputOf (rows_of (found_of matches.now))) }
{
    Ok(Input {
        files: files_in(alloc, matches)?,
        list: text_in(alloc, matches, "list")?,
        null: flag_in(matches, "null"),
        folder: text_in(alloc, matches, "folder")?,
    })
}

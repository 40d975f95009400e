//! Histories in plain texts. Without quotes and carriage returns a record is a line. Any other text is read byte by byte, by `csv`.
ghost use Rattle.std.specs.Prelude.{◌≡◌, ◌≤◌, ◌↔◌, ◌∷◌, [], List, ℕ, true, All, IfOk, IsTrue, length};
ghost use Rattle.snap_format.specs.Layout.{is_header_row};
ghost use Rattle.snap_format.specs.Rows.{rows_of};
ghost use Rattle.snap_plain.specs.Lines.{HasLines, HasRows, IsPlain};
ghost use Rattle.snap_plain.specs.Turns.{HasTaken, TakesOn};
ghost use Rattle.snap_format.specs.Stamping.{AnswersStamps, ReadsStamped};
ghost use Rattle.snap_format.specs.Taking.{AnswersNumbered};
ghost use Rattle.snap_text.specs.Fields.{Fields};

use crate::fields::{five_first, four_first};
use crate::front::{
    behind_newlines, behind_order_mark, lines_under_header, lines_under_stamped_header,
};
use memchr::memchr2;
use snap_core::{AnyWriters, History, Limit};
use snap_format::{ReadRefusal, Stamped, history_by_stamps, row_limit, take_fields, take_stamped};
use snap_text::{Known, TextFault};
use std::alloc::Global;

/// Whether a text is plain: it has no quote and no carriage return.
pub fn is_plain(text: &[u8]) -> bool
    ensures { IsTrue result ↔ All IsPlain text.now }
{
    memchr2(b'"', b'\r', text).is_none()
}

/// Takes the events of lines in order, until at most `stop` bytes are left. The answer is the lines after these, or the first fault.
pub(crate) fn take_lines<'t>(
    alloc: Global,
    known: &mut Known,
    text: &'t [u8],
    stop: usize,
    limit: Limit,
    history: &mut History<AnyWriters>,
) -> Result<&'t [u8], ReadRefusal>
    requires { history.old.limit ≡ limit }
    ensures takes { (lines : List ℕ) → TakesOn limit lines text.now history.old.events history.new.events result }
    ensures stop { IfOk result (λ rest. length rest.now ≤ stop) }
    ensures limit { history.new.limit ≡ history.old.limit }
{
    let mut left = text;
    'each: for _ in 0..row_limit(limit) {
        let place = history.len() as u32 + 2;
        let line = behind_newlines(left, stop);
        if line.len() <= stop {
            return Ok(line);
        }
        let Some((fields, rest)) = four_first(line) else {
            return Err(ReadRefusal::Text {
                place,
                fault: TextFault::Fields,
            });
        };
        take_fields(alloc, known, history, place, fields)?;
        left = rest;
    }
    unreachable!()
}

/// The history of some lines, or the first fault. The given history has the events of the lines before `rest`.
pub(crate) fn rest_history(
    alloc: Global,
    rest: &[u8],
    limit: Limit,
    mut history: History<AnyWriters>,
) -> Result<(History<AnyWriters>, Option<Vec<u32>>), ReadRefusal>
    requires { history.limit ≡ limit }
    ensures { (lines : List ℕ) (rows : List Fields) → HasTaken limit lines rest.now history.events rows → AnswersNumbered limit rows result }
{
    take_lines(alloc, &mut Known::new(alloc), rest, 0, limit, &mut history)?;
    Ok((history, None))
}

// The history of the lines under the header, or the first fault.
fn lines_history(
    alloc: Global,
    lines: &[u8],
    limit: Limit,
) -> Result<(History<AnyWriters>, Option<Vec<u32>>), ReadRefusal>
    ensures { (head : Fields) (later : List Fields) → is_header_row head ≡ true → HasRows lines.now later → AnswersNumbered limit (head ∷ later) result }
{
    rest_history(alloc, lines, limit, History::of_any(alloc, limit))
}

// Takes the stamped events of the lines under the header, up to the first with a fault other than a repeated stamp.
fn read_stamped_lines(
    alloc: Global,
    known: &mut Known,
    lines: &[u8],
    limit: Limit,
    stamped: &mut Vec<Stamped>,
) -> Result<(), ReadRefusal>
    requires { stamped.old.items ≡ [] }
    ensures { (rows : List Fields) → HasRows lines.now rows → ReadsStamped limit rows stamped.new.items result }
{
    let mut left = lines;
    for i in 0..row_limit(limit) {
        let line = behind_newlines(left, 0);
        if line.is_empty() {
            return Ok(());
        }
        let Some((fields, rest)) = five_first(line) else {
            return Err(ReadRefusal::Text {
                place: i + 2,
                fault: TextFault::Fields,
            });
        };
        take_stamped(alloc, known, stamped, limit, i + 2, fields)?;
        left = rest;
    }
    unreachable!()
}

// The history of the lines under the header, each with a stamp, and the number of each event's record; or the first fault.
fn stamped_lines_history(
    alloc: Global,
    lines: &[u8],
    limit: Limit,
) -> Result<(History<AnyWriters>, Vec<u32>), ReadRefusal>
    ensures { (rows : List Fields) → HasRows lines.now rows → AnswersStamps limit rows result }
{
    let mut stamped = Vec::new(alloc);
    let read = read_stamped_lines(alloc, &mut Known::new(alloc), lines, limit, &mut stamped);
    history_by_stamps(alloc, stamped, read, limit)
}

/// A plain text after its header: lines without stamps, or with them, or anything if it has no header.
#[derive(Clone, Copy)]
pub enum Lines<'t> {
    Bare(&'t [u8]),
    Stamped(&'t [u8]),
    Headless,
}

/// The lines of a plain text after its header, if it has one.
pub fn lines_of(text: &[u8]) -> Lines<'_>
    requires { All IsPlain text.now }
    ensures { HasLines (rows_of text.now) result }
{
    let line = behind_newlines(behind_order_mark(text), 0);
    if let Some(lines) = lines_under_header(line) {
        return Lines::Bare(lines);
    }
    if let Some(lines) = lines_under_stamped_header(line) {
        return Lines::Stamped(lines);
    }
    Lines::Headless
}

/// The history of the lines of a plain text, or the text's first fault. If the records have stamps, also the number of each event's
/// record.
pub fn history_of_lines(
    alloc: Global,
    lines: Lines<'_>,
    limit: Limit,
) -> Result<(History<AnyWriters>, Option<Vec<u32>>), ReadRefusal>
    ensures { (rows : List Fields) → HasLines rows lines.entry → AnswersNumbered limit rows result }
{
    match lines {
        Lines::Bare(lines) => lines_history(alloc, lines, limit),
        Lines::Stamped(lines) => {
            let (history, records) = stamped_lines_history(alloc, lines, limit)?;
            Ok((history, Some(records)))
        }
        Lines::Headless => Err(ReadRefusal::Text {
            place: 1,
            fault: TextFault::Header,
        }),
    }
}

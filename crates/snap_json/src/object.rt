//! Lines of JSON for texts.
ghost use Rattle.std.specs.Prelude.{◌≡◌, ◌++◌, [], ◌∷◌, IfOk, OnOk, codes, length};
ghost use Rattle.json.specs.Json.{string};
ghost use Rattle.json.specs.Token as token;
ghost use Rattle.json.specs.Tree.{json_tokens};
ghost use Rattle.snap_core.specs.Calls.{calls_of, views_of};
ghost use Rattle.snap_conditions.specs.Tally.{tally_of};
ghost use Rattle.snap_text.specs.Words.{word_of};
ghost use Rattle.snap_report.specs.Reports.{has_no_fault, has_no_local_fault, has_no_stale_view};
ghost use Rattle.snap_json.specs.Objects.{count_fields, few_views_json, history_json, refusal_json, trouble_json};
ghost use Rattle.snap_json.specs.Values.{IsLineOf, field_tokens, number_json, object_of};

use crate::faults::put_faults;
use crate::line::Line;
use snap_conditions::{Tally, is_atomic, is_monotone, is_regular};
use snap_core::Ownership;
use snap_index::Index;
use snap_text::TextFault;
use std::alloc::{AllocError, Global};

/// Begins the object of a text, with its name and its exit status.
pub(crate) fn begin_text(alloc: Global, name: &str, status: u8) -> Result<Line, AllocError>
    ensures { IfOk result (λ line. line.writer.tokens ≡ token.begin_object ∷ field_tokens ((codes "name", string name.now) ∷ (codes "status", number_json status) ∷ [])) }
{
    let mut line = Line::new(alloc);
    line.begin_object()?;
    line.text("name", name)?;
    line.number("status", u64::from(status))?;
    Ok(line)
}

fn put_counts<O: Ownership>(line: &mut Line, index: &Index<'_, O>) -> Result<(), AllocError>
    ensures { OnOk result (line.new.writer.tokens ≡ line.old.writer.tokens ++ field_tokens (count_fields index.now)) }
{
    line.number("events", u64::from(index.event_count()))?;
    line.number("calls", u64::from(index.call_count()))?;
    line.number("pending", u64::from(index.pending_count()))?;
    line.number("views", u64::from(index.view_count()))
}

fn put_verdicts(line: &mut Line, tally: &Tally) -> Result<(), AllocError>
    ensures { OnOk result (line.new.writer.tokens ≡ line.old.writer.tokens ++ (token.key (codes "regular") ∷ token.boolean (has_no_local_fault tally.now) ∷ [])
        ++ (token.key (codes "monotone") ∷ token.boolean (has_no_stale_view tally.now) ∷ [])
        ++ (token.key (codes "atomic") ∷ token.boolean (has_no_fault tally.now) ∷ [])) }
{
    line.truth("regular", is_regular(tally))?;
    line.truth("monotone", is_monotone(tally))?;
    line.truth("atomic", is_atomic(tally))
}

/// The line of a history: its name, its exit status, its counts, its verdicts, and the first fault of each kind. A fault has the
/// number of faults of its kind, what it names, and its calls. A kind without faults has null.
///
/// `tally` is that of all completed views, and `records` has the number of the record of each event.
pub fn history_line<O: Ownership>(
    alloc: Global,
    name: &str,
    status: u8,
    index: &Index<'_, O>,
    tally: &Tally,
    records: &[u32],
) -> Result<Vec<u8>, AllocError>
    requires tally { tally.now ≡ tally_of (calls_of index.now) (views_of (calls_of index.now)) }
    requires each { length records.now ≡ length index.now }
    ensures { IfOk result (λ line. IsLineOf (history_json name.now status index.now tally.now records.now) line.items) }
{
    let mut line = begin_text(alloc, name, status)?;
    put_counts(&mut line, index)?;
    put_verdicts(&mut line, tally)?;
    put_faults(&mut line, index, records, tally)?;
    line.end_object()?;
    line.finish()
}

fn put_refused(line: &mut Line, place: u32, fault: TextFault) -> Result<(), AllocError>
    ensures { OnOk result (line.new.writer.tokens ≡ line.old.writer.tokens
        ++ (token.key (codes "refused") ∷ json_tokens (object_of ((codes "record", number_json place) ∷ (codes "fault", string (word_of fault)) ∷ [])))) }
{
    line.key("refused")?;
    line.begin_object()?;
    line.number("record", u64::from(place))?;
    line.text("fault", fault.word())?;
    line.end_object()
}

/// The line of a text that is not a history: the record at fault and the word of its fault. Records count from 1, and 0 is the text
/// as a whole.
pub fn refusal_line(
    alloc: Global,
    name: &str,
    status: u8,
    place: u32,
    fault: TextFault,
) -> Result<Vec<u8>, AllocError>
    ensures { IfOk result (λ line. IsLineOf (refusal_json name.now status place fault) line.items) }
{
    let mut line = begin_text(alloc, name, status)?;
    put_refused(&mut line, place, fault)?;
    line.end_object()?;
    line.finish()
}

// Adds the number of completed views, and the number that is asked for.
fn put_few_views(line: &mut Line, views: u32, least: u32) -> Result<(), AllocError>
    ensures { OnOk result (line.new.writer.tokens ≡ line.old.writer.tokens
        ++ (token.key (codes "too_few_views") ∷ json_tokens (object_of ((codes "views", number_json views) ∷ (codes "least", number_json least) ∷ [])))) }
{
    line.key("too_few_views")?;
    line.begin_object()?;
    line.number("views", u64::from(views))?;
    line.number("least", u64::from(least))?;
    line.end_object()
}

/// The line of a history with fewer completed views than are asked for.
pub fn few_views_line(
    alloc: Global,
    name: &str,
    status: u8,
    views: u32,
    least: u32,
) -> Result<Vec<u8>, AllocError>
    ensures { IfOk result (λ line. IsLineOf (few_views_json name.now status views least) line.items) }
{
    let mut line = begin_text(alloc, name, status)?;
    put_few_views(&mut line, views, least)?;
    line.end_object()?;
    line.finish()
}

/// The line of a text that was not read, or for which memory did not suffice, with the reason.
pub fn trouble_line(
    alloc: Global,
    name: &str,
    status: u8,
    reason: &str,
) -> Result<Vec<u8>, AllocError>
    ensures { IfOk result (λ line. IsLineOf (trouble_json name.now status reason.now) line.items) }
{
    let mut line = begin_text(alloc, name, status)?;
    line.text("trouble", reason)?;
    line.end_object()?;
    line.finish()
}

//! The object of a call.
ghost use Rattle.std.specs.Prelude.{◌≡◌, ◌<◌, ◌++◌, ◌∷◌, OnOk, codes, length};
ghost use Rattle.std.specs.List.{flat_map};
ghost use Rattle.std.specs.Option.{ForSome};
ghost use Rattle.json.specs.Json.{array};
ghost use Rattle.json.specs.Token as token;
ghost use Rattle.json.specs.Tree.{json_tokens};
ghost use Rattle.snap_core.specs.Calls.{Operation, call_numbered, calls_of, entries_of};
ghost use Rattle.snap_index.specs.IndexedCalls.{indexed_op};
ghost use Rattle.snap_json.specs.Calls.{call_json, end_json, entries_in, entry_items, entry_json, op_word, record_json, update_json};

use crate::line::Line;
use snap_core::{Entry, Ownership};
use snap_index::{Call, CallOp, Index};
use std::alloc::AllocError;

/// Adds the object of an entry: its component, number and value.
pub(crate) fn put_entry(line: &mut Line, entry: &Entry) -> Result<(), AllocError>
    ensures { OnOk result (line.new.writer.tokens ≡ line.old.writer.tokens ++ json_tokens (entry_json entry.now)) }
{
    line.begin_object()?;
    line.number("component", u64::from(entry.component))?;
    line.number("number", u64::from(entry.number))?;
    line.number("value", u64::from(entry.value))?;
    line.end_object()
}

fn put_entries(line: &mut Line, entries: &[Entry]) -> Result<(), AllocError>
    ensures { OnOk result (line.new.writer.tokens ≡ line.old.writer.tokens ++ flat_map (λ entry. json_tokens (entry_json entry)) entries.now) }
{
    for entry in entries {
        put_entry(line, entry)?;
    }
    Ok(())
}

// Adds the entries that a completed view shows. Of other calls it adds none.
fn put_shown<O: Ownership>(
    line: &mut Line,
    index: &Index<'_, O>,
    number: u32,
) -> Result<(), AllocError>
    requires { number < length (calls_of index.now) }
    ensures { OnOk result (line.new.writer.tokens ≡ line.old.writer.tokens
        ++ flat_map (λ entry. json_tokens (entry_json entry)) (entries_of (call_numbered (calls_of index.now) number).operation)) }
{
    match index.answer(number) {
        Some(view) => put_entries(line, view.entries()),
        None => Ok(()),
    }
}

// Adds the entries that an update writes, or that a view shows.
fn put_operation<O: Ownership>(
    line: &mut Line,
    index: &Index<'_, O>,
    number: u32,
    op: CallOp,
) -> Result<(), AllocError>
    requires below { number < length (calls_of index.now) }
    requires same { op ≡ indexed_op (call_numbered (calls_of index.now) number).operation }
    ensures { OnOk result (line.new.writer.tokens ≡ line.old.writer.tokens
        ++ flat_map (λ entry. json_tokens (entry_json entry)) (entries_in (call_numbered (calls_of index.now) number).operation)) }
{
    match op {
        CallOp::Update(entry) => put_entry(line, &entry),
        CallOp::View => put_shown(line, index, number),
    }
}

// Adds the array of the entries that the call writes or shows.
fn put_array<O: Ownership>(
    line: &mut Line,
    index: &Index<'_, O>,
    number: u32,
    op: CallOp,
) -> Result<(), AllocError>
    requires below { number < length (calls_of index.now) }
    requires same { op ≡ indexed_op (call_numbered (calls_of index.now) number).operation }
    ensures { OnOk result (line.new.writer.tokens ≡ line.old.writer.tokens
        ++ json_tokens (array (entry_items (entries_in (call_numbered (calls_of index.now) number).operation)))) }
{
    line.begin_array()?;
    put_operation(line, index, number, op)?;
    line.end_array()
}

fn word_of(op: CallOp) -> &'static str
    ensures { (o : Operation) → op ≡ indexed_op o → result.now ≡ op_word o }
{
    match op {
        CallOp::Update(_) => "update",
        CallOp::View => "view",
    }
}

// Adds the records of a call's begin and end.
fn put_records(line: &mut Line, records: &[u32], call: &Call) -> Result<(), AllocError>
    requires begun { call.now.begun < length records.now }
    requires ended { ForSome call.now.ended (λ place. place < length records.now) }
    ensures { OnOk result (line.new.writer.tokens ≡ line.old.writer.tokens
        ++ (token.key (codes "begin") ∷ (json_tokens (record_json records.now call.now.begun)
        ++ (token.key (codes "end") ∷ json_tokens (end_json records.now call.now.ended))))) }
{
    line.number("begin", u64::from(records[call.begun as usize]))?;
    match call.ended {
        Some(ended) => line.number("end", u64::from(records[ended as usize])),
        None => {
            line.key("end")?;
            line.null()
        }
    }
}

/// Adds the object of the call of a number.
pub(crate) fn put_call<O: Ownership>(
    line: &mut Line,
    index: &Index<'_, O>,
    records: &[u32],
    number: u32,
) -> Result<(), AllocError>
    requires each { length records.now ≡ length index.now }
    requires below { number < length (calls_of index.now) }
    ensures { OnOk result (line.new.writer.tokens ≡ line.old.writer.tokens ++ json_tokens (call_json records.now (call_numbered (calls_of index.now) number))) }
{
    // what is known about the history of the index
    let _events = index.event_count();
    let Some(call) = index.call(number) else {
        unreachable!()
    };
    line.begin_object()?;
    line.number("call", u64::from(number) + 1)?;
    line.number("process", u64::from(call.process))?;
    line.text("op", word_of(call.op))?;
    put_records(line, records, call)?;
    line.key("entries")?;
    put_array(line, index, number, call.op)?;
    line.end_object()
}

/// Adds the object of an update, or null if no update has that component and number.
pub(crate) fn put_update<O: Ownership>(
    line: &mut Line,
    index: &Index<'_, O>,
    records: &[u32],
    component: u8,
    number: u32,
) -> Result<(), AllocError>
    requires { length records.now ≡ length index.now }
    ensures { OnOk result (line.new.writer.tokens ≡ line.old.writer.tokens ++ json_tokens (update_json records.now (calls_of index.now) component number)) }
{
    match index.update_call(component, number) {
        Some(call) => put_call(line, index, records, call),
        None => line.null(),
    }
}

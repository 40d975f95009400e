//! The line of a call.
ghost use Rattle.std.specs.Prelude.{◌≡◌, ◌<◌, ◌++◌, OnOk, length};
ghost use Rattle.std.specs.Option.{ForSome};
ghost use Rattle.snap_core.specs.Calls.{call_numbered, calls_of, entries_of};
ghost use Rattle.snap_index.specs.IndexedCalls.{indexed_op};
ghost use Rattle.snap_explain.specs.Calls.{call_begin, call_text, entries_text, operation_text, records_words};
ghost use Rattle.snap_explain.specs.Faults.{update_text, updates_text};

use snap_core::{Entry, Ownership};
use snap_index::{Call, CallOp, Index};
use snap_report::{put_call, put_entry, put_number};
use std::alloc::AllocError;

// Adds the records of a call's begin and end.
fn put_records(out: &mut Vec<u8>, records: &[u32], call: &Call) -> Result<(), AllocError>
    requires begun { call.now.begun < length records.now }
    requires ended { ForSome call.now.ended (λ place. place < length records.now) }
    ensures { OnOk result (out.new.items ≡ out.old.items ++ records_words records.now call.now.begun call.now.ended) }
{
    let begun = u64::from(records[call.begun as usize]);
    match call.ended {
        Some(ended) => {
            put_number(out, b"records ", begun)?;
            put_number(out, b" and ", u64::from(records[ended as usize]))
        }
        None => {
            put_number(out, b"record ", begun)?;
            out.extend_from_slice(b", pending")
        }
    }
}

/// Adds entries, each after a space.
pub(crate) fn put_entries(out: &mut Vec<u8>, entries: &[Entry]) -> Result<(), AllocError>
    ensures { OnOk result (out.new.items ≡ out.old.items ++ entries_text entries.now) }
{
    for entry in entries {
        put_entry(out, b" ", entry)?;
    }
    Ok(())
}

// Adds what a call shows: nothing if it is not a completed view.
fn put_shown<O: Ownership>(
    out: &mut Vec<u8>,
    index: &Index<'_, O>,
    number: u32,
) -> Result<(), AllocError>
    requires { number < length (calls_of index.now) }
    ensures { OnOk result (out.new.items ≡ out.old.items ++ entries_text (entries_of (call_numbered (calls_of index.now) number).operation)) }
{
    match index.answer(number) {
        Some(view) => put_entries(out, view.entries()),
        None => Ok(()),
    }
}

// Adds what a call does.
fn put_operation<O: Ownership>(
    out: &mut Vec<u8>,
    index: &Index<'_, O>,
    number: u32,
    op: CallOp,
) -> Result<(), AllocError>
    requires below { number < length (calls_of index.now) }
    requires same { op ≡ indexed_op (call_numbered (calls_of index.now) number).operation }
    ensures { OnOk result (out.new.items ≡ out.old.items ++ operation_text (call_numbered (calls_of index.now) number).operation) }
{
    match op {
        CallOp::Update(entry) => put_entry(out, b"update ", &entry),
        CallOp::View => {
            out.extend_from_slice(b"view")?;
            put_shown(out, index, number)
        }
    }
}

/// Begins the line of the call of a number: it adds the number, the process, and the records.
pub(crate) fn put_begin<O: Ownership>(
    out: &mut Vec<u8>,
    index: &Index<'_, O>,
    records: &[u32],
    number: u32,
) -> Result<(), AllocError>
    requires each { length records.now ≡ length index.now }
    requires below { number < length (calls_of index.now) }
    ensures { OnOk result (out.new.items ≡ out.old.items ++ call_begin records.now (call_numbered (calls_of index.now) number)) }
{
    // what is known of the history that the index is of
    let _events = index.event_count();
    let Some(call) = index.call(number) else {
        unreachable!()
    };
    put_call(out, b"  call ", number)?;
    put_number(out, b" of process ", u64::from(call.process))?;
    out.extend_from_slice(b", ")?;
    put_records(out, records, call)?;
    out.extend_from_slice(b": ")
}

/// Adds the line of the call of a number.
pub(crate) fn put_call_line<O: Ownership>(
    out: &mut Vec<u8>,
    index: &Index<'_, O>,
    records: &[u32],
    number: u32,
) -> Result<(), AllocError>
    requires each { length records.now ≡ length index.now }
    requires below { number < length (calls_of index.now) }
    ensures { OnOk result (out.new.items ≡ out.old.items ++ call_text records.now (call_numbered (calls_of index.now) number)) }
{
    let Some(call) = index.call(number) else {
        unreachable!()
    };
    put_begin(out, index, records, number)?;
    put_operation(out, index, number, call.op)?;
    out.extend_from_slice(b"\n")
}

// Adds the line of an update, if there is one of that component and number.
fn put_update_line<O: Ownership>(
    out: &mut Vec<u8>,
    index: &Index<'_, O>,
    records: &[u32],
    component: u8,
    number: u32,
) -> Result<(), AllocError>
    requires { length records.now ≡ length index.now }
    ensures { OnOk result (out.new.items ≡ out.old.items ++ update_text records.now (calls_of index.now) component number) }
{
    match index.update_call(component, number) {
        Some(call) => put_call_line(out, index, records, call),
        None => Ok(()),
    }
}

/// Adds the lines of some updates, each given by its component and its number. There is no line if there is no such update.
pub(crate) fn put_updates<O: Ownership>(
    out: &mut Vec<u8>,
    index: &Index<'_, O>,
    records: &[u32],
    updates: &[(u8, u32)],
) -> Result<(), AllocError>
    requires { length records.now ≡ length index.now }
    ensures { OnOk result (out.new.items ≡ out.old.items ++ updates_text records.now (calls_of index.now) updates.now) }
{
    for update in updates {
        put_update_line(out, index, records, update.0, update.1)?;
    }
    Ok(())
}

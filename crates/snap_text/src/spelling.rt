//! The four fields of an event.
ghost use Rattle.std.specs.Prelude.{◌≡◌, ◌==◌, ◌++◌, ◌∷◌, [], length, map, IfOk, OnOk, decimal};
ghost use Rattle.snap_text.specs.Spelling.{entries_text, entry_text, spelled, with_next};

use crate::words::{ENTRY_SIZE, write_entry, write_number};
use snap_core::{Entry, Event};
use std::alloc::{AllocError, Global};

// Adds an entry: component, number and value, with colons between.
fn put_entry(out: &mut Vec<u8>, entry: &Entry) -> Result<(), AllocError>
    ensures { OnOk result (out.new.items ≡ out.old.items ++ entry_text entry.now) }
{
    let mut word = [0u8; ENTRY_SIZE];
    let at = write_entry(b"", entry, &mut word, ENTRY_SIZE);
    out.extend_from_slice(&word[at..])
}

fn entry_field(alloc: Global, entry: &Entry) -> Result<Vec<u8>, AllocError>
    ensures { IfOk result (λ field. field.items ≡ entry_text entry.now) }
{
    let mut field = Vec::new(alloc);
    put_entry(&mut field, entry)?;
    Ok(field)
}

// Adds an entry, after a space if it is not the first.
fn put_next(out: &mut Vec<u8>, entry: &Entry) -> Result<(), AllocError>
    ensures { OnOk result (out.new.items ≡ with_next (length out.old.items == 0) out.old.items entry.now) }
{
    if out.is_empty() {
        return put_entry(out, entry);
    }
    out.push(b' ')?;
    put_entry(out, entry)
}

// The text of the entries of a view, with one space between two.
fn view_field(alloc: Global, entries: &[Entry]) -> Result<Vec<u8>, AllocError>
    ensures { IfOk result (λ field. field.items ≡ entries_text entries.now) }
{
    let mut field = Vec::new(alloc);
    for entry in entries {
        put_next(&mut field, entry)?;
    }
    Ok(field)
}

fn process_field(alloc: Global, process: u16) -> Result<Vec<u8>, AllocError>
    ensures { IfOk result (λ field. field.items ≡ decimal process) }
{
    let mut digits = [0u8; 5];
    let at = write_number(b"", u64::from(process), &mut digits, 5);
    Vec::from_slice(alloc, &digits[at..])
}

fn four_fields(
    alloc: Global,
    event: &[u8],
    process: u16,
    op: &[u8],
    content: Vec<u8>,
) -> Result<[Vec<u8>; 4], AllocError>
    ensures { IfOk result (λ fields. map (λ f. f.items) fields ≡ event.now ∷ decimal process ∷ op.now ∷ content.items ∷ []) }
{
    Ok([
        Vec::from_slice(alloc, event)?,
        process_field(alloc, process)?,
        Vec::from_slice(alloc, op)?,
        content,
    ])
}

/// The four fields of an event's record: `begin` or `end`, the process, `update` or `view`, and data. The data are the entry
/// that is begun, the entries that are shown, or nothing. No other event has the same four.
pub fn fields_of(alloc: Global, event: &Event) -> Result<[Vec<u8>; 4], AllocError>
    ensures { IfOk result (λ fields. map (λ f. f.items) fields ≡ spelled event.now) }
{
    match event {
        Event::BeginUpdate { process, entry } => {
            let data = entry_field(alloc, entry)?;
            four_fields(alloc, b"begin", *process, b"update", data)
        }
        Event::BeginView { process } => {
            four_fields(alloc, b"begin", *process, b"view", Vec::new(alloc))
        }
        Event::EndUpdate { process } => {
            four_fields(alloc, b"end", *process, b"update", Vec::new(alloc))
        }
        Event::EndView { process, view } => {
            let data = view_field(alloc, view.entries())?;
            four_fields(alloc, b"end", *process, b"view", data)
        }
    }
}

//! The line of a view of a fault, and what it shows of the components of the fault's updates.
ghost use Rattle.std.specs.Prelude.{◌≡◌, ◌++◌, All, OnOk, codes, length};
ghost use Rattle.std.specs.List.{flat_map};
ghost use Rattle.snap_core.specs.Calls.{call_numbered, calls_of};
ghost use Rattle.snap_core.specs.Entries.{entry_of, number_in};
ghost use Rattle.snap_witness.specs.Places.{IsViewAt};
ghost use Rattle.snap_explain.specs.Faults.{view_numbers};
ghost use Rattle.snap_explain.specs.Views.{has_component as spec_has_component, named_text, number_word, numbers_text, of_fault_text, other_count as spec_other_count, shown_text, some_text, view_text, views_text};

use crate::call::{put_begin, put_entries};
use snap_core::{Entry, Ownership, View};
use snap_index::Index;
use snap_report::{put_call, put_entry, put_number, put_update};
use snap_witness::view_numbered;
use std::alloc::AllocError;

/// The most entries of a view of a fault that its line has all of, if not all are asked for.
pub const MOST_ENTRIES: usize = 16;

/// Which entries of the views of a fault are listed.
#[derive(Clone, Copy)]
pub enum Entries {
    /// Of a view with more than 16 those of the fault's components, and the number of the others. All of a smaller one.
    OfFault,
    /// All.
    Whole,
}

/// How the lines of calls are written: the numbers of the records of the events, and which entries of the views of a fault are listed.
#[derive(Clone, Copy)]
pub(crate) struct Lines<'x> {
    pub records: &'x [u32],
    pub listed: Entries,
}

// Whether some update is of the component.
fn has_component(updates: &[(u8, u32)], component: u8) -> bool
    ensures { result ≡ spec_has_component updates.now component }
{
    updates.iter().any(|update| update.0 == component)
}

// Adds an entry after a space, if some update is of its component.
fn put_named(out: &mut Vec<u8>, updates: &[(u8, u32)], entry: &Entry) -> Result<(), AllocError>
    ensures { OnOk result (out.new.items ≡ out.old.items ++ named_text updates.now entry.now) }
{
    if has_component(updates, entry.component) {
        put_entry(out, b" ", entry)?;
    }
    Ok(())
}

// Adds the entries of the components of some updates.
fn put_each_named(
    out: &mut Vec<u8>,
    updates: &[(u8, u32)],
    entries: &[Entry],
) -> Result<(), AllocError>
    ensures { OnOk result (out.new.items ≡ out.old.items ++ flat_map (named_text updates.now) entries.now) }
{
    for entry in entries {
        put_named(out, updates, entry)?;
    }
    Ok(())
}

// How many entries are of other components.
fn other_count(updates: &[(u8, u32)], entries: &[Entry]) -> usize
    ensures { result ≡ spec_other_count updates.now entries.now }
{
    let mut count = 0;
    for entry in entries {
        if !has_component(updates, entry.component) {
            count += 1;
        }
    }
    count
}

// Adds the entries of the components of some updates, and how many others there are.
fn put_some(out: &mut Vec<u8>, updates: &[(u8, u32)], entries: &[Entry]) -> Result<(), AllocError>
    ensures { OnOk result (out.new.items ≡ out.old.items ++ some_text updates.now entries.now) }
{
    put_each_named(out, updates, entries)?;
    put_number(out, b" and ", other_count(updates, entries) as u64)?;
    out.extend_from_slice(b" more entries")
}

// Adds the entries of a view: all of few, and of many those of the components of some updates.
fn put_of_fault(
    out: &mut Vec<u8>,
    updates: &[(u8, u32)],
    entries: &[Entry],
) -> Result<(), AllocError>
    ensures { OnOk result (out.new.items ≡ out.old.items ++ of_fault_text updates.now entries.now) }
{
    if MOST_ENTRIES < entries.len() {
        put_some(out, updates, entries)
    } else {
        put_entries(out, entries)
    }
}

// Adds the entries that are listed of a view whose fault these updates show.
fn put_shown(
    out: &mut Vec<u8>,
    listed: Entries,
    updates: &[(u8, u32)],
    entries: &[Entry],
) -> Result<(), AllocError>
    ensures { OnOk result (out.new.items ≡ out.old.items ++ shown_text listed updates.now entries.now) }
{
    match listed {
        Entries::Whole => put_entries(out, entries),
        Entries::OfFault => put_of_fault(out, updates, entries),
    }
}

// Adds the line of a view of a fault that these updates show.
fn put_view<O: Ownership>(
    out: &mut Vec<u8>,
    index: &Index<'_, O>,
    lines: Lines<'_>,
    view: u32,
    updates: &[(u8, u32)],
) -> Result<(), AllocError>
    requires each { length lines.records.now ≡ length index.now }
    requires named { IsViewAt (calls_of index.now) view }
    ensures { OnOk result (out.new.items ≡ out.old.items ++ view_text lines.entry.listed lines.entry.records.now updates.now (call_numbered (calls_of index.now) view)) }
{
    put_begin(out, index, lines.records, view)?;
    out.extend_from_slice(b"view")?;
    put_shown(
        out,
        lines.listed,
        updates,
        view_numbered(index, view).entries(),
    )?;
    out.extend_from_slice(b"\n")
}

/// Adds the lines of the views of a fault that these updates show.
pub(crate) fn put_views<O: Ownership>(
    out: &mut Vec<u8>,
    index: &Index<'_, O>,
    lines: Lines<'_>,
    views: &[u32],
    updates: &[(u8, u32)],
) -> Result<(), AllocError>
    requires each { length lines.records.now ≡ length index.now }
    requires named { All (IsViewAt (calls_of index.now)) views.now }
    ensures { OnOk result (out.new.items ≡ out.old.items ++ views_text lines.entry.listed lines.entry.records.now (calls_of index.now) updates.now views.now) }
{
    for view in views {
        put_view(out, index, lines, *view, updates)?;
    }
    Ok(())
}

// Adds the number that is shown of the component of each update, after "and".
fn put_other_numbers(
    out: &mut Vec<u8>,
    shown: &View,
    updates: &[(u8, u32)],
) -> Result<(), AllocError>
    ensures { OnOk result (out.new.items ≡ out.old.items
        ++ flat_map (λ update. codes " and " ++ number_word (λ k. number_in (entry_of k shown.now)) update) updates.now) }
{
    for update in updates {
        put_update(out, b" and ", update.0, shown.number(update.0))?;
    }
    Ok(())
}

// Adds the number that is shown of the component of each update.
fn put_shown_numbers(
    out: &mut Vec<u8>,
    shown: &View,
    updates: &[(u8, u32)],
) -> Result<(), AllocError>
    ensures { OnOk result (out.new.items ≡ out.old.items ++ numbers_text (λ k. number_in (entry_of k shown.now)) updates.now) }
{
    let Some((first, others)) = updates.split_first() else {
        return Ok(());
    };
    put_update(out, b" shows ", first.0, shown.number(first.0))?;
    put_other_numbers(out, shown, others)
}

/// Adds a text, and what a view shows of the components of some updates.
pub(crate) fn put_numbers<O: Ownership>(
    out: &mut Vec<u8>,
    text: &[u8],
    index: &Index<'_, O>,
    view: u32,
    updates: &[(u8, u32)],
) -> Result<(), AllocError>
    requires { IsViewAt (calls_of index.now) view }
    ensures { OnOk result (out.new.items ≡ out.old.items ++ text.now ++ view_numbers (calls_of index.now) updates.now view) }
{
    out.extend_from_slice(text)?;
    put_call(out, b"view ", view)?;
    put_shown_numbers(out, view_numbered(index, view), updates)
}

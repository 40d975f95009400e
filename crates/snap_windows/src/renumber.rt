//! Events with their numbers reduced by those of what was left, as a recorder writes them that begins there.
ghost use Rattle.std.specs.Prelude.{◌≡◌, ◌-◌, ℕ, Option, IfOk};
ghost use Rattle.snap_core.specs.declared.entry.Entry.{Entry};
ghost use Rattle.snap_core.specs.Entries.{AreEntries, number_in};
ghost use Rattle.snap_theory.specs.Renumbered.{is_later, renumbered_entries, renumbered_entry, renumbered_event};
ghost use Rattle.snap_windows.specs.Last.{HasLeft};

use crate::last::Wrote;
use snap_core::{COMPONENT_COUNT, Entry, Event, View};
use std::alloc::{AllocError, Global};

// The number of what was left of a component, 0 if nothing was left.
fn number_left(left: &[Option<Wrote>; COMPONENT_COUNT], component: u8) -> u32
    ensures { (f : ℕ → Option Entry) → HasLeft left.now f → result ≡ number_in (f component) }
{
    match left[usize::from(component)] {
        Some(wrote) => wrote.entry.number,
        None => 0,
    }
}

// An entry with its number reduced by the number of what was left.
fn renumbered_entry(left: &[Option<Wrote>; COMPONENT_COUNT], entry: Entry) -> Entry
    ensures { (f : ℕ → Option Entry) → HasLeft left.now f → result ≡ renumbered_entry f entry }
{
    Entry {
        component: entry.component,
        number: entry
            .number
            .saturating_sub(number_left(left, entry.component)),
        value: entry.value,
    }
}

// The entries of later updates than what was left.
fn renumbered_entries(
    alloc: Global,
    left: &[Option<Wrote>; COMPONENT_COUNT],
    entries: &[Entry],
) -> Result<Vec<Entry>, AllocError>
    ensures { IfOk result (λ found. (f : ℕ → Option Entry) → HasLeft left.now f → found.items ≡ renumbered_entries f entries.now) }
{
    let mut found = Vec::new(alloc);
    'each: for entry in entries.iter() {
        let renumbered = renumbered_entry(left, *entry);
        if renumbered.number > 0 {
            found.push(renumbered)?;
        }
    }
    Ok(found)
}

// What a view shows of later updates than what was left.
fn renumbered_view(
    alloc: Global,
    left: &[Option<Wrote>; COMPONENT_COUNT],
    view: &View,
) -> Result<View, AllocError>
    ensures { IfOk result (λ found. (f : ℕ → Option Entry) → HasLeft left.now f → found ≡ renumbered_entries f view.now) }
{
    match View::from_entries(renumbered_entries(alloc, left, view.entries())?) {
        Ok(view) => Ok(view),
        Err(_) => unreachable!(),
    }
}

/// The event with its numbers counted from 1 after what was left.
pub(crate) fn renumbered_event(
    alloc: Global,
    left: &[Option<Wrote>; COMPONENT_COUNT],
    event: &Event,
) -> Result<Event, AllocError>
    ensures { IfOk result (λ found. (f : ℕ → Option Entry) → HasLeft left.now f → found ≡ renumbered_event f event.now) }
{
    Ok(match event {
        Event::BeginUpdate { process, entry } => Event::BeginUpdate {
            process: *process,
            entry: renumbered_entry(left, *entry),
        },
        Event::BeginView { process } => Event::BeginView { process: *process },
        Event::EndUpdate { process } => Event::EndUpdate { process: *process },
        Event::EndView { process, view } => Event::EndView {
            process: *process,
            view: renumbered_view(alloc, left, view)?,
        },
    })
}

//! The event that four fields spell.
ghost use Rattle.std.specs.Prelude.{◌≡◌, IfOk};
ghost use Rattle.std.specs.Str.{bytes_eq};
ghost use Rattle.snap_text.specs.Fields.{event_of, update_at, view_at};

use crate::entries::{entries_of, entry_of};
use crate::fault::TextFault;
use crate::known::Known;
use crate::number::process_of;
use snap_core::{Entry, Event, View};
use std::alloc::{AllocError, Global};

// Whether a field is a word. If the length of the word is known to the compiler, this takes one or two comparisons.
#[inline(always)]
fn is_word(field: &[u8], word: &[u8]) -> bool
    ensures { result ≡ bytes_eq field.now word.now }
{
    field.len() == word.len() && field.starts_with(word)
}

// The entry of an update.
#[tactic(auto, unfolding(crate::specs::Fields::update_at))]
fn update_of(text: &[u8]) -> Option<Entry>
    ensures { result ≡ update_at text.now }
{
    let entry = entry_of(text)?;
    if entry.number == 0 { None } else { Some(entry) }
}

// The view whose entries a text spells.
#[tactic(auto, unfolding(crate::specs::Fields::view_at))]
fn view_of(alloc: Global, known: &mut Known, text: &[u8]) -> Result<Option<View>, AllocError>
    ensures { IfOk result (λ o. o ≡ view_at text.now) }
{
    let again = known.is_of(text);
    if again && let Some(view) = known.view() {
        return Ok(Some(view.again()?));
    }
    let Some((entries, looks)) = entries_of(alloc, known, text)? else {
        return Ok(None);
    };
    if !again {
        known.keep(text, &entries, looks)?;
    }
    let Ok(view) = View::from_entries(entries) else {
        return Ok(None);
    };
    if again {
        Ok(Some(known.keep_view(view)?))
    } else {
        Ok(Some(view))
    }
}

/// The event that four fields spell, or the first fault in them. `known` changes no answer, and keeps the last view.
#[tactic(auto, unfolding(crate::specs::Fields::event_of))]
pub fn event_of_fields(
    alloc: Global,
    known: &mut Known,
    event: &[u8],
    process: &[u8],
    op: &[u8],
    text: &[u8],
) -> Result<Result<Event, TextFault>, AllocError>
    ensures { IfOk result (λ read. read ≡ event_of event.now process.now op.now text.now) }
{
    let begins = if is_word(event, b"begin") {
        true
    } else if is_word(event, b"end") {
        false
    } else {
        return Ok(Err(TextFault::BadEvent));
    };
    let Some(process) = process_of(process) else {
        return Ok(Err(TextFault::BadProcess));
    };
    let updates = if is_word(op, b"update") {
        true
    } else if is_word(op, b"view") {
        false
    } else {
        return Ok(Err(TextFault::BadOp));
    };
    if begins && updates {
        let Some(entry) = update_of(text) else {
            return Ok(Err(TextFault::BadData));
        };
        return Ok(Ok(Event::BeginUpdate { process, entry }));
    }
    if !begins && !updates {
        let Some(view) = view_of(alloc, known, text)? else {
            return Ok(Err(TextFault::BadData));
        };
        return Ok(Ok(Event::EndView { process, view }));
    }
    if !text.is_empty() {
        return Ok(Err(TextFault::BadData));
    }
    if begins {
        Ok(Ok(Event::BeginView { process }))
    } else {
        Ok(Ok(Event::EndUpdate { process }))
    }
}

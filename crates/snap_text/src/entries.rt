//! Entries in a text. Entries that the last view had too are not read again.
ghost use Rattle.std.specs.Prelude.{◌≡◌, ◌≤◌, ◌<◌, ◌∷◌, [], ◌+◌, ℕ, List, MatchOption, IfOk, IfSome, drop, get_or, length, option_map, take};
ghost use Rattle.snap_core.specs.declared.entry.Entry.{Entry};
ghost use Rattle.snap_text.specs.Fields.{entries_at, entry_at};
ghost use Rattle.snap_text.specs.inside.Fronts.{AddsFront, AreSpelled, EntriesThen, EntryThen, NumberThen};

use crate::known::{Known, LOOK, same_front, spaces};
use crate::number::number_first;
use snap_core::Entry;
use std::alloc::{AllocError, Global};

// The number that a text begins with before a colon, and the text after the colon.
#[inline(always)]
fn number_and_colon(text: &[u8]) -> Option<(u32, &[u8])>
    ensures { MatchOption result ((n : ℕ) (rest : List ℕ) → NumberThen n (58 ∷ rest) text.now → ⊥) (λ x. NumberThen x.0 (58 ∷ x.1.now) text.now) }
{
    let (number, rest) = number_first(text)?;
    let (mark, behind) = rest.split_first()?;
    if *mark == b':' {
        Some((number, behind))
    } else {
        None
    }
}

// The entry that a text begins with, and the text after it: nothing, or a space and more.
#[inline(always)]
fn entry_first(text: &[u8]) -> Option<(Entry, &[u8])>
    ensures { MatchOption result ((e : Entry) (rest : List ℕ) → EntryThen e rest text.now → ⊥) (λ x. EntryThen x.0 x.1.now text.now) }
{
    let (component, text) = number_and_colon(text)?;
    let (number, text) = number_and_colon(text)?;
    let (value, rest) = number_first(text)?;
    if component > 255 {
        return None;
    }
    let entry = Entry {
        component: component as u8,
        number,
        value,
    };
    if rest.is_empty() || rest[0] == b' ' {
        Some((entry, rest))
    } else {
        None
    }
}

/// The entry that a text spells by its component, number and value, with colons between.
pub(crate) fn entry_of(text: &[u8]) -> Option<Entry>
    ensures { result ≡ entry_at text.now }
{
    let (entry, rest) = entry_first(text)?;
    if rest.is_empty() { Some(entry) } else { None }
}

// The entries that are all of `left`, if `left` is a front of the text of known entries. Their first `same` bytes are equal.
fn whole_known<'k>(left: &[u8], old: &[u8], olds: &'k [Entry], same: usize) -> Option<&'k [Entry]>
    requires known { AreSpelled olds.now old.now }
    requires within { (same ≤ length left.now) × (same ≤ length old.now) }
    requires same { take same left.now ≡ take same old.now }
    ensures { IfSome result (λ es. EntriesThen es.now [] left.now) }
{
    if same == 0 || same < left.len() {
        return None;
    }
    if same == old.len() {
        return Some(olds);
    }
    if old[same] != b' ' {
        return None;
    }
    Some(&olds[..spaces(left) + 1])
}

// The place of the last space of a text.
fn last_space(text: &[u8]) -> Option<usize>
    ensures { IfSome result (λ at. (at < length text.now) × (get_or text.now at 0 ≡ 32)) }
{
    let mut end = text.len();
    while end > 0 {
        end -= 1;
        if text[end] == b' ' {
            return Some(end);
        }
    }
    None
}

// The place of the first space of a text.
fn first_space(text: &[u8]) -> Option<usize>
    ensures { IfSome result (λ at. (at < length text.now) × (get_or text.now at 0 ≡ 32)) }
{
    for at in 0..text.len() {
        if text[at] == b' ' {
            return Some(at);
        }
    }
    None
}

// Known entries, cut at a space of their text: those before it, the text after it, and its entries.
fn cut_at<'k>(old: &'k [u8], olds: &'k [Entry], at: usize) -> (&'k [Entry], &'k [u8], &'k [Entry])
    requires known { AreSpelled olds.now old.now }
    requires place { at < length old.now }
    requires space { get_or old.now at 0 ≡ 32 }
    ensures some { 0 < length result.0.now }
    ensures front { AreSpelled result.0.now (take at old.now) }
    ensures cut { result.1.now ≡ drop (at + 1) old.now }
    ensures rest { AreSpelled result.2.now result.1.now }
{
    let (front, rest) = olds.split_at(spaces(&old[..at]) + 1);
    (front, &old[at + 1..], rest)
}

// What comes after the first of some entries, if its component is not greater than another.
fn behind_first<'k>(old: &'k [u8], olds: &'k [Entry], component: u8) -> (&'k [u8], &'k [Entry])
    requires { AreSpelled olds.now old.now }
    ensures { AreSpelled result.1.now result.0.now }
{
    match olds.first() {
        Some(first) if first.component <= component => match first_space(old) {
            Some(at) => {
                let (_, rest, others) = cut_at(old, olds, at);
                (rest, others)
            }
            None => (&[], &[]),
        },
        _ => (old, olds),
    }
}

// Adds the entries that a text begins with, each followed by a space, as far as it equals the text of known entries. It gives
// what is left of both texts and of the known entries.
fn add_front<'a, 'k>(
    entries: &mut Vec<Entry>,
    left: &'a [u8],
    old: &'k [u8],
    olds: &'k [Entry],
    same: usize,
) -> Result<(&'a [u8], &'k [u8], &'k [Entry]), AllocError>
    requires known { AreSpelled olds.now old.now }
    requires within { (same ≤ length left.now) × (same ≤ length old.now) }
    requires same { take same left.now ≡ take same old.now }
    ensures added { IfOk result (λ x. AddsFront entries.old.items entries.new.items x.0.now left.now) }
    ensures shorter { IfOk result (λ x. length x.0.now ≤ length left.now) }
    ensures known { IfOk result (λ x. AreSpelled x.2.now x.1.now) }
{
    match last_space(&left[..same]) {
        Some(at) => {
            let (front, rest, others) = cut_at(old, olds, at);
            entries.extend_from_slice(front)?;
            Ok((&left[at + 1..], rest, others))
        }
        None => Ok((left, old, olds)),
    }
}

/// The entries that a text spells with one space between two, and the credits that are left for comparisons.
pub(crate) fn entries_of(
    alloc: Global,
    known: &Known,
    text: &[u8],
) -> Result<Option<(Vec<Entry>, usize)>, AllocError>
    ensures { IfOk result (λ o. option_map (λ v. v.0.items) o ≡ entries_at text.now) }
{
    let mut entries = Vec::new(alloc);
    let mut looks = known.looks();
    if text.is_empty() {
        return Ok(Some((entries, looks)));
    }
    // one more than the last view had, but no more than the text can have at six bytes each
    entries.reserve(known.entries().len().min(text.len() / 6) + 1)?;
    let mut left = text;
    let mut old = known.text();
    let mut olds = known.entries();
    loop {
        let same = same_front(left, old);
        if let Some(front) = whole_known(left, old, olds, same) {
            entries.extend_from_slice(front)?;
            return Ok(Some((entries, looks.saturating_add(front.len()))));
        }
        let (start, rest, others) = add_front(&mut entries, left, old, olds, same)?;
        let Some((entry, behind)) = entry_first(start) else {
            return Ok(None);
        };
        entries.push(entry)?;
        looks = looks.saturating_add(olds.len().saturating_sub(others.len()));
        let Some((_, next)) = behind.split_first() else {
            return Ok(Some((entries, looks)));
        };
        left = next;
        if looks >= LOOK {
            looks -= LOOK;
            let (behind_old, behind_olds) = behind_first(rest, others, entry.component);
            old = behind_old;
            olds = behind_olds;
        } else {
            old = &[];
            olds = &[];
        }
    }
}

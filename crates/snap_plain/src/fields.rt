//! The fields of a line. In a plain text a field ends at a comma or a line end, so a search for these two bytes cuts it.
ghost use Rattle.std.specs.Prelude.{◌≡◌, ◌≢◌, ◌<◌, ◌≤◌, ◌-◌, ◌⊎◌, take, drop, ◌∷◌, ◌++◌, [], List, ℕ, All, IfSome, MatchOption, get_or, length};
ghost use Rattle.snap_plain.specs.Lines.{AreNeither, EndsField, EndsWith, EndsWithOthers, FieldGoesOn, FieldIsLast, IsInner};

use std::simd::prelude::*;

/// The number of bytes that are compared together.
pub(crate) const LANES: usize = 32;

// The number of bytes before the first that is one of two marks. None if neither mark is among the first 32 bytes.
#[inline(always)]
fn before_mark(text: &[u8], one: u8, other: u8) -> Option<usize>
    requires { 32 ≤ length text.now }
    ensures { MatchOption result (AreNeither one other 32 text.now) (λ n. (n < 32) × AreNeither one other n text.now × ((get_or text.now n 0 ≡ one) ⊎ (get_or text.now n 0 ≡ other))) }
{
    let bytes = u8x32::from_slice(text);
    let marks = bytes.simd_eq(u8x32::splat(one)) | bytes.simd_eq(u8x32::splat(other));
    let bits = marks.to_bitmask();
    if bits == 0 {
        None
    } else {
        Some(bits.trailing_zeros() as usize)
    }
}

// The size of the field that a text begins with, in bytes. The first `from` bytes are inside it.
fn field_size_from(text: &[u8], from: usize) -> usize
    requires from { from ≤ length text.now }
    requires inner { All IsInner (take from text.now) }
    ensures within { result ≤ length text.now }
    ensures inner { All IsInner (take result text.now) }
    ensures ends { EndsField (drop result text.now) }
{
    for at in from..text.len() {
        if text[at] == b',' || text[at] == b'\n' {
            return at;
        }
    }
    text.len()
}

// The size of the field that a text begins with, in bytes.
#[inline(always)]
fn field_size(text: &[u8]) -> usize
    ensures within { result ≤ length text.now }
    ensures inner { All IsInner (take result text.now) }
    ensures ends { EndsField (drop result text.now) }
{
    let mut left = text;
    while left.len() >= LANES {
        if let Some(before) = before_mark(left, b',', b'\n') {
            return text.len() - left.len() + before;
        }
        left = &left[LANES..];
    }
    field_size_from(text, text.len() - left.len())
}

// The field that a text begins with, and what is after it: nothing, or the mark that ends it and more.
#[inline(always)]
fn field_first(text: &[u8]) -> (&[u8], &[u8])
    ensures inner { All IsInner result.0.now }
    ensures whole { text.now ≡ result.0.now ++ result.1.now }
    ensures ends { EndsField result.1.now }
{
    text.split_at(field_size(text))
}

// The field that a text begins with and what is after its comma, if a comma ends it.
#[inline(always)]
fn field_and_comma(text: &[u8]) -> Option<(&[u8], &[u8])>
    ensures { MatchOption result ((f : List ℕ) × (rest : List ℕ) × FieldIsLast f rest text.now) (λ x. FieldGoesOn x.0.now x.1.now text.now) }
{
    let (field, behind) = field_first(text);
    let (mark, rest) = behind.split_first()?;
    if *mark == b',' {
        Some((field, rest))
    } else {
        None
    }
}

// The field that a text begins with and what is after its comma, if the text begins with `word`: a field and its comma.
#[inline(always)]
fn word_and_comma<'t>(text: &'t [u8], word: &[u8]) -> Option<(&'t [u8], &'t [u8])>
    requires comma { (0 < length word.now) × (get_or word.now (length word.now - 1) 0 ≡ 44) }
    requires inner { All IsInner (take (length word.now - 1) word.now) }
    ensures { IfSome result (λ x. FieldGoesOn x.0.now x.1.now text.now) }
{
    if text.starts_with(word) {
        Some((&text[..word.len() - 1], &text[word.len()..]))
    } else {
        None
    }
}

// As `field_and_comma`, for a field that with its comma is mostly one of two words.
#[inline(always)]
fn either_and_comma<'t>(text: &'t [u8], one: &[u8], other: &[u8]) -> Option<(&'t [u8], &'t [u8])>
    requires one { (0 < length one.now) × (get_or one.now (length one.now - 1) 0 ≡ 44) × All IsInner (take (length one.now - 1) one.now) }
    requires other { (0 < length other.now) × (get_or other.now (length other.now - 1) 0 ≡ 44) × All IsInner (take (length other.now - 1) other.now) }
    ensures { MatchOption result ((f : List ℕ) × (rest : List ℕ) × FieldIsLast f rest text.now) (λ x. FieldGoesOn x.0.now x.1.now text.now) }
{
    if let Some(found) = word_and_comma(text, one) {
        return Some(found);
    }
    if let Some(found) = word_and_comma(text, other) {
        return Some(found);
    }
    field_and_comma(text)
}

// The number of digits that a text begins with.
#[inline(always)]
fn digits(text: &[u8]) -> usize
    ensures within { result ≤ length text.now }
    ensures inner { All IsInner (take result text.now) }
{
    let mut count = 0;
    while count < text.len() && text[count].is_ascii_digit() {
        count += 1;
    }
    count
}

// As `field_and_comma`, for a field that is mostly a number.
#[inline(always)]
fn number_and_comma(text: &[u8]) -> Option<(&[u8], &[u8])>
    ensures { MatchOption result ((f : List ℕ) × (rest : List ℕ) × FieldIsLast f rest text.now) (λ x. FieldGoesOn x.0.now x.1.now text.now) }
{
    let (number, behind) = text.split_at(digits(text));
    match behind.split_first() {
        Some((mark, rest)) if *mark == b',' => Some((number, rest)),
        _ => field_and_comma(text),
    }
}

// The field that a text begins with and the lines after it, if the field ends its line.
#[inline(always)]
fn last_field(text: &[u8]) -> Option<(&[u8], &[u8])>
    ensures { MatchOption result ((f : List ℕ) × (rest : List ℕ) × FieldGoesOn f rest text.now) (λ x. FieldIsLast x.0.now x.1.now text.now) }
{
    let (field, behind) = field_first(text);
    match behind.split_first() {
        Some((mark, rest)) => {
            if *mark == b',' {
                None
            } else {
                Some((field, rest))
            }
        }
        None => Some((field, &[])),
    }
}

/// The fields that are left of a line, if there are four, and the lines after it.
#[inline(always)]
pub(crate) fn four_first(text: &[u8]) -> Option<((&[u8], &[u8], &[u8], &[u8]), &[u8])>
    ensures { MatchOption result (EndsWithOthers 4 text.now) (λ x. EndsWith (x.0.0.now ∷ x.0.1.now ∷ x.0.2.now ∷ x.0.3.now ∷ []) x.1.now text.now) }
{
    let (event, rest) = either_and_comma(text, b"begin,", b"end,")?;
    let (process, rest) = number_and_comma(rest)?;
    let (op, rest) = either_and_comma(rest, b"view,", b"update,")?;
    let (data, rest) = last_field(rest)?;
    Some(((event, process, op, data), rest))
}

/// The fields that are left of a line, if there are five, and the lines after it.
pub(crate) fn five_first(text: &[u8]) -> Option<((&[u8], &[u8], &[u8], &[u8], &[u8]), &[u8])>
    ensures { MatchOption result (EndsWithOthers 5 text.now) (λ x. EndsWith (x.0.0.now ∷ x.0.1.now ∷ x.0.2.now ∷ x.0.3.now ∷ x.0.4.now ∷ []) x.1.now text.now) }
{
    let (at, rest) = number_and_comma(text)?;
    let ((event, process, op, data), rest) = four_first(rest)?;
    Some(((at, event, process, op, data), rest))
}

//! What is before the lines of a plain text: a byte order mark, empty lines and the header.
ghost use Rattle.std.specs.Prelude.{◌≡◌, ◌≢◌, ◌<◌, ◌≤◌, List, ℕ, IsTrue, MatchOption, get_or, length};
ghost use Rattle.csv.specs.Reading.{strip_bom};
ghost use Rattle.snap_format.specs.Layout.{is_header_row, is_stamped_header_row};
ghost use Rattle.snap_plain.specs.Lines.{BeginsOtherwise, BeginsWith, HasRows, IsRest};
ghost use Rattle.snap_text.specs.Fields.{Fields};

use crate::fields::{LANES, five_first, four_first};
use snap_format::{are_header, are_stamped_header};
use std::simd::prelude::*;

const ORDER_MARK: &[u8] = b"\xEF\xBB\xBF";

/// A text after the byte order mark at its front, if it has one. The mark is not part of its records.
pub(crate) fn behind_order_mark(text: &[u8]) -> &[u8]
    ensures { result.now ≡ strip_bom text.now }
{
    if text.starts_with(ORDER_MARK) {
        &text[ORDER_MARK.len()..]
    } else {
        text
    }
}

// Whether the first 32 bytes of a text are newlines.
#[inline(always)]
fn begins_blank(text: &[u8]) -> bool
    requires { 32 ≤ length text.now }
    ensures { IsTrue result → (k : ℕ) → k < 32 → get_or text.now k 0 ≡ 10 }
{
    u8x32::from_slice(text)
        .simd_ne(u8x32::splat(b'\n'))
        .to_bitmask()
        == 0
}

// A text after the empty lines at its front, of which it has at least one. None is skipped once at most `stop` bytes are left.
#[inline(never)]
fn behind_blank(text: &[u8], stop: usize) -> &[u8]
    ensures same { (rows : List Fields) → HasRows text.now rows → HasRows result.now rows }
    ensures rest { IsRest result.now text.now }
    ensures begins { stop < length result.now → get_or result.now 0 0 ≢ 10 }
{
    let mut left = text;
    while left.len().saturating_sub(stop) >= LANES && begins_blank(left) {
        left = &left[LANES..];
    }
    while left.len() > stop && left[0] == b'\n' {
        left = &left[1..];
    }
    left
}

/// A text after the empty lines at its front, which are not records. None is skipped once at most `stop` bytes are left.
#[inline(always)]
pub(crate) fn behind_newlines(text: &[u8], stop: usize) -> &[u8]
    ensures same { (rows : List Fields) → HasRows text.now rows → HasRows result.now rows }
    ensures rest { IsRest result.now text.now }
    ensures begins { stop < length result.now → get_or result.now 0 0 ≢ 10 }
{
    if text.is_empty() || text[0] != b'\n' {
        return text;
    }
    behind_blank(text, stop)
}

/// The lines under the header without stamps, if the text begins with it.
pub(crate) fn lines_under_header(text: &[u8]) -> Option<&[u8]>
    requires { 0 < length text.now → get_or text.now 0 0 ≢ 10 }
    ensures { MatchOption result (BeginsOtherwise is_header_row text.now) (λ lines. BeginsWith is_header_row lines.now text.now) }
{
    let (fields, lines) = four_first(text)?;
    if are_header(fields) {
        Some(lines)
    } else {
        None
    }
}

/// The lines under the header with stamps, if the text begins with it.
pub(crate) fn lines_under_stamped_header(text: &[u8]) -> Option<&[u8]>
    requires { 0 < length text.now → get_or text.now 0 0 ≢ 10 }
    ensures { MatchOption result (BeginsOtherwise is_stamped_header_row text.now) (λ lines. BeginsWith is_stamped_header_row lines.now text.now) }
{
    let (fields, lines) = five_first(text)?;
    if are_stamped_header(fields) {
        Some(lines)
    } else {
        None
    }
}

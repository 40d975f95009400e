//! What is kept of the view that was read last. A view mostly shows what the view before it showed, so a text is first compared
//! with the one before it. If views have hundreds of entries, that avoids nearly all of the reading.
ghost use Rattle.std.specs.Prelude.{◌≡◌, ◌<◌, ◌≤◌, ◌==◌, IfOk, IfSome, IsTrue, Some, length, count_by, take};
ghost use Rattle.std.specs.Option.{ForSome};
ghost use Rattle.snap_text.specs.Fields.{entries_at, view_at};
ghost use Rattle.snap_text.specs.inside.Fronts.{AreSpelled};

use snap_core::{Entry, View};
use std::alloc::{AllocError, Global};
use std::simd::prelude::*;

/// The credits that one comparison with the entries of the last view costs. Each entry that it finds there earns 1.
pub(crate) const LOOK: usize = 4;

// The credits that each view brings.
const INCOME: usize = 2 * LOOK;

// The greatest number of credits. With fewer, only the fronts of a view and of the one before it are compared. So if views
// have no entries in common, one of four is compared throughout.
const LOOKS: usize = 32;

/// The entries of the view that was read last, and their text. If that text came at least twice, it also has a view of them, and
/// the next views with that text share its entries.
#[derive(Drop)]
pub struct Known {
    text: Vec<u8>,
    entries: Vec<Entry>,
    view: Option<View>,
    looks: usize,
    ghost spelled: { AreSpelled entries.items text.items },
    ghost viewed: { ForSome view (λ v. view_at text.items ≡ Some v) },
}

impl Known {
    /// Without a view, and with all credits.
    pub fn new(alloc: Global) -> Known {
        Known {
            text: Vec::new(alloc),
            entries: Vec::new(alloc),
            view: None,
            looks: LOOKS,
        }
    }

    /// The credits for comparisons with its entries.
    pub(crate) fn looks(&self) -> usize {
        if self.looks < LOOKS { 0 } else { LOOKS }
    }

    pub(crate) fn text(&self) -> &[u8]
        ensures { result.now ≡ self.now.text.items }
    {
        &self.text
    }

    pub(crate) fn entries(&self) -> &[Entry]
        ensures entries { result.now ≡ self.now.entries.items }
        ensures spelled { AreSpelled self.now.entries.items self.now.text.items }
    {
        &self.entries
    }

    /// Whether a text is that of the last view.
    pub(crate) fn is_of(&self, text: &[u8]) -> bool
        ensures { IsTrue result → text.now ≡ self.now.text.items }
    {
        self.text.as_slice() == text
    }

    /// The view, if its text came at least twice.
    pub(crate) fn view(&self) -> Option<&View>
        ensures { IfSome result (λ v. view_at self.now.text.items ≡ Some v.now) }
    {
        self.view.as_ref()
    }

    /// Keeps the view, whose text came again, and gives another view that shows the same.
    pub(crate) fn keep_view(&mut self, view: View) -> Result<View, AllocError>
        requires { view_at self.old.text.items ≡ Some view }
        ensures { IfOk result (λ v. v ≡ view) }
    {
        let kept = view.shared()?;
        let other = kept.again()?;
        self.view = Some(kept);
        Ok(other)
    }

    /// Keeps the entries of another view, their text, and the credits that its reading left. If memory runs out, nothing is kept.
    pub(crate) fn keep(
        &mut self,
        text: &[u8],
        entries: &[Entry],
        left: usize,
    ) -> Result<(), AllocError>
        requires { entries_at text.now ≡ Some entries.now }
    {
        let saved = self.looks.saturating_sub(self.looks());
        self.looks = saved.saturating_add(left).saturating_add(INCOME).min(LOOKS);
        self.view = None;
        self.text.clear();
        self.entries.clear();
        self.entries.extend_from_slice(entries)?;
        let kept = self.text.extend_from_slice(text);
        if kept.is_err() {
            self.entries.clear();
        }
        kept
    }
}

// The end of the pieces of `step` bytes, one after the other from a place on, that are equal in both texts.
#[inline(always)]
fn skip_same(a: &[u8], b: &[u8], from: usize, step: usize) -> usize
    requires from { (from ≤ length a.now) × (from ≤ length b.now) }
    requires same { take from a.now ≡ take from b.now }
    requires step { 0 < step }
    ensures within { (result ≤ length a.now) × (result ≤ length b.now) }
    ensures same { take result a.now ≡ take result b.now }
{
    let limit = a.len().min(b.len());
    let mut at = from;
    while limit - at >= step && a[at..].starts_with(&b[at..at + step]) {
        at += step;
    }
    at
}

// The number of bytes that are compared together.
const LANES: usize = 32;

// The number of equal bytes at the fronts of two texts, at most `LANES`.
#[inline(always)]
fn same_lanes(a: &[u8], b: &[u8]) -> usize
    requires { (32 ≤ length a.now) × (32 ≤ length b.now) }
    ensures within { result ≤ 32 }
    ensures same { take result a.now ≡ take result b.now }
{
    let others = u8x32::from_slice(a)
        .simd_ne(u8x32::from_slice(b))
        .to_bitmask();
    if others == 0 {
        LANES
    } else {
        others.trailing_zeros() as usize
    }
}

/// The number of equal bytes at the fronts of two texts.
pub(crate) fn same_front(a: &[u8], b: &[u8]) -> usize
    ensures within { (result ≤ length a.now) × (result ≤ length b.now) }
    ensures same { take result a.now ≡ take result b.now }
{
    let limit = a.len().min(b.len());
    let mut at = 0;
    while limit - at >= LANES {
        let same = same_lanes(&a[at..], &b[at..]);
        at += same;
        if same < LANES {
            return at;
        }
    }
    let near = skip_same(a, b, at, 8);
    skip_same(a, b, near, 1)
}

// The number of spaces in a text of at most 255 bytes.
fn few_spaces(text: &[u8]) -> u8
    requires { length text.now < 256 }
    ensures { result ≡ count_by (λ b. b == 32) text.now }
{
    let mut count = 0u8;
    for byte in text {
        count += u8::from(*byte == b' ');
    }
    count
}

// The number of bytes that are counted at a time, in lanes of one byte.
const PIECE: usize = 192;

/// The number of spaces in a text.
pub(crate) fn spaces(text: &[u8]) -> usize
    ensures { result ≡ count_by (λ b. b == 32) text.now }
{
    let mut count = 0;
    let mut left = text;
    while left.len() > PIECE {
        let (piece, rest) = left.split_at(PIECE);
        count += few_spaces(piece) as usize;
        left = rest;
    }
    count + few_spaces(left) as usize
}

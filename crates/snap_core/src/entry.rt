//! Entries, which updates write and views show.
ghost use Rattle.std.specs.Prelude.{◌≡◌, ◌↔◌, IsTrue, length};
ghost use Rattle.snap_core.specs.Entries.{EntryFits};

/// The number of components: each is a byte.
pub const COMPONENT_COUNT: usize = 256;

/// What an update writes and a view shows: a component, the number of its update, and the value.
#[derive(Clone, Copy, PartialEq, Eq, Debug)]
pub struct Entry {
    pub component: u8,
    pub number: u32,
    pub value: u32,
}

// What the types of an entry's fields keep.
pub(crate) fn fields_fit(component: u8, number: u32, value: u32)
    ensures { EntryFits (record { component = component; number = number; value = value }) }
{}

// Whether two entries are the same, without a branch.
#[inline(always)]
fn is_same(a: &Entry, b: &Entry) -> bool
    ensures { IsTrue result ↔ (a.now ≡ b.now) }
{
    (a.component == b.component) & (a.number == b.number) & (a.value == b.value)
}

// Whether two lists of equal length have the same entries, without a branch for each.
#[inline(always)]
fn are_all_same(a: &[Entry], b: &[Entry]) -> bool
    requires { length a.now ≡ length b.now }
    ensures { IsTrue result ↔ (a.now ≡ b.now) }
{
    let mut same = true;
    for i in 0..a.len() {
        same &= is_same(&a[i], &b[i]);
    }
    same
}

// The number of entries that are compared without a branch between.
const PIECE: usize = 8;

/// Whether two lists of entries are the same, entry by entry.
#[inline(always)]
pub fn are_same(a: &[Entry], b: &[Entry]) -> bool
    ensures { IsTrue result ↔ (a.now ≡ b.now) }
{
    if a.len() != b.len() {
        return false;
    }
    let mut left = a;
    let mut others = b;
    while left.len() >= PIECE {
        let (piece, rest) = left.split_at(PIECE);
        let (other, other_rest) = others.split_at(PIECE);
        if !are_all_same(piece, other) {
            return false;
        }
        left = rest;
        others = other_rest;
    }
    are_all_same(left, others)
}

//! The updates that a view shows and those after them, kept from view to view.
ghost use Rattle.std.specs.Prelude.{◌≡◌, ◌≢◌, ◌≤◌, ◌<◌, ◌+◌, ℕ, IsTrue, List, length, get_or};
ghost use Rattle.std.specs.List.{All};
ghost use Rattle.snap_core.specs.Calls.{Call as SpecCall, calls_of};
ghost use Rattle.snap_core.specs.Entries.{AreEntries, EntryFits, component_count};
ghost use Rattle.snap_core.specs.Bounded.{IsBoundedOrdered};
ghost use Rattle.snap_core.specs.declared.entry.Entry.{Entry as SpecEntry};
ghost use Rattle.snap_core.specs.declared.event.Event.{Event};
ghost use Rattle.snap_conditions.specs.inside.ShownAndNext.{AreAround, AreFrom, IsOfEntries, IsOfView, IsValueOf, IsWritten};
ghost use Rattle.snap_conditions.specs.inside.Limits.{IsLimit};
ghost use Rattle.snap_conditions.specs.inside.Places.{is_written as spec_is_written, value_or_none as spec_value_or_none};
ghost use Rattle.snap_theory.specs.Updates.{update_of};
ghost use Rattle.snap_views.specs.Rows.{number_among};
ghost use Rattle.snap_views.specs.Seen.{IsSeen};

use crate::updates::{begin_of_update, end_of_next, value_of_update};
use snap_core::{COMPONENT_COUNT, Entry, Ownership, are_same};
use snap_index::Index;
use snap_views::SeenView;

// A place after all events.
pub(crate) const NEVER: u32 = u32::MAX;

// A number that no update writes.
const NO_VALUE: u64 = u32::MAX as u64 + 1;

// The number of entries that are compared with those of the last view at a time.
const PIECE: usize = 8;

// The updates around a view, component by component: the one that it shows and the next one.
#[derive(Drop)]
pub(crate) struct ShownAndNext<'i> {
    // no component from here on has an update
    pub(crate) limit: usize,
    // the entries of the last view; none before the first
    pub(crate) entries: &'i [Entry],
    // the number that the entries show of each component below the limit
    pub(crate) numbers: [u32; COMPONENT_COUNT],
    // the value of the update of that number, `NO_VALUE` if there is none
    pub(crate) values: [u64; COMPONENT_COUNT],
    // the place at which the update of that number begins, 0 if there is none
    pub(crate) begins: [u32; COMPONENT_COUNT],
    // the place at which the next update ends, `NEVER` if there is none or it is pending
    pub(crate) ends: [u32; COMPONENT_COUNT],
    // no begin is later than this, and no end is earlier than `earliest`
    pub(crate) latest: u32,
    pub(crate) earliest: u32,
    // if true, each of the entries is the number and the value of an update
    pub(crate) written: bool,
}

// How entries compare with those of the last view.
#[derive(Clone, Copy)]
enum Along {
    // the same entries
    Same,
    // the same components at the same places, but some entry differs
    Changed,
    // other components
    Otherwise,
}

// A value, or `NO_VALUE` if there is none.
fn value_or_none(value: Option<u32>) -> u64
    ensures { result ≡ spec_value_or_none value }
{
    match value {
        Some(value) => u64::from(value),
        None => NO_VALUE,
    }
}

// The latest of some places, 0 if there are none.
fn latest_of(places: &[u32]) -> u32
    ensures { (k : ℕ) → k < length places.now → get_or places.now k 0 ≤ result }
{
    let mut latest = 0;
    for place in places {
        latest = latest.max(*place);
    }
    latest
}

// The earliest of some places, `NEVER` if there are none.
fn earliest_of(places: &[u32]) -> u32
    ensures places { (k : ℕ) → k < length places.now → result ≤ get_or places.now k 0 }
    ensures never { result ≤ 4294967295 }
{
    let mut earliest = NEVER;
    for place in places {
        earliest = earliest.min(*place);
    }
    earliest
}

// A component from which on no component has an update.
fn component_limit<O: Ownership>(index: &Index<'_, O>) -> usize
    ensures { IsLimit (calls_of index.now) result }
{
    index.update_limit()
}

// Takes the number of component k, 0 if a view lists none, from the entries that are left. These are the entries of component k
// and of greater ones.
fn take_number(left: &mut &[Entry], k: usize) -> u32
    ensures number { (all : List SpecEntry) → AreFrom k all left.old.now → result ≡ number_among all k }
    ensures left { (all : List SpecEntry) → AreFrom k all left.old.now → AreFrom (k + 1) all left.new.now }
{
    let Some((entry, behind)) = left.split_first() else {
        return 0;
    };
    if usize::from(entry.component) != k {
        return 0;
    }
    *left = behind;
    entry.number
}

impl<'i> ShownAndNext<'i> {
    // The updates around a view that shows nothing. One value serves for many views, since most show what the view before them showed.
    pub(crate) fn new<O: Ownership>(index: &Index<'_, O>) -> ShownAndNext<'i>
        requires { IsBoundedOrdered index.now }
        ensures { IsOfEntries (calls_of index.now) result }
    {
        let limit = component_limit(index);
        let mut ends = [NEVER; COMPONENT_COUNT];
        for k in 0..limit {
            ends[k] = end_of_next(index, k as u8, 0).unwrap_or(NEVER);
        }
        let earliest = earliest_of(&ends);
        ShownAndNext {
            limit,
            entries: &[],
            numbers: [0; COMPONENT_COUNT],
            values: [NO_VALUE; COMPONENT_COUNT],
            begins: [0; COMPONENT_COUNT],
            ends,
            latest: 0,
            earliest,
            written: true,
        }
    }

    // Whether an entry is the number and the value of an update. The update of its number must be looked up already.
    pub(crate) fn is_written(&self, entry: Entry) -> bool
        ensures { (es : List Event) → IsBoundedOrdered es → EntryFits entry → IsValueOf (calls_of es) self.now entry
            → result ≡ spec_is_written (update_of (calls_of es) entry.component entry.number) entry }
    {
        self.values[usize::from(entry.component)] == u64::from(entry.value)
    }

    // Whether each entry is the number and the value of an update. The updates of their numbers must be looked up already.
    fn are_written(&self, entries: &[Entry]) -> bool
        ensures { (es : List Event) → IsBoundedOrdered es → All EntryFits entries.now → All (IsValueOf (calls_of es) self.now) entries.now
            → IsTrue result → All (IsWritten (calls_of es)) entries.now }
    {
        entries.iter().all(|entry| self.is_written(*entry))
    }

    // Looks up the updates around a number of component k, if it differs from the number of the last view.
    fn look_at<O: Ownership>(&mut self, index: &Index<'_, O>, k: usize, number: u32)
        requires kept { IsBoundedOrdered index.now }
        requires component { k < component_count }
        requires before { AreAround (calls_of index.now) self.old }
        ensures around { AreAround (calls_of index.now) self.new }
        ensures number { get_or self.new.numbers k 0 ≡ number }
        ensures others { (j : ℕ) → j ≢ k → get_or self.new.numbers j 0 ≡ get_or self.old.numbers j 0 }
        ensures limit { self.new.limit ≡ self.old.limit }
        ensures written { self.new.written ≡ self.old.written }
    {
        if number == self.numbers[k] {
            return;
        }
        self.numbers[k] = number;
        self.values[k] = value_or_none(value_of_update(index, k as u8, number));
        self.begins[k] = begin_of_update(index, k as u8, number).unwrap_or(0);
        self.ends[k] = end_of_next(index, k as u8, number).unwrap_or(NEVER);
    }

    // Looks up the updates around the entries that differ from those of the last view, and answers how the entries compare. If both
    // do not list the same components at the same places, only some are looked up. It tests only the entries that differ, since
    // the others were tested with the last view.
    fn look_along<O: Ownership>(&mut self, index: &Index<'_, O>, entries: &[Entry]) -> Along
        requires before { IsOfEntries (calls_of index.now) self.old }
        requires kept { IsBoundedOrdered index.now }
        requires entries { AreEntries entries.now }
        ensures around { AreAround (calls_of index.now) self.new }
        ensures numbers { result ≢ Along.Otherwise → (k : ℕ) → k < self.old.limit → get_or self.new.numbers k 0 ≡ number_among entries.now k }
        ensures limit { self.new.limit ≡ self.old.limit }
        ensures same { result ≡ Along.Same → self.old.entries.now ≡ entries.now }
        ensures unchanged { result ≡ Along.Same → self.new ≡ self.old }
        ensures written { result ≢ Along.Otherwise → IsTrue self.new.written → All (IsWritten (calls_of index.now)) entries.now }
    {
        let before = self.entries;
        if before.len() != entries.len() {
            return Along::Otherwise;
        }
        let mut along = Along::Same;
        let mut begin = 0;
        while begin < entries.len() {
            let end = entries.len().min(begin + PIECE);
            if !are_same(&before[begin..end], &entries[begin..end]) {
                along = Along::Changed;
                for i in begin..end {
                    let entry = entries[i];
                    if entry.component != before[i].component {
                        return Along::Otherwise;
                    }
                    self.look_at(index, usize::from(entry.component), entry.number);
                    self.written &= self.is_written(entry);
                }
            }
            begin = end;
        }
        along
    }

    // Looks up the updates around entries. If the last view lists the same components, only the entries that differ are looked up.
    // It answers whether the entries differ from those of the last view.
    fn look_at_entries<O: Ownership>(&mut self, index: &Index<'_, O>, entries: &[Entry]) -> bool
        requires before { IsOfEntries (calls_of index.now) self.old }
        requires kept { IsBoundedOrdered index.now }
        requires entries { AreEntries entries.now }
        ensures around { AreAround (calls_of index.now) self.new }
        ensures numbers { (k : ℕ) → k < self.old.limit → get_or self.new.numbers k 0 ≡ number_among entries.now k }
        ensures limit { self.new.limit ≡ self.old.limit }
        ensures same { ¬ (IsTrue result) → self.old.entries.now ≡ entries.now }
        ensures unchanged { ¬ (IsTrue result) → self.new ≡ self.old }
        ensures written { IsTrue self.new.written → All (IsWritten (calls_of index.now)) entries.now }
    {
        match self.look_along(index, entries) {
            Along::Same => return false,
            Along::Changed => return true,
            Along::Otherwise => {}
        }
        // entries of other components are all tested again
        self.written = false;
        let mut left = entries;
        for k in 0..self.limit {
            self.look_at(index, k, take_number(&mut left, k));
        }
        true
    }

    // Looks up the updates around a view, for the components whose number differs from that of the last view.
    pub(crate) fn look<O: Ownership>(&mut self, index: &Index<'_, O>, view: &SeenView<'i>)
        requires before { IsOfEntries (calls_of index.now) self.old }
        requires kept { IsBoundedOrdered index.now }
        requires view { AreEntries view.now.entries.now }
        ensures numbers { IsOfEntries (calls_of index.now) self.new }
        ensures updates { (r : SpecCall) → IsSeen r view.now → IsOfView (calls_of index.now) r self.new }
    {
        if !self.look_at_entries(index, view.entries) {
            return;
        }
        let limit = self.limit;
        self.entries = view.entries;
        self.written = self.written || self.are_written(view.entries);
        self.latest = latest_of(&self.begins[..limit]);
        self.earliest = earliest_of(&self.ends[..limit]);
    }
}

//! The write faults of one view.
ghost use Rattle.std.specs.Prelude.{◌≡◌, ◌<◌, ◌∷◌, [], ◌≤◌, ℕ, suc, Some, length, get_or, nat_lt, count_by};
ghost use Rattle.std.specs.List.{position_or_len};
ghost use Rattle.std.specs.List.Sorted.{IsNonDecreasing, IsPermutation};
ghost use Rattle.snap_core.specs.Calls.{calls_of, views_of, shown_number};
ghost use Rattle.snap_core.specs.Entries.{component_count};
ghost use Rattle.snap_core.specs.Bounded.{IsBoundedOrdered};
ghost use Rattle.snap_core.specs.declared.entry.Entry.{Entry};
ghost use Rattle.snap_conditions.specs.declared.write.TheConstants.{MANY};
ghost use Rattle.snap_conditions.specs.inside.ShownAndNext.{IsOfView};
ghost use Rattle.snap_theory.specs.Faults.{write_faults, missed_at};
ghost use Rattle.snap_conditions.specs.Parts.{part_of, merged_part};
ghost use Rattle.snap_conditions.specs.inside.Places.{end_of, begin_of_shown, begin_or_0};
ghost use Rattle.snap_theory.specs.Updates.{update_of};
ghost use Rattle.snap_views.specs.Seen.{IsSeen, view_in};
ghost use Rattle.snap_conditions.specs.Tally.{reported_write};

use crate::fault::WriteFault;
use crate::part::Part;
use crate::shown_and_next::ShownAndNext;
use snap_core::{COMPONENT_COUNT, Entry, Ownership};
use snap_index::Index;
use snap_views::SeenView;

// From this number of begins on, a search in their order takes less time than to compare each.
const MANY: usize = 128;

// The begins of the updates that entries show, entry by entry. Without an update the place is 0, which is not after any end.
fn begins_of(updates: &ShownAndNext<'_>, entries: &[Entry]) -> [u32; COMPONENT_COUNT]
    requires { length entries.now ≤ component_count }
    ensures size { length result ≡ component_count }
    ensures each { (i : ℕ) (e : Entry) → i < length entries.now → get_or result i 0 ≡ get_or updates.now.begins (get_or entries.now i e).component 0 }
{
    let mut begins = [0; COMPONENT_COUNT];
    for (i, entry) in entries.iter().enumerate() {
        begins[i] = updates.begins[entry.component as usize];
    }
    begins
}

// The number of begins that come after an end. The begins may be in any order.
fn count_each(begins: &[u32], ended: u32) -> u64
    requires { length begins.now ≤ component_count }
    ensures { result ≡ count_by (λ b. nat_lt ended b) begins.now }
{
    let mut count = 0;
    for begun in begins {
        count += u32::from(ended < *begun);
    }
    u64::from(count)
}

// The number of begins that come after an end. The begins are in order.
fn count_ordered(begins: &[u32], ended: u32) -> u64
    requires { IsNonDecreasing begins.now }
    ensures { result ≡ count_by (λ b. nat_lt ended b) begins.now }
{
    let behind = begins.partition_point(|begun| *begun <= ended);
    (begins.len() - behind) as u64
}

// The number of begins that come after an end. If there are `MANY`, they are in order.
fn count_behind(begins: &[u32], ended: u32) -> u64
    requires few { length begins.now ≤ component_count }
    requires order { MANY ≤ length begins.now → IsNonDecreasing begins.now }
    ensures { result ≡ count_by (λ b. nat_lt ended b) begins.now }
{
    if begins.len() < MANY {
        return count_each(begins, ended);
    }
    count_ordered(begins, ended)
}

// The index of the first begin that comes after an end; the number of begins if there is none.
fn first_behind(begins: &[u32], ended: u32) -> usize
    ensures { result ≡ position_or_len (λ b. nat_lt ended b) begins.now }
{
    for i in 0..begins.len() {
        if ended < begins[i] {
            return i;
        }
    }
    begins.len()
}

// An update that a view misses.
#[derive(Clone, Copy)]
struct Missed {
    component: u8,
    // the number of the update before it, which the view shows
    number: u32,
    // the place at which it ended
    ended: u32,
}

// The write faults, `count` of them, of the view at a place for one update that it misses. The updates that it shows begin at
// `begins`.
fn missed_part<O: Ownership>(
    index: &Index<'_, O>,
    place: u32,
    view: &SeenView<'_>,
    begins: &[u32],
    missed: Missed,
    count: u64,
) -> Part<WriteFault>
    requires place { place < length (views_of (calls_of index.now)) }
    requires kept { IsBoundedOrdered index.now }
    requires view { IsSeen (view_in (calls_of index.now) place) view.now }
    requires number { missed.number ≡ shown_number (view_in (calls_of index.now) place) missed.component }
    requires ended { end_of (update_of (calls_of index.now) missed.component (suc missed.number)) ≡ Some missed.ended }
    requires size { length begins.now ≡ length view.now.entries.now }
    requires begins { (i : ℕ) → i < length view.now.entries.now → get_or begins.now i 0 ≡ begin_or_0 (begin_of_shown (calls_of index.now) view.now.entries.now i) }
    requires count { count ≡ count_by (λ b. nat_lt missed.ended b) begins.now }
    ensures { result ≡ part_of reported_write (missed_at (calls_of index.now) (view_in (calls_of index.now) place) missed.component) }
{
    let first = first_behind(begins, missed.ended);
    if first == begins.len() {
        return Part::none();
    }
    let entry = view.entries[first];
    let fault = WriteFault {
        view: view.call_number,
        missed_component: missed.component,
        missed_number: missed.number + 1,
        shown_component: entry.component,
        shown_number: entry.number,
    };
    Part::of(count, fault)
}

// A part with the write faults for one more update that the view at a place misses. Only the first fault of all is searched for.
fn with_missed<O: Ownership>(
    part: Part<WriteFault>,
    index: &Index<'_, O>,
    place: u32,
    view: &SeenView<'_>,
    begins: &[u32],
    missed: Missed,
    count: u64,
) -> Part<WriteFault>
    requires few { part.count ≤ 65536 }
    requires place { place < length (views_of (calls_of index.now)) }
    requires kept { IsBoundedOrdered index.now }
    requires view { IsSeen (view_in (calls_of index.now) place) view.now }
    requires number { missed.number ≡ shown_number (view_in (calls_of index.now) place) missed.component }
    requires ended { end_of (update_of (calls_of index.now) missed.component (suc missed.number)) ≡ Some missed.ended }
    requires size { length begins.now ≡ length view.now.entries.now }
    requires begins { (i : ℕ) → i < length view.now.entries.now → get_or begins.now i 0 ≡ begin_or_0 (begin_of_shown (calls_of index.now) view.now.entries.now i) }
    requires count { count ≡ count_by (λ b. nat_lt missed.ended b) begins.now }
    ensures { result ≡ merged_part part (part_of reported_write (missed_at (calls_of index.now) (view_in (calls_of index.now) place) missed.component)) }
{
    if part.count() > 0 {
        return part.with_more(count);
    }
    missed_part(index, place, view, begins, missed, count)
}

// The write faults of the view at a place. The updates that it shows begin at `begins`. The faults are counted among `counted`,
// the same begins; if there are `MANY`, these are in order.
fn missed_parts<O: Ownership>(
    index: &Index<'_, O>,
    place: u32,
    view: &SeenView<'_>,
    updates: &ShownAndNext<'_>,
    begins: &[u32],
    counted: &[u32],
) -> Part<WriteFault>
    requires view { IsSeen (view_in (calls_of index.now) place) view.now }
    requires updates { IsOfView (calls_of index.now) (view_in (calls_of index.now) place) updates.now }
    requires place { place < length (views_of (calls_of index.now)) }
    requires kept { IsBoundedOrdered index.now }
    requires size { length begins.now ≡ length view.now.entries.now }
    requires begins { (i : ℕ) → i < length view.now.entries.now → get_or begins.now i 0 ≡ begin_or_0 (begin_of_shown (calls_of index.now) view.now.entries.now i) }
    requires same { IsPermutation begins.now counted.now }
    requires order { MANY ≤ length counted.now → IsNonDecreasing counted.now }
    ensures { result ≡ part_of reported_write (write_faults (calls_of index.now) (view_in (calls_of index.now) place ∷ [])) }
{
    let mut part = Part::none();
    for j in 0..updates.limit {
        let ended = updates.ends[j];
        if ended < updates.latest {
            let missed = Missed {
                component: j as u8,
                number: updates.numbers[j],
                ended,
            };
            let count = count_behind(counted, ended);
            part = with_missed(part, index, place, view, begins, missed, count);
        }
    }
    part
}

// The write faults of the view at a place.
pub(crate) fn write_part<O: Ownership>(
    index: &Index<'_, O>,
    place: u32,
    view: &SeenView<'_>,
    updates: &ShownAndNext<'_>,
) -> Part<WriteFault>
    requires view { IsSeen (view_in (calls_of index.now) place) view.now }
    requires updates { IsOfView (calls_of index.now) (view_in (calls_of index.now) place) updates.now }
    requires place { place < length (views_of (calls_of index.now)) }
    requires kept { IsBoundedOrdered index.now }
    ensures { result ≡ part_of reported_write (write_faults (calls_of index.now) (view_in (calls_of index.now) place ∷ [])) }
{
    // most views have none
    if updates.latest <= updates.earliest {
        return Part::none();
    }
    let begins = begins_of(updates, view.entries);
    let size = view.entries.len();
    if size < MANY {
        let shown = &begins[..size];
        return missed_parts(index, place, view, updates, shown, shown);
    }
    let mut copy = begins;
    let shown = &begins[..size];
    let counted = &mut copy[..size];
    counted.sort_unstable();
    missed_parts(index, place, view, updates, shown, counted)
}

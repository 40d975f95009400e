//! The views that are stale to one view.
ghost use Rattle.std.specs.Prelude.{◌≡◌, ◌<◌, ◌∷◌, [], length};
ghost use Rattle.snap_core.specs.Calls.{Call as SpecCall, calls_of, views_of};
ghost use Rattle.snap_core.specs.Entries.{AreEntries};
ghost use Rattle.snap_core.specs.Bounded.{IsBoundedOrdered};
ghost use Rattle.snap_theory.specs.Faults.{is_stale as is_stale_view, read_faults, stale_count as stale_views};
ghost use Rattle.snap_conditions.specs.Parts.{part_of};
ghost use Rattle.snap_views.specs.Rows.{AreNumbersOf};
ghost use Rattle.snap_views.specs.Seen.{IsSeen, view_in};
ghost use Rattle.snap_conditions.specs.Tally.{reported_read};

use crate::fault::ReadFault;
use crate::part::Part;
use crate::row::Row;
use crate::updates::is_before;
use snap_core::Ownership;
use snap_index::Index;
use snap_views::{SeenView, view_at};

// Whether a view, which has this row, precedes another and shows more of some component.
fn is_stale(view: &SeenView<'_>, row: &Row, other: &SeenView<'_>) -> bool
    requires view { AreEntries view.now.entries.now }
    requires row { AreNumbersOf view.now.entries.now row.now }
    requires other { AreEntries other.now.entries.now }
    ensures { (r s : SpecCall) → IsSeen r view.now → IsSeen s other.now → result ≡ is_stale_view r s }
{
    is_before(view.call.ended, other.call.begun) && row.compare(other.entries).first
}

// The number of views that are stale to the one at a place.
fn stale_count<O: Ownership>(index: &Index<'_, O>, place: u32) -> u64
    requires place { place < length (views_of (calls_of index.now)) }
    requires kept { IsBoundedOrdered index.now }
    ensures { result ≡ stale_views (calls_of index.now) (view_in (calls_of index.now) place ∷ []) }
{
    let view = view_at(index, place);
    let row = Row::of(view.entries);
    let mut count = 0;
    for other in 0..index.view_count() {
        let other = view_at(index, other);
        count += u64::from(is_stale(&view, &row, &other));
    }
    count
}

// The number of stale views, if the read faults of the view at a place are known: without one, no view is stale to it.
pub(crate) fn stale_beside<O: Ownership>(
    index: &Index<'_, O>,
    place: u32,
    read: &Part<ReadFault>,
) -> u64
    requires place { place < length (views_of (calls_of index.now)) }
    requires kept { IsBoundedOrdered index.now }
    requires read { read.now ≡ part_of reported_read (read_faults (calls_of index.now) (view_in (calls_of index.now) place ∷ [])) }
    ensures { result ≡ stale_views (calls_of index.now) (view_in (calls_of index.now) place ∷ []) }
{
    if read.count() == 0 {
        0
    } else {
        stale_count(index, place)
    }
}

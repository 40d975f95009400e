//! The read faults of one view.
ghost use Rattle.std.specs.Prelude.{◌≡◌, ◌<◌, ◌∷◌, [], ◌+◌, ◌^◌, Some, IfSome, length, option_map};
ghost use Rattle.snap_core.specs.Calls.{Call as SpecCall, calls_of, views_of};
ghost use Rattle.snap_core.specs.Entries.{AreEntries};
ghost use Rattle.snap_core.specs.Bounded.{IsBoundedOrdered};
ghost use Rattle.snap_views.specs.Rows.{AreNumbersOf};
ghost use Rattle.snap_theory.specs.Faults.{read_faults, read_fault};
ghost use Rattle.snap_conditions.specs.Parts.{noted, part_of};
ghost use Rattle.snap_views.specs.Seen.{AreViewPlaces, IsSeen, view_in, views_at};
ghost use Rattle.snap_conditions.specs.Tally.{reported_read};

use crate::fault::ReadFault;
use crate::part::Part;
use crate::row::Row;
use crate::updates::is_before;
use snap_core::Ownership;
use snap_index::Index;
use snap_views::{SeenView, view_at};

// Whether a view, which has this row, and another are a read fault.
fn is_read_fault(view: &SeenView<'_>, row: &Row, other: &SeenView<'_>) -> bool
    requires view { AreEntries view.now.entries.now }
    requires row { AreNumbersOf view.now.entries.now row.now }
    requires other { AreEntries other.now.entries.now }
    ensures { (r s : SpecCall) → IsSeen r view.now → IsSeen s other.now → result ≡ read_fault r s }
{
    let excess = row.compare(other.entries);
    excess.first && (excess.second || is_before(view.call.ended, other.call.begun))
}

// The read fault of a view, which has this row, and another. Its component is the least of which the first view shows more.
fn fault_of(view: &SeenView<'_>, row: &Row, other: &SeenView<'_>) -> ReadFault
    requires row { AreNumbersOf view.now.entries.now row.now }
    requires other { AreEntries other.now.entries.now }
    ensures { (r s : SpecCall) → IsSeen r view.now → IsSeen s other.now → result ≡ reported_read (r, s) }
{
    ReadFault {
        view: view.call_number,
        other: other.call_number,
        component: row.first_excess(other.entries).unwrap_or(0),
    }
}

// The part with the read fault of a view, which has this row, and another after the others. Only the first fault of all needs a
// search for its component.
fn note_fault(
    part: Part<ReadFault>,
    view: &SeenView<'_>,
    row: &Row,
    other: &SeenView<'_>,
) -> Part<ReadFault>
    requires count { part.count + 1 < 2 ^ 64 }
    requires row { AreNumbersOf view.now.entries.now row.now }
    requires other { AreEntries other.now.entries.now }
    ensures { (r s : SpecCall) → IsSeen r view.now → IsSeen s other.now → result ≡ noted part (Some (reported_read (r, s))) }
{
    let first = match part.first() {
        Some(first) => first,
        None => fault_of(view, row, other),
    };
    part.note(Some(first))
}

// The read faults whose first view is the one at a place.
pub(crate) fn read_part<O: Ownership>(index: &Index<'_, O>, place: u32) -> Part<ReadFault>
    requires place { place < length (views_of (calls_of index.now)) }
    requires kept { IsBoundedOrdered index.now }
    ensures { result ≡ part_of reported_read (read_faults (calls_of index.now) (view_in (calls_of index.now) place ∷ [])) }
{
    let view = view_at(index, place);
    let row = Row::of(view.entries);
    let mut part = Part::none();
    for other in 0..index.view_count() {
        let other = view_at(index, other);
        if is_read_fault(&view, &row, &other) {
            part = note_fault(part, &view, &row, &other);
        }
    }
    part
}

/// The read fault of the completed views at two places. The first view must show more of some component than the other.
pub fn read_fault_of<O: Ownership>(index: &Index<'_, O>, place: u32, other: u32) -> ReadFault
    requires { AreViewPlaces (calls_of index.now) (place, other) }
    ensures { result ≡ reported_read (views_at (calls_of index.now) (place, other)) }
{
    let view = view_at(index, place);
    let other = view_at(index, other);
    fault_of(&view, &Row::of(view.entries), &other)
}

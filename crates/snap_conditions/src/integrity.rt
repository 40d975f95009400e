//! The integrity faults of one view.
ghost use Rattle.std.specs.Prelude.{◌≡◌, ◌<◌, ◌∷◌, [], length};
ghost use Rattle.snap_core.specs.Calls.{calls_of, views_of};
ghost use Rattle.snap_core.specs.Bounded.{IsBoundedOrdered};
ghost use Rattle.snap_conditions.specs.inside.ShownAndNext.{IsOfView};
ghost use Rattle.snap_theory.specs.Faults.{integrity_faults};
ghost use Rattle.snap_conditions.specs.Parts.{part_of};
ghost use Rattle.snap_views.specs.Seen.{IsSeen, view_in};
ghost use Rattle.snap_conditions.specs.Tally.{reported_integrity};

use crate::fault::IntegrityFault;
use crate::part::Part;
use crate::shown_and_next::ShownAndNext;
use snap_core::Ownership;
use snap_index::Index;
use snap_views::SeenView;

// The integrity faults of the view at a place.
pub(crate) fn integrity_part<O: Ownership>(
    index: &Index<'_, O>,
    place: u32,
    view: &SeenView<'_>,
    updates: &ShownAndNext<'_>,
) -> Part<IntegrityFault>
    requires place { place < length (views_of (calls_of index.now)) }
    requires kept { IsBoundedOrdered index.now }
    requires view { IsSeen (view_in (calls_of index.now) place) view.now }
    requires updates { IsOfView (calls_of index.now) (view_in (calls_of index.now) place) updates.now }
    ensures { result ≡ part_of reported_integrity (integrity_faults (calls_of index.now) (view_in (calls_of index.now) place ∷ [])) }
{
    let mut part = Part::none();
    // most views have none
    if updates.written {
        return part;
    }
    for entry in view.entries {
        if !updates.is_written(*entry) {
            part = part.note(Some(IntegrityFault {
                view: view.call_number,
                entry: *entry,
            }));
        }
    }
    part
}

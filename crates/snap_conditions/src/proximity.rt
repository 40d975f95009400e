//! The proximity faults of one view.
ghost use Rattle.std.specs.Prelude.{◌≡◌, ◌<◌, ◌∷◌, [], ◌||◌, List, length};
ghost use Rattle.snap_core.specs.Calls.{Call as SpecCall, calls_of, views_of};
ghost use Rattle.snap_core.specs.Bounded.{IsBoundedOrdered};
ghost use Rattle.snap_core.specs.declared.event.Event.{Event};
ghost use Rattle.snap_conditions.specs.inside.ShownAndNext.{IsOfView};
ghost use Rattle.snap_theory.specs.Faults.{proximity_faults, old_fault, early_fault};
ghost use Rattle.snap_conditions.specs.Parts.{part_of, found_at};
ghost use Rattle.snap_views.specs.Seen.{IsSeen, view_in};
ghost use Rattle.snap_conditions.specs.Tally.{reported_proximity};

use crate::fault::{ProximityFault, Side};
use crate::part::Part;
use crate::shown_and_next::ShownAndNext;
use crate::updates::is_before;
use snap_core::Ownership;
use snap_index::Index;
use snap_views::SeenView;

// The proximity fault of a view at component k.
fn proximity_fault(view: &SeenView<'_>, updates: &ShownAndNext<'_>, k: u8) -> Option<ProximityFault>
    requires { k < updates.now.limit }
    ensures { (es : List Event) (r : SpecCall) → IsBoundedOrdered es → IsSeen r view.now → IsOfView (calls_of es) r updates.now → result
        ≡ found_at (λ k. reported_proximity (calls_of es) (r, k)) (λ k. old_fault (calls_of es) r k || early_fault (calls_of es) r k) k }
{
    let place = k as usize;
    let side = if updates.ends[place] < view.call.begun {
        Side::Old
    } else if is_before(view.call.ended, updates.begins[place]) {
        Side::Early
    } else {
        return None;
    };
    Some(ProximityFault {
        view: view.call_number,
        component: k,
        number: updates.numbers[place],
        side,
    })
}

// The proximity faults of the view at a place.
pub(crate) fn proximity_part<O: Ownership>(
    index: &Index<'_, O>,
    place: u32,
    view: &SeenView<'_>,
    updates: &ShownAndNext<'_>,
) -> Part<ProximityFault>
    requires view { IsSeen (view_in (calls_of index.now) place) view.now }
    requires updates { IsOfView (calls_of index.now) (view_in (calls_of index.now) place) updates.now }
    requires place { place < length (views_of (calls_of index.now)) }
    requires kept { IsBoundedOrdered index.now }
    ensures { result ≡ part_of (reported_proximity (calls_of index.now)) (proximity_faults (calls_of index.now) (view_in (calls_of index.now) place ∷ [])) }
{
    let mut part = Part::none();
    // most views have none
    if view.call.begun <= updates.earliest && !is_before(view.call.ended, updates.latest) {
        return part;
    }
    for k in 0..updates.limit {
        part = part.note(proximity_fault(view, updates, k as u8));
    }
    part
}

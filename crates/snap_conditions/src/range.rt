//! The tally of a range of views, by pairs of views.
ghost use Rattle.std.specs.Prelude.{◌≡◌, ◌<◌, ◌≤◌, ◌-◌, ◌∷◌, [], length, take, drop};
ghost use Rattle.snap_core.specs.Calls.{calls_of, views_of};
ghost use Rattle.snap_core.specs.Bounded.{IsBoundedOrdered};
ghost use Rattle.snap_conditions.specs.inside.ShownAndNext.{IsOfEntries};
ghost use Rattle.snap_conditions.specs.inside.Tallies.{without_more_read};
ghost use Rattle.snap_views.specs.Seen.{view_in};
ghost use Rattle.snap_conditions.specs.Tally.{tally_of, without_read, merged, SumsFit};

use crate::integrity::integrity_part;
use crate::proximity::proximity_part;
use crate::read::read_part;
use crate::shown_and_next::ShownAndNext;
use crate::stale::stale_beside;
use crate::tally::Tally;
use crate::write::write_part;
use snap_core::Ownership;
use snap_index::Index;
use snap_views::view_at;

// Adds the faults of the view at a place, except for its read faults and stale views.
#[tactic(auto, unfolding(crate::specs::Tally::tally_of))]
fn add_without_read<'i, O: Ownership>(
    tally: &mut Tally,
    index: &'i Index<'_, O>,
    place: u32,
    updates: &mut ShownAndNext<'i>,
)
    requires before { IsOfEntries (calls_of index.now) updates.old }
    requires place { place < length (views_of (calls_of index.now)) }
    requires kept { IsBoundedOrdered index.now }
    requires fits { SumsFit tally.old (tally_of (calls_of index.now) (view_in (calls_of index.now) place ∷ [])) }
    ensures numbers { IsOfEntries (calls_of index.now) updates.new }
    ensures tally { tally.new ≡ without_more_read tally.old (tally_of (calls_of index.now) (view_in (calls_of index.now) place ∷ [])) }
{
    let view = view_at(index, place);
    updates.look(index, &view);
    let integrity = integrity_part(index, place, &view, updates);
    let proximity = proximity_part(index, place, &view, updates);
    let write = write_part(index, place, &view, updates);
    tally.integrity = tally.integrity.merge(integrity);
    tally.proximity = tally.proximity.merge(proximity);
    tally.write = tally.write.merge(write);
}

// Adds the faults of the view at a place.
#[tactic(auto, unfolding(crate::specs::Tally::tally_of))]
fn add_view<'i, O: Ownership>(
    tally: &mut Tally,
    index: &'i Index<'_, O>,
    place: u32,
    updates: &mut ShownAndNext<'i>,
)
    requires before { IsOfEntries (calls_of index.now) updates.old }
    requires place { place < length (views_of (calls_of index.now)) }
    requires kept { IsBoundedOrdered index.now }
    requires fits { SumsFit tally.old (tally_of (calls_of index.now) (view_in (calls_of index.now) place ∷ [])) }
    ensures numbers { IsOfEntries (calls_of index.now) updates.new }
    ensures tally { tally.new ≡ merged tally.old (tally_of (calls_of index.now) (view_in (calls_of index.now) place ∷ [])) }
{
    add_without_read(tally, index, place, updates);
    let read = read_part(index, place);
    tally.read = tally.read.merge(read);
    tally.stale += stale_beside(index, place, &read);
}

/// The faults whose first view is one of the completed views from `from` to `to - 1`. Views are counted from 0 in the order of
/// call numbers. Each is tested against all views and all updates of the history. It takes no memory.
pub fn tally_range(index: &Index<'_, impl Ownership>, from: u32, to: u32) -> Tally
    requires order { from ≤ to }
    requires views { to ≤ length (views_of (calls_of index.now)) }
    ensures { result ≡ tally_of (calls_of index.now) (take (to - from) (drop from (views_of (calls_of index.now)))) }
{
    // this call shows what is known of the index's history
    let _events = index.event_count();
    let mut updates = ShownAndNext::new(index);
    let mut tally = Tally::none();
    for place in from..to {
        add_view(&mut tally, index, place, &mut updates);
    }
    tally
}

/// The tally of the completed views from `from` to `to - 1`, as `tally_range` gives it, but without read faults and stale views.
/// It serves if a history has none, or if they are counted elsewhere. It takes no memory.
pub fn tally_without_read(index: &Index<'_, impl Ownership>, from: u32, to: u32) -> Tally
    requires order { from ≤ to }
    requires views { to ≤ length (views_of (calls_of index.now)) }
    ensures { result ≡ without_read (tally_of (calls_of index.now) (take (to - from) (drop from (views_of (calls_of index.now))))) }
{
    // this call shows what is known of the index's history
    let _events = index.event_count();
    let mut updates = ShownAndNext::new(index);
    let mut tally = Tally::none();
    for place in from..to {
        add_without_read(&mut tally, index, place, &mut updates);
    }
    tally
}

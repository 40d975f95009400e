//! What is kept of the desks that are in, by their numbers.
ghost use Rattle.std.specs.Prelude.{◌≡◌, ◌+◌, ◌<◌, ◌≤◌, ◌↔◌, Some, None, MatchOption, IsTrue, slice_index_or, length};
ghost use Rattle.snap_board.specs.Refusals.{desk_limit};
ghost use Rattle.snap_board.specs.inside.Slots.{AllIn, Fresh, NoneFrom, HasLast, kept_entry};

use crate::board::DESK_LIMIT;
use crate::desk_state::DeskState;
use snap_core::Entry;

/// What is kept of each desk below `desks` before its first call.
pub(crate) fn fresh(desks: u8) -> [Option<DeskState>; DESK_LIMIT]
    requires { desks ≤ desk_limit }
    ensures { Fresh desks result × (length result ≡ desk_limit) }
{
    let mut slots = [None; DESK_LIMIT];
    'rows: for d in 0..desks {
        slots[usize::from(d)] = Some(DeskState {
            ticks: 0,
            stores: 0,
            value: 0,
        });
    }
    slots
}

/// The highest desk that is in, or nothing if none is.
pub(crate) fn highest(desks: u8, slots: &[Option<DeskState>; DESK_LIMIT]) -> Option<u8>
    requires { desks ≤ desk_limit }
    ensures { MatchOption result (NoneFrom 0 desks slots.now) (λ d. (d < desks) × ((k : DeskState) × (slice_index_or slots.now d None ≡ Some k)) × NoneFrom (d + 1) desks slots.now) }
{
    let mut d = desks;
    'down: while d > 0 {
        d -= 1;
        if slots[usize::from(d)].is_some() {
            return Some(d);
        }
    }
    None
}

// The last store of a desk, by what is kept of it.
fn last_store(desk: u8, slot: Option<DeskState>) -> Option<Entry>
    ensures { result ≡ kept_entry desk slot }
{
    let kept = slot?;
    if kept.stores == 0 {
        return None;
    }
    Some(Entry {
        component: desk,
        number: kept.stores,
        value: kept.value,
    })
}

/// The last store of each desk below `desks`.
pub(crate) fn last_stores(
    desks: u8,
    slots: &[Option<DeskState>; DESK_LIMIT],
) -> [Option<Entry>; DESK_LIMIT]
    requires { desks ≤ desk_limit }
    ensures { HasLast desks slots.now result × (length result ≡ desk_limit) }
{
    let mut last = [None; DESK_LIMIT];
    'rows: for d in 0..desks {
        last[usize::from(d)] = last_store(d, slots[usize::from(d)]);
    }
    last
}

pub(crate) fn all_in(desks: u8, slots: &[Option<DeskState>; DESK_LIMIT]) -> bool
    requires { desks ≤ desk_limit }
    ensures { IsTrue result ↔ AllIn desks slots.now }
{
    'each: for d in 0..desks {
        if slots[usize::from(d)].is_none() {
            return false;
        }
    }
    true
}

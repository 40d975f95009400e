//! The times to which the order of versions cuts updates.
ghost use Rattle.std.specs.Prelude.{◌≡◌, ◌≤◌, ◌<◌, ◌+◌, ◌↔◌, ◌-◌, IsTrue, length, map, take, get_or, IfOk, ℕ};
ghost use Rattle.snap_theory.specs.Intervals.{earlier as spec_earlier};
ghost use Rattle.snap_versions.specs.inside.Contradictions.{IsEndBefore};
ghost use Rattle.snap_versions.specs.inside.Updates.{AreEndsFrom, AreSorted, begin_among, end_among};

use crate::update::Update;
use std::alloc::{AllocError, Global};

/// The latest begin of the updates of a component up to each update.
pub(crate) fn latest_begins(alloc: Global, updates: &[Update]) -> Result<Vec<u32>, AllocError>
    requires { AreSorted updates.now }
    ensures { IfOk result (λ begins. begins.items ≡ map (begin_among updates.now) updates.now) }
{
    let mut begins = Vec::new(alloc);
    for i in 0..updates.len() {
        begins.push(latest_begin(updates, i, &begins))?;
    }
    Ok(begins)
}

// The latest begin of the updates of a component up to one, by those up to each update before it.
fn latest_begin(updates: &[Update], place: usize, begins: &[u32]) -> u32
    requires sorted { AreSorted updates.now }
    requires within { place < length updates.now }
    requires begins { begins.now ≡ map (begin_among updates.now) (take place updates.now) }
    ensures { (d : Update) → result ≡ begin_among updates.now (get_or updates.now place d) }
{
    let begun = updates[place].begun;
    if place > 0 && is_one_component(updates, place - 1) {
        begun.max(begins[place - 1])
    } else {
        begun
    }
}

/// The earliest end of the updates of a component from each update on, if one of them has ended.
pub(crate) fn earliest_ends(
    alloc: Global,
    updates: &[Update],
) -> Result<Vec<Option<u32>>, AllocError>
    requires { AreSorted updates.now }
    ensures { IfOk result (λ ends. ends.items ≡ map (end_among updates.now) updates.now) }
{
    let mut ends = vec![in alloc; None; updates.len()]?;
    for i in (0..updates.len()).rev() {
        ends[i] = earliest_end(updates, i, &ends);
    }
    Ok(ends)
}

// The earliest end of the updates of a component from one on, by those from each update behind it on.
fn earliest_end(updates: &[Update], place: usize, ends: &[Option<u32>]) -> Option<u32>
    requires sorted { AreSorted updates.now }
    requires within { place < length updates.now }
    requires ends { AreEndsFrom updates.now (place + 1) ends.now }
    ensures { (d : Update) → result ≡ end_among updates.now (get_or updates.now place d) }
{
    let ended = updates[place].ended;
    if place + 1 < updates.len() && is_one_component(updates, place) {
        earlier(ended, ends[place + 1])
    } else {
        ended
    }
}

// Whether an update has the component of the one after it.
fn is_one_component(updates: &[Update], place: usize) -> bool
    requires { place + 1 < length updates.now }
    ensures { (d : Update) → IsTrue result ↔ ((get_or updates.now place d).entry.component ≡ (get_or updates.now (place + 1) d).entry.component) }
{
    updates[place].entry.component == updates[place + 1].entry.component
}

// The earlier of two ends, of which each may be missing.
fn earlier(end: Option<u32>, other: Option<u32>) -> Option<u32>
    ensures { result ≡ spec_earlier end other }
{
    match (end, other) {
        (Some(end), Some(other)) => Some(end.min(other)),
        (Some(end), None) => Some(end),
        (None, other) => other,
    }
}

/// The end and the begin of an update that ends before it begins, if there is one.
pub(crate) fn end_before_begin(begins: &[u32], ends: &[Option<u32>]) -> Option<(u32, u32)>
    requires { length begins.now ≡ length ends.now }
    ensures { IsEndBefore begins.now ends.now result }
{
    for i in 0..begins.len() {
        if let Some(ended) = ends[i]
            && ended < begins[i]
        {
            return Some((ended, begins[i]));
        }
    }
    None
}

//! The calls that a fault concerns.
ghost use Rattle.std.specs.Prelude.{◌≡◌, ◌<◌, ◌++◌, IfOk, OnOk};
ghost use Rattle.std.specs.Option.{ForSome};
ghost use Rattle.snap_core.specs.Calls.{calls_of, views_of, call_numbered, entries_of};
ghost use Rattle.snap_core.specs.Entries.{entry_of, number_in};
ghost use Rattle.snap_conditions.specs.Kinds.{first_in};
ghost use Rattle.snap_conditions.specs.Rows.{first_less};
ghost use Rattle.snap_conditions.specs.Tally.{tally_of};
ghost use Rattle.snap_theory.specs.FaultWitnesses.{Read, excess_of, fault_updates};
ghost use Rattle.snap_witness.specs.Concerned.{IsNamed, updates_concerned, views_concerned};
ghost use Rattle.snap_witness.specs.Places.{IsViewAt, side_number as spec_side_number};

use snap_conditions::{Fault, Kind, Side, Tally};
use snap_core::{COMPONENT_COUNT, Ownership, View};
use snap_index::Index;
use std::alloc::{AllocError, Global};

/// The number of the update that shows a proximity fault: the one that the view misses, or the one that it shows.
pub fn side_number(side: Side, number: u32) -> u32
    requires { number < 4294967295 }
    ensures { result ≡ spec_side_number side number }
{
    match side {
        Side::Old => number + 1,
        Side::Early => number,
    }
}

/// The least component of which a view shows more than another; none if there is no such component.
pub fn least_exceeding(view: &View, other: &View) -> Option<u8>
    ensures { result ≡ first_less (λ k. number_in (entry_of k other.now)) (λ k. number_in (entry_of k view.now)) }
{
    for k in 0..COMPONENT_COUNT {
        let k = k as u8;
        if other.number(k) < view.number(k) {
            return Some(k);
        }
    }
    None
}

/// What the completed view of a call number shows. The number must be that of a completed view.
pub fn view_numbered<'i, O: Ownership>(index: &'i Index<'_, O>, c: u32) -> &'i View
    requires { IsViewAt (calls_of index.now) c }
    ensures { result.now ≡ entries_of (call_numbered (calls_of index.entry.now) c).operation }
{
    let Some(view) = index.answer(c) else {
        unreachable!()
    };
    view
}

// Appends what a view shows of the least component of which it shows more than another, if there is such a component.
fn push_excess<O: Ownership>(
    index: &Index<'_, O>,
    view: u32,
    other: u32,
    updates: &mut Vec<(u8, u32)>,
) -> Result<(), AllocError>
    requires view { IsViewAt (calls_of index.now) view }
    requires other { IsViewAt (calls_of index.now) other }
    ensures { OnOk result (updates.new.items ≡ updates.old.items ++ excess_of (call_numbered (calls_of index.now) view) (call_numbered (calls_of index.now) other)) }
{
    let shown = view_numbered(index, view);
    if let Some(k) = least_exceeding(shown, view_numbered(index, other)) {
        updates.push((k, shown.number(k)))?;
    }
    Ok(())
}

/// The updates that show the read fault of two views, each by its component and its number. The first is what the view shows of the
/// least component of which it shows more than the other. If the view does not precede the other, the second is what the other shows
/// of the least component of which that one shows more. Both views must be completed. The error is lack of memory.
pub fn read_updates<O: Ownership>(
    alloc: Global,
    index: &Index<'_, O>,
    view: u32,
    other: u32,
) -> Result<Vec<(u8, u32)>, AllocError>
    requires view { IsViewAt (calls_of index.now) view }
    requires other { IsViewAt (calls_of index.now) other }
    ensures { IfOk result (λ updates. updates.items ≡ fault_updates (Read (call_numbered (calls_of index.now) view) (call_numbered (calls_of index.now) other))) }
{
    let mut updates = Vec::new(alloc);
    push_excess(index, view, other, &mut updates)?;
    if !index.precedes(view, other) {
        push_excess(index, other, view, &mut updates)?;
    }
    Ok(updates)
}

/// The calls that a fault concerns: its views by their call numbers, and the updates that show it by their components and numbers.
#[derive(Drop)]
pub struct FaultCalls {
    pub views: Vec<u32>,
    pub updates: Vec<(u8, u32)>,
}

impl FaultCalls {
    fn of(alloc: Global, views: &[u32], updates: &[(u8, u32)]) -> Result<FaultCalls, AllocError>
        ensures views { IfOk result (λ calls. calls.views.items ≡ views.now) }
        ensures updates { IfOk result (λ calls. calls.updates.items ≡ updates.now) }
    {
        Ok(FaultCalls {
            views: views.to_vec(alloc)?,
            updates: updates.to_vec(alloc)?,
        })
    }
}

/// The calls that a fault concerns. Its views must be completed views of the history. The error is lack of memory.
pub fn concerned<O: Ownership>(
    alloc: Global,
    index: &Index<'_, O>,
    fault: &Fault,
) -> Result<FaultCalls, AllocError>
    requires { IsNamed (calls_of index.now) fault.now }
    ensures views { IfOk result (λ calls. calls.views.items ≡ views_concerned fault.now) }
    ensures updates { IfOk result (λ calls. calls.updates.items ≡ updates_concerned (calls_of index.now) fault.now) }
{
    match fault {
        Fault::Integrity(fault) => {
            let shown = (fault.entry.component, fault.entry.number);
            FaultCalls::of(alloc, &[fault.view], &[shown])
        }
        Fault::Proximity(fault) => {
            let update = (fault.component, side_number(fault.side, fault.number));
            FaultCalls::of(alloc, &[fault.view], &[update])
        }
        Fault::Read(fault) => {
            let updates = read_updates(alloc, index, fault.view, fault.other)?;
            FaultCalls::of(alloc, &[fault.view, fault.other], &updates)
        }
        Fault::Write(fault) => {
            let missed = (fault.missed_component, fault.missed_number);
            let shown = (fault.shown_component, fault.shown_number);
            FaultCalls::of(alloc, &[fault.view], &[missed, shown])
        }
    }
}

/// The first fault of a kind; none if there is no such fault. Its views are completed views of the history. The tally is that of all
/// completed views.
pub fn first_fault_of<O: Ownership>(
    index: &Index<'_, O>,
    tally: &Tally,
    kind: Kind,
) -> Option<Fault>
    requires { tally.now ≡ tally_of (calls_of index.now) (views_of (calls_of index.now)) }
    ensures first { result ≡ first_in kind tally.now }
    ensures named { ForSome result (IsNamed (calls_of index.now)) }
{
    // what is known of the history that the index is of
    let _events = index.event_count();
    tally.first(kind)
}

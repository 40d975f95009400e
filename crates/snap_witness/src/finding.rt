//! The witness of the first fault.
ghost use Rattle.std.specs.Prelude.{◌≡◌, ◌≤◌, ◌↔◌, IfOk, IfSome, IsNone, length, option_map};
ghost use Rattle.snap_core.specs.Calls.{calls_of, views_of};
ghost use Rattle.snap_core.specs.Bounded.{IsBoundedOrdered};
ghost use Rattle.snap_core.specs.Orders.{IsAtomic};
ghost use Rattle.snap_core.specs.Regular.{IsRegular};
ghost use Rattle.snap_conditions.specs.Kinds.{first_fault_in};
ghost use Rattle.snap_conditions.specs.Tally.{tally_of};
ghost use Rattle.snap_theory.specs.FaultWitnesses.{fault_witness};
ghost use Rattle.snap_theory.specs.Versions.{IsAtomicBy};
ghost use Rattle.snap_theory.specs.First.{first_fault, AreWholeCalls, HasFirstFault};
ghost use Rattle.snap_witness.specs.Keeping.{numbers_kept as spec_numbers_kept};
ghost use Rattle.snap_witness.specs.inside.Names.{NamesFirst};

use crate::calls::{keep_calls, numbers_kept};
use crate::fault_calls::{FaultCalls, concerned};
use snap_conditions::{Fault, Kind, Tally};
use snap_core::{History, Ownership};
use snap_index::Index;
use std::alloc::{AllocError, Global};

// The first fault of the first kind that has one; none if there is no fault.
fn first_of_all(tally: &Tally) -> Option<Fault>
    ensures { result ≡ first_fault_in tally.now }
{
    for kind in &Kind::ALL {
        if let Some(fault) = tally.first(*kind) {
            return Some(fault);
        }
    }
    None
}

// The calls of the first fault; none if there is no fault.
fn first_concerned<O: Ownership>(
    alloc: Global,
    index: &Index<'_, O>,
    tally: &Tally,
) -> Result<Option<FaultCalls>, AllocError>
    requires kept { IsBoundedOrdered index.now }
    requires tally { tally.now ≡ tally_of (calls_of index.now) (views_of (calls_of index.now)) }
    ensures { IfOk result (λ answer. NamesFirst index.now (option_map (λ calls. (calls.views.items, calls.updates.items)) answer)) }
{
    match first_of_all(tally) {
        Some(fault) => {
            let calls = concerned(alloc, index, &fault)?;
            Ok(Some(calls))
        }
        None => Ok(None),
    }
}

// The witness of the first fault; none if there is no fault.
fn first_witness<O: Ownership>(
    alloc: Global,
    index: &Index<'_, O>,
    tally: &Tally,
) -> Result<Option<History>, AllocError>
    requires kept { IsBoundedOrdered index.now }
    requires tally { tally.now ≡ tally_of (calls_of index.now) (views_of (calls_of index.now)) }
    ensures { IfOk result (λ answer. option_map (λ h. h.events) answer ≡ option_map (fault_witness index.now) (first_fault (calls_of index.now))) }
{
    match first_concerned(alloc, index, tally)? {
        Some(calls) => {
            let witness = keep_calls(alloc, index, &calls.views, &calls.updates)?;
            Ok(Some(witness))
        }
        None => Ok(None),
    }
}

/// The witness of the first fault of a history; none if the history is atomic. Where a component may have many writers, that is
/// atomic by a legal order in which the numbers of each component rise. The first fault is the first of its kind in the
/// tally. Its kind is the first of integrity, proximity, read and write of which the tally counts a fault. The tally is that of
/// all completed views.
///
/// A witness is a history of the views of the fault and of the updates that show it, in the order that they had. It has at most
/// four calls and eight events. A call keeps its process and its value, and an update gets number 1. A view shows of each
/// component the update that is kept, if it showed that, and nothing else. The error is lack of memory.
pub fn witness<O: Ownership>(
    alloc: Global,
    index: &Index<'_, O>,
    tally: &Tally,
) -> Result<Option<History>, AllocError>
    requires tally { tally.now ≡ tally_of (calls_of index.now) (views_of (calls_of index.now)) }
    ensures none { IfOk result (λ answer. IsNone answer ↔ IsAtomicBy O.writers (calls_of index.now)) }
    ensures first { IfOk result (λ answer. option_map (λ h. h.events) answer ≡ option_map (fault_witness index.now) (first_fault (calls_of index.now))) }
    ensures calls { IfOk result (λ answer. IfSome answer (λ witness. AreWholeCalls index.now witness.events)) }
    ensures few_calls { IfOk result (λ answer. IfSome answer (λ witness. length (calls_of witness.events) ≤ 4)) }
    ensures few_events { IfOk result (λ answer. IfSome answer (λ witness. length witness.events ≤ 8)) }
    ensures fault { IfOk result (λ answer. IfSome answer (λ witness. HasFirstFault index.now witness.events)) }
    ensures not_atomic { IfOk result (λ answer. IfSome answer (λ witness. IsAtomic (calls_of witness.events) → ⊥)) }
    ensures regular { IfOk result (λ answer. IfSome answer (λ witness. IsRegular (calls_of witness.events) ↔ IsRegular (calls_of index.now))) }
{
    // this call shows what is known of the index's history
    let _events = index.event_count();
    first_witness(alloc, index, tally)
}

// The numbers of the calls that the witness of the first fault keeps; none if there is no fault.
fn first_kept<O: Ownership>(
    alloc: Global,
    index: &Index<'_, O>,
    tally: &Tally,
) -> Result<Option<Vec<u32>>, AllocError>
    requires kept { IsBoundedOrdered index.now }
    requires tally { tally.now ≡ tally_of (calls_of index.now) (views_of (calls_of index.now)) }
    ensures { IfOk result (λ answer. option_map (λ kept. kept.items) answer ≡ option_map (spec_numbers_kept index.now) (first_fault (calls_of index.now))) }
{
    match first_concerned(alloc, index, tally)? {
        Some(calls) => {
            let kept = numbers_kept(alloc, index, &calls.views, &calls.updates)?;
            Ok(Some(kept))
        }
        None => Ok(None),
    }
}

/// The numbers of the calls that `witness` keeps of a history, in their order; none if the history is atomic. Call `i` of the witness
/// is what is left of the `i`-th of these. The tally is that of all completed views. The error is lack of memory.
pub fn kept_calls<O: Ownership>(
    alloc: Global,
    index: &Index<'_, O>,
    tally: &Tally,
) -> Result<Option<Vec<u32>>, AllocError>
    requires tally { tally.now ≡ tally_of (calls_of index.now) (views_of (calls_of index.now)) }
    ensures none { IfOk result (λ answer. IsNone answer ↔ IsAtomicBy O.writers (calls_of index.now)) }
    ensures first { IfOk result (λ answer. option_map (λ kept. kept.items) answer ≡ option_map (spec_numbers_kept index.now) (first_fault (calls_of index.now))) }
{
    // this call shows what is known of the index's history
    let _events = index.event_count();
    first_kept(alloc, index, tally)
}

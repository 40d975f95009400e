//! The history of some calls of an index.
ghost use Rattle.std.specs.Prelude.{◌≡◌, ◌<◌, ◌++◌, All, IfOk, OnOk, length, map};
ghost use Rattle.snap_core.specs.Calls.{call_numbered, calls_of};
ghost use Rattle.snap_index.specs.IndexedCalls.{number_of};
ghost use Rattle.snap_witness.specs.Keeping.{calls_begun};
ghost use Rattle.snap_witness.specs.inside.Places.{begin_and_end, places_of, calls_numbered};
ghost use Rattle.snap_theory.specs.Kept.{is_among as spec_is_among, is_place_of};
ghost use Rattle.snap_theory.specs.Witness.{updates_kept, witness_calls, witness_of, AreWitnesses};

use crate::keeping::{is_among, keep};
use snap_core::{History, Ownership};
use snap_index::{Call, Index};
use std::alloc::{AllocError, Global};

// Appends the places of a call's begin and, if there is one, of its end.
fn push_call(call: &Call, places: &mut Vec<u32>) -> Result<(), AllocError>
    ensures { OnOk result (places.new.items ≡ places.old.items ++ begin_and_end call.now.begun call.now.ended) }
{
    places.push(call.begun)?;
    if let Some(ended) = call.ended {
        places.push(ended)?;
    }
    Ok(())
}

// Appends the places of the calls of these numbers.
fn push_views<O: Ownership>(
    index: &Index<'_, O>,
    views: &[u32],
    places: &mut Vec<u32>,
) -> Result<(), AllocError>
    requires { All (λ c. c < length (calls_of index.now)) views.now }
    ensures { OnOk result (places.new.items ≡ places.old.items ++ places_of (calls_numbered (calls_of index.now) views.now)) }
{
    for i in 0..views.len() {
        let Some(call) = index.call(views[i]) else {
            unreachable!()
        };
        push_call(call, places)?;
    }
    Ok(())
}

// Appends the places of the updates of these components and numbers, as far as there are such updates.
fn push_updates<O: Ownership>(
    index: &Index<'_, O>,
    updates: &[(u8, u32)],
    places: &mut Vec<u32>,
) -> Result<(), AllocError>
    ensures { OnOk result (places.new.items ≡ places.old.items ++ places_of (updates_kept (calls_of index.now) updates.now)) }
{
    for i in 0..updates.len() {
        let (component, number) = updates[i];
        if let Some(call) = index.update(component, number) {
            push_call(call, places)?;
        }
    }
    Ok(())
}

// The places of some completed views, by their call numbers, and of one update for each of some components, by its number.
fn places_kept<O: Ownership>(
    alloc: Global,
    index: &Index<'_, O>,
    views: &[u32],
    updates: &[(u8, u32)],
) -> Result<Vec<u32>, AllocError>
    requires { All (λ c. c < length (calls_of index.now)) views.now }
    ensures { IfOk result (λ places. places.items ≡ places_of (witness_calls (calls_of index.now) (calls_numbered (calls_of index.now) views.now) updates.now)) }
{
    let mut places = Vec::new(alloc);
    push_views(index, views, &mut places)?;
    push_updates(index, updates, &mut places)?;
    Ok(places)
}

// The history of some completed views, by their call numbers, and of one update for each of some components, by its number.
pub(crate) fn keep_calls<O: Ownership>(
    alloc: Global,
    index: &Index<'_, O>,
    views: &[u32],
    updates: &[(u8, u32)],
) -> Result<History, AllocError>
    requires within { All (λ c. c < length (calls_of index.now)) views.now }
    requires calls { AreWitnesses index.now (calls_numbered (calls_of index.now) views.now) updates.now }
    ensures { IfOk result (λ kept. kept.events ≡ witness_of index.now (calls_numbered (calls_of index.now) views.now) updates.now) }
{
    let places = places_kept(alloc, index, views, updates)?;
    keep(alloc, index.events(), &places, updates)
}

// Whether the call of a number begins at one of some places.
fn begins_among<O: Ownership>(index: &Index<'_, O>, places: &[u32], number: u32) -> bool
    requires { number < length (calls_of index.now) }
    ensures { result ≡ spec_is_among places.now (call_numbered (calls_of index.now) number).begun }
{
    let Some(call) = index.call(number) else {
        unreachable!()
    };
    is_among(places, call.begun)
}

// The numbers of the calls that begin at one of some places.
fn numbers_among<O: Ownership>(
    alloc: Global,
    index: &Index<'_, O>,
    places: &[u32],
) -> Result<Vec<u32>, AllocError>
    ensures { IfOk result (λ numbers. numbers.items ≡ map number_of (calls_begun (spec_is_among places.now) (calls_of index.now))) }
{
    let mut numbers = Vec::new(alloc);
    for number in 0..index.call_count() {
        if begins_among(index, places, number) {
            numbers.push(number)?;
        }
    }
    Ok(numbers)
}

// The numbers of these calls, in the order of the history.
pub(crate) fn numbers_kept<O: Ownership>(
    alloc: Global,
    index: &Index<'_, O>,
    views: &[u32],
    updates: &[(u8, u32)],
) -> Result<Vec<u32>, AllocError>
    requires { All (λ c. c < length (calls_of index.now)) views.now }
    ensures { IfOk result (λ numbers. numbers.items ≡ map number_of
        (calls_begun (is_place_of (witness_calls (calls_of index.now) (calls_numbered (calls_of index.now) views.now) updates.now)) (calls_of index.now))) }
{
    let places = places_kept(alloc, index, views, updates)?;
    numbers_among(alloc, index, &places)
}

//! The check of an order.
ghost use Rattle.std.specs.Prelude.{◌≡◌, ◌<◌, ◌↔◌, length, IfOk, IsTrue};
ghost use Rattle.snap_core.specs.Ordered.{IsOrdered};
ghost use Rattle.snap_core.specs.Calls.{calls_of, call_numbered, is_before};
ghost use Rattle.snap_core.specs.Orders.{is_completed as spec_is_completed};
ghost use Rattle.snap_theory.specs.Faults.{HasNoFault};
ghost use Rattle.snap_order.specs.Numbers.{IsLegalList};
ghost use Rattle.snap_order.specs.inside.Stands.{MayStand, SeesCompleted};

use crate::last_entries::LastEntries;
use snap_index::{CallOp, Index};
use std::alloc::{AllocError, Global};

/// Whether these are the numbers, from 0, of the calls of a legal order. A legal order has distinct calls: every completed call
/// and otherwise only pending updates. It keeps precedence, and each view shows the last update of each component before it. The
/// answer is false for a number without a call, and for a repeated one. If a list is legal, the history has no fault.
///
/// The check goes over the list once, and looks at each entry of each view once. The error is lack of memory.
pub fn check_order(alloc: Global, index: &Index<'_>, order: &[u32]) -> Result<bool, AllocError>
    ensures exact { IfOk result (λ yes. IsTrue yes ↔ IsLegalList (calls_of index.now) order.now) }
    ensures no_fault { IfOk result (λ yes. IsTrue yes → HasNoFault (calls_of index.now)) }
{
    // this call shows that the events are a history
    let _events = index.event_count();
    let mut seen = vec![in alloc; false; index.call_count() as usize]?;
    let mut last = LastEntries::new(alloc)?;
    let mut latest = 0;
    for &number in order {
        let Some(call) = index.call(number) else {
            return Ok(false);
        };
        if seen[number as usize] || !may_stand(index, number, &last, latest) {
            return Ok(false);
        }
        seen[number as usize] = true;
        if let CallOp::Update(entry) = call.op {
            last.put(entry);
        }
        latest = latest.max(call.begun);
    }
    Ok(has_all_completed(index, &seen))
}

// Whether a call may come after calls that left these last entries, with `latest` as their latest begin.
fn may_stand(index: &Index<'_>, number: u32, last: &LastEntries, latest: u32) -> bool
    requires ordered { IsOrdered index.now }
    requires number { number < length (calls_of index.now) }
    ensures { IsTrue result ↔ MayStand (call_numbered (calls_of index.now) number) last.now latest }
{
    let Some(call) = index.call(number) else {
        return false;
    };
    if ends_before(call.ended, latest) {
        return false;
    }
    match call.op {
        CallOp::Update(_) => true,
        CallOp::View => match index.answer(number) {
            Some(view) => last.are_shown_by(view),
            None => false,
        },
    }
}

// Whether a call with this end, if it has one, precedes a call that begins at a place.
fn ends_before(ended: Option<u32>, place: u32) -> bool
    ensures { result ≡ is_before ended place }
{
    match ended {
        Some(end) => end < place,
        None => false,
    }
}

// Whether each completed call was seen.
fn has_all_completed(index: &Index<'_>, seen: &[bool]) -> bool
    requires { length seen.now ≡ length (calls_of index.now) }
    ensures { IsTrue result ↔ SeesCompleted (calls_of index.now) seen.now }
{
    for number in 0..index.call_count() {
        if is_completed(index, number) && !seen[number as usize] {
            return false;
        }
    }
    true
}

// Whether the call of a number has an end.
fn is_completed(index: &Index<'_>, number: u32) -> bool
    requires { number < length (calls_of index.now) }
    ensures { result ≡ spec_is_completed (call_numbered (calls_of index.now) number) }
{
    match index.call(number) {
        Some(call) => call.ended.is_some(),
        None => false,
    }
}

//! The status and the report of a history, and of a text.
ghost use Rattle.std.specs.Prelude.{◌≡◌, [], IfOk, IfSome, IsSome, is_some, map};
ghost use Rattle.std.specs.Option.{ForSome};
ghost use Rattle.snap_core.specs.declared.writers.Writers.{Writers};
ghost use Rattle.snap_core.specs.Bounded.{IsHistoryBy};
ghost use Rattle.snap_core.specs.Calls.{calls_of, views_of};
ghost use Rattle.snap_views.specs.Chains.{IsViewChain};
ghost use Rattle.snap_theory.specs.Faults.{read_faults};
ghost use Rattle.snap_conditions.specs.Tally.{tally_of};
ghost use Rattle.snap_theory.specs.Levels.{printed_order};
ghost use Rattle.snap_report.specs.Reports.{has_no_fault};
ghost use Rattle.snap_check.specs.Verdicts.{HasStatus, IsBriefVerdict, IsVerdict};
ghost use Rattle.snap_check.specs.Reports.{IsReport};

use crate::status::{Status, status_by};
use snap_conditions::{Tally, is_atomic};
use snap_core::{AnyWriters, History, Limit, Ownership};
use snap_csv::{ReadRefusal, read_text};
use snap_index::Index;
use snap_order::{build_alone, build_of_chain};
use snap_report::{refusal_text, report_in, report_shared, verdict_text};
use snap_tally::tally_and_chain_alone;
use snap_views::ViewChain;
use std::alloc::{AllocError, Global};
use std::thread::Threads;

/// The status and the report of a history, by its index, the tally of all its completed views, and the numbers of its printed
/// order. The order is given exactly when the tally has no fault. At most `workers` workers share its lines. The report takes the
/// memory of a vector; what the vector had is lost. The error is lack of memory.
pub fn verdict_of<R: Threads + Sync, O: Ownership + Sync>(
    rt: &R,
    index: &Index<'_, O>,
    tally: &Tally,
    order: Option<&[u32]>,
    room: Vec<u8>,
    workers: u32,
) -> Result<(Status, Vec<u8>), AllocError>
    requires tally { tally.now ≡ tally_of (calls_of index.now) (views_of (calls_of index.now)) }
    requires given { is_some order ≡ has_no_fault tally.now }
    requires order { ForSome order (λ numbers. numbers.now ≡ map (λ c. c.number) (printed_order (calls_of index.now))) }
    ensures verdict { IfOk result (λ answer. IsVerdict O.writers index.now answer.0 answer.1.items) }
    ensures by_writers { IfOk result (λ answer. (writers : Writers) → IsHistoryBy writers index.now → IsVerdict writers index.now answer.0 answer.1.items) }
{
    // this call shows what is known of the index's history
    let _events = index.event_count();
    let text = report_shared(rt, room, index, tally, order, workers)?;
    Ok((status_by(tally), text))
}

// The status and the report of `verdict_of` on the calling thread, for a caller without a runtime.
fn verdict_alone<O: Ownership>(
    index: &Index<'_, O>,
    tally: &Tally,
    order: Option<&[u32]>,
    room: Vec<u8>,
) -> Result<(Status, Vec<u8>), AllocError>
    requires tally { tally.now ≡ tally_of (calls_of index.now) (views_of (calls_of index.now)) }
    requires given { is_some order ≡ has_no_fault tally.now }
    requires order { ForSome order (λ numbers. numbers.now ≡ map (λ c. c.number) (printed_order (calls_of index.now))) }
    ensures { IfOk result (λ answer. (writers : Writers) → IsHistoryBy writers index.now → IsVerdict writers index.now answer.0 answer.1.items) }
{
    // this call shows what is known of the index's history
    let _events = index.event_count();
    let text = report_in(room, index, tally, order)?;
    Ok((status_by(tally), text))
}

/// The numbers of a history's printed order, given exactly when it has no fault. They come from its index, the tally of all its
/// completed views, and these as a chain. The chain is given if no two of them are a read fault. At most `workers` workers share
/// the calls. The error is lack of memory.
pub fn order_by<R: Threads + Sync, O: Ownership + Sync>(
    rt: &R,
    alloc: Global,
    index: &Index<'_, O>,
    tally: &Tally,
    chain: Option<ViewChain>,
    workers: u32,
) -> Result<Option<Vec<u32>>, AllocError>
    requires tally { tally.now ≡ tally_of (calls_of index.now) (views_of (calls_of index.now)) }
    requires chain { IfSome chain (IsViewChain (calls_of index.now)) }
    requires given { read_faults (calls_of index.now) (views_of (calls_of index.now)) ≡ [] → IsSome chain }
    ensures given { IfOk result (λ order. is_some order ≡ has_no_fault tally.now) }
    ensures order { IfOk result (λ order. ForSome order (λ numbers. numbers.items ≡ map (λ c. c.number) (printed_order (calls_of index.now)))) }
{
    if !is_atomic(tally) {
        return Ok(None);
    }
    let Some(chain) = chain else { unreachable!() };
    Ok(Some(build_of_chain(rt, alloc, index, chain, workers)?))
}

/// The numbers of `order_by` on the calling thread, for a caller without a runtime.
pub fn order_alone<O: Ownership>(
    alloc: Global,
    index: &Index<'_, O>,
    tally: &Tally,
    chain: Option<ViewChain>,
) -> Result<Option<Vec<u32>>, AllocError>
    requires tally { tally.now ≡ tally_of (calls_of index.now) (views_of (calls_of index.now)) }
    requires chain { IfSome chain (IsViewChain (calls_of index.now)) }
    requires given { read_faults (calls_of index.now) (views_of (calls_of index.now)) ≡ [] → IsSome chain }
    ensures given { IfOk result (λ order. is_some order ≡ has_no_fault tally.now) }
    ensures order { IfOk result (λ order. ForSome order (λ numbers. numbers.items ≡ map (λ c. c.number) (printed_order (calls_of index.now)))) }
{
    let has_order = is_atomic(tally);
    if !has_order {
        return Ok(None);
    }
    let Some(chain) = chain else { unreachable!() };
    Ok(Some(build_alone(alloc, index, chain)?))
}

/// The status of a history, by its index and the tally of all its completed views.
pub fn status_of<O: Ownership>(index: &Index<'_, O>, tally: &Tally) -> Status
    requires tally { tally.now ≡ tally_of (calls_of index.now) (views_of (calls_of index.now)) }
    ensures status { HasStatus O.writers index.now result }
    ensures by_writers { (writers : Writers) → IsHistoryBy writers index.now → HasStatus writers index.now result }
{
    // this call shows what is known of the index's history
    let _events = index.event_count();
    status_by(tally)
}

/// The status of a history, and of its report only the lines of the verdicts. They come from its index and the tally of all its
/// completed views. The error is lack of memory.
pub fn brief_verdict_of<O: Ownership>(
    alloc: Global,
    index: &Index<'_, O>,
    tally: &Tally,
) -> Result<(Status, Vec<u8>), AllocError>
    requires tally { tally.now ≡ tally_of (calls_of index.now) (views_of (calls_of index.now)) }
    ensures verdict { IfOk result (λ answer. IsBriefVerdict O.writers index.now answer.0 answer.1.items) }
    ensures by_writers { IfOk result (λ answer. (writers : Writers) → IsHistoryBy writers index.now → IsBriefVerdict writers index.now answer.0 answer.1.items) }
{
    // this call shows what is known of the index's history
    let _events = index.event_count();
    let text = verdict_text(alloc, tally)?;
    Ok((status_by(tally), text))
}

// More bytes than the lines of a report before its order have.
const FRONT_SIZE: usize = 128;

// The status and the report of a history, without a runtime. `size` bytes are reserved at once for the report.
fn verdict_in(
    alloc: Global,
    history: &History<AnyWriters>,
    size: usize,
) -> Result<(Status, Vec<u8>), AllocError>
    ensures { IfOk result (λ answer. (writers : Writers) → IsHistoryBy writers history.now.events → IsVerdict writers history.now.events answer.0 answer.1.items) }
{
    let index = Index::build(alloc, history)?;
    let (tally, chain) = tally_and_chain_alone(alloc, &index)?;
    let room = Vec::with_capacity(alloc, size)?;
    let order = order_alone(alloc, &index, &tally, chain)?;
    verdict_alone(&index, &tally, order.as_deref(), room)
}

/// The status and the report of a text in memory, without a runtime, on the calling thread alone. A history may have as many
/// events as the limit, and its text 1,024 bytes for each. A text that is not a history is refused, with the line of its first
/// fault. The error is lack of memory.
pub fn judge_text(alloc: Global, text: &[u8], limit: Limit) -> Result<(Status, Vec<u8>), AllocError>
    ensures { IfOk result (λ answer. IsReport limit text.now answer.0 answer.1.items) }
{
    match read_text(alloc, text, limit) {
        // a call's line is no longer than the records from which it is read
        Ok(history) => verdict_in(alloc, &history, text.len() + FRONT_SIZE),
        Err(ReadRefusal::Text { place, fault }) => {
            Ok((Status::Refused, refusal_text(alloc, place, fault)?))
        }
        Err(ReadRefusal::Device) => unreachable!(),
        Err(ReadRefusal::Memory) => Err(AllocError),
    }
}

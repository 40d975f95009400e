//! The places of the begins and ends of calls.
ghost use Rattle.std.specs.Prelude.{◌≡◌, ◌<◌, filter, length, map, IfOk};
ghost use Rattle.snap_core.specs.Calls.{call_numbered, calls_of};
ghost use Rattle.snap_index.specs.IndexedCalls.{indexed_op};
ghost use Rattle.snap_stats.specs.inside.Spans.{is_of as spec_is_of, span_of};

use snap_core::Ownership;
use snap_index::{CallOp, Index};
use std::alloc::{AllocError, Global};

/// The places of the events that begin and end a call. A pending call has no end.
#[derive(Clone, Copy)]
pub(crate) struct Span {
    pub(crate) begun: u32,
    pub(crate) ended: Option<u32>,
}

/// A kind of calls.
#[derive(Clone, Copy)]
pub(crate) enum Kind {
    Any,
    Update,
    /// Completed views.
    View,
}

// Whether the call of a number is of a kind.
fn is_of<O: Ownership>(index: &Index<'_, O>, number: u32, op: CallOp, kind: Kind) -> bool
    requires below { number < length (calls_of index.now) }
    requires same { op ≡ indexed_op (call_numbered (calls_of index.now) number).operation }
    ensures { result ≡ spec_is_of kind (call_numbered (calls_of index.now) number) }
{
    match kind {
        Kind::Any => true,
        Kind::Update => matches!(op, CallOp::Update(_)),
        Kind::View => index.answer(number).is_some(),
    }
}

/// The places of the calls of a kind, in the order of their begins.
pub(crate) fn spans_of<O: Ownership>(
    alloc: Global,
    index: &Index<'_, O>,
    kind: Kind,
) -> Result<Vec<Span>, AllocError>
    ensures { IfOk result (λ spans. spans.items ≡ map span_of (filter (spec_is_of kind) (calls_of index.now))) }
{
    let mut spans = Vec::new(alloc);
    for number in 0..index.call_count() {
        let Some(call) = index.call(number) else {
            unreachable!()
        };
        if is_of(index, number, call.op, kind) {
            spans.push(Span {
                begun: call.begun,
                ended: call.ended,
            })?;
        }
    }
    Ok(spans)
}

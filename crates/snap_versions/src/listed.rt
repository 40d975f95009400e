//! The calls of a list of events, each with its number and its answer.
ghost use Rattle.std.specs.Prelude.{◌≡◌, ◌≤◌, length, IfOk};
ghost use Rattle.std.specs.Option.{option_copied};
ghost use Rattle.snap_core.specs.Calls.{calls_of};
ghost use Rattle.snap_core.specs.Events.{event_cap};
ghost use Rattle.snap_index.specs.IndexedCalls.{answer_of};
ghost use Rattle.snap_versions.specs.inside.Listed.{calls_listed, call_listed, call_told};

use snap_core::{Entry, Event, View};
use snap_index::{Call, CallOp, answered, list_calls};
use std::alloc::{AllocError, Global};

/// What a listed call does: an update with its entry, or a view with its answer, which stays in the events.
#[derive(Clone, Copy)]
pub(crate) enum ListedOperation<'e> {
    Update(Entry),
    View(Option<&'e View>),
}

/// A call with its number in the order of begins, and the places, counted from 0, of the events that begin and end it.
#[derive(Clone, Copy)]
pub(crate) struct Listed<'e> {
    pub number: u32,
    pub process: u16,
    pub operation: ListedOperation<'e>,
    pub begun: u32,
    pub ended: Option<u32>,
}

impl<'e> Listed<'e> {
    /// What the call answered, if it is a completed view.
    pub(crate) fn answer(&self) -> Option<&'e View>
        ensures { option_copied result ≡ answer_of (call_listed self.now) }
    {
        match self.operation {
            ListedOperation::Update(_) => None,
            ListedOperation::View(answer) => answer,
        }
    }
}

// The call of a number, with its answer.
fn with_answer<'e>(events: &'e [Event], number: u32, call: &Call) -> Listed<'e>
    ensures { call_listed result ≡ call_told events.now number call.now }
{
    let operation = match call.op {
        CallOp::Update(entry) => ListedOperation::Update(entry),
        CallOp::View => ListedOperation::View(answered(events, call.ended)),
    };
    Listed {
        number,
        process: call.process,
        operation,
        begun: call.begun,
        ended: call.ended,
    }
}

/// The calls of some events. The error is lack of memory.
pub(crate) fn listed_calls(alloc: Global, events: &[Event]) -> Result<Vec<Listed<'_>>, AllocError>
    requires { length events.now ≤ event_cap }
    ensures { IfOk result (λ calls. calls_listed calls.items ≡ calls_of events.now) }
{
    let calls = list_calls(alloc, events)?;
    let mut with_answers = Vec::with_capacity(alloc, calls.len())?;
    for (place, call) in calls.iter().enumerate() {
        with_answers.push(with_answer(events, place as u32, call))?;
    }
    Ok(with_answers)
}

//! The calls of a history with their numbers.
ghost use Rattle.std.specs.Prelude.{◌≡◌, ◌<◌, IfOk, length, map};
ghost use Rattle.snap_core.specs.Calls.{call_numbered, calls_of};
ghost use Rattle.snap_draw.specs.Calls.{drawn_call};

use snap_core::Ownership;
use snap_index::{Call, Index};
use std::alloc::{AllocError, Global};

/// A call with its number, which counts the begins before its own.
#[derive(Clone, Copy)]
pub struct Drawn {
    pub number: u32,
    pub call: Call,
}

fn call_at<O: Ownership>(index: &Index<'_, O>, number: u32) -> Drawn
    requires { number < length (calls_of index.now) }
    ensures { result ≡ drawn_call (call_numbered (calls_of index.now) number) }
{
    let Some(call) = index.call(number) else {
        unreachable!()
    };
    Drawn {
        number,
        call: *call,
    }
}

/// All calls of a history, by number.
pub(crate) fn all_calls<O: Ownership>(
    alloc: Global,
    index: &Index<'_, O>,
) -> Result<Vec<Drawn>, AllocError>
    ensures { IfOk result (λ calls. calls.items ≡ map drawn_call (calls_of index.now)) }
{
    let mut calls = Vec::new(alloc);
    for number in 0..index.call_count() {
        calls.push(call_at(index, number))?;
    }
    Ok(calls)
}

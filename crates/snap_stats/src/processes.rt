//! The number of processes that take part.
ghost use Rattle.std.specs.Prelude.{◌≡◌, ◌≤◌, IfOk};
ghost use Rattle.snap_core.specs.Calls.{calls_of};
ghost use Rattle.snap_stats.specs.Shown.{process_count as spec_process_count};

use snap_core::Ownership;
use snap_index::Index;
use std::alloc::{AllocError, Global};

// One more than the greatest process.
fn process_limit() -> usize
    ensures { 65536 ≤ result }
{
    usize::from(u16::MAX) + 1
}

/// The number of processes that have a call.
pub(crate) fn process_count<O: Ownership>(
    alloc: Global,
    index: &Index<'_, O>,
) -> Result<usize, AllocError>
    ensures { IfOk result (λ count. count ≡ spec_process_count (calls_of index.now)) }
{
    let mut seen = vec![in alloc; false; process_limit()]?;
    let mut count = 0;
    let mut number = index.call_count();
    while number > 0 {
        number -= 1;
        let Some(call) = index.call(number) else {
            unreachable!()
        };
        let process = call.process as usize;
        if !seen[process] {
            seen[process] = true;
            count += 1;
        }
    }
    Ok(count)
}

//! The calls that stay: a pending update that no view shows is left out.
ghost use Rattle.std.specs.Prelude.{◌≡◌, ◌≤◌, length, IfOk};
ghost use Rattle.snap_core.specs.Events.{event_cap};
ghost use Rattle.snap_theory.specs.Versioned.{kept_calls as spec_kept_calls};
ghost use Rattle.snap_versions.specs.inside.Listed.{call_listed, calls_listed};
ghost use Rattle.snap_versions.specs.inside.Unshown.{stays_beside};

use crate::listed::{Listed, ListedOperation};
use crate::unshown::unshown_versions;
use crate::versions::Versions;
use std::alloc::{AllocError, Global};

// Whether a call stays, by the versions of pending updates that no view shows.
fn stays(call: &Listed<'_>, unshown: &Versions) -> bool
    ensures { result ≡ stays_beside unshown.now (call_listed call.now) }
{
    match call.operation {
        ListedOperation::Update(entry) => {
            call.ended.is_some() || !unshown.has(entry.component, entry.number)
        }
        ListedOperation::View(_) => true,
    }
}

/// The calls that stay, in their order. The error is lack of memory.
pub(crate) fn kept_calls(
    alloc: Global,
    calls: Vec<Listed<'_>>,
) -> Result<Vec<Listed<'_>>, AllocError>
    requires { length calls.items ≤ event_cap }
    ensures { IfOk result (λ kept. calls_listed kept.items ≡ spec_kept_calls (calls_listed calls.entry.items)) }
{
    let unshown = unshown_versions(alloc, &calls)?;
    let mut kept = calls;
    kept.retain(|call| stays(call, &unshown));
    Ok(kept)
}

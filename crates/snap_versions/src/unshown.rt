//! The versions of pending updates that no view shows.
ghost use Rattle.std.specs.Prelude.{◌≡◌, ◌≤◌, ◌&&◌, ℕ, not, length, filter, IfOk};
ghost use Rattle.snap_core.specs.Entries.{entry_of};
ghost use Rattle.snap_core.specs.Events.{event_cap};
ghost use Rattle.snap_theory.specs.Versioned.{is_version};
ghost use Rattle.snap_versions.specs.inside.Listed.{call_listed, calls_listed};
ghost use Rattle.snap_versions.specs.inside.Unshown.{AreUnshown, is_shown, version};
ghost use Rattle.snap_versions.specs.inside.Unshown.{is_pending_update as spec_is_pending_update};
ghost use Rattle.snap_versions.specs.inside.Versions.{has_version, versions_in};

use crate::listed::{Listed, ListedOperation};
use crate::versions::Versions;
use snap_core::View;
use std::alloc::{AllocError, Global};

// Whether a call is an update without an end.
fn is_pending_update(call: &Listed<'_>) -> bool
    ensures { result ≡ spec_is_pending_update (call_listed call.now) }
{
    match call.operation {
        ListedOperation::Update(_) => call.ended.is_none(),
        ListedOperation::View(_) => false,
    }
}

// The updates without an end. There is at most one of each process.
fn pending_updates<'e>(alloc: Global, calls: &[Listed<'e>]) -> Result<Vec<Listed<'e>>, AllocError>
    ensures { IfOk result (λ pending. calls_listed pending.items ≡ filter spec_is_pending_update (calls_listed calls.now)) }
{
    let mut pending = Vec::new(alloc);
    for call in calls {
        if is_pending_update(call) {
            pending.push(*call)?;
        }
    }
    Ok(pending)
}

// Leaves out the versions that a view shows.
fn leave_out(versions: &mut Versions, view: &View)
    ensures { (k n : ℕ) → has_version (versions_in versions.new k) n ≡ (has_version (versions_in versions.old k) n && not (is_version (version k n) (entry_of k view.now))) }
{
    for entry in view.entries() {
        versions.remove(entry.component, entry.number);
    }
}

// Leaves out the versions that completed views show.
fn leave_out_shown(versions: &mut Versions, calls: &[Listed<'_>])
    ensures { (k n : ℕ) → has_version (versions_in versions.new k) n ≡ (has_version (versions_in versions.old k) n && not (is_shown (calls_listed calls.now) k n)) }
{
    for call in calls {
        if let Some(view) = call.answer() {
            leave_out(versions, view);
        }
    }
}

/// The versions of pending updates that no completed view shows. The error is lack of memory.
pub(crate) fn unshown_versions(alloc: Global, calls: &[Listed<'_>]) -> Result<Versions, AllocError>
    requires { length calls.now ≤ event_cap }
    ensures { IfOk result (λ versions. AreUnshown (calls_listed calls.now) versions) }
{
    let pending = pending_updates(alloc, calls)?;
    let mut unshown = Versions::of(alloc, &pending)?;
    if !pending.is_empty() {
        leave_out_shown(&mut unshown, calls);
    }
    Ok(unshown)
}

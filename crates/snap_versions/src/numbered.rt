//! The calls of a store that stay, with the rank of each version as its number.
ghost use Rattle.std.specs.Prelude.{◌≡◌, ◌≤◌, length, map, IfOk};
ghost use Rattle.snap_core.specs.Calls.{calls_of};
ghost use Rattle.snap_core.specs.Events.{event_cap};
ghost use Rattle.snap_theory.specs.Versioned.{counted_calls};
ghost use Rattle.snap_theory.specs.Versioned.{numbered_calls as spec_numbered_calls};
ghost use Rattle.snap_versions.specs.Rows.{call_of};
ghost use Rattle.snap_versions.specs.inside.Listed.{calls_listed};

use crate::kept::kept_calls;
use crate::listed::{Listed, listed_calls};
use crate::ranked::ranked_rows;
use crate::row::Row;
use crate::versions::Versions;
use snap_core::Event;
use std::alloc::{AllocError, Global};

// The calls with the ranks of their versions among these calls as numbers.
fn counted_rows(alloc: Global, calls: &[Listed<'_>]) -> Result<Vec<Row>, AllocError>
    requires { length calls.now ≤ event_cap }
    ensures { IfOk result (λ rows. map call_of rows.items ≡ counted_calls (calls_listed calls.now)) }
{
    let versions = Versions::of(alloc, calls)?;
    ranked_rows(alloc, &versions, calls)
}

/// The calls of a store's events that stay, with the rank of each version as its number. A pending update that no view shows is
/// left out. Of a version that no update has the number is one more than its component has updates. The error is lack of memory.
pub fn numbered_calls(alloc: Global, events: &[Event]) -> Result<Vec<Row>, AllocError>
    requires short { length events.now ≤ event_cap }
    ensures { IfOk result (λ rows. map call_of rows.items ≡ spec_numbered_calls (calls_of events.now)) }
{
    let calls = listed_calls(alloc, events)?;
    let kept = kept_calls(alloc, calls)?;
    counted_rows(alloc, &kept)
}

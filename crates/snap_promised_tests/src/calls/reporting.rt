//! Callers of the calls of snap_report.
ghost use Rattle.std.specs.Prelude.{◌≡◌, All, is_some};
ghost use Rattle.std.specs.Option.{ForSome};
ghost use Rattle.snap_core.specs.Calls.{calls_of};
ghost use Rattle.snap_report.specs.Orders.{HasLine};
ghost use Rattle.snap_report.specs.Reports.{has_no_fault};

use snap_conditions::Tally;
use snap_csv::TextFault;
use snap_index::Index;
use std::alloc::{AllocError, Global};

fn report(
    alloc: Global,
    index: &Index<'_>,
    tally: &Tally,
    order: Option<&[u32]>,
) -> Result<Vec<u8>, AllocError>
    requires order { is_some order ≡ has_no_fault tally.now }
    requires calls { ForSome order (λ numbers. All (HasLine (calls_of index.now)) numbers.now) }
{
    snap_report::report(alloc, index, tally, order)
}

fn refusal_text(alloc: Global, place: u32, fault: TextFault) -> Result<Vec<u8>, AllocError> {
    snap_report::refusal_text(alloc, place, fault)
}

//! Calls of a store, cut to the times that the order of versions allows.
ghost use Rattle.std.specs.Prelude.{◌≡◌, map, filter, not, None, Contains, IfOk};
ghost use Rattle.std.specs.List.{flat_map};
ghost use Rattle.snap_core.specs.Calls.{Call, Views};
ghost use Rattle.snap_core.specs.Orders.{is_update};
ghost use Rattle.snap_theory.specs.Versioned.{AreVersioned};
ghost use Rattle.snap_versions.specs.Rows.{call_of};
ghost use Rattle.snap_versions.specs.Placed.{ArePlaced};
ghost use Rattle.snap_versions.specs.Cuts.{IsCut};
ghost use Rattle.snap_versions.specs.inside.RankedMoments.{ranked_whole};
ghost use Rattle.snap_versions.specs.inside.Updates.{update_calls};

use crate::moment::Cut;
use crate::moments::{Ranked, in_order, push_updates, push_view};
use crate::row::{Operation, Row};
use crate::times::{earliest_ends, end_before_begin, latest_begins};
use crate::update::{Update, sort_by_version};
use std::alloc::{AllocError, Global};

/// Cuts each update of a store to the times that the order of versions allows: from the latest begin of those up to it, to the
/// earliest end of those from it on. The moments of the cut calls come in their order; or else two updates contradict time. The
/// error is lack of memory.
pub fn cut_rows(alloc: Global, rows: Vec<Row>) -> Result<Cut, AllocError>
    requires versioned { AreVersioned (map call_of rows.items) }
    requires placed { ArePlaced (map call_of rows.items) }
    ensures { IfOk result (IsCut (map call_of rows.items)) }
{
    let (mut updates, mut moments) = split(alloc, rows)?;
    sort_by_version(&mut updates);
    let begins = latest_begins(alloc, &updates)?;
    let ends = earliest_ends(alloc, &updates)?;
    if let Some((ended, begun)) = end_before_begin(&begins, &ends) {
        return Ok(Cut::Contradiction { ended, begun });
    }
    push_updates(&mut moments, &updates, &begins, &ends)?;
    Ok(Cut::Told(in_order(alloc, moments)?))
}

// The updates, and the begins and ends of the views.
fn split(alloc: Global, rows: Vec<Row>) -> Result<(Vec<Update>, Vec<Ranked>), AllocError>
    requires { (c : Call) → Contains (map call_of rows.items) c → c.operation ≡ Views None → c.ended ≡ None }
    ensures updates { IfOk result (λ parts. update_calls parts.0.items ≡ filter is_update (map call_of rows.items)) }
    ensures views { IfOk result
        (λ parts. parts.1.items ≡ flat_map ranked_whole (filter (λ c. not (is_update c)) (map call_of rows.items))) }
{
    let mut updates = Vec::new(alloc);
    let mut moments = Vec::new(alloc);
    for row in rows {
        let Row {
            number,
            process,
            operation,
            begun,
            ended,
        } = row;
        match operation {
            Operation::Update(entry) => {
                updates.push(Update {
                    number,
                    process,
                    entry,
                    begun,
                    ended,
                })?;
            }
            Operation::View(answer) => {
                push_view(&mut moments, process, answer, begun, ended)?;
            }
        }
    }
    Ok((updates, moments))
}

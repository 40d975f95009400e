//! Entries and calls with the ranks of their versions as numbers.
ghost use Rattle.std.specs.Prelude.{◌≡◌, map, IfOk};
ghost use Rattle.snap_versions.specs.Rows.{call_of, operation_of};
ghost use Rattle.snap_versions.specs.inside.Listed.{call_listed, calls_listed, operation_listed};
ghost use Rattle.snap_versions.specs.inside.Ranked.{ranked_call};
ghost use Rattle.snap_versions.specs.inside.Ranked.{ranked_entry as spec_ranked_entry};
ghost use Rattle.snap_versions.specs.inside.Ranked.{ranked_operation as spec_ranked_operation};

use crate::listed::{Listed, ListedOperation};
use crate::row::{Operation, Row};
use crate::versions::Versions;
use snap_core::{Entry, View};
use std::alloc::{AllocError, Global};

fn ranked_entry(versions: &Versions, entry: &Entry) -> Entry
    ensures { result ≡ spec_ranked_entry versions.now entry.now }
{
    Entry {
        component: entry.component,
        number: versions.rank(entry.component, entry.number),
        value: entry.value,
    }
}

fn ranked_entries(
    alloc: Global,
    versions: &Versions,
    entries: &[Entry],
) -> Result<Vec<Entry>, AllocError>
    ensures { IfOk result (λ ranked. ranked.items ≡ map (spec_ranked_entry versions.now) entries.now) }
{
    let mut ranked = Vec::with_capacity(alloc, entries.len())?;
    for entry in entries {
        ranked.push(ranked_entry(versions, entry))?;
    }
    Ok(ranked)
}

// What a view shows, with ranks as numbers. They are at least 1, and the components are as before, so no entry is refused.
fn ranked_view(alloc: Global, versions: &Versions, view: &View) -> Result<View, AllocError>
    ensures { IfOk result (λ ranked. ranked ≡ map (spec_ranked_entry versions.now) view.now) }
{
    match View::from_entries(ranked_entries(alloc, versions, view.entries())?) {
        Ok(ranked) => Ok(ranked),
        Err(_) => unreachable!(),
    }
}

fn ranked_operation(
    alloc: Global,
    versions: &Versions,
    operation: ListedOperation<'_>,
) -> Result<Operation, AllocError>
    ensures { IfOk result (λ ranked. operation_of ranked ≡ spec_ranked_operation versions.now (operation_listed operation.entry)) }
{
    Ok(match operation {
        ListedOperation::Update(entry) => Operation::Update(ranked_entry(versions, &entry)),
        ListedOperation::View(None) => Operation::View(None),
        ListedOperation::View(Some(view)) => {
            Operation::View(Some(ranked_view(alloc, versions, view)?))
        }
    })
}

fn ranked_row(alloc: Global, versions: &Versions, call: &Listed<'_>) -> Result<Row, AllocError>
    ensures { IfOk result (λ row. call_of row ≡ ranked_call versions.now (call_listed call.now)) }
{
    Ok(Row {
        number: call.number,
        process: call.process,
        operation: ranked_operation(alloc, versions, call.operation)?,
        begun: call.begun,
        ended: call.ended,
    })
}

/// Some calls with the ranks of their versions as numbers. The error is lack of memory.
pub(crate) fn ranked_rows(
    alloc: Global,
    versions: &Versions,
    calls: &[Listed<'_>],
) -> Result<Vec<Row>, AllocError>
    ensures { IfOk result (λ ranked. map call_of ranked.items ≡ map (ranked_call versions.now) (calls_listed calls.now)) }
{
    let mut ranked = Vec::with_capacity(alloc, calls.len())?;
    for call in calls {
        ranked.push(ranked_row(alloc, versions, call)?)?;
    }
    Ok(ranked)
}

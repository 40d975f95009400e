//! Which calls of a history its witness keeps.
ghost use Rattle.std.specs.Prelude.{◌≡◌, IfOk, length};
ghost use Rattle.std.specs.List.{range_with_len};
ghost use Rattle.snap_core.specs.declared.writers.Writers.{Writers};
ghost use Rattle.snap_core.specs.Bounded.{IsHistoryBy};
ghost use Rattle.snap_core.specs.Calls.{calls_of};
ghost use Rattle.snap_theory.specs.Versions.{IsAtomicInOrder};
ghost use Rattle.snap_check.specs.declared.status.Status.{Status as SpecStatus};
ghost use Rattle.snap_check.specs.Verdicts.{HasStatus};
ghost use Rattle.snap_runs.specs.Cutting.{AreOfWitness};
ghost use Rattle.snap_runs.specs.Mapping.{MapsHistory};
ghost use Rattle.snap_runs.specs.Shrinking.{IsWitnessOf};

use crate::cut::{numbered_witness, records_of};
use crate::table::table_of;
use snap_check::{Judging, Status, status_of};
use snap_core::{AnyWriters, History};
use snap_index::Index;
use std::alloc::{AllocError, Global};

// The numbers of this number of calls.
fn all_numbers(alloc: Global, count: u32) -> Result<Vec<u32>, AllocError>
    ensures { IfOk result (λ numbers. numbers.items ≡ range_with_len 0 count) }
{
    (0..count).collect(alloc)
}

// The table of a history that is atomic, by the records of its events. It is left whole.
fn whole_map(
    alloc: Global,
    left: &History<AnyWriters>,
    index: &Index<'_, AnyWriters>,
    records: &[u32],
) -> Result<Vec<u8>, AllocError>
    requires left { left.now.events ≡ index.now }
    requires each { length records.now ≡ length index.now }
    requires atomic { IsAtomicInOrder (calls_of index.now) }
    ensures { IfOk result (λ out. (writers : Writers) (status : SpecStatus) → IsHistoryBy writers index.now → HasStatus writers index.now status → MapsHistory writers index.now records.now status out.items) }
{
    // what is known of the history that the index is of
    let _events = index.event_count();
    let mine = records_of(alloc, left.len())?;
    let sources = all_numbers(alloc, index.call_count())?;
    let cut = Index::build(alloc, left)?;
    table_of(alloc, &cut, &mine, index, records, &sources)
}

// The table of the witness of a history, whose calls have these numbers in the history.
fn witness_map(
    alloc: Global,
    left: &History<AnyWriters>,
    numbers: &[u32],
    index: &Index<'_, AnyWriters>,
    records: &[u32],
) -> Result<Vec<u8>, AllocError>
    requires each { length records.now ≡ length index.now }
    requires not_atomic { IsAtomicInOrder (calls_of index.now) → ⊥ }
    requires witness { IsWitnessOf index.now left.now.events }
    requires numbers { AreOfWitness index.now left.now.events numbers.now }
    ensures { IfOk result (λ out. (writers : Writers) (status : SpecStatus) → IsHistoryBy writers index.now → HasStatus writers index.now status → MapsHistory writers index.now records.now status out.items) }
{
    // what is known of the history that the index is of
    let _events = index.event_count();
    let mine = records_of(alloc, left.len())?;
    let cut = Index::build(alloc, left)?;
    table_of(alloc, &cut, &mine, index, records, numbers)
}

/// The status of the history of a text with this number of bytes, and the table of the calls of what it is cut down to.
pub(crate) fn mapped<J: Judging>(
    judging: &J,
    alloc: Global,
    history: &History<AnyWriters>,
    records: &[u32],
    bytes: usize,
) -> Result<(Status, Vec<u8>), AllocError>
    requires ready { J.ready }
    requires each { length records.now ≡ length history.now.events }
    ensures { IfOk result (λ answer. (writers : Writers) → IsHistoryBy writers history.now.events → MapsHistory writers history.now.events records.now answer.0 answer.1.items) }
{
    let index = Index::build(alloc, history)?;
    let (tally, _chain) = judging.tally_and_chain(alloc, &index, bytes)?;
    let status = status_of(&index, &tally);
    let out = match numbered_witness(alloc, &index, &tally)? {
        Some((left, numbers)) => witness_map(alloc, &left, &numbers, &index, records)?,
        None => whole_map(alloc, history, &index, records)?,
    };
    Ok((status, out))
}

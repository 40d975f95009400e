//! The read faults of the pieces: none if the quick test passes, otherwise by a grid of the views.
ghost use Rattle.std.specs.Prelude.{◌≡◌, ◌<◌, ◌≤◌, ◌+◌, ◌↔◌, [], ℕ, length, get_or, IfOk, IfSome, IsSome};
ghost use Rattle.snap_core.specs.Calls.{calls_of, views_of};
ghost use Rattle.snap_views.specs.Chains.{AreViewSums, IsViewChain};
ghost use Rattle.snap_core.specs.Entries.{component_count};
ghost use Rattle.snap_theory.specs.Faults.{read_faults};
ghost use Rattle.snap_tally.specs.Grids.{AreColumnsOf};
ghost use Rattle.snap_views.specs.Quick.{shown_sum};
ghost use Rattle.snap_views.specs.Seen.{view_in};
ghost use Rattle.snap_pairs.specs.inside.Pieces.{IsPieceTally};
ghost use Rattle.snap_pairs.specs.inside.Reads.{AreParts, IsGridFor, part_start};

use crate::pieces::{block_at, start_of};
use rayon::prelude::*;
use snap_conditions::{Tally, tally_without_read};
use snap_core::{COMPONENT_COUNT, Ownership};
use snap_grid::Column;
use snap_index::Index;
use snap_tally::{ViewGrid, columns_between, read_faults_by_grid};
use snap_threads::{Cutting, each_job};
use snap_views::{ViewChain, ViewOrder, view_order, view_sum, view_sums};
use std::alloc::{AllocError, Global};
use std::thread::Threads;

// The least number of views for a thread of their own: the sums of fewer take less time than its start.
const VIEWS_A_THREAD: u32 = 16_384;

// The most components whose columns take less time than the start of a thread.
const FEW_COMPONENTS: usize = 64;

// A grid of the views if they have a read fault, otherwise the views as a chain.
pub(crate) fn grid_or_chain<'i, 'h, R: Threads + Sync, O: Ownership + Sync>(
    rt: &R,
    alloc: Global,
    index: &'i Index<'h, O>,
    cutting: Cutting,
) -> Result<(Option<ViewGrid<'i, 'h, O>>, Option<ViewChain>), AllocError>
    ensures grid { IfOk result (λ found. IsGridFor index.entry.now found.0) }
    ensures chain { IfOk result (λ found. IfSome found.1 (IsViewChain (calls_of index.entry.now))) }
    ensures found { IfOk result (λ found. IsSome found.1 ↔ (read_faults (calls_of index.entry.now) (views_of (calls_of index.entry.now)) ≡ [])) }
{
    let sums = shared_sums(rt, alloc, index, cutting)?;
    match view_order(alloc, index, sums)? {
        ViewOrder::Faultless(chain) => Ok((None, Some(chain))),
        ViewOrder::Comparable(chain) => {
            Ok((Some(ViewGrid::of_chain(alloc, index, &chain)?), None))
        }
        ViewOrder::Crossing => {
            let columns = view_columns(rt, alloc, index, cutting)?;
            Ok((Some(ViewGrid::of_columns(alloc, index, columns)?), None))
        }
    }
}

// The tally of a piece. A grid compares whole blocks of views, and a part of one takes as long. So the read faults of a block are
// counted with the piece in which it begins. Each block is compared once, for every number of pieces.
pub(crate) fn piece_tally<O: Ownership>(
    alloc: Global,
    index: &Index<'_, O>,
    grid: &Option<ViewGrid<'_, '_, O>>,
    cutting: Cutting,
    piece: u32,
) -> Result<Tally, AllocError>
    requires grid { IsGridFor index.now grid.now }
    requires piece { piece < cutting.pieces }
    ensures { IfOk result (IsPieceTally (calls_of index.now) cutting.pieces piece) }
{
    let views = index.view_count();
    let from = start_of(cutting, piece, views);
    let to = start_of(cutting, piece + 1, views);
    let others = tally_without_read(index, from, to);
    match grid {
        Some(grid) => {
            let first = block_at(from, views);
            let end = block_at(to, views);
            let (read, stale) = read_faults_by_grid(alloc, grid, first, end)?;
            Ok(Tally {
                read,
                stale,
                ..others
            })
        }
        None => Ok(others),
    }
}

// The sums of the numbers that the completed views show, by call number. Few are added up on this thread. More are halved while each
// half has a share or more, so each worker of the cutting has at most one share.
fn shared_sums<R: Threads + Sync, O: Ownership + Sync>(
    rt: &R,
    alloc: Global,
    index: &Index<'_, O>,
    cutting: Cutting,
) -> Result<Vec<u64>, AllocError>
    ensures { IfOk result (λ sums. AreViewSums (calls_of index.now) sums.items) }
{
    let views = index.view_count();
    let share = (views / cutting.workers()).max(VIEWS_A_THREAD);
    if views / 2 < share {
        return view_sums(alloc, index);
    }
    (0..views)
        .into_par_iter()
        .map(
            |place: u32| -> u64
                requires { place < length (views_of (calls_of index.now)) }
                ensures { result ≡ shown_sum (view_in (calls_of index.entry.now) place) }
            { view_sum(index, place) },
        )
        .with_min_len(share as usize)
        .collect(rt, alloc)
}

// A column for each component that some completed view lists. Each worker of the cutting makes those of its part of the components.
fn view_columns<R: Threads + Sync, O: Ownership + Sync>(
    rt: &R,
    alloc: Global,
    index: &Index<'_, O>,
    cutting: Cutting,
) -> Result<Vec<Column>, AllocError>
    ensures { IfOk result (λ columns. AreColumnsOf (calls_of index.now) 0 component_count columns.items) }
{
    if index.update_limit() <= FEW_COMPONENTS {
        return columns_between(alloc, index, 0, COMPONENT_COUNT);
    }
    let parts = each_job(
        rt,
        alloc,
        part_numbers(alloc, cutting)?,
        &|part: u32| -> Result<Vec<Column>, AllocError>
            requires { part < cutting.workers }
            ensures { IfOk result (λ columns. AreColumnsOf (calls_of index.entry.now) (part_start cutting.workers part) (part_start cutting.workers (part + 1)) columns.items) }
        { columns_of_part(alloc, index, cutting, part) },
    )?;
    joined(alloc, index, cutting, parts)
}

// The numbers of the parts of the components, one for each worker.
fn part_numbers(alloc: Global, cutting: Cutting) -> Result<Vec<u32>, AllocError>
    ensures count { IfOk result (λ parts. length parts.items ≡ cutting.workers) }
    ensures each { IfOk result (λ parts. (i : ℕ) → i < cutting.workers → get_or parts.items i 0 ≡ i) }
{
    let mut parts = Vec::with_capacity(alloc, cutting.workers() as usize)?;
    for part in 0..cutting.workers() {
        parts.push(part)?;
    }
    Ok(parts)
}

// The columns of a part of the components.
fn columns_of_part<O: Ownership>(
    alloc: Global,
    index: &Index<'_, O>,
    cutting: Cutting,
    part: u32,
) -> Result<Vec<Column>, AllocError>
    requires { part < cutting.workers }
    ensures { IfOk result (λ columns. AreColumnsOf (calls_of index.now) (part_start cutting.workers part) (part_start cutting.workers (part + 1)) columns.items) }
{
    let (part, workers) = (part as usize, cutting.workers() as usize);
    let from = part * COMPONENT_COUNT / workers;
    let to = (part + 1) * COMPONENT_COUNT / workers;
    columns_between(alloc, index, from, to)
}

// The columns of all parts, in the order of their components.
fn joined<O: Ownership>(
    alloc: Global,
    index: &Index<'_, O>,
    cutting: Cutting,
    mut parts: Vec<Result<Vec<Column>, AllocError>>,
) -> Result<Vec<Column>, AllocError>
    requires count { length parts.items ≡ cutting.workers }
    requires parts { AreParts (calls_of index.now) cutting.workers parts.items }
    ensures { IfOk result (λ columns. AreColumnsOf (calls_of index.now) 0 component_count columns.items) }
{
    let mut all = Vec::new(alloc);
    while let Some(part) = parts.pop() {
        let mut columns = part?;
        columns.append(&mut all)?;
        all = columns;
    }
    Ok(all)
}

//! The tally of all views, from the workers' start to their end.
ghost use Rattle.std.specs.Prelude.{◌≡◌, ◌↔◌, [], IfOk, IfSome, IsSome};
ghost use Rattle.snap_core.specs.Calls.{calls_of, views_of};
ghost use Rattle.snap_views.specs.Chains.{IsViewChain};
ghost use Rattle.snap_theory.specs.Faults.{read_faults};
ghost use Rattle.snap_conditions.specs.Tally.{tally_of};
ghost use Rattle.snap_threads.specs.Claiming.{IsClaimOf};
ghost use Rattle.snap_pairs.specs.inside.Pieces.{IsAnswer};
ghost use Rattle.snap_pairs.specs.inside.Reads.{IsGridFor};

use crate::gather::{gather, merge_slots};
use crate::reads::grid_or_chain;
use crate::worker::{Answer, draw_all};
use snap_conditions::Tally;
use snap_core::{Gate, Ownership};
use snap_index::Index;
use snap_tally::ViewGrid;
use snap_threads::{Claim, Claims, Cutting, each_job};
use snap_views::ViewChain;
use std::alloc::{AllocError, Global};
use std::thread::Threads;

/// The tally of all completed views, for every cutting and every gate. Exactly if no two of them are a read fault, also these views
/// as a chain, along which an order can be built. The workers draw the pieces of the cutting from one counter until all are drawn.
/// A worker that has drawn a piece calls `gate.at` before it works on it. The arguments are its own number, from 0, and the number of
/// pieces that it drew before. If a worker cannot be started, the calling thread does its work under its number. The call waits
/// for the workers, and so for the gate. The error is want of memory.
pub fn tally_and_chain<R: Threads + Sync, G: Gate, O: Ownership + Sync>(
    rt: &R,
    alloc: Global,
    index: &Index<'_, O>,
    cutting: Cutting,
    gate: &G,
) -> Result<(Tally, Option<ViewChain>), AllocError>
    ensures tally { IfOk result (λ all. all.0 ≡ tally_of (calls_of index.now) (views_of (calls_of index.now))) }
    ensures chain { IfOk result (λ all. IfSome all.1 (IsViewChain (calls_of index.now))) }
    ensures found { IfOk result (λ all. IsSome all.1 ↔ (read_faults (calls_of index.now) (views_of (calls_of index.now)) ≡ [])) }
{
    let (grid, chain) = grid_or_chain(rt, alloc, index, cutting)?;
    let tally = tally_by(rt, alloc, index, &grid, cutting, gate)?;
    Ok((tally, chain))
}

/// The tally of all completed views, for every cutting and every gate, by the workers of `tally_and_chain`. It waits for the
/// workers, and so for the gate. The error is want of memory.
pub fn tally<R: Threads + Sync, G: Gate>(
    rt: &R,
    alloc: Global,
    index: &Index<'_, impl Ownership + Sync>,
    cutting: Cutting,
    gate: &G,
) -> Result<Tally, AllocError>
    ensures { IfOk result (λ all. all ≡ tally_of (calls_of index.now) (views_of (calls_of index.now))) }
{
    let (tally, _chain) = tally_and_chain(rt, alloc, index, cutting, gate)?;
    Ok(tally)
}

// The tally of all completed views, by a grid of them if they have a read fault.
fn tally_by<R: Threads + Sync, G: Gate, O: Ownership + Sync>(
    rt: &R,
    alloc: Global,
    index: &Index<'_, O>,
    reads: &Option<ViewGrid<'_, '_, O>>,
    cutting: Cutting,
    gate: &G,
) -> Result<Tally, AllocError>
    requires { IsGridFor index.now reads.now }
    ensures { IfOk result (λ all. all ≡ tally_of (calls_of index.now) (views_of (calls_of index.now))) }
{
    let (counter, claims) = Claims::start(alloc, cutting)?;
    let shared = &counter;
    let answers = each_job(
        rt,
        alloc,
        claims,
        &|claim: Claim| -> Result<Answer, AllocError>
            requires { IsGridFor index.now reads.now × (shared.now.pieces ≡ cutting.pieces) × IsClaimOf shared.now claim × (claim.drawn ≡ []) }
            ensures { IfOk result (IsAnswer (calls_of index.entry.now) shared.entry.now) }
        { draw_all(alloc, index, reads, cutting, shared, claim, gate) },
    )?;
    let (claims, slots) = gather(alloc, index, cutting, &counter, answers)?;
    let Ok(()) = counter.close(claims) else {
        unreachable!()
    };
    Ok(merge_slots(index, cutting, &slots))
}

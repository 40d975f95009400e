//! The work of one worker.
ghost use Rattle.std.specs.Prelude.{◌≡◌, [], IfOk};
ghost use Rattle.snap_core.specs.Calls.{calls_of};
ghost use Rattle.snap_threads.specs.Claiming.{IsClaimOf};
ghost use Rattle.snap_pairs.specs.inside.Pieces.{IsAnswer};
ghost use Rattle.snap_pairs.specs.inside.Reads.{IsGridFor};

use crate::reads::piece_tally;
use snap_conditions::Tally;
use snap_core::{Gate, Ownership};
use snap_index::Index;
use snap_tally::ViewGrid;
use snap_threads::{Claim, Claims, Cutting};
use std::alloc::{AllocError, Global};

/// A piece that was drawn, and its tally.
#[derive(Clone, Copy)]
pub(crate) struct Drawn {
    pub piece: u32,
    pub tally: Tally,
}

/// The claim of a worker, and the tally of each piece that it drew.
#[derive(Drop)]
pub(crate) struct Answer {
    pub claim: Claim,
    pub pairs: Vec<Drawn>,
}

// Draws pieces until none is left.
pub(crate) fn draw_all<G: Gate, O: Ownership>(
    alloc: Global,
    index: &Index<'_, O>,
    grid: &Option<ViewGrid<'_, '_, O>>,
    cutting: Cutting,
    counter: &Claims,
    mut claim: Claim,
    gate: &G,
) -> Result<Answer, AllocError>
    requires grid { IsGridFor index.now grid.now }
    requires pieces { counter.now.pieces ≡ cutting.pieces }
    requires claim { IsClaimOf counter.now claim × (claim.drawn ≡ []) }
    ensures { IfOk result (IsAnswer (calls_of index.now) counter.now) }
{
    let mut pairs = Vec::new(alloc);
    while let Some(piece) = counter.draw(&mut claim) {
        gate.at(claim.worker(), pairs.len() as u32);
        let tally = piece_tally(alloc, index, grid, cutting, piece)?;
        pairs.push(Drawn { piece, tally })?;
    }
    Ok(Answer { claim, pairs })
}

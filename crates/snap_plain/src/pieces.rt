//! Pieces of some lines.
ghost use Rattle.std.specs.Prelude.{◌≡◌, ◌≤◌, ◌⊎◌, [], All, IfOk, length};
ghost use Rattle.snap_plain.specs.Ahead.{ArePieces, IsEndOfLine, IsPieceOf};
ghost use Rattle.snap_threads.specs.declared.cutting.TheConstants.{PIECE_LIMIT};

use memchr::memchr;
use snap_threads::Cutting;
use std::alloc::{AllocError, Global};

// The least size of a piece, in bytes. Reading that many takes longer than starting a thread.
const PIECE_SIZE: usize = 65_536;

// The most pieces of a long text for each worker. More would lose more of what is known of the view before.
const PIECES_EACH: usize = 8;

// With fewer pieces, starting threads takes longer than they save.
const LEAST_PIECES: usize = 3;

/// The lines from one place to before another.
#[derive(Clone, Copy)]
pub(crate) struct Piece {
    pub(crate) from: usize,
    pub(crate) to: usize,
}

// The end of the line that has the byte at a place.
fn end_of_line(text: &[u8], place: usize) -> usize
    requires { place ≤ length text.now }
    ensures after { place ≤ result }
    ensures within { result ≤ length text.now }
    ensures ends { IsEndOfLine text.now result }
{
    match memchr(b'\n', &text[place..]) {
        Some(at) => place + at + 1,
        None => text.len(),
    }
}

/// Lines in pieces of about the same size, each of whole lines. No pieces if one thread alone reads the lines sooner.
pub(crate) fn pieces_of(
    alloc: Global,
    lines: &[u8],
    cutting: Cutting,
) -> Result<Vec<Piece>, AllocError>
    ensures within { IfOk result (λ pieces. All (IsPieceOf lines.now) pieces.items) }
    ensures all { IfOk result (λ pieces. (pieces.items ≡ []) ⊎ ArePieces lines.now 0 (length lines.now) pieces.items) }
    ensures few { IfOk result (λ pieces. length pieces.items ≤ PIECE_LIMIT) }
{
    let mut pieces = Vec::new(alloc);
    let workers = cutting.workers() as usize;
    let count = (lines.len() / PIECE_SIZE).min(workers * PIECES_EACH);
    if workers == 1 || count < LEAST_PIECES {
        return Ok(pieces);
    }
    let mut from = 0;
    for before in 0..count {
        let size = (lines.len() - from) / (count - before);
        let to = end_of_line(lines, from + size);
        pieces.push(Piece { from, to })?;
        from = to;
    }
    Ok(pieces)
}

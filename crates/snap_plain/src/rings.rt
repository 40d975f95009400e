//! What workers read ahead of some lines, and the rings through which they send it to the calling thread.
ghost use Rattle.std.specs.Prelude.{◌≡◌, ◌<◌, ◌+◌, [], All, OnOk, length};
ghost use Rattle.rtrb.specs.Ring.{known_free, known_items, received, sent};
ghost use Rattle.snap_plain.specs.Ahead.{IsAhead, IsPieceOf};
ghost use Rattle.snap_plain.specs.Sharing.{AddsPart, AreRead, IsNewJob, TakesOut};
ghost use Rattle.snap_threads.specs.Claiming.{IsClaimOf, IsFinished, pieces_of};

use crate::ahead::{Ahead, read_piece};
use crate::pieces::Piece;
use rtrb::{Consumer, Producer, Protocol};
use snap_core::Limit;
use snap_threads::{Claim, Claims};
use std::alloc::{AllocError, Global};
use std::marker::{Brand, PhantomData};

/// Some lines, which are known to proofs alone.
pub(crate) trait Text {
    ghost use Rattle.std.specs.Prelude.{List, ℕ};

    ghost lines: { List ℕ };
}

impl Text for Brand {
    ghost use Rattle.std.specs.Prelude.{[]};

    ghost lines = { [] };
}

/// The protocol of a ring: what goes through it was read ahead, from the lines of a text.
pub(crate) struct AheadOf<T: Text>(PhantomData<T>);

impl<T: Text> Protocol<Ahead> for AheadOf<T> {
    ghost use Rattle.snap_plain.specs.Ahead.{IsAhead};

    ghost allows = { λ before ahead. IsAhead T.lines ahead };
}

/// The end of a ring into which a worker puts what it has read.
pub(crate) type Inlet<T> = Producer<Ahead, Global, AheadOf<T>>;

/// The end of a ring out of which the calling thread takes what a worker has read.
pub(crate) type Outlet<T> = Consumer<Ahead, Global, AheadOf<T>>;

/// What a worker has: its claim on pieces, and the inlet of its ring.
#[derive(Drop)]
pub(crate) struct Job<T: Text> {
    pub(crate) claim: Claim,
    pub(crate) inlet: Inlet<T>,
}

// Reads a piece, and sends what it has read.
fn send_piece<T: Text>(
    alloc: Global,
    lines: &[u8],
    piece: Piece,
    limit: Limit,
    inlet: &mut Inlet<T>,
)
    requires text { lines.now ≡ T.lines }
    requires piece { IsPieceOf lines.now piece }
    requires room { 0 < known_free inlet.old }
    ensures sent { AddsPart lines.now limit piece (sent inlet.old) (sent inlet.new) }
    ensures room { known_free inlet.old ≡ known_free inlet.new + 1 }
{
    inlet.push_reserved(read_piece(alloc, lines, piece, limit));
}

/// Draws pieces until none is left, and sends what it reads of each.
pub(crate) fn send_drawn<T: Text>(
    alloc: Global,
    lines: &[u8],
    pieces: &[Piece],
    counter: &Claims,
    limit: Limit,
    job: Job<T>,
) -> Job<T>
    requires text { lines.now ≡ T.lines }
    requires pieces { All (IsPieceOf lines.now) pieces.now }
    requires counter { counter.now.pieces ≡ length pieces.now }
    requires job { IsNewJob counter.now job }
    ensures of_counter { IsClaimOf counter.now result.claim }
    ensures finished { IsFinished result.claim }
    ensures sent { AreRead lines.now limit pieces.now (pieces_of result.claim) (sent result.inlet) }
{
    let Job {
        mut claim,
        mut inlet,
    } = job;
    while let Some(piece) = counter.draw(&mut claim) {
        send_piece(alloc, lines, pieces[piece as usize], limit, &mut inlet);
    }
    Job { claim, inlet }
}

/// Takes out of each ring what is there, and adds it to what waits. The error is want of memory.
pub(crate) fn receive<T: Text>(
    outlets: &mut [Outlet<T>],
    waiting: &mut Vec<Ahead>,
) -> Result<(), AllocError>
    requires { All (IsAhead T.lines) waiting.old.items }
    ensures ahead { All (IsAhead T.lines) waiting.new.items }
    ensures emptied { OnOk result (All (λ outlet. known_items outlet ≡ []) outlets.new) }
{
    for ring in 0..outlets.len() {
        receive_from(&mut outlets[ring], waiting)?;
    }
    Ok(())
}

// Takes out of a ring what is there.
fn receive_from<T: Text>(outlet: &mut Outlet<T>, waiting: &mut Vec<Ahead>) -> Result<(), AllocError>
    requires { All (IsAhead T.lines) waiting.old.items }
    ensures ahead { All (IsAhead T.lines) waiting.new.items }
    ensures taken { OnOk result (TakesOut (received outlet.old) (received outlet.new) waiting.old.items waiting.new.items) }
    ensures emptied { OnOk result (known_items outlet.new ≡ []) }
{
    let known = outlet.slots();
    'each: for _ in 0..known {
        waiting.push(outlet.pop_known())?;
    }
    Ok(())
}

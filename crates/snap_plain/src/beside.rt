//! Histories of long texts: workers read pieces of the lines ahead, while the calling thread takes the lines in order.
ghost use Rattle.std.specs.Prelude.{◌≡◌, ◌<◌, ◌≤◌, ◌∷◌, List, true, All, IfOk, OnOk, length};
ghost use Rattle.snap_format.specs.Layout.{is_header_row};
ghost use Rattle.snap_plain.specs.Ahead.{IsAhead, IsPieceOf};
ghost use Rattle.snap_plain.specs.Lines.{HasLines, HasRows};
ghost use Rattle.snap_plain.specs.Sharing.{IsDone, IsNewClaim, IsNewJob};
ghost use Rattle.snap_plain.specs.Turns.{HasTaken, TakesTurns};
ghost use Rattle.snap_format.specs.Taking.{AnswersNumbered};
ghost use Rattle.snap_text.specs.Fields.{Fields};
ghost use Rattle.snap_threads.specs.Claiming.{IsClaimOf, IsFinished};
ghost use Rattle.snap_threads.specs.declared.cutting.TheConstants.{PIECE_LIMIT};

use crate::ahead::{Ahead, event_first, read_piece, take_ahead};
use crate::lines::{Lines, history_of_lines, rest_history, take_lines};
use crate::pieces::{Piece, pieces_of};
use crate::rings::{AheadOf, Job, Outlet, Text, receive, send_drawn};
use rtrb::RingBuffer;
use snap_core::{AnyWriters, History, Limit};
use snap_format::ReadRefusal;
use snap_text::Known;
use snap_threads::{Claim, Claims, Cutting, each_job_beside};
use std::alloc::{AllocError, Global};
use std::marker::Brand;
use std::thread::Threads;

// A history that takes lines in order, the lines that it has not taken, and the parts that were read ahead and not yet taken.
#[derive(Drop)]
struct Turns<'t> {
    history: History<AnyWriters>,
    behind: &'t [u8],
    waiting: Vec<Ahead>,
}

/// The history of the lines of a plain text, as `history_of_lines` gives it. The workers of a cutting share the reading of a long text
/// without stamps.
pub fn history_of_lines_shared<R: Threads + Sync>(
    rt: &R,
    alloc: Global,
    lines: Lines<'_>,
    limit: Limit,
    cutting: Cutting,
) -> Result<(History<AnyWriters>, Option<Vec<u32>>), ReadRefusal>
    ensures { (rows : List Fields) → HasLines rows lines.entry → AnswersNumbered limit rows result }
{
    let Lines::Bare(bare) = lines else {
        return history_of_lines(alloc, lines, limit);
    };
    let pieces = pieces_of(alloc, bare, cutting)?;
    if pieces.is_empty() || !begins_with_event(alloc, bare) {
        return history_of_lines(alloc, lines, limit);
    }
    let shares = cutting_into(&pieces, cutting);
    shared_history::<Brand, R>(rt, alloc, bare, &pieces, limit, shares)
}

// Whether the first line has no fault by itself. If it has one, no thread need start.
fn begins_with_event(alloc: Global, lines: &[u8]) -> bool {
    matches!(
        event_first(alloc, &mut Known::new(alloc), lines),
        Ok(Some(_))
    )
}

// The cutting into these pieces: no more workers than there are pieces.
fn cutting_into(pieces: &[Piece], most: Cutting) -> Cutting
    requires some { 0 < length pieces.now }
    requires few { length pieces.now ≤ PIECE_LIMIT }
    ensures { result.pieces ≡ length pieces.now }
{
    let count = pieces.len() as u32;
    let Ok(cutting) = Cutting::new(count, most.workers().min(count)) else {
        unreachable!()
    };
    cutting
}

// The history of lines in pieces, which the workers of a cutting read.
fn shared_history<T: Text + Send + Sync, R: Threads + Sync>(
    rt: &R,
    alloc: Global,
    lines: &[u8],
    pieces: &[Piece],
    limit: Limit,
    cutting: Cutting,
) -> Result<(History<AnyWriters>, Option<Vec<u32>>), ReadRefusal>
    requires text { lines.now ≡ T.lines }
    requires pieces { All (IsPieceOf lines.now) pieces.now }
    requires cutting { cutting.pieces ≡ length pieces.now }
    ensures { (head : Fields) (later : List Fields) → is_header_row head ≡ true → HasRows lines.now later → AnswersNumbered limit (head ∷ later) result }
{
    let (counter, jobs, outlets, own) = start::<T>(alloc, cutting)?;
    let shared = &counter;
    // the calling thread is a worker too
    let (done, taken) = each_job_beside(
        rt,
        alloc,
        jobs,
        &|job: Job<T>| -> Job<T>
            requires { (lines.now ≡ T.lines) × All (IsPieceOf lines.now) pieces.now × (shared.now.pieces ≡ length pieces.now) × IsNewJob shared.now job }
            ensures { IsDone lines.entry.now limit pieces.entry.now shared.entry.now result }
        { send_drawn(alloc, lines, pieces, shared, limit, job) },
        || -> Result<(Turns, Vec<Outlet<T>>), ReadRefusal>
            requires { (lines.now ≡ T.lines) × All (IsPieceOf lines.now) pieces.now × (shared.now.pieces ≡ length pieces.now) × IsNewClaim shared.now own }
            ensures { TakesTurns (λ turns. turns.0) limit lines.entry.now result }
        { take_turns(alloc, lines, pieces, shared, limit, own, outlets) },
    );
    done?;
    let (turns, outlets) = taken?;
    last_history(alloc, lines, limit, turns, outlets)
}

// The history of lines, once the workers have sent everything that they read of them.
fn last_history<T: Text>(
    alloc: Global,
    lines: &[u8],
    limit: Limit,
    turns: Turns<'_>,
    mut outlets: Vec<Outlet<T>>,
) -> Result<(History<AnyWriters>, Option<Vec<u32>>), ReadRefusal>
    requires text { lines.now ≡ T.lines }
    requires limit { turns.history.limit ≡ limit }
    requires waiting { All (IsAhead lines.now) turns.waiting.items }
    ensures { (rows : List Fields) → HasTaken limit lines.now turns.entry.behind.now turns.entry.history.events rows → AnswersNumbered limit rows result }
{
    let Turns {
        mut history,
        behind,
        mut waiting,
    } = turns;
    receive(&mut outlets, &mut waiting)?;
    let rest = take_ahead(lines, behind, &mut waiting, &mut history)?;
    rest_history(alloc, rest, limit, history)
}

// A job for each claim, and the outlets of their rings. Each ring has room for all pieces.
fn jobs_for<T: Text>(
    alloc: Global,
    counter: &Claims,
    room: usize,
    mut claims: Vec<Claim>,
) -> Result<(Vec<Job<T>>, Vec<Outlet<T>>), AllocError>
    requires room { room ≡ counter.now.pieces }
    requires claims { All (IsNewClaim counter.now) claims.items }
    ensures { IfOk result (λ r. All (IsNewJob counter.now) r.0.items) }
{
    let mut jobs = Vec::new(alloc);
    let mut outlets = Vec::new(alloc);
    'each: while let Some(claim) = claims.pop() {
        let (inlet, outlet) = RingBuffer::with_protocol::<Global, AheadOf<T>>(alloc, room)?;
        jobs.push(Job { claim, inlet })?;
        outlets.push(outlet)?;
    }
    Ok((jobs, outlets))
}

// A counter of pieces, the job of each worker but the calling thread, the outlets of their rings, and the claim of the calling thread.
fn start<T: Text>(
    alloc: Global,
    cutting: Cutting,
) -> Result<(Claims, Vec<Job<T>>, Vec<Outlet<T>>, Claim), AllocError>
    ensures counter { IfOk result (λ r. r.0.pieces ≡ cutting.pieces) }
    ensures jobs { IfOk result (λ r. All (IsNewJob r.0) r.1.items) }
    ensures own { IfOk result (λ r. IsNewClaim r.0 r.3) }
{
    let (counter, mut claims) = Claims::start(alloc, cutting)?;
    let Some(own) = claims.pop() else {
        unreachable!()
    };
    let (jobs, outlets) = jobs_for::<T>(alloc, &counter, cutting.pieces() as usize, claims)?;
    Ok((counter, jobs, outlets, own))
}

// A history that takes lines in order until all pieces are drawn: what workers have sent of them, or what it reads itself. While the
// next ones are still being read, it reads a later piece ahead. The first fault ends it earlier.
fn take_drawn<'t, T: Text>(
    alloc: Global,
    lines: &'t [u8],
    pieces: &[Piece],
    counter: &Claims,
    limit: Limit,
    claim: &mut Claim,
    outlets: &mut [Outlet<T>],
) -> Result<Turns<'t>, ReadRefusal>
    requires text { lines.now ≡ T.lines }
    requires pieces { All (IsPieceOf lines.now) pieces.now }
    requires counter { counter.now.pieces ≡ length pieces.now }
    requires claim { IsClaimOf counter.now claim.old }
    ensures takes { TakesTurns (λ turns. turns) limit lines.now result }
    ensures of_counter { IsClaimOf counter.now claim.new }
    ensures finished { OnOk result (IsFinished claim.new) }
{
    let mut known = Known::new(alloc);
    let mut history = History::of_any(alloc, limit);
    let mut waiting = Vec::new(alloc);
    let mut behind = lines;
    'each: while let Some(number) = counter.draw(claim) {
        receive(outlets, &mut waiting)?;
        behind = take_ahead(lines, behind, &mut waiting, &mut history)?;
        let piece = pieces[number as usize];
        if lines.len() - piece.from == behind.len() {
            let stop = lines.len() - piece.to;
            behind = take_lines(alloc, &mut known, behind, stop, limit, &mut history)?;
        } else {
            waiting.push(read_piece(alloc, lines, piece, limit))?;
        }
    }
    Ok(Turns {
        history,
        behind,
        waiting,
    })
}

// Draws the pieces that are left, so that none is read.
fn draw_rest(counter: &Claims, claim: &mut Claim)
    requires { IsClaimOf counter.now claim.old }
    ensures { IsFinished claim.new }
{
    'each: while counter.draw(claim).is_some() {}
}

// A history that has taken lines in order until all pieces were drawn, or the first fault. Either way no piece is left to draw.
fn take_turns<'t, T: Text>(
    alloc: Global,
    lines: &'t [u8],
    pieces: &[Piece],
    counter: &Claims,
    limit: Limit,
    mut claim: Claim,
    mut outlets: Vec<Outlet<T>>,
) -> Result<(Turns<'t>, Vec<Outlet<T>>), ReadRefusal>
    requires text { lines.now ≡ T.lines }
    requires pieces { All (IsPieceOf lines.now) pieces.now }
    requires counter { counter.now.pieces ≡ length pieces.now }
    requires claim { IsNewClaim counter.now claim }
    ensures { TakesTurns (λ turns. turns.0) limit lines.now result }
{
    match take_drawn(
        alloc,
        lines,
        pieces,
        counter,
        limit,
        &mut claim,
        &mut outlets,
    ) {
        Ok(turns) => Ok((turns, outlets)),
        Err(refusal) => {
            draw_rest(counter, &mut claim);
            Err(refusal)
        }
    }
}

#[cfg(test)]
mod tests {
    use super::*;
    use crate::ahead::Stop;
    use std::test::Fail;

    // The lines of views of process 0, each begun and ended.
    fn lines_of_views(alloc: Global, count: u32) -> Result<Vec<u8>, AllocError> {
        let mut lines = Vec::new(alloc);
        for _ in 0..count {
            lines.extend_from_slice(b"begin,0,view,\nend,0,view,\n")?;
        }
        Ok(lines)
    }

    // What a worker alone sends of some lines in pieces.
    fn sent_alone<T: Text>(
        alloc: Global,
        lines: &[u8],
        pieces: &[Piece],
        cutting: Cutting,
    ) -> Result<Vec<Ahead>, AllocError>
        requires text { lines.now ≡ T.lines }
        requires pieces { All (IsPieceOf lines.now) pieces.now }
        requires cutting { cutting.pieces ≡ length pieces.now }
    {
        let (counter, mut jobs, mut outlets, _own) = start::<T>(alloc, cutting)?;
        let mut received = Vec::new(alloc);
        let Some(job) = jobs.pop() else {
            return Ok(received);
        };
        send_drawn(alloc, lines, pieces, &counter, Limit::usual(), job);
        receive(&mut outlets, &mut received)?;
        Ok(received)
    }

    #[test]
    fn a_worker_alone_reads_each_piece_to_its_end(rt: HostRuntime) -> Result<(), Fail> {
        let alloc = rt.alloc();
        let lines = lines_of_views(alloc, 20_000)?;
        let pieces = pieces_of(alloc, &lines, Cutting::usual())?;
        assert!(rt; pieces.len() == 7);
        let cutting = cutting_into(&pieces, Cutting::usual());
        let received = sent_alone::<Brand>(alloc, &lines, &pieces, cutting)?;
        assert!(rt; received.len() == 7);
        let mut events = 0usize;
        for (ahead, piece) in received.iter().zip(&pieces) {
            assert!(rt;
                ahead.from == piece.from && ahead.to == piece.to && ahead.stop == Stop::End
            );
            events = events.saturating_add(ahead.events.len());
        }
        assert_eq!(rt; events, 40_000);
        Ok(())
    }
}

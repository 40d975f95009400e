//! Claims, by which workers draw each piece once.
ghost use Rattle.std.specs.Prelude.{◌≡◌, ℕ, ◌+◌, ◌<◌, ◌≤◌, ◌↔◌, ◌++◌, ◌∷◌, [], length, All, Any, IfErr, IfNone, IfOk, IfSome, IsNone, IsOk, IsTrue, OnOk, OnSome, IsSome};
ghost use Rattle.snap_threads.specs.Claiming.{AreDrawnOnce, IsClaimOf, IsFinished, new_claims, pieces_of, with_number};

use crate::counter::{Collect, Deal, Draw, Draws, Hand};
use crate::cutting::Cutting;
use atomic_table::{Seat, Table};
use std::alloc::{AllocError, Global};
use std::marker::Model;

/// The counter from which the workers draw their pieces.
#[derive(Drop)]
pub struct Claims {
    table: Table<(), Hand, Cutting, Draws, Global>,
    cutting: Cutting,
}

impl Model for Claims {
    ghost use Rattle.snap_threads.specs.Claiming.{CounterView};

    ghost Value = { CounterView };

    ghost use Rattle.snap_threads.specs.Counters.{counter_view};
    ghost use Rattle.snap_threads.specs.inside.Counters.{IsCounter};

    ghost view = { counter_view };

    ghost invariant = { IsCounter };
}

/// The right of one worker to draw pieces. It is finished once it drew a number that is not a piece.
#[derive(Drop)]
pub struct Claim {
    seat: Seat<(), Hand>,
    cutting: Cutting,
    worker: u32,
    finished: bool,
}

impl Model for Claim {
    ghost use Rattle.snap_threads.specs.Claiming.{ClaimView};

    ghost Value = { ClaimView };

    ghost use Rattle.snap_threads.specs.Counters.{claim_view};
    ghost use Rattle.snap_threads.specs.inside.Counters.{IsClaim};

    ghost view = { claim_view };

    ghost invariant = { IsClaim };
}

impl Claim {
    /// Whether all pieces were drawn when this claim drew last.
    pub fn finished(&self) -> bool
        ensures { IsTrue result ↔ IsFinished self.now }
    {
        self.finished
    }

    /// The worker that the claim was made for, from 0.
    pub fn worker(&self) -> u32
        ensures { result ≡ self.now.worker }
    {
        self.worker
    }
}

impl Claims {
    /// A counter of pieces, and a claim for each worker. Nothing is drawn yet.
    pub fn start(alloc: Global, cutting: Cutting) -> Result<(Claims, Vec<Claim>), AllocError>
        ensures counter { IfOk result (λ r. (r.0.pieces ≡ cutting.pieces) × (r.0.workers ≡ cutting.workers)) }
        ensures claims { IfOk result (λ r. r.1.items ≡ new_claims r.0) }
        ensures of_start { IfOk result (λ r. All (IsClaimOf r.0) r.1.items) }
    {
        let mut claims = Vec::with_capacity(alloc, cutting.workers() as usize)?;
        let (table, mut rest) = Table::of_words(alloc, &[0], &cutting)?;
        for worker in 0..cutting.workers() {
            let seat = table.shared.split_seat::<Deal>(&mut rest);
            claims.push(Claim {
                seat,
                cutting,
                worker,
                finished: false,
            })?;
        }
        Ok((Claims { table, cutting }, claims))
    }

    /// The next piece, or `None` if all are drawn. A claim that answered `None` is finished: it draws no more and answers `None` from
    /// then on. The call returns without `Wait`, however other threads run.
    pub fn draw(&self, claim: &mut Claim) -> Option<u32>
        requires { IsClaimOf self.now claim.old }
        ensures finished { IsFinished claim.old → IsNone result × (claim.new ≡ claim.old) }
        ensures added { ¬ IsFinished claim.old → (n : ℕ) × (claim.new ≡ with_number claim.old n) × (IsSome result ↔ (n < self.now.pieces)) }
        ensures piece { IfSome result (λ piece. (piece < self.now.pieces) × (claim.new ≡ with_number claim.old piece)) }
        ensures none { IfNone result (IsFinished claim.new × (pieces_of claim.new ≡ pieces_of claim.old)) }
        ensures few { OnSome result (length claim.new.drawn ≤ self.now.pieces) }
        ensures same { IsClaimOf self.now claim.new × (claim.new.worker ≡ claim.old.worker) }
    {
        if claim.finished {
            return None;
        }
        let found = self.table.shared.fetch_add::<Draw>(&mut claim.seat, 0, 1);
        if found < u64::from(self.cutting.pieces()) {
            Some(found as u32)
        } else {
            claim.finished = true;
            None
        }
    }

    /// Ends the counter if all claims of the start are there and one of them is finished: then each piece was drawn once. Each claim
    /// is made once, so all are there if there are as many as workers. Otherwise the counter and the claims come back unchanged.
    pub fn close(self, claims: Vec<Claim>) -> Result<(), (Claims, Vec<Claim>)>
        requires { All (IsClaimOf self) claims.items }
        ensures exact { IsOk result ↔ ((length claims.items ≡ self.workers) × Any IsFinished claims.items) }
        ensures drawn { OnOk result (AreDrawnOnce self.pieces claims.items) }
        ensures back { IfErr result (λ r. (r.0 ≡ self) × (r.1 ≡ claims)) }
    {
        if claims.len() != self.cutting.workers() as usize {
            return Err((self, claims));
        }
        if !has_finished(&claims) {
            return Err((self, claims));
        }
        let Claims { table, cutting: _ } = self;
        join_all(table, claims);
        Ok(())
    }
}

fn has_finished(claims: &[Claim]) -> bool
    ensures { IsTrue result ↔ Any IsFinished claims.now }
{
    claims.iter().any(|claim| claim.finished())
}

// Puts the lists of all claims together, so that the rule speaks of the whole counter.
fn join_all(table: Table<(), Hand, Cutting, Draws, Global>, mut claims: Vec<Claim>)
    requires table { (table.shared.table_id.words ≡ 1) × (table.shared.table_id.slots ≡ 0) }
    requires claims { All (λ claim. (claim.table ≡ table.shared.table_id) × (claim.pieces ≡ table.shared.key.pieces)) claims.items }
    requires all { length claims.items ≡ table.shared.key.workers }
    requires finished { Any IsFinished claims.items }
    ensures { AreDrawnOnce table.shared.key.pieces claims.items }
{
    let Some(first) = claims.pop() else {
        unreachable!()
    };
    let mut all = seat_of(first);
    while let Some(claim) = claims.pop() {
        table.shared.join_seat::<Collect>(&mut all, seat_of(claim));
    }
    table.close_with(all).free();
}

// The seat of a claim, which has the list of that claim alone.
fn seat_of(claim: Claim) -> Seat<(), Hand>
    ensures table { result.table_id ≡ claim.table }
    ensures list { result.me ≡ (claim.drawn ∷ [], []) }
{
    let Claim {
        seat,
        cutting: _,
        worker: _,
        finished: _,
    } = claim;
    seat
}

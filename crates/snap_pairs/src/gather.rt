//! What the workers answered, put in order of pieces.
ghost use Rattle.std.specs.Prelude.{◌≡◌, ◌<◌, ℕ, length, All, IfOk, IsTrue, vec_len};
ghost use Rattle.snap_core.specs.Calls.{calls_of, views_of};
ghost use Rattle.snap_conditions.specs.Tally.{tally_of};
ghost use Rattle.snap_threads.specs.Claiming.{IsClaimOf, IsFinished, pieces_of};
ghost use Rattle.snap_pairs.specs.inside.Pieces.{AreAnswers, AreTallied, FitSlots, IsFull};

use crate::worker::{Answer, Drawn};
use snap_conditions::{Tally, merge};
use snap_core::Ownership;
use snap_index::Index;
use snap_threads::{Claim, Claims, Cutting};
use std::alloc::{AllocError, Global};

// Puts each tally into the slot of its piece.
fn put_tallies<O: Ownership>(
    index: &Index<'_, O>,
    cutting: Cutting,
    slots: &mut [Option<Tally>],
    pairs: &[Drawn],
)
    requires slots { FitSlots (calls_of index.now) cutting.pieces slots.old }
    requires pairs { AreTallied (calls_of index.now) cutting.pieces pairs.now }
    ensures fit { FitSlots (calls_of index.now) cutting.pieces slots.new }
    ensures kept { (p : ℕ) → IsFull slots.old p → IsFull slots.new p }
    ensures full { All (λ pair. IsFull slots.new pair.piece) pairs.now }
{
    for pair in pairs {
        let drawn = *pair;
        slots[drawn.piece as usize] = Some(drawn.tally);
    }
}

// The claims of all answers, and the tally of each piece that they drew in its slot.
pub(crate) fn gather<O: Ownership>(
    alloc: Global,
    index: &Index<'_, O>,
    cutting: Cutting,
    counter: &Claims,
    mut answers: Vec<Result<Answer, AllocError>>,
) -> Result<(Vec<Claim>, Vec<Option<Tally>>), AllocError>
    requires pieces { counter.now.pieces ≡ cutting.pieces }
    requires answers { AreAnswers (calls_of index.now) counter.now answers.items }
    ensures count { IfOk result (λ r. length r.0.items ≡ vec_len answers) }
    ensures claims { IfOk result (λ r. All (IsClaimOf counter.now) r.0.items × All IsFinished r.0.items) }
    ensures slots { IfOk result (λ r. FitSlots (calls_of index.now) cutting.pieces r.1.items) }
    ensures full { IfOk result (λ r. All (λ claim. All (IsFull r.1.items) (pieces_of claim)) r.0.items) }
{
    let mut claims = Vec::new(alloc);
    let mut slots = Vec::from_elem(alloc, None, cutting.pieces() as usize)?;
    while let Some(answer) = answers.pop() {
        let Answer { claim, pairs } = answer?;
        put_tallies(index, cutting, slots.as_mut_slice(), pairs.as_slice());
        claims.push(claim)?;
    }
    Ok((claims, slots))
}

// The tally of all views, from the tallies of all pieces in their order.
pub(crate) fn merge_slots<O: Ownership>(
    index: &Index<'_, O>,
    cutting: Cutting,
    slots: &[Option<Tally>],
) -> Tally
    requires fit { FitSlots (calls_of index.now) cutting.pieces slots.now }
    requires full { (p : ℕ) → p < cutting.pieces → IsFull slots.now p }
    ensures { result ≡ tally_of (calls_of index.now) (views_of (calls_of index.now)) }
{
    let _events = index.event_count();
    let mut all = Tally::none();
    for slot in slots {
        let Some(tally) = slot else { unreachable!() };
        all = merge(all, *tally);
    }
    all
}

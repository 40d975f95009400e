//! The masks of a block's numbers in one column, by their ranks.
ghost use Rattle.std.specs.Prelude.{◌≡◌, ◌≤◌, ◌<◌, ◌+◌, ℕ, length, get_or, nat_lt, IfOk, IsTrue};
ghost use Rattle.std.specs.List.Sorted.{IsStrictlyIncreasing};
ghost use Rattle.snap_masks.specs.Masks.{mask_by};
ghost use Rattle.snap_masks.specs.Ranks.{AreDistinct, AreRanks, IsRank};
ghost use Rattle.snap_masks.specs.Limits.{row_limit};

use crate::bounds::Bounds;
use crate::facing::MasksAround;
use crate::mask::Mask;
use crate::masks::{empty_masks, fill};
use std::alloc::{AllocError, Global};
use std::marker::Model;

/// The different numbers among some, in rising order.
pub fn distinct_of(alloc: Global, numbers: &[u32]) -> Result<Vec<u32>, AllocError>
    ensures { IfOk result (λ distinct. AreDistinct numbers.now distinct.items) }
{
    let mut distinct = numbers.to_vec(alloc)?;
    distinct.sort_unstable();
    distinct.dedup();
    Ok(distinct)
}

// The number of distinct numbers below x.
fn rank_of(distinct: &[u32], x: u32) -> usize
    requires { IsStrictlyIncreasing distinct.now }
    ensures { IsRank distinct.now x result }
{
    distinct.partition_point(|number| *number < x)
}

// The number of distinct numbers that are at most x. `rank` of them are below x.
#[inline]
fn rank_behind(distinct: &[u32], x: u32, rank: usize) -> usize
    requires order { IsStrictlyIncreasing distinct.now }
    requires rank { IsRank distinct.now x rank }
    ensures { IsRank distinct.now (x + 1) result }
{
    if rank < distinct.len() && distinct[rank] == x {
        rank + 1
    } else {
        rank
    }
}

/// The rank of each number among the distinct ones.
pub fn ranks_of(alloc: Global, numbers: &[u32], distinct: &[u32]) -> Result<Vec<u32>, AllocError>
    requires few { length distinct.now ≤ row_limit }
    requires order { IsStrictlyIncreasing distinct.now }
    ensures { IfOk result (λ ranks. AreRanks numbers.now distinct.now ranks.items) }
{
    let mut ranks = Vec::with_capacity(alloc, numbers.len())?;
    for i in 0..numbers.len() {
        ranks.push(rank_of(distinct, numbers[i]) as u32)?;
    }
    Ok(ranks)
}

// The masks of the numbers below each rank, and of all. `count` of the numbers are different.
fn masks_of(alloc: Global, ranks: &[u32], count: usize) -> Result<Vec<Mask>, AllocError>
    requires few { length ranks.now ≤ 512 }
    requires few_ranks { count ≤ 512 }
    requires within { (i : ℕ) → i < length ranks.now → get_or ranks.now i 0 < count }
    ensures count { IfOk result (λ masks. length masks.items ≡ count + 1) }
    ensures tabled { IfOk result (λ masks. (rank : ℕ) → rank < count + 1 → get_or masks.items rank 0 ≡ mask_by (λ n. nat_lt n rank) ranks.now) }
{
    let mut masks = empty_masks(alloc, count + 1)?;
    fill(&mut masks, ranks, 0);
    Ok(masks)
}

// Whether `rank` of some distinct numbers are below x.
#[inline]
fn is_rank(distinct: &[u32], x: u32, rank: usize) -> bool
    requires { IsStrictlyIncreasing distinct.now }
    ensures { IsTrue result → IsRank distinct.now x rank }
{
    if rank > distinct.len() {
        return false;
    }
    if rank > 0 && distinct[rank - 1] >= x {
        return false;
    }
    if rank < distinct.len() && distinct[rank] < x {
        return false;
    }
    true
}

// The number of distinct numbers below x. No search is needed if that is the guess, or one more.
#[inline]
fn rank_by(distinct: &[u32], x: u32, guess: usize) -> usize
    requires { IsStrictlyIncreasing distinct.now }
    ensures { IsRank distinct.now x result }
{
    if is_rank(distinct, x, guess) {
        return guess;
    }
    let next = guess.saturating_add(1);
    if is_rank(distinct, x, next) {
        return next;
    }
    rank_of(distinct, x)
}

// The number of parts of the ranks of a column, two to the 12th: the guesses of so few parts stay in fast memory.
const PARTS: usize = 4096;

const PART_BITS: u32 = 12;

// The number of bits by which the ranks of a column are shifted to a part. `greatest` is the greatest rank.
fn shift_for(greatest: u32) -> u32 {
    (u32::BITS - greatest.leading_zeros()).saturating_sub(PART_BITS)
}

// For each part, the number of different numbers with a rank in an earlier part. Each number has its rank in the whole column, in
// `places`, and its rank among the `count` different numbers, in `ranks`.
fn guesses_of(
    alloc: Global,
    places: &[u32],
    ranks: &[u32],
    count: usize,
    shift: u32,
) -> Result<Vec<u16>, AllocError> {
    if places.is_empty() {
        return Ok(Vec::new(alloc));
    }
    let all = u16::try_from(count).unwrap_or(u16::MAX);
    let mut guesses = vec![in alloc; all; PARTS]?;
    for (place, rank) in places.iter().zip(ranks) {
        if let Some(guess) = guesses.get_mut(place.wrapping_shr(shift) as usize) {
            *guess = (*guess).min(u16::try_from(*rank).unwrap_or(all));
        }
    }
    let mut least = all;
    for guess in guesses.iter_mut().rev() {
        least = least.min(*guess);
        *guess = least;
    }
    Ok(guesses)
}

// Up to 512 numbers of any spread, kept so that the masks of those below another number are found fast.
#[derive(Drop)]
pub(crate) struct Ranked<'c> {
    numbers: &'c [u32],
    // the different numbers, in rising order
    distinct: Vec<u32>,
    // for each part of the ranks in the whole column, about how many of the distinct numbers are below; each guess is tested before
    // it is used
    guesses: Vec<u16>,
    // the number of bits by which a rank in the whole column is shifted to its part
    shift: u32,
    // the masks of the numbers below each rank, and of all
    under: Vec<Mask>,
}

impl<'c> Model for Ranked<'c> {
    ghost use Rattle.std.specs.Prelude.{ℕ, List};
    ghost use Rattle.snap_masks.specs.inside.Ranked.{IsRanked};

    ghost Value = { List ℕ };

    ghost view = { λ r. r.numbers.now };

    ghost invariant = { λ r. IsRanked r.numbers.now r.distinct.items r.under.items };
}

impl<'c> Ranked<'c> {
    // Some numbers by their ranks. If `places` has their ranks in the column, comparing with numbers whose ranks in it are known is
    // fast.
    pub(crate) fn of(
        alloc: Global,
        numbers: &'c [u32],
        places: &[u32],
    ) -> Result<Ranked<'c>, AllocError>
        requires { length numbers.now ≤ 512 }
        ensures { IfOk result (λ ranked. ranked ≡ numbers.now) }
    {
        let distinct = distinct_of(alloc, numbers)?;
        let ranks = ranks_of(alloc, numbers, &distinct)?;
        let under = masks_of(alloc, &ranks, distinct.len())?;
        let shift = shift_for(Bounds::of(places).greatest);
        let guesses = guesses_of(alloc, places, &ranks, distinct.len(), shift)?;
        Ok(Ranked {
            numbers,
            distinct,
            guesses,
            shift,
            under,
        })
    }

    // About how many of the distinct numbers are below a number, by its rank in the column.
    #[inline]
    pub(crate) fn guess(&self, place: u32) -> usize {
        match self.guesses.get(place.wrapping_shr(self.shift) as usize) {
            Some(guess) => usize::from(*guess),
            None => self.distinct.len(),
        }
    }

    // The masks around x. They are found fast if about `guess` distinct numbers are below x. They are neighbours, or one and the
    // same if none of the numbers is x.
    #[inline]
    pub(crate) fn around(&self, x: u32, guess: usize) -> MasksAround<'_>
        ensures below { result.below.now ≡ mask_by (λ n. nat_lt n x) self.now }
        ensures at_most { result.at_most.now ≡ mask_by (λ n. nat_lt n (x + 1)) self.now }
    {
        let rank = rank_by(&self.distinct, x, guess);
        let behind = rank_behind(&self.distinct, x, rank);
        MasksAround {
            below: &self.under[rank],
            at_most: &self.under[behind],
        }
    }
}

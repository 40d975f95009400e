//! Callers of the calls of snap_index, snap_conditions, snap_pairs and snap_order.
ghost use Rattle.std.specs.Prelude.{◌<◌, ◌≤◌, length, All};
ghost use Rattle.snap_core.specs.Calls.{calls_of, views_of};
ghost use Rattle.snap_conditions.specs.Tally.{SumsFit};
ghost use Rattle.snap_threads.specs.Claiming.{IsClaimOf};
ghost use Rattle.snap_theory.specs.Faults.{HasNoFault};
ghost use Rattle.snap_views.specs.Chains.{AreViewSums};

use snap_conditions::{Part, Tally};
use snap_core::{Gate, History, View};
use snap_index::{Call, Index};
use snap_pairs::{Claim, Claims, Cutting, CuttingRefusal};
use std::alloc::{AllocError, Global};
use std::thread::Threads;

fn index_build<'h>(alloc: Global, history: &'h History) -> Result<Index<'h>, AllocError> {
    Index::build(alloc, history)
}

fn index_event_count(index: &Index<'_>) -> u32 {
    index.event_count()
}

fn index_call_count(index: &Index<'_>) -> u32 {
    index.call_count()
}

fn index_pending_count(index: &Index<'_>) -> u32 {
    index.pending_count()
}

fn index_view_count(index: &Index<'_>) -> u32 {
    index.view_count()
}

fn index_call<'i>(index: &'i Index<'_>, c: u32) -> Option<&'i Call> {
    index.call(c)
}

fn index_view_call(index: &Index<'_>, i: u32) -> Option<u32> {
    index.view_call(i)
}

fn index_view<'i>(index: &'i Index<'_>, i: u32) -> Option<&'i View> {
    index.view(i)
}

fn index_update<'i>(index: &'i Index<'_>, k: u8, n: u32) -> Option<&'i Call> {
    index.update(k, n)
}

fn index_update_call(index: &Index<'_>, k: u8, n: u32) -> Option<u32> {
    index.update_call(k, n)
}

fn index_update_count(index: &Index<'_>, k: u8) -> u32 {
    index.update_count(k)
}

fn index_precedes(index: &Index<'_>, a: u32, b: u32) -> bool
    requires a { a < length (calls_of index.now) }
    requires b { b < length (calls_of index.now) }
{
    index.precedes(a, b)
}

fn part_count<F>(part: &Part<F>) -> u64 {
    part.count()
}

fn part_first<F: Copy>(part: &Part<F>) -> Option<F> {
    part.first()
}

fn tally_none() -> Tally {
    Tally::none()
}

fn tally_range(index: &Index<'_>, from: u32, to: u32) -> Tally
    requires order { from ≤ to }
    requires views { to ≤ length (views_of (calls_of index.now)) }
{
    snap_conditions::tally_range(index, from, to)
}

fn tally_without_read(index: &Index<'_>, from: u32, to: u32) -> Tally
    requires order { from ≤ to }
    requires views { to ≤ length (views_of (calls_of index.now)) }
{
    snap_conditions::tally_without_read(index, from, to)
}

fn merge(first: Tally, second: Tally) -> Tally
    requires { SumsFit first second }
{
    snap_conditions::merge(first, second)
}

fn is_regular(tally: &Tally) -> bool {
    snap_conditions::is_regular(tally)
}

fn is_monotone(tally: &Tally) -> bool {
    snap_conditions::is_monotone(tally)
}

fn is_atomic(tally: &Tally) -> bool {
    snap_conditions::is_atomic(tally)
}

fn view_sum(index: &Index<'_>, i: u32) -> u64
    requires { i < length (views_of (calls_of index.now)) }
{
    snap_conditions::view_sum(index, i)
}

fn chain(alloc: Global, index: &Index<'_>, sums: &[u64]) -> Result<Option<Vec<u32>>, AllocError>
    requires { AreViewSums (calls_of index.now) sums.now }
{
    snap_conditions::chain(alloc, index, sums)
}

fn ordered(alloc: Global, index: &Index<'_>, sums: &[u64]) -> Result<bool, AllocError>
    requires { AreViewSums (calls_of index.now) sums.now }
{
    snap_conditions::ordered(alloc, index, sums)
}

fn cutting_new(pieces: u32, workers: u32) -> Result<Cutting, CuttingRefusal> {
    Cutting::new(pieces, workers)
}

fn cutting_pieces(cutting: &Cutting) -> u32 {
    cutting.pieces()
}

fn cutting_workers(cutting: &Cutting) -> u32 {
    cutting.workers()
}

fn tally<R: Threads + Sync, G: Gate>(
    rt: &R,
    alloc: Global,
    index: &Index<'_>,
    cutting: Cutting,
    gate: &G,
) -> Result<Tally, AllocError> {
    snap_pairs::tally(rt, alloc, index, cutting, gate)
}

fn claims_start(alloc: Global, cutting: Cutting) -> Result<(Claims, Vec<Claim>), AllocError> {
    Claims::start(alloc, cutting)
}

fn claims_draw(claims: &Claims, claim: &mut Claim) -> Option<u32>
    requires { IsClaimOf claims.now claim.old }
{
    claims.draw(claim)
}

fn claim_finished(claim: &Claim) -> bool {
    claim.finished()
}

fn claims_close(claims: Claims, all: Vec<Claim>) -> Result<(), (Claims, Vec<Claim>)>
    requires { All (IsClaimOf claims) all.items }
{
    claims.close(all)
}

fn build<R: Threads + Sync>(
    rt: &R,
    alloc: Global,
    index: &Index<'_>,
) -> Result<Vec<u32>, AllocError>
    requires { HasNoFault (calls_of index.now) }
{
    snap_order::build(rt, alloc, index)
}

fn check_order(alloc: Global, index: &Index<'_>, order: &[u32]) -> Result<bool, AllocError> {
    snap_order::check_order(alloc, index, order)
}

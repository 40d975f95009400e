//! What is said of the first faults of each kind.
ghost use Rattle.std.specs.Prelude.{◌≡◌, ◌<◌, ◌≤◌, ◌+◌, ◌++◌, ◌∷◌, [], IfOk, OnOk, length, take};
ghost use Rattle.std.specs.List.{flat_map};
ghost use Rattle.std.specs.Option.{ForSome};
ghost use Rattle.snap_core.specs.Calls.{calls_of, views_of};
ghost use Rattle.snap_conditions.specs.Kinds.{first_in};
ghost use Rattle.snap_conditions.specs.Tally.{tally_of};
ghost use Rattle.snap_conditions.specs.declared.fault.Kind.TheVariants.{Read};
ghost use Rattle.snap_views.specs.Seen.{view_in, views_between};
ghost use Rattle.snap_witness.specs.Concerned.{IsNamed};
ghost use Rattle.snap_explain.specs.Faults.{fault_text};
ghost use Rattle.snap_explain.specs.FirstFaults.{first_faults_text, firsts_among, firsts_text};

use crate::faults::put_fault;
use crate::view::Lines;
use snap_conditions::{Fault, Kind, Tally, tally_range, tally_without_read};
use snap_core::Ownership;
use snap_index::Index;
use snap_tally::{ViewGrid, read_faults_by_grid};
use std::alloc::AllocError;

// A grid compares so many views at once.
const BLOCK: u32 = 512;

// The tally of the completed view at a place, as far as faults of a kind need it.
fn tally_at<O: Ownership>(index: &Index<'_, O>, place: u32, kind: Kind) -> Tally
    requires { place < length (views_of (calls_of index.now)) }
    ensures { first_in kind result ≡ first_in kind (tally_of (calls_of index.now) (view_in (calls_of index.now) place ∷ [])) }
{
    // what is known of the history that the index is of
    let _events = index.event_count();
    match kind {
        Kind::Read => tally_range(index, place, place + 1),
        Kind::Integrity | Kind::Proximity | Kind::Write => {
            tally_without_read(index, place, place + 1)
        }
    }
}

// The first fault of a kind of the completed view at a place, if it has one.
fn first_at<O: Ownership>(index: &Index<'_, O>, place: u32, kind: Kind) -> Option<Fault>
    requires { place < length (views_of (calls_of index.now)) }
    ensures first { result ≡ first_in kind (tally_of (calls_of index.now) (view_in (calls_of index.now) place ∷ [])) }
    ensures named { ForSome result (IsNamed (calls_of index.now)) }
{
    // what is known of the history that the index is of
    let _events = index.event_count();
    tally_at(index, place, kind).first(kind)
}

// Adds what is said of the first fault of the completed view at a place, if it has one of the kind and one more may follow. It gives
// how many may follow then.
fn put_at<O: Ownership>(
    out: &mut Vec<u8>,
    index: &Index<'_, O>,
    lines: Lines<'_>,
    kind: Kind,
    place: u32,
    left: u32,
) -> Result<u32, AllocError>
    requires each { length lines.records.now ≡ length index.now }
    requires place { place < length (views_of (calls_of index.now)) }
    ensures text { OnOk result (out.new.items ≡ out.old.items
        ++ flat_map (fault_text lines.entry.listed lines.entry.records.now (calls_of index.now)) (take left (firsts_among kind (calls_of index.now) (view_in (calls_of index.now) place ∷ [])))) }
    ensures more { IfOk result (λ more. more + length (take left (firsts_among kind (calls_of index.now) (view_in (calls_of index.now) place ∷ []))) ≡ left) }
{
    if left == 0 {
        return Ok(0);
    }
    match first_at(index, place, kind) {
        Some(fault) => {
            put_fault(out, index, lines, &fault)?;
            Ok(left - 1)
        }
        None => Ok(left),
    }
}

// Adds what is said of the first fault of each completed view between two places, without the second, that has one of the kind. That is
// so of the first `left` such views alone. It gives how many may follow.
fn put_between<O: Ownership>(
    out: &mut Vec<u8>,
    index: &Index<'_, O>,
    lines: Lines<'_>,
    kind: Kind,
    between: (u32, u32),
    left: u32,
) -> Result<u32, AllocError>
    requires each { length lines.records.now ≡ length index.now }
    requires order { between.0 ≤ between.1 }
    requires views { between.1 ≤ length (views_of (calls_of index.now)) }
    ensures text { OnOk result (out.new.items ≡ out.old.items
        ++ flat_map (fault_text lines.entry.listed lines.entry.records.now (calls_of index.now)) (take left (firsts_among kind (calls_of index.now) (views_between (calls_of index.now) between.0 between.1)))) }
    ensures more { IfOk result (λ more. more + length (take left (firsts_among kind (calls_of index.now) (views_between (calls_of index.now) between.0 between.1))) ≡ left) }
{
    let (from, to) = between;
    let mut more = left;
    for place in from..to {
        more = put_at(out, index, lines, kind, place, more)?;
    }
    Ok(more)
}

// Adds what is said of the first fault of each of the first `most` completed views that have one of the kind.
fn put_all<O: Ownership>(
    out: &mut Vec<u8>,
    index: &Index<'_, O>,
    lines: Lines<'_>,
    kind: Kind,
    most: u32,
) -> Result<(), AllocError>
    requires { length lines.records.now ≡ length index.now }
    ensures { OnOk result (out.new.items ≡ out.old.items ++ firsts_text most lines.entry.listed lines.entry.records.now (calls_of index.now) kind) }
{
    let all = (0, index.view_count());
    put_between(out, index, lines, kind, all, most)?;
    Ok(())
}

// Adds what `put_between` does for read faults. It passes over a range that has none, at the cost of one block.
fn put_block<O: Ownership>(
    out: &mut Vec<u8>,
    grid: &ViewGrid<'_, '_, O>,
    lines: Lines<'_>,
    between: (u32, u32),
    left: u32,
) -> Result<u32, AllocError>
    requires each { length lines.records.now ≡ length grid.now }
    requires order { between.0 ≤ between.1 }
    requires views { between.1 ≤ length (views_of (calls_of grid.now)) }
    ensures text { OnOk result (out.new.items ≡ out.old.items
        ++ flat_map (fault_text lines.entry.listed lines.entry.records.now (calls_of grid.now)) (take left (firsts_among Read (calls_of grid.now) (views_between (calls_of grid.now) between.0 between.1)))) }
    ensures more { IfOk result (λ more. more + length (take left (firsts_among Read (calls_of grid.now) (views_between (calls_of grid.now) between.0 between.1))) ≡ left) }
{
    if left == 0 {
        return Ok(0);
    }
    let (faults, _stale) = read_faults_by_grid(*out.allocator(), grid, between.0, between.1)?;
    if faults.first().is_none() {
        return Ok(left);
    }
    put_between(out, grid.index(), lines, Kind::Read, between, left)
}

// Adds what is said of the first read fault of each of the first `most` completed views that have one, block by block.
fn put_blocks<O: Ownership>(
    out: &mut Vec<u8>,
    grid: &ViewGrid<'_, '_, O>,
    lines: Lines<'_>,
    most: u32,
) -> Result<(), AllocError>
    requires { length lines.records.now ≡ length grid.now }
    ensures { OnOk result (out.new.items ≡ out.old.items ++ firsts_text most lines.entry.listed lines.entry.records.now (calls_of grid.now) Read) }
{
    let count = grid.index().view_count();
    let mut left = most;
    let mut from = 0;
    while from < count {
        let to = from + BLOCK.min(count - from);
        left = put_block(out, grid, lines, (from, to), left)?;
        from = to;
    }
    Ok(())
}

// Adds what is said of the first read fault of each of the first `most` completed views that have one.
fn put_reads<O: Ownership>(
    out: &mut Vec<u8>,
    index: &Index<'_, O>,
    lines: Lines<'_>,
    tally: &Tally,
    most: u32,
) -> Result<(), AllocError>
    requires each { length lines.records.now ≡ length index.now }
    requires tally { tally.now ≡ tally_of (calls_of index.now) (views_of (calls_of index.now)) }
    ensures { OnOk result (out.new.items ≡ out.old.items ++ firsts_text most lines.entry.listed lines.entry.records.now (calls_of index.now) Read) }
{
    if tally.read.first().is_none() {
        return Ok(());
    }
    let grid = ViewGrid::build(*out.allocator(), index)?;
    put_blocks(out, &grid, lines, most)
}

// Adds what is said of the first fault of a kind of each of the first `most` completed views that have one.
fn put_kind<O: Ownership>(
    out: &mut Vec<u8>,
    index: &Index<'_, O>,
    lines: Lines<'_>,
    tally: &Tally,
    kind: Kind,
    most: u32,
) -> Result<(), AllocError>
    requires each { length lines.records.now ≡ length index.now }
    requires tally { tally.now ≡ tally_of (calls_of index.now) (views_of (calls_of index.now)) }
    ensures { OnOk result (out.new.items ≡ out.old.items ++ firsts_text most lines.entry.listed lines.entry.records.now (calls_of index.now) kind) }
{
    match kind {
        Kind::Read => put_reads(out, index, lines, tally, most),
        Kind::Integrity | Kind::Proximity | Kind::Write => put_all(out, index, lines, kind, most),
    }
}

/// Adds what is said of the first fault of a kind of each of the first `most` completed views that have one, kind by kind.
pub(crate) fn put_first_faults<O: Ownership>(
    out: &mut Vec<u8>,
    index: &Index<'_, O>,
    lines: Lines<'_>,
    tally: &Tally,
    most: u32,
) -> Result<(), AllocError>
    requires each { length lines.records.now ≡ length index.now }
    requires tally { tally.now ≡ tally_of (calls_of index.now) (views_of (calls_of index.now)) }
    ensures { OnOk result (out.new.items ≡ out.old.items ++ first_faults_text most lines.entry.listed lines.entry.records.now (calls_of index.now)) }
{
    for kind in &Kind::ALL {
        put_kind(out, index, lines, tally, *kind, most)?;
    }
    Ok(())
}

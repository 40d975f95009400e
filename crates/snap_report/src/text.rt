//! The report of a history.
ghost use Rattle.std.specs.Prelude.{◌≡◌, ◌++◌, All, IfOk, OnOk, codes, is_some};
ghost use Rattle.std.specs.Option.{ForSome, option_copied, option_map};
ghost use Rattle.snap_core.specs.Calls.{calls_of};
ghost use Rattle.snap_report.specs.Lines.{line_text, text_of};
ghost use Rattle.snap_report.specs.Orders.{HasLine, calls_numbered};
ghost use Rattle.snap_report.specs.inside.Parts.{front_text};
ghost use Rattle.snap_report.specs.Reports.{count_line, has_no_fault, has_no_local_fault, has_no_stale_view, report_text, verdict_line, verdict_lines};

use crate::faults::put_faults;
use crate::order::{put_order, put_order_shared};
use crate::words::put_number;
use snap_conditions::{Tally, is_atomic, is_monotone, is_regular};
use snap_core::Ownership;
use snap_index::Index;
use std::alloc::{AllocError, Global};
use std::thread::Threads;

// Adds the line with the counts of a history.
fn put_counts<O: Ownership>(out: &mut Vec<u8>, index: &Index<'_, O>) -> Result<(), AllocError>
    ensures { OnOk result (out.new.items ≡ out.old.items ++ line_text (count_line index.now)) }
{
    put_number(out, b"events ", u64::from(index.event_count()))?;
    put_number(out, b" calls ", u64::from(index.call_count()))?;
    put_number(out, b" pending ", u64::from(index.pending_count()))?;
    put_number(out, b" views ", u64::from(index.view_count()))?;
    out.extend_from_slice(b"\n")
}

fn put_verdict(out: &mut Vec<u8>, word: &[u8], holds: bool) -> Result<(), AllocError>
    ensures { OnOk result (out.new.items ≡ out.old.items ++ line_text (verdict_line word.now holds)) }
{
    out.extend_from_slice(word)?;
    if holds {
        out.extend_from_slice(b" yes\n")
    } else {
        out.extend_from_slice(b" no\n")
    }
}

fn put_verdicts(out: &mut Vec<u8>, tally: &Tally) -> Result<(), AllocError>
    ensures { OnOk result (out.new.items ≡ out.old.items
        ++ line_text (verdict_line (codes "regular") (has_no_local_fault tally.now))
        ++ line_text (verdict_line (codes "monotone") (has_no_stale_view tally.now))
        ++ line_text (verdict_line (codes "atomic") (has_no_fault tally.now))) }
{
    put_verdict(out, b"regular", is_regular(tally))?;
    put_verdict(out, b"monotone", is_monotone(tally))?;
    put_verdict(out, b"atomic", is_atomic(tally))
}

/// The lines of the three verdicts alone, by the tally of a history's faults.
pub fn verdict_text(alloc: Global, tally: &Tally) -> Result<Vec<u8>, AllocError>
    ensures { IfOk result (λ text. text.items ≡ text_of (verdict_lines (has_no_local_fault tally.now) (has_no_stale_view tally.now) (has_no_fault tally.now))) }
{
    let mut out = Vec::new(alloc);
    put_verdicts(&mut out, tally)?;
    Ok(out)
}

// The lines before the order or the faults, in the memory of a vector. What the vector had is lost.
fn front_in<O: Ownership>(
    room: Vec<u8>,
    index: &Index<'_, O>,
    tally: &Tally,
) -> Result<Vec<u8>, AllocError>
    ensures { IfOk result (λ text. text.items ≡ front_text index.now tally.now) }
{
    let mut out = room;
    out.clear();
    put_counts(&mut out, index)?;
    put_verdicts(&mut out, tally)?;
    Ok(out)
}

/// The report of a history by the tally of its faults and by an order of its calls, if there is one. The order is a list of the
/// calls' numbers. Without an order, each kind that has faults has one line.
pub fn report(
    alloc: Global,
    index: &Index<'_, impl Ownership>,
    tally: &Tally,
    order: Option<&[u32]>,
) -> Result<Vec<u8>, AllocError>
    requires order { is_some order ≡ has_no_fault tally.now }
    requires calls { ForSome order (λ numbers. All (HasLine (calls_of index.now)) numbers.now) }
    ensures { IfOk result (λ text. text.items ≡ report_text index.now tally.now
        (option_map (calls_numbered (calls_of index.now)) (option_copied order.entry))) }
{
    report_in(Vec::new(alloc), index, tally, order)
}

/// The report of `report`, in the memory of a vector. What the vector had is lost.
pub fn report_in<O: Ownership>(
    room: Vec<u8>,
    index: &Index<'_, O>,
    tally: &Tally,
    order: Option<&[u32]>,
) -> Result<Vec<u8>, AllocError>
    requires order { is_some order ≡ has_no_fault tally.now }
    requires calls { ForSome order (λ numbers. All (HasLine (calls_of index.now)) numbers.now) }
    ensures { IfOk result (λ text. text.items ≡ report_text index.now tally.now
        (option_map (calls_numbered (calls_of index.now)) (option_copied order.entry))) }
{
    let mut out = front_in(room, index, tally)?;
    match order {
        Some(order) => put_order(&mut out, index, order)?,
        None => put_faults(&mut out, tally)?,
    }
    Ok(out)
}

/// The report of `report_in`. At most `workers` threads share the lines of an order, each of them 16,384 lines or more.
pub fn report_shared<R: Threads + Sync, O: Ownership + Sync>(
    rt: &R,
    room: Vec<u8>,
    index: &Index<'_, O>,
    tally: &Tally,
    order: Option<&[u32]>,
    workers: u32,
) -> Result<Vec<u8>, AllocError>
    requires order { is_some order ≡ has_no_fault tally.now }
    requires calls { ForSome order (λ numbers. All (HasLine (calls_of index.now)) numbers.now) }
    ensures { IfOk result (λ text. text.items ≡ report_text index.now tally.now
        (option_map (calls_numbered (calls_of index.now)) (option_copied order.entry))) }
{
    let mut out = front_in(room, index, tally)?;
    match order {
        Some(order) => put_order_shared(rt, &mut out, index, order, workers)?,
        None => put_faults(&mut out, tally)?,
    }
    Ok(out)
}

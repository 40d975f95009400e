//! The explanation of a history.
ghost use Rattle.std.specs.Prelude.{◌≡◌, ◌++◌, All, IfOk, OnOk, false, is_some, length, map};
ghost use Rattle.std.specs.List.{flat_map};
ghost use Rattle.std.specs.Option.{ForSome};
ghost use Rattle.snap_core.specs.Calls.{calls_of, views_of};
ghost use Rattle.snap_conditions.specs.Tally.{tally_of};
ghost use Rattle.snap_theory.specs.Levels.{printed_order};
ghost use Rattle.snap_report.specs.Orders.{HasLine, calls_numbered};
ghost use Rattle.snap_report.specs.Reports.{has_no_fault};
ghost use Rattle.snap_explain.specs.Calls.{call_text};
ghost use Rattle.snap_explain.specs.Explanations.{IsExplanation, IsLongExplanation, sentences_text, verdict_text};

use crate::call::put_call_line;
use crate::faults::put_faults;
use crate::first_faults::put_first_faults;
use crate::view::{Entries, Lines};
use snap_conditions::{Tally, is_atomic, is_regular};
use snap_core::Ownership;
use snap_index::Index;
use std::alloc::{AllocError, Global};

/// How much an explanation has.
#[derive(Clone, Copy)]
pub struct Detail {
    /// Which entries of the views of a fault are listed.
    pub listed: Entries,
    /// Of each kind of fault, how many views are explained that have one, each by its first fault of the kind.
    pub faults: u32,
}

// Adds the verdict.
fn put_verdict(out: &mut Vec<u8>, tally: &Tally) -> Result<(), AllocError>
    ensures { OnOk result (out.new.items ≡ out.old.items ++ verdict_text tally.now) }
{
    if is_atomic(tally) {
        out.extend_from_slice(
            b"atomic: in this order each view shows the latest updates before it\n",
        )
    } else if is_regular(tally) {
        out.extend_from_slice(b"regular, and not atomic\n")
    } else {
        out.extend_from_slice(b"not regular\n")
    }
}

// Adds the lines of the calls of some numbers.
fn put_calls<O: Ownership>(
    out: &mut Vec<u8>,
    index: &Index<'_, O>,
    records: &[u32],
    numbers: &[u32],
) -> Result<(), AllocError>
    requires each { length records.now ≡ length index.now }
    requires calls { All (HasLine (calls_of index.now)) numbers.now }
    ensures { OnOk result (out.new.items ≡ out.old.items ++ flat_map (call_text records.now) (calls_numbered (calls_of index.now) numbers.now)) }
{
    for number in numbers {
        put_call_line(out, index, records, *number)?;
    }
    Ok(())
}

/// The explanation of a history: an order of its calls if it is atomic, and otherwise a sentence for the first fault of each kind.
/// After a sentence are the calls concerned, a line each. A line has the call's number, its process, the records of its begin and its
/// end, and what it wrote or showed: of a view of a fault the entries that are `listed`.
///
/// It is made from the tally of all completed views, the number of the record of each event, and the numbers of the printed order.
/// That order is given exactly if the tally has no fault.
pub fn explain<O: Ownership>(
    alloc: Global,
    index: &Index<'_, O>,
    tally: &Tally,
    records: &[u32],
    order: Option<&[u32]>,
    listed: Entries,
) -> Result<Vec<u8>, AllocError>
    requires tally { tally.now ≡ tally_of (calls_of index.now) (views_of (calls_of index.now)) }
    requires each { length records.now ≡ length index.now }
    requires given { is_some order ≡ has_no_fault tally.now }
    requires order { ForSome order (λ numbers. numbers.now ≡ map (λ c. c.number) (printed_order (calls_of index.now))) }
    ensures { IfOk result (λ text. IsExplanation listed records.now (calls_of index.now) text.items) }
{
    let mut out = Vec::new(alloc);
    put_verdict(&mut out, tally)?;
    match order {
        Some(order) => put_calls(&mut out, index, records, order)?,
        None => put_faults(&mut out, index, Lines { records, listed }, tally)?,
    }
    Ok(out)
}

/// The explanation without the order of an atomic history: the verdict, and a sentence for the first fault of each kind with the calls
/// concerned. Of a view of a fault it lists the entries of the fault. It is made from the tally of all completed views, and from the number
/// of the record of each event.
pub fn sentences<O: Ownership>(
    alloc: Global,
    index: &Index<'_, O>,
    tally: &Tally,
    records: &[u32],
) -> Result<Vec<u8>, AllocError>
    requires tally { tally.now ≡ tally_of (calls_of index.now) (views_of (calls_of index.now)) }
    requires each { length records.now ≡ length index.now }
    ensures { IfOk result (λ text. text.items ≡ sentences_text records.now (calls_of index.now) tally.now) }
{
    let lines = Lines {
        records,
        listed: Entries::OfFault,
    };
    let mut out = Vec::new(alloc);
    put_verdict(&mut out, tally)?;
    put_faults(&mut out, index, lines, tally)?;
    Ok(out)
}

// The explanation of a history that is not atomic, by the first faults of each kind.
fn explain_first_faults<O: Ownership>(
    alloc: Global,
    index: &Index<'_, O>,
    tally: &Tally,
    records: &[u32],
    listed: Entries,
    most: u32,
) -> Result<Vec<u8>, AllocError>
    requires tally { tally.now ≡ tally_of (calls_of index.now) (views_of (calls_of index.now)) }
    requires each { length records.now ≡ length index.now }
    requires faulty { has_no_fault tally.now ≡ false }
    ensures { IfOk result (λ text. IsLongExplanation most listed records.now (calls_of index.now) text.items) }
{
    if most == 1 {
        return explain(alloc, index, tally, records, None, listed);
    }
    let mut out = Vec::new(alloc);
    put_verdict(&mut out, tally)?;
    put_first_faults(&mut out, index, Lines { records, listed }, tally, most)?;
    Ok(out)
}

/// The explanation of a history by more than one fault of a kind. Of an atomic history, and by one fault, it is that of `explain`.
/// Otherwise it has a sentence for the first fault of a kind of each of the first completed views that have one, and the calls concerned.
/// The kinds come one after the other.
pub fn explain_faults<O: Ownership>(
    alloc: Global,
    index: &Index<'_, O>,
    tally: &Tally,
    records: &[u32],
    order: Option<&[u32]>,
    detail: Detail,
) -> Result<Vec<u8>, AllocError>
    requires tally { tally.now ≡ tally_of (calls_of index.now) (views_of (calls_of index.now)) }
    requires each { length records.now ≡ length index.now }
    requires given { is_some order ≡ has_no_fault tally.now }
    requires order { ForSome order (λ numbers. numbers.now ≡ map (λ c. c.number) (printed_order (calls_of index.now))) }
    ensures { IfOk result (λ text. IsLongExplanation detail.faults detail.listed records.now (calls_of index.now) text.items) }
{
    match order {
        Some(_) => explain(alloc, index, tally, records, order, detail.listed),
        None => explain_first_faults(alloc, index, tally, records, detail.listed, detail.faults),
    }
}

//! What is said of the first fault of each kind.
ghost use Rattle.std.specs.Prelude.{◌≡◌, ◌≤◌, ◌++◌, All, OnOk, length};
ghost use Rattle.snap_core.specs.Calls.{call_numbered, calls_of, views_of};
ghost use Rattle.snap_core.specs.Events.{event_cap};
ghost use Rattle.snap_conditions.specs.Tally.{tally_of};
ghost use Rattle.snap_witness.specs.Concerned.{IsNamed};
ghost use Rattle.snap_witness.specs.Places.{AreReadAt, IsViewAt, side_number as spec_side_number};
ghost use Rattle.snap_explain.specs.Faults.{against_text, compared_text, concerned_text, fault_text, faults_text, integrity_sentence, kind_text, proximity_sentence, read_sentence, read_text, sentence_text, side_text, write_sentence};

use crate::call::put_updates;
use crate::view::{Lines, put_numbers, put_views};
use snap_conditions::{
    Fault, IntegrityFault, Kind, ProximityFault, ReadFault, Side, Tally, WriteFault,
};
use snap_core::Ownership;
use snap_index::Index;
use snap_report::{put_call, put_entry, put_number, put_update};
use snap_witness::{concerned, first_fault_of, least_exceeding, side_number, view_numbered};
use std::alloc::AllocError;

fn put_integrity(out: &mut Vec<u8>, fault: &IntegrityFault) -> Result<(), AllocError>
    ensures { OnOk result (out.new.items ≡ out.old.items ++ integrity_sentence fault.now) }
{
    put_call(out, b"integrity: view ", fault.view)?;
    put_entry(out, b" shows ", &fault.entry)?;
    out.extend_from_slice(b", which no update wrote\n")
}

// Adds on which side of its view the update of a proximity fault is.
fn put_side(out: &mut Vec<u8>, fault: &ProximityFault, update: u32) -> Result<(), AllocError>
    requires { update ≡ spec_side_number fault.now.side fault.now.number }
    ensures { OnOk result (out.new.items ≡ out.old.items ++ side_text fault.now.component fault.now.number fault.now.side) }
{
    match fault.side {
        Side::Old => {
            put_update(out, b", though update ", fault.component, update)?;
            out.extend_from_slice(b" had ended before the view began\n")
        }
        Side::Early => {
            out.extend_from_slice(b", though that update began after the view had ended\n")
        }
    }
}

fn put_proximity(out: &mut Vec<u8>, fault: &ProximityFault) -> Result<(), AllocError>
    requires { fault.now.number ≤ event_cap }
    ensures { OnOk result (out.new.items ≡ out.old.items ++ proximity_sentence fault.now) }
{
    let update = side_number(fault.side, fault.number);
    put_call(out, b"proximity: view ", fault.view)?;
    put_update(out, b" shows ", fault.component, fault.number)?;
    put_side(out, fault, update)
}

// Adds why a view that shows more of some component than another should show no less of any.
fn put_against<O: Ownership>(
    out: &mut Vec<u8>,
    index: &Index<'_, O>,
    view: u32,
    other: u32,
) -> Result<(), AllocError>
    requires view { IsViewAt (calls_of index.now) view }
    requires other { IsViewAt (calls_of index.now) other }
    ensures { OnOk result (out.new.items ≡ out.old.items
        ++ against_text (call_numbered (calls_of index.now) view) (call_numbered (calls_of index.now) other)) }
{
    if index.precedes(view, other) {
        return out.extend_from_slice(b", and had ended before that view began\n");
    }
    let shown = view_numbered(index, view);
    let less = least_exceeding(view_numbered(index, other), shown).unwrap_or(0);
    put_number(out, b", and less of component ", u64::from(less))?;
    out.extend_from_slice(b"\n")
}

// Adds the sentence of a read fault.
fn put_read<O: Ownership>(
    out: &mut Vec<u8>,
    index: &Index<'_, O>,
    fault: &ReadFault,
) -> Result<(), AllocError>
    requires named { AreReadAt (calls_of index.now) fault.now }
    ensures { OnOk result (out.new.items ≡ out.old.items ++ read_sentence (calls_of index.now) fault.now) }
{
    put_call(out, b"read: view ", fault.view)?;
    put_number(
        out,
        b" shows more of component ",
        u64::from(fault.component),
    )?;
    put_call(out, b" than view ", fault.other)?;
    put_against(out, index, fault.view, fault.other)
}

// Adds what both views of a read fault show of the components of the updates that show the fault.
fn put_compared<O: Ownership>(
    out: &mut Vec<u8>,
    index: &Index<'_, O>,
    fault: &ReadFault,
    updates: &[(u8, u32)],
) -> Result<(), AllocError>
    requires named { AreReadAt (calls_of index.now) fault.now }
    ensures { OnOk result (out.new.items ≡ out.old.items ++ compared_text (calls_of index.now) updates.now fault.now) }
{
    put_numbers(out, b"  ", index, fault.view, updates)?;
    put_numbers(out, b"; ", index, fault.other, updates)?;
    out.extend_from_slice(b"\n")
}

// Adds the sentence of a read fault, and what both views show of the components of the updates that show it.
fn put_read_text<O: Ownership>(
    out: &mut Vec<u8>,
    index: &Index<'_, O>,
    fault: &ReadFault,
    updates: &[(u8, u32)],
) -> Result<(), AllocError>
    requires named { AreReadAt (calls_of index.now) fault.now }
    ensures { OnOk result (out.new.items ≡ out.old.items ++ read_text (calls_of index.now) updates.now fault.now) }
{
    put_read(out, index, fault)?;
    put_compared(out, index, fault, updates)
}

// Adds the sentence of a write fault.
fn put_write(out: &mut Vec<u8>, fault: &WriteFault) -> Result<(), AllocError>
    ensures { OnOk result (out.new.items ≡ out.old.items ++ write_sentence fault.now) }
{
    put_call(out, b"write: view ", fault.view)?;
    put_update(
        out,
        b" shows update ",
        fault.shown_component,
        fault.shown_number,
    )?;
    put_update(
        out,
        b", and misses update ",
        fault.missed_component,
        fault.missed_number,
    )?;
    out.extend_from_slice(b", which had ended before that one began\n")
}

// Adds the sentence of a fault that these updates show.
fn put_sentence<O: Ownership>(
    out: &mut Vec<u8>,
    index: &Index<'_, O>,
    fault: &Fault,
    updates: &[(u8, u32)],
) -> Result<(), AllocError>
    requires { IsNamed (calls_of index.now) fault.now }
    ensures { OnOk result (out.new.items ≡ out.old.items ++ sentence_text (calls_of index.now) updates.now fault.now) }
{
    match fault {
        Fault::Integrity(fault) => put_integrity(out, fault),
        Fault::Proximity(fault) => put_proximity(out, fault),
        Fault::Read(fault) => put_read_text(out, index, fault, updates),
        Fault::Write(fault) => put_write(out, fault),
    }
}

// Adds the lines of the views of a fault, and of the updates that show it.
fn put_concerned<O: Ownership>(
    out: &mut Vec<u8>,
    index: &Index<'_, O>,
    lines: Lines<'_>,
    views: &[u32],
    updates: &[(u8, u32)],
) -> Result<(), AllocError>
    requires each { length lines.records.now ≡ length index.now }
    requires named { All (IsViewAt (calls_of index.now)) views.now }
    ensures { OnOk result (out.new.items ≡ out.old.items ++ concerned_text lines.entry.listed lines.entry.records.now (calls_of index.now) views.now updates.now) }
{
    put_views(out, index, lines, views, updates)?;
    put_updates(out, index, lines.records, updates)
}

/// Adds the sentence of a fault, and the lines of the calls that it concerns.
pub(crate) fn put_fault<O: Ownership>(
    out: &mut Vec<u8>,
    index: &Index<'_, O>,
    lines: Lines<'_>,
    fault: &Fault,
) -> Result<(), AllocError>
    requires each { length lines.records.now ≡ length index.now }
    requires named { IsNamed (calls_of index.now) fault.now }
    ensures { OnOk result (out.new.items ≡ out.old.items ++ fault_text lines.entry.listed lines.entry.records.now (calls_of index.now) fault.now) }
{
    let calls = concerned(*out.allocator(), index, fault)?;
    put_sentence(out, index, fault, &calls.updates)?;
    put_concerned(out, index, lines, &calls.views, &calls.updates)
}

// Adds what is said of the first fault of a kind, if there is one.
fn put_kind<O: Ownership>(
    out: &mut Vec<u8>,
    index: &Index<'_, O>,
    lines: Lines<'_>,
    tally: &Tally,
    kind: Kind,
) -> Result<(), AllocError>
    requires each { length lines.records.now ≡ length index.now }
    requires tally { tally.now ≡ tally_of (calls_of index.now) (views_of (calls_of index.now)) }
    ensures { OnOk result (out.new.items ≡ out.old.items ++ kind_text lines.entry.listed lines.entry.records.now (calls_of index.now) tally.now kind) }
{
    match first_fault_of(index, tally, kind) {
        Some(fault) => put_fault(out, index, lines, &fault),
        None => Ok(()),
    }
}

/// Adds what is said of the first fault of each kind.
pub(crate) fn put_faults<O: Ownership>(
    out: &mut Vec<u8>,
    index: &Index<'_, O>,
    lines: Lines<'_>,
    tally: &Tally,
) -> Result<(), AllocError>
    requires each { length lines.records.now ≡ length index.now }
    requires tally { tally.now ≡ tally_of (calls_of index.now) (views_of (calls_of index.now)) }
    ensures { OnOk result (out.new.items ≡ out.old.items ++ faults_text lines.entry.listed lines.entry.records.now (calls_of index.now) tally.now) }
{
    for kind in &Kind::ALL {
        put_kind(out, index, lines, tally, *kind)?;
    }
    Ok(())
}

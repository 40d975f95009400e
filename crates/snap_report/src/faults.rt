//! The lines of faults.
ghost use Rattle.std.specs.Prelude.{◌≡◌, ◌++◌, OnOk, codes, decimal};
ghost use Rattle.snap_conditions.specs.Kinds.{kind_word};
ghost use Rattle.snap_report.specs.Faults.{fault_line, fault_lines, integrity_line, kind_lines, proximity_line, read_line, write_line};
ghost use Rattle.snap_report.specs.Lines.{call_word, line_text, text_of, update_word};

use crate::words::{put_call, put_entry, put_number, put_update};
use snap_conditions::{
    Fault, IntegrityFault, Kind, ProximityFault, ReadFault, Side, Tally, WriteFault,
};
use std::alloc::AllocError;

// Adds the word of a kind, the number of its faults, and the view of the first.
fn put_first(out: &mut Vec<u8>, kind: Kind, count: u64, view: u32) -> Result<(), AllocError>
    ensures { OnOk result (out.new.items ≡ out.old.items ++ kind_word kind ++ codes " " ++ decimal count ++ codes " first view " ++ call_word view) }
{
    out.extend_from_slice(kind.word().as_bytes())?;
    put_number(out, b" ", count)?;
    put_call(out, b" first view ", view)
}

// Adds the other view of a read fault, and the component of which the first view shows more.
fn put_other(out: &mut Vec<u8>, fault: &ReadFault) -> Result<(), AllocError>
    ensures { OnOk result (out.new.items ≡ out.old.items ++ codes " view " ++ call_word fault.now.other ++ codes " component " ++ decimal fault.now.component) }
{
    put_call(out, b" view ", fault.other)?;
    put_number(out, b" component ", u64::from(fault.component))
}

// Adds the update that is missed, and the later one that is shown.
fn put_missed(out: &mut Vec<u8>, fault: &WriteFault) -> Result<(), AllocError>
    ensures { OnOk result (out.new.items ≡ out.old.items ++ codes " misses " ++ update_word fault.now.missed_component fault.now.missed_number
        ++ codes " shows " ++ update_word fault.now.shown_component fault.now.shown_number) }
{
    put_update(
        out,
        b" misses ",
        fault.missed_component,
        fault.missed_number,
    )?;
    put_update(out, b" shows ", fault.shown_component, fault.shown_number)
}

fn put_integrity(out: &mut Vec<u8>, count: u64, fault: &IntegrityFault) -> Result<(), AllocError>
    ensures { OnOk result (out.new.items ≡ out.old.items ++ line_text (integrity_line count fault.now)) }
{
    put_first(out, Kind::Integrity, count, fault.view)?;
    put_entry(out, b" entry ", &fault.entry)?;
    out.extend_from_slice(b"\n")
}

fn put_proximity(out: &mut Vec<u8>, count: u64, fault: &ProximityFault) -> Result<(), AllocError>
    ensures { OnOk result (out.new.items ≡ out.old.items ++ line_text (proximity_line count fault.now)) }
{
    put_first(out, Kind::Proximity, count, fault.view)?;
    put_update(out, b" entry ", fault.component, fault.number)?;
    match fault.side {
        Side::Old => out.extend_from_slice(b" old\n"),
        Side::Early => out.extend_from_slice(b" early\n"),
    }
}

fn put_read(out: &mut Vec<u8>, count: u64, fault: &ReadFault) -> Result<(), AllocError>
    ensures { OnOk result (out.new.items ≡ out.old.items ++ line_text (read_line count fault.now)) }
{
    put_first(out, Kind::Read, count, fault.view)?;
    put_other(out, fault)?;
    out.extend_from_slice(b"\n")
}

fn put_write(out: &mut Vec<u8>, count: u64, fault: &WriteFault) -> Result<(), AllocError>
    ensures { OnOk result (out.new.items ≡ out.old.items ++ line_text (write_line count fault.now)) }
{
    put_first(out, Kind::Write, count, fault.view)?;
    put_missed(out, fault)?;
    out.extend_from_slice(b"\n")
}

// Adds the line of a fault, which has the number of faults of its kind.
fn put_fault(out: &mut Vec<u8>, count: u64, fault: &Fault) -> Result<(), AllocError>
    ensures { OnOk result (out.new.items ≡ out.old.items ++ line_text (fault_line count fault.now)) }
{
    match fault {
        Fault::Integrity(fault) => put_integrity(out, count, fault),
        Fault::Proximity(fault) => put_proximity(out, count, fault),
        Fault::Read(fault) => put_read(out, count, fault),
        Fault::Write(fault) => put_write(out, count, fault),
    }
}

// Adds the line of a kind of fault, if there are such faults.
fn put_kind(out: &mut Vec<u8>, tally: &Tally, kind: Kind) -> Result<(), AllocError>
    ensures { OnOk result (out.new.items ≡ out.old.items ++ text_of (kind_lines tally.now kind)) }
{
    match tally.first(kind) {
        Some(fault) => put_fault(out, tally.count(kind), &fault),
        None => Ok(()),
    }
}

/// Adds a line for each kind of fault that a tally has.
pub(crate) fn put_faults(out: &mut Vec<u8>, tally: &Tally) -> Result<(), AllocError>
    ensures { OnOk result (out.new.items ≡ out.old.items ++ text_of (fault_lines tally.now)) }
{
    for kind in &Kind::ALL {
        put_kind(out, tally, *kind)?;
    }
    Ok(())
}

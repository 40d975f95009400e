//! The objects of the first faults.
ghost use Rattle.std.specs.Prelude.{◌≡◌, ◌++◌, ◌∷◌, OnOk, codes, decimal, length};
ghost use Rattle.json.specs.Token as token;
ghost use Rattle.json.specs.Tree.{json_tokens};
ghost use Rattle.snap_core.specs.Calls.{calls_of, views_of};
ghost use Rattle.snap_conditions.specs.Kinds.{kind_word};
ghost use Rattle.snap_conditions.specs.Tally.{tally_of};
ghost use Rattle.snap_conditions.specs.declared.fault.Fault.TheVariants.{Proximity};
ghost use Rattle.snap_report.specs.Faults.{side_word};
ghost use Rattle.snap_witness.specs.Concerned.{IsNamed};
ghost use Rattle.snap_witness.specs.Places.{AreReadAt, IsViewAt};
ghost use Rattle.snap_json.specs.Faults.{fault_fields, fault_json, first_json, integrity_json, named_json, numbered_json, proximity_json, read_json, write_json};
ghost use Rattle.snap_json.specs.Values.{field_tokens};

use crate::call::{put_call, put_entry, put_update};
use crate::differs::put_differs;
use crate::line::Line;
use snap_conditions::{
    Fault, IntegrityFault, Kind, ProximityFault, ReadFault, Side, Tally, WriteFault,
};
use snap_core::Ownership;
use snap_index::Index;
use snap_witness::{first_fault_of, side_number};
use std::alloc::AllocError;

// Begins the object of a fault, with the number of faults of its kind and its view.
fn begin_fault<O: Ownership>(
    line: &mut Line,
    index: &Index<'_, O>,
    records: &[u32],
    count: u64,
    view: u32,
) -> Result<(), AllocError>
    requires each { length records.now ≡ length index.now }
    requires named { IsViewAt (calls_of index.now) view }
    ensures { OnOk result (line.new.writer.tokens ≡ line.old.writer.tokens ++ (token.begin_object
        ∷ token.key (codes "count") ∷ token.number (decimal count) ∷ token.key (codes "view") ∷ json_tokens (numbered_json records.now (calls_of index.now) view))) }
{
    line.begin_object()?;
    line.number("count", count)?;
    line.key("view")?;
    put_call(line, index, records, view)
}

fn put_integrity<O: Ownership>(
    line: &mut Line,
    index: &Index<'_, O>,
    records: &[u32],
    count: u64,
    fault: &IntegrityFault,
) -> Result<(), AllocError>
    requires each { length records.now ≡ length index.now }
    requires named { IsViewAt (calls_of index.now) fault.now.view }
    ensures { OnOk result (line.new.writer.tokens ≡ line.old.writer.tokens ++ json_tokens (integrity_json records.now (calls_of index.now) count fault.now)) }
{
    begin_fault(line, index, records, count, fault.view)?;
    line.key("entry")?;
    put_entry(line, &fault.entry)?;
    line.key("update")?;
    put_update(
        line,
        index,
        records,
        fault.entry.component,
        fault.entry.number,
    )?;
    line.end_object()
}

fn word_of(side: Side) -> &'static str
    ensures { result.now ≡ side_word side }
{
    match side {
        Side::Old => "old",
        Side::Early => "early",
    }
}

fn put_proximity<O: Ownership>(
    line: &mut Line,
    index: &Index<'_, O>,
    records: &[u32],
    count: u64,
    fault: &ProximityFault,
) -> Result<(), AllocError>
    requires each { length records.now ≡ length index.now }
    requires named { IsNamed (calls_of index.now) (Proximity fault.now) }
    ensures { OnOk result (line.new.writer.tokens ≡ line.old.writer.tokens ++ json_tokens (proximity_json records.now (calls_of index.now) count fault.now)) }
{
    let update = side_number(fault.side, fault.number);
    begin_fault(line, index, records, count, fault.view)?;
    line.number("component", u64::from(fault.component))?;
    line.number("number", u64::from(fault.number))?;
    line.text("side", word_of(fault.side))?;
    line.key("update")?;
    put_update(line, index, records, fault.component, update)?;
    line.end_object()
}

fn put_read<O: Ownership>(
    line: &mut Line,
    index: &Index<'_, O>,
    records: &[u32],
    count: u64,
    fault: &ReadFault,
) -> Result<(), AllocError>
    requires each { length records.now ≡ length index.now }
    requires named { AreReadAt (calls_of index.now) fault.now }
    ensures { OnOk result (line.new.writer.tokens ≡ line.old.writer.tokens ++ json_tokens (read_json records.now (calls_of index.now) count fault.now)) }
{
    begin_fault(line, index, records, count, fault.view)?;
    line.key("other")?;
    put_call(line, index, records, fault.other)?;
    line.number("component", u64::from(fault.component))?;
    line.key("differs")?;
    put_differs(line, index, records, fault)?;
    line.end_object()
}

// Adds the object of a component and a number, with the update that has both.
fn put_named<O: Ownership>(
    line: &mut Line,
    index: &Index<'_, O>,
    records: &[u32],
    component: u8,
    number: u32,
) -> Result<(), AllocError>
    requires { length records.now ≡ length index.now }
    ensures { OnOk result (line.new.writer.tokens ≡ line.old.writer.tokens ++ json_tokens (named_json records.now (calls_of index.now) component number)) }
{
    line.begin_object()?;
    line.number("component", u64::from(component))?;
    line.number("number", u64::from(number))?;
    line.key("update")?;
    put_update(line, index, records, component, number)?;
    line.end_object()
}

fn put_write<O: Ownership>(
    line: &mut Line,
    index: &Index<'_, O>,
    records: &[u32],
    count: u64,
    fault: &WriteFault,
) -> Result<(), AllocError>
    requires each { length records.now ≡ length index.now }
    requires named { IsViewAt (calls_of index.now) fault.now.view }
    ensures { OnOk result (line.new.writer.tokens ≡ line.old.writer.tokens ++ json_tokens (write_json records.now (calls_of index.now) count fault.now)) }
{
    begin_fault(line, index, records, count, fault.view)?;
    line.key("misses")?;
    put_named(
        line,
        index,
        records,
        fault.missed_component,
        fault.missed_number,
    )?;
    line.key("shows")?;
    put_named(
        line,
        index,
        records,
        fault.shown_component,
        fault.shown_number,
    )?;
    line.end_object()
}

// Adds the object of a fault, which begins with the number of faults of its kind.
fn put_fault<O: Ownership>(
    line: &mut Line,
    index: &Index<'_, O>,
    records: &[u32],
    count: u64,
    fault: &Fault,
) -> Result<(), AllocError>
    requires each { length records.now ≡ length index.now }
    requires named { IsNamed (calls_of index.now) fault.now }
    ensures { OnOk result (line.new.writer.tokens ≡ line.old.writer.tokens ++ json_tokens (fault_json records.now (calls_of index.now) count fault.now)) }
{
    match fault {
        Fault::Integrity(fault) => put_integrity(line, index, records, count, fault),
        Fault::Proximity(fault) => put_proximity(line, index, records, count, fault),
        Fault::Read(fault) => put_read(line, index, records, count, fault),
        Fault::Write(fault) => put_write(line, index, records, count, fault),
    }
}

// Adds the first fault of a kind, or null if there is none.
fn put_first<O: Ownership>(
    line: &mut Line,
    index: &Index<'_, O>,
    records: &[u32],
    tally: &Tally,
    kind: Kind,
) -> Result<(), AllocError>
    requires each { length records.now ≡ length index.now }
    requires tally { tally.now ≡ tally_of (calls_of index.now) (views_of (calls_of index.now)) }
    ensures { OnOk result (line.new.writer.tokens ≡ line.old.writer.tokens ++ json_tokens (first_json records.now (calls_of index.now) tally.now kind)) }
{
    match first_fault_of(index, tally, kind) {
        Some(fault) => put_fault(line, index, records, tally.count(kind), &fault),
        None => line.null(),
    }
}

// Adds the word of a kind, and its first fault.
fn put_kind<O: Ownership>(
    line: &mut Line,
    index: &Index<'_, O>,
    records: &[u32],
    tally: &Tally,
    kind: Kind,
) -> Result<(), AllocError>
    requires each { length records.now ≡ length index.now }
    requires tally { tally.now ≡ tally_of (calls_of index.now) (views_of (calls_of index.now)) }
    ensures { OnOk result (line.new.writer.tokens ≡ line.old.writer.tokens
        ++ (token.key (kind_word kind) ∷ json_tokens (first_json records.now (calls_of index.now) tally.now kind))) }
{
    line.key(kind.word())?;
    put_first(line, index, records, tally, kind)
}

/// Adds the first fault of each kind, each after the word of its kind.
pub(crate) fn put_faults<O: Ownership>(
    line: &mut Line,
    index: &Index<'_, O>,
    records: &[u32],
    tally: &Tally,
) -> Result<(), AllocError>
    requires each { length records.now ≡ length index.now }
    requires tally { tally.now ≡ tally_of (calls_of index.now) (views_of (calls_of index.now)) }
    ensures { OnOk result (line.new.writer.tokens ≡ line.old.writer.tokens ++ field_tokens (fault_fields records.now (calls_of index.now) tally.now)) }
{
    for kind in &Kind::ALL {
        put_kind(line, index, records, tally, *kind)?;
    }
    Ok(())
}

//! The text of a history.
ghost use Rattle.std.specs.Prelude.{◌≡◌, ◌<◌, ◌^◌, ◌++◌, ◌∷◌, [], decimal, length, List, ℕ, map, IfOk, OnOk};
ghost use Rattle.std.specs.List.Sorted.{IsStrictlyIncreasing};
ghost use Rattle.csv.specs.Writing.{default_writer, row_text};
ghost use Rattle.snap_core.specs.Counting.{inner_of, failures_in};
ghost use Rattle.snap_csv.specs.Writing.{CountsWrite, Holds, Writes};
ghost use Rattle.snap_format.specs.Layout.{history_text, stamped_lines, stamped_text};
ghost use Rattle.snap_text.specs.Spelling.{spelled};

use crate::refusal::WriteRefusal;
use csv::{Writer, WriterBuilder};
use itoa::Buffer;
use snap_core::{Counted, Event, History, Ownership};
use snap_text::fields_of;
use std::alloc::{AllocError, Global};
use std::io::Write;

// Writes one record to memory.
fn write_record(writer: &mut Writer<Vec<u8>>, fields: &[&[u8]]) -> Result<(), AllocError>
    ensures { OnOk result ((text : List ℕ) → Holds writer.old text → Holds writer.new (text ++ row_text default_writer (map (λ f. f.now) fields.now))) }
{
    let Ok(()) = writer.write_fields(fields) else {
        return Err(AllocError);
    };
    Ok(())
}

// Writes the record of an event to memory.
fn write_event(alloc: Global, writer: &mut Writer<Vec<u8>>, event: &Event) -> Result<(), AllocError>
    ensures { OnOk result ((text : List ℕ) → Holds writer.old text → Holds writer.new (text ++ row_text default_writer (spelled event.now))) }
{
    let fields = fields_of(alloc, event)?;
    write_record(
        writer,
        &[
            fields[0].as_slice(),
            fields[1].as_slice(),
            fields[2].as_slice(),
            fields[3].as_slice(),
        ],
    )?;
    Ok(())
}

// A writer to memory that has written one record.
fn begin_with(alloc: Global, fields: &[&[u8]]) -> Result<Writer<Vec<u8>>, AllocError>
    ensures { IfOk result (λ writer. Holds writer (row_text default_writer (map (λ f. f.now) fields.now))) }
{
    let mut writer = WriterBuilder::new().from_writer(Vec::new(alloc));
    write_record(&mut writer, fields)?;
    Ok(writer)
}

// A writer to memory that has written the header.
fn begin_text(alloc: Global) -> Result<Writer<Vec<u8>>, AllocError>
    ensures { IfOk result (λ writer. Holds writer (history_text [])) }
{
    let writer = begin_with(
        alloc,
        &[
            b"event".as_slice(),
            b"process".as_slice(),
            b"op".as_slice(),
            b"data".as_slice(),
        ],
    )?;
    Ok(writer)
}

// What a writer to memory has written.
fn text_in(writer: Writer<Vec<u8>>) -> Result<Vec<u8>, AllocError>
    ensures { IfOk result (λ written. (text : List ℕ) → Holds writer text → written.items ≡ text) }
{
    match writer.into_inner() {
        Ok(text) => Ok(text),
        Err(_) => Err(AllocError),
    }
}

// Sends a whole text out.
fn send_text<W: Write>(writer: &mut Counted<W>, text: &[u8]) -> Result<(), WriteRefusal>
    ensures text { Writes (W.contents (inner_of writer.old)) (W.contents (inner_of writer.new)) text.now result }
    ensures counts { CountsWrite (failures_in writer.old) (failures_in writer.new) result }
{
    match writer.send(text) {
        Ok(()) => Ok(()),
        Err(_) => Err(WriteRefusal::Device),
    }
}

// The text of a history.
fn text_of<O: Ownership>(alloc: Global, history: &History<O>) -> Result<Vec<u8>, AllocError>
    ensures { IfOk result (λ text. text.items ≡ history_text history.now.events) }
{
    let mut writer = begin_text(alloc)?;
    let events = history.events();
    for event in events {
        write_event(alloc, &mut writer, event)?;
    }
    let text = text_in(writer)?;
    Ok(text)
}

/// Writes a history: the header, and then the record of each event, each ended by one newline. The whole text is built before
/// its first byte goes out, and the writer is flushed once at the end. After `Memory` nothing was written. After `Device` a front
/// of the text went out, perhaps all of it, and the writer's count of failures rose, or is at `u64::MAX`. Otherwise the count is
/// unchanged.
pub fn write_history<W: Write>(
    alloc: Global,
    writer: &mut Counted<W>,
    history: &History<impl Ownership>,
) -> Result<(), WriteRefusal>
    ensures text { Writes (W.contents (inner_of writer.old)) (W.contents (inner_of writer.new)) (history_text history.now.events) result }
    ensures counts { CountsWrite (failures_in writer.old) (failures_in writer.new) result }
{
    let text = text_of(alloc, history)?;
    send_text(writer, &text)
}

// Writes the record of an event with its stamp to memory.
fn write_stamped(
    alloc: Global,
    writer: &mut Writer<Vec<u8>>,
    at: u64,
    event: &Event,
) -> Result<(), AllocError>
    ensures small { at < 2 ^ 64 }
    ensures line { OnOk result ((text : List ℕ) → Holds writer.old text → Holds writer.new (text ++ row_text default_writer (decimal at ∷ spelled event.now))) }
{
    let mut buffer = Buffer::new();
    let stamp = buffer.format(at).as_bytes();
    let fields = fields_of(alloc, event)?;
    write_record(
        writer,
        &[
            stamp,
            fields[0].as_slice(),
            fields[1].as_slice(),
            fields[2].as_slice(),
            fields[3].as_slice(),
        ],
    )?;
    Ok(())
}

// A writer to memory that has written the header of a text with stamps.
fn begin_stamped(alloc: Global) -> Result<Writer<Vec<u8>>, AllocError>
    ensures { IfOk result (λ writer. Holds writer (stamped_lines [])) }
{
    let writer = begin_with(
        alloc,
        &[
            b"at".as_slice(),
            b"event".as_slice(),
            b"process".as_slice(),
            b"op".as_slice(),
            b"data".as_slice(),
        ],
    )?;
    Ok(writer)
}

// The text of a history with a stamp for each event.
fn stamped_text_of<O: Ownership>(
    alloc: Global,
    history: &History<O>,
    at: &[u64],
) -> Result<Vec<u8>, AllocError>
    requires { length at.now ≡ length history.now.events }
    ensures { IfOk result (λ text. text.items ≡ stamped_text at.now history.now.events) }
{
    let mut writer = begin_stamped(alloc)?;
    let events = history.events();
    for i in 0..events.len() {
        write_stamped(alloc, &mut writer, at[i], &events[i])?;
    }
    let text = text_in(writer)?;
    Ok(text)
}

/// Writes a history with a stamp for each event, as `write_history` does without stamps. The header has the field `at` before
/// the others, and each record the stamp of its event. Records are in the order of the events.
pub fn write_history_stamped<W: Write>(
    alloc: Global,
    writer: &mut Counted<W>,
    history: &History<impl Ownership>,
    at: &[u64],
) -> Result<(), WriteRefusal>
    requires each { length at.now ≡ length history.now.events }
    requires rising { IsStrictlyIncreasing at.now }
    ensures text { Writes (W.contents (inner_of writer.old)) (W.contents (inner_of writer.new)) (stamped_text at.now history.now.events) result }
    ensures counts { CountsWrite (failures_in writer.old) (failures_in writer.new) result }
{
    let text = stamped_text_of(alloc, history, at)?;
    send_text(writer, &text)
}

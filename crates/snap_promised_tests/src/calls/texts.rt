//! Callers of the calls of snap_core and snap_csv.
ghost use Rattle.std.specs.Prelude.{◌≡◌, length};
ghost use Rattle.std.specs.List.Sorted.{IsStrictlyIncreasing};

use snap_core::{Counted, Entry, Event, EventRefusal, Gate, History, View, ViewRefusal};
use snap_csv::{ReadRefusal, WriteRefusal};
use std::alloc::{AllocError, Global};
use std::io;
use std::io::{Read, Write};

fn view_from_entries(entries: Vec<Entry>) -> Result<View, ViewRefusal> {
    View::from_entries(entries)
}

fn view_number(view: &View, k: u8) -> u32 {
    view.number(k)
}

fn view_value(view: &View, k: u8) -> u32 {
    view.value(k)
}

fn view_entries(view: &View) -> &[Entry] {
    view.entries()
}

fn history_new(alloc: Global) -> History {
    History::new(alloc)
}

fn history_len(history: &History) -> usize {
    history.len()
}

fn history_event(history: &History, i: usize) -> Option<&Event> {
    history.event(i)
}

fn history_push(history: &mut History, event: Event) -> Result<(), (Event, EventRefusal)> {
    history.push(event)
}

fn counted_new<T>(inner: T) -> Counted<T> {
    Counted::new(inner)
}

fn counted_failures<T>(counted: &Counted<T>) -> u64 {
    counted.failures()
}

fn counted_into_inner<T>(counted: Counted<T>) -> T {
    counted.into_inner()
}

fn counted_read<R: Read>(counted: &mut Counted<R>, buf: &mut [u8]) -> io::Result<usize> {
    counted.read(buf)
}

fn counted_write<W: Write>(counted: &mut Counted<W>, buf: &[u8]) -> io::Result<usize> {
    counted.write(buf)
}

fn counted_flush<W: Write>(counted: &mut Counted<W>) -> io::Result<()> {
    counted.flush()
}

fn gate_at<G: Gate>(gate: &G, worker: u32, turn: u32) {
    gate.at(worker, turn)
}

fn read_history<R: Read>(alloc: Global, reader: &mut Counted<R>) -> Result<History, ReadRefusal> {
    snap_csv::read_history(alloc, reader)
}

fn write_history<W: Write>(
    alloc: Global,
    writer: &mut Counted<W>,
    history: &History,
) -> Result<(), WriteRefusal> {
    snap_csv::write_history(alloc, writer, history)
}

fn write_history_stamped<W: Write>(
    alloc: Global,
    writer: &mut Counted<W>,
    history: &History,
    at: &[u64],
) -> Result<(), WriteRefusal>
    requires each { length at.now ≡ length history.now.events }
    requires rising { IsStrictlyIncreasing at.now }
{
    snap_csv::write_history_stamped(alloc, writer, history, at)
}

fn fields_of(alloc: Global, event: &Event) -> Result<[Vec<u8>; 4], AllocError> {
    snap_csv::fields_of(alloc, event)
}

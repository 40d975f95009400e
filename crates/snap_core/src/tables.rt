//! The tables by which a history tests its next event in constant time.
ghost use Rattle.std.specs.Prelude.{◌≡◌, ◌<◌, ℕ, List, [], OnOk, None, slice_index_or, vec_len, if◌then◌else◌, ◌==◌};
ghost use Rattle.snap_core.specs.declared.writers.Writers.{Writers};
ghost use Rattle.snap_core.specs.declared.writers.Writers.TheVariants.{One};
ghost use Rattle.snap_core.specs.Events.{Event};
ghost use Rattle.snap_core.specs.Refusals.{is_busy as spec_is_busy, is_idle as spec_is_idle, is_other as spec_is_other, has_other_writer as spec_has_other_writer, has_other_number as spec_has_other_number, ends_early as spec_ends_early};
ghost use Rattle.snap_core.specs.inside.Tables.{count_in, ended_in, ends_begun, HasRoom, call_in, IsRecalled, Recalls, writer_after, writer_begun, writer_ended, writer_in};

use crate::entry::Entry;
use crate::event::{Begun, Event};
use std::alloc::{AllocError, Global};

/// The process that last began an update of a component, the number of its updates that have begun, and the highest number of
/// those that have ended.
#[derive(Clone, Copy)]
pub(crate) struct Writer {
    pub(crate) process: u16,
    pub(crate) count: u32,
    pub(crate) ended: u32,
}

/// What a history keeps of its events, so that it need not look back at them. It keeps the open call of each process, and the
/// updates of each component. A place past the end of a table has none.
#[derive(Drop)]
pub(crate) struct Tables {
    calls: Vec<Option<Begun>>,
    writers: Vec<Option<Writer>>,
}

// What a table has at a place; none past its end.
fn look_up<T: Copy>(table: &[Option<T>], place: usize) -> Option<T>
    ensures { result ≡ slice_index_or table.now place None }
{
    table.get(place).copied().flatten()
}

// Makes a table long enough for a place. What it has at every place is unchanged.
fn make_room<T: Drop>(table: &mut Vec<Option<T>>, place: usize) -> Result<(), AllocError>
    ensures same { (i : ℕ) → slice_index_or table.new.items i None ≡ slice_index_or table.old.items i None }
    ensures room { OnOk result (place < vec_len table.new) }
{
    while table.len() <= place {
        table.push(None)?;
    }
    Ok(())
}

// Whether an event ends what was begun.
fn ends(begun: Option<Begun>, event: &Event) -> bool
    ensures { result ≡ ends_begun begun event.now }
{
    match begun {
        Some(Begun::Update(_)) => match event {
            Event::EndUpdate { .. } => true,
            _ => false,
        },
        Some(Begun::View) => match event {
            Event::EndView { .. } => true,
            _ => false,
        },
        None => false,
    }
}

impl Tables {
    // The tables of the history without events.
    pub(crate) fn new(alloc: Global) -> Tables
        ensures { (writers : Writers) → Recalls writers result [] }
    {
        Tables {
            calls: Vec::new(alloc),
            writers: Vec::new(alloc),
        }
    }

    pub(crate) fn open_call(&self, process: u16) -> Option<Begun>
        ensures { result ≡ call_in self.now process }
    {
        look_up(&self.calls, process as usize)
    }

    pub(crate) fn writer(&self, component: u8) -> Option<Writer>
        ensures { result ≡ writer_in self.now component }
    {
        look_up(&self.writers, component as usize)
    }

    // The number of a component's updates that have begun.
    fn count(&self, component: u8) -> u32
        ensures { result ≡ count_in (writer_in self.now component) }
    {
        match self.writer(component) {
            Some(writer) => writer.count,
            None => 0,
        }
    }

    // The highest number of a component's updates that have ended.
    fn ended(&self, component: u8) -> u32
        ensures { result ≡ ended_in (writer_in self.now component) }
    {
        match self.writer(component) {
            Some(writer) => writer.ended,
            None => 0,
        }
    }

    // Whether an event begins a call of a process that has one open.
    pub(crate) fn is_busy(&self, event: &Event) -> bool
        ensures { (writers : Writers) (es : List Event) → IsRecalled writers self.now es → result ≡ spec_is_busy es event.now }
    {
        event.is_begin() && self.open_call(event.process()).is_some()
    }

    // Whether an event ends a call of a process that has none open.
    pub(crate) fn is_idle(&self, event: &Event) -> bool
        ensures { (writers : Writers) (es : List Event) → IsRecalled writers self.now es → result ≡ spec_is_idle es event.now }
    {
        !event.is_begin() && self.open_call(event.process()).is_none()
    }

    // Whether an event ends a call of another kind than the open one.
    pub(crate) fn is_other(&self, event: &Event) -> bool
        ensures { (writers : Writers) (es : List Event) → IsRecalled writers self.now es → result ≡ spec_is_other es event.now }
    {
        !event.is_begin() && !ends(self.open_call(event.process()), event)
    }

    // Whether an event begins an update of a component that another process writes.
    pub(crate) fn has_other_writer(&self, event: &Event) -> bool
        ensures { (es : List Event) → IsRecalled One self.now es → result ≡ spec_has_other_writer es event.now }
    {
        match event {
            Event::BeginUpdate { process, entry } => match self.writer(entry.component) {
                Some(writer) => writer.process != *process,
                None => false,
            },
            _ => false,
        }
    }

    // Whether an event begins an update whose number is not the next of its component.
    pub(crate) fn has_other_number(&self, event: &Event) -> bool
        ensures { (writers : Writers) (es : List Event) → IsRecalled writers self.now es → result ≡ spec_has_other_number es event.now }
    {
        match event {
            Event::BeginUpdate { entry, .. } => {
                entry.number as u64 != self.count(entry.component) as u64 + 1
            }
            _ => false,
        }
    }

    // Whether an event ends an update before one of its component with a lower number.
    pub(crate) fn ends_early(&self, event: &Event) -> bool
        ensures { (writers : Writers) (es : List Event) → IsRecalled writers self.now es → result ≡ spec_ends_early es event.now }
    {
        match event {
            Event::EndUpdate { process } => match self.open_call(*process) {
                Some(Begun::Update(entry)) => {
                    (self.ended(entry.component) as u64 + 1) < entry.number as u64
                }
                _ => false,
            },
            _ => false,
        }
    }

    // Makes room for a call. What the tables say is unchanged.
    pub(crate) fn make_room(&mut self, process: u16, begun: Option<Begun>) -> Result<(), AllocError>
        ensures calls { (p : ℕ) → call_in self.new p ≡ call_in self.old p }
        ensures writers { (k : ℕ) → writer_in self.new k ≡ writer_in self.old k }
        ensures room { OnOk result (HasRoom self.new process begun) }
    {
        make_room(&mut self.calls, process as usize)?;
        if let Some(Begun::Update(entry)) = begun {
            make_room(&mut self.writers, entry.component as usize)?;
        }
        Ok(())
    }

    // Notes that a process begins an update.
    fn note_begin(&mut self, process: u16, entry: Entry)
        requires { entry.component < vec_len self.old.writers }
        ensures calls { self.new.calls ≡ self.old.calls }
        ensures writers { (k : ℕ) → writer_in self.new k ≡ writer_begun process entry k (writer_in self.old k) }
    {
        let ended = self.ended(entry.component);
        self.writers[entry.component as usize] = Some(Writer {
            process,
            count: entry.number,
            ended,
        });
    }

    // Notes that an update ends.
    fn note_end(&mut self, entry: Entry)
        ensures calls { self.new.calls ≡ self.old.calls }
        ensures writers { (k : ℕ) → writer_in self.new k ≡ writer_ended entry k (writer_in self.old k) }
    {
        if let Some(writer) = self.writer(entry.component) {
            self.writers[entry.component as usize] = Some(Writer {
                ended: entry.number,
                ..writer
            });
        }
    }

    // Notes an event of a process: either what it begins, or that it ends the open call.
    pub(crate) fn note(&mut self, process: u16, begun: Option<Begun>)
        requires { HasRoom self.old process begun }
        ensures calls { (p : ℕ) → call_in self.new p ≡ (if process == p then begun else call_in self.old p) }
        ensures writers { (k : ℕ) → writer_in self.new k ≡ writer_after process (call_in self.old process) begun k (writer_in self.old k) }
    {
        let open = self.open_call(process);
        self.calls[process as usize] = begun;
        match begun {
            Some(Begun::Update(entry)) => self.note_begin(process, entry),
            Some(Begun::View) => {}
            None => {
                if let Some(Begun::Update(entry)) = open {
                    self.note_end(entry);
                }
            }
        }
    }
}

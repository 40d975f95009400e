//! Events: the begins and ends of calls.
ghost use Rattle.std.specs.Prelude.{◌≡◌};
ghost use Rattle.snap_core.specs.Events.{EventFits, process_of};
ghost use Rattle.snap_core.specs.Refusals.{is_begin as spec_is_begin};
ghost use Rattle.snap_core.specs.inside.Tables.{begun_by};

use crate::entry::{Entry, fields_fit};
use crate::view::View;

/// The begin or the end of a call of a process.
#[derive(Debug, Drop)]
pub enum Event {
    BeginUpdate { process: u16, entry: Entry },
    BeginView { process: u16 },
    EndUpdate { process: u16 },
    EndView { process: u16, view: View },
}

/// What a call was begun as.
#[derive(Clone, Copy)]
pub(crate) enum Begun {
    Update(Entry),
    View,
}

impl Event {
    /// The process that calls.
    pub fn process(&self) -> u16
        ensures { result ≡ process_of self.now }
    {
        match self {
            Event::BeginUpdate { process, .. } => *process,
            Event::BeginView { process } => *process,
            Event::EndUpdate { process } => *process,
            Event::EndView { process, .. } => *process,
        }
    }

    /// Whether the event begins a call.
    pub fn is_begin(&self) -> bool
        ensures { result ≡ spec_is_begin self.now }
    {
        match self {
            Event::BeginUpdate { .. } => true,
            Event::BeginView { .. } => true,
            Event::EndUpdate { .. } => false,
            Event::EndView { .. } => false,
        }
    }

    /// A fact for proofs: each field is in the range of its type. The call does nothing.
    pub fn fits(&self)
        ensures { EventFits self.now }
    {
        let _process = self.process();
        match self {
            Event::BeginUpdate { process: _, entry } => {
                fields_fit(entry.component, entry.number, entry.value);
            }
            Event::EndView { process: _, view } => {
                let _entries = view.entries();
            }
            _ => {}
        }
    }

    pub(crate) fn begun(&self) -> Option<Begun>
        ensures { result ≡ begun_by self.now }
    {
        match self {
            Event::BeginUpdate { entry, .. } => Some(Begun::Update(*entry)),
            Event::BeginView { .. } => Some(Begun::View),
            Event::EndUpdate { .. } => None,
            Event::EndView { .. } => None,
        }
    }
}

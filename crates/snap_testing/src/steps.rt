//! A short notation of events, and the histories of lists of them.
use snap_core::{Entry, Event, EventRefusal, History, View, ViewRefusal};
use std::alloc::Global;

/// Component, number and value of an entry.
pub type Shown = (u8, u32, u32);

/// An event of a process.
#[derive(Clone, Copy)]
pub enum Step<'a> {
    /// The process begins an update.
    Update(u16, Shown),
    /// Its update ends.
    Updated(u16),
    /// The process begins a view.
    View(u16),
    /// Its view ends and shows these entries.
    Viewed(u16, &'a [Shown]),
}

/// Why steps are not a history.
#[derive(Drop, Debug)]
pub enum Refused {
    View(ViewRefusal),
    Event(EventRefusal),
    Memory,
}

/// The entry of a component, a number and a value.
pub fn entry(component: u8, number: u32, value: u32) -> Entry {
    Entry {
        component,
        number,
        value,
    }
}

fn entry_of((component, number, value): Shown) -> Entry {
    entry(component, number, value)
}

fn view_of(alloc: Global, shown: &[Shown]) -> Result<View, Refused> {
    let mut entries = Vec::new(alloc);
    for entry in shown {
        entries
            .push(entry_of(*entry))
            .map_err(|_full| Refused::Memory)?;
    }
    View::from_entries(entries).map_err(Refused::View)
}

/// The event of a step.
pub fn event_of(alloc: Global, step: Step<'_>) -> Result<Event, Refused> {
    Ok(match step {
        Step::Update(process, shown) => Event::BeginUpdate {
            process,
            entry: entry_of(shown),
        },
        Step::Updated(process) => Event::EndUpdate { process },
        Step::View(process) => Event::BeginView { process },
        Step::Viewed(process, shown) => Event::EndView {
            process,
            view: view_of(alloc, shown)?,
        },
    })
}

/// The history of these steps.
pub fn history_of(alloc: Global, steps: &[Step<'_>]) -> Result<History, Refused> {
    let mut history = History::new(alloc);
    for step in steps {
        let event = event_of(alloc, *step)?;
        history
            .push(event)
            .map_err(|(_event, refusal)| Refused::Event(refusal))?;
    }
    Ok(history)
}

//! The last entry of each component, as updates run one after another.
ghost use Rattle.std.specs.Prelude.{◌≡◌, ◌↔◌, None, Some, All, IfOk, IsTrue, replicate, slice_set};
ghost use Rattle.snap_core.specs.Entries.{component_count};
ghost use Rattle.snap_order.specs.inside.Shown.{IsLast, ShowsLast};

use snap_core::{COMPONENT_COUNT, Entry, View};
use std::alloc::{AllocError, Global};
use std::marker::Model;

/// The last entry of each component, as updates run one after another.
#[derive(Drop)]
pub(crate) struct LastEntries {
    entries: Vec<Option<Entry>>,
    // the number of components that have an entry
    written: usize,
}

impl Model for LastEntries {
    ghost use Rattle.std.specs.Prelude.{List, Option};
    ghost use Rattle.snap_core.specs.declared.entry.Entry.{Entry};
    ghost use Rattle.snap_order.specs.inside.Shown.{AreCounted};

    ghost Value = { List (Option Entry) };

    ghost view = { λ a. a.entries.items };

    ghost invariant = { λ a. AreCounted a.entries.items a.written };
}

impl LastEntries {
    // Without an entry of any component.
    pub(crate) fn new(alloc: Global) -> Result<LastEntries, AllocError>
        ensures { IfOk result (λ last. last ≡ replicate component_count None) }
    {
        let entries = vec![in alloc; None; COMPONENT_COUNT]?;
        Ok(LastEntries {
            entries,
            written: 0,
        })
    }

    // Makes an entry the last of its component.
    pub(crate) fn put(&mut self, entry: Entry)
        ensures { self.new ≡ slice_set self.old entry.component (Some entry) }
    {
        let place = entry.component as usize;
        if self.entries[place].is_none() {
            self.written += 1;
        }
        self.entries[place] = Some(entry);
    }

    // Whether a view shows of each component its last entry, or nothing if it has none.
    pub(crate) fn are_shown_by(&self, view: &View) -> bool
        ensures { IsTrue result ↔ ShowsLast view.now self.now }
    {
        let entries = view.entries();
        entries.len() == self.written && self.have_all(entries)
    }

    // Whether each of the entries is the last of its component.
    fn have_all(&self, entries: &[Entry]) -> bool
        ensures { IsTrue result ↔ All (IsLast self.now) entries.now }
    {
        entries.iter().all(|entry| self.entries[entry.component as usize] == Some(*entry))
    }
}

//! Views, and why entries are refused as a view.
ghost use Rattle.std.specs.Prelude.{◌≡◌, ◌<◌, All, IfOk, IfErr, OnOk};
ghost use Rattle.snap_core.specs.Entries.{EntryFits, view_refusal, entry_of, number_in, value_in, AreEntries};
ghost use Rattle.snap_core.specs.Shown.{shown_in};

use crate::entry::{Entry, fields_fit};
use std::alloc::AllocError;
use std::marker::Model;
use std::sync::Arc;

/// Why entries are not a view, in the order in which the reasons are tested.
#[derive(Clone, Copy, PartialEq, Eq, Debug)]
pub enum ViewRefusal {
    /// Some component is not greater than the one before it.
    NotRising,
    /// The components rise, and some number is 0.
    ZeroNumber,
}

// The entries of a view: its own, or those that it shares with other views.
#[derive(Debug, Drop)]
enum Shown {
    Own(Vec<Entry>),
    Shared(Arc<Vec<Entry>>),
}

impl Shown {
    fn entries(&self) -> &[Entry]
        ensures { result.now ≡ shown_in self.now }
    {
        match self {
            Shown::Own(entries) => entries,
            Shown::Shared(entries) => entries,
        }
    }
}

/// What a completed view shows: entries strictly rising by component, each number at least 1.
#[derive(Debug, Drop)]
pub struct View {
    shown: Shown,
}

impl Model for View {
    ghost use Rattle.std.specs.Prelude.{List};
    ghost use Rattle.snap_core.specs.declared.entry.Entry.{Entry};
    ghost use Rattle.snap_core.specs.Entries.{AreEntries};
    ghost use Rattle.snap_core.specs.Shown.{shown_in};

    ghost Value = { List Entry };

    ghost view = { λ v. shown_in v.shown };

    ghost invariant = { λ v. AreEntries (shown_in v.shown) };
}

fn entries_fit(entries: &[Entry])
    ensures { All EntryFits entries.now }
{
    for e in entries.iter() {
        fields_fit(e.component, e.number, e.value);
    }
}

// The first refusal that applies to entries. Most entries are a view, so the loop looks at each without a branch.
fn refusal_of(entries: &[Entry]) -> Option<ViewRefusal>
    ensures { result ≡ view_refusal entries.now }
{
    let mut falls = false;
    let mut least = 0;
    let mut has_zero = false;
    for entry in entries {
        let component = u32::from(entry.component);
        falls |= component < least;
        least = component + 1;
        has_zero |= entry.number == 0;
    }
    if falls {
        Some(ViewRefusal::NotRising)
    } else if has_zero {
        Some(ViewRefusal::ZeroNumber)
    } else {
        None
    }
}

// The entry of a component. Most lists have an entry of each component up to their last, so its place is tried first.
fn find_entry(entries: &[Entry], k: u8) -> Option<Entry>
    requires { AreEntries entries.now }
    ensures { result ≡ entry_of k entries.now }
{
    let place = k as usize;
    if place < entries.len() && entries[place].component == k {
        return Some(entries[place]);
    }
    let place = entries.partition_point(|entry| entry.component < k);
    if place == entries.len() || entries[place].component != k {
        return None;
    }
    Some(entries[place])
}

impl View {
    /// The view that shows these entries, or the first refusal that applies. Refused entries are dropped.
    pub fn from_entries(entries: Vec<Entry>) -> Result<View, ViewRefusal>
        ensures ok { IfOk result (λ view. view ≡ entries.items) }
        ensures accepted { OnOk result (view_refusal entries.items ≡ None) }
        ensures refused { IfErr result (λ refusal. view_refusal entries.items ≡ Some refusal) }
    {
        if let Some(refusal) = refusal_of(&entries) {
            return Err(refusal);
        }
        entries_fit(&entries);
        Ok(View {
            shown: Shown::Own(entries),
        })
    }

    /// A view that shows the same, and whose entries other views can share. It fails only for lack of memory.
    pub fn shared(self) -> Result<View, AllocError>
        ensures { IfOk result (λ view. view ≡ self) }
    {
        let shown = match self.shown {
            Shown::Own(entries) => Shown::Shared(Arc::new(*entries.allocator(), entries)?),
            shared => shared,
        };
        Ok(View { shown })
    }

    /// Another view that shows the same. It copies the entries, unless the view can share them. It fails only for lack of memory.
    pub fn again(&self) -> Result<View, AllocError>
        ensures { IfOk result (λ view. view ≡ self.now) }
    {
        let shown = match &self.shown {
            Shown::Own(entries) => Shown::Own(entries.clone()?),
            Shown::Shared(entries) => Shown::Shared(entries.clone()?),
        };
        Ok(View { shown })
    }

    /// The number shown for a component, 0 if the view does not list it.
    pub fn number(&self, k: u8) -> u32
        ensures { result ≡ number_in (entry_of k self.now) }
    {
        match find_entry(self.shown.entries(), k) {
            Some(e) => e.number,
            None => 0,
        }
    }

    /// The value shown for a component, 0 if the view does not list it.
    pub fn value(&self, k: u8) -> u32
        ensures { result ≡ value_in (entry_of k self.now) }
    {
        match find_entry(self.shown.entries(), k) {
            Some(e) => e.value,
            None => 0,
        }
    }

    /// The entries, strictly rising by component.
    pub fn entries(&self) -> &[Entry]
        ensures entries { result.now ≡ self.now }
        ensures view { AreEntries self.now }
    {
        self.shown.entries()
    }
}

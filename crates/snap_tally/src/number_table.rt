//! The numbers that views show, kept by components.
ghost use Rattle.std.specs.Prelude.{◌≡◌, ◌<◌, true, [], length, get_or, replicate, slice_set, All, IfOk, OnOk};
ghost use Rattle.snap_tally.specs.inside.NumberTables.{opened, HasRows, IsPut};
ghost use Rattle.snap_core.specs.Entries.{EntryFits, component_count, rises};

use snap_core::{COMPONENT_COUNT, Entry};
use std::alloc::{AllocError, Global};
use std::marker::Model;

// The numbers that views show, component by component: a number for each view if some view lists the component, else none.
#[derive(Drop)]
pub(crate) struct NumberTable {
    by_component: Vec<Vec<u32>>,
}

impl Model for NumberTable {
    ghost use Rattle.std.specs.Prelude.{◌≡◌, ℕ, List, length};
    ghost use Rattle.snap_core.specs.Entries.{component_count};
    ghost use Rattle.snap_index.specs.Rows.{rows};

    ghost Value = { List (List ℕ) };

    ghost view = { λ t. rows t.by_component.items };

    ghost invariant = { λ t. length t.by_component.items ≡ component_count };
}

impl NumberTable {
    // The table without a view.
    pub(crate) fn new(alloc: Global) -> Result<NumberTable, AllocError>
        ensures { IfOk result (λ table. table ≡ replicate component_count []) }
    {
        let mut by_component = Vec::new(alloc);
        for _k in 0..COMPONENT_COUNT {
            by_component.push(Vec::new(alloc))?;
        }
        Ok(NumberTable { by_component })
    }

    // Makes room for the numbers of `count` views of component k, 0 each, if there is none.
    fn open(&mut self, alloc: Global, k: u8, count: usize) -> Result<(), AllocError>
        ensures { OnOk result (self.new ≡ slice_set self.old k (opened count (get_or self.old k []))) }
    {
        if self.by_component[k as usize].is_empty() {
            self.by_component[k as usize] = vec![in alloc; 0; count]?;
        }
        Ok(())
    }

    // Puts the number that one of `count` views shows of component k.
    pub(crate) fn put(
        &mut self,
        alloc: Global,
        count: usize,
        k: u8,
        place: usize,
        number: u32,
    ) -> Result<(), AllocError>
        requires rows { HasRows count self.old }
        requires place { place < count }
        ensures { OnOk result (self.new ≡ slice_set self.old k (slice_set (opened count (get_or self.old k [])) place number)) }
    {
        self.open(alloc, k, count)?;
        self.by_component[k as usize][place] = number;
        Ok(())
    }

    // Puts the numbers of the view at a place, one of `count` views.
    pub(crate) fn put_view(
        &mut self,
        alloc: Global,
        count: usize,
        place: usize,
        entries: &[Entry],
    ) -> Result<(), AllocError>
        requires rows { HasRows count self.old }
        requires place { place < count }
        requires rising { rises entries.now ≡ true }
        requires fit { All EntryFits entries.now }
        ensures { OnOk result (IsPut count place entries.now self.old self.new) }
    {
        for entry in entries {
            self.put(alloc, count, entry.component, place, entry.number)?;
        }
        Ok(())
    }

    // Takes out the numbers of component k.
    pub(crate) fn take(&mut self, alloc: Global, k: u8) -> Vec<u32>
        ensures taken { result.items ≡ get_or self.old k [] }
        ensures left { self.new ≡ slice_set self.old k [] }
    {
        std::mem::replace(&mut self.by_component[k as usize], Vec::new(alloc))
    }
}

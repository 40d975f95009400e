//! Lists of updates, one for each component.
ghost use Rattle.std.specs.Prelude.{◌≡◌, ◌≤◌, ◌<◌, ◌+◌, ℕ, [], ◌∷◌, ◌++◌, OnOk, get_or, length, replicate, slice_set};
ghost use Rattle.snap_core.specs.Entries.{component_count};
ghost use Rattle.snap_index.specs.Rows.{rows};
ghost use Rattle.snap_index.specs.inside.Tables.{padded};

use std::alloc::{AllocError, Global};
use std::marker::Model;

// The updates of each component, in their order: a list for each component up to the last that has an update.
#[derive(Drop)]
pub(crate) struct UpdateTable<T> {
    by_component: Vec<Vec<T>>,
}

impl<T> Model for UpdateTable<T> {
    ghost use Rattle.std.specs.Prelude.{◌≤◌, List, length};
    ghost use Rattle.snap_core.specs.Entries.{component_count};

    ghost Value = { List (List T) };

    ghost use Rattle.snap_index.specs.Rows.{rows};
    ghost use Rattle.snap_index.specs.inside.Tables.{padded};

    ghost view = { λ t. padded (rows t.by_component.items) };

    ghost invariant = { λ t. length t.by_component.items ≤ component_count };
}

// Makes a table long enough for component k. What it has is unchanged.
fn make_room<T: Drop>(table: &mut Vec<Vec<T>>, k: u8) -> Result<(), AllocError>
    requires { length table.old.items ≤ component_count }
    ensures same { padded (rows table.new.items) ≡ padded (rows table.old.items) }
    ensures limit { length table.new.items ≤ component_count }
    ensures room { OnOk result (k < length table.new.items) }
{
    let alloc = *table.allocator();
    while table.len() <= k as usize {
        table.push(Vec::new(alloc))?;
    }
    Ok(())
}

// The number of lists up to the last that has an update. A put for which memory ran out may leave empty lists after it.
fn filled<T: Drop>(table: &[Vec<T>]) -> usize
    ensures within { result ≤ length table.now }
    ensures none { (i : ℕ) → result ≤ i → i < length table.now → get_or (rows table.now) i [] ≡ [] }
    ensures last { (i : ℕ) → result ≡ i + 1 → 0 < length (get_or (rows table.now) i []) }
{
    let mut count = table.len();
    while count > 0 && table[count - 1].is_empty() {
        count -= 1;
    }
    count
}

impl<T: Drop> UpdateTable<T> {
    // The table without updates.
    pub(crate) fn new(alloc: Global) -> UpdateTable<T>
        ensures { result ≡ replicate component_count [] }
    {
        UpdateTable {
            by_component: Vec::new(alloc),
        }
    }

    // Puts an update after those of component k.
    pub(crate) fn put(&mut self, k: u8, update: T) -> Result<(), AllocError>
        ensures { OnOk result (self.new ≡ slice_set self.old k (get_or self.old k [] ++ update ∷ [])) }
    {
        make_room(&mut self.by_component, k)?;
        self.by_component[k as usize].push(update)?;
        Ok(())
    }

    pub(crate) fn of(&self, k: u8) -> &[T]
        ensures { result.now ≡ get_or self.now k [] }
    {
        match self.by_component.get(k as usize) {
            Some(updates) => updates,
            None => &[],
        }
    }

    // One more than the last component with an update; 0 if there is no update.
    pub(crate) fn limit(&self) -> usize
        ensures few { result ≤ component_count }
        ensures none { (k : ℕ) → result ≤ k → k < component_count → get_or self.now k [] ≡ [] }
        ensures last { (k : ℕ) → result ≡ k + 1 → 0 < length (get_or self.now k []) }
    {
        filled(&self.by_component)
    }
}

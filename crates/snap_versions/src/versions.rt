//! The versions of updates, in a list for each component. Each list rises, so a rank is one search.
ghost use Rattle.std.specs.Prelude.{◌≡◌, ◌≤◌, ◌<◌, ◌&&◌, ◌==◌, ◌++◌, ◌∷◌, ℕ, Bool, [], not, length, replicate, count_by, slice_set, IfOk, OnOk};
ghost use Rattle.snap_core.specs.Entries.{component_count};
ghost use Rattle.snap_core.specs.Events.{event_cap};
ghost use Rattle.snap_index.specs.Rows.{rows};
ghost use Rattle.snap_versions.specs.inside.Listed.{calls_listed};
ghost use Rattle.snap_versions.specs.inside.Versions.{AreVersionsOf, AllRise, has_version, rank_among, versions_in};

use crate::listed::{Listed, ListedOperation};
use crate::ranks::{is_among, rank_in};
use snap_core::COMPONENT_COUNT;
use std::alloc::{AllocError, Global};
use std::marker::Model;

// A list without versions for each component.
fn empty_lists(alloc: Global) -> Result<Vec<Vec<u32>>, AllocError>
    ensures { IfOk result (λ lists. rows lists.items ≡ replicate component_count []) }
{
    let mut lists = Vec::with_capacity(alloc, COMPONENT_COUNT)?;
    for _ in 0..COMPONENT_COUNT {
        lists.push(Vec::new(alloc))?;
    }
    Ok(lists)
}

// Puts a version after those of its component.
fn put(lists: &mut [Vec<u32>], component: u8, number: u32) -> Result<(), AllocError>
    requires { length lists.old ≡ component_count }
    ensures size { length lists.new ≡ length lists.old }
    ensures byte { component < component_count }
    ensures put { OnOk result (rows lists.new ≡ slice_set (rows lists.old) component (versions_in (rows lists.old) component ++ number ∷ [])) }
{
    lists[usize::from(component)].push(number)?;
    Ok(())
}

// The versions of each component's updates, in the order of the calls.
fn lists_of(alloc: Global, calls: &[Listed<'_>]) -> Result<Vec<Vec<u32>>, AllocError>
    ensures { IfOk result (λ lists. AreVersionsOf (calls_listed calls.now) (rows lists.items)) }
{
    let mut lists = empty_lists(alloc)?;
    for call in calls {
        if let ListedOperation::Update(entry) = call.operation {
            put(&mut lists, entry.component, entry.number)?;
        }
    }
    Ok(lists)
}

// Sorts each list.
fn sort_each(lists: &mut [Vec<u32>])
    ensures size { length lists.new ≡ length lists.old }
    ensures rising { AllRise (rows lists.new) }
    ensures same { (k : ℕ) (test : ℕ → Bool) → count_by test (versions_in (rows lists.new) k) ≡ count_by test (versions_in (rows lists.old) k) }
{
    for list in lists.iter_mut() {
        list.sort_unstable();
    }
}

/// The versions of each component, in rising order.
#[derive(Drop)]
pub(crate) struct Versions {
    by_component: Vec<Vec<u32>>,
}

impl Model for Versions {
    ghost use Rattle.std.specs.Prelude.{ℕ, List};
    ghost use Rattle.snap_index.specs.Rows.{rows};
    ghost use Rattle.snap_versions.specs.inside.Versions.{IsTable};

    ghost Value = { List (List ℕ) };

    ghost view = { λ v. rows v.by_component.items };

    ghost invariant = { λ v. IsTable (rows v.by_component.items) };
}

impl Versions {
    /// The versions of the updates among some calls. The error is lack of memory.
    pub(crate) fn of(alloc: Global, calls: &[Listed<'_>]) -> Result<Versions, AllocError>
        requires { length calls.now ≤ event_cap }
        ensures { IfOk result (λ versions. AreVersionsOf (calls_listed calls.now) versions) }
    {
        let mut by_component = lists_of(alloc, calls)?;
        sort_each(&mut by_component);
        Ok(Versions { by_component })
    }

    /// Whether a version is among those of a component.
    pub(crate) fn has(&self, component: u8, number: u32) -> bool
        ensures { result ≡ has_version (versions_in self.now component) number }
    {
        is_among(&self.by_component[usize::from(component)], number)
    }

    /// The rank of a version among those of a component, from 1. One that is not among them gets the number after theirs.
    pub(crate) fn rank(&self, component: u8, number: u32) -> u32
        ensures { result ≡ rank_among (versions_in self.now component) number }
    {
        rank_in(&self.by_component[usize::from(component)], number)
    }

    /// Leaves out a version of a component.
    pub(crate) fn remove(&mut self, component: u8, number: u32)
        ensures { (k n : ℕ) → has_version (versions_in self.new k) n ≡ (has_version (versions_in self.old k) n && not ((component == k) && (number == n))) }
    {
        if self.has(component, number) {
            self.by_component[usize::from(component)].retain(|version| *version != number);
        }
    }
}

//! Updates of a store, which are sorted by version.
ghost use Rattle.std.specs.Prelude.{AllPairs};
ghost use Rattle.std.specs.List.Sorted.{IsPermutation};
ghost use Rattle.snap_versions.specs.inside.Updates.{IsNoLaterVersion};

use snap_core::Entry;

/// An update, with what its row says of it.
#[derive(Clone, Copy)]
pub(crate) struct Update {
    pub(crate) number: u32,
    pub(crate) process: u16,
    pub(crate) entry: Entry,
    pub(crate) begun: u32,
    pub(crate) ended: Option<u32>,
}

/// Sorts updates by component, and those of one component by number.
pub(crate) fn sort_by_version(updates: &mut Vec<Update>)
    ensures same { IsPermutation updates.old.items updates.new.items }
    ensures sorted { AllPairs IsNoLaterVersion updates.new.items }
{
    updates.sort_unstable_by_key(|update| (update.entry.component, update.entry.number));
}

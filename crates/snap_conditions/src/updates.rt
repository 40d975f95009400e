//! The places at which updates begin and end, and what they write.
ghost use Rattle.std.specs.Prelude.{◌≡◌, suc};
ghost use Rattle.snap_core.specs.Bounded.{IsBoundedOrdered};
ghost use Rattle.snap_core.specs.Calls.{calls_of, is_before as spec_is_before};
ghost use Rattle.snap_conditions.specs.inside.Places.{value_of, end_of, begin_of};
ghost use Rattle.snap_theory.specs.Updates.{update_of};

use snap_core::Ownership;
use snap_index::Index;

// Whether an end comes before a place.
pub(crate) fn is_before(ended: Option<u32>, place: u32) -> bool
    ensures { result ≡ spec_is_before ended place }
{
    match ended {
        Some(ended) => ended < place,
        None => false,
    }
}

// The value of update n of component k, if there is one.
pub(crate) fn value_of_update<O: Ownership>(index: &Index<'_, O>, k: u8, n: u32) -> Option<u32>
    ensures { result ≡ value_of (update_of (calls_of index.now) k n) }
{
    let write = index.write(k, n)?;
    Some(write.value)
}

// The place at which update n of component k began, if there is one.
pub(crate) fn begin_of_update<O: Ownership>(index: &Index<'_, O>, k: u8, n: u32) -> Option<u32>
    ensures { result ≡ begin_of (update_of (calls_of index.now) k n) }
{
    let write = index.write(k, n)?;
    Some(write.begun)
}

// The place at which update n of component k ended, if there is one and it ended.
pub(crate) fn end_of_update<O: Ownership>(index: &Index<'_, O>, k: u8, n: u32) -> Option<u32>
    ensures { result ≡ end_of (update_of (calls_of index.now) k n) }
{
    let write = index.write(k, n)?;
    write.ended
}

// The place at which the update after number n of component k ended, if there is one and it ended.
pub(crate) fn end_of_next<O: Ownership>(index: &Index<'_, O>, k: u8, n: u32) -> Option<u32>
    requires { IsBoundedOrdered index.now }
    ensures { result ≡ end_of (update_of (calls_of index.now) k (suc n)) }
{
    end_of_update(index, k, n.checked_add(1)?)
}

//! Ranks of versions among those of one component.
ghost use Rattle.std.specs.Prelude.{◌≡◌, ◌≤◌, length};
ghost use Rattle.std.specs.List.Sorted.{IsNonDecreasing};
ghost use Rattle.snap_core.specs.Events.{event_cap};
ghost use Rattle.snap_versions.specs.inside.Versions.{has_version, rank_among};

/// Whether a version is among some, which rise.
pub(crate) fn is_among(versions: &[u32], number: u32) -> bool
    requires { IsNonDecreasing versions.now }
    ensures { result ≡ has_version versions.now number }
{
    versions.binary_search(&number).is_ok()
}

/// The rank of a version among some, which rise. It is counted from 1. One that is not among them gets the number after theirs.
pub(crate) fn rank_in(versions: &[u32], number: u32) -> u32
    requires rising { IsNonDecreasing versions.now }
    requires few { length versions.now ≤ event_cap }
    ensures { result ≡ rank_among versions.now number }
{
    let below = versions.partition_point(|version| *version < number);
    let lower = if below < versions.len() && versions[below] == number {
        below
    } else {
        versions.len()
    };
    lower as u32 + 1
}

//! Tallies: the merge of two, the first faults in one, and the verdicts by one.
ghost use Rattle.std.specs.Prelude.{◌≡◌, ◌↔◌, IsTrue};
ghost use Rattle.snap_conditions.specs.Kinds.{count_in, first_in};
ghost use Rattle.snap_conditions.specs.Tally.{no_fault, merged, SumsFit, CountsNoLocalFault, CountsNoFault};

use crate::fault::{Fault, IntegrityFault, Kind, ProximityFault, ReadFault, WriteFault};
use crate::part::Part;

/// The faults of a range of views, kind by kind. `stale` is the number of pairs of a view in the range and a view that it precedes
/// and that shows less of some component.
#[derive(Clone, Copy, PartialEq, Eq, Debug)]
pub struct Tally {
    pub integrity: Part<IntegrityFault>,
    pub proximity: Part<ProximityFault>,
    pub read: Part<ReadFault>,
    pub write: Part<WriteFault>,
    pub stale: u64,
}

impl Tally {
    /// The tally without a fault.
    pub fn none() -> Tally
        ensures { result ≡ no_fault }
    {
        Tally {
            integrity: Part::none(),
            proximity: Part::none(),
            read: Part::none(),
            write: Part::none(),
            stale: 0,
        }
    }

    /// The number of faults of a kind.
    pub fn count(&self, kind: Kind) -> u64
        ensures { result ≡ count_in kind self.now }
    {
        match kind {
            Kind::Integrity => self.integrity.count(),
            Kind::Proximity => self.proximity.count(),
            Kind::Read => self.read.count(),
            Kind::Write => self.write.count(),
        }
    }

    /// The first fault of a kind; none if there is no such fault.
    pub fn first(&self, kind: Kind) -> Option<Fault>
        ensures { result ≡ first_in kind self.now }
    {
        Some(match kind {
            Kind::Integrity => Fault::Integrity(self.integrity.first()?),
            Kind::Proximity => Fault::Proximity(self.proximity.first()?),
            Kind::Read => Fault::Read(self.read.first()?),
            Kind::Write => Fault::Write(self.write.first()?),
        })
    }
}

/// The faults of both. Counts are added. A first fault is that of the first tally, or that of the second if the first has none.
/// For two ranges of views, one after the other, it is the tally of both.
pub fn merge(first: Tally, second: Tally) -> Tally
    requires { SumsFit first second }
    ensures { result ≡ merged first second }
{
    Tally {
        integrity: first.integrity.merge(second.integrity),
        proximity: first.proximity.merge(second.proximity),
        read: first.read.merge(second.read),
        write: first.write.merge(second.write),
        stale: first.stale + second.stale,
    }
}

/// Whether there is no integrity and no proximity fault. For the tally of all completed views, it is true exactly when the
/// history is regular.
pub fn is_regular(tally: &Tally) -> bool
    ensures { IsTrue result ↔ CountsNoLocalFault tally.now }
{
    tally.integrity.count() == 0 && tally.proximity.count() == 0
}

/// Whether no view goes back. For the tally of all completed views, it is true exactly when the history is monotone.
pub fn is_monotone(tally: &Tally) -> bool
    ensures { IsTrue result ↔ (tally.now.stale ≡ 0) }
{
    tally.stale == 0
}

/// Whether there is no fault. For the tally of all completed views, it is true exactly when the four conditions hold.
pub fn is_atomic(tally: &Tally) -> bool
    ensures { IsTrue result ↔ CountsNoFault tally.now }
{
    is_regular(tally) && tally.read.count() == 0 && tally.write.count() == 0
}

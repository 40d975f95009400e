//! Laws of histories that are cut.
ghost use Rattle.snap_theory.specs.WindowLaws.{RegularFromNothing, AtomicFromNothing, RegularJoins, MonotoneJoins, AtomicJoins, HistoriesJoin, SidesAreHistories, RegularRenumbered, MonotoneRenumbered, AtomicRenumbered};

/// If nothing was left, regular and atomic from a beginning are regular and atomic.
pub fn beginnings_may_be_empty()
    ensures regular { RegularFromNothing }
    ensures atomic { AtomicFromNothing }
{}

/// A history that is cut at a quiet moment is atomic exactly when both sides are, the later one from what the earlier one
/// left. The same holds of regular, and of monotone if the history is regular. A list is a history exactly when both sides are,
/// and the updates of the later one go on.
pub fn windows_join()
    ensures histories { HistoriesJoin }
    ensures regular { RegularJoins }
    ensures monotone { MonotoneJoins }
    ensures atomic { AtomicJoins }
{}

/// A history after a quiet moment is judged as one with numbers from 1, if each view shows what was left or more. The views
/// then do not list what was left. Both sides are histories.
pub fn windows_may_be_renumbered()
    ensures histories { SidesAreHistories }
    ensures regular { RegularRenumbered }
    ensures monotone { MonotoneRenumbered }
    ensures atomic { AtomicRenumbered }
{}

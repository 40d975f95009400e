//! Laws of faults.
ghost use Rattle.std.specs.Prelude.{List};
ghost use Rattle.snap_core.specs.Calls.{Call};
ghost use Rattle.snap_theory.specs.FaultLaws.{RegularExactly, MonotoneExactly, ConditionsExactly, FaultsJoin, ReadFaultHasComponent, MonotoneWithoutReadFault};
ghost use Rattle.snap_theory.specs.Rising.{FaultsRiseAlways};
ghost use Rattle.snap_theory.specs.Updates.{UpdatesAreAlone};

/// A history is regular exactly when no view has a fault of its own.
pub fn regular_by_local_faults()
    ensures { RegularExactly }
{}

/// A history is monotone exactly when no view is stale to another.
pub fn monotone_by_stale_views()
    ensures { MonotoneExactly }
{}

/// The four conditions hold exactly when there is no fault.
pub fn conditions_by_faults()
    ensures { ConditionsExactly }
{}

/// A history without a read fault is monotone.
pub fn monotone_without_read_fault()
    ensures { MonotoneWithoutReadFault }
{}

/// The faults of two ranges of views are those of the first, and then those of the second. A read fault has a least component.
pub fn faults_join()
    ensures join { (calls rs ss : List Call) → FaultsJoin calls rs ss }
    ensures component { ReadFaultHasComponent }
{}

/// The faults of each kind, in the order of a report, rise strictly: none repeats, and the first is the least.
pub fn faults_rise()
    ensures { FaultsRiseAlways }
{}

/// At most one update has a given component and number.
pub fn updates_are_alone()
    ensures { UpdatesAreAlone }
{}

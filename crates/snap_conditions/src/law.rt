//! Laws of tallies.
ghost use Rattle.std.specs.Prelude.{List};
ghost use Rattle.snap_core.specs.Calls.{Call};
ghost use Rattle.snap_conditions.specs.Laws.{TalliesJoin, TalliesFit, RegularByTally, ConditionsByTally, NoFaultByTally, MonotoneByTally};

/// The tally of no view has no fault. The tally of two adjoining ranges is the merge of their tallies, and their counts fit.
pub fn tallies_join()
    ensures join { (calls : List Call) → TalliesJoin calls }
    ensures fit { TalliesFit }
{}

/// A history is regular exactly when the tally of all its completed views has no integrity and no proximity fault.
pub fn regular_by_tally()
    ensures { RegularByTally }
{}

/// The four conditions hold exactly when the tally of all completed views has no fault, and so exactly when no view has one.
pub fn conditions_by_tally()
    ensures conditions { ConditionsByTally }
    ensures faults { NoFaultByTally }
{}

/// A history is monotone exactly when the tally of all its completed views has no stale view.
pub fn monotone_by_tally()
    ensures { MonotoneByTally }
{}

//! Laws of histories that differ in processes alone.
ghost use Rattle.snap_theory.specs.Processes.{ProcessesDoNotMatter, SameEventsMakeSameCalls};

/// Two lists of events that differ in processes alone have the same verdicts. They have the same faults and the same printed
/// order, processes aside. One of them need not be a history, as when several processes write a component.
pub fn processes_do_not_matter()
    ensures judged { ProcessesDoNotMatter }
    ensures calls { SameEventsMakeSameCalls }
{}

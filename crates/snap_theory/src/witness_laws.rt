//! Laws of witnesses.
ghost use Rattle.snap_theory.specs.Choices.{ChoiceKeepsCalls};
ghost use Rattle.snap_theory.specs.FaultWitnesses.{EachFaultHasWitness, AtomicWithoutWitness};

/// The kept events of a history are a history, with the calls that are kept and the precedence that they had.
pub fn choices_keep_calls()
    ensures { ChoiceKeepsCalls }
{}

/// Each fault of a history has a witness of at most four of its calls. The witness is a history with a fault of the same kind,
/// and it is not atomic.
pub fn faults_have_witnesses()
    ensures { EachFaultHasWitness }
{}

/// A history without a witness is atomic.
pub fn atomic_without_witness()
    ensures { AtomicWithoutWitness }
{}

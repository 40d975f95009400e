//! The law of the quick test.
ghost use Rattle.snap_views.specs.Quick.{NoReadFaultExactly};

/// There is no read fault exactly when two things hold. Of any two completed views, one shows no component above the other's. And
/// none precedes one with a smaller sum.
pub fn no_read_fault_by_sums()
    ensures { NoReadFaultExactly }
{}

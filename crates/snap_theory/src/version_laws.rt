//! Laws of ordered histories: several processes may write a component, and its updates begin and end in the order of their numbers.
ghost use Rattle.snap_theory.specs.CutEvents.{CutEventsKeepAtomic};
ghost use Rattle.snap_theory.specs.Versioned.{VersionsKeepAtomic, VersionsAreOrdered, ContradictionIsNotAtomic};
ghost use Rattle.snap_theory.specs.Intervals.{CuttingKeepsAtomic, NothingLeftIsNotAtomic, CutCallsAreInOrder};
ghost use Rattle.snap_theory.specs.Telling.{TellingKeepsAtomic};
ghost use Rattle.snap_theory.specs.VersionLaws.{HistoriesAreOrdered, LegalOrdersRise, AtomicIsInOrder, OrderedPrintsLegalOrder, LegalInOrderHasNoFault, AtomicInOrderExactly, OrderedConditionsExactly, OrderedRegularExactly, AtomicInOrderIsMonotone, OrderedPrintedAlone, OrderedKeysGiveOrder, OrderedUpdatesAreAlone, OrderedFaultsRise, OrderedChoiceKeepsCalls, OrderedFaultHasWitness, AtomicInOrderWithoutWitness};

/// A history, with one writer of each component, is ordered. In each of its legal orders the numbers of each component rise, so
/// it is atomic in order exactly when it is atomic.
pub fn histories_are_ordered()
    ensures ordered { HistoriesAreOrdered }
    ensures rising { LegalOrdersRise }
    ensures atomic { AtomicIsInOrder }
{}

/// The Shrinking Lemma with several writers: an ordered history has a legal order with rising numbers exactly when it has no
/// fault, and then the printed order is one.
pub fn ordered_shrinking_lemma()
    ensures printed { OrderedPrintsLegalOrder }
    ensures no_fault { LegalInOrderHasNoFault }
    ensures atomic { AtomicInOrderExactly }
{}

/// The four conditions hold of an ordered history exactly when there is no fault. It is regular exactly when no view has a fault
/// of its own. If it is atomic in order, it is monotone.
pub fn ordered_by_faults()
    ensures conditions { OrderedConditionsExactly }
    ensures regular { OrderedRegularExactly }
    ensures monotone { AtomicInOrderIsMonotone }
{}

/// The printed order of an ordered history is the only sorted list of the printed calls, and a sort of keys gives it.
pub fn ordered_printed_order_is_alone()
    ensures alone { OrderedPrintedAlone }
    ensures keys { OrderedKeysGiveOrder }
{}

/// The faults of an ordered history rise strictly, and at most one update has a given component and number.
pub fn ordered_faults_rise()
    ensures rise { OrderedFaultsRise }
    ensures alone { OrderedUpdatesAreAlone }
{}

/// Each fault of an ordered history has a witness of at most four of its calls, which is a history with one writer of each
/// component. Without a witness an ordered history is atomic in order.
pub fn ordered_faults_have_witnesses()
    ensures calls { OrderedChoiceKeepsCalls }
    ensures each { OrderedFaultHasWitness }
    ensures atomic { AtomicInOrderWithoutWitness }
{}

/// A store may tell the order of updates that overlap, or end out of order. If each of them is cut to the times that this order allows,
/// the calls stay atomic in order, or stay not so. If nothing is left of one, they are not. Once they are cut, the updates of a
/// component begin and end in the order of their numbers.
pub fn cutting_keeps_atomic()
    ensures atomic { CuttingKeepsAtomic }
    ensures nothing_left { NothingLeftIsNotAtomic }
    ensures in_order { CutCallsAreInOrder }
{}

/// The begins and the ends of the cut calls, in the order of their places, are events again. If something is left of each update, these
/// events are atomic in order exactly when those of the store are. For this it is enough that they tell the calls: events that tell
/// calls are atomic in order exactly when the calls are.
pub fn cut_events_keep_atomic()
    ensures telling { TellingKeepsAtomic }
    ensures atomic { CutEventsKeepAtomic }
{}

/// A store may record its updates as they are sent, with versions that have gaps. A pending update that no view shows is left out, the
/// others get their rank as number, and each is cut to the times that the order of versions allows. The events that tell these
/// calls are an ordered history, and atomic in order exactly when those of the store are. If two updates contradict time, the events
/// of the store are not atomic in order.
pub fn versions_keep_atomic()
    ensures atomic { VersionsKeepAtomic }
    ensures ordered { VersionsAreOrdered }
    ensures contradiction { ContradictionIsNotAtomic }
{}

//! Laws of orders, the Shrinking Lemma among them.
ghost use Rattle.snap_theory.specs.OrderLaws.{PrintsLegalOrder, LegalOrderHasNoFault, AtomicExactly, AtomicIsMonotone, PrintedOrderAlone, LegalStartGrows, KeysGiveOrder};

/// The Shrinking Lemma: a history is atomic exactly when it has no fault, and then the printed order is legal.
pub fn shrinking_lemma()
    ensures printed { PrintsLegalOrder }
    ensures no_fault { LegalOrderHasNoFault }
    ensures atomic { AtomicExactly }
{}

/// An atomic history is monotone.
pub fn atomic_is_monotone()
    ensures { AtomicIsMonotone }
{}

/// The printed order is the only sorted list of the printed calls.
pub fn printed_order_is_alone()
    ensures { PrintedOrderAlone }
{}

/// How a legal order grows by one call.
pub fn legal_orders_grow()
    ensures { LegalStartGrows }
{}

/// A sort of the printed calls by level, kind and number gives the printed order.
pub fn sorted_keys_give_the_order()
    ensures { KeysGiveOrder }
{}

//! The law by which a history grows.
ghost use Rattle.snap_core.specs.Laws.{HistoryGrows, HistoryGrowsBy};

/// A list and one more event is a history exactly when the list is one and no refusal applies to the event.
pub fn histories_grow()
    ensures one { HistoryGrows }
    ensures any { HistoryGrowsBy }
{}

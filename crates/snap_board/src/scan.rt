//! Scans: collects that are repeated until two in a row read the same.
ghost use Rattle.std.specs.Prelude.{◌≡◌, ◌≢◌, ◌↔◌, ◌+◌, ◌<◌, ◌≤◌, [], ◌∷◌, ◌++◌, length, vec_capacity, IfOk, IfErr, OnOk, OnErr, IsTrue, MatchOption, true, false};
ghost use Rattle.snap_board.specs.Refusals.{IsNotScanned, IsLeft, IsNotInterfered};
ghost use Rattle.snap_board.specs.LastCall.{HasCalled, IsRecordedScan};
ghost use Rattle.snap_board.specs.Desks.{records, ticks, collects, lost, IsDeskOf, IsLater, shown_by, IsNoOlder, ShowsOwnLast};
ghost use Rattle.snap_account.specs.Seats.{one_desk, ticks_of};
ghost use Rattle.snap_account.specs.Tries.{HasReadAll, StillTries, AgreesOn, IsSameCall, made_of};

use crate::board::{Board, Desk};
use crate::calls::view_of;
use crate::record::{Record, RecordedOp};
use crate::refusals::ScanRefusal;
use atomic_table::Seat;
use snap_account::{Accounts, BeginView, EndCall, GiveUp, MiddleTick};
use std::alloc::Global;

// Whether two collects read the same.
fn are_equal(before: &Vec<u64>, since: &Vec<u64>) -> bool
    ensures { IsTrue result ↔ (before.now.items ≡ since.now.items) }
{
    *before == *since
}

impl Board {
    // Makes a middle tick, and then a collect. Answers whether it read the same as the collect before it.
    fn try_once(
        &self,
        seat: &mut Seat<(), Accounts>,
        before: &Vec<u64>,
        since: &mut Vec<u64>,
    ) -> bool
        requires seat { (seat.old.table_id ≡ self.now.board) × (seat.old.me ≡ one_desk seat.old.me) }
        requires trying { StillTries self.now.desks seat.old.me before.now.items seat.old.me }
        requires read { HasReadAll self.now.desks seat.old.me before.now.items }
        requires room { self.now.desks ≤ vec_capacity since.old }
        requires ticks { ticks_of seat.old.me.0 + 1 ≤ self.now.limit }
        ensures seat { (seat.new.table_id ≡ seat.old.table_id) × (seat.new.me ≡ one_desk seat.new.me) }
        ensures account { IsSameCall seat.old.me seat.new.me }
        ensures ticks { (ticks_of seat.new.me.0 ≡ ticks_of seat.old.me.0 + 1) × (made_of seat.new.me.0 ≡ made_of seat.old.me.0 + 1) }
        ensures read { HasReadAll self.now.desks seat.old.me since.new.items }
        ensures agreed { result ≡ true → AgreesOn since.new.items seat.new.me }
        ensures trying { result ≡ false → StillTries self.now.desks seat.old.me since.new.items seat.new.me }
        ensures room { self.now.desks ≤ vec_capacity since.new }
    {
        let tick = self.table.shared.fetch_add::<MiddleTick>(seat, 0, 1);
        since.clear();
        self.load_words(seat, since, tick);
        are_equal(before, since)
    }

    // Tries until two collects in a row read the same, and then answers the number of middle ticks. Answers nothing if no two did
    // within the tries.
    fn try_until(
        &self,
        seat: &mut Seat<(), Accounts>,
        before: &mut Vec<u64>,
        since: &mut Vec<u64>,
        tries: u32,
    ) -> Option<u32>
        requires seat { (seat.old.table_id ≡ self.now.board) × (seat.old.me ≡ one_desk seat.old.me) × (made_of seat.old.me.0 ≡ 0) }
        requires trying { StillTries self.now.desks seat.old.me before.old.items seat.old.me }
        requires read { HasReadAll self.now.desks seat.old.me before.old.items }
        requires room { (self.now.desks ≤ vec_capacity before.old) × (self.now.desks ≤ vec_capacity since.old) }
        requires ticks { ticks_of seat.old.me.0 + tries ≤ self.now.limit }
        ensures seat { (seat.new.table_id ≡ seat.old.table_id) × (seat.new.me ≡ one_desk seat.new.me) }
        ensures account { IsSameCall seat.old.me seat.new.me }
        ensures ticks { ticks_of seat.new.me.0 ≡ ticks_of seat.old.me.0 + made_of seat.new.me.0 }
        ensures made { MatchOption result (made_of seat.new.me.0 ≡ tries) (λ made. (made_of seat.new.me.0 ≡ made) × (0 < made) × (made ≤ tries)) }
        ensures read { MatchOption result (HasReadAll self.now.desks seat.old.me before.new.items) (λ _. HasReadAll self.now.desks seat.old.me since.new.items) }
        ensures ends { MatchOption result (StillTries self.now.desks seat.old.me before.new.items seat.new.me) (λ _. AgreesOn since.new.items seat.new.me) }
    {
        'tries: for made in 0..tries {
            if self.try_once(seat, before, since) {
                return Some(made + 1);
            }
            std::mem::swap(before, since);
        }
        None
    }

    /// Reads each component again and again, with a middle tick between two readings, until two in a row read the same. Answers what they
    /// read. It makes at most `tries` middle ticks, and returns however other threads run. It takes memory before its first step.
    ///
    /// After `Spent` and `Memory`, no step was made and the desk is unchanged. After `Interfered` there is no record, but ticks were drawn.
    pub fn scan(&self, alloc: Global, desk: &mut Desk, tries: u32) -> Result<Record, ScanRefusal>
        requires desk { IsDeskOf self.now desk.old }
        requires tries { 0 < tries }
        ensures desk { IsDeskOf self.now desk.new × (desk.new.desk ≡ desk.old.desk) }
        ensures room { OnOk result (ticks desk.old + tries + 2 ≤ self.now.limit) }
        ensures refused { IfErr result (IsNotScanned self.now.limit (ticks desk.old) tries) }
        ensures left { IfErr result (IsLeft tries desk.old desk.new) }
        ensures recorded { IfOk result (λ r. records desk.new ≡ records desk.old ++ r ∷ []) }
        ensures ticks { OnOk result (ticks desk.old + 3 ≤ ticks desk.new) }
        ensures most_ticks { OnOk result (ticks desk.new ≤ ticks desk.old + tries + 2) }
        ensures stamps { IfOk result (λ r. r.begun < r.ended) }
        ensures later { IfOk result (IsLater (records desk.old)) }
        ensures process { IfOk result (λ r. r.process ≡ desk.old.desk) }
        ensures call { OnOk result (HasCalled (λ r. IsRecordedScan tries r.middles r.op) desk.old desk.new) }
        ensures view { IfOk result (λ r. r.op ≡ RecordedOp.Viewed (shown_by r)) }
        ensures own { IfOk result (ShowsOwnLast desk.old.desk (records desk.old)) }
        ensures no_older { IfOk result (IsNoOlder (records desk.old)) }
        ensures collects { collects desk.new ≡ collects desk.old }
        ensures lost { OnOk result (lost desk.new ≡ lost desk.old) }
        ensures alone { self.now.desks ≡ 1 → IfErr result IsNotInterfered }
    {
        if !self.has_room(desk.kept.ticks, tries) {
            return Err(ScanRefusal::Spent);
        }
        let Ok(mut before) = Vec::with_capacity(alloc, usize::from(self.desks)) else {
            return Err(ScanRefusal::Memory);
        };
        let Ok(mut since) = Vec::with_capacity(alloc, usize::from(self.desks)) else {
            return Err(ScanRefusal::Memory);
        };
        let Ok(entries) = Vec::with_capacity(alloc, usize::from(self.desks)) else {
            return Err(ScanRefusal::Memory);
        };
        let shared = &self.table.shared;
        let begun = shared.fetch_add::<BeginView>(&mut desk.seat, 0, 1);
        self.load_words(&mut desk.seat, &mut before, begun);
        let Some(made) = self.try_until(&mut desk.seat, &mut before, &mut since, tries) else {
            shared.fetch_add::<GiveUp>(&mut desk.seat, 0, 1);
            desk.kept.ticks += tries + 2;
            return Err(ScanRefusal::Interfered);
        };
        let ended = shared.fetch_add::<EndCall>(&mut desk.seat, 0, 1);
        desk.kept.ticks += made + 2;
        let view = view_of(&since, entries);
        Ok(desk.answer(begun, ended, RecordedOp::Viewed(view)))
    }
}

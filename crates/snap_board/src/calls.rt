//! The calls that make one pass over the words: store and collect.
ghost use Rattle.std.specs.Prelude.{◌≡◌, ◌+◌, ◌<◌, ◌≤◌, [], ◌∷◌, ◌++◌, ◌↔◌, IsTrue, None, length, vec_capacity, IfOk, IfErr, OnOk, OnErr};
ghost use Rattle.snap_core.specs.Entries.{view_refusal, number_in};
ghost use Rattle.snap_account.specs.Limits.{tick_cap};
ghost use Rattle.snap_board.specs.Refusals.{IsNotCollected, desk_limit};
ghost use Rattle.snap_board.specs.LastCall.{HasCalled, IsStore, IsCollect};
ghost use Rattle.snap_board.specs.Desks.{records, ticks, collects, lost, IsDeskOf, listed, IsLater, last_stored, shown_by, IsNoOlder, ShowsOwnLast};
ghost use Rattle.snap_account.specs.Seats.{has_read, doing_of, desk_of, pairs, IsUpToDate, answered_of};
ghost use Rattle.snap_account.specs.Plays.{HasRead};

use crate::board::{Board, Desk};
use crate::desk_state::DeskState;
use crate::record::{Record, RecordedOp};
use crate::refusals::{CollectRefusal, StoreRefusal};
use atomic_table::Seat;
use snap_account::{Accounts, BeginStore, BeginView, EndCall, ReadWord, WriteWord};
use snap_core::{Entry, View};
use std::alloc::Global;

/// The word of a component is its number times this, plus its value.
const NUMBER_UNIT: u64 = 4_294_967_296;

// One of this many stores has a pause before its write, and another one has a pause after it, if the board has pauses.
const STORES_A_PAUSE: u8 = 8;

// Which of them have a pause before the write, and which after it.
const BEFORE_WRITE: u8 = 0;

const AFTER_WRITE: u8 = 1;

// Lists the components whose words have a number.
fn list_words(words: &Vec<u64>, entries: &mut Vec<Entry>)
    requires room { (entries.old.items ≡ []) × (length words.now.items ≤ vec_capacity entries.old) }
    requires short { length words.now.items ≤ desk_limit }
    ensures listed { entries.new.items ≡ listed 0 (pairs words.now.items) }
    ensures view { view_refusal entries.new.items ≡ None }
{
    'each: for k in 0..words.len() {
        let word = words[k];
        let number = (word / NUMBER_UNIT) as u32;
        let value = (word % NUMBER_UNIT) as u32;
        if number > 0 {
            entries.push_reserved(Entry {
                component: k as u8,
                number,
                value,
            });
        }
    }
}

// The view that the words of all components give. Its entries take the memory of a vector.
pub(crate) fn view_of(words: &Vec<u64>, mut entries: Vec<Entry>) -> View
    requires room { (entries.items ≡ []) × (length words.now.items ≤ vec_capacity entries) }
    requires short { length words.now.items ≤ desk_limit }
    ensures { result ≡ listed 0 (pairs words.now.items) }
{
    list_words(words, &mut entries);
    let Ok(view) = View::from_entries(entries) else {
        unreachable!()
    };
    view
}

impl Board {
    // Whether a desk that drew `ticks` ticks may draw those of a call with `tries` tries. A call draws a begin, a middle tick for
    // each try, and an end.
    pub(crate) fn has_room(&self, ticks: u32, tries: u32) -> bool
        ensures room { IsTrue result ↔ (ticks + tries + 2 ≤ self.now.limit) }
        ensures small { IsTrue result → (ticks + tries + 2 ≤ tick_cap) }
    {
        u64::from(ticks) + u64::from(tries) + 2 <= u64::from(self.limit.ticks())
    }

    /// Writes a value to the desk's component, in three steps: a begin tick, the store of the component's word, and an end tick. It
    /// returns however other threads run. After a refusal, no step was made and the desk is unchanged.
    pub fn store(&self, desk: &mut Desk, value: u32) -> Result<Record, StoreRefusal>
        requires { IsDeskOf self.now desk.old }
        ensures desk { IsDeskOf self.now desk.new × (desk.new.desk ≡ desk.old.desk) }
        ensures room { OnOk result (ticks desk.old + 2 ≤ self.now.limit) }
        ensures spent { OnErr result (self.now.limit < ticks desk.old + 2) }
        ensures kept { OnErr result (desk.new ≡ desk.old) }
        ensures recorded { IfOk result (λ r. records desk.new ≡ records desk.old ++ r ∷ []) }
        ensures ticks { OnOk result (ticks desk.new ≡ ticks desk.old + 2) }
        ensures stamps { IfOk result (λ r. r.begun < r.ended) }
        ensures later { IfOk result (IsLater (records desk.old)) }
        ensures process { IfOk result (λ r. r.process ≡ desk.old.desk) }
        ensures call { OnOk result (HasCalled (λ r. IsStore value r.middles r.op) desk.old desk.new) }
        ensures entry { IfOk result (λ r. r.op ≡ RecordedOp.Stored (record { component = desk.old.desk; number = number_in (last_stored None (records desk.old)) + 1; value = value })) }
        ensures collects { collects desk.new ≡ collects desk.old }
        ensures lost { lost desk.new ≡ lost desk.old }
    {
        if !self.has_room(desk.kept.ticks, 0) {
            return Err(StoreRefusal::Spent);
        }
        let shared = &self.table.shared;
        let begun = shared.fetch_add::<BeginStore>(&mut desk.seat, 0, 1);
        let number = desk.kept.stores + 1;
        let word = u64::from(number) * NUMBER_UNIT + u64::from(value);
        self.pause_at(BEFORE_WRITE, STORES_A_PAUSE, begun);
        shared.store::<WriteWord>(&mut desk.seat, usize::from(desk.desk) + 1, word);
        self.pause_at(AFTER_WRITE, STORES_A_PAUSE, begun);
        let ended = shared.fetch_add::<EndCall>(&mut desk.seat, 0, 1);
        desk.kept = DeskState {
            ticks: desk.kept.ticks + 2,
            stores: number,
            value,
        };
        let entry = Entry {
            component: desk.desk,
            number,
            value,
        };
        Ok(desk.answer(begun, ended, RecordedOp::Stored(entry)))
    }

    // Loads the word of each component, from 0 on, with a pause before one of the loads. The tick before the loads draws which, with
    // the seed.
    pub(crate) fn load_words(&self, seat: &mut Seat<(), Accounts>, words: &mut Vec<u64>, tick: u64)
        requires seat { seat.old.table_id ≡ self.now.board }
        requires ready { (seat.old.me ≡ has_read seat.old.me []) × HasRead (doing_of seat.old.me.0) [] }
        requires room { (words.old.items ≡ []) × (self.now.desks ≤ vec_capacity words.old) }
        ensures seat { seat.new.table_id ≡ seat.old.table_id }
        ensures read { seat.new.me ≡ has_read seat.old.me (pairs words.new.items) }
        ensures all { length words.new.items ≡ self.now.desks }
        ensures told { IsUpToDate (desk_of seat.old.me.0) (answered_of seat.old.me.0) (pairs words.new.items) }
        ensures room { self.now.desks ≤ vec_capacity words.new }
    {
        'words: for k in 0..self.desks {
            self.pause_at(k, self.desks, tick);
            let word = self.table.shared.load::<ReadWord>(seat, usize::from(k) + 1);
            words.push_reserved(word);
        }
    }

    /// Reads each component, from 0 on, between a begin tick and an end tick. It returns however other threads run. It takes memory
    /// before its first step. After a refusal, no step was made and the desk is unchanged.
    pub fn collect(&self, alloc: Global, desk: &mut Desk) -> Result<Record, CollectRefusal>
        requires { IsDeskOf self.now desk.old }
        ensures desk { IsDeskOf self.now desk.new × (desk.new.desk ≡ desk.old.desk) }
        ensures room { OnOk result (ticks desk.old + 2 ≤ self.now.limit) }
        ensures refused { IfErr result (IsNotCollected self.now.limit (ticks desk.old)) }
        ensures kept { OnErr result (desk.new ≡ desk.old) }
        ensures recorded { IfOk result (λ r. records desk.new ≡ records desk.old ++ r ∷ []) }
        ensures ticks { OnOk result (ticks desk.new ≡ ticks desk.old + 2) }
        ensures stamps { IfOk result (λ r. r.begun < r.ended) }
        ensures later { IfOk result (IsLater (records desk.old)) }
        ensures process { IfOk result (λ r. r.process ≡ desk.old.desk) }
        ensures call { OnOk result (HasCalled (λ r. IsCollect r.middles r.op) desk.old desk.new) }
        ensures view { IfOk result (λ r. r.op ≡ RecordedOp.Viewed (shown_by r)) }
        ensures own { IfOk result (ShowsOwnLast desk.old.desk (records desk.old)) }
        ensures no_older { IfOk result (IsNoOlder (records desk.old)) }
        ensures collects { OnOk result (collects desk.new ≡ collects desk.old + 1) }
        ensures lost { lost desk.new ≡ lost desk.old }
    {
        if !self.has_room(desk.kept.ticks, 0) {
            return Err(CollectRefusal::Spent);
        }
        let Ok(mut words) = Vec::with_capacity(alloc, usize::from(self.desks)) else {
            return Err(CollectRefusal::Memory);
        };
        let Ok(entries) = Vec::with_capacity(alloc, usize::from(self.desks)) else {
            return Err(CollectRefusal::Memory);
        };
        let shared = &self.table.shared;
        let begun = shared.fetch_add::<BeginView>(&mut desk.seat, 0, 1);
        self.load_words(&mut desk.seat, &mut words, begun);
        let ended = shared.fetch_add::<EndCall>(&mut desk.seat, 0, 1);
        desk.kept.ticks += 2;
        let view = view_of(&words, entries);
        Ok(desk.answer(begun, ended, RecordedOp::Viewed(view)))
    }
}

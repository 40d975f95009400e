//! Boards, the desks that are in and out, and what a closed board leaves.
ghost use Rattle.std.specs.Prelude.{◌≡◌, ◌+◌, ◌*◌, ◌<◌, ◌≤◌, ◌↔◌, [], ◌∷◌, IfOk, IfErr, OnOk, OnErr, IsOk, IfNone, IfSome, length};
ghost use Rattle.snap_core.specs.Events.{IsHistory};
ghost use Rattle.snap_core.specs.Calls.{calls_of};
ghost use Rattle.snap_core.specs.Monotone.{IsMonotone};
ghost use Rattle.snap_core.specs.Orders.{IsAtomic};
ghost use Rattle.snap_core.specs.Regular.{IsRegular};
ghost use Rattle.snap_account.specs.Limits.{tick_limit};
ghost use Rattle.snap_account.specs.Rule.{clock, newcomers};
ghost use Rattle.snap_account.specs.Plays.{but_first, only_first, insert};
ghost use Rattle.snap_board.specs.Desks.{account, accounts, IsDeskOf, IsGatheredOf};
ghost use Rattle.snap_board.specs.History.{board_history, AllCompleted};
ghost use Rattle.snap_board.specs.Refusals.{IsNotOpened, desk_limit};
ghost use Rattle.snap_board.specs.Settled.{AreUpTo, Settled, ScansSettled, TicksSettled, WereInterfered, LastStores, entry_in};
ghost use Rattle.snap_board.specs.Scans.{scan_history};

use crate::desk_state::DeskState;
use crate::pauses::drawn_place;
use crate::record::{Record, RecordedOp};
use crate::refusals::OpenRefusal;
use crate::slots::{all_in, fresh, highest, last_stores};
use atomic_table::{Seat, Table};
use snap_account::{Accounts, BoardRule, ComeIn, GoOut, LookOver, Size, TickLimit};
use snap_core::Entry;
use std::alloc::{AllocError, Global};
use std::marker::Model;
use std::thread;

/// The greatest number of desks of a board.
pub const DESK_LIMIT: usize = 8;

// The greatest number of words of a board: the clock, and one for each desk.
const WORD_LIMIT: usize = DESK_LIMIT + 1;

/// A board of atomic words: a clock, and one word for each desk's component.
#[derive(Drop)]
pub struct Board {
    pub(crate) table: Table<(), Accounts, Size, BoardRule, Global>,
    pub(crate) desks: u8,
    // the number of ticks that each desk may draw
    pub(crate) limit: TickLimit,
    // the seed that draws where desks give up their turn within calls, if they do
    pauses: Option<u32>,
}

impl Model for Board {
    ghost use Rattle.snap_board.specs.Boards.{BoardView};

    ghost Value = { BoardView };

    ghost use Rattle.snap_board.specs.inside.Fields.{IsBoard};
    ghost use Rattle.snap_board.specs.Fields.{board_view};

    ghost view = { board_view };

    ghost invariant = { IsBoard };
}

impl Board {
    /// A board of 1 to `DESK_LIMIT` desks, which are all in. Desk d is process d and writes component d. Each desk may
    /// draw `TICK_LIMIT` ticks.
    pub fn open(alloc: Global, desks: u8) -> Result<(Board, Gathered), OpenRefusal>
        ensures gathered { IfOk result (λ r. IsGatheredOf r.0 r.1) }
        ensures desks { IfOk result (λ r. r.0.desks ≡ desks) }
        ensures limit { IfOk result (λ r. r.0.limit ≡ tick_limit) }
        ensures range { OnOk result ((0 < desks) × (desks ≤ desk_limit)) }
        ensures empty { IfOk result (λ r. accounts r.1 ≡ newcomers desks) }
        ensures refused { IfErr result (IsNotOpened desks) }
    {
        Board::with_ticks(alloc, desks, TickLimit::usual())
    }

    /// A board as `open` gives it, whose desks may draw `limit` ticks each.
    pub fn with_ticks(
        alloc: Global,
        desks: u8,
        limit: TickLimit,
    ) -> Result<(Board, Gathered), OpenRefusal>
        ensures gathered { IfOk result (λ r. IsGatheredOf r.0 r.1) }
        ensures desks { IfOk result (λ r. r.0.desks ≡ desks) }
        ensures limit { IfOk result (λ r. r.0.limit ≡ limit.ticks) }
        ensures range { OnOk result ((0 < desks) × (desks ≤ desk_limit)) }
        ensures empty { IfOk result (λ r. accounts r.1 ≡ newcomers desks) }
        ensures refused { IfErr result (IsNotOpened desks) }
    {
        let count = usize::from(desks);
        if count == 0 || count > DESK_LIMIT {
            return Err(OpenRefusal::Desks);
        }
        let words = [0u64; WORD_LIMIT];
        let Ok((table, seat)) = Table::of_words(alloc, &words[..count + 1], &Size { desks, limit })
        else {
            return Err(OpenRefusal::Memory);
        };
        let slots = fresh(desks);
        Ok((
            Board {
                table,
                desks,
                limit,
                pauses: None,
            },
            Gathered { seat, desks, slots },
        ))
    }

    /// The same board with pauses, drawn by the seed 0.
    pub fn with_pauses(self) -> Board
        ensures { result ≡ self }
    {
        self.with_seeded_pauses(0)
    }

    /// The same board with pauses. A desk gives up its turn before one load of each collect. In some stores it does so between the
    /// begin and the write, and in others between the write and the end. So the calls of several threads overlap. The seed and the
    /// ticks draw which load and which stores: [`drawn_place`]. Each answer is one that a board without pauses may give.
    pub fn with_seeded_pauses(mut self, seed: u32) -> Board
        ensures { result ≡ self }
    {
        self.pauses = Some(seed);
        self
    }

    // Gives up the turn, if the board has pauses and its seed and the tick draw this one of `places` places.
    pub(crate) fn pause_at(&self, place: u8, places: u8, tick: u64)
        requires { 0 < places }
    {
        let Some(seed) = self.pauses else {
            return;
        };
        if drawn_place(seed, tick, u64::from(places)) == u64::from(place) {
            thread::yield_now();
        }
    }

    /// Hands out the highest desk that is in, with its account as it is, or nothing if none is in. After a refusal the gathered
    /// desks are unchanged.
    pub fn take(&self, _alloc: Global, gathered: &mut Gathered) -> Result<Option<Desk>, AllocError>
        requires { IsGatheredOf self.now gathered.old }
        ensures gathered { IsGatheredOf self.now gathered.new }
        ensures refused { OnErr result (gathered.new ≡ gathered.old) }
        ensures none { IfOk result (λ o. IfNone o (gathered.new ≡ gathered.old)) }
        ensures empty { IfOk result (λ o. IfNone o (accounts gathered.old ≡ [])) }
        ensures desk { IfOk result (λ o. IfSome o (λ d. IsDeskOf self.now d)) }
        ensures highest { IfOk result (λ o. IfSome o (λ d. AreUpTo d.desk (accounts gathered.old))) }
        ensures account { IfOk result (λ o. IfSome o (λ d. account d ∷ [] ≡ only_first (accounts gathered.old))) }
        ensures others { IfOk result (λ o. IfSome o (λ d. accounts gathered.new ≡ but_first (accounts gathered.old))) }
    {
        let Some(desk) = highest(gathered.desks, &gathered.slots) else {
            return Ok(None);
        };
        let Some(kept) = gathered.slots[usize::from(desk)] else {
            unreachable!()
        };
        let seat = self.table.shared.split_seat::<GoOut>(&mut gathered.seat);
        gathered.slots[usize::from(desk)] = None;
        Ok(Some(Desk { seat, desk, kept }))
    }

    /// Puts a desk in, with those that are in. None of those is the same desk: a load of the clock shows it.
    pub fn give_back(&self, gathered: Gathered, desk: Desk) -> Gathered
        requires gathered { IsGatheredOf self.now gathered }
        requires desk { IsDeskOf self.now desk }
        ensures same { IsGatheredOf self.now result }
        ensures account { accounts result ≡ insert (account desk) (accounts gathered) }
        ensures held { length (accounts result) ≡ length (accounts gathered) + 1 }
    {
        let Gathered {
            seat: mut all,
            desks,
            mut slots,
        } = gathered;
        let Desk { seat, desk, kept } = desk;
        self.table.shared.join_seat::<ComeIn>(&mut all, seat);
        self.table.shared.load::<LookOver>(&mut all, 0);
        slots[usize::from(desk)] = Some(kept);
        Gathered {
            seat: all,
            desks,
            slots,
        }
    }

    /// Closes the board if all its desks are in. The begins and ends of all records, in the order of their stamps, are then a
    /// regular and monotone history without pending calls. Those of the stores and scans alone are an atomic history. Each
    /// interfered scan overlapped at least as many stores of other desks as it had tries. Each tick of the board's clock, from 0
    /// on, is a begin, a middle tick or an end of exactly one call. No desk drew more ticks than it may.
    ///
    /// If a desk is out, the board and the desks come back unchanged.
    pub fn close(self, gathered: Gathered) -> Result<Closed, (Board, Gathered)>
        requires { IsGatheredOf self gathered }
        ensures exact { IsOk result ↔ (length (accounts gathered) ≡ self.desks) }
        ensures settled { IsOk result → Settled self.desks (accounts gathered) }
        ensures scans { IsOk result → ScansSettled (accounts gathered) }
        ensures ticks { IsOk result → TicksSettled (accounts gathered) }
        ensures clock { IsOk result → clock (accounts gathered) ≤ self.desks * self.limit }
        ensures history { IsOk result → IsHistory (board_history (accounts gathered)) }
        ensures completed { IsOk result → AllCompleted (calls_of (board_history (accounts gathered))) }
        ensures regular { IsOk result → IsRegular (calls_of (board_history (accounts gathered))) }
        ensures monotone { IsOk result → IsMonotone (calls_of (board_history (accounts gathered))) }
        ensures interfered { IsOk result → WereInterfered (accounts gathered) }
        ensures atomic { IsOk result → IsAtomic (calls_of (scan_history (accounts gathered))) }
        ensures desks { IfOk result (λ c. c.desks ≡ self.desks) }
        ensures last { IfOk result (λ c. LastStores c (accounts gathered)) }
        ensures back { IfErr result (λ r. (r.0 ≡ self) × (r.1 ≡ gathered)) }
    {
        if !all_in(gathered.desks, &gathered.slots) {
            return Err((self, gathered));
        }
        let Gathered { seat, desks, slots } = gathered;
        let Board {
            table,
            desks: _,
            limit: _,
            pauses: _,
        } = self;
        table.close_with(seat).free();
        let last = last_stores(desks, &slots);
        Ok(Closed { desks, last })
    }
}

/// The right to call on a board as one process, which writes the component of its own number.
#[derive(Drop)]
pub struct Desk {
    pub(crate) seat: Seat<(), Accounts>,
    pub(crate) desk: u8,
    pub(crate) kept: DeskState,
}

impl Model for Desk {
    ghost use Rattle.snap_board.specs.Boards.{DeskView};

    ghost Value = { DeskView };

    ghost use Rattle.snap_board.specs.inside.Fields.{IsDesk};
    ghost use Rattle.snap_board.specs.Fields.{desk_view};

    ghost view = { desk_view };

    ghost invariant = { IsDesk };
}

impl Desk {
    /// The desk's process, which is the desk's number.
    pub fn process(&self) -> u16
        ensures { result ≡ self.now.desk }
    {
        u16::from(self.desk)
    }

    // The record of a call of the desk. `store`, `collect` and `scan` answer with it.
    pub(crate) fn answer(&self, begun: u64, ended: u64, op: RecordedOp) -> Record
        ensures { result ≡ record { process = self.now.desk; begun = begun; ended = ended; op = op } }
    {
        Record {
            process: self.process(),
            begun,
            ended,
            op,
        }
    }
}

/// The desks of a board that are in. `take` hands one of them out, and `give_back` puts one in.
#[derive(Drop)]
pub struct Gathered {
    seat: Seat<(), Accounts>,
    desks: u8,
    slots: [Option<DeskState>; DESK_LIMIT],
}

impl Model for Gathered {
    ghost use Rattle.snap_board.specs.Boards.{GatheredView};

    ghost Value = { GatheredView };

    ghost use Rattle.snap_board.specs.inside.Fields.{IsGathered};
    ghost use Rattle.snap_board.specs.Fields.{gathered_view};

    ghost view = { gathered_view };

    ghost invariant = { IsGathered };
}

impl Gathered {
    /// The number of desks that are in.
    pub fn held(&self) -> u8
        ensures { result ≡ length (accounts self.now) }
    {
        let mut count = 0;
        'each: for d in 0..self.desks {
            if self.slots[usize::from(d)].is_some() {
                count += 1;
            }
        }
        count
    }
}

/// What is left of a closed board: the last store of each desk.
#[derive(Clone, Copy, Debug)]
pub struct Closed {
    desks: u8,
    last: [Option<Entry>; DESK_LIMIT],
}

impl Model for Closed {
    ghost use Rattle.snap_board.specs.Boards.{ClosedView};

    ghost Value = { ClosedView };

    ghost use Rattle.snap_board.specs.inside.Fields.{IsClosed};
    ghost use Rattle.snap_board.specs.Fields.{closed_view};

    ghost view = { closed_view };

    ghost invariant = { IsClosed };

    ghost inverse = { λ c. record { desks = c.desks; last = c.last } };
}

impl Closed {
    /// The number of desks that the board was opened with.
    pub fn desks(&self) -> u8
        ensures { result ≡ self.now.desks }
    {
        self.desks
    }

    /// The last stored entry of component k, or nothing if there is none.
    pub fn entry(&self, k: u8) -> Option<Entry>
        ensures { result ≡ entry_in self.now k }
    {
        if k >= self.desks {
            return None;
        }
        self.last[usize::from(k)]
    }
}

//! Who reads and judges a text.
ghost use Rattle.std.specs.Prelude.{◌≡◌, ◌↔◌, [], IfOk, IfSome, IsSome, is_some, length, map, true};
ghost use Rattle.std.specs.Option.{ForSome};
ghost use Rattle.std.specs.Thread.{IsSync};
ghost use Rattle.snap_core.specs.Calls.{calls_of, views_of};
ghost use Rattle.snap_core.specs.Counting.{failures_in, inner_of};
ghost use Rattle.snap_conditions.specs.Tally.{tally_of};
ghost use Rattle.snap_csv.specs.Answers.{AnswersRecords, Counts, Leaves};
ghost use Rattle.snap_report.specs.Reports.{has_no_fault};
ghost use Rattle.snap_theory.specs.Faults.{read_faults};
ghost use Rattle.snap_theory.specs.Levels.{printed_order};
ghost use Rattle.snap_views.specs.Chains.{IsViewChain};

use crate::judge::{order_alone, order_by};
use crate::workers::{SHARED_FROM, cutting_for};
use snap_conditions::Tally;
use snap_core::{AnyWriters, Counted, History, Limit, OpenGate};
use snap_csv::{ReadRefusal, read_records, read_records_with};
use snap_index::Index;
use snap_pairs::tally_and_chain;
use snap_tally::tally_and_chain_alone;
use snap_threads::Cutting;
use snap_views::ViewChain;
use std::alloc::{AllocError, Global};
use std::io::Read;
use std::thread::Threads;

/// Who reads a text and judges its history: workers, or the calling thread alone. Both give the same answers.
pub trait Judging {
    // what it needs to share its work
    ghost ready: { Type 0 };

    /// The history of the text that a reader has, and the number of each event's record, as `read_records` gives them.
    fn read<R: Read>(
        &self,
        alloc: Global,
        reader: &mut Counted<R>,
        room: &mut Vec<u8>,
        limit: Limit,
    ) -> Result<(History<AnyWriters>, Vec<u32>), ReadRefusal>
        requires { ready }
        ensures text { IfSome (R.remaining (inner_of reader.old)) (λ text. AnswersRecords limit text result) }
        ensures each { IfOk result (λ read. length read.1.items ≡ length read.0.events) }
        ensures counts { Counts (failures_in reader.old) (failures_in reader.new) result }
        ensures room { IfSome (R.remaining (inner_of reader.old)) (λ text. Leaves text room.new.items result) };

    /// The tally of all completed views of the history of a text of `bytes` bytes. The views come as a chain if and only if no two
    /// of them are a read fault.
    fn tally_and_chain(
        &self,
        alloc: Global,
        index: &Index<'_, AnyWriters>,
        bytes: usize,
    ) -> Result<(Tally, Option<ViewChain>), AllocError>
        requires { ready }
        ensures tally { IfOk result (λ all. all.0 ≡ tally_of (calls_of index.now) (views_of (calls_of index.now))) }
        ensures chain { IfOk result (λ all. IfSome all.1 (IsViewChain (calls_of index.now))) }
        ensures found { IfOk result (λ all. IsSome all.1 ↔ (read_faults (calls_of index.now) (views_of (calls_of index.now)) ≡ [])) };

    /// The numbers of the printed order of the history of a text of `bytes` bytes, as `order_by` gives them.
    fn order(
        &self,
        alloc: Global,
        index: &Index<'_, AnyWriters>,
        tally: &Tally,
        chain: Option<ViewChain>,
        bytes: usize,
    ) -> Result<Option<Vec<u32>>, AllocError>
        requires ready { ready }
        requires tally { tally.now ≡ tally_of (calls_of index.now) (views_of (calls_of index.now)) }
        requires chain { IfSome chain (IsViewChain (calls_of index.now)) }
        requires given { read_faults (calls_of index.now) (views_of (calls_of index.now)) ≡ [] → IsSome chain }
        ensures given { IfOk result (λ order. is_some order ≡ has_no_fault tally.now) }
        ensures order { IfOk result (λ order. ForSome order (λ numbers. numbers.items ≡ map (λ c. c.number) (printed_order (calls_of index.now)))) };
}

/// The calling thread alone, which needs no runtime.
#[derive(Clone, Copy)]
pub struct Alone;

impl Judging for Alone {
    ghost ready = { Unit {0} };

    fn read<R: Read>(
        &self,
        alloc: Global,
        reader: &mut Counted<R>,
        room: &mut Vec<u8>,
        limit: Limit,
    ) -> Result<(History<AnyWriters>, Vec<u32>), ReadRefusal> {
        read_records(alloc, reader, room, limit)
    }

    fn tally_and_chain(
        &self,
        alloc: Global,
        index: &Index<'_, AnyWriters>,
        _bytes: usize,
    ) -> Result<(Tally, Option<ViewChain>), AllocError> {
        tally_and_chain_alone(alloc, index)
    }

    fn order(
        &self,
        alloc: Global,
        index: &Index<'_, AnyWriters>,
        tally: &Tally,
        chain: Option<ViewChain>,
        _bytes: usize,
    ) -> Result<Option<Vec<u32>>, AllocError> {
        order_alone(alloc, index, tally, chain)
    }
}

/// Workers of a runtime, by a cutting. One of them judges a text of fewer bytes than `alone_below`. The pieces of any other text are
/// those of [`cutting_for`].
#[derive(Drop)]
pub struct Workers<'r, Rt> {
    pub rt: &'r Rt,
    pub cutting: Cutting,
    pub alone_below: usize,
    pub finer: bool,
}

impl<Rt: Threads + Sync> Judging for Workers<'_, Rt> {
    ghost ready = { IsSync Rt.row };

    fn read<R: Read>(
        &self,
        alloc: Global,
        reader: &mut Counted<R>,
        room: &mut Vec<u8>,
        limit: Limit,
    ) -> Result<(History<AnyWriters>, Vec<u32>), ReadRefusal> {
        read_records_with(self.rt, alloc, reader, room, limit, self.cutting)
    }

    fn tally_and_chain(
        &self,
        alloc: Global,
        index: &Index<'_, AnyWriters>,
        bytes: usize,
    ) -> Result<(Tally, Option<ViewChain>), AllocError> {
        let cutting = cutting_for(bytes, self.alone_below, self.finer, self.cutting);
        tally_and_chain(self.rt, alloc, index, cutting, &OpenGate)
    }

    fn order(
        &self,
        alloc: Global,
        index: &Index<'_, AnyWriters>,
        tally: &Tally,
        chain: Option<ViewChain>,
        bytes: usize,
    ) -> Result<Option<Vec<u32>>, AllocError> {
        let cutting = cutting_for(bytes, self.alone_below, self.finer, self.cutting);
        order_by(self.rt, alloc, index, tally, chain, cutting.workers())
    }
}

/// The workers of a run that the program starts for one text: those of a cutting, and one for a short text. The number of pieces of
/// a long text is left to the program.
pub fn workers_of<Rt: Threads + Sync>(rt: &Rt, cutting: Cutting) -> Workers<'_, Rt>
    ensures cutting { result.cutting ≡ cutting }
    ensures alone { result.alone_below ≡ SHARED_FROM }
    ensures pieces { result.finer ≡ true }
{
    Workers {
        rt,
        cutting,
        alone_below: SHARED_FROM,
        finer: true,
    }
}

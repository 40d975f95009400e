//! The history that a reader has.
ghost use Rattle.std.specs.Prelude.{IfOk, IfSome};
ghost use Rattle.snap_core.specs.Counting.{failures_in, inner_of};
ghost use Rattle.snap_check.specs.Runs.{JudgeCounts, Reads};

use crate::fault::RunFault;
use snap_core::{AnyWriters, Counted, History, Limit};
use snap_csv::{ReadRefusal, read_history_with};
use snap_report::refusal_text;
use snap_threads::Cutting;
use std::alloc::Global;
use std::io::Read;
use std::thread::Threads;

/// What a text is: a history, or else the line of its first fault.
#[derive(Drop)]
pub enum Reading {
    History(History<AnyWriters>),
    Refusal(Vec<u8>),
}

/// What the text of a reader is, by a limit of events. Workers of a cutting share the reading. The text is left in a vector, whose
/// memory can then serve for something else.
pub(crate) fn read_in<Rt: Threads + Sync, R: Read>(
    rt: &Rt,
    alloc: Global,
    reader: &mut Counted<R>,
    room: &mut Vec<u8>,
    limit: Limit,
    cutting: Cutting,
) -> Result<Reading, RunFault>
    ensures text { IfSome (R.remaining (inner_of reader.old)) (λ text. IfOk result (λ reading. Reads limit text reading)) }
    ensures counts { JudgeCounts (failures_in reader.old) (failures_in reader.new) result }
{
    match read_history_with(rt, alloc, reader, room, limit, cutting) {
        Ok(history) => Ok(Reading::History(history)),
        Err(ReadRefusal::Text { place, fault }) => {
            Ok(Reading::Refusal(refusal_text(alloc, place, fault)?))
        }
        Err(ReadRefusal::Device) => Err(RunFault::Read),
        Err(ReadRefusal::Memory) => Err(RunFault::Memory),
    }
}

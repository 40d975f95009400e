//! What a case saw in place of its whole answer.
use snap_core::EventRefusal;
use snap_csv::{ReadRefusal, WriteRefusal};
use snap_record::{CollectRefusal, OpenRefusal, PlanRefusal, RecordRefusal, ScanRefusal};
use snap_testing::Refused;
use std::alloc::{AllocError, AllocFailed};

/// Why a case does not have its whole answer.
#[derive(Clone, Copy, PartialEq, Eq, Debug)]
pub(crate) enum Fault {
    /// Memory was refused.
    Memory,
    /// An answer differs from the worked one, or a refusal changed what it must leave.
    Wrong,
}

/// Something is as it must be.
pub(crate) fn expect(holds: bool) -> Result<(), Fault> {
    if holds { Ok(()) } else { Err(Fault::Wrong) }
}

// Memory, if a refusal is for lack of it.
fn memory_if(is_memory: bool) -> Fault {
    if is_memory {
        Fault::Memory
    } else {
        Fault::Wrong
    }
}

impl From<AllocError> for Fault {
    fn from(_error: AllocError) -> Fault {
        Fault::Memory
    }
}

impl<T: Drop> From<AllocFailed<T>> for Fault {
    fn from(_error: AllocFailed<T>) -> Fault {
        Fault::Memory
    }
}

impl From<Refused> for Fault {
    fn from(refused: Refused) -> Fault {
        memory_if(matches!(
            &refused,
            Refused::Memory | Refused::Event(EventRefusal::Memory)
        ))
    }
}

impl From<ReadRefusal> for Fault {
    fn from(refusal: ReadRefusal) -> Fault {
        memory_if(refusal == ReadRefusal::Memory)
    }
}

impl From<WriteRefusal> for Fault {
    fn from(refusal: WriteRefusal) -> Fault {
        memory_if(refusal == WriteRefusal::Memory)
    }
}

impl From<OpenRefusal> for Fault {
    fn from(refusal: OpenRefusal) -> Fault {
        memory_if(refusal == OpenRefusal::Memory)
    }
}

impl From<CollectRefusal> for Fault {
    fn from(refusal: CollectRefusal) -> Fault {
        memory_if(refusal == CollectRefusal::Memory)
    }
}

impl From<ScanRefusal> for Fault {
    fn from(refusal: ScanRefusal) -> Fault {
        memory_if(refusal == ScanRefusal::Memory)
    }
}

impl From<PlanRefusal> for Fault {
    fn from(refusal: PlanRefusal) -> Fault {
        memory_if(refusal == PlanRefusal::Memory)
    }
}

impl From<RecordRefusal> for Fault {
    fn from(_refusal: RecordRefusal) -> Fault {
        Fault::Memory
    }
}

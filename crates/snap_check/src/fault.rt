//! Why a run did not finish.
ghost use Rattle.std.specs.Prelude.{◌≡◌, ◌⊎◌};
ghost use Rattle.snap_csv.specs.declared.refusal.WriteRefusal.TheVariants as refusals;
ghost use Rattle.snap_check.specs.declared.fault.RunFault.TheVariants.{Memory, Write};

use snap_csv::WriteRefusal;
use std::alloc::AllocError;
use thiserror::Error;

/// Why a run did not finish.
#[derive(Debug, Drop, Error)]
pub enum RunFault {
    #[error("read failed")]
    Read,
    #[error("write failed")]
    Write,
    #[error("out of memory")]
    Memory,
}

impl From<AllocError> for RunFault {
    ghost from_gives = { λ _ fault. fault ≡ Memory };

    fn from(_error: AllocError) -> RunFault {
        RunFault::Memory
    }
}

impl From<WriteRefusal> for RunFault {
    ghost from_gives = { λ refusal fault. ((refusal ≡ refusals.Device) × (fault ≡ Write)) ⊎ ((refusal ≡ refusals.Memory) × (fault ≡ Memory)) };

    fn from(refusal: WriteRefusal) -> RunFault {
        match refusal {
            WriteRefusal::Device => RunFault::Write,
            WriteRefusal::Memory => RunFault::Memory,
        }
    }
}

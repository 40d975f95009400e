//! Why a history was not written.
ghost use Rattle.std.specs.Prelude.{◌≡◌};
ghost use Rattle.snap_csv.specs.declared.refusal.WriteRefusal.TheVariants as write;

use std::alloc::AllocError;

/// Why a history was not written.
#[derive(Clone, Copy, Debug, PartialEq, Eq)]
pub enum WriteRefusal {
    /// The writer failed.
    Device,
    /// Memory ran out.
    Memory,
}

impl From<AllocError> for WriteRefusal {
    ghost from_gives = { λ _ e. e ≡ write.Memory };

    fn from(_e: AllocError) -> WriteRefusal {
        WriteRefusal::Memory
    }
}

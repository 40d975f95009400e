//! Why no history was read.
ghost use Rattle.std.specs.Prelude.{◌≡◌};
ghost use Rattle.snap_format.specs.declared.refusal.ReadRefusal.TheVariants as read;

use snap_text::TextFault;
use std::alloc::{AllocError, AllocFailed};

/// Why no history was read.
#[derive(Clone, Copy, Debug, PartialEq, Eq)]
pub enum ReadRefusal {
    /// The text has a fault, at a record counted from 1, or 0 for the text as a whole.
    Text { place: u32, fault: TextFault },
    /// The reader failed.
    Device,
    /// Memory ran out.
    Memory,
}

impl From<AllocError> for ReadRefusal {
    ghost from_gives = { λ _ e. e ≡ read.Memory };

    fn from(_e: AllocError) -> ReadRefusal {
        ReadRefusal::Memory
    }
}

impl<T: Drop> From<AllocFailed<T>> for ReadRefusal {
    ghost from_gives = { λ _ e. e ≡ read.Memory };

    fn from(_e: AllocFailed<T>) -> ReadRefusal {
        ReadRefusal::Memory
    }
}

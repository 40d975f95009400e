//! Why there are no names.
ghost use Rattle.std.specs.Prelude.{◌≡◌};
ghost use Rattle.snap_names.specs.declared.fault.NamesFault.TheVariants.{Memory};

use std::alloc::AllocError;
use thiserror::Error;

/// Why there are no names.
#[derive(Debug, Drop, Error)]
pub enum NamesFault {
    /// The list can't be read.
    #[error("read failed")]
    Unread,
    /// The list has more than `LIST_LIMIT` bytes.
    #[error("is longer than 268435456 bytes")]
    TooLong,
    /// The name of this number, from 1, is empty.
    #[error("name {0} is empty")]
    Empty(usize),
    /// The folder and those below it are more than `FOLDER_LIMIT`.
    #[error("has more than 1048576 folders")]
    TooManyFolders,
    #[error("out of memory")]
    Memory,
}

impl From<AllocError> for NamesFault {
    ghost from_gives = { λ _ fault. fault ≡ Memory };

    fn from(_error: AllocError) -> NamesFault {
        NamesFault::Memory
    }
}

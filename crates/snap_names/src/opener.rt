//! Opens a text by its name, says why that may fail, and how long a text is.
ghost use Rattle.std.specs.Prelude.{◌<◌, ℕ, List, Option, Result, Ok, Err, MatchResult};
ghost use Rattle.snap_core.specs.Counting.{failures_in};

use snap_core::Counted;
use std::io::Read;

/// Why the text of a name can't be read.
#[derive(Clone, Copy, Debug, PartialEq, Eq)]
pub enum Trouble {
    /// There is no such file.
    Missing,
    /// It is a directory.
    Folder,
    /// The name is not UTF-8, which the names of the system's files must be here.
    NotUnicode,
    /// The user may not read it, or may not enter a folder above it.
    Denied,
    /// The process has as many open files as the system allows.
    TooManyOpen,
    /// Links lead to links without an end.
    LinkLoop,
    /// The name, or a part of it, has more bytes than the system takes.
    LongName,
    /// It is a socket, or belongs to a device that is missing.
    NoDevice,
    /// It can't be opened, for another reason.
    Unopened,
    /// A read failed.
    Unread,
    /// Memory ran out.
    Memory,
}

/// Opens a text by its name. Several threads use it at once.
pub trait Opener: Sync {
    ghost use Rattle.snap_names.specs.declared.opener.Trouble.{Trouble};

    /// The text, as a reader.
    type Text: Read + Drop + Send + Sync;

    /// What a name may be opened as: a text, whose bytes are known or not, or a trouble. The trouble of a text is here too if a
    /// read of it failed.
    ghost opens: { Self → List ℕ → Result (Option (List ℕ)) Trouble → Type 0 };

    /// Opens the text of a name.
    fn open(&self, name: &[u8]) -> Result<Self::Text, Trouble>
        ensures { MatchResult result (λ text. opens self.now name.now (Ok (Self.Text.remaining text))) (λ trouble. opens self.now name.now (Err trouble)) };

    /// The trouble of a text that was opened by this name. A read of it failed, as the count of its reader shows.
    fn unread(&self, name: &[u8], text: &Counted<Self::Text>) -> Trouble
        requires { 0 < failures_in text.now }
        ensures { opens self.now name.now (Err result) };
}

/// Says how long the texts of names are now.
pub trait Lengths {
    /// The number of bytes of the text; none if it can't be found out, for example if the file is gone.
    fn length(&self, name: &[u8]) -> Option<u64>;
}

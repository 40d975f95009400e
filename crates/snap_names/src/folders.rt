//! What a folder has, as a walk asks for it.
ghost use Rattle.std.specs.Prelude.{ℕ, List, Option, IfOk, option_map};
ghost use Rattle.std.specs.Global.{Global, Vec};

use std::alloc::{AllocError, Global};

/// What a folder has under a name.
#[derive(Clone, Copy, PartialEq, Eq)]
pub enum Kind {
    /// A folder.
    Folder,
    /// A link to a folder.
    Link,
    /// A file. Under a name that is not UTF-8, anything but a folder.
    File,
    /// Anything else, such as a pipe, a socket or a device.
    Other,
    /// What can't be found out.
    Unknown,
}

/// A name in a folder, and what is there under it.
#[derive(Drop)]
pub struct Entry {
    pub name: Vec<u8>,
    pub kind: Kind,
}

/// Lists folders.
pub trait Folders {
    ghost use Rattle.snap_names.specs.declared.folders.Entry.{Entry};

    /// What a folder may be listed as: its entries, or none if it can't be listed.
    ghost lists: { Self → List ℕ → Option (List Entry) → Type 0 };

    /// The entries of a folder, without itself and the folder above it; none if it can't be listed.
    fn list(&self, alloc: Global, folder: &[u8]) -> Result<Option<Vec<Entry>>, AllocError>
        ensures { IfOk result (λ entries. lists self.now folder.now (option_map (λ found. found.items) entries)) };
}

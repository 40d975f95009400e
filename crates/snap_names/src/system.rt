//! The folders of the system. No contract says what they hold.
ghost use Rattle.std.specs.Prelude.{⊤};

use crate::fault::NamesFault;
use crate::folders::{Entry, Folders, Kind};
use crate::list::read_names;
use crate::walk::path_in;
use std::alloc::{AllocError, Global};
use std::fs::Metadata;
use std::io::{BufReader, ErrorKind};
use std::os::unix::fs::MetadataExt;
use std::rt::Files;
use std::{fs, str};

/// Lists the folders of the system.
#[derive(Drop)]
pub struct SystemFolders<'a, R> {
    pub files: &'a R,
}

// The kind of what is not a folder.
fn kind_of(metadata: &Metadata) -> Kind {
    if metadata.is_file() {
        Kind::File
    } else {
        Kind::Other
    }
}

impl Entry {
    // Whether the name is not UTF-8.
    fn is_bare(&self) -> bool {
        str::from_utf8(&self.name).is_err()
    }
}

impl<R: Files> SystemFolders<'_, R> {
    // What is at a path; for a link, what it leads to. A file that disappeared since its listing still counts as a file.
    fn kind_at(&self, path: &str) -> Kind {
        match fs::symlink_metadata(self.files, path) {
            Ok(metadata) if metadata.is_dir() => Kind::Folder,
            Ok(metadata) if metadata.is_symlink() => match fs::metadata(self.files, path) {
                Ok(aim) if aim.is_dir() => Kind::Link,
                Ok(aim) => kind_of(&aim),
                Err(_) => Kind::File,
            },
            Ok(metadata) => kind_of(&metadata),
            Err(error) if error.kind() == ErrorKind::NotFound => Kind::File,
            Err(_) => Kind::Unknown,
        }
    }

    // Whether a folder has exactly this many folders. If the file system counts links, a folder has two links, and one from each
    // of its folders. If it has only one link, nothing is known.
    fn has_so_many(&self, folder: &[u8], folders: usize) -> bool {
        let Ok(path) = str::from_utf8(folder) else {
            return false;
        };
        match fs::metadata(self.files, path) {
            Ok(metadata) => metadata.nlink() == (folders as u64).saturating_add(2),
            Err(_) => false,
        }
    }

    // Marks the entries whose names are not UTF-8 as files, if all folders are known. The system can't be asked what is under such
    // a name.
    fn tell_bare(&self, folder: &[u8], entries: &mut Vec<Entry>) {
        if !entries.iter().any(Entry::is_bare) {
            return;
        }
        let folders = entries.iter().filter(|entry| entry.kind == Kind::Folder);
        if self.has_so_many(folder, folders.count()) {
            for entry in entries {
                if entry.is_bare() {
                    entry.kind = Kind::File;
                }
            }
        }
    }

    // The names in a folder, as the system gives them; none if it can't be listed.
    fn listed(&self, alloc: Global, folder: &[u8]) -> Result<Option<Vec<Vec<u8>>>, AllocError> {
        // with the slash the system follows a link to the folder that the argument names
        let slashed = path_in(alloc, folder, b"")?;
        let Ok(path) = str::from_utf8(&slashed) else {
            return Ok(None);
        };
        let Ok(listing) = self.files.open_dir(path) else {
            return Ok(None);
        };
        // a read of few bytes has no room for a name, and fails
        let Ok(listing) = BufReader::new(alloc, listing) else {
            return Err(AllocError);
        };
        match read_names(alloc, listing, 0) {
            Ok(names) => Ok(Some(names)),
            Err(NamesFault::Memory) => Err(AllocError),
            Err(_) => Ok(None),
        }
    }
}

impl<R: Files> Folders for SystemFolders<'_, R> {
    ghost lists = { λ _ _ _. ⊤ };

    fn list(&self, alloc: Global, folder: &[u8]) -> Result<Option<Vec<Entry>>, AllocError> {
        if folder.is_empty() {
            return Ok(None);
        }
        let Some(names) = self.listed(alloc, folder)? else {
            return Ok(None);
        };
        let mut entries = Vec::new(alloc);
        for name in names {
            if matches!(name.as_slice(), b"." | b"..") {
                continue;
            }
            let path = path_in(alloc, folder, &name)?;
            let kind = match str::from_utf8(&path) {
                Ok(path) => self.kind_at(path),
                Err(_) => Kind::Unknown,
            };
            entries.push(Entry { name, kind })?;
        }
        self.tell_bare(folder, &mut entries);
        Ok(Some(entries))
    }
}

//! The files of the system, and standard input. No contract says what they hold.
ghost use Rattle.std.specs.Prelude.{⊤};

use crate::opener::{Lengths, Opener, Trouble};
use snap_core::Counted;
use std::fs::{self, OpenFile};
use std::io::{ErrorKind, Read};
use std::rt::{Files, Stdin};
use std::{io, str};

/// A file, or standard input.
#[derive(Drop)]
pub enum SystemText<F> {
    /// A file.
    File(F),
    /// Standard input.
    Input(Stdin),
}

impl<F: Read> Read for SystemText<F> {
    fn read(&mut self, buf: &mut [u8]) -> io::Result<usize> {
        match self {
            SystemText::File(file) => file.read(buf),
            SystemText::Input(input) => input.read(buf),
        }
    }
}

/// Opens files by their names; `-` is standard input.
#[derive(Drop)]
pub struct System<'a, R> {
    /// The files.
    pub files: &'a R,
    /// Standard input.
    pub input: Stdin,
}

// The numbers of errors without a kind: too many open files; no such device, as for a socket.
const EMFILE: i32 = 24;

const ENXIO: i32 = 6;

// Why a file is not opened, by the number of an error without a kind.
fn trouble_numbered(number: Option<i32>) -> Trouble {
    match number {
        Some(EMFILE) => Trouble::TooManyOpen,
        Some(ENXIO) => Trouble::NoDevice,
        _ => Trouble::Unopened,
    }
}

// Why a file is not opened, by the error.
fn trouble_of(error: &io::Error) -> Trouble {
    match error.kind() {
        ErrorKind::NotFound | ErrorKind::NotADirectory => Trouble::Missing,
        ErrorKind::IsADirectory => Trouble::Folder,
        ErrorKind::PermissionDenied => Trouble::Denied,
        ErrorKind::FilesystemLoop => Trouble::LinkLoop,
        ErrorKind::InvalidFilename => Trouble::LongName,
        ErrorKind::OutOfMemory => Trouble::Memory,
        _ => trouble_numbered(error.raw_os_error()),
    }
}

impl<R: Files + Sync> Opener for System<'_, R>
where
    R::File: Send + Sync,
{
    type Text = SystemText<R::File>;

    ghost opens = { λ _ _ _. ⊤ };

    fn open(&self, name: &[u8]) -> Result<SystemText<R::File>, Trouble> {
        if name == b"-".as_slice() {
            return Ok(SystemText::Input(self.input));
        }
        let Ok(path) = str::from_utf8(name) else {
            return Err(Trouble::NotUnicode);
        };
        let file = match fs::open(self.files, path) {
            Ok(file) => file,
            Err(error) => return Err(trouble_of(&error)),
        };
        match file.metadata() {
            Ok(metadata) if metadata.is_dir() => Err(Trouble::Folder),
            _ => Ok(SystemText::File(file)),
        }
    }

    fn unread(&self, _name: &[u8], _text: &Counted<SystemText<R::File>>) -> Trouble {
        Trouble::Unread
    }
}

impl<R: Files> Lengths for System<'_, R> {
    fn length(&self, name: &[u8]) -> Option<u64> {
        let path = str::from_utf8(name).ok()?;
        let metadata = fs::metadata(self.files, path).ok()?;
        Some(metadata.len())
    }
}

//! Readers and writers in memory that fail, stop, or take little at a time.
ghost use Rattle.std.specs.Prelude.{Some};

use std::alloc::Global;
use std::io;
use std::io::{ErrorKind, Read, Write};

/// Gives one byte for each read, and fails at the read with one number, counted from 1.
#[derive(Drop)]
pub struct Drip<'a> {
    pub bytes: &'a [u8],
    pub fails_at: u64,
    pub reads: u64,
}

impl<'a> Drip<'a> {
    /// Gives these bytes, and fails at read `fails_at`, or at no read if that is 0.
    pub fn new(bytes: &'a [u8], fails_at: u64) -> Drip<'a> {
        Drip {
            bytes,
            fails_at,
            reads: 0,
        }
    }
}

impl Read for Drip<'_> {
    fn read(&mut self, buf: &mut [u8]) -> io::Result<usize> {
        self.reads = self.reads.saturating_add(1);
        if self.reads == self.fails_at {
            return Err(ErrorKind::Interrupted.into());
        }
        match self.bytes.split_first() {
            Some((first, rest)) if !buf.is_empty() => {
                buf[0] = *first;
                self.bytes = rest;
                Ok(1)
            }
            _ => Ok(0),
        }
    }
}

/// Gives a number of newlines.
#[derive(Drop)]
pub struct Newlines {
    pub left: usize,
}

impl Read for Newlines {
    fn read(&mut self, buf: &mut [u8]) -> io::Result<usize> {
        let n = buf.len().min(self.left);
        buf[..n].fill(b'\n');
        self.left -= n;
        Ok(n)
    }
}

/// Takes a number of bytes for each write until it is full, and counts its flushes. A full cup fails, or takes nothing.
#[derive(Drop)]
pub struct Cup {
    pub held: Vec<u8>,
    pub room: usize,
    pub at_once: usize,
    pub fails_when_full: bool,
    pub fails_at_flush: bool,
    pub flushes: u64,
}

impl Cup {
    /// An empty cup.
    pub fn new(
        alloc: Global,
        room: usize,
        at_once: usize,
        fails_when_full: bool,
        fails_at_flush: bool,
    ) -> Cup {
        Cup {
            held: Vec::new(alloc),
            room,
            at_once,
            fails_when_full,
            fails_at_flush,
            flushes: 0,
        }
    }
}

impl Write for Cup {
    ghost contents = { λ c. Some c.held.items };

    fn write(&mut self, buf: &[u8]) -> io::Result<usize> {
        let n = buf.len().min(self.room).min(self.at_once);
        if n == 0 && self.fails_when_full {
            return Err(ErrorKind::Interrupted.into());
        }
        if self.held.extend_from_slice(&buf[..n]).is_err() {
            return Err(ErrorKind::OutOfMemory.into());
        }
        self.room -= n;
        Ok(n)
    }

    fn flush(&mut self) -> io::Result<()> {
        self.flushes = self.flushes.saturating_add(1);
        if self.fails_at_flush {
            return Err(ErrorKind::Interrupted.into());
        }
        Ok(())
    }
}

//! Readers and writers that count their failures.
ghost use Rattle.std.specs.Prelude.{true, ◌≡◌, ◌==◌, ◌&&◌, ◌||◌, ◌<◌, not, length, is_err, is_ok, Ok};
ghost use Rattle.std.specs.Io.{ReadsAtMost, WritesAtMost};
ghost use Rattle.std.specs.Io.KnownBytes.{Keeps, ReadConsumes, WriteAppends};
ghost use Rattle.snap_core.specs.Counting.{failures_in, inner_of, counted, took_nothing};
ghost use Rattle.snap_core.specs.Sending.{CountsSend, Sends};

use std::io;
use std::io::{ErrorKind, Read, Write};

/// A reader or writer with the count of its failures. The count stops at `u64::MAX`.
#[derive(Drop)]
pub struct Counted<T> {
    inner: T,
    failures: u64,
}

impl<T> Counted<T> {
    /// A reader or writer with a count of 0.
    pub fn new(inner: T) -> Counted<T>
        ensures inner { inner_of result ≡ inner }
        ensures failures { failures_in result ≡ 0 }
    {
        Counted { inner, failures: 0 }
    }

    /// The number of calls that failed, at most `u64::MAX`.
    pub fn failures(&self) -> u64
        ensures { result ≡ failures_in self.now }
    {
        self.failures
    }

    /// The reader or writer, without its count.
    pub fn into_inner(self) -> T
        ensures { result ≡ inner_of self }
    {
        let Counted { inner, failures: _ } = self;
        inner
    }

    fn count(&mut self)
        ensures inner { inner_of self.new ≡ inner_of self.old }
        ensures counts { failures_in self.new ≡ counted true (failures_in self.old) }
    {
        self.failures = self.failures.saturating_add(1);
    }
}

impl<R: Read> Counted<R> {
    /// One read into `buf`: the number of bytes read. An error is counted.
    pub fn read(&mut self, buf: &mut [u8]) -> io::Result<usize>
        ensures bound { ReadsAtMost result buf.new }
        ensures bytes { ReadConsumes (R.remaining (inner_of self.old)) (R.remaining (inner_of self.new)) result buf.new }
        ensures counts { failures_in self.new ≡ counted (is_err result) (failures_in self.old) }
    {
        let result = self.inner.read(buf);
        if result.is_err() {
            self.count();
        }
        result
    }
}

impl<W: Write> Counted<W> {
    /// One write: the number of bytes taken. An error is counted, and so is a write of some bytes that takes none.
    pub fn write(&mut self, buf: &[u8]) -> io::Result<usize>
        ensures bound { WritesAtMost result buf.now }
        ensures bytes { WriteAppends (W.contents (inner_of self.old)) (W.contents (inner_of self.new)) result buf.now }
        ensures counts { failures_in self.new ≡ counted (is_err result || took_nothing buf.now result) (failures_in self.old) }
    {
        let result = self.inner.write(buf);
        match &result {
            Err(_) => self.count(),
            Ok(n) => {
                if *n == 0 && !buf.is_empty() {
                    self.count();
                }
            }
        }
        result
    }

    /// A flush. An error is counted.
    pub fn flush(&mut self) -> io::Result<()>
        ensures bytes { Keeps (W.contents (inner_of self.old)) (W.contents (inner_of self.new)) }
        ensures counts { failures_in self.new ≡ counted (is_err result) (failures_in self.old) }
    {
        let result = self.inner.flush();
        if result.is_err() {
            self.count();
        }
        result
    }

    /// Writes a whole text and flushes once at its end. The first error ends it, and so does a write that takes nothing:
    /// no call is tried again. After an error a front of the text went out, perhaps all of it.
    pub fn send(&mut self, text: &[u8]) -> io::Result<()>
        ensures bytes { Sends (W.contents (inner_of self.old)) (W.contents (inner_of self.new)) text.now result }
        ensures counts { CountsSend (failures_in self.old) (failures_in self.new) result }
    {
        let mut sent = 0;
        while sent < text.len() {
            match self.write(&text[sent..])? {
                0 => return Err(ErrorKind::WriteZero.into()),
                n => sent += n,
            }
        }
        self.flush()
    }
}

//! A writer that remembers whether its reader has gone.
ghost use Rattle.std.specs.Prelude.{◌≡◌, false};
ghost use Rattle.snap_commands.specs.Outlets.{is_closed};

use std::io;
use std::io::{ErrorKind, Write};

/// A writer that remembers whether its reader has gone, as the reader of a pipe may.
#[derive(Drop)]
pub struct Outlet<W> {
    inner: W,
    is_closed: bool,
}

impl<W> Outlet<W> {
    /// The writer over another, whose reader has not gone.
    pub fn new(inner: W) -> Outlet<W>
        ensures { is_closed result ≡ false }
    {
        Outlet {
            inner,
            is_closed: false,
        }
    }

    /// Whether the last failed write failed because nobody reads any more.
    pub fn is_closed(&self) -> bool
        ensures { result ≡ is_closed self.now }
    {
        self.is_closed
    }
}

impl<W: Write> Write for Outlet<W> {
    ghost contents = { λ o. W.contents o.inner };

    fn write(&mut self, buf: &[u8]) -> io::Result<usize> {
        match self.inner.write(buf) {
            Ok(written) => Ok(written),
            Err(error) => {
                self.is_closed = error.kind() == ErrorKind::BrokenPipe;
                Err(error)
            }
        }
    }

    fn flush(&mut self) -> io::Result<()> {
        self.inner.flush()
    }
}

//! A writer that paints verdicts.
ghost use Rattle.std.specs.Prelude.{None, if◌then◌else◌};
ghost use Rattle.snap_core.specs.Counting.{inner_of};

use crate::verdicts::send_painted;
use snap_core::Counted;
use std::io;
use std::io::Write;

/// A writer that paints the verdicts of the reports that it is given, or writes them as they are.
#[derive(Drop)]
pub struct Painted<W> {
    inner: Counted<W>,
    in_colors: bool,
}

impl<W> Painted<W> {
    /// The writer over another, with colours or without.
    pub fn new(inner: W, in_colors: bool) -> Painted<W> {
        Painted {
            inner: Counted::new(inner),
            in_colors,
        }
    }

    /// The writer that this one writes to.
    pub fn into_inner(self) -> W {
        self.inner.into_inner()
    }
}

impl<W: Write> Write for Painted<W> {
    ghost contents = { λ p. if p.in_colors then None else W.contents (inner_of p.inner) };

    fn write(&mut self, buf: &[u8]) -> io::Result<usize> {
        if !self.in_colors {
            return self.inner.write(buf);
        }
        send_painted(&mut self.inner, buf)?;
        Ok(buf.len())
    }

    fn flush(&mut self) -> io::Result<()> {
        self.inner.flush()
    }
}

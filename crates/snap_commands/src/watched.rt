//! An opener and a writer, with a line of progress.
use crate::progress::Progress;
use snap_core::Counted;
use snap_names::{Opener, Trouble};
use std::io;
use std::io::Write;
use std::time::Clock;

/// An opener that opens texts as another does, and counts them for a line of progress.
#[derive(Drop)]
pub struct Watched<'a, O, R> {
    /// The opener that it uses.
    pub opener: O,
    /// The line, if there is one.
    pub progress: Option<&'a Progress<'a, R>>,
}

impl<O: Opener, R: Clock + Sync> Opener for Watched<'_, O, R> {
    type Text = O::Text;

    ghost opens = { λ w name how. O.opens w.opener name how };

    fn open(&self, name: &[u8]) -> Result<O::Text, Trouble> {
        if let Some(progress) = self.progress {
            progress.next();
        }
        self.opener.open(name)
    }

    fn unread(&self, name: &[u8], text: &Counted<O::Text>) -> Trouble {
        self.opener.unread(name, text)
    }
}

/// A writer that removes the line of progress before it writes.
#[derive(Drop)]
pub struct Cleared<'a, W, R> {
    /// The writer.
    pub inner: W,
    /// The line, if there is one.
    pub progress: Option<&'a Progress<'a, R>>,
}

impl<W: Write, R: Clock> Write for Cleared<'_, W, R> {
    ghost contents = { λ c. W.contents c.inner };

    fn write(&mut self, buf: &[u8]) -> io::Result<usize> {
        if let Some(progress) = self.progress {
            progress.clear();
        }
        self.inner.write(buf)
    }

    fn flush(&mut self) -> io::Result<()> {
        self.inner.flush()
    }
}

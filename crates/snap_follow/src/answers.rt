//! What is answered of a recording: the lines of its windows, and their sums.
ghost use Rattle.std.specs.Prelude.{◌≡◌, ◌++◌, [], List, OnOk};
ghost use Rattle.snap_follow.specs.Bytes.{AreWholeLines};
ghost use Rattle.snap_follow.specs.Windows.{Told, sums_text};
ghost use Rattle.snap_follow.specs.inside.Sums.{AddsLast, AddsWindow, AreSums, HasAnswered};

use crate::follow::Window;
use crate::lines::{Lines, put_failure, put_refusal, put_window};
use crate::span::Place;
use crate::sums::{Kind, Sums};
use snap_text::TextFault;
use std::alloc::{AllocError, Global};

/// The answers of a recording so far.
#[derive(Drop)]
pub(crate) struct Answers {
    sums: Sums,
    // the names of the texts that were begun; none if the recording is one text
    names: Vec<Vec<u8>>,
    // room to make a line in
    made: Vec<u8>,
    // the lines that are still to be written
    lines: Lines,
}

impl Answers {
    pub(crate) fn new(alloc: Global) -> Answers
        ensures { HasAnswered result [] [] }
    {
        Answers {
            sums: Sums::new(),
            names: Vec::new(alloc),
            made: Vec::new(alloc),
            lines: Lines::new(alloc),
        }
    }

    /// The number of completed views that the windows have.
    pub(crate) fn views(&self) -> u64
        ensures { result ≡ self.now.sums.views }
    {
        self.sums.views()
    }

    /// The lines that are still to be written.
    pub(crate) fn lines(&self) -> &[u8]
        ensures same { result.now ≡ self.now.lines }
        ensures whole { AreWholeLines result.now }
    {
        self.lines.bytes()
    }

    /// Forgets the lines, which were written.
    pub(crate) fn clear_lines(&mut self)
        ensures none { self.new.lines ≡ [] }
        ensures sums { self.new.sums ≡ self.old.sums }
    {
        self.lines.clear();
    }

    /// Notes the name of a text that begins.
    pub(crate) fn add_name(&mut self, name: Vec<u8>) -> Result<(), AllocError>
        ensures { (self.new.lines ≡ self.old.lines) × (self.new.sums ≡ self.old.sums) }
    {
        Ok(self.names.push(name)?)
    }

    /// Adds the line of a window that has ended, and counts it.
    pub(crate) fn add_window(&mut self, window: &Window) -> Result<(), AllocError>
        ensures { OnOk result (AddsWindow self.old self.new window.now) }
    {
        self.made.clear();
        put_window(&mut self.made, self.sums.next(), window, &self.names)?;
        self.lines.add(&self.made)?;
        self.sums.add_window(window);
        Ok(())
    }

    /// Adds the line of the last window, if it has events, and counts it.
    pub(crate) fn add_last(&mut self, window: &Window) -> Result<(), AllocError>
        ensures { OnOk result (AddsLast self.old self.new window.now) }
    {
        if window.span.events == 0 {
            return Ok(());
        }
        self.add_window(window)
    }

    // Adds the line of a window that is refused at a record for this word, and counts it.
    fn add_refused(&mut self, place: Place, word: &str) -> Result<(), AllocError> {
        self.made.clear();
        put_refusal(&mut self.made, self.sums.next(), place, word, &self.names)?;
        self.lines.add(&self.made)?;
        self.sums.add(Kind::Refused);
        Ok(())
    }

    /// Adds the line of a window that is refused at a record, and counts it.
    pub(crate) fn add_refusal(&mut self, place: Place, fault: TextFault) -> Result<(), AllocError> {
        self.add_refused(place, fault.word())
    }

    /// Adds the line of a window that is refused at a record that comes too late, and counts it.
    pub(crate) fn add_late(&mut self, place: Place) -> Result<(), AllocError> {
        self.add_refused(place, "late")
    }

    /// Adds the line of a window that can't be judged, and counts it.
    pub(crate) fn add_failure(&mut self) -> Result<(), AllocError> {
        self.made.clear();
        put_failure(&mut self.made, self.sums.next())?;
        self.lines.add(&self.made)?;
        self.sums.add(Kind::Failed);
        Ok(())
    }

    /// Adds the lines of the sums.
    pub(crate) fn add_sums(&mut self) -> Result<(), AllocError>
        ensures text { (told : List Told) → AreSums told self.old.sums → OnOk result (self.new.lines ≡ self.old.lines ++ sums_text told) }
        ensures same { self.new.sums ≡ self.old.sums }
    {
        self.made.clear();
        self.sums.put(&mut self.made)?;
        self.lines.add(&self.made)
    }
}

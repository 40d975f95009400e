//! The lines of windows.
ghost use Rattle.std.specs.Prelude.{◌≡◌, ◌++◌, [], OnOk};
ghost use Rattle.snap_follow.specs.Bytes.{AreWholeLines};
ghost use Rattle.snap_follow.specs.Windows.{missed_text, place_text, window_text};

use crate::follow::Window;
use crate::span::Place;
use crate::sums::Kind;
use snap_core::Entry;
use snap_names::put_shown;
use snap_report::{put_entry, put_number};
use std::alloc::{AllocError, Global};
use std::marker::Model;

/// Whole lines, each with its end.
#[derive(Drop)]
pub(crate) struct Lines {
    bytes: Vec<u8>,
}

impl Model for Lines {
    ghost use Rattle.std.specs.Prelude.{ℕ, List};
    ghost use Rattle.snap_follow.specs.Bytes.{AreWholeLines};

    ghost Value = { List ℕ };

    ghost view = { λ lines. lines.bytes.items };

    ghost invariant = { λ lines. AreWholeLines lines.bytes.items };
}

impl Lines {
    pub(crate) fn new(alloc: Global) -> Lines
        ensures { result ≡ [] }
    {
        Lines {
            bytes: Vec::new(alloc),
        }
    }

    /// The bytes of the lines.
    pub(crate) fn bytes(&self) -> &[u8]
        ensures same { result.now ≡ self.now }
        ensures whole { AreWholeLines result.now }
    {
        &self.bytes
    }

    /// Adds lines. If memory runs out, none is added.
    pub(crate) fn add(&mut self, lines: &[u8]) -> Result<(), AllocError>
        requires { AreWholeLines lines.now }
        ensures { OnOk result (self.new ≡ self.old ++ lines.now) }
    {
        self.bytes.extend_from_slice(lines)
    }

    pub(crate) fn clear(&mut self)
        ensures { self.new ≡ [] }
    {
        self.bytes.clear();
    }
}

// Adds a text, and after it a record: its number, and the name of its text if that has one.
fn put_place(
    out: &mut Vec<u8>,
    text: &[u8],
    place: Place,
    names: &[Vec<u8>],
) -> Result<(), AllocError>
    ensures { OnOk result (out.new.items ≡ out.old.items ++ text.now ++ place_text names.now place) }
{
    put_number(out, text, place.number)?;
    match names.get(place.text) {
        Some(name) => {
            out.extend_from_slice(b" of ")?;
            put_shown(out, name)
        }
        None => Ok(()),
    }
}

// Adds what a view misses, and the record that ends the view.
fn put_missed(
    out: &mut Vec<u8>,
    missed: Option<(Entry, Place)>,
    names: &[Vec<u8>],
) -> Result<(), AllocError>
    ensures { OnOk result (out.new.items ≡ out.old.items ++ missed_text names.now missed) }
{
    match missed {
        Some((entry, place)) => {
            put_entry(out, b" misses ", &entry)?;
            put_place(out, b" in record ", place, names)
        }
        None => Ok(()),
    }
}

/// Adds the line of a window of this number. The texts of the recording have these names.
pub(crate) fn put_window(
    out: &mut Vec<u8>,
    number: u64,
    window: &Window,
    names: &[Vec<u8>],
) -> Result<(), AllocError>
    ensures text { OnOk result (out.new.items ≡ out.old.items ++ window_text number window.now names.now) }
    ensures whole { OnOk result (AreWholeLines out.new.items) }
{
    put_number(out, b"window ", number)?;
    put_number(out, b" events ", window.span.events)?;
    out.push(b' ')?;
    out.extend_from_slice(Kind::of(window.verdict).word())?;
    put_place(out, b" from ", window.span.first, names)?;
    put_place(out, b" to ", window.span.last, names)?;
    put_missed(out, window.span.missed, names)?;
    Ok(out.push(b'\n')?)
}

/// Adds the line of a window of this number that is refused at a record, and the word that says why.
pub(crate) fn put_refusal(
    out: &mut Vec<u8>,
    number: u64,
    place: Place,
    word: &str,
    names: &[Vec<u8>],
) -> Result<(), AllocError>
    ensures { OnOk result (AreWholeLines out.new.items) }
{
    put_number(out, b"window ", number)?;
    put_place(out, b" refused record ", place, names)?;
    out.extend_from_slice(b": ")?;
    out.extend_from_slice(word.as_bytes())?;
    Ok(out.push(b'\n')?)
}

/// Adds the line of a window of this number that can't be judged.
pub(crate) fn put_failure(out: &mut Vec<u8>, number: u64) -> Result<(), AllocError>
    ensures { OnOk result (AreWholeLines out.new.items) }
{
    put_number(out, b"window ", number)?;
    out.extend_from_slice(b" failed")?;
    Ok(out.push(b'\n')?)
}

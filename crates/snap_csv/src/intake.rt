//! The whole text of a reader, read straight into the memory that keeps it.
ghost use Rattle.std.specs.Prelude.{◌≡◌, ◌≤◌, ◌<◌, ◌↔◌, IfOk, IsTrue, All, OnOk, drop, is_err, length, take};
ghost use Rattle.std.specs.Io.{ReadsAtMost};
ghost use Rattle.std.specs.Io.KnownBytes.{ReadConsumes};
ghost use Rattle.snap_core.specs.Counting.{counted, inner_of, failures_in};
ghost use Rattle.snap_csv.specs.Answers.{Counts};
ghost use Rattle.snap_csv.specs.inside.Intake.{TakesIn};
ghost use Rattle.snap_plain.specs.Lines.{IsPlain};
ghost use Rattle.snap_core.specs.Events.{event_cap};
ghost use Rattle.snap_format.specs.Texts.{bytes_cap, bytes_within};

use snap_core::{Counted, Limit};
use snap_format::{ReadRefusal, bytes_within};
use snap_plain::is_plain;
use snap_text::TextFault;
use std::alloc::{AllocError, Global};
use std::io::{self, Read};

// The number of bytes for which a text makes room at first. All of it is cleared, so it is little: most texts are short.
const FIRST_PIECE: usize = 4_096;

// The number of bytes for which a text makes room at a time after that.
const PIECE: usize = 65_536;

// Makes room for a piece, if a text has no room left after the bytes that are filled.
fn make_room(text: &mut Vec<u8>, filled: usize) -> Result<(), AllocError>
    requires within { filled ≤ bytes_cap }
    requires has { filled ≤ length text.old.items }
    ensures kept { OnOk result (take filled text.new.items ≡ take filled text.old.items) }
    ensures room { OnOk result (filled < length text.new.items) }
{
    if filled == text.len() {
        let piece = if filled == 0 { FIRST_PIECE } else { PIECE };
        text.resize(filled + piece, 0)?;
    }
    Ok(())
}

// Reads once into the room after the bytes that are filled.
fn read_behind<R: Read>(
    reader: &mut Counted<R>,
    text: &mut Vec<u8>,
    filled: usize,
) -> io::Result<usize>
    requires { filled ≤ length text.old.items }
    ensures kept { take filled text.new.items ≡ take filled text.old.items }
    ensures len { length text.new.items ≡ length text.old.items }
    ensures bound { ReadsAtMost result (drop filled text.new.items) }
    ensures bytes { ReadConsumes (R.remaining (inner_of reader.old)) (R.remaining (inner_of reader.new)) result (drop filled text.new.items) }
    ensures counts { failures_in reader.new ≡ counted (is_err result) (failures_in reader.old) }
{
    reader.read(&mut text[filled..])
}

// Fills a text with everything that a reader has left, if that is within the limit, and says whether it is plain. Each piece is
// searched for quotes and carriage returns just after it was read, so that no second pass goes over the text.
fn fill<R: Read>(
    reader: &mut Counted<R>,
    text: &mut Vec<u8>,
    limit: Limit,
) -> Result<bool, ReadRefusal>
    ensures text { TakesIn limit (R.remaining (inner_of reader.old)) text.new.items result }
    ensures plain { IfOk result (λ plain. IsTrue plain ↔ All IsPlain text.new.items) }
    ensures counts { Counts (failures_in reader.old) (failures_in reader.new) result }
{
    let most = bytes_within(limit);
    let mut filled = 0;
    let mut plain = true;
    let mut ended = false;
    while !ended {
        make_room(text, filled)?;
        match read_behind(reader, text, filled) {
            Err(_) => return Err(ReadRefusal::Device),
            Ok(n) => {
                if n > most - filled {
                    return Err(ReadRefusal::Text {
                        place: 0,
                        fault: TextFault::TooLong,
                    });
                }
                plain &= is_plain(&text[filled..filled + n]);
                filled += n;
                ended = n == 0;
            }
        }
    }
    text.truncate(filled);
    Ok(plain)
}

/// Takes everything that a reader has left into a room, if that is within the limit, and says whether it is plain. What the
/// room had is lost then.
pub(crate) fn take_in<R: Read>(
    alloc: Global,
    reader: &mut Counted<R>,
    room: &mut Vec<u8>,
    limit: Limit,
) -> Result<bool, ReadRefusal>
    ensures text { TakesIn limit (R.remaining (inner_of reader.old)) room.new.items result }
    ensures plain { IfOk result (λ plain. IsTrue plain ↔ All IsPlain room.new.items) }
    ensures counts { Counts (failures_in reader.old) (failures_in reader.new) result }
{
    let mut text = Vec::new(alloc);
    let plain = fill(reader, &mut text, limit)?;
    *room = text;
    Ok(plain)
}

//! Lines whose quotes may go: none of their fields needs them.
ghost use Rattle.std.specs.Prelude.{◌≡◌, [], false, IfOk, IfSome, IsTrue};
ghost use Rattle.csv.specs.Reading.{strip_bom};
ghost use Rattle.snap_format.specs.Rows.{rows_of};
ghost use Rattle.snap_follow.specs.declared.quotes.At.{At};
ghost use Rattle.snap_follow.specs.inside.Quotes.{IsNotQuoted, IsStripped, Steps};

use memchr::memchr;
use std::alloc::AllocError;

// Where the next byte of a line is.
#[derive(Clone, Copy)]
pub(crate) enum At {
    // At the begin of a field.
    Begin,
    // In a field without quotes.
    Bare,
    // Between the quotes of a field.
    Quoted,
    // After them.
    Closed,
}

// Where the byte after a byte is, and whether the byte stays when the quotes go. None if they can't go.
fn step(at: At, byte: u8) -> Option<(At, bool)>
    ensures { IfSome result (λ next. Steps at byte next.0 next.1) }
{
    match (at, byte) {
        (_, b'\n' | b'\r') | (At::Quoted, b',') => None,
        (At::Begin, b'"') => Some((At::Quoted, false)),
        (At::Quoted, b'"') => Some((At::Closed, false)),
        (At::Quoted, _) => Some((At::Quoted, true)),
        (_, b',') => Some((At::Begin, true)),
        (At::Closed, _) => None,
        _ => Some((At::Bare, true)),
    }
}

// Whether a text may begin with a byte order mark.
fn may_have_mark(text: &[u8]) -> bool
    ensures { result ≡ false → strip_bom text.now ≡ text.now }
{
    match text.split_first() {
        Some((first, _)) => *first == 0xEF,
        None => false,
    }
}

// Whether a line may end here.
fn is_not_quoted(at: At) -> bool
    ensures { IsTrue result → IsNotQuoted at }
{
    !matches!(at, At::Quoted)
}

// Writes what stays of a line. Answers whether its quotes may go.
fn strip(line: &[u8], bare: &mut Vec<u8>) -> Result<bool, AllocError>
    requires { bare.old.items ≡ [] }
    ensures { IfOk result (λ goes. IsTrue goes → (at : At) × IsNotQuoted at × IsStripped line.now [] bare.new.items at) }
{
    let mut at = At::Begin;
    let mut left = line;
    while let Some((byte, behind)) = left.split_first() {
        let Some((next, stays)) = step(at, *byte) else {
            return Ok(false);
        };
        if stays {
            bare.push(*byte)?;
        }
        at = next;
        left = behind;
    }
    Ok(is_not_quoted(at))
}

// Writes a line without the quotes of its fields into a room, if none of them needs any. Answers whether it has the same records then.
fn unquote(line: &[u8], bare: &mut Vec<u8>) -> Result<bool, AllocError>
    ensures { IfOk result (λ same. IsTrue same → rows_of bare.new.items ≡ rows_of line.now) }
{
    bare.clear();
    if memchr(b'"', line).is_none() || may_have_mark(line) {
        return Ok(false);
    }
    if !strip(line, bare)? || bare.is_empty() || may_have_mark(bare) {
        return Ok(false);
    }
    Ok(true)
}

/// A line, or one with the same records and no quotes, which is then in the room. A reader of `csv` costs much more.
pub(crate) fn without_quotes<'l>(
    line: &'l [u8],
    room: &'l mut Vec<u8>,
) -> Result<&'l [u8], AllocError>
    ensures { IfOk result (λ bare. rows_of bare.now ≡ rows_of line.now) }
{
    if unquote(line, room)? {
        return Ok(room);
    }
    Ok(line)
}

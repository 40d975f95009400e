//! Numbers and stamps in a text.
ghost use Rattle.std.specs.Prelude.{◌≡◌, ◌^◌, ℕ, List, MatchOption};
ghost use Rattle.snap_text.specs.Fields.{number_at};
ghost use Rattle.snap_text.specs.inside.Fronts.{NumberThen};

use itoa::Buffer;

// The greatest number below 2^32.
const GREATEST: u64 = u32::MAX as u64;

/// The number below 2^32 whose decimal form a text begins with, and the text after its last digit.
#[inline(always)]
pub(crate) fn number_first(text: &[u8]) -> Option<(u32, &[u8])>
    ensures { MatchOption result ((n : ℕ) (rest : List ℕ) → NumberThen n rest text.now → ⊥) (λ x. NumberThen x.0 x.1.now text.now) }
{
    let (first, mut left) = text.split_first()?;
    if !first.is_ascii_digit() {
        return None;
    }
    let mut number = u64::from(first - b'0');
    while let Some((byte, rest)) = left.split_first() {
        if !byte.is_ascii_digit() {
            break;
        }
        // this digit comes after a leading zero, or makes the number too great
        if number == 0 || number > GREATEST / 10 {
            return None;
        }
        number = number * 10 + u64::from(byte - b'0');
        left = rest;
    }
    if number > GREATEST {
        return None;
    }
    Some((number as u32, left))
}

/// The number below 2^32 whose decimal form a field is.
pub(crate) fn number_of(field: &[u8]) -> Option<u32>
    ensures { result ≡ number_at (2 ^ 32) field.now }
{
    let (number, rest) = number_first(field)?;
    if rest.is_empty() { Some(number) } else { None }
}

/// The process that a field names.
pub(crate) fn process_of(field: &[u8]) -> Option<u16>
    ensures { result ≡ number_at (2 ^ 16) field.now }
{
    match number_of(field) {
        Some(n) if n < 65536 => Some(n as u16),
        _ => None,
    }
}

// The stamp that a field is, of whatever number of digits.
fn long_stamp_of(field: &[u8]) -> Option<u64>
    ensures { result ≡ number_at (2 ^ 64) field.now }
{
    let Ok(text) = str::from_utf8(field) else {
        return None;
    };
    let Ok(stamp) = text.parse::<u64>() else {
        return None;
    };
    let mut buffer = Buffer::new();
    if buffer.format(stamp).as_bytes() == field {
        Some(stamp)
    } else {
        None
    }
}

/// The stamp that a field is: the decimal form of a number below 2^64. None if the field is something else.
pub fn stamp_of(field: &[u8]) -> Option<u64>
    ensures { result ≡ number_at (2 ^ 64) field.now }
{
    // most stamps are counts, and so are small
    match number_of(field) {
        Some(stamp) => Some(u64::from(stamp)),
        None => long_stamp_of(field),
    }
}

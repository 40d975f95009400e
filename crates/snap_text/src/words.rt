//! Words that are written from their last byte to the first, as the digits of a number come. Each ends at a place of a buffer,
//! so that a whole line is one piece before it is copied.
ghost use Rattle.std.specs.Prelude.{◌≡◌, ◌+◌, ◌≤◌, ◌++◌, decimal, drop, length};
ghost use Rattle.snap_text.specs.Spelling.{entry_text};

use itoa::write_digits;
use snap_core::Entry;

/// The greatest number of bytes of an entry: two colons, and three numbers of 3, 10 and 10 digits.
pub const ENTRY_SIZE: usize = 25;

/// Writes a text so that it ends at a place of the buffer, and gives the place of its first byte.
#[inline(always)]
pub fn write_text(text: &[u8], buffer: &mut [u8], end: usize) -> usize
    requires room { length text.now ≤ end }
    requires within { end ≤ length buffer.old }
    ensures start { result + length text.now ≡ end }
    ensures written { drop result buffer.new ≡ text.now ++ drop end buffer.old }
    ensures same { length buffer.new ≡ length buffer.old }
{
    let at = end - text.len();
    buffer[at..end].copy_from_slice(text);
    at
}

/// Writes a text and then a number, so that they end at a place of the buffer, and gives the place of their first byte.
#[inline(always)]
pub fn write_number(text: &[u8], number: u64, buffer: &mut [u8], end: usize) -> usize
    requires room { length text.now + length (decimal number) ≤ end }
    requires within { end ≤ length buffer.old }
    ensures start { result + (length text.now + length (decimal number)) ≡ end }
    ensures written { drop result buffer.new ≡ text.now ++ decimal number ++ drop end buffer.old }
    ensures same { length buffer.new ≡ length buffer.old }
{
    let at = write_digits(number, buffer, end);
    write_text(text, buffer, at)
}

/// Writes a text and then an entry, so that they end at a place of the buffer, and gives the place of their first byte.
#[inline(always)]
pub fn write_entry(text: &[u8], entry: &Entry, buffer: &mut [u8], end: usize) -> usize
    requires room { length text.now + ENTRY_SIZE ≤ end }
    requires within { end ≤ length buffer.old }
    ensures start { (result ≤ end) × (end ≤ result + (length text.now + ENTRY_SIZE)) }
    ensures written { drop result buffer.new ≡ text.now ++ entry_text entry.now ++ drop end buffer.old }
    ensures same { length buffer.new ≡ length buffer.old }
{
    let Entry {
        component,
        number,
        value,
    } = *entry;
    let at = write_number(b":", u64::from(value), buffer, end);
    let at = write_number(b":", u64::from(number), buffer, at);
    write_number(text, u64::from(component), buffer, at)
}

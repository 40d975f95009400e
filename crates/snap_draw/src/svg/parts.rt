//! The parts that elements are made of.
use snap_report::put_number;
use std::alloc::AllocError;

/// Adds texts, each with a number after it, and then the end.
pub(crate) fn put_parts(
    out: &mut Vec<u8>,
    parts: &[(&[u8], u64)],
    end: &[u8],
) -> Result<(), AllocError> {
    for (text, number) in parts {
        put_number(out, text, *number)?;
    }
    out.extend_from_slice(end)
}

// How markup writes a character that it would read as its own.
fn escape_of(byte: u8) -> Option<&'static [u8]> {
    match byte {
        b'&' => Some(b"&amp;"),
        b'<' => Some(b"&lt;"),
        b'>' => Some(b"&gt;"),
        b'"' => Some(b"&quot;"),
        _ => None,
    }
}

/// Adds text, with the characters that markup would read as its own escaped.
pub(crate) fn put_escaped(out: &mut Vec<u8>, text: &[u8]) -> Result<(), AllocError> {
    for byte in text {
        match escape_of(*byte) {
            Some(escape) => out.extend_from_slice(escape)?,
            None => out.push(*byte)?,
        }
    }
    Ok(())
}

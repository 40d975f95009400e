//! Names as they are shown.
ghost use Rattle.std.specs.Prelude.{◌≡◌, ◌<◌, ◌++◌, OnOk};
ghost use Rattle.std.specs.Char.{digit_char};
ghost use Rattle.std.specs.Str.{is_utf8};
ghost use Rattle.snap_names.specs.Shown.{escaped, is_plain, shown, shown_byte};

use std::alloc::AllocError;
use std::str;

// A digit to the base of 16.
fn hex_digit(digit: u8) -> u8
    requires { digit < 16 }
    ensures { result ≡ digit_char digit }
{
    if digit < 10 {
        b'0' + digit
    } else {
        b'a' + (digit - 10)
    }
}

// Adds a byte as \x and its two digits to the base of 16.
fn put_escaped(out: &mut Vec<u8>, byte: u8) -> Result<(), AllocError>
    ensures { OnOk result (out.new.items ≡ out.old.items ++ escaped byte) }
{
    out.extend_from_slice(b"\\x")?;
    out.push(hex_digit(byte / 16))?;
    Ok(out.push(hex_digit(byte % 16))?)
}

// Whether a byte is shown as it is.
fn is_plain(byte: u8, is_text: bool) -> bool
    ensures { result ≡ is_plain is_text byte }
{
    !byte.is_ascii_control() && (is_text || byte.is_ascii())
}

// Adds a byte of a name as it is shown.
fn put_shown_byte(out: &mut Vec<u8>, byte: u8, is_text: bool) -> Result<(), AllocError>
    ensures { OnOk result (out.new.items ≡ out.old.items ++ shown_byte is_text byte) }
{
    match byte {
        b'\n' => out.extend_from_slice(b"\\n"),
        b'\r' => out.extend_from_slice(b"\\r"),
        b'\\' => out.extend_from_slice(b"\\\\"),
        _ if is_plain(byte, is_text) => Ok(out.push(byte)?),
        _ => put_escaped(out, byte),
    }
}

// Whether a name is UTF-8.
fn is_text(name: &[u8]) -> bool
    ensures { result ≡ is_utf8 name.now }
{
    str::from_utf8(name).is_ok()
}

/// Adds a name as it is shown. Line ends, other control bytes of ASCII and backslashes are escaped, and so is each byte above 127 of
/// a name that is not UTF-8. So a name never breaks a line, and sends a terminal no control byte of ASCII.
pub fn put_shown(out: &mut Vec<u8>, name: &[u8]) -> Result<(), AllocError>
    ensures { OnOk result (out.new.items ≡ out.old.items ++ shown name.now) }
{
    let is_text = is_text(name);
    for byte in name {
        put_shown_byte(out, *byte, is_text)?;
    }
    Ok(())
}

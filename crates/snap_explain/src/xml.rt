//! Texts in a document of XML.
ghost use Rattle.std.specs.Prelude.{◌≡◌, ◌++◌, OnOk};
ghost use Rattle.snap_explain.specs.Xml.{ReadsBack, StaysInside, character, ends_noncharacter, xml_byte, xml_text};

use std::alloc::AllocError;

// Whether a byte after two others ends U+FFFE or U+FFFF.
fn ends_noncharacter(before: u8, last: u8, byte: u8) -> bool
    ensures { result ≡ ends_noncharacter before last byte }
{
    before == 239 && last == 191 && 190 <= byte
}

// Adds a byte after two others, or U+FFFD if XML can't have its character.
fn put_character(out: &mut Vec<u8>, before: u8, last: u8, byte: u8) -> Result<(), AllocError>
    ensures { OnOk result (out.new.items ≡ out.old.items ++ character before last byte) }
{
    if byte == b'\n' {
        Ok(out.push(byte)?)
    } else if byte.is_ascii_control() {
        out.extend_from_slice(&[239, 191, 189])
    } else if ends_noncharacter(before, last, byte) {
        Ok(out.push(189)?)
    } else {
        Ok(out.push(byte)?)
    }
}

// Adds a byte after two others as XML has it.
fn put_byte(out: &mut Vec<u8>, before: u8, last: u8, byte: u8) -> Result<(), AllocError>
    ensures { OnOk result (out.new.items ≡ out.old.items ++ xml_byte before last byte) }
{
    match byte {
        b'&' => out.extend_from_slice(b"&amp;"),
        b'<' => out.extend_from_slice(b"&lt;"),
        b'>' => out.extend_from_slice(b"&gt;"),
        b'"' => out.extend_from_slice(b"&quot;"),
        _ => put_character(out, before, last, byte),
    }
}

/// Adds a text as XML has it, between tags or in the value of an attribute. U+FFFD stands for each character that XML can't have.
pub(crate) fn put_xml(out: &mut Vec<u8>, text: &[u8]) -> Result<(), AllocError>
    ensures { OnOk result (out.new.items ≡ out.old.items ++ xml_text text.now) }
{
    let mut before = 0;
    let mut last = 0;
    for byte in text {
        put_byte(out, before, last, *byte)?;
        before = last;
        last = *byte;
    }
    Ok(())
}

/// The laws of a text in XML. It stays inside its tags and its quotes, and a reader of XML finds its characters again.
pub fn xml_laws()
    ensures stays_inside { StaysInside }
    ensures reads_back { ReadsBack }
{}

//! Lines that say something of a name.
ghost use Rattle.std.specs.Prelude.{◌≡◌, true, IfOk};
ghost use Rattle.snap_names.specs.Said.{fronted_from, named_lines, reason_line_text, trouble_line_text, trouble_text};

use crate::opener::Trouble;
use crate::shown::put_shown;
use std::alloc::{AllocError, Global};

// A text with this front before each of its lines.
fn front_lines(alloc: Global, front: &[u8], text: &[u8]) -> Result<Vec<u8>, AllocError>
    ensures { IfOk result (λ lines. lines.items ≡ fronted_from true front.now text.now) }
{
    let mut lines = Vec::new(alloc);
    let mut begins = true;
    for byte in text {
        if begins {
            lines.extend_from_slice(front)?;
        }
        lines.push(*byte)?;
        begins = *byte == b'\n';
    }
    Ok(lines)
}

/// A text with the name before each of its lines. The name is shown as by `put_shown`.
pub fn name_lines(alloc: Global, name: &[u8], text: &[u8]) -> Result<Vec<u8>, AllocError>
    ensures { IfOk result (λ lines. lines.items ≡ named_lines name.now text.now) }
{
    let mut front = Vec::new(alloc);
    put_shown(&mut front, name)?;
    front.extend_from_slice(b": ")?;
    front_lines(alloc, &front, text)
}

/// The line that gives a reason for a name, which need not be UTF-8.
pub fn reason_line(alloc: Global, name: &[u8], reason: &str) -> Result<Vec<u8>, AllocError>
    ensures { IfOk result (λ line. line.items ≡ reason_line_text name.now reason.now) }
{
    let mut line = Vec::new(alloc);
    line.extend_from_slice(b"snapjudge: ")?;
    put_shown(&mut line, name)?;
    line.extend_from_slice(b": ")?;
    line.extend_from_slice(reason.as_bytes())?;
    line.push(b'\n')?;
    Ok(line)
}

/// A trouble in words.
pub fn trouble_words(trouble: Trouble) -> &'static str
    ensures { result.now ≡ trouble_text trouble }
{
    match trouble {
        Trouble::Missing => "no such file",
        Trouble::Folder => "is a directory; check -r judges the files below it",
        Trouble::NotUnicode => "is not UTF-8",
        Trouble::Denied => "permission denied",
        Trouble::TooManyOpen => "too many open files",
        Trouble::LinkLoop => "too many links",
        Trouble::LongName => "the name is too long",
        Trouble::NoDevice => "is a socket, or its device is missing",
        Trouble::Unopened => "can't be opened",
        Trouble::Unread => "read failed",
        Trouble::Memory => "out of memory",
    }
}

/// The line that gives the trouble of a name.
pub fn trouble_line(alloc: Global, name: &[u8], trouble: Trouble) -> Result<Vec<u8>, AllocError>
    ensures { IfOk result (λ line. line.items ≡ trouble_line_text name.now trouble) }
{
    reason_line(alloc, name, trouble_words(trouble))
}

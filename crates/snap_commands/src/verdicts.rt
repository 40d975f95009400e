//! The lines of verdicts in colours.
ghost use Rattle.std.specs.Prelude.{◌≤◌, ◌-◌, IfOk, IfSome, OnErr, OnOk, drop, length, take};
ghost use Rattle.snap_core.specs.Counting.{inner_of};
ghost use Rattle.snap_commands.specs.Painting.{CutsPainted, IsColor, IsEndOfLine, SendsPainted};

use snap_core::Counted;
use std::io;
use std::io::Write;

const GREEN: &[u8] = b"\x1b[32m";

const RED: &[u8] = b"\x1b[31m";

const PLAIN: &[u8] = b"\x1b[0m";

// Whether a line of a report is this verdict, alone or after the name of its text.
fn is_verdict(line: &[u8], verdict: &[u8]) -> bool {
    match line.strip_suffix(verdict) {
        Some(front) => front.is_empty() || front.ends_with(b": "),
        None => false,
    }
}

// The colour of a line, with its line feed, if it is the line of a verdict.
fn color_of(line: &[u8]) -> Option<&'static [u8]>
    ensures { IfSome result (λ color. IsColor color.now) }
{
    if is_verdict(line, b"regular yes\n")
        || is_verdict(line, b"monotone yes\n")
        || is_verdict(line, b"atomic yes\n")
    {
        Some(GREEN)
    } else if is_verdict(line, b"regular no\n")
        || is_verdict(line, b"monotone no\n")
        || is_verdict(line, b"atomic no\n")
    {
        Some(RED)
    } else {
        None
    }
}

// The place of the line feed of a line, or the length of a line without one.
fn end_of(line: &[u8]) -> usize
    ensures { IsEndOfLine line.now result × (result ≤ length line.now) }
{
    match line.strip_suffix(b"\n") {
        Some(front) => front.len(),
        None => line.len(),
    }
}

// Sends a line in a colour, which ends before the line feed. So a reader of lines has no colour left over.
fn send_colored<W: Write>(writer: &mut Counted<W>, color: &[u8], line: &[u8]) -> io::Result<()>
    requires { IsColor color.now }
    ensures sent { OnOk result (SendsPainted (W.contents (inner_of writer.old)) (W.contents (inner_of writer.new)) line.now) }
    ensures cut { OnErr result (CutsPainted (W.contents (inner_of writer.old)) (W.contents (inner_of writer.new)) line.now) }
{
    let end = end_of(line);
    writer.send(color)?;
    writer.send(&line[..end])?;
    writer.send(PLAIN)?;
    writer.send(&line[end..])
}

// Sends a line of a text up to its end, if it has a colour. Before it, sends the part of the text that is not sent yet. Answers how
// much of the text is sent.
fn send_line<W: Write>(
    writer: &mut Counted<W>,
    text: &[u8],
    sent: usize,
    begin: usize,
    end: usize,
) -> io::Result<usize>
    requires begins { sent ≤ begin }
    requires ends { begin ≤ end }
    requires within { end ≤ length text.now }
    ensures place { IfOk result (λ now. (sent ≤ now) × (now ≤ end)) }
    ensures sent { IfOk result (λ now. SendsPainted (W.contents (inner_of writer.old)) (W.contents (inner_of writer.new)) (take (now - sent) (drop sent text.now))) }
    ensures cut { OnErr result (CutsPainted (W.contents (inner_of writer.old)) (W.contents (inner_of writer.new)) (take (end - sent) (drop sent text.now))) }
{
    let line = &text[begin..end];
    let Some(color) = color_of(line) else {
        return Ok(sent);
    };
    writer.send(&text[sent..begin])?;
    send_colored(writer, color, line)?;
    Ok(end)
}

/// Sends a text with its verdicts in colours: a line that says yes is green, and one that says no is red. Without the escapes the
/// text is the same. It takes no memory, so an error is always the writer's.
pub fn send_painted<W: Write>(writer: &mut Counted<W>, text: &[u8]) -> io::Result<()>
    ensures sent { OnOk result (SendsPainted (W.contents (inner_of writer.old)) (W.contents (inner_of writer.new)) text.now) }
    ensures cut { OnErr result (CutsPainted (W.contents (inner_of writer.old)) (W.contents (inner_of writer.new)) text.now) }
{
    let mut sent = 0;
    let mut begin = 0;
    for at in 0..text.len() {
        if text[at] == b'\n' {
            sent = send_line(writer, text, sent, begin, at + 1)?;
            begin = at + 1;
        }
    }
    writer.send(&text[sent..])
}

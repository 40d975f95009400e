//! The report of a text that is not a history.
ghost use Rattle.std.specs.Prelude.{◌≡◌, IfOk};
ghost use Rattle.snap_report.specs.Lines.{line_text};
ghost use Rattle.snap_report.specs.Refusals.{refusal_line};

use crate::words::put_number;
use snap_text::TextFault;
use std::alloc::{AllocError, Global};

/// The report of a text that is not a history: one line, as `refused record 3: busy`, and a newline. The place counts records from
/// 1, the header among them. It is 0 for the text as a whole.
pub fn refusal_text(alloc: Global, place: u32, fault: TextFault) -> Result<Vec<u8>, AllocError>
    ensures { IfOk result (λ text. text.items ≡ line_text (refusal_line place fault)) }
{
    let mut out = Vec::new(alloc);
    put_number(&mut out, b"refused record ", u64::from(place))?;
    out.extend_from_slice(b": ")?;
    out.extend_from_slice(fault.word().as_bytes())?;
    out.extend_from_slice(b"\n")?;
    Ok(out)
}

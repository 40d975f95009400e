//! The header of the texts of a recording.
ghost use Rattle.std.specs.Prelude.{◌≡◌, ◌↔◌, [], IfOk, IsTrue, MatchOption};
ghost use Rattle.snap_format.specs.Rows.{rows_of};
ghost use Rattle.snap_follow.specs.inside.Headers.{BeginsWith, IsAgreed};

use snap_csv::{is_header_line, is_stamped_header_line};
use std::alloc::{AllocError, Global};

/// The header of the texts of a recording: without stamps, or with them.
#[derive(Clone, Copy)]
pub enum Form {
    Plain,
    Stamped,
}

/// The header that a line is, or another record; none if the line has no record.
pub(crate) fn header_of(alloc: Global, line: &[u8]) -> Result<Option<Option<Form>>, AllocError>
    ensures { IfOk result (λ found. MatchOption found (rows_of line.now ≡ []) (BeginsWith (rows_of line.now))) }
{
    let Some(is_plain) = is_header_line(alloc, line)? else {
        return Ok(None);
    };
    if is_plain {
        return Ok(Some(Some(Form::Plain)));
    }
    match is_stamped_header_line(alloc, line)? {
        Some(true) => Ok(Some(Some(Form::Stamped))),
        _ => Ok(Some(None)),
    }
}

/// Whether a text may have this header, after those before it.
pub(crate) fn agrees(before: Option<Form>, form: Form) -> bool
    ensures { IsTrue result ↔ IsAgreed before form }
{
    match (before, form) {
        (None, _) => true,
        (Some(Form::Plain), Form::Plain) => true,
        (Some(Form::Stamped), Form::Stamped) => true,
        _ => false,
    }
}

//! The kinds of fault of a call, in words.
use crate::marks::Mark;
use snap_conditions::Kind;
use std::alloc::AllocError;

/// Whether a call is one of the first fault of a kind.
pub(crate) fn has_kind(marks: &[Mark], number: u32, kind: Kind) -> bool {
    marks
        .iter()
        .any(|mark| mark.kind == kind && mark.call == number)
}

/// Adds the kinds whose first fault has a call, each after a text.
pub(crate) fn put_kinds(
    out: &mut Vec<u8>,
    marks: &[Mark],
    number: u32,
    before: &[u8],
) -> Result<(), AllocError> {
    for kind in &Kind::ALL {
        if has_kind(marks, number, *kind) {
            out.extend_from_slice(before)?;
            out.extend_from_slice(kind.word().as_bytes())?;
        }
    }
    Ok(())
}

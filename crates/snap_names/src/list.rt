//! The names in a list.
ghost use Rattle.std.specs.Prelude.{◌≡◌, ◌++◌, ◌∷◌, [], IfSome, OnOk};
ghost use Rattle.snap_names.specs.Lists.{AnswersList, CutsList, byte_lists};

use crate::fault::NamesFault;
use memchr::memchr;
use std::alloc::{AllocError, Global};
use std::io::{ErrorKind, Read};

/// The greatest number of bytes of a list.
pub const LIST_LIMIT: usize = 268_435_456;

/// Adds a copy of a name.
pub(crate) fn add_name(
    alloc: Global,
    names: &mut Vec<Vec<u8>>,
    name: &[u8],
) -> Result<(), AllocError>
    ensures { OnOk result (byte_lists names.new.items ≡ byte_lists names.old.items ++ name.now ∷ []) }
{
    let copy = Vec::from_slice(alloc, name)?;
    Ok(names.push(copy)?)
}

/// The names in a list, in their order. Each ends with the byte `end`, which the last may lack. The first empty name is refused.
pub fn names_in(alloc: Global, text: &[u8], end: u8) -> Result<Vec<Vec<u8>>, NamesFault>
    ensures { CutsList end text.now result }
{
    let mut names = Vec::new(alloc);
    let mut rest = text;
    while let Some(length) = memchr(end, rest) {
        if length == 0 {
            return Err(NamesFault::Empty(names.len() + 1));
        }
        add_name(alloc, &mut names, &rest[..length])?;
        rest = &rest[length + 1..];
    }
    if !rest.is_empty() {
        add_name(alloc, &mut names, rest)?;
    }
    Ok(names)
}

/// The names in the list that a reader has left, as `names_in` has them. A list of more than `LIST_LIMIT` bytes is refused.
pub fn read_names<R: Read + Drop>(
    alloc: Global,
    reader: R,
    end: u8,
) -> Result<Vec<Vec<u8>>, NamesFault>
    ensures { IfSome (R.remaining reader) (λ text. AnswersList end text result) }
{
    let mut text = Vec::new(alloc);
    if let Err(error) = reader.take(LIST_LIMIT as u64 + 1).read_to_end(&mut text) {
        return Err(match error.kind() {
            ErrorKind::OutOfMemory => NamesFault::Memory,
            _ => NamesFault::Unread,
        });
    }
    if text.len() > LIST_LIMIT {
        return Err(NamesFault::TooLong);
    }
    names_in(alloc, &text, end)
}

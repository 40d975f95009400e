//! The version of the library.
/// The version of the calls and of what they answer: it rises when either changes.
pub(crate) const VERSION: u32 = 1;

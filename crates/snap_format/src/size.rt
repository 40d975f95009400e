//! How long a text may be.
ghost use Rattle.std.specs.Prelude.{◌≡◌, ◌≤◌};
ghost use Rattle.snap_format.specs.Texts.{bytes_cap, bytes_within};

use snap_core::Limit;

/// The number of bytes that a text may have for each event of the limit.
const BYTES_EACH: usize = 1024;

/// The greatest number of bytes of a text, 1,024 for each event of the limit.
pub fn bytes_within(limit: Limit) -> usize
    ensures bytes { result ≡ bytes_within limit }
    ensures most { result ≤ bytes_cap }
{
    limit.events() * BYTES_EACH
}

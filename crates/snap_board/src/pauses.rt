//! Where the calls of a board pause.
ghost use Rattle.std.specs.Prelude.{◌<◌};

// A number times this has upper bits without the patterns of the number.
const SCATTER: u64 = 0x9E37_79B9_7F4A_7C15;

/// One of `places` places, from 0 on, drawn by a seed and a tick. The same seed and tick draw the same place. The ticks of a desk's
/// calls have patterns, which their places don't have. Two seeds draw the same place no more often than chance does.
pub fn drawn_place(seed: u32, tick: u64, places: u64) -> u64
    requires { 0 < places }
    ensures { result < places }
{
    let sown = tick ^ u64::from(seed).wrapping_mul(SCATTER);
    let once = sown.wrapping_mul(SCATTER);
    let twice = (once ^ (once >> 32)).wrapping_mul(SCATTER);
    (twice >> 32) % places
}

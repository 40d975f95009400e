//! How many workers judge a text, and in how many pieces.
ghost use Rattle.std.specs.Prelude.{◌≡◌, ◌<◌, ◌≤◌, false, true};

use snap_threads::Cutting;

/// What the program chooses as `alone_below`. Threads take longer to start than they save for a text of fewer bytes.
pub const SHARED_FROM: usize = 196_608;

/// The pieces of a text that several workers share, if their number is left to the program. Views that disagree may all be in one
/// of a few pieces, and then one worker would do all the work.
pub const SHARED_PIECES: u32 = 256;

/// The cutting for a text of this many bytes. A text of fewer bytes than `alone_below` has one piece for one worker. Any other text
/// has the workers that were asked for. It has the pieces that were asked for, unless `finer` is set. Then it has `SHARED_PIECES`
/// pieces if several workers share it, and one piece if there is one worker.
pub fn cutting_for(bytes: usize, alone_below: usize, finer: bool, asked: Cutting) -> Cutting
    ensures short { bytes < alone_below → (result.workers ≡ 1) × (result.pieces ≡ 1) }
    ensures workers { alone_below ≤ bytes → result.workers ≡ asked.workers }
    ensures pieces { alone_below ≤ bytes → finer ≡ false → result.pieces ≡ asked.pieces }
    ensures shared { alone_below ≤ bytes → finer ≡ true → 1 < asked.workers → result.pieces ≡ SHARED_PIECES }
    ensures alone { alone_below ≤ bytes → finer ≡ true → asked.workers ≡ 1 → result.pieces ≡ 1 }
    ensures plain { alone_below ≡ 0 → finer ≡ false → result ≡ asked }
{
    let workers = asked.workers();
    let (pieces, workers) = if bytes < alone_below || finer && workers == 1 {
        (1, 1)
    } else if finer {
        (SHARED_PIECES, workers)
    } else {
        return asked;
    };
    Cutting::new(pieces, workers).unwrap_or(asked)
}

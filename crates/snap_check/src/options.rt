//! The options of a check.
ghost use Rattle.std.specs.Prelude.{◌≡◌, false};
ghost use Rattle.snap_core.specs.UsualLimits.{usual_limit};

use snap_core::Limit;
use snap_threads::Cutting;

/// What a check is asked for besides the report of a history.
#[derive(Clone, Copy)]
pub struct CheckOptions {
    /// Whether only the lines of the verdicts of a history's report are written.
    pub quiet: bool,
    /// The least number of completed views of a history.
    pub views: u32,
    /// The limit of a history's events, and with it that of the bytes of its text.
    pub limit: Limit,
    /// One worker judges a text of fewer bytes in one piece, whatever the cutting is. 0 leaves each text its cutting.
    pub alone_below: usize,
    /// Whether a text that workers share has `SHARED_PIECES` pieces, and not those of the cutting.
    pub finer: bool,
}

/// How a text is checked: by a cutting, with a gate, and with options.
#[derive(Drop)]
pub struct Checking<'g, G> {
    pub cutting: Cutting,
    pub gate: &'g G,
    pub options: CheckOptions,
}

impl CheckOptions {
    /// The options that ask for nothing. A check then writes the whole report, of a history with any number of views, within the
    /// usual limit, by its own cutting.
    pub fn plain() -> CheckOptions
        ensures quiet { result.quiet ≡ false }
        ensures views { result.views ≡ 0 }
        ensures limit { result.limit ≡ usual_limit }
        ensures alone_below { result.alone_below ≡ 0 }
        ensures pieces { result.finer ≡ false }
    {
        CheckOptions {
            quiet: false,
            views: 0,
            limit: Limit::usual(),
            alone_below: 0,
            finer: false,
        }
    }
}

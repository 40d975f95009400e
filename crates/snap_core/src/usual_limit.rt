//! The limit of a history if none is chosen, and the greatest one.
ghost use Rattle.std.specs.Prelude.{◌≡◌};
ghost use Rattle.snap_core.specs.UsualLimits.{greatest_limit, usual_limit};

use crate::history::EVENT_CAP;
use crate::limit::{EVENT_LIMIT, Limit};
use crate::writers::Writers;

impl Limit {
    /// The limit if none is chosen: `EVENT_LIMIT` events, and one writer of each component.
    pub fn usual() -> Limit
        ensures { result ≡ usual_limit }
    {
        Limit {
            events: EVENT_LIMIT as u32,
            writers: Writers::One,
        }
    }

    /// The greatest limit: `EVENT_CAP` events, and one writer of each component.
    pub fn greatest() -> Limit
        ensures { result ≡ greatest_limit }
    {
        Limit {
            events: EVENT_CAP as u32,
            writers: Writers::One,
        }
    }
}

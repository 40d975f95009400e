//! The number of ticks that a desk may draw.
ghost use Rattle.std.specs.Prelude.{◌≡◌, IsSome, IfSome, ◌↔◌};
ghost use Rattle.snap_account.specs.Limits.{IsTickLimit, tick_limit};

/// How many ticks a desk may draw if no limit is chosen.
pub const TICK_LIMIT: u32 = 1_048_576;

/// The greatest limit that may be chosen.
pub const TICK_CAP: u32 = 16 * TICK_LIMIT;

/// A limit of the ticks that a desk may draw, 1 to `TICK_CAP`.
#[derive(Clone, Copy, PartialEq, Eq, Debug)]
pub struct TickLimit {
    ticks: u32,
    ghost fits: { IsTickLimit ticks },
}

impl TickLimit {
    /// The limit of `ticks` ticks, or `None` if that is not 1 to `TICK_CAP`.
    pub fn new(ticks: u32) -> Option<TickLimit>
        ensures limit { IfSome result (λ limit. limit.ticks ≡ ticks) }
        ensures given { IsSome result ↔ IsTickLimit ticks }
    {
        if !(1..=TICK_CAP).contains(&ticks) {
            return None;
        }
        Some(TickLimit { ticks })
    }

    /// The limit if none is chosen, `TICK_LIMIT`.
    pub fn usual() -> TickLimit
        ensures { result.ticks ≡ tick_limit }
    {
        TickLimit { ticks: TICK_LIMIT }
    }

    /// How many ticks a desk may draw, 1 to `TICK_CAP`.
    pub fn ticks(self) -> u32
        ensures ticks { result ≡ self.ticks }
        ensures fits { IsTickLimit result }
    {
        self.ticks
    }
}

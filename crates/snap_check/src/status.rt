//! How a run ends.
ghost use Rattle.std.specs.Prelude.{◌≡◌};
ghost use Rattle.snap_report.specs.Reports.{has_no_fault, has_no_local_fault};
ghost use Rattle.snap_check.specs.Statuses.{code_of, status_of};

use snap_conditions::{Tally, is_atomic, is_regular};

/// How a finished run ended.
#[derive(Clone, Copy, Debug, PartialEq, Eq)]
pub enum Status {
    /// The history is atomic.
    Atomic,
    /// It is regular, and not atomic.
    Regular,
    /// It is not regular.
    Irregular,
    /// The text is not a history.
    Refused,
    /// A history was recorded, and not judged.
    Recorded,
}

impl Status {
    /// The exit status of the program, 0 to 3.
    pub fn code(self) -> u8
        ensures { result ≡ code_of self }
    {
        match self {
            Status::Atomic | Status::Recorded => 0,
            Status::Regular => 1,
            Status::Irregular => 2,
            Status::Refused => 3,
        }
    }
}

/// The status of a history, by the tally of all its completed views.
pub(crate) fn status_by(tally: &Tally) -> Status
    ensures { result ≡ status_of (has_no_local_fault tally.now) (has_no_fault tally.now) }
{
    if is_atomic(tally) {
        Status::Atomic
    } else if is_regular(tally) {
        Status::Regular
    } else {
        Status::Irregular
    }
}

//! The faults of each kind, as they are reported: by call numbers.
ghost use Rattle.std.specs.Prelude.{◌≡◌};
ghost use Rattle.snap_conditions.specs.Kinds.{kind_word};

use snap_core::Entry;

/// A kind of fault.
#[derive(Clone, Copy, PartialEq, Eq, Debug)]
pub enum Kind {
    Integrity,
    Proximity,
    Read,
    Write,
}

impl Kind {
    /// All kinds, in the order of a report.
    pub const ALL: [Kind; 4] = [Kind::Integrity, Kind::Proximity, Kind::Read, Kind::Write];

    /// Its word, by which reports and all other answers name it.
    pub fn word(self) -> &'static str
        ensures { result.now ≡ kind_word self }
    {
        match self {
            Kind::Integrity => "integrity",
            Kind::Proximity => "proximity",
            Kind::Read => "read",
            Kind::Write => "write",
        }
    }
}

/// A view lists a component, and no update of that component has the number and the value that it shows.
#[derive(Clone, Copy, PartialEq, Eq, Debug)]
pub struct IntegrityFault {
    /// The call number of the view, from 0.
    pub view: u32,
    /// The entry as the view shows it.
    pub entry: Entry,
}

/// Whether a view shows something too old or too early.
#[derive(Clone, Copy, PartialEq, Eq, Debug)]
pub enum Side {
    /// The update after the one that is shown ended before the view began.
    Old,
    /// The update that is shown began after the view ended.
    Early,
}

/// A view shows an update that is too old for its place, or one that is not there yet.
#[derive(Clone, Copy, PartialEq, Eq, Debug)]
pub struct ProximityFault {
    /// The call number of the view, from 0.
    pub view: u32,
    pub component: u8,
    /// The number that the view shows of the component, 0 if it shows none.
    pub number: u32,
    pub side: Side,
}

/// A view shows more of a component than another view that it precedes, or that shows more of another component.
#[derive(Clone, Copy, PartialEq, Eq, Debug)]
pub struct ReadFault {
    /// The call number of the view, from 0.
    pub view: u32,
    /// The call number of the other view, from 0.
    pub other: u32,
    /// The least component of which the view shows more than the other.
    pub component: u8,
}

/// A view shows an update, but not another update that precedes it.
#[derive(Clone, Copy, PartialEq, Eq, Debug)]
pub struct WriteFault {
    /// The call number of the view, from 0.
    pub view: u32,
    pub missed_component: u8,
    /// The number after the one that the view shows of that component.
    pub missed_number: u32,
    pub shown_component: u8,
    /// The number that the view shows of that component.
    pub shown_number: u32,
}

/// A fault of some kind.
#[derive(Clone, Copy)]
pub enum Fault {
    Integrity(IntegrityFault),
    Proximity(ProximityFault),
    Read(ReadFault),
    Write(WriteFault),
}

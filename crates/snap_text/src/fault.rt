//! The faults of a text, and the word of each.
ghost use Rattle.std.specs.Prelude.{◌≡◌};
ghost use Rattle.snap_text.specs.Words.{word_of};

/// What is wrong with a text, in the order in which a record without a stamp is tested.
#[derive(Clone, Copy, Debug, PartialEq, Eq)]
pub enum TextFault {
    /// The first record is missing or is not the header.
    Header,
    /// A later record does not have four fields, or five if records have stamps.
    Fields,
    /// The history is full.
    TooMany,
    /// The first field is not `begin` or `end`.
    BadEvent,
    /// The second field is not a process.
    BadProcess,
    /// The third field is not `update` or `view`.
    BadOp,
    /// The fourth field does not fit the others.
    BadData,
    /// A begin of a process with an open call.
    Busy,
    /// An end of a process without an open call.
    Idle,
    /// An end of the other kind than the open call.
    OtherOp,
    /// An update of a component that another process writes.
    Writer,
    /// An update whose number is not the next of its component.
    Number,
    /// The end of an update before that of a lower number of its component, where a component has many writers.
    Order,
    /// The text has too many bytes.
    TooLong,
    /// The stamp is not a number below 2^64. It is tested before `BadEvent`.
    BadAt,
    /// An earlier record has the same stamp. It is tested after `BadData`.
    Repeated,
}

impl TextFault {
    /// The word for the fault in a refusal line.
    pub fn word(self) -> &'static str
        ensures { result.now ≡ word_of self }
    {
        match self {
            TextFault::Header => "header",
            TextFault::Fields => "fields",
            TextFault::TooMany => "toomany",
            TextFault::BadEvent => "event",
            TextFault::BadProcess => "process",
            TextFault::BadOp => "op",
            TextFault::BadData => "data",
            TextFault::Busy => "busy",
            TextFault::Idle => "idle",
            TextFault::OtherOp => "otherop",
            TextFault::Writer => "writer",
            TextFault::Number => "number",
            TextFault::Order => "order",
            TextFault::TooLong => "toolong",
            TextFault::BadAt => "at",
            TextFault::Repeated => "repeated",
        }
    }
}

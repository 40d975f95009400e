//! Why a board was not opened, and why a call has no record.
/// Why a board was not opened, in the order in which the reasons are tested.
#[derive(Clone, Copy, PartialEq, Eq, Debug)]
pub enum OpenRefusal {
    /// The number of desks is not 1 to `DESK_LIMIT`.
    Desks,
    /// Memory ran out.
    Memory,
}

/// Why a store was refused.
#[derive(Clone, Copy, PartialEq, Eq, Debug)]
pub enum StoreRefusal {
    /// The desk has drawn so many ticks that the call could exceed its limit.
    Spent,
}

/// Why a collect was refused, in the order in which the reasons are tested.
#[derive(Clone, Copy, PartialEq, Eq, Debug)]
pub enum CollectRefusal {
    /// The desk has drawn so many ticks that the call could exceed its limit.
    Spent,
    /// Memory ran out.
    Memory,
}

/// Why a scan has no record, in the order in which the reasons are tested.
#[derive(Clone, Copy, PartialEq, Eq, Debug)]
pub enum ScanRefusal {
    /// The desk has drawn so many ticks that the call could exceed its limit.
    Spent,
    /// Memory ran out.
    Memory,
    /// No two collects in a row were equal within the tries.
    Interfered,
}

//! What a running program keeps of a desk.
/// What the running program keeps of a desk.
#[derive(Clone, Copy)]
pub(crate) struct DeskState {
    /// The number of ticks that it drew.
    pub ticks: u32,
    /// The number of its stores, which is the number of its last store.
    pub stores: u32,
    /// The value of the last store, or 0 if there is none.
    pub value: u32,
}

//! Who checks several texts, and which.

use snap_threads::Cutting;

/// The workers of a check: the runtime of their threads, and the cutting that says how many there are.
#[derive(Drop)]
pub struct Crew<'r, Rt> {
    pub rt: &'r Rt,
    pub cutting: Cutting,
}

/// Texts by their names, and who opens them.
#[derive(Drop)]
pub struct Files<'n, O> {
    pub opener: &'n O,
    pub names: &'n [Vec<u8>],
}

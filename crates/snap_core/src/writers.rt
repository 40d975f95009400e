//! How many processes may write a component.
/// How many processes may write a component.
#[derive(Clone, Copy, PartialEq, Eq, Debug)]
pub enum Writers {
    /// One process, so that its updates follow one another.
    One,
    /// Each process. Updates of a component may overlap, and they end in the order of their numbers.
    Many,
}

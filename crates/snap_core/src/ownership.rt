//! How many writers a component of a history has at most, as its type says it.
ghost use Rattle.snap_core.specs.declared.writers.Writers.{Writers};
ghost use Rattle.snap_core.specs.declared.writers.Writers.TheVariants.{One, Many};

/// How many processes write a component of a board, at most.
pub trait Ownership {
    ghost writers: { Writers };
}

/// A board on which each component has one writer.
pub struct OneWriter;

/// A board on which each process may write each component, if the limit of a history says so.
pub struct AnyWriters;

impl Ownership for OneWriter {
    ghost writers = { One };
}

impl Ownership for AnyWriters {
    ghost writers = { Many };
}

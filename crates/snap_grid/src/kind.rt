//! Rows of a block that each represent all equal ones.
ghost use Rattle.std.specs.Prelude.{◌<◌};

// A row of a block, counted from its first, and the number of rows of the block with the same numbers, this row included.
#[derive(Clone, Copy)]
pub(crate) struct Kind {
    pub(crate) row: u16,
    pub(crate) times: u16,
    ghost some: { 0 < times },
}

use super::cell::Cell;
use super::cells::Base;

/// Which arena a run is part of: where its allocation begins, and how many cells it has. It owns none of the cells.
///
/// Contracts compare two of them, and no code does: pointers into two allocations can't be compared when it runs.
#[derive(Clone, Copy)]
pub struct Arena {
    pub(crate) base: Base<Cell>,
    /// The number of its cells.
    pub cells: u32,
}

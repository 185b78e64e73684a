use std::alloc::AllocError;
use thiserror::Error;

/// Why a run wasn't planned.
#[derive(Clone, Copy, Debug, PartialEq, Eq, Error)]
pub enum AddFault {
    /// Its lease has so many cells, more than the arena.
    #[error("the run needs {needs} cells")]
    Larger { needs: u64 },
    /// Memory ran out.
    #[error("out of memory")]
    Memory,
}

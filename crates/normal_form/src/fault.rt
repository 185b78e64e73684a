use camelot_values::Word;
use thiserror::Error;

/// Why a program has no normal form within the limits of code: its first function that is too large.
#[derive(Debug, Drop, Error)]
pub enum NormalFault {
    /// A function needs `have` locals besides its parameters, which is more than 240.
    #[error("too-many-locals {name} have {have}")]
    TooManyLocals { name: Word, have: u64 },
    /// A function needs `have` blocks, which is more than 256, and no more than 240 further locals.
    #[error("too-many-blocks {name} have {have}")]
    TooManyBlocks { name: Word, have: u64 },
}

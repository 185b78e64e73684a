use thiserror::Error;

/// Why bytes are no code.
#[derive(Clone, Copy, Debug, PartialEq, Eq, Error)]
pub enum DecodeFault {
    /// The bytes begin the spelling of some code that goes on.
    #[error("code short")]
    Short,
    /// The bytes are neither the spelling of a code nor the beginning of one. The longest part from the left that
    /// begins one has `at` bytes, so that the byte with this number, counted from 0, is the first bad one.
    #[error("code bad at {at}")]
    Bad { at: u64 },
}

use thiserror::Error;

/// Why a text has no tokens. `at` is the place of the fault, in bytes from 0.
#[derive(Clone, Copy, Debug, PartialEq, Eq, Error)]
pub enum ScanFault {
    /// No token begins at this byte, and it is neither white space nor the start of a comment.
    #[error("bad-character at {at}")]
    BadCharacter { at: u64 },
    /// The comment that begins here, outside any other, isn't closed.
    #[error("open-comment at {at}")]
    OpenComment { at: u64 },
    /// The number that begins here is above 2147483648.
    #[error("long-number at {at}")]
    LongNumber { at: u64 },
    /// The name or type variable that begins here has more than 64 bytes, its quote not counted.
    #[error("long-name at {at}")]
    LongName { at: u64 },
}

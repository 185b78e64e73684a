use camelot_values::Word;
use thiserror::Error;

/// Why a typed program breaks the rule of use: its first place in text order that does. Lines are counted from 1.
#[derive(Debug, Drop, Error)]
pub enum UseFault {
    /// A use of a variable of a heap kind that is used before on some path up to it, or a reading of it behind a use. A
    /// call reads behind all of its arguments.
    #[error("twice {name} line {line}")]
    Twice { name: Word, line: u64 },
    /// An arm of a boxed constructor without `@`, by the constructor's name, where the scrutinee isn't a variable that is
    /// lent.
    #[error("read-match {name} line {line}")]
    ReadMatch { name: Word, line: u64 },
    /// A variable that is lent stands where it would be taken, or a match on it has an `@`.
    #[error("lent {name} line {line}")]
    Lent { name: Word, line: u64 },
    /// A function, by its name, has a parameter that is lent and a result of a heap kind.
    #[error("read-result {name} line {line}")]
    ReadResult { name: Word, line: u64 },
}

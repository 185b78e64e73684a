use camelot_values::Word;
use thiserror::Error;

/// Why a program has no types: the first step of the walk through its text that fails. Lines are counted from 1.
#[derive(Debug, Drop, Error)]
pub enum TypeFault {
    /// A variable, a function or a constructor that isn't there.
    #[error("unknown-name {name} line {line}")]
    UnknownName {
        name: Word,
        line: u64,
    },
    /// A type that isn't declared.
    #[error("unknown-type {name} line {line}")]
    UnknownType {
        name: Word,
        line: u64,
    },
    /// A name that stood before: of a type, a constructor, a function, a parameter of one function, or in one arm.
    #[error("duplicate {name} line {line}")]
    Duplicate {
        name: Word,
        line: u64,
    },
    /// A wrong number of arguments or fields: what is there, and what is needed.
    #[error("arity {name} have {have} need {need} line {line}")]
    Arity {
        name: Word,
        have: u64,
        need: u64,
        line: u64,
    },
    /// Two types that have to be the same and differ. Of two branches or arms the first one's is `left`; elsewhere
    /// `left` is the type of what stands there, and `right` the one that is needed.
    #[error("clash {left} {right} line {line}")]
    Clash {
        left: Word,
        right: Word,
        line: u64,
    },
    /// A constructor that no arm of a match has.
    #[error("missing-arm {con} line {line}")]
    MissingArm {
        con: Word,
        line: u64,
    },
    /// A constructor that an earlier arm of the match has.
    #[error("repeated-arm {con} line {line}")]
    RepeatedArm {
        con: Word,
        line: u64,
    },
    /// A constructor of more than 4 fields.
    #[error("too-many-fields {con} have {have} line {line}")]
    TooManyFields {
        con: Word,
        have: u64,
        line: u64,
    },
    /// An `@` on an inline constructor, which has no cell.
    #[error("place-on-inline {con} line {line}")]
    PlaceOnInline {
        con: Word,
        line: u64,
    },
    /// More than 64 types, 64 constructors of one type, 64 functions or 16 parameters: `what` is `types`,
    /// `constructors`, `functions` or `parameters`, and the line is that of the first above the limit.
    #[error("too-many {what} have {have} line {line}")]
    TooMany {
        what: Word,
        have: u64,
        line: u64,
    },
}

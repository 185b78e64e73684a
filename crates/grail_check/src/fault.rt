ghost use Rattle.std.specs.Prelude.{◌≡◌};
ghost use Rattle.grail_check.specs.declared.fault.Stop.TheVariants.{Fault, Memory};

use std::alloc::{AllocError, AllocFailed};
use thiserror::Error;

/// What is wrong at a place of code.
#[derive(Clone, Copy, Debug, PartialEq, Eq, Error)]
pub enum CodeKind {
    /// A local, constructor, function, block or type that isn't there is named.
    #[error("nosuchentry")]
    NoSuchEntry,
    /// A jump leads to its own block or an earlier one.
    #[error("backward")]
    Backward,
    /// A local is used or looked at that isn't bound there.
    #[error("unbound")]
    Unbound,
    /// A local that the function owns is used or looked at, and was used since it was bound.
    #[error("spent")]
    Spent,
    /// A local is of another kind than is needed, as that of a case which is of no data type.
    #[error("kind")]
    Kind,
    /// The number of arguments, arms or fields is wrong.
    #[error("arms")]
    Arms,
    /// A constructor is built or matched inline that isn't inline, or the other way round.
    #[error("place")]
    Place,
    /// The parameters of a block don't ascend, or aren't the function's in its first block; or an arm binds a local
    /// twice.
    #[error("header")]
    Header,
    /// A type, constructor or function has the name of an earlier one.
    #[error("name")]
    Name,
    /// What is lent is taken, bound or given back, or an arm looks at a cell that isn't lent. In a function's header:
    /// it has a lent parameter and a result of a heap kind, or a looked-at field is a parameter without the mark.
    #[error("lent")]
    Lent,
}

/// The first check of code that fails, with its place. Functions and blocks are counted from 0; place 0 is a header,
/// place `i` the `i`-th let of the block, counted from 1, and the place after the last let the block's end. A fault of
/// the types has the number of functions as `func`, and block and place 0.
#[derive(Clone, Copy, Debug, PartialEq, Eq, Error)]
#[error("{kind} function {func} block {block} place {place}")]
pub struct CodeFault {
    pub func: u32,
    pub block: u32,
    pub place: u32,
    pub kind: CodeKind,
}

/// Why a check stops.
#[derive(Clone, Copy, Debug)]
pub(crate) enum Stop<F> {
    /// The code isn't well formed.
    Fault(F),
    /// Memory ran out.
    Memory,
}

impl From<CodeFault> for Stop<CodeFault> {
    ghost from_gives = { λ fault stop. stop ≡ Fault fault };

    fn from(fault: CodeFault) -> Stop<CodeFault> {
        Stop::Fault(fault)
    }
}

impl From<CodeKind> for Stop<CodeKind> {
    ghost from_gives = { λ kind stop. stop ≡ Fault kind };

    fn from(kind: CodeKind) -> Stop<CodeKind> {
        Stop::Fault(kind)
    }
}

impl<F> From<AllocError> for Stop<F> {
    ghost from_gives = { λ _ stop. stop ≡ Memory };

    fn from(_error: AllocError) -> Stop<F> {
        Stop::Memory
    }
}

impl<F, T: Drop> From<AllocFailed<T>> for Stop<F> {
    ghost from_gives = { λ _ stop. stop ≡ Memory };

    fn from(_failed: AllocFailed<T>) -> Stop<F> {
        Stop::Memory
    }
}

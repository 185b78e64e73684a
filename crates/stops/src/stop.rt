ghost use Rattle.std.specs.Prelude.{◌≡◌};
ghost use Rattle.stops.specs.declared.stop.Stop.TheVariants.{Memory};

use std::alloc::{AllocError, AllocFailed};
use std::fmt::{Debug, Display};
use thiserror::Error;

/// Why a call stops without an answer. Want of memory is no fault of an input, so it stands beside the fault.
#[derive(Clone, Copy, Debug, PartialEq, Eq, Error)]
pub enum Stop<F: Debug + Display> {
    /// What is wrong with the input.
    #[error("{0}")]
    Fault(F),
    /// Memory ran out.
    #[error("out of memory")]
    Memory,
}

impl<F: Debug + Display> From<AllocError> for Stop<F> {
    ghost from_gives = { λ _ stop. stop ≡ Memory };

    fn from(_error: AllocError) -> Stop<F> {
        Stop::Memory
    }
}

impl<F: Debug + Display, T: Drop> From<AllocFailed<T>> for Stop<F> {
    ghost from_gives = { λ _ stop. stop ≡ Memory };

    fn from(_failed: AllocFailed<T>) -> Stop<F> {
        Stop::Memory
    }
}

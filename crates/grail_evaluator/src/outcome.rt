ghost use Rattle.std.specs.Prelude.{◌≡◌, ◌<◌, ◌≤◌, ◌^◌, MatchOption};
ghost use Rattle.grail_evaluator.specs.Outcomes.{Tells};
ghost use Rattle.grail_evaluator.specs.Ends.{reached_of};
ghost use Rattle.grail_evaluator.specs.declared.outcome.RunError.TheVariants.{Memory};

use super::counts::Counts;
use super::tree::Tree;
use std::alloc::{AllocError, AllocFailed};
use thiserror::Error;

/// What a run comes to.
#[derive(Debug, PartialEq, Drop)]
pub enum Outcome {
    /// A value; how many functions were entered; the peak of cells taken from the free list; and how far the net number
    /// of cells ends below the peak.
    Done {
        value: Tree,
        calls: u64,
        peak: u64,
        low: u64,
    },
    /// A call found no fuel left.
    Fuel {
        calls: u64,
        peak: u64,
    },
    /// A call found as many calls waiting as may wait.
    Deep {
        peak: u64,
    },
    /// An operator divided by 0.
    Trap {
        peak: u64,
    },
    /// The code has no meaning on these arguments.
    Stuck,
}

/// Why a run has no outcome.
#[derive(Clone, Copy, Debug, PartialEq, Eq, Error)]
pub enum RunError {
    /// The outcome has a count of cells that needs more than 64 bits.
    #[error("a count is too large")]
    Large,
    /// There was no memory.
    #[error("out of memory")]
    Memory,
}

impl From<AllocError> for RunError {
    ghost from_gives = { λ _ e. e ≡ Memory };

    fn from(_error: AllocError) -> RunError {
        RunError::Memory
    }
}

impl<T: Drop> From<AllocFailed<T>> for RunError {
    ghost from_gives = { λ _ e. e ≡ Memory };

    fn from(_error: AllocFailed<T>) -> RunError {
        RunError::Memory
    }
}

/// What a part of a run came to, with all that was used until then.
#[derive(Drop)]
pub(crate) enum Reached {
    /// A value.
    Done { value: Tree, counts: Counts },
    /// A call found no fuel left.
    Fuel(Counts),
    /// A call found as many calls waiting as may wait.
    Deep(Counts),
    /// An operator divided by 0.
    Trap(Counts),
    /// The code has no meaning here.
    Stuck,
}

// The count in 64 bits, where it fits.
fn word(count: u128) -> Option<u64>
    ensures { MatchOption result (2 ^ 64 ≤ count) (λ word. word ≡ count) }
{
    if count <= 18446744073709551615 {
        Some(count as u64)
    } else {
        None
    }
}

/// The outcome of a whole run.
pub(crate) fn told(reached: Reached) -> Result<Outcome, RunError>
    ensures { Tells result (reached_of reached) }
{
    match reached {
        Reached::Done { value, counts } => {
            let Some(peak) = word(counts.peak) else {
                return Err(RunError::Large);
            };
            let Some(low) = word(counts.low) else {
                return Err(RunError::Large);
            };
            Ok(Outcome::Done {
                value,
                calls: counts.calls,
                peak,
                low,
            })
        }
        Reached::Fuel(counts) => match word(counts.peak) {
            Some(peak) => Ok(Outcome::Fuel {
                calls: counts.calls,
                peak,
            }),
            None => Err(RunError::Large),
        },
        Reached::Deep(counts) => match word(counts.peak) {
            Some(peak) => Ok(Outcome::Deep { peak }),
            None => Err(RunError::Large),
        },
        Reached::Trap(counts) => match word(counts.peak) {
            Some(peak) => Ok(Outcome::Trap { peak }),
            None => Err(RunError::Large),
        },
        Reached::Stuck => Ok(Outcome::Stuck),
    }
}

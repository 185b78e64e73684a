//! What is kept of how a run ended.
ghost use Rattle.std.specs.Prelude.{◌≡◌, Bool, true, Some, MatchOption};
ghost use Rattle.camelot_values.specs.Outcome.{Outcome, Stuck};
ghost use Rattle.camelot_values.specs.Value.{Value};
ghost use Rattle.cell_machine.specs.Endings.{EndsWith, halt_of};
ghost use Rattle.cell_machine.specs.EndingLaws.{EndsWith-prop};
ghost use Rattle.job_workers.specs.KeptLaws.{ends_never_stuck};

use camelot_values::Flat;
use cell_machine::{Ending, Halt};
use std::alloc::Global;

/// What is kept of how a run ended: the whole ending, or less of it.
pub trait Kept: Drop {
    // of a run that comes to this, this may be kept
    ghost keeps: { Outcome Value → Self → Type 0 };

    // which has at most one proof
    ghost keeps_prop: { (o : Outcome Value) (kept : Self) → IsProp (keeps o kept) };

    // nothing is kept of a run that is stuck
    ghost never_stuck: { (kept : Self) → keeps Stuck kept → ⊥ };

    // whether the value of a run is asked for
    ghost asks: { Bool };

    /// Whether the value of a run is asked for. Where it isn't, none is put together.
    fn asks_value() -> bool
        ensures { result ≡ asks };

    /// What is kept of this ending. A copy may take memory; where there is none, what is kept stays where it is.
    fn keep(alloc: Global, ending: Ending) -> Self
        // Of whatever run this is the ending, what comes back may be kept.
        ensures { (o : Outcome Value) → EndsWith o ending → keeps o result };

    /// What is kept of a run that ended so, whose value wasn't read.
    fn keep_halt(halt: Halt) -> Option<Self>
        // None comes only where the value is asked for. Of whatever run that ends so, what comes back may be kept.
        ensures { MatchOption result (asks ≡ true) (λ kept. (o : Outcome Value) → halt_of o ≡ Some halt → keeps o kept) };
}

// The same value, in just the memory that it needs; in the memory that it has where there is no more.
fn compact_value(alloc: Global, value: Flat) -> Flat
    ensures { result ≡ value }
{
    match value.copy(alloc) {
        Ok(copy) => copy,
        Err(_) => value,
    }
}

/// The whole ending is kept, its value in just the memory that it needs: a run has room for the largest value that its
/// cells may hold.
impl Kept for Ending {
    ghost keeps = { EndsWith };

    ghost keeps_prop = { EndsWith-prop };

    ghost never_stuck = { ends_never_stuck };

    ghost asks = { true };

    fn asks_value() -> bool {
        true
    }

    fn keep(alloc: Global, ending: Ending) -> Ending {
        match ending {
            Ending::Done { value, calls, peak } => Ending::Done {
                value: compact_value(alloc, value),
                calls,
                peak,
            },
            stopped => stopped,
        }
    }

    fn keep_halt(halt: Halt) -> Option<Ending> {
        let _ = halt;
        None
    }
}

use cell_machine::{Ending, Halt};
use job_workers::Kept;
use run_reports::HasHalt;
use std::alloc::Global;

/// What is kept of an ending for a summary: how the run ended, and no value.
#[derive(Drop)]
pub struct Tallied {
    /// How the run ended.
    pub halt: Halt,
}

impl HasHalt for Tallied {
    ghost halt = { λ kept. kept.halt };

    fn halt(&self) -> Halt {
        self.halt
    }
}

/// No value is asked for.
impl Kept for Tallied {
    ghost use Rattle.std.specs.Prelude.{false};
    ghost use Rattle.script_service.specs.Counting.{Counts};
    ghost use Rattle.script_service.specs.CountingLaws.{Counts-prop, stuck_counts};

    ghost keeps = { Counts };

    ghost keeps_prop = { Counts-prop };

    ghost never_stuck = { stuck_counts };

    ghost asks = { false };

    fn asks_value() -> bool {
        false
    }

    #[tactic(auto, using(crate::specs::CountingLaws::run_counted))]
    fn keep(alloc: Global, ending: Ending) -> Tallied {
        let _ = alloc;
        Tallied {
            halt: ending.halt(),
        }
    }

    fn keep_halt(halt: Halt) -> Option<Tallied> {
        Some(Tallied { halt })
    }
}

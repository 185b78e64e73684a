use cell_machine::{Ending, Halt};

/// What tells how a run ended, with its value or without.
pub trait HasHalt {
    ghost use Rattle.std.specs.Prelude.{◌≡◌};
    ghost use Rattle.cell_machine.specs.declared.machine.Halt.{Halt};

    // how the run ended
    ghost halt: { Self → Halt };

    /// How the run ended.
    fn halt(&self) -> Halt
        ensures { result ≡ halt self.now };
}

impl HasHalt for Ending {
    ghost use Rattle.run_reports.specs.Told.{halt_with};

    ghost halt = { halt_with };

    fn halt(&self) -> Halt {
        match self {
            Ending::Done { calls, peak, .. } => Halt::Done {
                calls: *calls,
                peak: *peak,
            },
            Ending::Fuel { peak } => Halt::Fuel { peak: *peak },
            Ending::Deep { peak } => Halt::Deep { peak: *peak },
            Ending::Trap { peak } => Halt::Trap { peak: *peak },
        }
    }
}

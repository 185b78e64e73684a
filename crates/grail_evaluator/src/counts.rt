ghost use Rattle.std.specs.Prelude.{◌≡◌, ◌+◌, ◌-◌, ◌<◌, ◌≤◌};
ghost use Rattle.grail_evaluator.specs.Ends.{most_cells};

/// What a run used so far: how many functions it entered, the peak of cells taken from the free list, and how far the
/// net number of cells is below the peak.
#[derive(Clone, Copy)]
pub(crate) struct Counts {
    pub(crate) calls: u64,
    pub(crate) peak: u128,
    pub(crate) low: u128,
}

impl Counts {
    /// Nothing.
    pub(crate) fn none() -> Counts
        ensures { result ≡ record { calls = 0; peak = 0; low = 0 } }
    {
        Counts {
            calls: 0,
            peak: 0,
            low: 0,
        }
    }

    /// One function more is entered, for which there is fuel.
    pub(crate) fn entered(self, fuel: u64) -> Counts
        requires { self.calls < fuel }
        ensures { result ≡ record { calls = self.calls + 1; peak = self.peak; low = self.low } }
    {
        Counts {
            calls: self.calls + 1,
            peak: self.peak,
            low: self.low,
        }
    }

    /// A cell is taken from the free list.
    pub(crate) fn taken(self) -> Counts
        requires { self.peak ≤ most_cells }
        ensures { result ≡ record { calls = self.calls; peak = self.peak + (1 - self.low); low = self.low - 1 } }
    {
        if self.low == 0 {
            Counts {
                calls: self.calls,
                peak: self.peak + 1,
                low: 0,
            }
        } else {
            Counts {
                calls: self.calls,
                peak: self.peak,
                low: self.low - 1,
            }
        }
    }

    /// A cell is given back.
    pub(crate) fn given(self) -> Counts
        requires { self.low ≤ most_cells }
        ensures { result ≡ record { calls = self.calls; peak = self.peak; low = self.low + 1 } }
    {
        Counts {
            calls: self.calls,
            peak: self.peak,
            low: self.low + 1,
        }
    }
}

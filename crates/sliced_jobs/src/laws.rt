//! Laws of slices, as the contract of a function that does nothing.
ghost use Rattle.std.specs.Prelude.{◌≡◌, ℕ, ◌≤◌};
ghost use Rattle.grail_code.specs.Code.{Code};
ghost use Rattle.cell_machine.specs.State.{Configuration};
ghost use Rattle.job_world.specs.Plans.{Planned, AreFit};
ghost use Rattle.sliced_jobs.specs.Slices.{TakesSlices, AreSlices};

/// A run takes one number of slices, and so do all plans together: it is theirs alone, whatever order they are served
/// in. Plans that fit their licences have one.
pub fn law_of_slices()
    // From a state on a run takes one number of slices.
    ensures one { (p : Code) (asked a b : ℕ) (s : Configuration) → TakesSlices p asked a s → TakesSlices p asked b s → a ≡ b }
    // All plans together take one number of slices.
    ensures all { (asked a b : ℕ) (ps : Planned) → AreSlices asked ps a → AreSlices asked ps b → a ≡ b }
    // There is one.
    ensures there { (asked : ℕ) (ps : Planned) → 1 ≤ asked → AreFit ps → (number : ℕ) × AreSlices asked ps number }
{}

ghost use Rattle.std.specs.Prelude.{◌≡◌, ◌<◌, ◌⊎◌, true, false, length, MatchOption};
ghost use Rattle.cell_machine.specs.Laid.{SameRange};
ghost use Rattle.cell_machine.specs.Running.{IsRunning};
ghost use Rattle.cell_machine.specs.Views.{range_of};
ghost use Rattle.pause_image.specs.Slicing.{frame_lends, state_lends, IsSliced, IsOverIn};
ghost use Rattle.pause_image.specs.SliceLaws.{IsAhead, Lender, MayLend};

use cell_machine::{Ending, Machine};

// So many steps. None where the run goes on behind them.
fn take_steps(machine: &mut Machine<'_>, steps: u64) -> Option<Ending>
    requires running { IsRunning machine.old }
    ensures taken { MatchOption result (IsAhead machine.old machine.new steps) (λ ending. IsOverIn machine.old machine.new steps ending) }
    ensures range { SameRange (range_of machine.old) (range_of machine.new) }
    ensures code { machine.new.code ≡ machine.old.code }
{
    'each: for _step in 0..steps {
        match machine.step() {
            Some(ending) => return Some(ending),
            None => {}
        }
    }
    None
}

// Steps on until nothing is lent, where the oldest frame that lends has this number.
fn step_on(machine: &mut Machine<'_>, lender: u32) -> Option<Ending>
    requires running { IsRunning machine.old }
    requires lent { Lender machine.old.code machine.old.state lender }
    requires runs { length machine.old.state.waiting ≡ lender → frame_lends machine.old.code machine.old.state.frame ≡ true }
    ensures gone { MatchOption result (IsSliced machine.old machine.new 0) (λ ending. IsOverIn machine.old machine.new 0 ending) }
    ensures range { SameRange (range_of machine.old) (range_of machine.new) }
    ensures code { machine.new.code ≡ machine.old.code }
{
    'each: while still_lends(machine, lender) {
        match machine.step() {
            Some(ending) => return Some(ending),
            None => {}
        }
    }
    None
}

// Whether something is lent, where the frame of this number was the oldest one that lends.
fn still_lends(machine: &Machine<'_>, lender: u32) -> bool
    requires { MayLend machine.now.code machine.now.state lender }
    ensures lends { result ≡ state_lends machine.now.code machine.now.state }
    ensures there { result ≡ true → Lender machine.now.code machine.now.state lender }
    ensures runs { result ≡ true → length machine.now.state.waiting ≡ lender → frame_lends machine.now.code machine.now.state.frame ≡ true }
{
    let waiting = machine.waiting();
    if waiting > lender {
        return true;
    }
    if waiting < lender {
        return false;
    }
    machine.running_lends()
}

/// Runs so many steps, and then as many as it takes until nothing is lent, so that the run can be put aside. None where
/// it goes on behind them; else the run is over, and this is its ending. It takes no memory, and looks at all frames
/// once.
pub fn slice(machine: &mut Machine<'_>, steps: u64) -> Option<Ending>
    requires running { IsRunning machine.old }
    // It stops after the least number of steps that suffices, or the run ended in them.
    ensures sliced { MatchOption result (IsSliced machine.old machine.new steps) (λ ending. IsOverIn machine.old machine.new steps ending) }
    // The range stays.
    ensures range { SameRange (range_of machine.old) (range_of machine.new) }
    // The code stays.
    ensures code { machine.new.code ≡ machine.old.code }
{
    match take_steps(machine, steps) {
        Some(ending) => return Some(ending),
        None => {}
    }
    match machine.lender() {
        Some(lender) => step_on(machine, lender),
        None => None,
    }
}

//! The runs that are out, in ascending order.
ghost use Rattle.std.specs.Prelude.{◌≡◌, ◌<◌, ◌≤◌, length, vec_capacity};
ghost use Rattle.hole_list.specs.Placing.{AreOrdered, IsOut, with_run, without_run, AreFreeOf};

use super::places::count_begin_before;
use super::run::Run;

/// One more run is out; there is room for it.
#[tactic(auto, using(crate::proofs::AtPlaces::with_at, crate::proofs::AtPlaces::begin_within))]
pub fn add_run(runs: &mut Vec<Run>, run: Run)
    requires order { AreOrdered runs.old.items }
    requires free { AreFreeOf runs.old.items run }
    requires some { 1 ≤ run.size }
    requires room { length runs.old.items < vec_capacity runs.old }
    ensures out { runs.new.items ≡ with_run runs.old.items run }
    ensures room { vec_capacity runs.old ≤ vec_capacity runs.new }
{
    let at = count_begin_before(runs, run.first);
    runs.insert(at, run).unwrap();
}

/// A run is no longer out.
#[tactic(auto, using(crate::proofs::AtPlaces::without_place, crate::proofs::AtPlaces::without_is))]
pub fn remove_run(runs: &mut Vec<Run>, run: Run)
    requires order { AreOrdered runs.old.items }
    requires out { IsOut runs.old.items run }
    ensures out { runs.new.items ≡ without_run runs.old.items run.first }
    ensures room { vec_capacity runs.old ≤ vec_capacity runs.new }
{
    let at = count_begin_before(runs, run.first);
    runs.remove(at);
}

/// How many runs are out.
pub fn count(runs: &[Run], most: u32) -> u32
    requires { length runs.now ≤ most }
    ensures { result ≡ length runs.now }
{
    runs.len() as u32
}

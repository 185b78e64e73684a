ghost use Rattle.std.specs.Prelude.{◌≤◌, length};
ghost use Rattle.journal_replay.specs.Within.{AreLeasesWithin, AreWithin, leases_prop, within_prop};

use hole_list::Run;
use std::alloc::Global;

/// How many jobs were asked for, those that wait, the holes, and the lease of each job where it is out.
#[derive(Drop)]
pub(crate) struct State {
    pub(crate) alloc: Global,
    pub(crate) asked: usize,
    // all that ever waited, in order, and how many of these were taken since
    pub(crate) waiting: Vec<u32>,
    pub(crate) served: usize,
    pub(crate) holes: Vec<Run>,
    pub(crate) leases: Vec<Option<Run>>,
    ghost few_served: { served ≤ length waiting.items },
    ghost holes_within: { AreWithin holes.items } by { within_prop holes.items },
    ghost few_leases: { length leases.items ≤ 4294967295 },
    ghost leases_within: { AreLeasesWithin leases.items } by { leases_prop leases.items },
}

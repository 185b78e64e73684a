//! The turns of the caller, who has the desk alone: for the jobs that no worker asked for, and then for those that
//! wait.
ghost use Rattle.std.specs.Prelude.{◌≡◌, [], length};
ghost use Rattle.job_world.specs.Plans.{leases_of};
ghost use Rattle.lease_desk.specs.Journal.{leased};
ghost use Rattle.job_workers.specs.Serving.{IsOnlyOut};
ghost use Rattle.job_workers.specs.Turns.{AskedBy, LeftBy};

use crate::answer::Answer;
use crate::gate::OpenGate;
use crate::kept::Kept;
use crate::serving::{Served, serve_lease};
use crate::stacks::SpareStack;
use job_world::{JobName, Jobs};
use lease_desk::{Desk, Lease, Next};
use std::alloc::Global;

// What comes of a turn.
#[derive(Drop)]
pub(crate) enum Turn<N: JobName> {
    // A job had its turn; this stack is kept.
    More(Option<SpareStack<N>>),
    // There was none.
    Over,
}

// Runs the job of a lease, and gives the lease back with the job's answer. Where memory for the run is lacking, the
// lease goes back without one. No lease is out then.
fn run_and_give<N: JobName, K: Kept>(
    alloc: Global,
    desk: &mut Desk<N, Answer<N, K>>,
    jobs: &Jobs,
    lease: Lease<N>,
    kept: Option<SpareStack<N>>,
) -> Option<SpareStack<N>>
    requires plans { jobs.now ≡ N.planned }
    requires sizes { N.sizes ≡ leases_of N.planned.plans }
    requires only { IsOnlyOut desk.old lease }
    ensures none_out { leased desk.new.state.leases ≡ [] }
    ensures asked { desk.new.state.asked ≡ desk.old.state.asked }
    ensures waiting { desk.new.state.waiting ≡ desk.old.state.waiting }
{
    match serve_lease(alloc, jobs, &OpenGate, lease, kept) {
        Ok(
            Served {
                lease,
                answer,
                kept,
            },
        ) => {
            desk.give(lease, answer);
            Some(kept)
        }
        Err(lease) => {
            desk.withdraw(lease);
            None
        }
    }
}

// Asks for the next job; where it is given a lease, runs it and gives the lease back.
fn serve_next<N: JobName, K: Kept>(
    alloc: Global,
    desk: &mut Desk<N, Answer<N, K>>,
    jobs: &Jobs,
    kept: Option<SpareStack<N>>,
) -> Turn<N>
    requires plans { jobs.now ≡ N.planned }
    requires sizes { N.sizes ≡ leases_of N.planned.plans }
    requires none_out { leased desk.old.state.leases ≡ [] }
    ensures none_out { leased desk.new.state.leases ≡ [] }
    ensures asked { AskedBy (length N.sizes) desk.old.state.asked desk.new.state.asked result }
{
    match desk.next() {
        Next::Granted(lease) => {
            desk.kept();
            Turn::More(run_and_give(alloc, desk, jobs, lease, kept))
        }
        Next::Full {
            job: _,
            need: _,
            largest: _,
        } => {
            desk.kept();
            Turn::More(kept)
        }
        Next::Over => {
            desk.kept();
            Turn::Over
        }
    }
}

// Asks for every job that wasn't asked for yet.
fn serve_asked<N: JobName, K: Kept>(alloc: Global, desk: &mut Desk<N, Answer<N, K>>, jobs: &Jobs)
    requires plans { jobs.now ≡ N.planned }
    requires sizes { N.sizes ≡ leases_of N.planned.plans }
    requires none_out { leased desk.old.state.leases ≡ [] }
    ensures none_out { leased desk.new.state.leases ≡ [] }
    ensures asked { desk.new.state.asked ≡ length N.sizes }
{
    let mut kept = None;
    'turns: loop {
        match serve_next(alloc, desk, jobs, kept) {
            Turn::More(next) => kept = next,
            Turn::Over => return,
        }
    }
}

// Takes the job that waits first, once no lease is out, runs it and gives its lease back.
fn serve_next_left<N: JobName, K: Kept>(
    alloc: Global,
    desk: &mut Desk<N, Answer<N, K>>,
    jobs: &Jobs,
    kept: Option<SpareStack<N>>,
) -> Turn<N>
    requires plans { jobs.now ≡ N.planned }
    requires sizes { N.sizes ≡ leases_of N.planned.plans }
    requires none_out { leased desk.old.state.leases ≡ [] }
    requires asked { desk.old.state.asked ≡ length N.sizes }
    ensures none_out { leased desk.new.state.leases ≡ [] }
    ensures asked { desk.new.state.asked ≡ length N.sizes }
    ensures left { LeftBy desk.old.state.waiting desk.new.state.waiting result }
{
    desk.kept();
    match desk.next_left() {
        Some(lease) => {
            desk.kept();
            Turn::More(run_and_give(alloc, desk, jobs, lease, kept))
        }
        None => Turn::Over,
    }
}

// Serves the jobs that wait.
fn serve_left<N: JobName, K: Kept>(alloc: Global, desk: &mut Desk<N, Answer<N, K>>, jobs: &Jobs)
    requires plans { jobs.now ≡ N.planned }
    requires sizes { N.sizes ≡ leases_of N.planned.plans }
    requires none_out { leased desk.old.state.leases ≡ [] }
    requires asked { desk.old.state.asked ≡ length N.sizes }
    ensures none_out { leased desk.new.state.leases ≡ [] }
    ensures asked { desk.new.state.asked ≡ length N.sizes }
    ensures left { desk.new.state.waiting ≡ [] }
{
    let mut kept = None;
    'turns: loop {
        match serve_next_left(alloc, desk, jobs, kept) {
            Turn::More(next) => kept = next,
            Turn::Over => return,
        }
    }
}

/// Serves, alone, each job that wasn't asked for yet, and then those that wait. No lease is out before it, and none
/// behind it; every job was asked for then, and none waits. A job for which memory is lacking has its lease withdrawn.
pub(crate) fn serve_rest<N: JobName, K: Kept>(
    alloc: Global,
    desk: &mut Desk<N, Answer<N, K>>,
    jobs: &Jobs,
)
    requires plans { jobs.now ≡ N.planned }
    requires sizes { N.sizes ≡ leases_of N.planned.plans }
    requires none_out { leased desk.old.state.leases ≡ [] }
    ensures none_out { leased desk.new.state.leases ≡ [] }
    ensures asked { desk.new.state.asked ≡ length N.sizes }
    ensures left { desk.new.state.waiting ≡ [] }
{
    serve_asked(alloc, desk, jobs);
    serve_left(alloc, desk, jobs);
}

//! Workers at one desk behind a lock: each asks for one job after the other, runs it, and gives its lease back.
//!
//! What the lock holds is known by its type alone: the desk is the replay of its journal, its holes and leases add up
//! to the arena, and it is of the arena and the sizes of its name, as is each lease.
ghost use Rattle.std.specs.Prelude.{◌≡◌, [], length, IfOk, IfErr};
ghost use Rattle.cell_span.specs.Range.{IsWhole};
ghost use Rattle.job_world.specs.Plans.{leases_of, job_cells};
ghost use Rattle.lease_desk.specs.Journal.{leased, IsLegal};
ghost use Rattle.lease_desk.specs.Filing.{HoldsFiled};
ghost use Rattle.job_workers.specs.Served.{all_cells};
ghost use Rattle.job_workers.specs.Filings.{AllAnswered};

use crate::answer::Answer;
use crate::gate::Gate;
use crate::kept::Kept;
use crate::rest::serve_rest;
use crate::serving::{Served, serve_lease};
use crate::stacks::SpareStack;
use cell_span::Span;
use job_world::{JobName, Jobs};
use lease_desk::{Desk, Finished, Lease, Next};
use std::alloc::Global;
use std::sync::{Condvar, Mutex, Wait};
use std::thread;
use std::thread::Threads;

/// Memory ran out. Every lease came home, and no job runs any more.
pub struct Home {
    /// The whole arena.
    pub span: Span,
}

// The desk behind its lock, and what wakes the workers that wait for a lease to come back.
struct SharedDesk<N: JobName, K: Kept> {
    desk: Mutex<Desk<N, Answer<N, K>>>,
    came_back: Condvar,
}

// Asks the desk for the next job, once it fits or no lease is out. A job that is asked for where it doesn't fit is left
// for the end, when the caller serves such jobs one by one.
fn ask<N: JobName, K: Kept, R: Wait>(rt: &R, shared: &SharedDesk<N, K>) -> Next<N> {
    let SharedDesk { desk, came_back } = shared;
    came_back
        .wait_while(rt, desk.lock(rt), |desk| {
            !desk.next_fits() && desk.out() > 0
        })
        .next()
}

// Gives a lease back with its answer, once the desk knows it.
fn give_back<N: JobName, K: Kept, R: Wait>(
    rt: &R,
    desk: &Mutex<Desk<N, Answer<N, K>>>,
    lease: Lease<N>,
    answer: Answer<N, K>,
)
    requires number { answer.job ≡ lease.job }
    requires cells { job_cells N.planned answer.job ≡ lease.range.cells }
{
    for _ in rt.forever() {
        let mut here = desk.lock(rt);
        if here.knows(&lease) {
            here.give(lease, answer);
            return;
        }
    }
    unreachable!()
}

// Gives a lease back without an answer, once the desk knows it.
fn withdraw_back<N: JobName, K: Kept, R: Wait>(
    rt: &R,
    desk: &Mutex<Desk<N, Answer<N, K>>>,
    lease: Lease<N>,
) {
    for _ in rt.forever() {
        let mut here = desk.lock(rt);
        if here.knows(&lease) {
            here.withdraw(lease);
            return;
        }
    }
    unreachable!()
}

// Runs the job of a lease without the lock, and gives the lease back: with the job's answer, or without one where
// memory for the run is lacking or the gate refuses. Those that wait for it are woken. The stack of the run is kept.
fn serve_granted<N: JobName, K: Kept, R: Wait, G: Gate>(
    rt: &R,
    alloc: Global,
    shared: &SharedDesk<N, K>,
    jobs: &Jobs,
    gate: &G,
    lease: Lease<N>,
    kept: Option<SpareStack<N>>,
) -> Option<SpareStack<N>>
    requires plans { jobs.now ≡ N.planned }
    requires sizes { N.sizes ≡ leases_of N.planned.plans }
{
    let left = match serve_lease(alloc, jobs, gate, lease, kept) {
        Ok(
            Served {
                lease,
                answer,
                kept,
            },
        ) => {
            give_back(rt, &shared.desk, lease, answer);
            Some(kept)
        }
        Err(lease) => {
            withdraw_back(rt, &shared.desk, lease);
            None
        }
    };
    shared.came_back.notify_all();
    left
}

// The turns of one worker: it asks for jobs and serves them, until every job was asked for.
fn work<N: JobName, K: Kept, R: Wait, G: Gate>(
    rt: &R,
    alloc: Global,
    shared: &SharedDesk<N, K>,
    jobs: &Jobs,
    gate: &G,
)
    requires plans { jobs.now ≡ N.planned }
    requires sizes { N.sizes ≡ leases_of N.planned.plans }
{
    let mut kept = None;
    for _ in rt.forever() {
        match ask(rt, shared) {
            Next::Over => return,
            Next::Full {
                job: _,
                need: _,
                largest: _,
            } => {}
            Next::Granted(lease) => {
                kept = serve_granted(rt, alloc, shared, jobs, gate, lease, kept);
            }
        }
    }
    unreachable!()
}

// Goes on where no lease is out, and else waits for ever.
fn settle<N: JobName, K: Kept, R: Wait>(rt: &R, desk: &Desk<N, Answer<N, K>>)
    ensures { leased desk.now.state.leases ≡ [] }
{
    if desk.out() == 0 {
        return;
    }
    for _ in rt.forever() {}
    unreachable!()
}

// The whole arena of a desk with no lease out, whose journal and answers are let go.
fn bring_home<N: JobName, K: Kept>(desk: Desk<N, Answer<N, K>>) -> Home
    requires none_out { leased desk.state.leases ≡ [] }
    ensures whole { IsWhole result.span }
    ensures arena { result.span.arena ≡ N.arena }
{
    desk.kept();
    let Finished {
        span,
        journal: _,
        payloads: _,
    } = desk.finish();
    Home { span }
}

/// Serves the planned jobs of the name on its desk, by so many workers over a lock.
///
/// Each worker asks the desk for the next job, makes a stack and room for it, passes the gate, runs the job in the
/// lease's cells without the lock, and gives the lease back with the job's ending, until every job was asked for. While
/// no hole has the cells that the next job needs, it waits for a lease to come back before it asks. A run takes no
/// memory; its stack is kept for the worker's next job of the same licence. Once all workers are done, the caller asks
/// on alone for the jobs that are left, if any, and serves those that wait, in order. It may wait for the lock and the
/// desk. No clause says that a worker passes the gate, nor with which job's number: a body that asks no gate is refused
/// by tests alone.
///
/// # Errors
///
/// [`Home`] where memory ran out: for a worker, a stack, room, or at the gate. The whole arena comes home then.
pub fn serve_jobs<
    N: JobName + Send + Sync,
    K: Kept + Send,
    R: Threads + Wait + Sync,
    G: Gate + Sync,
>(
    rt: &R,
    alloc: Global,
    desk: Desk<N, Answer<N, K>>,
    jobs: &Jobs,
    workers: u32,
    gate: &G,
) -> Result<Finished<Answer<N, K>>, Home>
    requires plans { jobs.now ≡ N.planned }
    requires sizes { N.sizes ≡ leases_of N.planned.plans }
    // The journal is legal, from the first event to the last.
    ensures legal { IfOk result (λ f. IsLegal N.arena.cells (leases_of jobs.now.plans) f.journal.items) }
    // Each job has its answer, which is the ending that the meaning of its own plan says, as far as it is kept.
    ensures answered { IfOk result (λ f. AllAnswered jobs.now f.payloads.items) }
    // There is a place for each job.
    ensures count { IfOk result (λ f. length f.payloads.items ≡ length jobs.now.plans) }
    // The whole arena comes back.
    ensures whole { IfOk result (λ f. IsWhole f.span) }
    // The run that comes back is of the name's arena.
    ensures arena { IfOk result (λ f. f.span.arena ≡ N.arena) }
    // Each cell is the one that the last job left whose lease went over it, by the journal, and a blank one where none
    // did.
    ensures cells { IfOk result (λ f. HoldsFiled (all_cells jobs.now) f.journal.items f.span) }
    // It comes back too where memory ran out.
    ensures home { IfErr result (λ home. IsWhole home.span) }
    // The run that comes home is of the name's arena too.
    ensures home_arena { IfErr result (λ home. home.span.arena ≡ N.arena) }
{
    let shared = SharedDesk {
        desk: Mutex::new(desk),
        came_back: Condvar::new(),
    };
    let ran = thread::map_indices(
        rt,
        alloc,
        workers as usize,
        &|_i|
            requires { (jobs.now ≡ N.planned) × (N.sizes ≡ leases_of N.planned.plans) }
        { work(rt, alloc, &shared, jobs, gate) },
    )
    .is_ok();
    let SharedDesk { desk, came_back: _ } = shared;
    let mut desk = desk.into_inner();
    settle(rt, &desk);
    if !ran {
        return Err(bring_home(desk));
    }
    serve_rest(alloc, &mut desk, jobs);
    desk.kept();
    let withdrawn = desk.withdrawn();
    if withdrawn == 0 {
        return Ok(desk.finish());
    }
    Err(bring_home(desk))
}

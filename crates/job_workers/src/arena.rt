//! Planned jobs served in an arena: the call that says which jobs they are.
ghost use Rattle.std.specs.Prelude.{◌≡◌, ◌≤◌, length, map, replicate, IfOk, IfErr};
ghost use Rattle.cell_span.specs.Range.{IsWhole, blank};
ghost use Rattle.job_world.specs.Plans.{leases_of};
ghost use Rattle.lease_desk.specs.Journal.{AreSizes, IsLegal};
ghost use Rattle.lease_desk.specs.Filing.{HoldsFiled};
ghost use Rattle.job_workers.specs.Ended.{AllEnded};
ghost use Rattle.job_workers.specs.Filings.{ending_in};
ghost use Rattle.job_workers.specs.Served.{all_cells};

use crate::answer::Answer;
use crate::gate::Gate;
use crate::kept::Kept;
use crate::workers::{Home, serve_jobs};
use cell_span::Span;
use job_world::{JobName, Jobs};
use lease_desk::{Desk, DeskRefused, Event, Finished};
use std::alloc::{AllocError, Global};
use std::marker::Brand;
use std::sync::Wait;
use std::thread::Threads;

/// What comes of jobs that are served. It can't be dropped, as its span can't.
pub struct ServedJobs<K> {
    /// The whole arena, with the cells that the runs left.
    pub span: Span,
    /// All events of the desk, in order.
    pub journal: Vec<Event>,
    /// The ending of each job, as far as it is kept, in the place of its number.
    pub endings: Vec<Option<K>>,
}

// The ending of an answer that is there.
fn ending_in<N: JobName, K: Kept>(payload: Option<Answer<N, K>>) -> Option<K>
    ensures { result ≡ ending_in payload }
{
    match payload {
        Some(answer) => Some(answer.ending),
        None => None,
    }
}

// The endings of answers, without the name of the jobs.
fn endings_in<N: JobName, K: Kept>(
    alloc: Global,
    payloads: Vec<Option<Answer<N, K>>>,
) -> Result<Vec<Option<K>>, AllocError>
    ensures { IfOk result (λ endings. endings.items ≡ map ending_in payloads.items) }
{
    let mut endings = Vec::with_capacity(alloc, payloads.len())?;
    'payloads: for payload in payloads {
        endings.push(ending_in(payload))?;
    }
    Ok(endings)
}

// Serves the jobs of the name on its desk, which is a new one. Nothing that it takes or hands out is of the name, so
// that its caller may pick it.
fn serve_named<N: JobName + Send + Sync, K: Kept + Send, R: Threads + Wait + Sync, G: Gate + Sync>(
    rt: &R,
    alloc: Global,
    span: Span,
    jobs: &Jobs,
    workers: u32,
    gate: &G,
) -> Result<ServedJobs<K>, Home>
    requires plans { jobs.now ≡ N.planned }
    requires arena { span.arena ≡ N.arena }
    requires named { N.sizes ≡ leases_of N.planned.plans }
    requires whole { IsWhole span }
    requires blanks { span.cells ≡ replicate span.arena.cells blank }
    requires few { length jobs.now.plans ≤ 4096 }
    requires sizes { AreSizes span.arena.cells (leases_of jobs.now.plans) }
    ensures legal { IfOk result (λ served. IsLegal span.arena.cells (leases_of jobs.now.plans) served.journal.items) }
    ensures ended { IfOk result (λ served. AllEnded K.keeps jobs.now served.endings.items) }
    ensures count { IfOk result (λ served. length served.endings.items ≡ length jobs.now.plans) }
    ensures whole { IfOk result (λ served. IsWhole served.span) }
    ensures arena { IfOk result (λ served. served.span.arena ≡ span.arena) }
    ensures cells { IfOk result (λ served. HoldsFiled (all_cells jobs.now) served.journal.items served.span) }
    ensures home { IfErr result (λ home. IsWhole home.span) }
    ensures home_arena { IfErr result (λ home. home.span.arena ≡ span.arena) }
{
    let Ok(sizes) = jobs.sizes(alloc) else {
        return Err(Home { span });
    };
    let desk = match Desk::<N, Answer<N, K>>::new(alloc, span, sizes) {
        Ok(desk) => desk,
        Err(DeskRefused { span }) => return Err(Home { span }),
    };
    match serve_jobs(rt, alloc, desk, jobs, workers, gate) {
        Ok(
            Finished {
                span,
                journal,
                payloads,
            },
        ) => match endings_in(alloc, payloads) {
            Ok(endings) => Ok(ServedJobs {
                span,
                journal,
                endings,
            }),
            Err(_) => Err(Home { span }),
        },
        Err(home) => Err(home),
    }
}

/// Serves planned jobs in a new arena, whose cells are all blank: on a new desk, by so many workers, as [`serve_jobs`]
/// does. There are at most 4,096 jobs, and the lease of each fits into the arena. It is the call that picks which jobs
/// are served. It may wait for the lock and the desk.
///
/// # Errors
///
/// [`Home`] where memory ran out. The whole arena comes home then.
pub fn serve_planned<K: Kept + Send, R: Threads + Wait + Sync, G: Gate + Sync>(
    rt: &R,
    alloc: Global,
    span: Span,
    jobs: &Jobs,
    workers: u32,
    gate: &G,
) -> Result<ServedJobs<K>, Home>
    requires whole { IsWhole span }
    requires blanks { span.cells ≡ replicate span.arena.cells blank }
    requires few { length jobs.now.plans ≤ 4096 }
    requires sizes { AreSizes span.arena.cells (leases_of jobs.now.plans) }
    // The journal is legal, from the first event to the last.
    ensures legal { IfOk result (λ served. IsLegal span.arena.cells (leases_of jobs.now.plans) served.journal.items) }
    // Each job has its ending, as far as it is kept, which is the one that the meaning of its own plan says.
    ensures ended { IfOk result (λ served. AllEnded K.keeps jobs.now served.endings.items) }
    // There are as many endings as jobs.
    ensures count { IfOk result (λ served. length served.endings.items ≡ length jobs.now.plans) }
    // The whole arena comes back, the one that was handed in.
    ensures whole { IfOk result (λ served. IsWhole served.span) }
    // The run that comes back is of the arena that was handed in.
    ensures arena { IfOk result (λ served. served.span.arena ≡ span.arena) }
    // Each of its cells is the one that the machine left there for the last job whose lease went over it, and a blank
    // one where none did.
    ensures cells { IfOk result (λ served. HoldsFiled (all_cells jobs.now) served.journal.items served.span) }
    // It comes back too where memory ran out.
    ensures home { IfErr result (λ home. IsWhole home.span) }
    // The run that comes home is of that arena too.
    ensures home_arena { IfErr result (λ home. home.span.arena ≡ span.arena) }
{
    serve_named::<Brand, K, R, G>(rt, alloc, span, jobs, workers, gate)
}

ghost use Rattle.std.specs.Prelude.{◌≡◌, ◌≤◌, length, IfOk};
ghost use Rattle.cell_span.specs.Range.{IsWhole};
ghost use Rattle.job_world.specs.Plans.{leases_of};
ghost use Rattle.job_workers.specs.Ended.{AllEnded};
ghost use Rattle.job_workers.specs.Served.{all_cells};
ghost use Rattle.lease_desk.specs.Filing.{HoldsFiled};
ghost use Rattle.lease_desk.specs.Journal.{AreSizes, IsLegal};

use cell_span::Span;
use job_workers::{Gate, Home, Kept, ServedJobs, serve_planned};
use job_world::Jobs;
use std::alloc::{AllocError, Global};
use std::sync::Wait;
use std::thread::Threads;

/// Runs all planned jobs in a new arena of so many cells, by so many workers. `AllocError` where memory runs out: the
/// arena is ended then.
pub(crate) fn run_jobs<K: Kept + Send, R: Threads + Wait + Sync, G: Gate + Sync>(
    rt: &R,
    alloc: Global,
    arena: u32,
    jobs: &Jobs,
    workers: u32,
    gate: &G,
) -> Result<ServedJobs<K>, AllocError>
    requires arena { 1 ≤ arena }
    requires few_cells { arena ≤ 2147483648 }
    requires few_jobs { length jobs.now.plans ≤ 4096 }
    requires sizes { AreSizes arena (leases_of jobs.now.plans) }
    ensures legal { IfOk result (λ done. IsLegal arena (leases_of jobs.now.plans) done.journal.items) }
    ensures ended { IfOk result (λ done. AllEnded K.keeps jobs.now done.endings.items) }
    ensures whole { IfOk result (λ done. IsWhole done.span) }
    ensures size { IfOk result (λ done. done.span.arena.cells ≡ arena) }
    ensures cells { IfOk result (λ done. HoldsFiled (all_cells jobs.now) done.journal.items done.span) }
{
    let span = Span::new(alloc, arena)?;
    match serve_planned(rt, alloc, span, jobs, workers, gate) {
        Ok(served) => Ok(served),
        Err(Home { span }) => {
            span.end();
            Err(AllocError)
        }
    }
}

//! The run of one lease, and its way back to the desk.
ghost use Rattle.std.specs.Prelude.{◌≡◌, length, slice_get, Some, IfOk, MatchResult};
ghost use Rattle.camelot_values.specs.Counts.{cells_among};
ghost use Rattle.grail_code.specs.Code as plain;
ghost use Rattle.grail_code.specs.Meaning.{run_of};
ghost use Rattle.cell_machine.specs.Views.{IsStackFor};
ghost use Rattle.cell_machine.specs.Laid.{SameRange};
ghost use Rattle.cell_machine.specs.Loading.{last_cells};
ghost use Rattle.cell_machine.specs.Plans.{IsPlan};
ghost use Rattle.cell_machine.specs.State.{most_calls};
ghost use Rattle.job_world.specs.Plans.{leases_of};
ghost use Rattle.job_workers.specs.Serving.{IsRoomFor, IsServed};

use crate::answer::Answer;
use crate::gate::Gate;
use crate::kept::Kept;
use crate::stacks::{SpareStack, stack_for};
use cell_machine::{Halted, Ran, Room, Stack, halt, run_counted};
use cell_span::Span;
use job_world::{JobName, Jobs, Plan};
use lease_desk::Lease;
use licence::Licence;
use std::alloc::{AllocError, Global};
use std::marker::PhantomData;

/// What the run of a lease hands back: the lease with the cells as the run left them, the answer, and the stack for the
/// next run.
pub(crate) struct Served<N: JobName, K: Kept> {
    pub(crate) lease: Lease<N>,
    pub(crate) answer: Answer<N, K>,
    pub(crate) kept: SpareStack<N>,
}

// What a run leaves: its cells and its stack, and what is kept of how it ended.
struct KeptRun<K: Kept> {
    span: Span,
    stack: Stack,
    kept: K,
}

// Runs a plan by its licence, in as many cells as it says. Without room for its value none is put together.
fn run_plan<K: Kept>(
    alloc: Global,
    licence: &Licence,
    plan: &Plan,
    span: Span,
    stack: Stack,
    room: Option<Room>,
) -> KeptRun<K>
    requires plan { IsPlan licence.now plan.now.entry plan.now.args.items plan.now.fuel (length span.cells) }
    requires counted { plan.now.cells ≡ cells_among licence.now.code.types plan.now.args.items }
    requires stack { IsStackFor licence.now.code stack }
    requires room { IsRoomFor K.asks (length span.cells) room }
    ensures kept { K.keeps (run_of licence.now.code most_calls plan.now.entry plan.now.fuel plan.now.args.items) result.kept }
    ensures cells { (f : plain.Func) → slice_get licence.now.code.funcs plan.now.entry ≡ Some f
        → result.span.cells ≡ last_cells licence.now.code most_calls plan.now.entry f plan.now.args.items plan.now.fuel (length span.cells) }
    ensures range { SameRange span result.span }
    ensures stack { IsStackFor licence.now.code result.stack }
{
    match room {
        Some(room) => {
            let Ran {
                ending,
                span,
                stack,
            } = run_counted(
                licence, plan.entry, &plan.args, plan.cells, plan.fuel, span, stack, room,
            );
            KeptRun {
                span,
                stack,
                kept: K::keep(alloc, ending),
            }
        }
        None => {
            let Halted {
                halt: ended,
                span,
                stack,
            } = halt(
                licence, plan.entry, &plan.args, plan.cells, plan.fuel, span, stack,
            );
            match K::keep_halt(ended) {
                Some(kept) => KeptRun { span, stack, kept },
                None => unreachable!(),
            }
        }
    }
}

// Room for the value of a run in so many cells, where the value is asked for.
fn room_for<K: Kept>(alloc: Global, lease: u32) -> Result<Option<Room>, AllocError>
    ensures { IfOk result (IsRoomFor K.asks lease) }
{
    if K::asks_value() {
        let room = Room::new(alloc, lease)?;
        Ok(Some(room))
    } else {
        Ok(None)
    }
}

// A stack for a run, room for its value, where this is asked for, and behind them the gate.
fn make_ready<N: JobName, K: Kept, G: Gate>(
    alloc: Global,
    gate: &G,
    job: u32,
    plan: &Plan,
    licence: &Licence,
    kept: Option<SpareStack<N>>,
) -> Result<(Stack, Option<Room>), AllocError>
    requires is { slice_get N.planned.licences plan.now.licence ≡ Some licence.now }
    ensures stack { IfOk result (λ r. IsStackFor licence.now.code r.0) }
    ensures room { IfOk result (λ r. IsRoomFor K.asks plan.now.lease r.1) }
{
    let stack = stack_for(alloc, plan.licence, licence, kept)?;
    let room = room_for::<K>(alloc, plan.lease)?;
    gate.pass(job)?;
    Ok((stack, room))
}

/// Runs the job of a lease in the lease's cells, which are as many as its plan says, once the gate lets it pass. It
/// needs no desk. Where memory for a stack or for room runs out, or the gate refuses, the lease comes back as it was.
/// Once the lease is opened nothing fails.
pub(crate) fn serve_lease<N: JobName, K: Kept, G: Gate>(
    alloc: Global,
    jobs: &Jobs,
    gate: &G,
    lease: Lease<N>,
    kept: Option<SpareStack<N>>,
) -> Result<Served<N, K>, Lease<N>>
    requires plans { jobs.now ≡ N.planned }
    requires sizes { N.sizes ≡ leases_of N.planned.plans }
    ensures { MatchResult result (λ served. IsServed jobs.now lease served.lease served.answer.job) (λ back. back ≡ lease) }
{
    jobs.kept();
    lease.kept();
    let job = lease.job();
    let plan = jobs.plan(job);
    let licence = jobs.licence(job);
    let Ok((stack, room)) = make_ready::<N, K, G>(alloc, gate, job, plan, licence, kept) else {
        return Err(lease);
    };
    let (span, claim) = lease.open();
    let ran = run_plan::<K>(alloc, licence, plan, span, stack, room);
    let KeptRun { span, stack, kept } = ran;
    let answer = Answer {
        job,
        ending: kept,
        of: PhantomData,
    };
    let kept = SpareStack::new(plan.licence, stack);
    Ok(Served {
        lease: claim.close(span),
        answer,
        kept,
    })
}

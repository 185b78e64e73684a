//! The run of a job in the cells that its tenant holds.
ghost use Rattle.std.specs.Prelude.{◌≡◌, length, slice_get, Some, IfOk};
ghost use Rattle.grail_code.specs.Meaning.{run_of};
ghost use Rattle.cell_machine.specs.Endings.{EndsWith};
ghost use Rattle.cell_machine.specs.Laid.{SameRange};
ghost use Rattle.cell_machine.specs.Plans.{IsPlan};
ghost use Rattle.cell_machine.specs.State.{most_calls};
ghost use Rattle.cell_machine.specs.Views.{HasRoom, IsStackFor};
ghost use Rattle.tenant_service.specs.Holding.{IsSpare};

use crate::holding::{Holding, Spare};
use cell_machine::{Ending, Ran, Room, Stack, run};
use job_world::Call;
use licence::Licence;
use std::alloc::{AllocError, Global};
use tenant_desk::TenantLease;

/// What a run leaves: the lease with the cells as the run left them, how it ended, and the stack for the next run.
pub(crate) struct Left {
    pub(crate) lease: TenantLease,
    pub(crate) ending: Ending,
    pub(crate) stack: Stack,
}

// A stack for the runs of this licence, which has this number: the one that is kept, where it is of that licence, else
// a new one.
fn stack_for(
    alloc: Global,
    licences: &[Licence],
    number: u32,
    licence: &Licence,
    spare: Option<Spare>,
) -> Result<Stack, AllocError>
    requires is { slice_get licences.now number ≡ Some licence.now }
    requires spare { IsSpare licences.now spare }
    ensures { IfOk result (IsStackFor licence.now.code) }
{
    if let Some(kept) = spare {
        let Spare { licence: of, stack } = kept;
        if of == number {
            return Ok(stack);
        }
    }
    Stack::new(alloc, licence)
}

/// A stack for the run of a job by this licence, and room for its value. `AllocError` where memory runs out.
pub(crate) fn make_ready(
    alloc: Global,
    licences: &[Licence],
    licence: &Licence,
    job: &Holding<'_>,
    spare: Option<Spare>,
) -> Result<(Stack, Room), AllocError>
    requires is { slice_get licences.now job.now.call.licence ≡ Some licence.now }
    requires spare { IsSpare licences.now spare }
    ensures stack { IfOk result (λ r. IsStackFor licence.now.code r.0) }
    ensures room { IfOk result (λ r. HasRoom (length job.now.lease.range.cells) r.1) }
{
    let room = Room::new(alloc, job.lease.span().len())?;
    let stack = stack_for(alloc, licences, job.call.licence, licence, spare)?;
    Ok((stack, room))
}

/// Runs a call by its licence in the cells of a lease.
pub(crate) fn run_call(
    licence: &Licence,
    call: &Call,
    lease: TenantLease,
    stack: Stack,
    room: Room,
) -> Left
    requires plan { IsPlan licence.now call.now.entry call.now.args.items call.now.fuel (length lease.range.cells) }
    requires stack { IsStackFor licence.now.code stack }
    requires room { HasRoom (length lease.range.cells) room }
    ensures ending { EndsWith (run_of licence.now.code most_calls call.now.entry call.now.fuel call.now.args.items) result.ending }
    ensures tenant { result.lease.tenant ≡ lease.tenant }
    ensures range { SameRange lease.range result.lease.range }
    ensures stack { IsStackFor licence.now.code result.stack }
{
    let (span, claim) = lease.open();
    let Ran {
        ending,
        span,
        stack,
    } = run(
        licence, call.entry, &call.args, call.fuel, span, stack, room,
    );
    Left {
        lease: claim.close(span),
        ending,
        stack,
    }
}

//! The tenants' rooms: what each of them is given and gives back, over one desk.
ghost use Rattle.std.specs.Prelude.{◌≡◌, ◌≤◌, ℕ, List, length, map, IfOk, MatchResult};
ghost use Rattle.cell_span.specs.Range.{IsWhole};
ghost use Rattle.licence.specs.Licensed.{Licensed};
ghost use Rattle.tenant_desk.specs.Desk.{AreBudgets, budget};
ghost use Rattle.script_plans.specs.Fates.{Fate};
ghost use Rattle.tenant_service.specs.Rooms.{Room, Starts, Finishes, whole};
ghost use Rattle.tenant_service.specs.Holding.{AreRooms, IsFateOf};
ghost use Rattle.tenant_service.specs.Steps.{StandsForRooms, StandsForAny, HoldsFewer, StartedIs, FinishedIs, IsDone};

use crate::holding::{Came, Holding, Shared, Spare, Started};
use crate::holdings::{fill, give_all, grant, place_of, size_of};
use crate::running::{Left, make_ready, run_call};
use cell_span::Span;
use job_world::Call;
use licence::Licence;
use run_reports::JobCause;
use std::alloc::{AllocError, Global};
use tenant_desk::laws::{law_of_budgets, law_of_shifts};
use tenant_desk::{DeskRefused, TenantDesk};

/// A desk of a whole arena with a piece for each budget, and no job held. `AllocError` where memory runs out: the arena
/// is ended then.
pub(crate) fn open_rooms<'a>(
    alloc: Global,
    span: Span,
    budgets: Vec<u32>,
) -> Result<Shared<'a>, AllocError>
    requires whole { IsWhole span }
    requires budgets { AreBudgets (length span.cells) budgets.items }
    ensures rooms { (licences : List Licensed) → IfOk result (λ s. AreRooms licences s (map whole budgets.items)) }
    ensures budgets { IfOk result (λ s. map budget s.desk.pieces ≡ budgets.items) }
{
    let count = budgets.len();
    let Ok(held) = Vec::with_capacity(alloc, count) else {
        span.end();
        return Err(AllocError);
    };
    match TenantDesk::new(alloc, span, budgets, 4096) {
        Ok(desk) => {
            law_of_budgets();
            desk.kept();
            Ok(Shared {
                desk,
                held: fill(alloc, held, count),
                spare: None,
            })
        }
        Err(DeskRefused { span }) => {
            held.destroy_empty();
            span.end();
            Err(AllocError)
        }
    }
}

/// Starts a job of this name for the tenant of this number, which asks for this call, or is refused for this cause.
/// `AllocError` where memory runs out: nothing is changed then.
pub(crate) fn start<'a>(
    shared: &mut Shared<'a>,
    licences: &[Licence],
    tenant: u32,
    name: &'a [u8],
    asked: Result<Call, JobCause>,
) -> Result<Started, AllocError>
    requires rooms { StandsForRooms licences.now shared.old }
    requires few { HoldsFewer shared.old tenant 4096 }
    ensures { (rs : List Room) (fuel : ℕ) (fate : Fate) → AreRooms licences.now shared.old rs → IsFateOf licences.now fuel asked fate
        → MatchResult result (λ told. IsDone licences.now shared.old shared.new rs tenant (Starts name.now fuel fate) (StartedIs name.now told))
        (λ _. AreRooms licences.now shared.new rs) }
{
    let held = &mut shared.held[tenant as usize];
    if place_of(held, name).is_some() {
        return Ok(Started::Held);
    }
    match asked {
        Ok(call) => {
            if held.reserve(1).is_err() {
                return Err(AllocError);
            }
            law_of_shifts();
            let size = size_of(&call);
            let told = grant(&mut shared.desk, held, tenant, name, call, size);
            shared.desk.kept();
            Ok(told)
        }
        Err(cause) => Ok(Started::Refused { cause }),
    }
}

/// Finishes the tenant's job of this name: its run comes to its end in its cells, which go back. None where it holds no
/// such job. `AllocError` where memory runs out: nothing is changed then.
pub(crate) fn finish<'a>(
    alloc: Global,
    shared: &mut Shared<'a>,
    licences: &[Licence],
    tenant: u32,
    name: &[u8],
) -> Result<Option<Came>, AllocError>
    requires rooms { StandsForRooms licences.now shared.old }
    requires few { HoldsFewer shared.old tenant 4097 }
    ensures { (rs : List Room) → AreRooms licences.now shared.old rs
        → MatchResult result (λ told. IsDone licences.now shared.old shared.new rs tenant (Finishes name.now) (FinishedIs licences.now name.now told))
        (λ _. AreRooms licences.now shared.new rs) }
{
    let held = &mut shared.held[tenant as usize];
    match place_of(held, name) {
        Some(at) => {
            let job = &held[at];
            let licence = &licences[job.call.licence as usize];
            let spare = shared.spare.take();
            let Ok((stack, room)) = make_ready(alloc, licences, licence, job, spare) else {
                return Err(AllocError);
            };
            let Holding {
                name: _,
                call,
                lease,
            } = held.remove(at);
            law_of_shifts();
            let ran = run_call(licence, &call, lease, stack, room);
            let Left {
                lease,
                ending,
                stack,
            } = ran;
            shared.desk.give(lease);
            shared.desk.kept();
            shared.spare = Some(Spare {
                licence: call.licence,
                stack,
            });
            Ok(Some(Came {
                ending,
                fuel: call.fuel,
                bound: call.needs.bound,
                licence: call.licence,
            }))
        }
        None => Ok(None),
    }
}

/// Ends the desk: all that is held goes back, and the arena is ended.
pub(crate) fn close_rooms(shared: Shared<'_>)
    requires rooms { StandsForAny shared }
{
    let Shared {
        mut desk,
        mut held,
        spare: _,
    } = shared;
    'tenants: while let Some(jobs) = held.pop() {
        give_all(&mut desk, jobs);
    }
    held.destroy_empty();
    desk.finish().end();
}

//! The jobs that tenants hold: how one is found, how it gets its cells, and how all cells go back.
ghost use Rattle.std.specs.Prelude.{◌≡◌, ◌<◌, ◌≤◌, List, [], ◌∷◌, ◌++◌, length, map, replicate, vec_capacity};
ghost use Rattle.camelot_values.specs.Names.{place_among};
ghost use Rattle.tenant_desk.specs.Desk.{HasRoom};
ghost use Rattle.tenant_service.specs.declared.holding.Holding.{Holding as DeclaredHolding};
ghost use Rattle.tenant_service.specs.Granting.{names_of, GrantIs};
ghost use Rattle.tenant_service.specs.Closing.{AllOut, AreLast};

use crate::holding::{Holding, Started};
use job_world::Call;
use std::alloc::Global;
use tenant_desk::{Ask, TenantDesk};

/// A vector for each of so many tenants, with no job.
pub(crate) fn fill<'a>(
    alloc: Global,
    mut held: Vec<Vec<Holding<'a>>>,
    count: usize,
) -> Vec<Vec<Holding<'a>>>
    requires none { held.items ≡ [] }
    requires room { count ≤ vec_capacity held }
    ensures { map (λ v. v.items) result.items ≡ replicate count [] }
{
    'tenants: for tenant in 0..count {
        held.push_reserved(Vec::new(alloc));
    }
    held
}

/// The place of the job of this name.
pub(crate) fn place_of(held: &[Holding<'_>], name: &[u8]) -> Option<usize>
    ensures { result ≡ place_among (names_of held.now) name.now }
{
    'jobs: for (at, job) in held.iter().enumerate() {
        if job.name == name {
            return Some(at);
        }
    }
    None
}

/// The size of a call's lease, which is at least one cell.
pub(crate) fn size_of(call: &Call) -> u64
    ensures some { 1 ≤ result }
    ensures same { 1 ≤ call.now.needs.lease → result ≡ call.now.needs.lease }
{
    call.needs.lease.max(1)
}

/// Asks for this many cells for a job, which is held in them behind the others.
pub(crate) fn grant<'a>(
    desk: &mut TenantDesk,
    held: &mut Vec<Holding<'a>>,
    tenant: u32,
    name: &'a [u8],
    call: Call,
    size: u64,
) -> Started
    requires there { tenant < length desk.old.pieces }
    requires some { 1 ≤ size }
    requires few { HasRoom desk.old tenant }
    requires space { length held.old.items < vec_capacity held.old }
    ensures { GrantIs desk.old desk.new held.old.items held.new.items tenant name.now call size result }
{
    match desk.ask(tenant, size) {
        Ask::Granted(lease) => {
            let first = lease.first();
            held.push_reserved(Holding { name, call, lease });
            Started::Granted { first, size }
        }
        Ask::Over { held, size, budget } => Started::Over { held, size, budget },
        Ask::Full { need, largest } => Started::Full { need, largest },
    }
}

/// Gives back the cells of all jobs of the last tenant that has some.
pub(crate) fn give_all(desk: &mut TenantDesk, mut jobs: Vec<Holding<'_>>)
    requires last { AreLast desk.old jobs.items }
    ensures { (before : List (List DeclaredHolding)) → AllOut desk.old (before ++ jobs.entry.items ∷ []) → AllOut desk.new before }
{
    'jobs: while let Some(job) = jobs.pop() {
        let Holding {
            name: _,
            call: _,
            lease,
        } = job;
        desk.kept();
        desk.give(lease);
    }
    jobs.destroy_empty();
}

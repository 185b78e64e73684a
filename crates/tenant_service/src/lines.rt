//! The lines of a script of tenants, done one after the other.
ghost use Rattle.std.specs.Prelude.{◌≡◌, ℕ, List, ◌≤◌, length, map, MatchResult, OnOk};
ghost use Rattle.camelot_values.specs.Names.{AreDistinct};
ghost use Rattle.tenant_script.specs.Tenants.{AStart, AFinish, tenant_names, start_count};
ghost use Rattle.tenant_script.specs.Words.{entry_view, tenant_view};
ghost use Rattle.script_plans.specs.Fates.{Fate};
ghost use Rattle.script_plans.specs.Rows.{AreRows, row_of, row_among, row_program};
ghost use Rattle.tenant_service.specs.Rooms.{Room, Starts, Finishes};
ghost use Rattle.tenant_service.specs.Replies.{Rooms};
ghost use Rattle.tenant_service.specs.Scripts.{program_named, first_rooms};
ghost use Rattle.tenant_service.specs.Holding.{AreRooms, IsFateOf};
ghost use Rattle.tenant_service.specs.Steps.{StandsForRooms, HoldsFewer, IsDone};
ghost use Rattle.tenant_service.specs.Running.{AllDone, AreReady, EntryDone, HoldsRooms, IsReady, IsTold, LineDone, StartDone, job};

use crate::holding::Shared;
use crate::numbers::number_of;
use crate::rooms::{finish, start};
use crate::texts::{push_finished, push_started};
use job_world::Call;
use licence::Licence;
use run_reports::JobCause;
use script_plans::{Row, call};
use std::alloc::{AllocError, Global};
use tenant_script::{Tenant, TenantEntry};

// Starts a job and writes the reply.
fn answer_start<'a>(
    shared: &mut Shared<'a>,
    out: &mut Vec<u8>,
    licences: &[Licence],
    number: u32,
    tenant: &[u8],
    name: &'a [u8],
    asked: Result<Call, JobCause>,
) -> Result<(), AllocError>
    requires rooms { StandsForRooms licences.now shared.old }
    requires few { HoldsFewer shared.old number 4096 }
    ensures { (rs : List Room) (fuel : ℕ) (fate : Fate) → AreRooms licences.now shared.old rs → IsFateOf licences.now fuel asked fate
        → MatchResult result (λ _. IsDone licences.now shared.old shared.new rs number (Starts name.now fuel fate)
        (IsTold tenant.now out.old.items out.new.items)) (λ _. StandsForRooms licences.now shared.new) }
{
    let told = start(shared, licences, number, name, asked)?;
    push_started(out, tenant, name, &told)?;
    Ok(())
}

// Finishes a job and writes the reply.
fn answer_finish<'a>(
    alloc: Global,
    shared: &mut Shared<'a>,
    out: &mut Vec<u8>,
    room: &mut Vec<u8>,
    licences: &[Licence],
    number: u32,
    tenant: &[u8],
    name: &[u8],
) -> Result<(), AllocError>
    requires rooms { StandsForRooms licences.now shared.old }
    requires few { HoldsFewer shared.old number 4097 }
    ensures { (rs : List Room) → AreRooms licences.now shared.old rs
        → MatchResult result (λ _. IsDone licences.now shared.old shared.new rs number (Finishes name.now)
        (IsTold tenant.now out.old.items out.new.items)) (λ _. StandsForRooms licences.now shared.new) }
{
    let told = finish(alloc, shared, licences, number, name)?;
    push_finished(alloc, out, room, licences, tenant, name, &told)?;
    Ok(())
}

// The line of a start.
fn run_start<'a>(
    alloc: Global,
    shared: &mut Shared<'a>,
    out: &mut Vec<u8>,
    tenants: &[Tenant<'_>],
    licences: &[Licence],
    rows: &[Row<'_>],
    tenant: &[u8],
    name: &'a [u8],
    program: &[u8],
    entry: &[u8],
    fuel: u64,
    args: &[u8],
) -> Result<(), AllocError>
    requires programs { AreRows licences.now (map row_of rows.now) }
    requires few { length tenants.now ≤ 64 }
    requires distinct { AreDistinct (tenant_names (map tenant_view tenants.now)) }
    requires ready { IsReady licences.now (map tenant_view tenants.now) shared.old
        (AStart tenant.now (job name.now program.now entry.now fuel args.now)) }
    ensures { (rooms : Rooms) → HoldsRooms licences.now (map tenant_view tenants.now) rooms shared.old
        → MatchResult result (λ _. StartDone licences.now (map row_of rows.now) (map tenant_view tenants.now) rooms tenant.now
        (job name.now program.now entry.now fuel args.now) out.old.items shared.new out.new.items) (λ _. StandsForRooms licences.now shared.new) }
{
    let number = number_of(tenants, tenant);
    let asked = call(alloc, licences, rows, program, entry, args, fuel)?;
    answer_start(shared, out, licences, number, tenant, name, asked)?;
    Ok(())
}

// The line of a finish.
fn run_finish<'a>(
    alloc: Global,
    shared: &mut Shared<'a>,
    out: &mut Vec<u8>,
    room: &mut Vec<u8>,
    tenants: &[Tenant<'_>],
    licences: &[Licence],
    tenant: &[u8],
    name: &[u8],
) -> Result<(), AllocError>
    requires few { length tenants.now ≤ 64 }
    requires distinct { AreDistinct (tenant_names (map tenant_view tenants.now)) }
    requires ready { IsReady licences.now (map tenant_view tenants.now) shared.old (AFinish tenant.now name.now) }
    ensures { (rooms : Rooms) → HoldsRooms licences.now (map tenant_view tenants.now) rooms shared.old
        → MatchResult result (λ _. LineDone licences.now (map tenant_view tenants.now) rooms tenant.now (Finishes name.now)
        out.old.items shared.new out.new.items) (λ _. StandsForRooms licences.now shared.new) }
{
    let number = number_of(tenants, tenant);
    answer_finish(alloc, shared, out, room, licences, number, tenant, name)?;
    Ok(())
}

// The line of an entry.
fn run_entry<'a>(
    alloc: Global,
    shared: &mut Shared<'a>,
    out: &mut Vec<u8>,
    room: &mut Vec<u8>,
    tenants: &[Tenant<'_>],
    licences: &[Licence],
    rows: &[Row<'_>],
    entry: &TenantEntry<'a>,
) -> Result<(), AllocError>
    requires programs { AreRows licences.now (map row_of rows.now) }
    requires few { length tenants.now ≤ 64 }
    requires distinct { AreDistinct (tenant_names (map tenant_view tenants.now)) }
    requires ready { IsReady licences.now (map tenant_view tenants.now) shared.old (entry_view entry.now) }
    ensures { (rooms : Rooms) → HoldsRooms licences.now (map tenant_view tenants.now) rooms shared.old
        → MatchResult result (λ _. EntryDone licences.now (map row_of rows.now) (map tenant_view tenants.now) rooms (entry_view entry.now)
        out.old.items shared.new out.new.items) (λ _. StandsForRooms licences.now shared.new) }
{
    match *entry {
        TenantEntry::Program { .. } => Ok(()),
        TenantEntry::Start {
            tenant,
            name,
            program,
            entry,
            fuel,
            args,
        } => run_start(
            alloc, shared, out, tenants, licences, rows, tenant, name, program, entry, fuel, args,
        ),
        TenantEntry::Finish { tenant, name } => run_finish(
            alloc, shared, out, room, tenants, licences, tenant, name,
        ),
    }
}

/// Does all lines of a script: what each start and each finish is told is written at the end. `AllocError` where memory
/// runs out.
pub(crate) fn run_lines<'a>(
    alloc: Global,
    shared: &mut Shared<'a>,
    out: &mut Vec<u8>,
    tenants: &[Tenant<'_>],
    licences: &[Licence],
    rows: &[Row<'_>],
    items: &[TenantEntry<'a>],
) -> Result<(), AllocError>
    requires programs { AreRows licences.now (map row_of rows.now) }
    requires named { (name : List ℕ) → program_named (map entry_view items.now) name ≡ row_program (row_among (map row_of rows.now) name) }
    requires few { length tenants.now ≤ 64 }
    requires distinct { AreDistinct (tenant_names (map tenant_view tenants.now)) }
    requires ready { AreReady (map tenant_view tenants.now) (map entry_view items.now) }
    requires starts { start_count (map entry_view items.now) ≤ 4096 }
    requires begun { HoldsRooms licences.now (map tenant_view tenants.now) (first_rooms (map tenant_view tenants.now)) shared.old }
    ensures done { OnOk result (AllDone licences.now (map entry_view items.now) (map tenant_view tenants.now)
        out.old.items shared.new out.new.items) }
    ensures stands { StandsForRooms licences.now shared.new }
{
    let mut room = Vec::new(alloc);
    'items: for item in items {
        run_entry(alloc, shared, out, &mut room, tenants, licences, rows, item)?;
    }
    Ok(())
}

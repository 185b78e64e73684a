//! Scripts of tenants served: from the bytes of a script to what is written for it.
ghost use Rattle.std.specs.Prelude.{◌≡◌, ◌≤◌, ◌<◌, ℕ, List, length, map, IfOk, MatchResult};
ghost use Rattle.camelot_values.specs.Names.{AreDistinct};
ghost use Rattle.script_plans.specs.Rows.{AreRows, row_of, row_among, row_program};
ghost use Rattle.tenant_script.specs.Tenants.{tenant_names, start_count};
ghost use Rattle.tenant_script.specs.Words.{entry_view, script_view, tenant_view};
ghost use Rattle.tenant_service.specs.Scripts.{program_named, first_rooms};
ghost use Rattle.tenant_service.specs.Service.{IsReplied};
ghost use Rattle.tenant_service.specs.Steps.{StandsForRooms};
ghost use Rattle.tenant_service.specs.Running.{AreReady, HoldsRooms};
ghost use Rattle.tenant_service.specs.Handed.{IsRefusedFor};
ghost use Rattle.tenant_service.specs.Written.{CanBeServed, IsAnswerTo, IsWritten, tenants_fault};

use crate::ends::push_ends;
use crate::holding::Shared;
use crate::lines::run_lines;
use crate::numbers::budgets_of;
use crate::programs::{license_programs, push_programs};
use crate::rooms::{close_rooms, open_rooms};
use cell_span::Span;
use licence::Licence;
use run_reports::ProgramLine;
use script_plans::Row;
use std::alloc::{AllocError, Global};
use std::thread::Threads;
use stops::Stop;
use tenant_script::laws::law_of_tenant_scripts;
use tenant_script::{Tenant, TenantEntry, TenantFault, TenantScript, read_tenants};
use thiserror::Error;

/// Why an input isn't served.
#[derive(Clone, Copy, Debug, PartialEq, Eq, Error)]
pub enum TenantsFault {
    /// It is no script of tenants: its first wrong line, and what is wrong with it.
    #[error("{0}")]
    NoScript(TenantFault),
    /// Memory ran out.
    #[error("out of memory")]
    Memory,
}

// Room for a line, so that the text of many lines is seldom moved.
const LINE_ROOM: usize = 64;

// Want of memory is one wherever it is met.
fn tenants_fault(stop: Stop<TenantFault>) -> TenantsFault
    ensures { result ≡ tenants_fault stop }
{
    match stop {
        Stop::Fault(fault) => TenantsFault::NoScript(fault),
        Stop::Memory => TenantsFault::Memory,
    }
}

// Writes what comes of a script, in rooms of its tenants.
fn write_script<'a>(
    alloc: Global,
    shared: &mut Shared<'a>,
    tenants: &[Tenant<'_>],
    items: &[TenantEntry<'a>],
    licences: &[Licence],
    rows: &[Row<'_>],
    lines: &[ProgramLine],
) -> Result<Vec<u8>, AllocError>
    requires programs { AreRows licences.now (map row_of rows.now) }
    requires named { (name : List ℕ) → program_named (map entry_view items.now) name ≡ row_program (row_among (map row_of rows.now) name) }
    requires few { length tenants.now ≤ 64 }
    requires distinct { AreDistinct (tenant_names (map tenant_view tenants.now)) }
    requires ready { AreReady (map tenant_view tenants.now) (map entry_view items.now) }
    requires starts { start_count (map entry_view items.now) ≤ 4096 }
    requires begun { HoldsRooms licences.now (map tenant_view tenants.now) (first_rooms (map tenant_view tenants.now)) shared.old }
    ensures written { IfOk result (λ text. IsWritten (map tenant_view tenants.now) (map entry_view items.now) lines.now text.items) }
    ensures stands { StandsForRooms licences.now shared.new }
{
    let mut out = Vec::with_capacity(alloc, LINE_ROOM.saturating_mul(items.len()))?;
    push_programs(alloc, &mut out, items, lines)?;
    run_lines(alloc, shared, &mut out, tenants, licences, rows, items)?;
    push_ends(&mut out, shared, tenants)?;
    Ok(out)
}

// Serves a script that was read.
fn serve_read<R: Threads + Sync>(
    rt: &R,
    alloc: Global,
    script: &TenantScript<'_>,
) -> Result<Vec<u8>, AllocError>
    requires { CanBeServed (script_view script.now) }
    ensures { IfOk result (λ text. IsAnswerTo (script_view script.now) text.items) }
{
    let programs = license_programs(rt, alloc, &script.items)?;
    let budgets = budgets_of(alloc, &script.tenants)?;
    let span = Span::new(alloc, script.arena)?;
    let mut shared = open_rooms(alloc, span, budgets)?;
    let answer = write_script(
        alloc,
        &mut shared,
        &script.tenants,
        &script.items,
        &programs.licences,
        &programs.rows,
        &programs.lines,
    );
    close_rooms(shared);
    answer
}

/// Serves a script of tenants. There is a line for each of its programs, which is compiled from its source or accepted
/// from its bundle's bytes alone. Then comes a reply to each start and each finish, in order. The last lines tell what is
/// free of each tenant's budget. Each tenant has a piece of the arena of its own, and a job runs to its end when it is
/// finished. The input has fewer than 2^32 bytes.
///
/// # Errors
///
/// [`TenantsFault::NoScript`] exactly where the input is no script of tenants, with its first wrong line.
/// [`TenantsFault::Memory`] where memory runs out.
pub fn serve_tenants<R: Threads + Sync>(
    rt: &R,
    alloc: Global,
    input: &[u8],
) -> Result<Vec<u8>, TenantsFault>
    requires { length input.now < 4294967296 }
    // What is answered is what comes of the script that the input is the text of; an input is refused for its cause.
    ensures { MatchResult result (λ text. IsReplied input.now text.items) (IsRefusedFor input.now) }
{
    law_of_tenant_scripts();
    match read_tenants(alloc, input) {
        Ok(script) => match serve_read(rt, alloc, &script) {
            Ok(text) => Ok(text),
            Err(_) => Err(TenantsFault::Memory),
        },
        Err(stop) => Err(tenants_fault(stop)),
    }
}

//! The text of a tenant script.
ghost use Rattle.std.specs.Prelude.{◌≡◌, ◌++◌, ◌∷◌, ℕ, List, [], map, flat_map, IfOk, OnOk};
ghost use Rattle.text_lines.specs.Lines.{text_of_lines};
ghost use Rattle.job_script.specs.Scripts.{Job};
ghost use Rattle.tenant_script.specs.Tenants.{TenantScript as PlainScript};
ghost use Rattle.tenant_script.specs.Text.{IsTenantsText, call_part, finish_line, start_line, entry_text, tenant_text, tenants_text};
ghost use Rattle.tenant_script.specs.Words.{tenant_view, entry_view, script_view};

use super::types::{Tenant, TenantEntry, TenantScript};
use job_script::{push_args, push_count, push_program, push_sized, push_word};
use std::alloc::{AllocError, Global};

// Writes the line of a tenant.
#[tactic(auto, using(crate::proofs::Joining::tenant_written))]
fn push_tenant(out: &mut Vec<u8>, tenant: &Tenant<'_>) -> Result<(), AllocError>
    ensures { OnOk result (out.new.items ≡ out.old.items ++ tenant_text (tenant_view tenant.now)) }
{
    out.extend_from_slice(b"tenant")?;
    push_word(out, tenant.name)?;
    push_count(out, tenant.cells as u64)?;
    out.extend_from_slice(b"\n")
}

// Writes what the line of a start has behind its tenant.
#[tactic(auto, using(crate::proofs::Joining::call_written))]
fn push_call(
    out: &mut Vec<u8>,
    name: &[u8],
    program: &[u8],
    entry: &[u8],
    fuel: u64,
    args: &[u8],
) -> Result<(), AllocError>
    ensures { OnOk result (out.new.items ≡ out.old.items ++ call_part
        (record { name = name.now; program = program.now; entry = entry.now; fuel = fuel; args = args.now })) }
{
    push_word(out, name)?;
    push_word(out, program)?;
    push_word(out, entry)?;
    push_count(out, fuel)?;
    push_args(out, args)
}

// Writes the line of a start.
#[tactic(auto, using(crate::proofs::Joining::start_written))]
fn push_start(
    out: &mut Vec<u8>,
    tenant: &[u8],
    name: &[u8],
    program: &[u8],
    entry: &[u8],
    fuel: u64,
    args: &[u8],
) -> Result<(), AllocError>
    ensures { OnOk result (out.new.items ≡ out.old.items ++ text_of_lines (start_line tenant.now
        (record { name = name.now; program = program.now; entry = entry.now; fuel = fuel; args = args.now }) ∷ [])) }
{
    out.extend_from_slice(b"start")?;
    push_word(out, tenant)?;
    push_call(out, name, program, entry, fuel, args)?;
    out.extend_from_slice(b"\n")
}

// Writes the line of a finish.
#[tactic(auto, using(crate::proofs::Joining::finish_written))]
fn push_finish(out: &mut Vec<u8>, tenant: &[u8], name: &[u8]) -> Result<(), AllocError>
    ensures { OnOk result (out.new.items ≡ out.old.items ++ text_of_lines (finish_line tenant.now name.now ∷ [])) }
{
    out.extend_from_slice(b"finish")?;
    push_word(out, tenant)?;
    push_word(out, name)?;
    out.extend_from_slice(b"\n")
}

// Writes a program, or the line of a start or of a finish.
fn push_entry(out: &mut Vec<u8>, entry: &TenantEntry<'_>) -> Result<(), AllocError>
    ensures { OnOk result (out.new.items ≡ out.old.items ++ entry_text (entry_view entry.now)) }
{
    match *entry {
        TenantEntry::Program {
            name,
            language,
            text,
        } => push_program(out, name, language, text),
        TenantEntry::Start {
            tenant,
            name,
            program,
            entry,
            fuel,
            args,
        } => push_start(out, tenant, name, program, entry, fuel, args),
        TenantEntry::Finish { tenant, name } => push_finish(out, tenant, name),
    }
}

// Writes all tenants.
#[tactic(auto, using(job_script::specs::WritingLaws::one_mapped, job_script::specs::WritingLaws::all_mapped))]
fn push_tenants(out: &mut Vec<u8>, tenants: &[Tenant<'_>]) -> Result<(), AllocError>
    ensures { OnOk result (out.new.items ≡ out.old.items ++ flat_map tenant_text (map tenant_view tenants.now)) }
{
    'tenants: for tenant in tenants {
        push_tenant(out, tenant)?;
    }
    Ok(())
}

// Writes all programs, starts and finishes.
#[tactic(auto, using(job_script::specs::WritingLaws::one_mapped, job_script::specs::WritingLaws::all_mapped))]
fn push_entries(out: &mut Vec<u8>, entries: &[TenantEntry<'_>]) -> Result<(), AllocError>
    ensures { OnOk result (out.new.items ≡ out.old.items ++ flat_map entry_text (map entry_view entries.now)) }
{
    'entries: for entry in entries {
        push_entry(out, entry)?;
    }
    Ok(())
}

/// The text of a tenant script. `AllocError` where memory runs out.
#[tactic(auto, using(crate::proofs::Joining::script_written, crate::proofs::Joining::same_bytes))]
pub fn write_tenants(alloc: Global, script: &TenantScript<'_>) -> Result<Vec<u8>, AllocError>
    // It is the text of this script.
    ensures text { IfOk result (λ text. text.items ≡ tenants_text (script_view script.now)) }
    // Where the script was read, these are the bytes that it was read from.
    ensures same { (bytes : List ℕ) → IsTenantsText bytes (script_view script.now) → IfOk result (λ text. text.items ≡ bytes) }
{
    let mut out = Vec::new(alloc);
    push_sized(&mut out, b"arena", script.arena as u64)?;
    push_tenants(&mut out, &script.tenants)?;
    push_entries(&mut out, &script.items)?;
    Ok(out)
}

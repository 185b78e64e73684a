//! The programs of a script of tenants: their licences, and a line for each.
ghost use Rattle.std.specs.Prelude.{◌≡◌, ◌++◌, ◌∷◌, ◌≤◌, List, length, map, OnOk, IfOk};
ghost use Rattle.std.specs.List.{AllByRecursion};
ghost use Rattle.job_script.specs.Words.{entry_of};
ghost use Rattle.script_plans.specs.Answers.{licensing_of};
ghost use Rattle.tenant_script.specs.Tenants.{Entry as PlainEntry, program_names};
ghost use Rattle.tenant_script.specs.Words.{entry_view};
ghost use Rattle.tenant_service.specs.Running.{AreKnown, ItemIsShort, programs_in};
ghost use Rattle.tenant_service.specs.Scripts.{programs_text};

use job_script::Entry;
use run_reports::{ProgramLine, push_program};
use script_plans::{LicensedPrograms, license_all};
use std::alloc::{AllocError, Global};
use std::thread::Threads;
use tenant_script::TenantEntry;

// Adds an entry that is a program.
#[tactic(auto, using(crate::proofs::Licensing::program_more))]
fn add_program<'a>(programs: &mut Vec<Entry<'a>>, item: &TenantEntry<'a>) -> Result<(), AllocError>
    ensures { (left : List PlainEntry) → OnOk result (map entry_of programs.new.items ++ programs_in left
        ≡ map entry_of programs.old.items ++ programs_in (entry_view item.now ∷ left)) }
{
    match *item {
        TenantEntry::Program {
            name,
            language,
            text,
        } => {
            programs.push(Entry::Program {
                name,
                language,
                text,
            })?;
            Ok(())
        }
        TenantEntry::Start { .. } => Ok(()),
        TenantEntry::Finish { .. } => Ok(()),
    }
}

// The programs alone.
#[tactic(auto, using(crate::proofs::Licensing::no_more))]
fn programs_of<'a>(alloc: Global, items: &[TenantEntry<'a>]) -> Result<Vec<Entry<'a>>, AllocError>
    ensures { IfOk result (λ programs. map entry_of programs.items ≡ programs_in (map entry_view items.now)) }
{
    let mut programs = Vec::new(alloc);
    'items: for item in items {
        add_program(&mut programs, item)?;
    }
    Ok(programs)
}

/// The programs among these entries, at most 64, with their licences. Each text has fewer than 2^32 bytes. `AllocError`
/// where memory runs out.
pub(crate) fn license_programs<'a, R: Threads + Sync>(
    rt: &R,
    alloc: Global,
    items: &[TenantEntry<'a>],
) -> Result<LicensedPrograms<'a>, AllocError>
    requires short { AllByRecursion (ItemIsShort 4294967295) (map entry_view items.now) }
    requires few { length (program_names (map entry_view items.now)) ≤ 64 }
    ensures { IfOk result (λ p. AreKnown (map entry_view items.now) (licensing_of p)) }
{
    let programs = programs_of(alloc, items)?;
    let licensed = license_all(rt, alloc, &programs, 1)?;
    Ok(licensed)
}

// The line of an entry that is a program, and the lines that are left for the entries behind it.
#[tactic(auto, using(crate::proofs::Licensing::line_here))]
fn push_program_of<'a>(
    alloc: Global,
    out: &mut Vec<u8>,
    item: &TenantEntry<'_>,
    lines: &'a [ProgramLine],
) -> Result<&'a [ProgramLine], AllocError>
    ensures { (left : List PlainEntry)
        → IfOk result (λ rest. out.new.items ++ programs_text left rest.now ≡ out.old.items ++ programs_text
        (entry_view item.now ∷ left) lines.now) }
{
    match *item {
        TenantEntry::Program { name, .. } => match lines {
            [line, others @ ..] => {
                push_program(alloc, out, name, line)?;
                Ok(others)
            }
            [] => Ok(lines),
        },
        TenantEntry::Start { .. } => Ok(lines),
        TenantEntry::Finish { .. } => Ok(lines),
    }
}

/// Writes a line for each program at the end. `AllocError` where memory runs out.
#[tactic(auto, using(crate::proofs::Licensing::no_more))]
pub(crate) fn push_programs(
    alloc: Global,
    out: &mut Vec<u8>,
    items: &[TenantEntry<'_>],
    lines: &[ProgramLine],
) -> Result<(), AllocError>
    ensures { OnOk result (out.new.items ≡ out.old.items ++ programs_text (map entry_view items.now) lines.now) }
{
    let mut rest = lines;
    'items: for item in items {
        rest = push_program_of(alloc, out, item, rest)?;
    }
    Ok(())
}

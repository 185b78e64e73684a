//! Scripts whose jobs run in slices, on one thread.
ghost use Rattle.std.specs.Prelude.{◌≡◌, ◌<◌, ◌≤◌, ◌++◌, length, IfOk, OnOk, MatchResult};
ghost use Rattle.std.specs.List.{AllByRecursion, range_with_len};
ghost use Rattle.cell_machine.specs.Endings.{EndsWith};
ghost use Rattle.job_world.specs.Plans.{leases_of};
ghost use Rattle.job_workers.specs.Ended.{AllEnded};
ghost use Rattle.lease_desk.specs.Journal.{AreSizes};
ghost use Rattle.job_script.specs.Scripts.{IsScript, IsUpTo};
ghost use Rattle.job_script.specs.Text.{EntryIsShort};
ghost use Rattle.job_script.specs.Words.{script_of};
ghost use Rattle.script_plans.specs.Lines.{ArePlanned, lines_of, run_numbers};
ghost use Rattle.script_service.specs.Handed.{IsRefused};
ghost use Rattle.script_service.specs.Sliced.{IsSlicedReport, slices_text, sliced_text};
ghost use Rattle.script_service.specs.SlicedSteps.{IsSlicedOf};
ghost use Rattle.sliced_jobs.specs.Slices.{AreFuelled, AreSlices};

use crate::reporting::outcome_of;
use crate::service::{ServeFault, serve_fault};
use cell_machine::Ending;
use cell_span::Span;
use job_script::laws::{law_of_lengths, law_of_scripts};
use job_script::{Script, read_script};
use job_workers::Home;
use job_world::Jobs;
use run_reports::{push_answers, push_end, push_wide};
use script_plans::laws::law_of_short;
use script_plans::{Plans, plan_script};
use sliced_jobs::{SlicedJobs, serve_sliced};
use std::alloc::{AllocError, Global};
use std::thread::Threads;

// How the runs ended, and in how many slices.
#[derive(Drop)]
struct Ended {
    endings: Vec<Option<Ending>>,
    slices: u128,
}

// Runs all planned jobs in slices in a new arena of so many cells, which is ended.
fn run_in_slices(alloc: Global, arena: u32, jobs: &Jobs, steps: u64) -> Result<Ended, AllocError>
    requires arena { 1 ≤ arena }
    requires few_cells { arena ≤ 2147483648 }
    requires few_jobs { length jobs.now.plans ≤ 4096 }
    requires sizes { AreSizes arena (leases_of jobs.now.plans) }
    requires some { 1 ≤ steps }
    requires fuels { AreFuelled jobs.now }
    ensures ended { IfOk result (λ e. AllEnded EndsWith jobs.now e.endings.items) }
    ensures slices { IfOk result (λ e. AreSlices steps jobs.now e.slices) }
{
    let span = Span::new(alloc, arena)?;
    match serve_sliced(alloc, span, jobs, steps) {
        Ok(
            SlicedJobs {
                endings,
                slices,
                span,
            },
        ) => {
            span.end();
            Ok(Ended { endings, slices })
        }
        Err(Home { span }) => {
            span.end();
            Err(AllocError)
        }
    }
}

// Writes the line that says how many slices were made.
fn push_slices(out: &mut Vec<u8>, slices: u128) -> Result<(), AllocError>
    ensures { OnOk result (out.new.items ≡ out.old.items ++ slices_text slices) }
{
    push_wide(out, b"slices ", slices)?;
    out.extend_from_slice(b"\n")
}

// The text of a script, from its plans and the endings of its runs in so many slices.
fn text_of(
    alloc: Global,
    script: &Script<'_>,
    plans: &Plans,
    endings: &[Option<Ending>],
    slices: u128,
) -> Result<Vec<u8>, AllocError>
    requires numbers { run_numbers plans.now.plans.items ≡ range_with_len 0 (length plans.now.jobs.plans) }
    requires ended { AllEnded EndsWith plans.now.jobs endings.now }
    ensures { (planned : ArePlanned (script_of script.now).arena (script_of script.now).items plans.now.jobs plans.now.plans.items plans.now.asked.items)
        → IfOk result (λ text. text.items ≡ sliced_text (script_of script.now).items plans.now.programs.items
        (lines_of (script_of script.now).arena (script_of script.now).items planned.fates) slices (script_of script.now).arena) }
{
    let outcome = outcome_of(alloc, script.arena, plans, &[], endings)?;
    let mut out = Vec::new(alloc);
    push_answers(alloc, &mut out, script, plans.jobs.licences(), &outcome)?;
    push_slices(&mut out, slices)?;
    push_end(&mut out, script.arena as u64)?;
    Ok(out)
}

// Serves a script that was read, in slices.
#[tactic(auto, using(crate::proofs::Handing::some_cells, crate::proofs::Handing::few_cells))]
fn slice_read<R: Threads + Sync>(
    rt: &R,
    alloc: Global,
    script: Script<'_>,
    steps: u64,
) -> Result<Vec<u8>, AllocError>
    requires script { IsScript (script_of script) }
    requires short { AllByRecursion (EntryIsShort 4294967295) (script_of script).items }
    requires some { 1 ≤ steps }
    ensures { IfOk result (λ text. IsSlicedOf steps (script_of script.entry) text.items) }
{
    let plans = plan_script(rt, alloc, &script)?;
    let ended = run_in_slices(alloc, script.arena, &plans.jobs, steps)?;
    let text = text_of(alloc, &script, &plans, &ended.endings, ended.slices)?;
    Ok(text)
}

/// Serves a script on one thread, in slices of so many steps, from 1 to 1,000,000,000. Between its slices each job is a
/// text, and its cells may lie elsewhere. What comes of programs and jobs is what [`crate::serve_script`] tells; behind
/// their lines stands how many slices were made. The input has fewer than 2^32 bytes. Licences are asked for, and
/// arguments read, by as many threads as the script has workers.
///
/// # Errors
///
/// Those of [`crate::run_script`].
pub fn slice_script<R: Threads + Sync>(
    rt: &R,
    alloc: Global,
    input: &[u8],
    steps: u64,
) -> Result<Vec<u8>, ServeFault>
    requires short { length input.now < 4294967296 }
    requires steps { IsUpTo 1000000000 steps }
    // What is answered is what comes of the script that the input is the text of; an input is refused for its cause.
    ensures { MatchResult result (λ text. IsSlicedReport steps input.now text.items) (IsRefused input.now) }
{
    law_of_scripts();
    law_of_lengths();
    law_of_short();
    match read_script(alloc, input) {
        Ok(script) => match slice_read(rt, alloc, script, steps) {
            Ok(text) => Ok(text),
            Err(_) => Err(ServeFault::Memory),
        },
        Err(stop) => Err(serve_fault(stop)),
    }
}

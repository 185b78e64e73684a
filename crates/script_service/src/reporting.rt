//! The report of a script that was served.
ghost use Rattle.std.specs.Prelude.{◌≡◌, List, length, IfOk};
ghost use Rattle.std.specs.List.{range_with_len};
ghost use Rattle.job_script.specs.Scripts.{Script as PlainScript};
ghost use Rattle.job_script.specs.Words.{script_of};
ghost use Rattle.cell_machine.specs.Endings.{EndsWith};
ghost use Rattle.job_workers.specs.Ended.{AllEnded};
ghost use Rattle.run_reports.specs.Report.{report_text};
ghost use Rattle.run_reports.specs.Summary.{summary_text};
ghost use Rattle.run_reports.specs.Told.{IsTold};
ghost use Rattle.script_plans.specs.Lines.{ArePlanned, run_numbers};
ghost use Rattle.script_service.specs.Service.{report_of, summary_of, told_of};
ghost use Rattle.script_service.specs.Counting.{Counts};
ghost use Rattle.script_service.specs.Handed.{IsHanded, service_of};

use crate::counting::Tallied;
use crate::lines::plan_lines;
use crate::service::ServedScript;
use cell_machine::Ending;
use cell_span::Span;
use job_script::Script;
use job_workers::Kept;
use lease_desk::Event;
use run_reports::{Outcome, report, summary};
use script_plans::Plans;
use std::alloc::{AllocError, Global};
use std::mem::forget;

/// What serving a script leaves in memory behind its report: what was planned, the journal, and the values. Dropping it
/// gives all of it back, block by block.
#[derive(Drop)]
pub struct Leftovers {
    plans: Plans,
    journal: Vec<Event>,
    endings: Vec<Option<Ending>>,
}

impl Leftovers {
    /// Leaves the memory to the system, for a process that ends next: it isn't given back before.
    pub fn leave(self) {
        forget(self);
    }
}

/// The report of a script that was served, the whole arena, and what is left beside them. It can't be dropped, as its
/// arena can't.
pub struct ReportedScript {
    /// The report.
    pub text: Vec<u8>,
    /// The arena, as the runs left it.
    pub arena: Span,
    /// What else is left in memory. No contract speaks of it.
    pub left: Leftovers,
}

// What came of a script with an arena of so many cells, from its plans, the journal and what is kept of the endings of
// its runs.
pub(crate) fn outcome_of<'a, K: Kept>(
    alloc: Global,
    arena: u32,
    plans: &'a Plans,
    journal: &'a [Event],
    endings: &'a [Option<K>],
) -> Result<Outcome<'a, K>, AllocError>
    requires numbers { run_numbers plans.now.plans.items ≡ range_with_len 0 (length plans.now.jobs.plans) }
    requires ended { AllEnded K.keeps plans.now.jobs endings.now }
    ensures { (script : PlainScript) (planned : ArePlanned script.arena script.items plans.now.jobs plans.now.plans.items plans.now.asked.items)
        → arena ≡ script.arena → IfOk result (λ outcome. IsTold K.keeps plans.now.jobs.licences outcome
        (told_of script plans.now.programs.items planned.fates journal.now)) }
{
    let jobs = plan_lines(alloc, &plans.jobs, arena, &plans.plans, endings)?;
    Ok(Outcome {
        programs: &plans.programs,
        jobs,
        asked: &plans.asked,
        journal,
        free: arena as u64,
    })
}

// The report of a script, from its plans, the endings of its runs and the journal.
fn report_plans(
    alloc: Global,
    script: &Script<'_>,
    plans: &Plans,
    journal: &[Event],
    endings: &[Option<Ending>],
) -> Result<Vec<u8>, AllocError>
    requires numbers { run_numbers plans.now.plans.items ≡ range_with_len 0 (length plans.now.jobs.plans) }
    requires ended { AllEnded EndsWith plans.now.jobs endings.now }
    ensures { (planned : ArePlanned (script_of script.now).arena (script_of script.now).items plans.now.jobs plans.now.plans.items plans.now.asked.items)
        → IfOk result (λ text. text.items ≡ report_text (script_of script.now).items
        (told_of (script_of script.now) plans.now.programs.items planned.fates journal.now)) }
{
    let outcome = outcome_of(alloc, script.arena, plans, journal, endings)?;
    let text = report(alloc, script, plans.jobs.licences(), &outcome)?;
    Ok(text)
}

/// The report of a script that was served. The arena is handed on. `AllocError` where memory runs out: the arena is
/// ended then.
pub fn report_served(
    alloc: Global,
    served: ServedScript<'_, Ending>,
) -> Result<ReportedScript, AllocError>
    requires { IsHanded EndsWith served }
    // It is the report of what comes of the script, by the fates of its jobs.
    ensures text { (handed : IsHanded EndsWith served.entry) → IfOk result (λ r. r.text.items ≡ report_of (service_of served.entry handed.planned.fates)) }
    // The arena is the one that was left by serving.
    ensures arena { IfOk result (λ r. r.arena ≡ served.entry.arena) }
{
    let ServedScript {
        script,
        plans,
        journal,
        endings,
        arena,
    } = served;
    match report_plans(alloc, &script, &plans, &journal, &endings) {
        Ok(text) => Ok(ReportedScript {
            text,
            arena,
            left: Leftovers {
                plans,
                journal,
                endings,
            },
        }),
        Err(fault) => {
            arena.end();
            Err(fault)
        }
    }
}

// The summary of a script with an arena of so many cells, from its plans and how its runs ended.
fn summarize_plans(
    alloc: Global,
    arena: u32,
    plans: &Plans,
    journal: &[Event],
    endings: &[Option<Tallied>],
) -> Result<Vec<u8>, AllocError>
    requires numbers { run_numbers plans.now.plans.items ≡ range_with_len 0 (length plans.now.jobs.plans) }
    requires ended { AllEnded Counts plans.now.jobs endings.now }
    ensures { (script : PlainScript) (planned : ArePlanned script.arena script.items plans.now.jobs plans.now.plans.items plans.now.asked.items)
        → arena ≡ script.arena → IfOk result (λ text. text.items ≡ summary_text (told_of script plans.now.programs.items planned.fates journal.now)) }
{
    let outcome = outcome_of(alloc, arena, plans, journal, endings)?;
    let text = summary(alloc, &outcome)?;
    Ok(text)
}

// The cells of a script's arena.
fn cells_of(script: &Script<'_>) -> u32
    ensures { result ≡ script.now.arena }
{
    script.arena
}

/// The summary of a script that was served, in one line. The arena is ended. `AllocError` where memory runs out: the
/// arena is ended then too.
pub fn summarize_served(
    alloc: Global,
    served: ServedScript<'_, Tallied>,
) -> Result<Vec<u8>, AllocError>
    requires { IsHanded Counts served }
    // It is the summary of what comes of the script, by the fates of its jobs.
    ensures { (handed : IsHanded Counts served.entry) → IfOk result (λ text. text.items ≡ summary_of (service_of served.entry handed.planned.fates)) }
{
    let ServedScript {
        script,
        plans,
        journal,
        endings,
        arena,
    } = served;
    let cells = cells_of(&script);
    arena.end();
    let text = summarize_plans(alloc, cells, &plans, &journal, &endings)?;
    Ok(text)
}

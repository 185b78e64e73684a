//! Laws of reports, as contracts of functions that do nothing.
ghost use Rattle.std.specs.Prelude.{◌≡◌, ℕ, List};
ghost use Rattle.cell_span.specs.Range.{Range};
ghost use Rattle.job_script.specs.Scripts.{IsScript, Job, Script};
ghost use Rattle.run_reports.specs.Told.{JobLine};
ghost use Rattle.run_reports.specs.Report.{job_text};
ghost use Rattle.script_plans.specs.Lines.{Agree, TellsOf};
ghost use Rattle.script_service.specs.Service.{IsReport, IsReportIn, IsService, IsSummary, Service};
ghost use Rattle.script_service.specs.Worlds.{IsOfWorld};

use script_plans::laws::{law_of_calls, law_of_fates, law_of_own_lines};

/// A script and a journal have one report: whoever serves the script, each program has its line and each job its own,
/// and nothing but the journal of the leases, where it is another one, can make another report.
pub fn law_of_reports()
    ensures { (input first second : List ℕ) (r : IsReport input first) (s : IsReport input second) → r.service.journal ≡ s.service.journal → first ≡ second }
{
    law_of_fates();
}

/// The bytes that the report has for a job depend on nothing else that stands in its script. Two scripts that agree
/// on the job, its program and the size of the arena have the same bytes for it, whatever other jobs and programs
/// they have.
pub fn law_of_own_texts()
    ensures { (one other : Script) (job : Job) (first second : JobLine) → Agree one other job
        → TellsOf one job first → TellsOf other job second → job_text job.name first ≡ job_text job.name second }
{
    law_of_own_lines();
}

/// The bytes of a report tell the journal: what is served of one input with one output has one journal, since no other
/// events have the same lines.
pub fn law_of_printed_journals()
    // A report has one journal.
    ensures one { (input output : List ℕ) (r s : IsReport input output) → r.service.journal ≡ s.service.journal }
    // It is that by which the arena is left.
    ensures left { (input output : List ℕ) (arena : Range) (r : IsReport input output) (s : IsReportIn input output arena)
        → r.service.journal ≡ s.service.journal }
{
    law_of_fates();
}

/// A drill of so many jobs has one summary, on however many workers.
pub fn law_of_summaries()
    ensures { (jobs workers other : ℕ) (first second : List ℕ) → IsSummary jobs workers first → IsSummary jobs other second → first ≡ second }
{
    law_of_fates();
}

/// What comes of a script is what a world of its jobs comes to. Behind some events of that world, in which each job's
/// machine steps in the one list of cells and nothing tests where its lease ends, the world has the service's journal
/// and the cells of its arena.
pub fn law_of_served_worlds()
    ensures { (s : Service) → IsScript s.script → IsService s → IsOfWorld s }
{
    law_of_calls();
}

/// Input and output tell each cell of the arena that is left.
pub fn law_of_left_arenas()
    ensures { (input output : List ℕ) (first second : Range) → IsReportIn input output first → IsReportIn input output second
        → first.cells ≡ second.cells }
{
    law_of_calls();
    law_of_fates();
}

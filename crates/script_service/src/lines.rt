//! The lines of jobs, from their plans and from what is kept of their endings.
ghost use Rattle.std.specs.Prelude.{◌≡◌, ◌<◌, length, slice_get, IfOk};
ghost use Rattle.std.specs.List.{AllByRecursion};
ghost use Rattle.job_world.specs.Plans.{job_run};
ghost use Rattle.job_workers.specs.Ended.{HasEnding};
ghost use Rattle.run_reports.specs.Told.{AreLines, IsLine};
ghost use Rattle.script_plans.specs.Lines.{planned_line, planned_lines};
ghost use Rattle.script_plans.specs.declared.types.JobPlan.TheVariants.{Runs};
ghost use Rattle.script_service.specs.Filed.{HasOwn};

use job_workers::Kept;
use job_world::Jobs;
use run_reports::JobLine;
use script_plans::JobPlan;
use std::alloc::{AllocError, Global};

// The ending of a job.
fn ending_at<'a, K: Kept>(endings: &'a [Option<K>], jobs: &Jobs, job: u32) -> &'a K
    requires ending { HasEnding K.keeps jobs.now job (slice_get endings.now job) }
    requires there { job < length endings.now }
    ensures meant { K.keeps (job_run jobs.now job) result.now }
{
    let _ = jobs;
    match &endings[job as usize] {
        Some(ending) => ending,
        None => unreachable!(),
    }
}

// The line of a job that ran.
fn ended_line<'a, K: Kept>(
    jobs: &Jobs,
    arena: u32,
    job: u32,
    bound: u64,
    ending: &'a K,
) -> JobLine<'a, K>
    requires there { job < length jobs.now.plans }
    requires meant { K.keeps (job_run jobs.now job) ending.now }
    ensures { IsLine K.keeps jobs.now.licences result (planned_line jobs.now arena (Runs job bound)) }
{
    let _ = arena;
    let plan = jobs.plan(job);
    JobLine::Ended {
        ending,
        fuel: plan.fuel,
        bound,
        licence: plan.licence,
    }
}

// The line of a plan.
#[tactic(auto, using(crate::proofs::Filing::own_here, crate::proofs::Filing::own_within, crate::proofs::Filing::own_there))]
fn plan_line<'a, K: Kept>(
    jobs: &Jobs,
    arena: u32,
    plan: &JobPlan,
    endings: &'a [Option<K>],
) -> JobLine<'a, K>
    requires { HasOwn K.keeps jobs.now endings.now plan.now }
    ensures { IsLine K.keeps jobs.now.licences result (planned_line jobs.now arena plan.now) }
{
    match *plan {
        JobPlan::Runs { job, bound } => {
            let ending = ending_at(endings, jobs, job);
            ended_line(jobs, arena, job, bound, ending)
        }
        JobPlan::TooLarge { needs } => JobLine::TooLarge { needs, arena },
        JobPlan::Refused { cause } => JobLine::Refused { cause },
    }
}

/// The line of each plan: what there is of its run's ending, or why there was no run.
#[tactic(auto, using(crate::proofs::Filing::own_at))]
pub(crate) fn plan_lines<'a, K: Kept>(
    alloc: Global,
    jobs: &Jobs,
    arena: u32,
    plans: &[JobPlan],
    endings: &'a [Option<K>],
) -> Result<Vec<JobLine<'a, K>>, AllocError>
    requires { AllByRecursion (HasOwn K.keeps jobs.now endings.now) plans.now }
    ensures { IfOk result (λ lines. AreLines K.keeps jobs.now.licences lines.items (planned_lines jobs.now arena plans.now)) }
{
    let mut lines = Vec::with_capacity(alloc, plans.len())?;
    'plans: for plan in plans {
        let line = plan_line(jobs, arena, plan, endings);
        lines.push(line)?;
    }
    Ok(lines)
}

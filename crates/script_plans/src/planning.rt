//! All programs and all jobs of a script.
ghost use Rattle.std.specs.Prelude.{◌≡◌, ◌<◌, ◌≤◌, ◌++◌, ◌∷◌, [], ℕ, List, length, map, slice_get, Some, OnOk, IfOk};
ghost use Rattle.std.specs.List.{AllByRecursion};
ghost use Rattle.lease_desk.specs.Journal.{AreSizes};
ghost use Rattle.licence.specs.Licensed.{Licensed};
ghost use Rattle.job_script.specs.Scripts.{Entry as PlainEntry, IsScript, EntryIsWithin};
ghost use Rattle.job_script.specs.Text.{EntryIsShort};
ghost use Rattle.job_script.specs.Words.{entry_of, script_of};
ghost use Rattle.job_world.specs.Asking.{IsCall};
ghost use Rattle.job_world.specs.Plans.{leases_of};
ghost use Rattle.script_plans.specs.Programs.{program_named};
ghost use Rattle.script_plans.specs.Lines.{AreProgramLines, ArePlanned};
ghost use Rattle.script_plans.specs.Rows.{Row as PlainRow, AreRows, row_of, row_among, row_program};
ghost use Rattle.script_plans.specs.Turns.{IsAdded, IsEntryTaken, places_by, plan_for, planning_of};
ghost use Rattle.script_plans.specs.Wanted.{IsWantedBy, AreWanted, CanBeTaken};

use crate::licensing::license_all;
use crate::rows::Row;
use crate::types::{JobPlan, Plans};
use crate::wanting::{want_entry, want_jobs};
use job_script::laws::law_of_lengths;
use job_script::{Entry, Script};
use job_world::{AddFault, Call, Jobs};
use licence::Licence;
use run_reports::JobCause;
use std::alloc::{AllocError, Global};
use std::thread::Threads;

/// The jobs of a script so far.
#[derive(Drop)]
pub(crate) struct Taken {
    pub(crate) jobs: Jobs,
    pub(crate) plans: Vec<JobPlan>,
    pub(crate) asked: Vec<u32>,
}

// Keeps a plan, and the place of a job that runs.
fn keep(taken: &mut Taken, plan: JobPlan, place: u32) -> Result<(), AllocError>
    ensures jobs { OnOk result (taken.new.jobs ≡ taken.old.jobs) }
    ensures plans { OnOk result (taken.new.plans.items ≡ taken.old.plans.items ++ plan ∷ []) }
    ensures asked { OnOk result (taken.new.asked.items ≡ taken.old.asked.items ++ places_by plan place) }
{
    if let JobPlan::Runs { .. } = plan {
        taken.asked.push(place)?;
    }
    taken.plans.push(plan)?;
    Ok(())
}

// Plans a call, where its lease is within the arena.
fn plan_call(jobs: &mut Jobs, call: Call, arena: u32) -> Result<JobPlan, AllocError>
    requires call { IsCall jobs.old.licences call }
    requires arena { arena ≤ 2147483648 }
    requires few { length jobs.old.plans < 4294967295 }
    ensures { (l : Licensed) → slice_get jobs.old.licences call.licence ≡ Some l
        → IfOk result (IsAdded arena (plan_for call.licence call.fuel l call.entry call.args.items) call.needs.bound jobs.old jobs.new) }
{
    let bound = call.needs.bound;
    match jobs.add_call(call, arena) {
        Ok(job) => Ok(JobPlan::Runs { job, bound }),
        Err(AddFault::Larger { needs }) => Ok(JobPlan::TooLarge { needs }),
        Err(AddFault::Memory) => Err(AllocError),
    }
}

// Plans what an entry asks for, where it is a job.
#[tactic(auto, using(crate::proofs::AllWanted::cause_taken))]
fn take_entry(
    taken: &mut Taken,
    arena: u32,
    place: u32,
    wanted: Option<Result<Call, JobCause>>,
) -> Result<(), AllocError>
    requires can { CanBeTaken taken.old.jobs.licences wanted }
    requires arena { arena ≤ 2147483648 }
    requires few { length taken.old.jobs.plans < 4294967295 }
    ensures { (rows : List PlainRow) (entry : PlainEntry) → IsWantedBy taken.old.jobs.licences rows entry wanted
        → OnOk result (IsEntryTaken rows arena place entry (planning_of taken.old) (planning_of taken.new)) }
{
    match wanted {
        Some(Ok(call)) => {
            let plan = plan_call(&mut taken.jobs, call, arena)?;
            keep(taken, plan, place)?;
            Ok(())
        }
        Some(Err(cause)) => keep(taken, JobPlan::Refused { cause }, place),
        None => Ok(()),
    }
}

// Plans what all of these entries ask for.
#[tactic(auto, using(crate::proofs::AllWanted::taking_first, crate::proofs::AllWanted::taking_short, crate::proofs::AllWanted::taking_few))]
fn take_all(
    alloc: Global,
    licences: Vec<Licence>,
    rows: &[Row<'_>],
    arena: u32,
    entries: &[Entry<'_>],
    wanted: Vec<Option<Result<Call, JobCause>>>,
) -> Result<Taken, AllocError>
    requires rows { AreRows licences.items (map row_of rows.now) }
    requires wanted { AreWanted licences.items (map row_of rows.now) (map entry_of entries.now) wanted.items }
    requires within { AllByRecursion EntryIsWithin (map entry_of entries.now) }
    requires few { length (map entry_of entries.now) ≤ 4160 }
    requires arena { arena ≤ 2147483648 }
    requires programs { (name : List ℕ) → program_named (map entry_of entries.now) name ≡ row_program (row_among (map row_of rows.now) name) }
    ensures { IfOk result (λ t. ArePlanned arena (map entry_of entries.now) t.jobs t.plans.items t.asked.items) }
{
    let _ = rows;
    let _ = entries;
    let mut taken = Taken {
        jobs: Jobs::new(alloc, licences),
        plans: Vec::new(alloc),
        asked: Vec::new(alloc),
    };
    let mut place = 0;
    'entries: for wanted in wanted {
        take_entry(&mut taken, arena, place, wanted)?;
        place += 1;
    }
    Ok(taken)
}

// Plans what all of these entries ask for, each before the next one is read.
fn take_in_turn(
    alloc: Global,
    licences: Vec<Licence>,
    rows: &[Row<'_>],
    arena: u32,
    entries: &[Entry<'_>],
) -> Result<Taken, AllocError>
    requires rows { AreRows licences.items (map row_of rows.now) }
    requires short { AllByRecursion (EntryIsShort 4294967295) (map entry_of entries.now) }
    requires within { AllByRecursion EntryIsWithin (map entry_of entries.now) }
    requires few { length (map entry_of entries.now) ≤ 4160 }
    requires arena { arena ≤ 2147483648 }
    requires programs { (name : List ℕ) → program_named (map entry_of entries.now) name ≡ row_program (row_among (map row_of rows.now) name) }
    ensures { IfOk result (λ t. ArePlanned arena (map entry_of entries.now) t.jobs t.plans.items t.asked.items) }
{
    let mut taken = Taken {
        jobs: Jobs::new(alloc, licences),
        plans: Vec::with_capacity(alloc, entries.len())?,
        asked: Vec::with_capacity(alloc, entries.len())?,
    };
    taken.jobs.reserve(entries.len())?;
    let mut place: u32 = 0;
    'entries: for entry in entries {
        let wanted = want_entry(alloc, taken.jobs.licences(), rows, entry)?;
        take_entry(&mut taken, arena, place, wanted)?;
        place += 1;
    }
    Ok(taken)
}

// Plans what all of these entries ask for. With one part each is read and planned in turn. With more all are read
// first, by so many parts side by side.
fn take_jobs<R: Threads + Sync>(
    rt: &R,
    alloc: Global,
    licences: Vec<Licence>,
    rows: &[Row<'_>],
    arena: u32,
    entries: &[Entry<'_>],
    parts: usize,
) -> Result<Taken, AllocError>
    requires rows { AreRows licences.items (map row_of rows.now) }
    requires short { AllByRecursion (EntryIsShort 4294967295) (map entry_of entries.now) }
    requires within { AllByRecursion EntryIsWithin (map entry_of entries.now) }
    requires few { length (map entry_of entries.now) ≤ 4160 }
    requires arena { arena ≤ 2147483648 }
    requires programs { (name : List ℕ) → program_named (map entry_of entries.now) name ≡ row_program (row_among (map row_of rows.now) name) }
    ensures { IfOk result (λ t. ArePlanned arena (map entry_of entries.now) t.jobs t.plans.items t.asked.items) }
{
    if parts < 2 {
        return take_in_turn(alloc, licences, rows, arena, entries);
    }
    let wanted = want_jobs(rt, alloc, &licences, rows, entries, parts)?;
    take_all(alloc, licences, rows, arena, entries, wanted)
}

/// Plans a script: each program's licence is asked for, once, of the compiler for a source in Camelot and of the
/// verifier for a bundle of Grail code. Each job is planned on its own, by the text of its program, its entry, its fuel
/// and its arguments. Licences are asked for, and arguments read, by as many parts side by side as the script has
/// workers; one worker starts no thread. No program is run. Each text has fewer than 2^32 bytes, as those of a script
/// that was read have.
///
/// `AllocError` where memory runs out.
#[tactic(auto, using(crate::proofs::Taking::planned_sizes, crate::proofs::Taking::planned_few))]
pub fn plan_script<R: Threads + Sync>(
    rt: &R,
    alloc: Global,
    script: &Script<'_>,
) -> Result<Plans, AllocError>
    requires script { IsScript (script_of script.now) }
    requires short { AllByRecursion (EntryIsShort 4294967295) (script_of script.now).items }
    // Each program has its own line.
    ensures programs { IfOk result (λ p. AreProgramLines (script_of script.now).items p.programs.items) }
    // What is planned of the jobs is what comes of them.
    ensures planned { IfOk result (λ p. ArePlanned (script_of script.now).arena (script_of script.now).items p.jobs p.plans.items p.asked.items) }
    // Each lease has at least one cell, and no more than the arena, and there are few.
    ensures sizes { IfOk result (λ p. AreSizes (script_of script.now).arena (leases_of p.jobs.plans)) }
    // There are at most 4,096 plans.
    ensures few { IfOk result (λ p. length p.jobs.plans ≤ 4096) }
{
    law_of_lengths();
    let programs = license_all(rt, alloc, &script.items, script.workers as usize)?;
    let taken = take_jobs(
        rt,
        alloc,
        programs.licences,
        &programs.rows,
        script.arena,
        &script.items,
        script.workers as usize,
    )?;
    Ok(Plans {
        programs: programs.lines,
        jobs: taken.jobs,
        plans: taken.plans,
        asked: taken.asked,
    })
}

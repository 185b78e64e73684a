//! What the jobs of a script ask for: their programs and their arguments, read side by side.
ghost use Rattle.std.specs.Prelude.{◌≤◌, ◌++◌, map, IfOk};
ghost use Rattle.std.specs.List.{AllByRecursion};
ghost use Rattle.std.specs.Thread.{IsSync};
ghost use Rattle.job_script.specs.Text.{EntryIsShort};
ghost use Rattle.job_script.specs.Words.{entry_of};
ghost use Rattle.script_plans.specs.Rows.{AreRows, row_of};
ghost use Rattle.script_plans.specs.Wanted.{IsWantedBy, AreWanted};

use crate::calling::call;
use crate::cutting::{Texts, middle};
use crate::rows::Row;
use job_script::Entry;
use job_world::Call;
use licence::Licence;
use run_reports::JobCause;
use std::alloc::{AllocError, Global};
use std::thread::{Threads, join};

/// What an entry asks for, where it is a job.
pub(crate) fn want_entry(
    alloc: Global,
    licences: &[Licence],
    rows: &[Row<'_>],
    entry: &Entry<'_>,
) -> Result<Option<Result<Call, JobCause>>, AllocError>
    requires rows { AreRows licences.now (map row_of rows.now) }
    requires short { EntryIsShort 4294967295 (entry_of entry.now) }
    ensures { IfOk result (IsWantedBy licences.now (map row_of rows.now) (entry_of entry.now)) }
{
    match *entry {
        Entry::Program { .. } => Ok(None),
        Entry::Job {
            program,
            entry,
            fuel,
            args,
            ..
        } => {
            let asked = call(alloc, licences, rows, program, entry, args, fuel)?;
            Ok(Some(asked))
        }
    }
}

// What these entries want, one after the other.
#[tactic(auto, using(crate::proofs::AllWanted::none_wanted, crate::proofs::AllWanted::wanted_more))]
fn want_each(
    alloc: Global,
    licences: &[Licence],
    rows: &[Row<'_>],
    entries: &[Entry<'_>],
) -> Result<Vec<Option<Result<Call, JobCause>>>, AllocError>
    requires rows { AreRows licences.now (map row_of rows.now) }
    requires short { AllByRecursion (EntryIsShort 4294967295) (map entry_of entries.now) }
    ensures { IfOk result (λ v. AreWanted licences.now (map row_of rows.now) (map entry_of entries.now) v.items) }
{
    let mut all = Vec::with_capacity(alloc, entries.len())?;
    'entries: for entry in entries {
        let wanted = want_entry(alloc, licences, rows, entry)?;
        all.push(wanted)?;
    }
    Ok(all)
}

// What two parts of the entries want, the second behind the first, in threads of their own.
#[cycle(wanting)]
#[tactic(auto, using(crate::proofs::AllWanted::both_wanted))]
fn want_both<R: Threads + Sync>(
    rt: &R,
    alloc: Global,
    licences: &[Licence],
    rows: &[Row<'_>],
    front: &[Entry<'_>],
    low: usize,
    back: &[Entry<'_>],
    high: usize,
) -> Result<Vec<Option<Result<Call, JobCause>>>, AllocError>
    requires rows { AreRows licences.now (map row_of rows.now) }
    requires low { 1 ≤ low }
    requires high { 1 ≤ high }
    requires front { AllByRecursion (EntryIsShort 4294967295) (map entry_of front.now) }
    requires back { AllByRecursion (EntryIsShort 4294967295) (map entry_of back.now) }
    ensures { IfOk result (λ v. AreWanted licences.now (map row_of rows.now) (map entry_of front.now ++ map entry_of back.now) v.items) }
{
    let one = move || -> Result<Vec<Option<Result<Call, JobCause>>>, AllocError>
        requires { IsSync R.row × AreRows licences.now (map row_of rows.now) × AllByRecursion (EntryIsShort 4294967295) (map entry_of front.now) }
        ensures { IfOk result (λ v. AreWanted licences.entry.now (map row_of rows.entry.now) (map entry_of front.entry.now) v.items) }
    { want_jobs(rt, alloc, licences, rows, front, low) };
    let other = move || -> Result<Vec<Option<Result<Call, JobCause>>>, AllocError>
        requires { IsSync R.row × AreRows licences.now (map row_of rows.now) × AllByRecursion (EntryIsShort 4294967295) (map entry_of back.now) }
        ensures { IfOk result (λ v. AreWanted licences.entry.now (map row_of rows.entry.now) (map entry_of back.entry.now) v.items) }
    { want_jobs(rt, alloc, licences, rows, back, high) };
    let (first, second) = join(rt, one, other);
    let mut all = first?;
    let mut rest = second?;
    all.append(&mut rest)?;
    Ok(all)
}

/// What these entries want, by so many parts side by side. One part starts no thread.
#[cycle(wanting)]
#[tactic(auto, using(crate::proofs::AllWanted::all_wanted))]
pub(crate) fn want_jobs<R: Threads + Sync>(
    rt: &R,
    alloc: Global,
    licences: &[Licence],
    rows: &[Row<'_>],
    entries: &[Entry<'_>],
    parts: usize,
) -> Result<Vec<Option<Result<Call, JobCause>>>, AllocError>
    requires rows { AreRows licences.now (map row_of rows.now) }
    requires short { AllByRecursion (EntryIsShort 4294967295) (map entry_of entries.now) }
    ensures { IfOk result (λ v. AreWanted licences.now (map row_of rows.now) (map entry_of entries.now) v.items) }
{
    if parts < 2 {
        return want_each(alloc, licences, rows, entries);
    }
    let place = middle(entries, Texts::Arguments);
    if place == 0 || place == entries.len() {
        return want_each(alloc, licences, rows, entries);
    }
    let low = parts / 2;
    let (front, back) = entries.split_at(place);
    want_both(rt, alloc, licences, rows, front, low, back, parts - low)
}

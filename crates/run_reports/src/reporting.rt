//! The report of a script.
ghost use Rattle.std.specs.Prelude.{◌≡◌, ◌++◌, ◌∷◌, List, Some, drop, map, slice_get, IfOk, OnOk};
ghost use Rattle.job_script.specs.Scripts.{Entry as PlainEntry};
ghost use Rattle.job_script.specs.Words.{entry_of, script_of};
ghost use Rattle.cell_machine.specs.Endings.{EndsWith};
ghost use Rattle.run_reports.specs.Lines.{line_of};
ghost use Rattle.run_reports.specs.Report.{asked_name, event_lines, head_text, job_lines, name_of, program_lines, report_text};
ghost use Rattle.run_reports.specs.Told.{IsTold, Told};

use super::lines::{job_of, push_end, push_event, push_job, push_program};
use crate::outcome::{JobLine, Outcome, ProgramLine};
use cell_machine::Ending;
use job_script::{Entry, Script};
use lease_desk::Event;
use licence::Licence;
use std::alloc::{AllocError, Global};

// The line of an entry that is a program, and the lines that are left for the entries behind it.
#[tactic(auto, using(crate::proofs::Lists::program_here))]
fn push_program_of<'a>(
    alloc: Global,
    out: &mut Vec<u8>,
    entry: &Entry<'_>,
    lines: &'a [ProgramLine],
) -> Result<&'a [ProgramLine], AllocError>
    ensures { (entries : List PlainEntry)
        → IfOk result (λ left. out.new.items ++ program_lines entries left.now ≡ out.old.items ++ program_lines
        (entry_of entry.now ∷ entries) lines.now) }
{
    match *entry {
        Entry::Program { name, .. } => match lines {
            [line, others @ ..] => {
                push_program(alloc, out, name, line)?;
                Ok(others)
            }
            [] => Ok(lines),
        },
        Entry::Job { .. } => Ok(lines),
    }
}

// A line for each program.
#[tactic(auto, using(crate::proofs::Lists::no_more))]
fn push_programs(
    alloc: Global,
    out: &mut Vec<u8>,
    items: &[Entry<'_>],
    lines: &[ProgramLine],
) -> Result<(), AllocError>
    ensures { OnOk result (out.new.items ≡ out.old.items ++ program_lines (map entry_of items.now) lines.now) }
{
    let mut rest = lines;
    'items: for entry in items {
        rest = push_program_of(alloc, out, entry, rest)?;
    }
    Ok(())
}

// The line of an entry that is a job, which is the line at this place, and the place of the next one.
fn push_job_of(
    alloc: Global,
    out: &mut Vec<u8>,
    room: &mut Vec<u8>,
    entry: &Entry<'_>,
    licences: &[Licence],
    lines: &[JobLine<'_, Ending>],
    at: usize,
) -> Result<usize, AllocError>
    ensures { (entries : List PlainEntry)
        → IfOk result (λ next. out.new.items ++ job_lines entries (map (line_of licences.now) (drop next lines.now))
        ≡ out.old.items ++ job_lines (entry_of entry.now ∷ entries) (map (line_of licences.now) (drop at lines.now))) }
{
    match *entry {
        Entry::Program { .. } => Ok(at),
        Entry::Job { name, .. } => match lines.get(at) {
            Some(line) => {
                push_job(alloc, out, room, name, licences, line)?;
                Ok(at + 1)
            }
            None => Ok(at),
        },
    }
}

// A line for each job.
#[tactic(auto, using(crate::proofs::Lists::no_more))]
fn push_jobs(
    alloc: Global,
    out: &mut Vec<u8>,
    items: &[Entry<'_>],
    licences: &[Licence],
    lines: &[JobLine<'_, Ending>],
) -> Result<(), AllocError>
    ensures { OnOk result (out.new.items ≡ out.old.items ++ job_lines (map entry_of items.now) (map (line_of licences.now) lines.now)) }
{
    let mut room = Vec::new(alloc);
    let mut at = 0;
    'items: for entry in items {
        at = push_job_of(alloc, out, &mut room, entry, licences, lines, at)?;
    }
    Ok(())
}

// The programs and the jobs.
#[tactic(auto, using(crate::proofs::Joining::two))]
fn push_head(
    alloc: Global,
    out: &mut Vec<u8>,
    items: &[Entry<'_>],
    licences: &[Licence],
    programs: &[ProgramLine],
    jobs: &[JobLine<'_, Ending>],
) -> Result<(), AllocError>
    ensures { OnOk result (out.new.items ≡ out.old.items ++ head_text (map entry_of items.now) programs.now (map (line_of licences.now) jobs.now)) }
{
    push_programs(alloc, out, items, programs)?;
    push_jobs(alloc, out, items, licences, jobs)
}

// The name of an entry.
fn entry_name<'a>(entry: &Entry<'a>) -> &'a [u8]
    ensures { result.now ≡ name_of (Some (entry_of entry.now)) }
{
    match *entry {
        Entry::Program { name, .. } => name,
        Entry::Job { name, .. } => name,
    }
}

// The name of the entry at a place.
fn name_at<'a>(items: &[Entry<'a>], place: u32) -> &'a [u8]
    ensures { result.now ≡ name_of (slice_get (map entry_of items.now) place) }
{
    match items.get(place as usize) {
        None => b"",
        Some(entry) => entry_name(entry),
    }
}

// The name of the desk's job of this number.
#[tactic(auto, unfolding(crate::specs::Report::asked_name))]
fn asked_name<'a>(items: &[Entry<'a>], asked: &[u32], job: u32) -> &'a [u8]
    ensures { result.now ≡ asked_name (map entry_of items.now) asked.now job }
{
    match asked.get(job as usize) {
        None => b"",
        Some(place) => name_at(items, *place),
    }
}

// A line for each event of the journal. A job of the desk has the name of the entry at its place.
#[tactic(auto, using(crate::proofs::Lists::no_more, crate::proofs::Lists::event_here))]
fn push_events(
    out: &mut Vec<u8>,
    items: &[Entry<'_>],
    asked: &[u32],
    journal: &[Event],
) -> Result<(), AllocError>
    ensures { OnOk result (out.new.items ≡ out.old.items ++ event_lines (asked_name (map entry_of items.now) asked.now) journal.now) }
{
    'events: for event in journal {
        let name = asked_name(items, asked, job_of(event));
        push_event(out, name, event)?;
    }
    Ok(())
}

/// Writes a line for each program and then one for each job at the end, in the script's order. Types of values are those
/// of the licences by number. `AllocError` where memory runs out.
pub fn push_answers(
    alloc: Global,
    out: &mut Vec<u8>,
    script: &Script<'_>,
    licences: &[Licence],
    outcome: &Outcome<'_, Ending>,
) -> Result<(), AllocError>
    // They are the lines of whatever this tells, with these licences, and stand behind what was there.
    ensures { (told : Told) → IsTold EndsWith licences.now outcome.now told
        → OnOk result (out.new.items ≡ out.old.items ++ head_text (script_of script.now).items told.programs told.jobs) }
{
    push_head(
        alloc,
        out,
        &script.items,
        licences,
        outcome.programs,
        &outcome.jobs,
    )?;
    Ok(())
}

// Room for a job's line and those of its lease, so that the text of many jobs is seldom moved.
const LINE_ROOM: usize = 128;

/// The report of a script, from what came of it: a line for each program and each job in the script's order, a line for
/// each event of the journal, and the free cells at the end. Types of values are those of the licences by number.
/// `AllocError` where memory runs out.
pub fn report(
    alloc: Global,
    script: &Script<'_>,
    licences: &[Licence],
    outcome: &Outcome<'_, Ending>,
) -> Result<Vec<u8>, AllocError>
    // It is the report of whatever this tells, with these licences.
    ensures { (told : Told) → IsTold EndsWith licences.now outcome.now told
        → IfOk result (λ text. text.items ≡ report_text (script_of script.now).items told) }
{
    let items: &[Entry<'_>] = &script.items;
    let mut out = Vec::with_capacity(alloc, LINE_ROOM.saturating_mul(outcome.jobs.len()))?;
    push_head(
        alloc,
        &mut out,
        items,
        licences,
        outcome.programs,
        &outcome.jobs,
    )?;
    push_events(&mut out, items, outcome.asked, outcome.journal)?;
    push_end(&mut out, outcome.free)?;
    Ok(out)
}

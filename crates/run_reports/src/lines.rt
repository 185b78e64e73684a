//! The lines of a report.
ghost use Rattle.std.specs.Prelude.{◌≡◌, ◌++◌, ℕ, List, slice_get, codes, decimal, OnOk};
ghost use Rattle.lease_desk.specs.Journal.{job_of};
ghost use Rattle.camelot_values.specs.Kinds.{constructor_name};
ghost use Rattle.cell_machine.specs.Endings.{EndsWith};
ghost use Rattle.value_text.specs.Text.{value_text};
ghost use Rattle.run_reports.specs.Report.{ended_text, end_text, event_text, job_cause_text, job_text, program_text, told_text};
ghost use Rattle.run_reports.specs.Lines.{line_of, outcome_of};
ghost use Rattle.run_reports.specs.Told.{JobLine as Line, IsLine, licence_types};

use super::pieces::{push_number, push_text};
use crate::outcome::{JobCause, JobLine, ProgramLine};
use camelot_values::{Flat, Types};
use cause_texts::cause_text;
use cell_machine::Ending;
use lease_desk::Event;
use licence::Licence;
use std::alloc::{AllocError, Global};
use value_text::push_value;

// A line of a name and a number, each behind its label.
#[tactic(auto, using(crate::proofs::Joining::three))]
fn push_numbered(
    out: &mut Vec<u8>,
    label: &[u8],
    name: &[u8],
    number_label: &[u8],
    number: u64,
) -> Result<(), AllocError>
    ensures { OnOk result (out.new.items ≡ out.old.items ++ ((label.now ++ name.now) ++ (number_label.now ++ decimal number) ++ codes "\n")) }
{
    push_text(out, label, name)?;
    push_number(out, number_label, number)?;
    out.extend_from_slice(b"\n")
}

// The line of a program that was refused.
#[tactic(auto, using(crate::proofs::Joining::three))]
fn push_refused(out: &mut Vec<u8>, name: &[u8], cause: &[u8]) -> Result<(), AllocError>
    ensures { OnOk result (out.new.items ≡ out.old.items ++ ((codes "program " ++ name.now) ++ (codes " refused " ++ cause.now) ++ codes "\n")) }
{
    push_text(out, b"program ", name)?;
    push_text(out, b" refused ", cause)?;
    out.extend_from_slice(b"\n")
}

/// Writes the line of a program at the end. `AllocError` where memory runs out.
pub fn push_program(
    alloc: Global,
    out: &mut Vec<u8>,
    name: &[u8],
    line: &ProgramLine,
) -> Result<(), AllocError>
    // It stands behind what was there.
    ensures { OnOk result (out.new.items ≡ out.old.items ++ program_text name.now line.now) }
{
    match line {
        ProgramLine::Accepted { unit } => {
            push_numbered(out, b"program ", name, b" accepted unit ", *unit)
        }
        ProgramLine::Refused { cause } => {
            let text = cause_text(alloc, cause)?;
            push_refused(out, name, &text)
        }
    }
}

// A value of these types, where there are any.
fn push_value_of(
    alloc: Global,
    out: &mut Vec<u8>,
    room: &mut Vec<u8>,
    licences: &[Licence],
    licence: u32,
    value: &Flat,
) -> Result<(), AllocError>
    ensures { OnOk result (out.new.items ≡ out.old.items ++
        value_text (constructor_name (licence_types (slice_get licences.now licence))) value.now) }
{
    match licences.get(licence as usize) {
        Some(licence) => push_value(out, room, value, &licence.code().types),
        None => push_value(out, room, value, &Types::new(Vec::new(alloc))),
    }
}

// A value of these types behind its label.
#[tactic(auto, using(crate::proofs::Joining::two))]
fn push_result(
    alloc: Global,
    out: &mut Vec<u8>,
    room: &mut Vec<u8>,
    licences: &[Licence],
    licence: u32,
    value: &Flat,
) -> Result<(), AllocError>
    ensures { OnOk result (out.new.items ≡ out.old.items ++
        (codes " done " ++ value_text (constructor_name (licence_types (slice_get licences.now licence))) value.now)) }
{
    out.extend_from_slice(b" done ")?;
    push_value_of(alloc, out, room, licences, licence, value)
}

// What a run came to that is done.
#[tactic(auto, using(crate::proofs::Joining::four))]
fn push_done(
    alloc: Global,
    out: &mut Vec<u8>,
    room: &mut Vec<u8>,
    licences: &[Licence],
    licence: u32,
    value: &Flat,
    calls: u64,
    peak: u64,
    bound: u64,
) -> Result<(), AllocError>
    ensures { OnOk result (out.new.items ≡ out.old.items ++
        ((codes " done " ++ value_text (constructor_name (licence_types (slice_get licences.now licence))) value.now)
        ++ (codes " calls " ++ decimal calls) ++ (codes " peak " ++ decimal peak) ++ (codes " bound " ++ decimal bound))) }
{
    push_result(alloc, out, room, licences, licence, value)?;
    push_number(out, b" calls ", calls)?;
    push_number(out, b" peak ", peak)?;
    push_number(out, b" bound ", bound)
}

// What a run came to that ran out of fuel.
#[tactic(auto, using(crate::proofs::Joining::three))]
fn push_fuel(out: &mut Vec<u8>, fuel: u64, peak: u64, bound: u64) -> Result<(), AllocError>
    ensures { OnOk result (out.new.items ≡ out.old.items ++
        ((codes " fuel " ++ decimal fuel) ++ (codes " peak " ++ decimal peak)
        ++ (codes " bound " ++ decimal bound))) }
{
    push_number(out, b" fuel ", fuel)?;
    push_number(out, b" peak ", peak)?;
    push_number(out, b" bound ", bound)
}

// A label and a number, twice.
#[tactic(auto, using(crate::proofs::Joining::two))]
fn push_two(
    out: &mut Vec<u8>,
    label: &[u8],
    number: u64,
    other_label: &[u8],
    other: u64,
) -> Result<(), AllocError>
    ensures { OnOk result (out.new.items ≡ out.old.items ++ ((label.now ++ decimal number) ++ (other_label.now ++ decimal other))) }
{
    push_number(out, label, number)?;
    push_number(out, other_label, other)
}

// What a run came to.
#[tactic(auto, unfolding(crate::specs::Report::ended_text))]
fn push_ended(
    alloc: Global,
    out: &mut Vec<u8>,
    room: &mut Vec<u8>,
    licences: &[Licence],
    licence: u32,
    ending: &Ending,
    fuel: u64,
    bound: u64,
) -> Result<(), AllocError>
    ensures { OnOk result (out.new.items ≡ out.old.items ++ ended_text (licence_types (slice_get licences.now licence)) (outcome_of ending.now) fuel bound) }
{
    match ending {
        Ending::Done { value, calls, peak } => push_done(
            alloc, out, room, licences, licence, value, *calls, *peak, bound,
        ),
        Ending::Fuel { peak } => push_fuel(out, fuel, *peak, bound),
        Ending::Deep { peak } => push_two(out, b" deep peak ", *peak, b" bound ", bound),
        Ending::Trap { peak } => push_two(out, b" trap peak ", *peak, b" bound ", bound),
    }
}

/// Writes why a job doesn't run at the end. `AllocError` where memory runs out.
#[tactic(auto, unfolding(crate::specs::Report::job_cause_text))]
pub fn push_cause(out: &mut Vec<u8>, cause: JobCause) -> Result<(), AllocError>
    // It stands behind what was there.
    ensures { OnOk result (out.new.items ≡ out.old.items ++ job_cause_text cause) }
{
    match cause {
        JobCause::NoProgram => out.extend_from_slice(b"no-program"),
        JobCause::ProgramRefused => out.extend_from_slice(b"program-refused"),
        JobCause::NoEntry => out.extend_from_slice(b"no-entry"),
        JobCause::Argument { at } => push_number(out, b"argument at ", at),
        JobCause::Long { items } => push_number(out, b"long items ", items),
    }
}

// That a job is refused, and why.
#[tactic(auto, using(crate::proofs::Joining::two))]
fn push_unfit(out: &mut Vec<u8>, cause: JobCause) -> Result<(), AllocError>
    ensures { OnOk result (out.new.items ≡ out.old.items ++ (codes " refused " ++ job_cause_text cause)) }
{
    out.extend_from_slice(b" refused ")?;
    push_cause(out, cause)
}

// What is told of a job, behind its name.
fn push_told(
    alloc: Global,
    out: &mut Vec<u8>,
    room: &mut Vec<u8>,
    licences: &[Licence],
    line: &JobLine<'_, Ending>,
) -> Result<(), AllocError>
    ensures { OnOk result (out.new.items ≡ out.old.items ++ told_text (line_of licences.now line.now)) }
{
    match *line {
        JobLine::Ended {
            ending,
            fuel,
            bound,
            licence,
        } => push_ended(alloc, out, room, licences, licence, ending, fuel, bound),
        JobLine::TooLarge { needs, arena } => push_two(
            out,
            b" too-large needs ",
            needs,
            b" arena ",
            arena as u64,
        ),
        JobLine::Refused { cause } => push_unfit(out, cause),
    }
}

/// Writes what is told of a job at the end, as it stands behind the job's name. A value has the types of the licence of
/// the line's number. `room` is memory that one line leaves to the next. `AllocError` where memory runs out.
pub fn push_line(
    alloc: Global,
    out: &mut Vec<u8>,
    room: &mut Vec<u8>,
    licences: &[Licence],
    line: &JobLine<'_, Ending>,
) -> Result<(), AllocError>
    // It is the text of whatever the line tells, and stands behind what was there.
    ensures { (told : Line) → IsLine EndsWith licences.now line.now told → OnOk result (out.new.items ≡ out.old.items ++ told_text told) }
{
    push_told(alloc, out, room, licences, line)?;
    Ok(())
}

/// Writes the line of the job of this name. `room` is memory that one line leaves to the next.
#[tactic(auto, using(crate::proofs::Joining::three))]
pub(crate) fn push_job(
    alloc: Global,
    out: &mut Vec<u8>,
    room: &mut Vec<u8>,
    name: &[u8],
    licences: &[Licence],
    line: &JobLine<'_, Ending>,
) -> Result<(), AllocError>
    ensures { OnOk result (out.new.items ≡ out.old.items ++ job_text name.now (line_of licences.now line.now)) }
{
    push_text(out, b"job ", name)?;
    push_told(alloc, out, room, licences, line)?;
    out.extend_from_slice(b"\n")
}

// A line of a name and two numbers, each behind its label. It stands in place, where the labels are known.
#[inline(always)]
#[tactic(auto, using(crate::proofs::Joining::four))]
fn push_named(
    out: &mut Vec<u8>,
    label: &[u8],
    name: &[u8],
    first_label: &[u8],
    first: u32,
    second_label: &[u8],
    second: u32,
) -> Result<(), AllocError>
    ensures { OnOk result (out.new.items ≡ out.old.items ++
        ((label.now ++ name.now) ++ (first_label.now ++ decimal first) ++ (second_label.now ++ decimal second)
        ++ codes "\n")) }
{
    push_text(out, label, name)?;
    push_number(out, first_label, first as u64)?;
    push_number(out, second_label, second as u64)?;
    out.extend_from_slice(b"\n")
}

/// The number of the job that an event is of.
pub(crate) fn job_of(event: &Event) -> u32
    ensures { result ≡ job_of event.now }
{
    match event {
        Event::Took { job, .. } => *job,
        Event::Full { job, .. } => *job,
        Event::Gave { job, .. } => *job,
    }
}

/// Writes the line of an event of the job of this name.
#[tactic(auto, unfolding(crate::specs::Report::event_text))]
pub(crate) fn push_event(out: &mut Vec<u8>, name: &[u8], event: &Event) -> Result<(), AllocError>
    ensures { (names : ℕ → List ℕ) → names (job_of event.now) ≡ name.now → OnOk result (out.new.items ≡ out.old.items ++ event_text names event.now) }
{
    match event {
        Event::Took { first, size, .. } => push_named(
            out, b"took ", name, b" first ", *first, b" size ", *size,
        ),
        Event::Full { need, largest, .. } => push_named(
            out,
            b"full ",
            name,
            b" need ",
            *need,
            b" largest ",
            *largest,
        ),
        Event::Gave { first, size, .. } => push_named(
            out, b"gave ", name, b" first ", *first, b" size ", *size,
        ),
    }
}

/// Writes the last line of a report, with the free cells at the end. `AllocError` where memory runs out.
#[tactic(auto, using(crate::proofs::Joining::two))]
pub fn push_end(out: &mut Vec<u8>, free: u64) -> Result<(), AllocError>
    // It stands behind what was there.
    ensures { OnOk result (out.new.items ≡ out.old.items ++ end_text free) }
{
    push_number(out, b"end free ", free)?;
    out.extend_from_slice(b"\n")
}

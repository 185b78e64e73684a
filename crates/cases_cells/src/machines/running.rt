//! Answers about runs in cells.
ghost use Rattle.std.specs.Prelude.{◌≡◌, length, IfOk};
ghost use Rattle.cell_span.specs.Range.{IsWhole};
ghost use Rattle.cell_machine.specs.Views.{HasRoom, IsStackFor};
ghost use Rattle.grail_code.specs.Code.{code_of};
ghost use Rattle.cases_cells.specs.Jobs.{IsReady};

use crate::arenas::new_arena;
use crate::machines::jobs::{Job, Numbers, job_of};
use camelot_values::Types;
use cell_machine::{Ending, Ran, Room, Stack, run_code};
use cell_span::Span;
use std::alloc::{AllocError, Global};
use std::io;
use std::time::Instant;
use value_text::print;

/// An arena and a stack for runs of a job.
struct Place {
    span: Span,
    stack: Stack,
}

fn place_of(alloc: Global, job: &Job) -> Result<Place, AllocError>
    requires { IsReady job.now }
    ensures whole { IfOk result (λ place. IsWhole place.span) }
    ensures lease { IfOk result (λ place. length place.span.cells ≡ job.now.lease) }
    ensures stack { IfOk result (λ place. IsStackFor (code_of job.now.code) place.stack) }
{
    let stack = Stack::for_code(alloc, &job.code)?;
    let span = new_arena(alloc, job.lease)?;
    Ok(Place { span, stack })
}

// Makes the run.
fn run_job(job: &Job, place: Place, room: Room) -> (Ending, Place)
    requires job { IsReady job.now }
    requires lease { length place.span.cells ≡ job.now.lease }
    requires stack { IsStackFor (code_of job.now.code) place.stack }
    requires room { HasRoom job.now.lease room }
    ensures whole { IsWhole place.span → IsWhole result.1.span }
    ensures lease { length result.1.span.cells ≡ job.now.lease }
    ensures stack { IsStackFor (code_of job.now.code) result.1.stack }
{
    let Place { span, stack } = place;
    let Ran {
        ending,
        span,
        stack,
    } = run_code(&job.code, job.entry, &job.args, job.fuel, span, stack, room);
    (ending, Place { span, stack })
}

fn print_ending(rt: &HostRuntime, types: &Types, ending: &Ending) -> io::Result<()> {
    match ending {
        Ending::Done { value, calls, peak } => {
            let text = print(rt.alloc(), value, types)?;
            print!(rt; " done {} calls {calls} peak {peak}", text.escape_ascii())
        }
        Ending::Fuel { peak } => print!(rt; " fuel peak {peak}"),
        Ending::Deep { peak } => print!(rt; " deep peak {peak}"),
        Ending::Trap { peak } => print!(rt; " trap peak {peak}"),
    }
}

// Prints the tag and the words of each cell.
fn print_cells(rt: &HostRuntime, span: &Span) -> io::Result<()> {
    'cells: for at in 0..span.len() {
        let cell = span.get(at);
        let [first, second, third, fourth] = cell.words;
        print!(rt; " [{} {first} {second} {third} {fourth}]", cell.tag)?;
    }
    Ok(())
}

// Prints how a run ended, and then, where they are asked for, the cells that it left.
fn tell(
    rt: &HostRuntime,
    job: &Job,
    ending: &Ending,
    span: &Span,
    with_cells: bool,
) -> io::Result<()> {
    print_ending(rt, &job.code.types, ending)?;
    if with_cells {
        print_cells(rt, span)?;
    }
    Ok(())
}

/// Prints how the run ends, and then, where they are asked for, the cells that it leaves.
pub(crate) fn answer_run(
    rt: &HostRuntime,
    bytes: &[u8],
    numbers: Numbers,
    text: &[u8],
    with_cells: bool,
) -> io::Result<()> {
    let alloc = rt.alloc();
    let job = match job_of(rt, bytes, numbers, text)? {
        Some(job) => job,
        None => return Ok(()),
    };
    let room = Room::new(alloc, job.lease)?;
    let place = place_of(alloc, &job)?;
    let (ending, place) = run_job(&job, place, room);
    let Place { span, stack: _ } = place;
    let told = tell(rt, &job, &ending, &span, with_cells);
    span.end();
    told
}

// How many functions were entered, where the run was done.
fn calls_of(ending: &Ending) -> u64 {
    match ending {
        Ending::Done {
            value: _,
            calls,
            peak: _,
        } => *calls,
        _ => 0,
    }
}

// Makes the run, and tells its calls and its nanoseconds.
fn time_run(rt: &HostRuntime, job: &Job, place: Place) -> (io::Result<(u64, u128)>, Place)
    requires job { IsReady job.now }
    requires lease { length place.span.cells ≡ job.now.lease }
    requires stack { IsStackFor (code_of job.now.code) place.stack }
    ensures whole { IsWhole place.span → IsWhole result.1.span }
    ensures lease { length result.1.span.cells ≡ job.now.lease }
    ensures stack { IsStackFor (code_of job.now.code) result.1.stack }
{
    let room = match Room::new(rt.alloc(), job.lease) {
        Ok(room) => room,
        Err(full) => return (Err(full.into()), place),
    };
    let start = match Instant::now(rt) {
        Ok(start) => start,
        Err(error) => return (Err(error), place),
    };
    let (ending, place) = run_job(job, place, room);
    match start.elapsed(rt) {
        Ok(time) => (Ok((calls_of(&ending), time.as_nanos())), place),
        Err(error) => (Err(error), place),
    }
}

// Makes the run so many times, and tells the calls and the nanoseconds of all. The arena is ended.
fn time_runs(rt: &HostRuntime, job: &Job, place: Place, times: u32) -> io::Result<(u64, u128)>
    requires job { IsReady job.now }
    requires whole { IsWhole place.span }
    requires lease { length place.span.cells ≡ job.now.lease }
    requires stack { IsStackFor (code_of job.now.code) place.stack }
{
    let mut place = place;
    let mut sum = Ok((0, 0));
    'times: for _ in 0..times {
        let (timed, next) = time_run(rt, job, place);
        place = next;
        sum = match (sum, timed) {
            (Ok((calls, nanos)), Ok((more, time))) => {
                Ok((more.saturating_add(calls), time.saturating_add(nanos)))
            }
            (Err(error), _) => Err(error),
            (_, Err(error)) => Err(error),
        };
    }
    let Place { span, stack: _ } = place;
    span.end();
    sum
}

/// Makes the run once, so that its memory was used before, and prints how it ends; then so many times more in the same
/// range, and prints the calls and the nanoseconds of all these, with loading and reading back.
pub(crate) fn answer_time(
    rt: &HostRuntime,
    bytes: &[u8],
    numbers: Numbers,
    text: &[u8],
    times: u32,
) -> io::Result<()> {
    let alloc = rt.alloc();
    let job = match job_of(rt, bytes, numbers, text)? {
        Some(job) => job,
        None => return Ok(()),
    };
    let room = Room::new(alloc, job.lease)?;
    let place = place_of(alloc, &job)?;
    let (ending, place) = run_job(&job, place, room);
    let told = print_ending(rt, &job.code.types, &ending);
    let (calls, nanos) = time_runs(rt, &job, place, times)?;
    told?;
    print!(rt; " in all calls {calls} nanos {nanos}")
}

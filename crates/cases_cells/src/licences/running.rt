//! Answers about licensed runs.
ghost use Rattle.std.specs.Prelude.{◌≡◌, ◌≤◌, length};
ghost use Rattle.cell_span.specs.Range.{IsWhole};
ghost use Rattle.cell_machine.specs.Views.{HasRoom, IsStackFor};
ghost use Rattle.licence.specs.Bound.{bound, lease};
ghost use Rattle.cases_cells.specs.Covered.{IsReady};

use crate::arenas::new_arena;
use crate::licences::jobs::Job;
use camelot_values::Types;
use cell_machine::{Ending, Halt, Halted, Ran, Room, Stack, cells_of, halt, run};
use cell_span::Span;
use std::alloc::Global;
use std::io;
use value_text::print;

// The bound of a run.
fn bound_of(job: &Job) -> u64
    requires { IsReady job.now }
    ensures { result ≡ bound job.now.licence.code job.now.licence.cert job.now.entry job.now.args.items }
{
    job.licence.bound(job.entry, &job.args)
}

/// The lease of a run.
pub(crate) fn lease_of(job: &Job) -> u64
    requires { IsReady job.now }
    ensures { result ≡ lease job.now.licence.code job.now.licence.cert job.now.entry job.now.args.items }
{
    job.licence.lease(job.entry, &job.args)
}

// Makes the run in these cells.
fn run_in(job: &Job, span: Span, stack: Stack, room: Room) -> Ran
    requires job { IsReady job.now }
    requires cells { length span.cells ≡ lease job.now.licence.code job.now.licence.cert job.now.entry job.now.args.items }
    requires stack { IsStackFor job.now.licence.code stack }
    requires room { HasRoom (length span.cells) room }
    ensures whole { IsWhole span → IsWhole result.span }
{
    run(
        &job.licence,
        job.entry,
        &job.args,
        job.fuel,
        span,
        stack,
        room,
    )
}

// Makes the run in these cells; its value isn't put together.
fn halt_in(job: &Job, span: Span, stack: Stack) -> Halted
    requires job { IsReady job.now }
    requires cells { length span.cells ≡ lease job.now.licence.code job.now.licence.cert job.now.entry job.now.args.items }
    requires stack { IsStackFor job.now.licence.code stack }
    ensures whole { IsWhole span → IsWhole result.span }
{
    let cells = cells_of(&job.licence.code().types, &job.args);
    halt(
        &job.licence,
        job.entry,
        &job.args,
        cells,
        job.fuel,
        span,
        stack,
    )
}

fn print_halt(rt: &HostRuntime, ended: &Halt) -> io::Result<()> {
    match ended {
        Halt::Done { calls, peak } => print!(rt; " done calls {calls} peak {peak}"),
        Halt::Fuel { peak } => print!(rt; " fuel peak {peak}"),
        Halt::Deep { peak } => print!(rt; " deep peak {peak}"),
        Halt::Trap { peak } => print!(rt; " trap peak {peak}"),
    }
}

/// How a run ends, as a text.
pub(crate) fn ending_text(alloc: Global, types: &Types, ending: &Ending) -> io::Result<String> {
    match ending {
        Ending::Done { value, calls, peak } => {
            let text = print(alloc, value, types)?;
            Ok(format!(in alloc; "done {} calls {calls} peak {peak}", text.escape_ascii())?)
        }
        Ending::Fuel { peak } => Ok(format!(in alloc; "fuel peak {peak}")?),
        Ending::Deep { peak } => Ok(format!(in alloc; "deep peak {peak}")?),
        Ending::Trap { peak } => Ok(format!(in alloc; "trap peak {peak}")?),
    }
}

// Makes the run in an arena of its own, which is ended, and prints how the run ends.
fn answer_ending(rt: &HostRuntime, job: &Job, cells: u32) -> io::Result<()>
    requires job { IsReady job.now }
    requires cells { cells ≡ lease job.now.licence.code job.now.licence.cert job.now.entry job.now.args.items }
    requires few { cells ≤ 2147483648 }
{
    let alloc = rt.alloc();
    let stack = Stack::new(alloc, &job.licence)?;
    let room = Room::new(alloc, cells)?;
    let span = new_arena(alloc, cells)?;
    let Ran {
        ending,
        span,
        stack: _,
    } = run_in(job, span, stack, room);
    span.end();
    let text = ending_text(alloc, &job.licence.code().types, &ending)?;
    print!(rt; " {text}")
}

// The same where the run's value isn't asked for.
fn answer_halt(rt: &HostRuntime, job: &Job, cells: u32) -> io::Result<()>
    requires job { IsReady job.now }
    requires cells { cells ≡ lease job.now.licence.code job.now.licence.cert job.now.entry job.now.args.items }
    requires few { cells ≤ 2147483648 }
{
    let alloc = rt.alloc();
    let stack = Stack::new(alloc, &job.licence)?;
    let span = new_arena(alloc, cells)?;
    let Halted {
        halt: ended,
        span,
        stack: _,
    } = halt_in(job, span, stack);
    span.end();
    print_halt(rt, &ended)
}

/// What is asked of a run beside its bound and its lease.
#[derive(Clone, Copy)]
pub(crate) enum Question {
    /// Nothing more.
    Bound,
    /// How it ends.
    Run,
    /// How it ends, without its value.
    Halt,
}

/// Prints the bound and the lease of the run, and then, where it is asked for, how it ends.
pub(crate) fn answer_job(rt: &HostRuntime, job: &Job, question: Question) -> io::Result<()>
    requires { IsReady job.now }
{
    let cells = lease_of(job);
    print!(rt; " bound {} lease {cells}", bound_of(job))?;
    if let Question::Bound = question {
        return Ok(());
    }
    if cells > 2_147_483_648 {
        return print!(rt; " too many cells");
    }
    match question {
        Question::Bound => Ok(()),
        Question::Run => answer_ending(rt, job, cells as u32),
        Question::Halt => answer_halt(rt, job, cells as u32),
    }
}

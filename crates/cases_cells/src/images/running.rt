//! Answers about licensed runs that are paused.
ghost use Rattle.std.specs.Prelude.{◌≡◌, ◌≤◌};
ghost use Rattle.licence.specs.Bound.{lease};
ghost use Rattle.cell_machine.specs.Running.{IsRunning};
ghost use Rattle.cases_cells.specs.Covered.{IsReady};

use crate::images::pauses::{Ended, begin, end, pass};
use crate::licences::{Job, ending_text, lease_of};
use cell_machine::Machine;
use machine_image::write_image;
use std::io;

// Prints which frames lend: the oldest one, of how many, and whether the one that runs does.
fn print_lender(rt: &HostRuntime, machine: &Machine<'_>, oldest: u32) -> io::Result<()> {
    let running = if machine.running_lends() { "yes" } else { "no" };
    print!(rt;
        " lending oldest {oldest} waiting {} running {running}",
        machine.waiting()
    )
}

// Prints at which step a run ended, and how.
fn print_ended(rt: &HostRuntime, job: &Job, ended: &Ended) -> io::Result<()> {
    let ending = ending_text(rt.alloc(), &job.licence.code().types, &ended.ending)?;
    print!(rt; " step {} {ending}", ended.steps)
}

// Prints the lines of a text, each on a line of its own.
fn print_lines(rt: &HostRuntime, text: &[u8]) -> io::Result<()> {
    match str::from_utf8(text) {
        Ok(text) => {
            for line in text.split('\n') {
                if !line.is_empty() {
                    print!(rt; "\n  {line}")?;
                }
            }
            Ok(())
        }
        Err(_) => print!(rt; " no text"),
    }
}

// Prints the image of a run that isn't over, or which frames lend.
fn print_paused(rt: &HostRuntime, machine: &Machine<'_>) -> io::Result<()>
    requires { IsRunning machine.now }
{
    if let Some(oldest) = machine.lender() {
        return print_lender(rt, machine, oldest);
    }
    let state = machine.state(rt.alloc())?;
    print_lines(rt, &write_image(rt.alloc(), &state)?)
}

// Prints the image behind so many steps; or which frames lend then, or how the run ended before.
fn answer_image(rt: &HostRuntime, job: &Job, cells: u32, steps: u32) -> io::Result<()>
    requires job { IsReady job.now }
    requires cells { cells ≡ lease job.now.licence.code job.now.licence.cert job.now.entry job.now.args.items }
    requires few { cells ≤ 2147483648 }
{
    let mut machine = begin(rt.alloc(), job, cells)?;
    let told = match pass(&mut machine, steps) {
        Some(ended) => print_ended(rt, job, &ended),
        None => print_paused(rt, &machine),
    };
    end(machine);
    told
}

/// Prints the image of the run behind so many steps; or which frames lend then, or how the run ended before.
pub(crate) fn answer_job(rt: &HostRuntime, job: &Job, steps: u32) -> io::Result<()>
    requires { IsReady job.now }
{
    let cells = lease_of(job);
    if job.fuel > 1_099_511_627_776 || cells > 2_147_483_648 {
        return print!(rt; " no such run");
    }
    answer_image(rt, job, cells as u32, steps)
}

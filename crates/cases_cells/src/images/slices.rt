//! Runs that are put aside behind each slice, and go on from their images in other ranges.
ghost use Rattle.std.specs.Prelude.{◌≡◌, ◌≤◌, IfOk};
ghost use Rattle.licence.specs.Bound.{lease};
ghost use Rattle.cell_machine.specs.Running.{IsRunning};
ghost use Rattle.cell_machine.specs.Views.{range_of};
ghost use Rattle.cell_span.specs.Range.{IsWhole};
ghost use Rattle.pause_image.specs.Judges.{IsJudgeOf};
ghost use Rattle.cases_cells.specs.Covered.{IsReady};
ghost use Rattle.cases_cells.specs.Slices.{GoesOn};

use crate::images::pauses::{begin, end};
use crate::images::resuming::go_on;
use crate::licences::{Job, ending_text, lease_of};
use cell_machine::{Ending, Machine};
use licence::Licence;
use pause_image::{ImageFault, ImageJudge, Paused, pause, slice};
use std::alloc::{AllocError, Global};
use std::io;
use stops::Stop;

/// How many slices a run may have.
const MOST_SLICES: u32 = 100_000;

/// What is behind a slice: a run that goes on, an ending, or why nothing goes on.
pub(crate) enum Behind<'a> {
    Runs(Machine<'a>),
    Over(Ending),
    Refused(Stop<ImageFault>),
}

// Does a slice of a run, puts it aside, and goes on from its image in another range of as many cells.
fn next_slice<'a>(
    alloc: Global,
    judge: &ImageJudge,
    licence: &'a Licence,
    cells: u32,
    steps: u64,
    mut machine: Machine<'a>,
) -> Result<Behind<'a>, AllocError>
    requires judge { IsJudgeOf licence.now judge.now }
    requires some { 1 ≤ cells }
    requires few { cells ≤ 2147483648 }
    requires running { IsRunning machine }
    requires code { machine.code ≡ licence.now.code }
    requires whole { IsWhole (range_of machine) }
    ensures { IfOk result (GoesOn licence.now) }
{
    if let Some(ending) = slice(&mut machine, steps) {
        end(machine);
        return Ok(Behind::Over(ending));
    }
    match pause(alloc, machine) {
        Ok(Paused { image, span, stack }) => {
            span.end();
            match go_on(alloc, judge, licence, cells, &image, stack)? {
                Ok(next) => Ok(Behind::Runs(next)),
                Err(fault) => Ok(Behind::Refused(fault)),
            }
        }
        Err(machine) => {
            end(machine);
            Err(AllocError)
        }
    }
}

// In how many slices of so many steps a run ends, and how.
fn slices_text(alloc: Global, job: &Job, cells: u32, steps: u64) -> io::Result<String>
    requires job { IsReady job.now }
    requires cells { cells ≡ lease job.now.licence.code job.now.licence.cert job.now.entry job.now.args.items }
    requires some { 1 ≤ cells }
    requires few { cells ≤ 2147483648 }
{
    let judge = ImageJudge::new(alloc, &job.licence)?;
    let mut machine = begin(alloc, job, cells)?;
    'slices: for before in 0..MOST_SLICES {
        match next_slice(alloc, &judge, &job.licence, cells, steps, machine)? {
            Behind::Runs(next) => machine = next,
            Behind::Over(ending) => {
                let told = ending_text(alloc, &job.licence.code().types, &ending)?;
                return Ok(format!(in alloc; "slices {} {told}", before + 1)?);
            }
            Behind::Refused(fault) => return Ok(format!(in alloc; "{fault}")?),
        }
    }
    end(machine);
    Ok(format!(in alloc; "slices {MOST_SLICES}")?)
}

/// Prints in how many slices of so many steps a run ends, and how.
pub(crate) fn answer_slices(rt: &HostRuntime, job: &Job, steps: u32) -> io::Result<()>
    requires { IsReady job.now }
{
    let cells = lease_of(job);
    if job.fuel > 1_099_511_627_776 || cells == 0 || cells > 2_147_483_648 {
        return print!(rt; " no such run");
    }
    let told = slices_text(rt.alloc(), job, cells as u32, steps as u64)?;
    print!(rt; " {told}")
}

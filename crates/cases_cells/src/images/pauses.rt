//! Machines of licensed runs: from their beginning, up to a step, and at their end.
ghost use Rattle.std.specs.Prelude.{◌≡◌, ◌≤◌, IfOk, MatchOption};
ghost use Rattle.cell_machine.specs.Laid.{SameRange};
ghost use Rattle.cell_machine.specs.Running.{IsRunning};
ghost use Rattle.cell_machine.specs.Views.{range_of};
ghost use Rattle.cell_span.specs.Range.{IsWhole};
ghost use Rattle.licence.specs.Bound.{lease};
ghost use Rattle.cases_cells.specs.Covered.{IsReady};

use crate::arenas::new_arena;
use crate::licences::Job;
use cell_machine::{Ending, Machine, Room, Stack};
use std::alloc::{AllocError, Global};

/// How a run ended, and after how many steps.
#[derive(Drop)]
pub(crate) struct Ended {
    pub(crate) steps: u32,
    pub(crate) ending: Ending,
}

/// The machine in which the run begins, in an arena of its own with so many cells.
pub(crate) fn begin(alloc: Global, job: &Job, cells: u32) -> Result<Machine<'_>, AllocError>
    requires job { IsReady job.now }
    requires cells { cells ≡ lease job.now.licence.code job.now.licence.cert job.now.entry job.now.args.items }
    requires few { cells ≤ 2147483648 }
    // Its run isn't over.
    ensures running { IfOk result IsRunning }
    // It runs the job's code.
    ensures code { IfOk result (λ machine. machine.code ≡ job.now.licence.code) }
    // Its range is the whole arena.
    ensures whole { IfOk result (λ machine. IsWhole (range_of machine)) }
{
    let stack = Stack::new(alloc, &job.licence)?;
    let room = Room::new(alloc, cells)?;
    let span = new_arena(alloc, cells)?;
    Ok(Machine::load(
        &job.licence,
        job.entry,
        &job.args,
        job.fuel,
        span,
        stack,
        room,
    ))
}

/// Does so many steps, or fewer where the run is over before: then it is told how.
pub(crate) fn pass(machine: &mut Machine<'_>, most: u32) -> Option<Ended>
    requires running { IsRunning machine.old }
    // Where it isn't told how the run ended, the run isn't over.
    ensures running { MatchOption result (IsRunning machine.new) (λ ended. Unit) }
    // The range stays.
    ensures range { SameRange (range_of machine.old) (range_of machine.new) }
{
    'steps: for before in 0..most {
        if let Some(ending) = machine.step() {
            return Some(Ended {
                steps: before + 1,
                ending,
            });
        }
    }
    None
}

/// Ends a machine and its arena.
pub(crate) fn end(machine: Machine<'_>)
    requires { IsWhole (range_of machine) }
{
    let (span, _) = machine.unload();
    span.end();
}

//! Runs that go on from a text.
ghost use Rattle.std.specs.Prelude.{◌≡◌, ◌≤◌, IfOk};
ghost use Rattle.cell_machine.specs.Running.{IsRunning};
ghost use Rattle.cell_machine.specs.Views.{IsStackFor, range_of};
ghost use Rattle.cell_span.specs.Range.{IsWhole};
ghost use Rattle.pause_image.specs.Judges.{IsJudgeOf};

use crate::arenas::new_arena;
use crate::images::pauses::{Ended, end, pass};
use crate::licences::ending_text;
use case_lines::Judge;
use cell_machine::{Machine, Room, Stack};
use licence::Licence;
use pause_image::{ImageFault, ImageJudge, NoResume, resume};
use std::alloc::{AllocError, Global};
use std::io;
use stops::Stop;

/// What a text is the image of, by a licence: a run in so many cells, which does so many steps.
#[derive(Drop)]
pub(crate) struct Runs {
    pub(crate) licence: Licence,
    pub(crate) cells: u32,
    pub(crate) steps: u32,
}

/// The machine that goes on from a text in a new arena of so many cells, or why none does.
pub(crate) fn go_on<'a>(
    alloc: Global,
    judge: &ImageJudge,
    licence: &'a Licence,
    cells: u32,
    text: &[u8],
    stack: Stack,
) -> Result<Result<Machine<'a>, Stop<ImageFault>>, AllocError>
    requires judge { IsJudgeOf licence.now judge.now }
    requires stack { IsStackFor licence.now.code stack }
    requires some { 1 ≤ cells }
    requires few { cells ≤ 2147483648 }
    // Its run isn't over.
    ensures running { IfOk result (λ answer. IfOk answer IsRunning) }
    // It runs the licence's code.
    ensures code { IfOk result (λ answer. IfOk answer (λ machine. machine.code ≡ licence.now.code)) }
    // Its range is the whole arena.
    ensures whole { IfOk result (λ answer. IfOk answer (λ machine. IsWhole (range_of machine))) }
{
    let room = Room::new(alloc, cells)?;
    let span = new_arena(alloc, cells)?;
    match resume(alloc, judge, licence, text, span, stack, room) {
        Ok(machine) => Ok(Ok(machine)),
        Err(
            NoResume {
                fault,
                span,
                stack: _,
                room: _,
            },
        ) => {
            span.end();
            Ok(Err(fault))
        }
    }
}

// How many steps a run did, and how it ended if it did.
fn steps_text(alloc: Global, runs: &Runs, ended: Option<Ended>) -> io::Result<String> {
    match ended {
        Some(ended) => {
            let ending = ending_text(alloc, &runs.licence.code().types, &ended.ending)?;
            Ok(format!(in alloc; "step {} {ending}", ended.steps)?)
        }
        None => Ok(format!(in alloc; "steps {}", runs.steps)?),
    }
}

// What the text comes to.
fn answer_text(alloc: Global, runs: &Runs, bytes: &[u8]) -> io::Result<String>
    requires some { 1 ≤ runs.now.cells }
    requires few { runs.now.cells ≤ 2147483648 }
{
    let judge = ImageJudge::new(alloc, &runs.licence)?;
    let stack = Stack::new(alloc, &runs.licence)?;
    match go_on(alloc, &judge, &runs.licence, runs.cells, bytes, stack)? {
        Ok(mut machine) => {
            let ended = pass(&mut machine, runs.steps);
            end(machine);
            steps_text(alloc, runs, ended)
        }
        Err(fault) => Ok(format!(in alloc; "{fault}")?),
    }
}

impl Judge for Runs {
    fn judge(&self, alloc: Global, bytes: &[u8]) -> io::Result<String> {
        if self.cells == 0 || self.cells > 2_147_483_648 {
            return Ok(format!(in alloc; "no such cells")?);
        }
        answer_text(alloc, self, bytes)
    }
}

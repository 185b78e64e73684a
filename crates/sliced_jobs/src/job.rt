//! One slice of one job.
ghost use Rattle.std.specs.Prelude.{◌≡◌, ℕ, ◌≤◌, List, length, Option, Some, None, MatchOption};
ghost use Rattle.licence.specs.Licensed.{Licensed};
ghost use Rattle.cell_machine.specs.Laid.{SameRange};
ghost use Rattle.cell_machine.specs.Plans.{IsPlan};
ghost use Rattle.cell_machine.specs.Running.{IsRunning};
ghost use Rattle.cell_machine.specs.Views.{HasRoom, IsStackFor, range_of};
ghost use Rattle.job_world.specs.Plans.{Plan as PlainPlan};
ghost use Rattle.job_world.specs.Words.{plan_of};
ghost use Rattle.pause_image.specs.Judges.{IsJudgeOf};
ghost use Rattle.sliced_jobs.specs.Ready.{HasNoFault, HasRun, IsReady, WentOn, image_in};

use cell_machine::{Ending, Machine, Room, Stack};
use cell_span::Span;
use job_world::Plan;
use licence::Licence;
use pause_image::{ImageJudge, NoResume, Paused, pause, resume, slice};
use std::alloc::Global;
use stops::Stop;

/// How a slice of a job went.
#[derive(Drop)]
pub(crate) enum Went {
    /// The run is over.
    Ended(Ending),
    /// It was put aside, and goes on from this text.
    Paused(Vec<u8>),
    /// Memory ran out.
    Short,
}

/// What a slice hands back, however it went.
pub(crate) struct Sliced {
    pub(crate) span: Span,
    pub(crate) stack: Stack,
    pub(crate) went: Went,
}

// What a machine hands back that is put aside no more.
fn give_up(machine: Machine<'_>, went: Went) -> Sliced
    ensures span { result.span ≡ range_of machine.entry }
    ensures stack { IsStackFor machine.entry.code result.stack }
    ensures went { result.went ≡ went }
{
    let (span, stack) = machine.unload();
    Sliced { span, stack, went }
}

// One slice of this machine's run, which is put aside behind it.
fn run_slice(alloc: Global, mut machine: Machine<'_>, steps: u64) -> Sliced
    requires running { IsRunning machine }
    requires some { 1 ≤ steps }
    ensures went { (l : Licensed) (p : PlainPlan) (made : ℕ) (image : Option (List ℕ)) → IsReady steps l p made image machine.entry
        → WentOn steps l p made result.went }
    ensures span { SameRange (range_of machine.entry) result.span }
    ensures stack { IsStackFor machine.entry.code result.stack }
{
    match slice(&mut machine, steps) {
        Some(ending) => give_up(machine, Went::Ended(ending)),
        None => match pause(alloc, machine) {
            Ok(Paused { image, span, stack }) => Sliced {
                span,
                stack,
                went: Went::Paused(image),
            },
            Err(machine) => give_up(machine, Went::Short),
        },
    }
}

// The first slice of a plan's run.
fn begin_slice(
    alloc: Global,
    licence: &Licence,
    plan: &Plan,
    steps: u64,
    span: Span,
    stack: Stack,
    room: Room,
) -> Sliced
    requires plan { IsPlan licence.now plan.now.entry plan.now.args.items plan.now.fuel (length span.cells) }
    requires stack { IsStackFor licence.now.code stack }
    requires room { HasRoom (length span.cells) room }
    requires some { 1 ≤ steps }
    ensures went { (made : ℕ) → HasRun steps licence.now (plan_of plan.now) made None → length span.cells ≡ plan.now.lease
        → WentOn steps licence.now (plan_of plan.now) made result.went }
    ensures span { SameRange span result.span }
    ensures stack { IsStackFor licence.now.code result.stack }
{
    let machine = Machine::load(
        licence, plan.entry, &plan.args, plan.fuel, span, stack, room,
    );
    run_slice(alloc, machine, steps)
}

// A slice of a run that goes on from a text.
fn resume_slice(
    alloc: Global,
    licence: &Licence,
    judge: &ImageJudge,
    image: &[u8],
    steps: u64,
    span: Span,
    stack: Stack,
    room: Room,
) -> Sliced
    requires judge { IsJudgeOf licence.now judge.now }
    requires stack { IsStackFor licence.now.code stack }
    requires room { HasRoom (length span.cells) room }
    requires some { 1 ≤ steps }
    requires right { HasNoFault licence.now image.now (length span.cells) }
    ensures went { (p : PlainPlan) (made : ℕ) → HasRun steps licence.now p made (Some image.now) → length span.cells ≡ p.lease
        → WentOn steps licence.now p made result.went }
    ensures span { SameRange span result.span }
    ensures stack { IsStackFor licence.now.code result.stack }
{
    match resume(alloc, judge, licence, image, span, stack, room) {
        Ok(machine) => run_slice(alloc, machine, steps),
        Err(
            NoResume {
                fault,
                span,
                stack,
                room: _,
            },
        ) => match fault {
            Stop::Memory => Sliced {
                span,
                stack,
                went: Went::Short,
            },
            Stop::Fault(_) => unreachable!(),
        },
    }
}

// The text of an image that is there.
fn text_of(image: &Option<Vec<u8>>) -> Option<&[u8]>
    ensures { MatchOption result (image_in image.now ≡ None) (λ text. image_in image.now ≡ Some text.now) }
{
    match image {
        Some(text) => Some(text),
        None => None,
    }
}

/// One slice of the run of a plan, of which so many were made, in as many cells as it says: it begins, or goes on from
/// its text. What it needs memory for is the room for its value, the state that the text tells, and the next text.
pub(crate) fn slice_job(
    alloc: Global,
    licence: &Licence,
    judge: &ImageJudge,
    plan: &Plan,
    image: &Option<Vec<u8>>,
    made: u64,
    steps: u64,
    span: Span,
    stack: Stack,
) -> Sliced
    requires judge { IsJudgeOf licence.now judge.now }
    requires stack { IsStackFor licence.now.code stack }
    requires size { length span.cells ≡ plan.now.lease }
    requires some { 1 ≤ steps }
    requires run { HasRun steps licence.now (plan_of plan.now) made (image_in image.now) }
    ensures went { WentOn steps licence.now (plan_of plan.now) made result.went }
    ensures span { SameRange span result.span }
    ensures stack { IsStackFor licence.now.code result.stack }
{
    let _ = made;
    let Ok(room) = Room::new(alloc, plan.lease) else {
        return Sliced {
            span,
            stack,
            went: Went::Short,
        };
    };
    match text_of(image) {
        Some(text) => resume_slice(alloc, licence, judge, text, steps, span, stack, room),
        None => begin_slice(alloc, licence, plan, steps, span, stack, room),
    }
}

//! One turn of a job: its kit and its cells are taken, a slice is made, and they are put back.
ghost use Rattle.std.specs.Prelude.{◌≡◌, ◌+◌, ◌<◌, ◌≤◌, length};
ghost use Rattle.licence.specs.Licensed.{Licensed};
ghost use Rattle.cell_machine.specs.Laid.{SameRange};
ghost use Rattle.job_world.specs.Plans.{Plan as PlainPlan};
ghost use Rattle.sliced_jobs.specs.Kits.{AreKits};
ghost use Rattle.sliced_jobs.specs.Ready.{WentOn};
ghost use Rattle.sliced_jobs.specs.Table.{IsGoingOn, IsPlanAt, lease_at};

use crate::job::{Sliced, Went, slice_job};
use crate::kit::{Kit, put_kit, take_kit};
use crate::parts::{Parts, cut_out, put_back};
use crate::table::Going;
use cell_span::Span;
use job_world::Jobs;
use std::alloc::Global;

/// What a turn hands back: the whole run again, and how the slice went.
pub(crate) struct Turn {
    pub(crate) span: Span,
    pub(crate) went: Went,
}

/// One slice of a job that is under way, in as many cells as its lease says, from this place of the run on.
pub(crate) fn take_turn(
    alloc: Global,
    jobs: &Jobs,
    kits: &mut Vec<Option<Kit>>,
    going: &Going,
    steps: u64,
    span: Span,
    at: u32,
) -> Turn
    requires some { 1 ≤ steps }
    requires kits { AreKits jobs.now.licences kits.old.items }
    requires many { length kits.old.items ≡ length jobs.now.licences }
    requires going { IsGoingOn steps jobs.now (length jobs.now.plans) going.now }
    requires cell { 1 ≤ lease_at jobs.now going.now.job }
    requires room { at + lease_at jobs.now going.now.job ≤ length span.cells }
    ensures went { (p : PlainPlan) (l : Licensed) → IsPlanAt jobs.now going.now.job p l → WentOn steps l p going.now.made result.went }
    ensures span { SameRange span result.span }
    ensures kits { AreKits jobs.now.licences kits.new.items }
    ensures many { length kits.new.items ≡ length jobs.now.licences }
{
    let plan = jobs.plan(going.job);
    let licence = jobs.licence(going.job);
    let Ok(Kit { judge, stack }) = take_kit(alloc, kits, plan.licence, licence) else {
        return Turn {
            span,
            went: Went::Short,
        };
    };
    let Parts {
        before,
        piece,
        behind,
    } = cut_out(span, at, plan.lease);
    let Sliced {
        span: piece,
        stack,
        went,
    } = slice_job(
        alloc,
        licence,
        &judge,
        plan,
        &going.image,
        going.made,
        steps,
        piece,
        stack,
    );
    put_kit(kits, plan.licence, Kit { judge, stack });
    Turn {
        span: put_back(before, piece, behind),
        went,
    }
}

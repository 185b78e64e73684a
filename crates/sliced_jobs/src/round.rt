//! A round: each job that is under way has one turn.
ghost use Rattle.std.specs.Prelude.{◌≡◌, ℕ, ◌+◌, ◌-◌, ◌<◌, ◌≤◌, length, slice_set, take, Some, IfOk, IfErr, MatchResult, OnOk};
ghost use Rattle.licence.specs.Licensed.{Licensed};
ghost use Rattle.lease_desk.specs.Journal.{AreSizes};
ghost use Rattle.cell_machine.specs.Laid.{SameRange};
ghost use Rattle.job_world.specs.Plans.{Plan as PlainPlan, leases_of};
ghost use Rattle.sliced_jobs.specs.Ready.{WentOn};
ghost use Rattle.sliced_jobs.specs.Slices.{AreFuelled};
ghost use Rattle.sliced_jobs.specs.Table.{IsGoingOn, IsPlanAt, IsFiled, IsTable, lease_at, leased, left_of, most_slices};

use crate::job::Went;
use crate::table::{Going, Table};
use crate::turn::{Turn, take_turn};
use cell_machine::Ending;
use cell_span::Span;
use job_workers::Home;
use job_world::Jobs;
use std::alloc::{AllocError, Global};

// Puts down how a job ended, after so many slices, whose lease is free again.
fn file_ending(table: &mut Table, job: u32, lease: u32, number: u64, ending: Ending)
    requires there { job < length table.old.endings.items }
    requires too { job < length table.old.numbers.items }
    requires free { table.old.free + lease < 4294967296 }
    ensures endings { table.new.endings.items ≡ slice_set table.old.endings.items job (Some ending) }
    ensures numbers { table.new.numbers.items ≡ slice_set table.old.numbers.items job number }
    ensures free { table.new.free ≡ table.old.free + lease }
    ensures rest { (table.new.going ≡ table.old.going) × (table.new.next ≡ table.old.next) × (table.new.kits ≡ table.old.kits) }
{
    table.endings[job as usize] = Some(ending);
    table.numbers[job as usize] = number;
    table.free += lease;
}

// Puts down how the slice of a job went, of which so many were made before.
fn file_turn(table: &mut Table, going: Going, lease: u32, went: Went) -> Result<(), AllocError>
    requires there { going.job < length table.old.endings.items }
    requires too { going.job < length table.old.numbers.items }
    requires free { table.old.free + lease < 4294967296 }
    requires few { going.made < most_slices }
    ensures filed { OnOk result (IsFiled table.old table.new going lease went) }
{
    let Going {
        job,
        made,
        image: _,
    } = going;
    match went {
        Went::Ended(ending) => {
            file_ending(table, job, lease, made + 1, ending);
            Ok(())
        }
        Went::Paused(image) => {
            table.going.push_back(Going {
                job,
                made: made + 1,
                image: Some(image),
            })?;
            Ok(())
        }
        Went::Short => Err(AllocError),
    }
}

// What a turn leaves: the whole run, and where the cells of the next turn begin.
struct Place {
    span: Span,
    at: u32,
}

// The turn of the first job, in the cells from this place on.
fn serve_first(
    alloc: Global,
    jobs: &Jobs,
    table: &mut Table,
    steps: u64,
    span: Span,
    at: u32,
) -> Result<Place, Home>
    requires some { 1 ≤ steps }
    requires few { length jobs.now.plans ≤ 4096 }
    requires sizes { AreSizes (length span.cells) (leases_of jobs.now.plans) }
    requires table { IsTable steps jobs.now (length span.cells) table.old }
    requires first { 1 ≤ length table.old.going.items }
    requires room { at + leased jobs.now (take 1 table.old.going.items) ≤ length span.cells }
    ensures table { IfOk result (λ _. IsTable steps jobs.now (length span.cells) table.new) }
    ensures less { IfOk result (λ _. left_of jobs.now table.new < left_of jobs.now table.old) }
    ensures span { MatchResult result (λ place. SameRange span place.span) (λ home. SameRange span home.span) }
    ensures others { IfOk result (λ _. length table.old.going.items ≤ length table.new.going.items + 1) }
    ensures place { IfOk result (λ place. (k : ℕ) → 1 ≤ k → k ≤ length table.old.going.items
        → at + leased jobs.now (take k table.old.going.items) ≤ length span.cells
        → place.at + leased jobs.now (take (k - 1) table.new.going.items) ≤ length span.cells) }
{
    span.limits();
    let Some(going) = table.going.pop_front() else {
        unreachable!()
    };
    let lease = jobs.plan(going.job).lease;
    let Turn { span, went } = take_turn(alloc, jobs, &mut table.kits, &going, steps, span, at);
    match file_turn(table, going, lease, went) {
        Ok(()) => Ok(Place {
            span,
            at: at + lease,
        }),
        Err(_) => Err(Home { span }),
    }
}

/// A round: each job that is under way has one turn, in the cells behind those of the turn before. Where memory runs
/// out, the run comes home.
pub(crate) fn serve_round(
    alloc: Global,
    jobs: &Jobs,
    table: &mut Table,
    steps: u64,
    span: Span,
) -> Result<Span, Home>
    requires some { 1 ≤ steps }
    requires few { length jobs.now.plans ≤ 4096 }
    requires sizes { AreSizes (length span.cells) (leases_of jobs.now.plans) }
    requires table { IsTable steps jobs.now (length span.cells) table.old }
    ensures table { IfOk result (λ _. IsTable steps jobs.now (length span.cells) table.new) }
    ensures less { IfOk result (λ _. left_of jobs.now table.new + length table.old.going.items ≤ left_of jobs.now table.old) }
    ensures span { MatchResult result (λ s. SameRange span s) (λ home. SameRange span home.span) }
{
    let turns = table.under_way();
    let mut span = span;
    let mut at = 0;
    'turns: for _turn in 0..turns {
        match serve_first(alloc, jobs, table, steps, span, at) {
            Ok(
                Place {
                    span: whole,
                    at: next,
                },
            ) => {
                span = whole;
                at = next;
            }
            Err(home) => return Err(home),
        }
    }
    Ok(span)
}

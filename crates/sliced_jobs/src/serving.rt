//! Planned jobs served in slices: the call that serves them all.
ghost use Rattle.std.specs.Prelude.{◌≡◌, ◌*◌, ◌≤◌, length, sum, IfOk, IfErr, MatchResult, []};
ghost use Rattle.cell_span.specs.Range.{IsWhole};
ghost use Rattle.cell_machine.specs.Endings.{EndsWith};
ghost use Rattle.cell_machine.specs.Laid.{SameRange};
ghost use Rattle.job_world.specs.Plans.{leases_of};
ghost use Rattle.job_workers.specs.Ended.{AllEnded};
ghost use Rattle.lease_desk.specs.Journal.{AreSizes};
ghost use Rattle.sliced_jobs.specs.Slices.{AreFuelled, AreSlices};
ghost use Rattle.sliced_jobs.specs.Table.{IsTable};

use crate::round::serve_round;
use crate::table::Table;
use cell_machine::Ending;
use cell_span::Span;
use job_workers::Home;
use job_world::Jobs;
use std::alloc::Global;

/// What comes of jobs that are served in slices. It can't be dropped, as its span can't.
pub struct SlicedJobs {
    /// The ending of each job, in the place of its number.
    pub endings: Vec<Option<Ending>>,
    /// How many slices there were.
    pub slices: u128,
    /// The whole arena.
    pub span: Span,
}

// The sum of numbers.
fn total(numbers: &[u64]) -> u128
    requires { length numbers.now ≤ 4096 }
    ensures { result ≡ sum numbers.now }
{
    let mut total = 0;
    'numbers: for number in numbers {
        total += *number as u128;
    }
    total
}

// Rounds, until no job is left.
fn serve_rounds(
    alloc: Global,
    jobs: &Jobs,
    table: &mut Table,
    steps: u64,
    span: Span,
) -> Result<Span, Home>
    requires some { 1 ≤ steps }
    requires few { length jobs.now.plans ≤ 4096 }
    requires sizes { AreSizes (length span.cells) (leases_of jobs.now.plans) }
    requires fuels { AreFuelled jobs.now }
    requires table { IsTable steps jobs.now (length span.cells) table.old }
    ensures table { IfOk result (λ _. IsTable steps jobs.now (length span.cells) table.new) }
    ensures all { IfOk result (λ _. length jobs.now.plans ≤ table.new.next) }
    ensures none { IfOk result (λ _. table.new.going.items ≡ []) }
    ensures span { MatchResult result (λ s. SameRange span s) (λ home. SameRange span home.span) }
{
    let mut span = span;
    'rounds: while table.is_left(jobs) {
        match table.join_all(jobs) {
            Ok(()) => {}
            Err(_) => return Err(Home { span }),
        }
        match serve_round(alloc, jobs, table, steps, span) {
            Ok(whole) => span = whole,
            Err(home) => return Err(home),
        }
    }
    Ok(span)
}

/// Serves planned jobs on this thread, in slices of so many steps and as many more as it takes until nothing is lent.
/// The jobs join in their order, each as soon as its lease is at most the cells that are leased to none of those under
/// way, and each round makes one slice of each. Between two slices a job is the text of its image, so that its cells
/// may be others in each round.
///
/// # Errors
///
/// [`Home`] where memory ran out, also where a text would have 2^32 bytes or more. The whole arena comes home then.
pub fn serve_sliced(alloc: Global, span: Span, jobs: &Jobs, steps: u64) -> Result<SlicedJobs, Home>
    requires whole { IsWhole span }
    requires few { length jobs.now.plans ≤ 4096 }
    requires sizes { AreSizes span.arena.cells (leases_of jobs.now.plans) }
    requires steps { 1 ≤ steps }
    // Each plan has at most 2^40 units of fuel, so that an image can tell what is left of it.
    requires fuels { AreFuelled jobs.now }
    // Each job has its ending, which is the one that the meaning of its own plan says.
    ensures ended { IfOk result (λ served. AllEnded EndsWith jobs.now served.endings.items) }
    // There are as many slices as the runs of all plans take without any pause.
    ensures slices { IfOk result (λ served. AreSlices steps jobs.now served.slices) }
    // There are as many endings as jobs.
    ensures count { IfOk result (λ served. length served.endings.items ≡ length jobs.now.plans) }
    // The whole arena comes back, the one that was handed in.
    ensures whole { IfOk result (λ served. IsWhole served.span) }
    // The run that comes back is of the arena that was handed in.
    ensures arena { IfOk result (λ served. served.span.arena ≡ span.arena) }
    // It comes back too where memory ran out.
    ensures home { IfErr result (λ home. IsWhole home.span) }
    // The run that comes home is of that arena too.
    ensures home_arena { IfErr result (λ home. home.span.arena ≡ span.arena) }
{
    let Ok(mut table) = Table::new(alloc, jobs, span.len()) else {
        return Err(Home { span });
    };
    match serve_rounds(alloc, jobs, &mut table, steps, span) {
        Ok(span) => {
            let slices = total(&table.numbers);
            let Table {
                going: _,
                next: _,
                free: _,
                endings,
                numbers: _,
                kits: _,
            } = table;
            Ok(SlicedJobs {
                endings,
                slices,
                span,
            })
        }
        Err(home) => Err(home),
    }
}

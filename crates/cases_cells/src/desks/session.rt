//! A desk together with the leases that it gave.
ghost use Rattle.std.specs.Prelude.{◌≡◌, ◌<◌, ◌≤◌, [], length, replicate, slice_get, slice_set, Some, None, IfErr, IfSome, IfNone, vec_capacity};
ghost use Rattle.cell_span.specs.Range.{IsWhole, blank};
ghost use Rattle.hole_list.specs.Holes.{run_of};
ghost use Rattle.lease_desk.specs.Journal.{AreSizes};
ghost use Rattle.cases_cells.specs.Held.{AllHeld};

use crate::desks::copied::Copied;
use cell_span::{Cell, Span};
use lease_desk::{Desk, DeskName, DeskRefused, Event, Finished, Lease, Next};
use std::alloc::{AllocError, Global};
use std::marker::Model;
use std::mem::replace;

/// A desk and, in the place of each job, its lease where that is out.
pub(crate) struct Session<N: DeskName> {
    desk: Desk<N, Copied>,
    held: Vec<Option<Lease<N>>>,
}

impl<N: DeskName> Model for Session<N> {
    ghost use Rattle.lease_desk.specs.Desk.{DeskView};
    ghost use Rattle.cases_cells.specs.declared.desks.copied.Copied.{Copied};
    ghost use Rattle.cases_cells.specs.Held.{AllHeld};

    ghost Value = { DeskView Copied };

    ghost view = { λ s. s.desk };

    ghost invariant = { λ s. AllHeld s.held.items s.desk };
}

/// What comes of asking for the next job.
pub(crate) enum Asked {
    /// The job was given this run.
    Granted { job: u32, first: u32, size: u32 },
    /// The job waits.
    Full { job: u32, need: u32, largest: u32 },
    /// Every job was asked for, and leases are out.
    LeasesOut,
    /// Every job was asked for, and none waits.
    Over,
}

// A place for each of so many jobs, in which no lease is.
fn places<N: DeskName>(room: Vec<Option<Lease<N>>>, jobs: usize) -> Vec<Option<Lease<N>>>
    requires empty { room.items ≡ [] }
    requires room { jobs ≤ vec_capacity room }
    ensures { result.items ≡ replicate jobs None }
{
    let mut places = room;
    for _ in 0..jobs {
        places.push_reserved(None);
    }
    places
}

// Takes the lease of a job out of its place.
#[tactic(auto, using(crate::proofs::Holding::place_stays, crate::proofs::Holding::place_read))]
fn take<N: DeskName>(held: &mut Vec<Option<Lease<N>>>, job: u32) -> Option<Lease<N>>
    ensures some { IfSome result (λ l. (slice_get held.old.items job ≡ Some (Some l)) × (held.new.items ≡ slice_set held.old.items job None)) }
    ensures none { IfNone result (held.new.items ≡ held.old.items) }
{
    let at = job as usize;
    if at < held.len() && held[at].is_some() {
        replace(&mut held[at], None)
    } else {
        None
    }
}

// Puts a lease into the place of its job, where none is.
#[tactic(auto, using(crate::proofs::Holding::place_empty))]
fn keep<N: DeskName>(held: &mut Vec<Option<Lease<N>>>, lease: Lease<N>)
    requires { slice_get held.old.items lease.job ≡ Some None }
    ensures { held.new.items ≡ slice_set held.old.items lease.job (Some lease) }
{
    let at = lease.job() as usize;
    match replace(&mut held[at], Some(lease)) {
        None => {}
        Some(_) => unreachable!(),
    }
}

// Writes a tag into a cell of a run, where it has that one.
fn write_tag(span: &mut Span, tag: u32, at: u32)
    ensures run { run_of span.new ≡ run_of span.old }
    ensures arena { span.new.arena ≡ span.old.arena }
{
    if at < span.len() {
        let words = span.get(at).words;
        span.set(at, Cell { tag, words });
    }
}

// Writes a tag into a cell of a lease, where it has that one.
fn mark<N: DeskName>(lease: Lease<N>, tag: u32, at: u32) -> Lease<N>
    ensures job { result.job ≡ lease.job }
    ensures run { run_of result.range ≡ run_of lease.range }
{
    let (mut span, claim) = lease.open();
    write_tag(&mut span, tag, at);
    claim.close(span)
}

impl<N: DeskName> Session<N> {
    /// A new desk of the name's arena, whose cells are all blank, for at most 4,096 jobs of the name's sizes. Where
    /// memory runs out, the arena comes back.
    pub(crate) fn open(
        alloc: Global,
        span: Span,
        sizes: Vec<u32>,
    ) -> Result<Session<N>, DeskRefused>
        requires arena { span.arena ≡ N.arena }
        requires named { sizes.items ≡ N.sizes }
        requires whole { IsWhole span }
        requires blanks { span.cells ≡ replicate span.arena.cells blank }
        requires few { length sizes.items ≤ 4096 }
        requires fit { AreSizes span.arena.cells sizes.items }
        ensures { IfErr result (λ refused. refused.span ≡ span) }
    {
        let jobs = sizes.len();
        let Ok(room) = Vec::with_capacity(alloc, jobs) else {
            return Err(DeskRefused { span });
        };
        match Desk::new(alloc, span, sizes) {
            Ok(desk) => Ok(Session {
                desk,
                held: places(room, jobs),
            }),
            Err(refused) => {
                room.destroy_empty();
                Err(refused)
            }
        }
    }

    // Keeps a lease that the desk just gave.
    fn granted(held: &mut Vec<Option<Lease<N>>>, lease: Lease<N>) -> Asked
        requires { slice_get held.old.items lease.job ≡ Some None }
        ensures { held.new.items ≡ slice_set held.old.items lease.job (Some lease) }
    {
        let asked = Asked::Granted {
            job: lease.job(),
            first: lease.span().first(),
            size: lease.span().len(),
        };
        keep(held, lease);
        asked
    }

    /// Asks for the next job; once every job was asked for and no lease is out, takes the first one that waits.
    pub(crate) fn ask(&mut self) -> Asked {
        match self.desk.next() {
            Next::Granted(lease) => Session::<N>::granted(&mut self.held, lease),
            Next::Full { job, need, largest } => Asked::Full { job, need, largest },
            Next::Over => self.ask_left(),
        }
    }

    // Takes the first job that waits, where every job was asked for.
    fn ask_left(&mut self) -> Asked
        requires { self.old.state.asked ≡ length self.old.sizes }
    {
        if self.desk.out() > 0 {
            return Asked::LeasesOut;
        }
        match self.desk.next_left() {
            Some(lease) => Session::<N>::granted(&mut self.held, lease),
            None => Asked::Over,
        }
    }

    /// Writes a tag into a cell of a job's lease, counted from 0, where the lease has that one. False where the job has
    /// no lease.
    pub(crate) fn mark(&mut self, job: u32, tag: u32, at: u32) -> bool {
        match take(&mut self.held, job) {
            Some(lease) => {
                keep(&mut self.held, mark(lease, tag, at));
                true
            }
            None => false,
        }
    }

    /// Gives a job's lease back with a payload that has its cells. False where the job has none. `AllocError` where
    /// memory for the payload runs out; the lease stays out then.
    pub(crate) fn give(&mut self, alloc: Global, job: u32) -> Result<bool, AllocError> {
        let Some(lease) = take(&mut self.held, job) else {
            return Ok(false);
        };
        match Copied::of(alloc, &lease) {
            Ok(payload) => {
                self.desk.give(lease, payload);
                Ok(true)
            }
            Err(full) => {
                keep(&mut self.held, lease);
                Err(full)
            }
        }
    }

    /// Withdraws a job's lease. False where the job has none.
    pub(crate) fn withdraw(&mut self, job: u32) -> bool {
        match take(&mut self.held, job) {
            Some(lease) => {
                self.desk.withdraw(lease);
                true
            }
            None => false,
        }
    }

    /// The number of leases that are out.
    pub(crate) fn out(&self) -> u32 {
        self.desk.out()
    }

    /// The number of cells of all holes, that of the largest one, and how many leases are out and were withdrawn.
    pub(crate) fn counts(&self) -> (u64, u32, u32, u32) {
        (
            self.desk.free(),
            self.desk.largest(),
            self.desk.out(),
            self.desk.withdrawn(),
        )
    }

    /// The events so far.
    pub(crate) fn journal(&self) -> &[Event] {
        self.desk.journal()
    }

    /// Ends the desk; what is out is withdrawn before.
    pub(crate) fn finish(self) -> Finished<Copied>
        ensures { IsWhole result.span }
    {
        let Session { mut desk, mut held } = self;
        'places: while let Some(place) = held.pop() {
            match place {
                Some(lease) => desk.withdraw(lease),
                None => {}
            }
        }
        held.destroy_empty();
        desk.finish()
    }

    /// Ends the desk and its arena; what is out is withdrawn before.
    pub(crate) fn end(self) {
        let Finished {
            span,
            journal: _,
            payloads: _,
        } = self.finish();
        span.end();
    }
}

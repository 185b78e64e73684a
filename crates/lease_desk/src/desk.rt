ghost use Rattle.std.specs.Prelude.{◌≡◌, ℕ, ◌<◌, ◌≤◌, ◌↔◌, IsTrue, [], ◌∷◌, length, replicate, slice_get, Some, MatchResult, MatchOption};
ghost use Rattle.cell_span.specs.Range.{IsWhole, blank};
ghost use Rattle.hole_list.specs.Placing.{run, AreParts, total, largest};
ghost use Rattle.lease_desk.specs.Journal.{leased, left_move, AreSizes, IsLegal};
ghost use Rattle.lease_desk.specs.Filing.{HoldsFiled};
ghost use Rattle.lease_desk.specs.Progress.{times_at, one_out, IsSound};
ghost use Rattle.lease_desk.specs.Desk.{IsDesk, new_desk, Takes, NoneLeft, filed_with, withdrawn_with, filed_by, Knows, HasPayload, AllFiled};
ghost use Rattle.lease_desk.specs.Answers.{NextIs};

use crate::book::Book;
use crate::event::Event;
use crate::filed::Filed;
use crate::lease::Lease;
use crate::name::DeskName;
use crate::places::empty_places;
use cell_span::Span;
use hole_list::{Holes, HolesRefused};
use std::alloc::Global;
use std::marker::{Model, PhantomData};

/// Leases the runs of one arena to jobs, and keeps a journal of what it did.
///
/// Each job of a fixed list is asked for once, in order, and is given the front of the first hole that has cells enough
/// (first fit); a job for which no hole has waits, and is taken once all were asked for and no lease is out. A lease
/// goes back with a payload that stands for its job. All room is taken at the start: two entries of the journal for
/// each job, and one more for a job that waits.
pub struct Desk<N: DeskName, P: Filed> {
    holes: Holes,
    book: Book,
    payloads: Vec<Option<P>>,
    withdrawn: u32,
    of: PhantomData<N>,
}

impl<N: DeskName, P: Filed> Model for Desk<N, P> {
    ghost use Rattle.lease_desk.specs.Desk.{DeskView};
    ghost use Rattle.lease_desk.specs.Kept.{desk_of, IsKept, IsNamed};

    ghost Value = { DeskView P };

    ghost view = { λ d. desk_of d.holes d.book d.payloads.items d.withdrawn };

    ghost invariant = { λ d. IsKept P.job P.cells d.holes d.book d.payloads.items d.withdrawn × IsNamed N.arena N.sizes d.holes d.book };
}

/// What a desk answers when it is asked for the next job.
pub enum Next<N: DeskName> {
    /// The job's lease.
    Granted(Lease<N>),
    /// The job needs so many cells, and the largest hole has fewer: it waits.
    Full { job: u32, need: u32, largest: u32 },
    /// Every job was asked for.
    Over,
}

/// The memory for a desk ran out.
pub struct DeskRefused {
    /// The arena, as it was.
    pub span: Span,
}

/// What a desk leaves.
pub struct Finished<P: Filed> {
    /// The whole arena.
    pub span: Span,
    /// All events, in order.
    pub journal: Vec<Event>,
    /// The payload of each job, in the place of its number; `None` where none was filed.
    pub payloads: Vec<Option<P>>,
}

impl<N: DeskName, P: Filed> Desk<N, P> {
    /// A desk of a whole arena whose cells are all blank, for at most 4,096 jobs with these numbers of cells, each from
    /// 1 to the arena's: the arena and the sizes of its name. Where memory runs out, the arena comes back.
    pub fn new(alloc: Global, span: Span, sizes: Vec<u32>) -> Result<Desk<N, P>, DeskRefused>
        requires arena { span.arena ≡ N.arena }
        requires named { sizes.items ≡ N.sizes }
        requires whole { IsWhole span }
        requires blanks { span.cells ≡ replicate span.arena.cells blank }
        requires few { length sizes.items ≤ 4096 }
        requires sizes { AreSizes span.arena.cells sizes.items }
        ensures { MatchResult result (λ desk. desk ≡ new_desk span sizes.items) (λ refused. refused.span ≡ span) }
    {
        span.limits();
        let jobs = sizes.len();
        let Ok(book) = Book::new(alloc, sizes) else {
            return Err(DeskRefused { span });
        };
        let Ok(payloads) = empty_places(alloc, jobs) else {
            return Err(DeskRefused { span });
        };
        match Holes::new(alloc, span, jobs as u32) {
            Ok(holes) => Ok(Desk {
                holes,
                book,
                payloads,
                withdrawn: 0,
                of: PhantomData,
            }),
            Err(HolesRefused { span }) => Err(DeskRefused { span }),
        }
    }

    /// What each desk keeps. It does nothing.
    pub fn kept(&self)
        // It is of the arena and of the sizes of its name.
        ensures arena { self.now.arena ≡ N.arena }
        // The desk's sizes are those of its name.
        ensures sizes { self.now.sizes ≡ N.sizes }
        // Its state is the one behind its journal, and each cell of a hole is the one that was filed.
        ensures desk { IsDesk P.job P.cells self.now }
        // What holds behind each journal holds of its state.
        ensures sound { IsSound self.now.arena.cells self.now.sizes self.now.journal self.now.state }
        // Holes and leases share no cell, and have all cells of the arena and no others.
        ensures parts { AreParts (run 0 self.now.arena.cells) self.now.state.holes (leased self.now.state.leases) }
        // Where none was withdrawn, each job that was asked for, doesn't wait and isn't out has its payload.
        ensures filed { self.now.withdrawn ≡ 0 → (job : ℕ) → job < self.now.state.asked
            → times_at job self.now.state.waiting ≡ 0 → one_out (slice_get self.now.state.leases job) ≡ 0
            → HasPayload P.job self.now.payloads job }
    {
        let _ = &self.withdrawn;
    }

    /// Asks for the next job. It takes no memory.
    pub fn next(&mut self) -> Next<N>
        ensures { NextIs self.old self.new result }
    {
        let job = self.book.asked();
        let Some(size) = self.book.size(job) else {
            return Next::Over;
        };
        match self.holes.take(size) {
            Some(span) => {
                self.book.take(job, span.first(), span.len());
                self.book.ask();
                Next::Granted(Lease::new(job, span))
            }
            None => {
                let largest = self.holes.largest();
                self.book.wait(size, largest);
                Next::Full {
                    job,
                    need: size,
                    largest,
                }
            }
        }
    }

    /// Whether the next job fits: the largest hole has at least the cells that it needs, or every job was asked for.
    pub fn next_fits(&self) -> bool
        ensures { IsTrue result ↔ ((size : ℕ) → slice_get self.now.sizes self.now.state.asked ≡ Some size → size ≤ largest self.now.state.holes) }
    {
        match self.book.size(self.book.asked()) {
            Some(size) => size <= self.holes.largest(),
            None => true,
        }
    }

    /// Takes the job that waits first, once every job was asked for and no lease is out; `None` where none waits. The
    /// arena is one hole then, so that each job fits. It takes no memory.
    pub fn next_left(&mut self) -> Option<Lease<N>>
        requires asked { self.old.state.asked ≡ length self.old.sizes }
        requires none_out { leased self.old.state.leases ≡ [] }
        ensures { MatchOption result (NoneLeft self.old self.new) (Takes (left_move self.old.sizes self.old.state) self.old self.new) }
    {
        let Some(job) = self.book.first_waiting() else {
            return None;
        };
        let Some(size) = self.book.size(job) else {
            unreachable!()
        };
        match self.holes.take(size) {
            Some(span) => {
                self.book.take(job, span.first(), span.len());
                self.book.serve();
                Some(Lease::new(job, span))
            }
            None => unreachable!(),
        }
    }

    /// Takes a lease back and files its payload in the place of its job. It takes no memory.
    pub fn give(&mut self, lease: Lease<N>, payload: P)
        requires known { Knows self.old lease }
        requires number { P.job payload ≡ lease.job }
        requires cells { P.cells payload ≡ lease.range.cells }
        ensures { self.new ≡ filed_with self.old lease payload }
    {
        lease.kept();
        let (job, span) = lease.parts();
        let (first, size) = (span.first(), span.len());
        self.holes.give(span);
        self.book.give(job, first, size);
        self.payloads[job as usize] = Some(payload);
    }

    /// Takes a lease back that leaves no payload; nothing is known of its cells. It takes no memory.
    pub fn withdraw(&mut self, lease: Lease<N>)
        requires { Knows self.old lease }
        ensures { self.new ≡ withdrawn_with self.old lease }
    {
        lease.kept();
        let (job, span) = lease.parts();
        let (first, size) = (span.first(), span.len());
        self.holes.give(span);
        self.book.kept();
        self.withdrawn += 1;
        self.book.give(job, first, size);
    }

    /// How many leases were withdrawn.
    pub fn withdrawn(&self) -> u32
        ensures { result ≡ self.now.withdrawn }
    {
        self.withdrawn
    }

    /// Whether a lease of this job, with this first index and this size, is out. That it is of this desk's arena is in
    /// its type.
    pub fn knows(&self, lease: &Lease<N>) -> bool
        ensures { IsTrue result ↔ Knows self.now lease.now }
    {
        let span = lease.span();
        self.book.knows(lease.job(), span.first(), span.len())
    }

    /// The number of leases that are out.
    pub fn out(&self) -> u32
        ensures { result ≡ length (leased self.now.state.leases) }
    {
        self.book.out()
    }

    /// The events so far, in order.
    pub fn journal(&self) -> &[Event]
        ensures { result.now ≡ self.now.journal }
    {
        self.book.journal()
    }

    /// The number of cells of all holes.
    pub fn free(&self) -> u64
        ensures { result ≡ total self.now.state.holes }
    {
        self.holes.free()
    }

    /// The number of cells of the largest hole, and 0 where there is none.
    pub fn largest(&self) -> u32
        ensures { result ≡ largest self.now.state.holes }
    {
        self.holes.largest()
    }

    /// Ends a desk with no lease out: the whole arena with its cells, the journal and the payloads.
    pub fn finish(self) -> Finished<P>
        requires { leased self.state.leases ≡ [] }
        // The span is a whole arena.
        ensures whole { IsWhole result.span }
        // It is the one hole that is left.
        ensures hole { self.holes ≡ result.span ∷ [] }
        // It is the desk's arena.
        ensures arena { result.span.arena ≡ self.arena }
        // Each of its cells is the one that was filed.
        ensures cells { HoldsFiled (filed_by P.cells self.payloads) self.journal result.span }
        // The journal is the desk's.
        ensures journal { result.journal.items ≡ self.journal }
        // So are the payloads.
        ensures payloads { result.payloads.items ≡ self.payloads }
        // Where every job was asked for and none waits, the journal is legal.
        ensures legal { self.state.asked ≡ length self.sizes → self.state.waiting ≡ [] → IsLegal self.arena.cells self.sizes self.journal }
        // And where none was withdrawn either, each job has its payload.
        ensures filed { self.state.asked ≡ length self.sizes → self.state.waiting ≡ [] → self.withdrawn ≡ 0 → AllFiled P.job (length self.sizes) self.payloads }
    {
        let Desk {
            holes,
            book,
            payloads,
            withdrawn: _,
            of: _,
        } = self;
        Finished {
            span: holes.finish(),
            journal: book.finish(),
            payloads,
        }
    }
}

//! The book of a desk: who was asked, who waits, who has a lease, and the journal. Its room is taken at the start.
ghost use Rattle.std.specs.Prelude.{◌≡◌, ℕ, ◌+◌, ◌*◌, ◌<◌, ◌≤◌, ◌↔◌, IsTrue, List, [], ◌∷◌, ◌++◌, length, slice_get, Some, None, IfOk, vec_len, vec_capacity};
ghost use Rattle.hole_list.specs.Placing.{run};
ghost use Rattle.lease_desk.specs.declared.event.Event.TheVariants as event;
ghost use Rattle.lease_desk.specs.Journal.{leased};
ghost use Rattle.lease_desk.specs.BookView.{BookView, new_book, with_lease, with_asked, with_waiting, with_served};

use crate::event::Event;
use crate::places::empty_places;
use hole_list::Run;
use std::alloc::{AllocError, Global};
use std::marker::Model;

/// The most jobs of a desk.
const MOST_JOBS: u32 = 4096;

/// The jobs' sizes, how many of them were asked for, those that wait, each one's lease where it is out, and the
/// journal.
#[derive(Drop)]
pub struct Book {
    sizes: Vec<u32>,
    asked: u32,
    // all that ever waited, in order, and how many of these were taken since
    waiting: Vec<u32>,
    served: usize,
    leases: Vec<Option<Run>>,
    out: u32,
    journal: Vec<Event>,
}

impl Model for Book {
    ghost use Rattle.lease_desk.specs.BookView.{BookView};

    ghost Value = { BookView };

    ghost use Rattle.lease_desk.specs.Book.{book_of, IsBook};

    ghost view = { book_of };

    ghost invariant = { IsBook };
}

// Writes an event where there is room.
fn record(journal: &mut Vec<Event>, event: Event)
    requires { vec_len journal.old < vec_capacity journal.old }
    ensures items { journal.new.items ≡ journal.old.items ++ event ∷ [] }
    ensures capacity { vec_capacity journal.old ≤ vec_capacity journal.new }
{
    journal.push_reserved(event);
}

impl Book {
    /// An empty book for jobs of these sizes, at most 4,096. `AllocError` where memory runs out.
    pub fn new(alloc: Global, sizes: Vec<u32>) -> Result<Book, AllocError>
        requires { length sizes.items ≤ MOST_JOBS }
        ensures { IfOk result (λ book. book ≡ new_book sizes.items) }
    {
        let jobs = sizes.len();
        let leases = empty_places(alloc, jobs)?;
        let waiting = Vec::with_capacity(alloc, jobs)?;
        let journal = Vec::with_capacity(alloc, 3 * jobs)?;
        Ok(Book {
            sizes,
            asked: 0,
            waiting,
            served: 0,
            leases,
            out: 0,
            journal,
        })
    }

    /// What each book keeps. It does nothing.
    pub fn kept(&self)
        ensures jobs { length self.now.sizes ≤ 4096 }
        ensures most { self.now.asked ≤ length self.now.sizes }
        ensures places { length self.now.leases ≡ length self.now.sizes }
    {
        let _ = &self.sizes;
    }

    /// The number of jobs that were asked for, and so the next one.
    pub fn asked(&self) -> u32
        ensures { result ≡ self.now.asked }
    {
        self.asked
    }

    /// The size of a job; `None` where there is none of this number.
    pub fn size(&self, job: u32) -> Option<u32>
        ensures { result ≡ slice_get self.now.sizes job }
    {
        self.sizes.get(job as usize).copied()
    }

    /// The job's lease is this run.
    pub fn take(&mut self, job: u32, first: u32, size: u32)
        requires free { slice_get self.old.leases job ≡ Some None }
        requires room { length self.old.journal < 3 * length self.old.sizes }
        ensures { self.new ≡ with_lease self.old job (Some (run first size)) (event.Took job first size) }
    {
        self.leases[job as usize] = Some(Run { first, size });
        self.out += 1;
        record(&mut self.journal, Event::Took { job, first, size });
    }

    /// One job more was asked for.
    pub fn ask(&mut self)
        requires { self.old.asked < length self.old.sizes }
        ensures { self.new ≡ with_asked self.old }
    {
        self.asked += 1;
    }

    /// The job that is asked for waits: it needs so many cells, and the largest hole has these.
    pub fn wait(&mut self, need: u32, largest: u32)
        requires more { self.old.asked < length self.old.sizes }
        requires room { length self.old.journal < 3 * length self.old.sizes }
        ensures { self.new ≡ with_waiting self.old (event.Full self.old.asked need largest) }
    {
        let job = self.asked;
        self.waiting.push_reserved(job);
        self.asked = job + 1;
        record(&mut self.journal, Event::Full { job, need, largest });
    }

    /// The job that waits first.
    pub fn first_waiting(&self) -> Option<u32>
        ensures { result ≡ slice_get self.now.waiting 0 }
    {
        self.waiting.get(self.served).copied()
    }

    /// The job that waits first waits no longer.
    pub fn serve(&mut self)
        requires { 1 ≤ length self.old.waiting }
        ensures { self.new ≡ with_served self.old }
    {
        self.served += 1;
    }

    /// The job's lease, which is this run, is back.
    pub fn give(&mut self, job: u32, first: u32, size: u32)
        requires out { slice_get self.old.leases job ≡ Some (Some (run first size)) }
        requires room { length self.old.journal < 3 * length self.old.sizes }
        ensures { self.new ≡ with_lease self.old job None (event.Gave job first size) }
    {
        self.leases[job as usize] = None;
        self.out -= 1;
        record(&mut self.journal, Event::Gave { job, first, size });
    }

    /// Whether this run is the job's lease.
    pub fn knows(&self, job: u32, first: u32, size: u32) -> bool
        ensures { IsTrue result ↔ (slice_get self.now.leases job ≡ Some (Some (run first size))) }
    {
        match self.leases.get(job as usize) {
            Some(Some(lease)) => lease.first == first && lease.size == size,
            _ => false,
        }
    }

    /// The number of leases that are out.
    pub fn out(&self) -> u32
        ensures { result ≡ length (leased self.now.leases) }
    {
        self.out
    }

    /// The events so far.
    pub fn journal(&self) -> &[Event]
        ensures { result.now ≡ self.now.journal }
    {
        &self.journal
    }

    /// The events, at the end.
    pub fn finish(self) -> Vec<Event>
        ensures { result.items ≡ self.journal }
    {
        self.journal
    }
}

//! The jobs that are served, between two slices.
ghost use Rattle.std.specs.Prelude.{◌≡◌, ℕ, ◌<◌, ◌≤◌, ◌∷◌, ◌++◌, [], length, replicate, None, OnOk, IfOk, true, false};
ghost use Rattle.std.specs.List.{AllByRecursion};
ghost use Rattle.job_world.specs.Plans.{leases_of};
ghost use Rattle.lease_desk.specs.Journal.{AreSizes};
ghost use Rattle.sliced_jobs.specs.Slices.{AreFuelled};
ghost use Rattle.sliced_jobs.specs.Table.{IsLeft, IsTable, left_of, lease_at};

use crate::kit::Kit;
use cell_machine::Ending;
use job_world::Jobs;
use std::alloc::{AllocError, Global};
use std::collections::VecDeque;

/// A job that is under way: how many slices were made of it, and its text, where it has begun.
#[derive(Drop)]
pub(crate) struct Going {
    pub(crate) job: u32,
    pub(crate) made: u64,
    pub(crate) image: Option<Vec<u8>>,
}

/// The jobs that are served, between two slices.
#[derive(Drop)]
pub(crate) struct Table {
    /// Those that are under way, in the order of their turns.
    pub(crate) going: VecDeque<Going>,
    /// The first one that isn't asked for yet.
    pub(crate) next: u32,
    /// How many cells are leased to none of those under way.
    pub(crate) free: u32,
    /// The ending of each job that is over.
    pub(crate) endings: Vec<Option<Ending>>,
    /// How many slices it took.
    pub(crate) numbers: Vec<u64>,
    /// What the runs of each licence share.
    pub(crate) kits: Vec<Option<Kit>>,
}

// So many places without anything.
fn no_endings(alloc: Global, count: usize) -> Result<Vec<Option<Ending>>, AllocError>
    ensures { IfOk result (λ v. v.items ≡ replicate count None) }
{
    let mut endings = Vec::with_capacity(alloc, count)?;
    'places: for _place in 0..count {
        endings.push(None)?;
    }
    Ok(endings)
}

// So many places without anything.
fn no_kits(alloc: Global, count: usize) -> Result<Vec<Option<Kit>>, AllocError>
    ensures { IfOk result (λ v. v.items ≡ replicate count None) }
{
    let mut kits = Vec::with_capacity(alloc, count)?;
    'places: for _place in 0..count {
        kits.push(None)?;
    }
    Ok(kits)
}

// So many numbers 0.
fn zeros(alloc: Global, count: usize) -> Result<Vec<u64>, AllocError>
    ensures { IfOk result (λ v. v.items ≡ replicate count 0) }
{
    let mut numbers = Vec::with_capacity(alloc, count)?;
    'places: for _place in 0..count {
        numbers.push(0)?;
    }
    Ok(numbers)
}

impl Table {
    /// No job is asked for yet, and all cells are free.
    pub(crate) fn new(alloc: Global, jobs: &Jobs, arena: u32) -> Result<Table, AllocError>
        ensures { (asked : ℕ) → IfOk result (IsTable asked jobs.now arena) }
    {
        let count = jobs.count();
        let going = VecDeque::with_capacity(alloc, count)?;
        let endings = no_endings(alloc, count)?;
        let numbers = zeros(alloc, count)?;
        let kits = no_kits(alloc, jobs.licences().len())?;
        Ok(Table {
            going,
            next: 0,
            free: arena,
            endings,
            numbers,
            kits,
        })
    }

    /// Whether there is a next job, whose lease fits into the free cells.
    pub(crate) fn may_join(&self, jobs: &Jobs) -> bool
        ensures joins { result ≡ true → (self.now.next < length jobs.now.plans) × (lease_at jobs.now self.now.next ≤ self.now.free) }
        ensures waits { result ≡ false → self.now.next < length jobs.now.plans → self.now.free < lease_at jobs.now self.now.next }
    {
        if self.next as usize >= jobs.count() {
            return false;
        }
        jobs.plan(self.next).lease <= self.free
    }

    /// Asks for the next job, whose lease fits. `AllocError` where memory runs out.
    pub(crate) fn join(&mut self, jobs: &Jobs) -> Result<(), AllocError>
        requires few { length jobs.now.plans ≤ 4096 }
        requires next { self.old.next < length jobs.now.plans }
        requires fits { lease_at jobs.now self.old.next ≤ self.old.free }
        requires fuels { AreFuelled jobs.now }
        ensures table { (asked arena : ℕ) → IsTable asked jobs.now arena self.old → OnOk result (IsTable asked jobs.now arena self.new) }
        ensures less { OnOk result (left_of jobs.now self.new < left_of jobs.now self.old) }
        ensures some { OnOk result (1 ≤ length self.new.going.items) }
    {
        jobs.kept();
        let job = self.next;
        let lease = jobs.plan(job).lease;
        self.going.push_back(Going {
            job,
            made: 0,
            image: None,
        })?;
        self.next = job + 1;
        self.free -= lease;
        Ok(())
    }

    /// How many jobs are under way.
    pub(crate) fn under_way(&self) -> usize
        ensures { result ≡ length self.now.going.items }
    {
        self.going.len()
    }

    /// Whether a job isn't over.
    pub(crate) fn is_left(&self, jobs: &Jobs) -> bool
        ensures more { result ≡ true → IsLeft jobs.now self.now }
        ensures done { result ≡ false → (length jobs.now.plans ≤ self.now.next) × (self.now.going.items ≡ []) }
    {
        (self.next as usize) < jobs.count() || !self.going.is_empty()
    }

    /// Asks for each next job whose lease fits. `AllocError` where memory runs out.
    pub(crate) fn join_all(&mut self, jobs: &Jobs) -> Result<(), AllocError>
        requires few { length jobs.now.plans ≤ 4096 }
        requires fuels { AreFuelled jobs.now }
        ensures table { (asked arena : ℕ) → IsTable asked jobs.now arena self.old → OnOk result (IsTable asked jobs.now arena self.new) }
        ensures less { OnOk result (left_of jobs.now self.new ≤ left_of jobs.now self.old) }
        ensures some { (asked arena : ℕ) → IsTable asked jobs.now arena self.old → AreSizes arena (leases_of jobs.now.plans) → IsLeft jobs.now self.old
            → OnOk result (1 ≤ length self.new.going.items) }
    {
        'joins: while self.may_join(jobs) {
            self.join(jobs)?;
        }
        Ok(())
    }
}

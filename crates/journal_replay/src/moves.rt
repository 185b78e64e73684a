//! The moves of a desk, of which each event of a journal tells one.
ghost use Rattle.std.specs.Prelude.{◌≡◌, ◌≤◌, IfOk, length, slice_get, slice_set};
ghost use Rattle.std.specs.Option.{option_map};
ghost use Rattle.lease_desk.specs.Journal.{after_event, as_told, give_move, is_none_out, left_move, move, next_move, opened};
ghost use Rattle.journal_replay.specs.States.{state_of};

use crate::holes::{give, largest, take};
use crate::state::State;
use hole_list::Run;
use lease_desk::Event;
use std::alloc::{AllocError, Global};

// The number in this place.
fn number_at(numbers: &[u32], place: usize) -> Option<u32>
    ensures { result ≡ slice_get numbers.now place }
{
    numbers.get(place).copied()
}

// The lease of a job, where the job has a place.
fn lease_at(leases: &[Option<Run>], job: usize) -> Option<Option<Run>>
    ensures { result ≡ slice_get leases.now job }
{
    leases.get(job).copied()
}

// The lease of a job is this one; nothing changes where the job has no place.
fn set_lease(leases: &mut Vec<Option<Run>>, job: usize, lease: Option<Run>)
    ensures { leases.new.items ≡ slice_set leases.old.items job lease }
{
    if job < leases.len() {
        leases[job] = lease;
    }
}

// Whether no lease is out.
fn none_out(leases: &[Option<Run>]) -> bool
    ensures { result ≡ is_none_out leases.now }
{
    let mut rest = leases;
    'leases: while let [lease, others @ ..] = rest {
        if lease.is_some() {
            return false;
        }
        rest = others;
    }
    true
}

impl State {
    /// The state before the first event: the arena is one hole.
    #[tactic(auto, using(crate::proofs::Limits::none_within, crate::proofs::Limits::many_none))]
    pub(crate) fn opened(alloc: Global, arena: u32, jobs: usize) -> Result<State, AllocError>
        requires { jobs ≤ 4294967295 }
        ensures { IfOk result (λ s. state_of s ≡ opened arena jobs) }
    {
        let mut holes = Vec::new(alloc);
        holes.push(Run {
            first: 0,
            size: arena,
        })?;
        let mut leases = Vec::with_capacity(alloc, jobs)?;
        for _job in 0..jobs {
            leases.push(None)?;
        }
        Ok(State {
            alloc,
            asked: 0,
            waiting: Vec::new(alloc),
            served: 0,
            holes,
            leases,
        })
    }

    // The move that the next job makes, which is asked for.
    #[tactic(auto, using(crate::proofs::Moving::next_took, crate::proofs::Moving::next_waits, crate::proofs::Moving::one_waits, crate::proofs::Limits::take_within, crate::proofs::Limits::set_within, crate::proofs::Limits::set_few))]
    fn next(self, sizes: &[u32]) -> Result<Option<(Event, State)>, AllocError>
        requires { length sizes.now ≤ 4294967295 }
        ensures { IfOk result (λ o. option_map (λ x. move x.0 (state_of x.1)) o ≡ next_move sizes.now (state_of self)) }
    {
        let State {
            alloc,
            asked,
            mut waiting,
            served,
            holes,
            mut leases,
        } = self;
        let Some(size) = number_at(sizes, asked) else {
            return Ok(None);
        };
        let job = asked as u32;
        let (holes, found) = take(alloc, holes, size)?;
        match found {
            Some(first) => {
                set_lease(&mut leases, asked, Some(Run { first, size }));
                let state = State {
                    alloc,
                    asked: asked + 1,
                    waiting,
                    served,
                    holes,
                    leases,
                };
                Ok(Some((Event::Took { job, first, size }, state)))
            }
            None => {
                let largest = largest(&holes);
                waiting.push(job)?;
                let state = State {
                    alloc,
                    asked: asked + 1,
                    waiting,
                    served,
                    holes,
                    leases,
                };
                let event = Event::Full {
                    job,
                    need: size,
                    largest,
                };
                Ok(Some((event, state)))
            }
        }
    }

    // The move that the job makes that waits first, once all were asked for and no lease is out.
    #[tactic(auto, using(crate::proofs::Moving::left_took, crate::proofs::Moving::left_large, crate::proofs::Moving::left_beyond, crate::proofs::Moving::left_none, crate::proofs::Limits::take_within, crate::proofs::Limits::set_within, crate::proofs::Limits::set_few))]
    fn left(self, sizes: &[u32]) -> Result<Option<(Event, State)>, AllocError>
        ensures { IfOk result (λ o. option_map (λ x. move x.0 (state_of x.1)) o ≡ left_move sizes.now (state_of self)) }
    {
        let State {
            alloc,
            asked,
            waiting,
            served,
            holes,
            mut leases,
        } = self;
        if asked != sizes.len() {
            return Ok(None);
        }
        if !none_out(&leases) {
            return Ok(None);
        }
        let Some(job) = number_at(&waiting, served) else {
            return Ok(None);
        };
        let Some(size) = number_at(sizes, job as usize) else {
            return Ok(None);
        };
        let (holes, found) = take(alloc, holes, size)?;
        let Some(first) = found else {
            return Ok(None);
        };
        set_lease(&mut leases, job as usize, Some(Run { first, size }));
        let state = State {
            alloc,
            asked,
            waiting,
            served: served + 1,
            holes,
            leases,
        };
        Ok(Some((Event::Took { job, first, size }, state)))
    }

    // The move of the lease of a job that goes back.
    #[tactic(auto, using(crate::proofs::Moving::back_gave, crate::proofs::Limits::give_within, crate::proofs::Limits::set_within, crate::proofs::Limits::set_few, crate::proofs::Limits::lease_within))]
    fn back(self, job: u32) -> Result<Option<(Event, State)>, AllocError>
        ensures { IfOk result (λ o. option_map (λ x. move x.0 (state_of x.1)) o ≡ give_move (state_of self) job) }
    {
        let State {
            alloc,
            asked,
            waiting,
            served,
            holes,
            mut leases,
        } = self;
        let Some(lease) = lease_at(&leases, job as usize) else {
            return Ok(None);
        };
        let Some(run) = lease else {
            return Ok(None);
        };
        let holes = give(alloc, holes, run)?;
        set_lease(&mut leases, job as usize, None);
        let state = State {
            alloc,
            asked,
            waiting,
            served,
            holes,
            leases,
        };
        let event = Event::Gave {
            job,
            first: run.first,
            size: run.size,
        };
        Ok(Some((event, state)))
    }

    // The move that an event may tell.
    #[tactic(auto, using(crate::proofs::Moving::told_gave, crate::proofs::Moving::took_next, crate::proofs::Moving::full_next, crate::proofs::Moving::took_left, crate::proofs::Moving::full_left))]
    fn moved(self, sizes: &[u32], event: Event) -> Result<Option<(Event, State)>, AllocError>
        requires { length sizes.now ≤ 4294967295 }
        ensures { IfOk result (λ o. as_told event (option_map (λ x. move x.0 (state_of x.1)) o) ≡ after_event sizes.now (state_of self) event) }
    {
        match event {
            Event::Gave { job, .. } => self.back(job),
            Event::Took { .. } | Event::Full { .. } => {
                if self.asked < sizes.len() {
                    self.next(sizes)
                } else {
                    self.left(sizes)
                }
            }
        }
    }

    /// The state behind an event that a move of the desk tells; `None` where no move does.
    #[tactic(auto, using(crate::proofs::Moving::same_event, crate::proofs::Moving::other_event))]
    pub(crate) fn follow(self, sizes: &[u32], event: Event) -> Result<Option<State>, AllocError>
        requires { length sizes.now ≤ 4294967295 }
        ensures { IfOk result (λ o. option_map state_of o ≡ after_event sizes.now (state_of self) event) }
    {
        match self.moved(sizes, event)? {
            Some((told, state)) => {
                if told == event {
                    Ok(Some(state))
                } else {
                    Ok(None)
                }
            }
            None => Ok(None),
        }
    }
}

//! Holes as runs: the front of the first one that has cells enough is taken, and a run that goes back is merged with
//! its neighbours.
ghost use Rattle.std.specs.Prelude.{◌≡◌, ◌+◌, ◌≤◌, None, Some, MatchOption, IfOk};
ghost use Rattle.hole_list.specs.Placing.{give_run, largest, run, take_run, taken};
ghost use Rattle.journal_replay.specs.Within.{AreWithin, IsWithin};

use hole_list::Run;
use std::alloc::{AllocError, Global};

/// The greatest size of a hole, and 0 where there is none.
pub(crate) fn largest(holes: &[Run]) -> u32
    ensures { result ≡ largest holes.now }
{
    let mut most: u32 = 0;
    let mut rest = holes;
    'holes: while let [hole, others @ ..] = rest {
        most = most.max(hole.size);
        rest = others;
    }
    most
}

/// Takes the front of the first hole that has so many cells: the holes that are left, and where it begins. Where no
/// hole has so many all holes are left.
#[tactic(auto, using(crate::proofs::Taking::taken_start, crate::proofs::Taking::taken_small, crate::proofs::Taking::taken_later, crate::proofs::Taking::taken_whole, crate::proofs::Taking::taken_part))]
pub(crate) fn take(
    alloc: Global,
    holes: Vec<Run>,
    size: u32,
) -> Result<(Vec<Run>, Option<u32>), AllocError>
    requires { AreWithin holes.items }
    ensures { IfOk result (λ x. MatchOption x.1 ((take_run holes.items size ≡ None) × (x.0.items ≡ holes.items))
        (λ first. take_run holes.items size ≡ Some (taken (run first size) x.0.items))) }
{
    let mut left = Vec::with_capacity(alloc, holes.len())?;
    let mut found = None;
    'holes: for hole in holes {
        match found {
            Some(_) => left.push(hole)?,
            None => {
                if hole.size < size {
                    left.push(hole)?;
                } else {
                    found = Some(hole.first);
                    if hole.size > size {
                        left.push(Run {
                            first: hole.first + size,
                            size: hole.size - size,
                        })?;
                    }
                }
            }
        }
    }
    Ok((left, found))
}

/// The holes with one more, merged with the hole that ends where it begins and with the one that begins where it ends.
#[tactic(auto, using(crate::proofs::Taking::given_later, crate::proofs::Taking::given_front, crate::proofs::Taking::given_before, crate::proofs::Taking::given_behind, crate::proofs::Taking::given_past))]
pub(crate) fn give(alloc: Global, holes: Vec<Run>, run: Run) -> Result<Vec<Run>, AllocError>
    requires holes { AreWithin holes.items }
    requires run { IsWithin run }
    ensures { IfOk result (λ all. all.items ≡ give_run holes.items run) }
{
    let mut all = Vec::with_capacity(alloc, holes.len())?;
    let mut more = Some(run);
    'holes: for hole in holes {
        match more {
            None => all.push(hole)?,
            Some(run) => {
                let end = run.first + run.size;
                if end < hole.first {
                    all.push(run)?;
                    all.push(hole)?;
                    more = None;
                } else if end == hole.first {
                    all.push(Run {
                        first: run.first,
                        size: run.size + hole.size,
                    })?;
                    more = None;
                } else if hole.first + hole.size == run.first {
                    more = Some(Run {
                        first: hole.first,
                        size: hole.size + run.size,
                    });
                } else {
                    all.push(hole)?;
                }
            }
        }
    }
    if let Some(run) = more {
        all.push(run)?;
    }
    Ok(all)
}

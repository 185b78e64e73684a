ghost use Rattle.std.specs.Prelude.{◌≡◌, ◌≤◌, IfOk, length};
ghost use Rattle.std.specs.Option.{option_map};
ghost use Rattle.journal_replay.specs.Replaying.{are_sizes, held_from, replayed, told_of};

use crate::state::State;
use crate::told::{DeskState, Held};
use hole_list::Run;
use lease_desk::Event;
use std::alloc::{AllocError, Global};

// Whether each job has at least one cell, and no more than the arena.
fn are_sizes(arena: u32, sizes: &[u32]) -> bool
    ensures { result ≡ are_sizes arena sizes.now }
{
    let mut rest = sizes;
    'sizes: while let [size, others @ ..] = rest {
        if *size < 1 {
            return false;
        }
        if *size > arena {
            return false;
        }
        rest = others;
    }
    true
}

// The leases that are out.
fn leases_out(alloc: Global, leases: &[Option<Run>]) -> Result<Vec<Held>, AllocError>
    requires { length leases.now ≤ 4294967295 }
    ensures { IfOk result (λ all. all.items ≡ held_from 0 leases.now) }
{
    let mut all = Vec::new(alloc);
    let mut job: u32 = 0;
    let mut rest = leases;
    'leases: while let [lease, others @ ..] = rest {
        if let Some(run) = *lease {
            all.push(Held { job, run })?;
        }
        job += 1;
        rest = others;
    }
    Ok(all)
}

/// What a journal of jobs of these sizes comes to in an arena of so many cells: the holes and the leases that are out
/// (`specs/Replaying.antt`). `None` exactly where a size is 0 or larger than the arena, or where an event isn't the
/// next move of a desk behind the events before it. `AllocError` where memory runs out. An event takes time for each
/// hole, and one that takes a job that waited for each job too.
pub fn replay(
    alloc: Global,
    journal: &[Event],
    arena: u32,
    sizes: &[u32],
) -> Result<Option<DeskState>, AllocError>
    requires few { length sizes.now ≤ 4294967295 }
    ensures { IfOk result (λ o. option_map told_of o ≡ replayed arena sizes.now journal.now) }
{
    if !are_sizes(arena, sizes) {
        return Ok(None);
    }
    let mut state = State::opened(alloc, arena, sizes.len())?;
    let mut rest = journal;
    'events: while let [event, others @ ..] = rest {
        match state.follow(sizes, *event)? {
            Some(next) => state = next,
            None => return Ok(None),
        }
        rest = others;
    }
    let leases = leases_out(alloc, &state.leases)?;
    Ok(Some(DeskState {
        holes: state.holes,
        leases,
    }))
}

//! Empty places, one for each job.
ghost use Rattle.std.specs.Prelude.{◌≡◌, replicate, None, IfOk};

use std::alloc::{AllocError, Global};

/// So many empty places. `AllocError` where memory runs out.
pub fn empty_places<T: Drop>(alloc: Global, jobs: usize) -> Result<Vec<Option<T>>, AllocError>
    ensures { IfOk result (λ places. places.items ≡ replicate jobs None) }
{
    let mut places = Vec::with_capacity(alloc, jobs)?;
    for _ in 0..jobs {
        places.push(None)?;
    }
    Ok(places)
}

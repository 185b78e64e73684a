ghost use Rattle.std.specs.Prelude.{◌≡◌, IfOk, IsTrue, map, slice_get};
ghost use Rattle.grail_code.specs.Code.{func_of, block_of};
ghost use Rattle.grail_code.specs.WellFormed.{params_at};
ghost use Rattle.grail_check.specs.Sets.{HasAll, HaveParams, params_prop};

use super::local_set::LocalSet;
use grail_code::{Block, Func};
use std::alloc::{AllocError, Global};

/// A function, and for each of its blocks the set of its parameters, unless one of them is 256 or more.
#[derive(Clone, Copy)]
pub(crate) struct Body<'a> {
    pub(crate) func: &'a Func,
    pub(crate) params: &'a [Option<LocalSet>],
    pub(crate) ghost known: { HaveParams params.now (func_of func.now).blocks } by { params_prop params.now (func_of func.now).blocks },
}

/// For each block the set of its parameters, made once for all jumps.
#[tactic(auto, using(crate::proofs::ReadyLaws::no_block))]
pub(crate) fn params_of(
    alloc: Global,
    blocks: &[Block],
) -> Result<Vec<Option<LocalSet>>, AllocError>
    ensures { IfOk result (λ sets. HaveParams sets.items (map block_of blocks.now)) }
{
    let mut sets = Vec::new(alloc);
    'each: for block in blocks {
        sets.push(LocalSet::of(&block.params))?;
    }
    Ok(sets)
}

// The set of the block of this number.
fn set_at(sets: &[Option<LocalSet>], block: u32) -> Option<Option<LocalSet>>
    ensures { result ≡ slice_get sets.now block }
{
    sets.get(block as usize).copied()
}

/// Whether all parameters of the block are in the set, as far as it is known without a look at each of them.
pub(crate) fn is_covered(body: Body<'_>, block: u32, set: &LocalSet) -> bool
    ensures { IsTrue result → HasAll set.now.words (params_at (func_of body.entry.func.now).blocks block) }
{
    match set_at(body.params, block) {
        Some(Some(params)) => params.is_within(set),
        _ => false,
    }
}

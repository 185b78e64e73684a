//! What is live at the beginning of each block of a function: one pass over its blocks, from the last to the first.
ghost use Rattle.std.specs.Prelude.{◌≡◌, map, IfOk};
ghost use Rattle.normal_form.specs.Live.{lets_live, term_live};
ghost use Rattle.normal_form.specs.Programs.{block_of};
ghost use Rattle.code_gen.specs.Marked.{AreSeen, IsMarked, told};

use crate::local_set::LocalSet;
use crate::marks::mark_block;
use normal_form::NormalBlock;
use std::alloc::{AllocError, Global};

// What is live at the beginning of a block.
fn live_at(block: &NormalBlock, later: &[LocalSet], count: usize) -> LocalSet
    ensures { IsMarked result (lets_live (block_of block.now).lets (term_live (told later.now count) (block_of block.now).term)) }
{
    let mut marks = LocalSet::new();
    mark_block(&mut marks, block, later, count);
    marks
}

/// For each block, which locals are live at its beginning. The last block's come first.
#[tactic(auto, using(crate::proofs::Seeing::seen_start, crate::proofs::Seeing::seen_all))]
pub(crate) fn live_at_blocks(
    alloc: Global,
    blocks: &[NormalBlock],
) -> Result<Vec<LocalSet>, AllocError>
    ensures { IfOk result (λ seen. AreSeen (map block_of blocks.now) 0 seen.items) }
{
    let mut seen = Vec::with_capacity(alloc, blocks.len())?;
    let mut left = blocks.len();
    while left > 0 {
        left -= 1;
        let marks = live_at(&blocks[left], &seen, blocks.len());
        seen.push(marks)?;
    }
    Ok(seen)
}

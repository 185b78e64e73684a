//! Lines, cut into blocks.
ghost use Rattle.std.specs.Prelude.{◌≡◌, ◌∷◌, ◌++◌, [], map, IfOk};
ghost use Rattle.normal_form.specs.Normal.{cut};
ghost use Rattle.normal_form.specs.Parts.{line_of};
ghost use Rattle.normal_form.specs.Programs.{block_of};

use crate::part::Line;
use crate::program::NormalBlock;
use grail_blocks::Let;
use std::alloc::{AllocError, Global};

// One let more. The first one makes room for two, which most blocks don't exceed.
#[inline(always)]
fn with_let(alloc: Global, mut lets: Vec<Let>, next: Let) -> Result<Vec<Let>, AllocError>
    ensures { IfOk result (λ all. all.items ≡ lets.items ++ next ∷ []) }
{
    if lets.is_empty() {
        let mut first = Vec::with_capacity(alloc, 2)?;
        first.push(next)?;
        return Ok(first);
    }
    lets.push(next)?;
    Ok(lets)
}

/// The blocks of these lines, each up to its end. There is room for so many at once.
pub(crate) fn cut_lines(
    alloc: Global,
    lines: Vec<Line>,
    room: usize,
) -> Result<Vec<NormalBlock>, AllocError>
    ensures { IfOk result (λ blocks. map block_of blocks.items ≡ cut (map line_of lines.items)) }
{
    let mut blocks = Vec::with_capacity(alloc, room)?;
    let mut lets = Vec::new(alloc);
    'lines: for line in lines {
        match line {
            Line::Bind(next) => lets = with_let(alloc, lets, next)?,
            Line::Close(term) => {
                blocks.push(NormalBlock { lets, term })?;
                lets = Vec::new(alloc);
            }
        }
    }
    Ok(blocks)
}

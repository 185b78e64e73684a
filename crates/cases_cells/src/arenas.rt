//! Whole arenas, each for the runs of one command.
ghost use Rattle.std.specs.Prelude.{◌≡◌, ◌≤◌, length, replicate, IfOk};
ghost use Rattle.cell_span.specs.Range.{IsWhole, blank};

use cell_span::Span;
use std::alloc::{AllocError, Global};

/// The whole of a new arena of so many cells, from 1 to 2147483648, all of which are blank. `AllocError` where memory
/// runs out.
pub(crate) fn new_arena(alloc: Global, cells: u32) -> Result<Span, AllocError>
    requires some { 1 ≤ cells }
    requires few { cells ≤ 2147483648 }
    ensures whole { IfOk result IsWhole }
    ensures size { IfOk result (λ span. span.arena.cells ≡ cells) }
    ensures count { IfOk result (λ span. length span.cells ≡ cells) }
    ensures blanks { IfOk result (λ span. span.cells ≡ replicate span.arena.cells blank) }
{
    let span = Span::new(alloc, cells)?;
    Ok(span)
}

ghost use Rattle.std.specs.Prelude.{◌≡◌, ◌≤◌, length, MatchResult, OnErr, Option, slice_get};
ghost use Rattle.cell_machine.specs.Cells.{inline_base};
ghost use Rattle.cell_machine.specs.Steps.{if_there};
ghost use Rattle.cell_owners.specs.FreeLists.{IsFreeTaken, FailsAt, HasNone};
ghost use Rattle.cell_owners.specs.Looks.{next_of};

use crate::marks::CellMarks;
use cell_span::Cell;

/// Where a free list ends, and the tag of a free cell.
const NO_CELL: u32 = 4294967295;

// Where the free list goes on behind this cell, if it is a free one: its other words are 0.
fn next_in(cell: Cell) -> Option<u32>
    ensures { result ≡ next_of cell }
{
    let [next, second, third, fourth] = cell.words;
    if cell.tag == NO_CELL {
        if second == 0 {
            if third == 0 {
                if fourth == 0 {
                    return Some(next);
                }
            }
        }
    }
    None
}

// The same of the cell at this offset; None where there is no cell.
fn next_free(cells: &[Cell], at: u32) -> Option<u32>
    ensures { result ≡ if_there (slice_get cells.now at) next_of }
{
    match cells.get(at as usize) {
        Some(cell) => next_in(*cell),
        None => None,
    }
}

/// Walks the free list from its head on and marks its cells. It answers how many they are, or the first offset of the
/// list at which there is no free cell without an owner: a list that comes back to a cell of its own fails there.
#[tactic(auto, using(crate::proofs::Marking::inside, crate::proofs::FreeWalk::starts, crate::proofs::FreeWalk::goes_on, crate::proofs::Marking::smaller, crate::proofs::FreeWalk::counts, crate::proofs::FreeWalk::ends, crate::proofs::FreeWalk::fails_none, crate::proofs::FreeWalk::fails_marked, crate::proofs::FreeWalk::none_at_none, crate::proofs::FreeWalk::none_at_marked))]
pub fn take_free(marks: &mut CellMarks, cells: &[Cell], head: u32) -> Result<u32, u32>
    requires many { length marks.old ≡ length cells.now }
    requires few { length cells.now ≤ inline_base }
    // Ok exactly where the list runs through cells without an owner, each once; they are so many, and have one now.
    // Err with the first offset of the list that isn't one of its cells.
    ensures answer { MatchResult result (IsFreeTaken cells.now head marks.old marks.new) (FailsAt cells.now marks.old head) }
    // Err says also that no list from this head runs through cells without an owner, each once.
    ensures none { OnErr result (HasNone cells.now marks.old head) }
    // There are as many marks as before.
    ensures marks { length marks.new ≡ length marks.old }
{
    let mut at = head;
    let mut count = 0;
    'cells: while at != NO_CELL {
        let next = match next_free(cells, at) {
            Some(next) => next,
            None => return Err(at),
        };
        if marks.is_marked(at) {
            return Err(at);
        }
        marks.mark(at);
        count += 1;
        at = next;
    }
    Ok(count)
}

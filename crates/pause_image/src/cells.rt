//! What the types say of cells.
ghost use Rattle.std.specs.Prelude.{map};
ghost use Rattle.std.specs.List.{AllByRecursion};
ghost use Rattle.machine_image.specs.Images.{CellIsFormed};
ghost use Rattle.machine_image.specs.Words.{cell_of};
ghost use Rattle.pause_image.specs.Pausing.{HasFourWords};

use cell_span::Cell;

// A cell has four words, and tag and words have 32 bits. It does nothing.
fn is_cell(cell: Cell)
    ensures four { HasFourWords cell }
    ensures formed { CellIsFormed (cell_of cell) }
{
    let [_, _, _, _] = cell.words;
}

/// Each cell has four words, and tag and words have 32 bits. It does nothing; its clauses are what whoever holds cells
/// can use.
pub(crate) fn are_cells(cells: &[Cell])
    ensures four { AllByRecursion HasFourWords cells.now }
    ensures formed { AllByRecursion CellIsFormed (map cell_of cells.now) }
{
    'cells: for at in 0..cells.len() {
        is_cell(cells[at]);
    }
}

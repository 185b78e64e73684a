ghost use Rattle.std.specs.Prelude.{◌≡◌, ◌≤◌, ◌<◌, ◌+◌, ◌*◌, ◌^◌, length, Some, IfOk, slice_get};
ghost use Rattle.annotations.specs.Vectors.{Vector as Units};
ghost use Rattle.cell_machine.specs.Cells.{inline_base};
ghost use Rattle.cell_machine.specs.Homes.{homes_from};
ghost use Rattle.cell_machine.specs.Steps.{if_there};
ghost use Rattle.cell_owners.specs.Looks.{boxed_by, con_of, due_at, look_at, open_at, put_all, PileIs, PutIs};
ghost use Rattle.cell_owners.specs.Values.{AnswerIs, IsAtMost, vector_of};

use crate::look::{Due, Look, con_of, look_at, node_units};
use crate::marks::CellMarks;
use annotations::Vector;
use camelot_values::{Kind, Types};
use cell_machine::Stack;
use cell_span::Cell;
use std::alloc::AllocError;

// One word more: its cell is due, or it needs none. It answers what its node carries, if it needs no cell; None where
// the word stands for nothing.
fn put(
    due: &mut Vec<Due>,
    stack: &Stack,
    types: &Types,
    vector: Option<&Vector>,
    kind: Kind,
    word: u32,
) -> Result<Option<u64>, AllocError>
    requires homes { stack.now.homes ≡ homes_from 0 types.now }
    ensures { IfOk result (PutIs (look_at types.now (vector_of vector.entry) kind word) due.old.items due.new.items) }
{
    match look_at(stack, types, vector, kind, word) {
        Look::Wrong => Ok(None),
        Look::Leaf(units) => Ok(Some(units)),
        Look::Cell(cell) => {
            due.push(cell)?;
            Ok(Some(0))
        }
    }
}

// The words of these kinds, one by one. It adds up what the nodes without cells carry, beside so many units.
fn put_all(
    due: &mut Vec<Due>,
    stack: &Stack,
    types: &Types,
    vector: Option<&Vector>,
    kinds: &[Kind],
    words: &[u32],
    units: u64,
) -> Result<Option<u128>, AllocError>
    requires homes { stack.now.homes ≡ homes_from 0 types.now }
    requires few { length kinds.now ≤ 4 }
    ensures put { IfOk result (PileIs (put_all types.now (vector_of vector.entry) kinds.now words.now due.old.items units) due.new.items) }
    ensures range { IfOk result (IsAtMost (5 * 2 ^ 64)) }
{
    let mut total = units as u128;
    let mut kinds_left = kinds;
    let mut words_left = words;
    'parts: while let [kind, more_kinds @ ..] = kinds_left {
        match words_left {
            [] => return Ok(None),
            [word, more_words @ ..] => {
                let answer = put(due, stack, types, vector, *kind, *word)?;
                match answer {
                    Some(units) => total += units as u128,
                    None => return Ok(None),
                }
                words_left = more_words;
            }
        }
        kinds_left = more_kinds;
    }
    Ok(Some(total))
}

// The parts of a boxed constructor of the type of this number, which stands in the cell.
fn open_boxed(
    due: &mut Vec<Due>,
    stack: &Stack,
    types: &Types,
    vector: Option<&Vector>,
    number: u32,
    cell: Cell,
) -> Result<Option<u128>, AllocError>
    requires homes { stack.now.homes ≡ homes_from 0 types.now }
    ensures put { IfOk result (PileIs (boxed_by types.now (vector_of vector.entry) cell due.old.items (con_of types.now number cell.tag)) due.new.items) }
    ensures range { IfOk result (IsAtMost (5 * 2 ^ 64)) }
{
    types.limits();
    match con_of(stack, types, number, cell.tag) {
        Some(con) => {
            if con.inline {
                return Ok(None);
            }
            let units = node_units(types, vector, number, cell.tag);
            let answer = put_all(due, stack, types, vector, &con.fields, &cell.words, units)?;
            Ok(answer)
        }
        None => Ok(None),
    }
}

// What a cell says that was due.
fn open_cell(
    due: &mut Vec<Due>,
    stack: &Stack,
    types: &Types,
    vector: Option<&Vector>,
    cells: &[Cell],
    next: Due,
) -> Result<Option<u128>, AllocError>
    requires homes { stack.now.homes ≡ homes_from 0 types.now }
    requires inside { due_at next < length cells.now }
    ensures put { IfOk result (PileIs (open_at types.now (vector_of vector.entry) cells.now due.old.items next) due.new.items) }
    ensures range { IfOk result (IsAtMost (5 * 2 ^ 64)) }
{
    match next {
        Due::Diamond(_) => Ok(Some(0)),
        Due::Boxed { number, at } => {
            let answer = open_boxed(due, stack, types, vector, number, cells[at as usize])?;
            Ok(answer)
        }
    }
}

/// Takes the cells of the value that a word of this kind stands for: each gets a mark. The answer is what the value's
/// nodes carry by these annotations, or None where the word stands for no value whose cells have no owner, each taken
/// once. It goes along the cells, and takes time for each of them and memory for those that are still to be looked at:
/// `due` has room for them, and is made empty first. Behind None the marks are of no use. `AllocError` where memory
/// runs out.
pub fn take_value(
    marks: &mut CellMarks,
    due: &mut Vec<Due>,
    stack: &Stack,
    types: &Types,
    cells: &[Cell],
    kind: Kind,
    word: u32,
    vector: Option<&Vector>,
) -> Result<Option<u128>, AllocError>
    requires homes { stack.now.homes ≡ homes_from 0 types.now }
    requires many { length marks.old ≡ length cells.now }
    requires few { length cells.now ≤ inline_base }
    // Units exactly where there is such a value: they are what it carries, and its cells are those that got marks.
    ensures answer { IfOk result (AnswerIs types.now cells.now (vector_of vector.entry) kind word marks.old marks.new) }
    // There are as many marks as before.
    ensures marks { length marks.new ≡ length marks.old }
    // The units are few enough to be added up for 2 ^ 30 words.
    ensures range { IfOk result (IsAtMost (2 ^ 98)) }
{
    types.limits();
    due.clear();
    let first = put_all(due, stack, types, vector, &[kind], &[word], 0)?;
    let mut total = match first {
        Some(units) => units,
        None => return Ok(None),
    };
    'cells: while let Some(next) = due.pop() {
        let at = next.at();
        if marks.is_marked(at) {
            return Ok(None);
        }
        marks.mark(at);
        let answer = open_cell(due, stack, types, vector, cells, next)?;
        match answer {
            Some(units) => total += units,
            None => return Ok(None),
        }
    }
    Ok(Some(total))
}

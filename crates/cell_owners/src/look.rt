ghost use Rattle.std.specs.Prelude.{◌≡◌, Some};
ghost use Rattle.std.specs.Option.{option_map};
ghost use Rattle.camelot_values.specs.Kinds.{constructor_of, type_of};
ghost use Rattle.annotations.specs.Vectors.{at, node_units};
ghost use Rattle.cell_machine.specs.Homes.{homes_from};
ghost use Rattle.cell_owners.specs.Looks.{con_of, due_at, inline_look, look_at};
ghost use Rattle.cell_owners.specs.Values.{vector_of};

use annotations::Vector;
use camelot_values::{Con, Kind, Types};
use cell_machine::Stack;

/// The word of the inline constructor of number 0. The words below it are offsets of cells.
const INLINE_BASE: u32 = 2147483648;

/// A cell that is still to be looked at: the one that a diamond names, or that of a value of the type of this number.
#[derive(Clone, Copy, Debug)]
pub enum Due {
    Diamond(u32),
    Boxed { number: u32, at: u32 },
}

// What a word of some kind stands for, as far as no cell is looked at: for nothing, for a value without a cell, whose
// node carries so many units, or for what a cell says.
#[derive(Clone, Copy, Debug)]
pub(crate) enum Look {
    Wrong,
    Leaf(u64),
    Cell(Due),
}

impl Due {
    // The offset of the cell.
    pub(crate) fn at(self) -> u32
        ensures { result ≡ due_at self }
    {
        match self {
            Due::Diamond(at) => at,
            Due::Boxed { number: _, at } => at,
        }
    }
}

// The constructor of this number, where it is of the type of that number.
#[tactic(auto, using(crate::proofs::Looking::con_is, crate::proofs::Looking::con_is_other, crate::proofs::Looking::con_is_none))]
pub(crate) fn con_of<'a>(stack: &Stack, types: &'a Types, number: u32, con: u32) -> Option<&'a Con>
    requires homes { stack.now.homes ≡ homes_from 0 types.now }
    ensures { option_map (λ c. constructor_of c.now) result ≡ con_of types.now number con }
{
    match stack.constructor(types, con) {
        Some((own, found)) => { if own == number { Some(found) } else { None } }
        None => None,
    }
}

// The units of the constructor.
fn units_at(vector: Option<&Vector>, con: u32) -> u64
    ensures { result ≡ at (vector_of vector.entry) con }
{
    match vector {
        Some(vector) => vector.at(con),
        None => 0,
    }
}

// What a node of the constructor carries, whose type has this number. The type is looked at only where there are units.
#[tactic(auto, using(crate::proofs::Looking::units_none, crate::proofs::Looking::units_are))]
pub(crate) fn node_units(types: &Types, vector: Option<&Vector>, number: u32, con: u32) -> u64
    requires number { type_of types.now con ≡ Some number }
    ensures { result ≡ node_units types.now (at (vector_of vector.entry)) con }
{
    let units = units_at(vector, con);
    if units == 0 {
        return 0;
    }
    if types.is_heap(Kind::Of(number)) {
        units
    } else {
        0
    }
}

// What the word of an inline constructor stands for.
fn inline_look(stack: &Stack, types: &Types, vector: Option<&Vector>, number: u32, con: u32) -> Look
    requires homes { stack.now.homes ≡ homes_from 0 types.now }
    ensures { result ≡ inline_look types.now (vector_of vector.entry) con (con_of types.now number con) }
{
    match con_of(stack, types, number, con) {
        Some(found) => {
            if found.inline {
                Look::Leaf(node_units(types, vector, number, con))
            } else {
                Look::Wrong
            }
        }
        None => Look::Wrong,
    }
}

// What a word of this kind stands for.
pub(crate) fn look_at(
    stack: &Stack,
    types: &Types,
    vector: Option<&Vector>,
    kind: Kind,
    word: u32,
) -> Look
    requires homes { stack.now.homes ≡ homes_from 0 types.now }
    ensures { result ≡ look_at types.now (vector_of vector.entry) kind word }
{
    match kind {
        Kind::Int => Look::Leaf(0),
        Kind::Flag => {
            if word <= 1 {
                Look::Leaf(0)
            } else {
                Look::Wrong
            }
        }
        Kind::Dia => Look::Cell(Due::Diamond(word)),
        Kind::Of(number) => {
            if word >= INLINE_BASE {
                inline_look(stack, types, vector, number, word - INLINE_BASE)
            } else {
                Look::Cell(Due::Boxed { number, at: word })
            }
        }
    }
}

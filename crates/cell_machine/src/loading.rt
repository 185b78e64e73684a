ghost use Rattle.std.specs.Prelude.{◌≡◌, ℕ, ◌+◌, ◌-◌, ◌==◌, ◌≤◌, ◌<◌, ◌++◌, ◌∷◌, [], if◌then◌else◌, true, ℤ, List, length, take, drop, reverse, IsSome, IfSome, vec_len, vec_capacity};
ghost use Rattle.camelot_values.specs.Counts.{cells_among, size_all};
ghost use Rattle.camelot_values.specs.Kinds.{constructor};
ghost use Rattle.camelot_values.specs.Value.{parts};
ghost use Rattle.camelot_values.specs.declared.value.Item.{Item};
ghost use Rattle.camelot_values.specs.declared.value.Item.TheVariants.{Int, Con};
ghost use Rattle.cell_span.specs.declared.cell.Cell.{Cell};
ghost use Rattle.cell_machine.specs.Cells.{no_cell, inline_base, padded, int_word, built_cell, is_boxed};
ghost use Rattle.cell_machine.specs.Loading.{free_from};
ghost use Rattle.cell_machine.specs.Homes.{HomesAre};
ghost use Rattle.cell_machine.specs.Nodes.{Laying, lay, lay_all, takes_cell, cell_count};
ghost use Rattle.cell_machine.specs.Laid.{IsLaid, SameRange, ItemFits, ItemsFit, IsTwo, IsBoxed, words_with, word_count, all_nodes, ValuesFit, node_total};

use crate::homes::Homes;
use crate::state::INLINE_BASE;
use camelot_values::{Flat, Item, Types};
use cell_span::{Cell, Span};

/// Where the free list ends.
const NO_CELL: u32 = 4_294_967_295;

/// The tag of a cell of the free list.
pub(crate) const FREE_TAG: u32 = 4_294_967_295;

/// The tag of a cell that a diamond names.
const DIAMOND_TAG: u32 = 4_294_967_294;

/// Makes the cells from this offset on the free list, in ascending order; answers the offset of the first, or that
/// there is none.
pub(crate) fn free_cells(span: &mut Span, from: u32) -> u32
    requires { from ≤ length span.old.cells }
    ensures cells { drop from span.new.cells ≡ free_from from (length span.old.cells - from) }
    ensures head { result ≡ (if length span.old.cells - from == 0 then no_cell else from) }
    ensures range { SameRange span.old span.new }
{
    let mut next = NO_CELL;
    let mut at = span.len();
    'cells: while at > from {
        at -= 1;
        let free = Cell {
            tag: FREE_TAG,
            words: [next, 0, 0, 0],
        };
        span.set(at, free);
        next = at;
    }
    next
}

// Takes the last of these words.
#[tactic(auto, using(crate::proofs::LaidLaws::last_first))]
fn take_word(words: &mut Vec<u32>) -> u32
    requires { 0 < vec_len words.old }
    ensures words { reverse words.old.items ≡ result ∷ reverse words.new.items }
    ensures len { vec_len words.new + 1 ≡ vec_len words.old }
    ensures room { vec_capacity words.new ≡ vec_capacity words.old }
{
    match words.pop() {
        Some(word) => word,
        None => unreachable!(),
    }
}

// Puts a word behind these.
#[tactic(auto, using(crate::proofs::LaidLaws::reverse_last))]
fn put_word(words: &mut Vec<u32>, word: u32)
    requires { vec_len words.old < vec_capacity words.old }
    ensures words { reverse words.new.items ≡ word ∷ reverse words.old.items }
    ensures len { vec_len words.new ≡ vec_len words.old + 1 }
    ensures room { vec_capacity words.new ≡ vec_capacity words.old }
{
    words.push_reserved(word);
}

// Lays one node in front of others: its cell, if it takes one, is the one before this offset. Answers the offset of
// what was laid so far.
fn lay_item(
    span: &mut Span,
    words: &mut Vec<u32>,
    types: &Types,
    homes: &Homes,
    item: Item,
    at: u32,
) -> u32
    requires homes { HomesAre types.now homes.now }
    requires inside { at ≤ length span.old.cells }
    requires fits { ItemFits types.now (vec_len words.old) item }
    requires cell { (if takes_cell types.now item then 1 else 0) ≤ at }
    requires few { length span.old.cells ≤ inline_base }
    requires room { vec_len words.old < vec_capacity words.old }
    ensures at { result + (if takes_cell types.now item then 1 else 0) ≡ at }
    ensures laid { (behind : Laying) (others : List Cell) → IsLaid at behind others span.old.cells words.old.items
        → IsLaid result (lay types.now result item behind) others span.new.cells words.new.items }
    ensures range { SameRange span.old span.new }
    ensures room { vec_capacity words.new ≡ vec_capacity words.old }
    ensures len { vec_len words.new ≡ words_with item (vec_len words.old) }
{
    types.limits();
    match item {
        Item::Int(number) => {
            put_word(words, number.cast_unsigned());
            at
        }
        Item::Flag(truth) => {
            put_word(words, u32::from(truth));
            at
        }
        Item::Dia => {
            let diamond = Cell {
                tag: DIAMOND_TAG,
                words: [0; 4],
            };
            span.set(at - 1, diamond);
            put_word(words, at - 1);
            at - 1
        }
        Item::Con { con, parts } => {
            if homes.con(types, con).inline {
                put_word(words, INLINE_BASE + con);
                return at;
            }
            let cell = Cell {
                tag: con,
                words: take_words(words, parts),
            };
            span.set(at - 1, cell);
            put_word(words, at - 1);
            at - 1
        }
    }
}

// Takes so many of these words from the end, the last one first.
fn take_words(words: &mut Vec<u32>, count: u8) -> [u32; 4]
    requires few { count ≤ 4 }
    requires there { count ≤ vec_len words.old }
    ensures taken { result ≡ padded (take count (reverse words.old.items)) }
    ensures words { reverse words.new.items ≡ drop count (reverse words.old.items) }
    ensures len { vec_len words.new + count ≡ vec_len words.old }
    ensures room { vec_capacity words.new ≡ vec_capacity words.old }
{
    match count {
        0 => [0; 4],
        1 => [take_word(words), 0, 0, 0],
        2 => [take_word(words), take_word(words), 0, 0],
        3 => [take_word(words), take_word(words), take_word(words), 0],
        4 => [
            take_word(words),
            take_word(words),
            take_word(words),
            take_word(words),
        ],
        _ => unreachable!(),
    }
}

// The number of a constructor with two parts, and the word of the int behind it, where the node at this place is that
// int.
#[inline(always)]
fn two_before(items: &[Item], left: usize) -> Option<(u32, u32)>
    requires { left < length items.now }
    ensures { IfSome result (λ two. IsTwo items.now left two.0 two.1) }
{
    if left == 0 {
        return None;
    }
    if let Item::Int(number) = items[left] {
        if let Item::Con { con, parts } = items[left - 1] {
            if parts == 2 {
                return Some((con, number.cast_unsigned()));
            }
        }
    }
    None
}

// Whether a constructor takes a cell. It is looked up where it isn't the one that is known to take one: the cells of a
// list repeat one constructor.
#[inline(always)]
#[tactic(auto, using(crate::proofs::LaidLaws::boxed_as))]
fn takes_cell(types: &Types, homes: &Homes, known: &mut Option<u32>, con: u32) -> bool
    requires homes { HomesAre types.now homes.now }
    requires there { IsSome (constructor types.now con) }
    requires known { IfSome known.old (IsBoxed types.now) }
    ensures known { IfSome known.new (IsBoxed types.now) }
    ensures boxed { result ≡ is_boxed types.now con }
{
    if let Some(boxed) = *known {
        if boxed == con {
            return true;
        }
    }
    if homes.con(types, con).inline {
        return false;
    }
    *known = Some(con);
    true
}

// The number of a constructor that takes a cell and has two parts, and the word of the int behind it, where the node at
// this place is that int.
#[inline(always)]
fn boxed_two(
    types: &Types,
    homes: &Homes,
    known: &mut Option<u32>,
    items: &[Item],
    left: usize,
) -> Option<(u32, u32)>
    requires homes { HomesAre types.now homes.now }
    requires known { IfSome known.old (IsBoxed types.now) }
    requires fits { ItemsFit types.now items.now }
    requires within { left < length items.now }
    ensures known { IfSome known.new (IsBoxed types.now) }
    ensures two { IfSome result (λ two. IsTwo items.now left two.0 two.1) }
    ensures boxed { IfSome result (λ two. is_boxed types.now two.0 ≡ true) }
{
    match two_before(items, left) {
        Some((con, word)) => {
            if takes_cell(types, homes, known, con) {
                Some((con, word))
            } else {
                None
            }
        }
        None => None,
    }
}

// The cell of a constructor with two words.
#[inline(always)]
fn two_cell(con: u32, first: u32, second: u32) -> Cell
    ensures { result ≡ built_cell con (first ∷ second ∷ []) }
{
    Cell {
        tag: con,
        words: [first, second, 0, 0],
    }
}

// Lays a constructor with two parts, the first of them the int of this word, in front of others: its cell is the one
// before this offset. Answers that cell's offset. It is what laying the int and then the constructor comes to.
#[inline(always)]
#[tactic(auto, using(crate::proofs::LaidLaws::two_laid))]
fn lay_two(
    span: &mut Span,
    words: &mut Vec<u32>,
    types: &Types,
    con: u32,
    first: u32,
    at: u32,
) -> u32
    requires boxed { is_boxed types.now con ≡ true }
    requires inside { at ≤ length span.old.cells }
    requires cell { 1 ≤ at }
    requires word { 1 ≤ vec_len words.old }
    requires room { vec_len words.old ≤ vec_capacity words.old }
    ensures at { result + 1 ≡ at }
    ensures laid { (z : ℤ) (behind : Laying) (others : List Cell) → int_word z ≡ first
        → IsLaid at behind others span.old.cells words.old.items
        → IsLaid result (lay types.now result (Con 2 con) (lay types.now at (Int z) behind)) others span.new.cells words.new.items }
    ensures range { SameRange span.old span.new }
    ensures room { vec_capacity words.new ≡ vec_capacity words.old }
    ensures len { vec_len words.new ≡ vec_len words.old }
{
    let _ = types;
    let second = take_word(words);
    span.set(at - 1, two_cell(con, first, second));
    put_word(words, at - 1);
    at - 1
}

// Lays the nodes of a value in front of others, the last one first. Answers the offset of what was laid so far. It is
// no part of its caller, so that the compiler keeps what the loop needs in registers.
#[inline(never)]
fn lay_value(
    span: &mut Span,
    words: &mut Vec<u32>,
    types: &Types,
    homes: &Homes,
    items: &[Item],
    before: u32,
) -> u32
    requires homes { HomesAre types.now homes.now }
    requires inside { before ≤ length span.old.cells }
    requires fits { ItemsFit types.now items.now }
    requires cells { cell_count types.now items.now ≤ before }
    requires few { length span.old.cells ≤ inline_base }
    requires room { vec_len words.old + length items.now ≤ vec_capacity words.old }
    ensures at { result + cell_count types.now items.now ≡ before }
    ensures laid { (rest : List Item) (others : List Cell) → IsLaid before (lay_all types.now before rest) others span.old.cells words.old.items
        → IsLaid result (lay_all types.now result (items.now ++ rest)) others span.new.cells words.new.items }
    ensures range { SameRange span.old span.new }
    ensures room { vec_capacity words.new ≡ vec_capacity words.old }
    ensures len { vec_len words.new ≡ vec_len words.old + word_count items.now }
{
    let mut at = before;
    let mut left = items.len();
    let mut known = None;
    'items: while left > 0 {
        left -= 1;
        match boxed_two(types, homes, &mut known, items, left) {
            Some((con, word)) => {
                left -= 1;
                at = lay_two(span, words, types, con, word, at);
            }
            None => at = lay_item(span, words, types, homes, items[left], at),
        }
    }
    at
}

/// Lays the arguments in the first cells, the last one first: `count` cells, so many as they need. Puts the words of
/// the arguments behind these words, the last one first.
pub(crate) fn lay_args(
    span: &mut Span,
    words: &mut Vec<u32>,
    types: &Types,
    homes: &Homes,
    args: &[Flat],
    count: u32,
)
    requires homes { HomesAre types.now homes.now }
    requires inside { count ≤ length span.old.cells }
    requires fits { ValuesFit types.now args.now }
    requires cells { cell_count types.now (all_nodes args.now) ≡ count }
    requires few { length span.old.cells ≤ inline_base }
    requires none { vec_len words.old ≡ 0 }
    requires room { node_total args.now ≤ vec_capacity words.old }
    ensures laid { IsLaid 0 (lay_all types.now 0 (all_nodes args.now)) (drop count span.old.cells) span.new.cells words.new.items }
    ensures range { SameRange span.old span.new }
    ensures room { vec_capacity words.new ≡ vec_capacity words.old }
    ensures len { vec_len words.new ≡ length args.now }
{
    let mut at = count;
    let mut left = args.len();
    'args: while left > 0 {
        left -= 1;
        at = lay_value(span, words, types, homes, args[left].items(), at);
    }
}

// How many cells the arguments take, node by node.
pub(crate) fn count_args(types: &Types, args: &[Flat]) -> u32
    requires few { node_total args.now ≤ 65536 }
    ensures { result ≡ cell_count types.now (all_nodes args.now) }
{
    let mut total = 0;
    'args: for arg in args {
        total += arg.cells(types);
    }
    total as u32
}

/// How many cells these arguments take, which have at most 65,536 nodes: one for each node of a constructor that isn't
/// inline, and one for each diamond.
#[tactic(auto, using(crate::proofs::LaidLaws::total_few, crate::proofs::LaidLaws::cells_counted))]
pub fn cells_of(types: &Types, args: &[Flat]) -> u32
    requires few { size_all (parts args.now) ≤ 65536 }
    ensures { result ≡ cells_among types.now args.now }
{
    count_args(types, args)
}

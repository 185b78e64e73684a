ghost use Rattle.std.specs.Prelude.{◌≡◌, ◌≤◌, length, map};
ghost use Rattle.grail_code.specs.Code.{let_of, block_of, term_of, func_of, code_of};
ghost use Rattle.lp_system.specs.Looked.{AreLooked};
ghost use Rattle.lp_size.specs.Counting.{taken_first, lets_onto, lets_behind, block_rows, block_behind, blocks_onto, func_rows, funcs_onto};

use super::books::{Books, Here};
use super::ends::term_rows;
use super::lets::{bind, op_rows, taken_behind};
use super::origins::{Origin, Slot};
use super::taken::Taken;
use grail_code::{Block, Func};

// The most locals of a function.
const LOCALS: usize = 256;

// The rows of the lets of a block and of its end.
fn lets_rows(
    books: Books<'_>,
    here: Here<'_>,
    slots: &mut [Slot],
    first: Taken,
    block: &Block,
) -> u64
    ensures rows { result ≡ lets_onto (code_of books.entry.code.now)
        (func_of here.entry.body.now) here.entry.func here.entry.block slots.old first 1 0
        (map let_of block.now.lets.items) (term_of block.now.term) }
    ensures slots { slots.new ≡ lets_behind
        (code_of books.entry.code.now).types here.entry.func here.entry.block slots.old 1
        (map let_of block.now.lets.items) }
{
    let mut total: u64 = 0;
    let mut taken = first;
    let mut place: usize = 1;
    'lets: for binding in &block.lets {
        let rows = op_rows(books, here, slots, taken, place, &binding.op);
        total = total.saturating_add(rows);
        taken = taken_behind(books, here.func, taken, &binding.op);
        bind(books, here, slots, place, binding);
        place += 1;
    }
    total.saturating_add(term_rows(books, here, slots, taken, &block.term))
}

// What was taken at the beginning of a block.
fn taken_first(block: u32) -> Taken
    ensures { result ≡ taken_first block }
{
    if block == 0 {
        Taken::Nothing
    } else {
        Taken::More
    }
}

// The rows of a block.
fn block_rows(books: Books<'_>, here: Here<'_>, slots: &mut [Slot], block: &Block) -> u64
    ensures rows { result ≡ block_rows (code_of books.entry.code.now)
        (func_of here.entry.body.now) here.entry.func here.entry.block slots.old (block_of block.now) }
    ensures slots { slots.new ≡ block_behind (code_of books.entry.code.now).types here.entry.func here.entry.block slots.old (block_of block.now) }
{
    lets_rows(books, here, slots, taken_first(here.block), block)
}

// The rows of the blocks of a function.
fn blocks_rows(books: Books<'_>, func: u32, body: &Func, looked: &[bool], slots: &mut [Slot]) -> u64
    requires looked { AreLooked (func_of body.now) looked.now }
    ensures { result ≡ blocks_onto (code_of books.entry.code.now) (func_of body.now) func slots.old 0 0 (map block_of body.now.blocks.items) }
{
    let mut total: u64 = 0;
    let mut number = 0;
    'walk: for block in &body.blocks {
        let here = Here {
            body,
            looked,
            func,
            block: number,
        };
        total = total.saturating_add(block_rows(books, here, slots, block));
        number += 1;
    }
    total
}

/// The rows of the function of this number.
pub(crate) fn func_rows(books: Books<'_>, func: u32, body: &Func, looked: &[bool]) -> u64
    requires looked { AreLooked (func_of body.now) looked.now }
    ensures { result ≡ func_rows (code_of books.entry.code.now) func (func_of body.now) }
{
    let unbound = Slot {
        begun: 0,
        origin: Origin::Result { func },
    };
    let mut slots = [unbound; LOCALS];
    blocks_rows(books, func, body, looked, &mut slots)
}

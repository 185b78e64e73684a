ghost use Rattle.std.specs.Prelude.{◌≡◌, ◌≤◌, length, map};
ghost use Rattle.grail_code.specs.Code.{op_of, let_of, block_of, func_of, code_of};
ghost use Rattle.lp_system.specs.Looked.{AreLooked};
ghost use Rattle.lp_size.specs.Counting.{params_onto, locals_onto, made_count, builds_onto, begin_count, block_count, blocks_count_onto, func_count, funcs_count_onto};

use super::books::Books;
use super::values::{carrier_count, local_count};
use camelot_values::Kind;
use grail_code::{Block, Func, Let, Op};

// The unknowns of the parameters of a function, which are as many as these kinds. Those that are lent have none.
fn params_count(books: Books<'_>, body: &Func, looked: &[bool], kinds: &[Kind]) -> u64
    requires looked { AreLooked (func_of body.now) looked.now }
    requires few { length kinds.now ≤ 65535 }
    ensures { result ≡ params_onto (code_of books.entry.code.now).types (func_of body.now) 0 0 kinds.now }
{
    let mut total: u64 = 0;
    let mut number = 0;
    'kinds: for _kind in kinds {
        total = total.saturating_add(local_count(books, body, looked, number));
        number += 1;
    }
    total
}

// The unknowns of these locals. Those that are lent have none.
fn locals_count(books: Books<'_>, body: &Func, looked: &[bool], locals: &[u32]) -> u64
    requires looked { AreLooked (func_of body.now) looked.now }
    ensures { result ≡ locals_onto (code_of books.entry.code.now).types (func_of body.now) 0 locals.now }
{
    let mut total: u64 = 0;
    'locals: for local in locals {
        total = total.saturating_add(local_count(books, body, looked, *local));
    }
    total
}

// The unknowns of what a let builds.
fn made_count(books: Books<'_>, op: &Op) -> u64
    ensures { result ≡ made_count (code_of books.entry.code.now).types (op_of op.now) }
{
    match op {
        Op::Make { con, .. } => {
            if books.table.is_heap_con(*con) {
                carrier_count(books, books.table.type_of(*con).map(Kind::Of))
            } else {
                0
            }
        }
        _ => 0,
    }
}

// The unknowns of the builds among these lets.
fn builds_count(books: Books<'_>, lets: &[Let]) -> u64
    ensures { result ≡ builds_onto (code_of books.entry.code.now).types 0 (map let_of lets.now) }
{
    let mut total: u64 = 0;
    'lets: for binding in lets {
        total = total.saturating_add(made_count(books, &binding.op));
    }
    total
}

// The unknowns at a block's beginning: what it needs, and its parameters. The first block has those of the function.
fn begin_count(books: Books<'_>, body: &Func, looked: &[bool], number: u32, block: &Block) -> u64
    requires looked { AreLooked (func_of body.now) looked.now }
    ensures { result ≡ begin_count (code_of books.entry.code.now).types (func_of body.now) number (block_of block.now) }
{
    if number == 0 {
        0
    } else {
        locals_count(books, body, looked, &block.params).saturating_add(1)
    }
}

// The unknowns of a block.
fn block_count(books: Books<'_>, body: &Func, looked: &[bool], number: u32, block: &Block) -> u64
    requires looked { AreLooked (func_of body.now) looked.now }
    ensures { result ≡ block_count (code_of books.entry.code.now).types (func_of body.now) number (block_of block.now) }
{
    begin_count(books, body, looked, number, block).saturating_add(builds_count(books, &block.lets))
}

// The unknowns of the blocks of a function.
fn blocks_count(books: Books<'_>, body: &Func, looked: &[bool]) -> u64
    requires looked { AreLooked (func_of body.now) looked.now }
    ensures { result ≡ blocks_count_onto (code_of books.entry.code.now).types (func_of body.now) 0 0 (map block_of body.now.blocks.items) }
{
    let mut total: u64 = 0;
    let mut number = 0;
    'walk: for block in &body.blocks {
        total = total.saturating_add(block_count(books, body, looked, number, block));
        number += 1;
    }
    total
}

/// The unknowns of a function: its need, what it gives back, its parameters, its result and its blocks.
pub(crate) fn func_count(books: Books<'_>, body: &Func, looked: &[bool]) -> u64
    requires looked { AreLooked (func_of body.now) looked.now }
    ensures { result ≡ func_count (code_of books.entry.code.now).types (func_of body.now) }
{
    let params = params_count(books, body, looked, &body.params);
    let result = carrier_count(books, Some(body.result));
    let blocks = blocks_count(books, body, looked);
    params
        .saturating_add(result.saturating_add(blocks))
        .saturating_add(2)
}

ghost use Rattle.std.specs.Prelude.{◌≡◌, ◌++◌, pos, map, OnOk, IfOk};
ghost use Rattle.dual_simplex.specs.Systems.{plain_row};
ghost use Rattle.grail_code.specs.Code.{let_of, term_of, block_of, func_of, code_of};
ghost use Rattle.lp_rows.specs.Dense.{once_with};
ghost use Rattle.licence.specs.Sites.{site_of};
ghost use Rattle.lp_rows.specs.Plain.{plain, dense_of, own, names};
ghost use Rattle.lp_rows.specs.Walk.{need_of, lets_rows, block_rows, blocks_rows, funcs_rows};

use super::books::{Books, Here};
use super::ends::push_end;
use super::form::Form;
use super::lets::{pay, push_op, rebind};
use super::unknown::{Origin, Unknown};
use dual_simplex::Row;
use grail_code::{Block, Func};
use licence::Site;
use std::alloc::AllocError;

// What a block needs.
fn need_of(func: u32, block: u32) -> Unknown
    ensures { plain result ≡ need_of func block }
{
    if block == 0 {
        Unknown::Need { func }
    } else {
        Unknown::BlockNeed { func, block }
    }
}

// The lets of a block and its end, where so much is left and locals have their units from there.
fn push_lets(
    books: Books<'_>,
    start: Here<'_>,
    rows: &mut Vec<Row>,
    left: &mut Form,
    slots: &mut Vec<Origin>,
    block: &Block,
) -> Result<(), AllocError>
    requires { start.site.place ≡ 1 }
    ensures { OnOk result (map plain_row rows.new.items ≡ map plain_row rows.old.items ++ lets_rows
        (code_of books.entry.code.now) (map plain books.entry.unknowns.now) (func_of start.entry.func.now)
        (site_of start.entry.site) (dense_of left.old)
        (names start.entry.site.func start.entry.site.block slots.old.items) (map let_of block.now.lets.items)
        (term_of block.now.term)) }
{
    let mut site = start.site;
    'lets: for binding in &block.lets {
        let here = Here {
            func: start.func,
            site,
        };
        push_op(books, here, rows, left, slots, &binding.op)?;
        pay(books, site, left, &binding.op);
        rebind(books, site, slots, binding)?;
        site.place += 1;
    }
    let here = Here {
        func: start.func,
        site,
    };
    push_end(books, here, rows, left, slots, &block.term)
}

// One block.
fn push_block(
    books: Books<'_>,
    func: &Func,
    number: u32,
    block_number: u32,
    rows: &mut Vec<Row>,
    block: &Block,
) -> Result<(), AllocError>
    ensures { OnOk result (map plain_row rows.new.items ≡ map plain_row rows.old.items ++ block_rows
        (code_of books.entry.code.now) (map plain books.entry.unknowns.now) (func_of func.now) number block_number
        (block_of block.now)) }
{
    let site = Site {
        func: number,
        block: block_number,
        place: 1,
    };
    let need = need_of(number, block_number);
    let mut left = Form::once(books.alloc, books.unknowns, &need)?;
    let mut slots = Vec::new(books.alloc);
    push_lets(
        books,
        Here { func, site },
        rows,
        &mut left,
        &mut slots,
        block,
    )
}

// The blocks of a function.
fn push_blocks(
    books: Books<'_>,
    func: &Func,
    number: u32,
    rows: &mut Vec<Row>,
) -> Result<(), AllocError>
    ensures { OnOk result (map plain_row rows.new.items ≡ map plain_row rows.old.items ++ blocks_rows
        (code_of books.entry.code.now) (map plain books.entry.unknowns.now) (func_of func.now) number 0
        (map block_of func.now.blocks.items)) }
{
    let mut block_number = 0;
    'walk: for block in &func.blocks {
        push_block(books, func, number, block_number, rows, block)?;
        block_number += 1;
    }
    Ok(())
}

/// The rows of all functions, block by block.
pub(crate) fn push_funcs(books: Books<'_>, rows: &mut Vec<Row>) -> Result<(), AllocError>
    ensures { OnOk result (map plain_row rows.new.items ≡ map plain_row rows.old.items ++ funcs_rows
        (code_of books.entry.code.now) (map plain books.entry.unknowns.now) 0 (code_of books.entry.code.now).funcs) }
{
    let mut number = 0;
    'walk: for func in &books.code.funcs {
        push_blocks(books, func, number, rows)?;
        number += 1;
    }
    Ok(())
}

ghost use Rattle.std.specs.Prelude.{◌≡◌, ◌≤◌, length, map, OnOk};
ghost use Rattle.grail_code.specs.Code.{let_of, block_of, func_of, code_of};
ghost use Rattle.grail_check.specs.Finding.{Finds};
ghost use Rattle.grail_check.specs.Faulting.{ascends_from, counts_from, entry_fits, block_header_fault, lets_fault, after_lets, block_fault, blocks_fault};

use super::body::Body;
use super::exits::check_exit;
use super::fault::{CodeFault, CodeKind};
use super::lets::{are_locals, check_let};
use super::locals::{Local, bind_all, require};
use super::marks::Marks;
use grail_code::{Block, Code, Func, Let};

// Whether each number is less than the next.
fn ascends(numbers: &[u32]) -> bool
    ensures { result ≡ ascends_from 0 numbers.now }
{
    let mut least = 0;
    'numbers: for number in numbers {
        if (*number as u64) < least {
            return false;
        }
        least = *number as u64 + 1;
    }
    true
}

// Whether these are the first `count` numbers.
fn counts(count: usize, numbers: &[u32]) -> bool
    ensures { result ≡ counts_from 0 count numbers.now }
{
    'numbers: for (index, number) in numbers.iter().enumerate() {
        if *number as usize != index {
            return false;
        }
    }
    numbers.len() == count
}

// Whether the parameters are the function's, if this is its first block.
fn entry_fits(func: &Func, number: u32, params: &[u32]) -> bool
    ensures { result ≡ entry_fits (func_of func.now) number params.now }
{
    number != 0 || counts(func.params.len(), params)
}

// The parameters of a block.
fn check_params(func: &Func, locals: &[Local], number: u32, params: &[u32]) -> Result<(), CodeKind>
    ensures { Finds result (block_header_fault (func_of func.now) locals.now number params.now) }
{
    require(are_locals(locals, params), CodeKind::NoSuchEntry)?;
    let orderly = ascends(params) && entry_fits(func, number, params);
    require(orderly, CodeKind::Header)
}

// The lets of a block.
fn check_lets(
    code: &Code,
    locals: &[Local],
    func: u32,
    number: u32,
    marks: &mut Marks,
    lets: &[Let],
) -> Result<(), CodeFault>
    requires { length lets.now ≤ 256 }
    ensures found { Finds result (lets_fault (code_of code.now) locals.now func number 1 marks.old (map let_of lets.now)) }
    ensures marks { OnOk result (marks.new ≡ after_lets (code_of code.now) locals.now marks.old (map let_of lets.now)) }
{
    let mut place = 1;
    'lets: for binding in lets {
        check_let(code, locals, marks, binding).map_err(|kind| CodeFault {
            func,
            block: number,
            place,
            kind,
        })?;
        place += 1;
    }
    Ok(())
}

// One block.
#[tactic(auto, using(crate::proofs::MarkLaws::length_at_end))]
fn check_block(
    code: &Code,
    body: Body<'_>,
    locals: &[Local],
    func_number: u32,
    number: u32,
    marks: &mut Marks,
    block: &Block,
) -> Result<(), CodeFault>
    requires { length marks.old ≡ length locals.now }
    ensures found { Finds result (block_fault (code_of code.now) (func_of body.entry.func.now) locals.now func_number number (block_of block.now)) }
    ensures kept { OnOk result (length marks.new ≡ length marks.old) }
{
    let at = |place, kind| CodeFault {
        func: func_number,
        block: number,
        place,
        kind,
    };
    check_params(body.func, locals, number, &block.params).map_err(|kind| at(0, kind))?;
    marks.clear();
    bind_all(marks, &block.params);
    check_lets(code, locals, func_number, number, marks, &block.lets)?;
    let end = block.lets.len() as u32 + 1;
    check_exit(code, body, locals, number, marks, &block.term).map_err(|kind| at(end, kind))
}

/// Checks the blocks of a function, which has this number.
pub(crate) fn check_blocks(
    code: &Code,
    body: Body<'_>,
    locals: &[Local],
    func_number: u32,
    marks: &mut Marks,
) -> Result<(), CodeFault>
    requires { length marks.old ≡ length locals.now }
    ensures { Finds result (blocks_fault (code_of code.now) (func_of body.entry.func.now) locals.now func_number 0
        (map block_of body.entry.func.now.blocks.items)) }
{
    let mut number = 0;
    'walk: for block in &body.func.blocks {
        check_block(code, body, locals, func_number, number, marks, block)?;
        number += 1;
    }
    Ok(())
}

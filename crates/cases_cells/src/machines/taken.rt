//! How many cells a run takes at most, beside those of its arguments.
ghost use Rattle.std.specs.Prelude.{◌≡◌, ◌+◌, map, IfSome, IfOk};
ghost use Rattle.grail_code.specs.Code.{code_of, func_of, block_of, let_of, op_of};
ghost use Rattle.cases_cells.specs.Taken.{new_cells, new_lets, new_blocks, new_funcs, TakesAtMost, RunTakes};

use crate::machines::trees::trees_of;
use camelot_values::Flat;
use grail_blocks::{Let, Op, Place};
use grail_code::{Block, Code, Func};
use grail_evaluator::{Outcome, run};
use std::alloc::{AllocError, Global};

// 1 where it builds in a new cell.
fn in_op(op: &Op) -> u64
    ensures { result ≡ new_cells (op_of op.now) }
{
    match op {
        Op::Make {
            con: _,
            args: _,
            place: Place::New,
        } => 1,
        _ => 0,
    }
}

// The sum, where it has 64 bits.
fn sum(first: u64, second: u64) -> Option<u64>
    ensures { IfSome result (λ total. total ≡ first + second) }
{
    first.checked_add(second)
}

// How many of these lets build in new cells.
fn in_lets(lets: &[Let]) -> Option<u64>
    ensures { IfSome result (λ count. count ≡ new_lets (map let_of lets.now)) }
{
    match lets {
        [] => Some(0),
        [first, rest @ ..] => match in_lets(rest) {
            Some(more) => sum(in_op(&first.op), more),
            None => None,
        },
    }
}

fn in_blocks(blocks: &[Block]) -> Option<u64>
    ensures { IfSome result (λ count. count ≡ new_blocks (map block_of blocks.now)) }
{
    match blocks {
        [] => Some(0),
        [first, rest @ ..] => match (in_lets(&first.lets), in_blocks(rest)) {
            (Some(count), Some(more)) => sum(count, more),
            _ => None,
        },
    }
}

fn in_funcs(funcs: &[Func]) -> Option<u64>
    ensures { IfSome result (λ count. count ≡ new_funcs (map func_of funcs.now)) }
{
    match funcs {
        [] => Some(0),
        [first, rest @ ..] => match (in_blocks(&first.blocks), in_funcs(rest)) {
            (Some(count), Some(more)) => sum(count, more),
            _ => None,
        },
    }
}

/// A bound of the cells that any run of the code takes with so much fuel: a call takes at most one for each let that
/// builds in a new cell.
#[tactic(auto, using(crate::proofs::Taking::at_most))]
pub(crate) fn most_taken(code: &Code, fuel: u64) -> Option<u64>
    ensures { IfSome result (TakesAtMost (code_of code.now) fuel) }
{
    match in_funcs(&code.funcs) {
        Some(each) => match fuel.checked_mul(each) {
            Some(most) => Some(most),
            None => None,
        },
        None => None,
    }
}

/// How many cells this run takes, as the evaluator says.
pub(crate) fn just_taken(
    alloc: Global,
    code: &Code,
    entry: u32,
    fuel: u64,
    args: &[Flat],
) -> Result<Option<u64>, AllocError>
    ensures { IfOk result (λ found. IfSome found (RunTakes (code_of code.now) entry fuel args.now)) }
{
    let trees = match trees_of(alloc, args)? {
        Some(trees) => trees,
        None => return Ok(None),
    };
    match run(alloc, code, 65536, entry, fuel, trees) {
        Ok(
            Outcome::Done {
                value: _,
                calls: _,
                peak,
                low: _,
            },
        ) => Ok(Some(peak)),
        Ok(Outcome::Fuel { calls: _, peak }) => Ok(Some(peak)),
        Ok(Outcome::Deep { peak }) => Ok(Some(peak)),
        Ok(Outcome::Trap { peak }) => Ok(Some(peak)),
        Ok(Outcome::Stuck) => Ok(Some(0)),
        Err(_) => Ok(None),
    }
}

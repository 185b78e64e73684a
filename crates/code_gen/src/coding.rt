//! The code of functions in normal form.
ghost use Rattle.std.specs.Prelude.{◌≡◌, ℕ, ◌≤◌, length, map, IfOk};
ghost use Rattle.std.specs.List.{AllByRecursion, range_with_len};
ghost use Rattle.grail_code.specs.Code as code;
ghost use Rattle.grail_code.specs.Limits.{FuncIsWithin};
ghost use Rattle.normal_form.specs.Coded.{coded, coded_blocks};
ghost use Rattle.normal_form.specs.Programs.{block_of, normal_function_of};
ghost use Rattle.code_gen.specs.Generated.{live_params};
ghost use Rattle.code_gen.specs.Marked.{told_params};

use crate::liveness::live_at_blocks;
use crate::local_set::LocalSet;
use crate::marks::marks_of;
use grail_code::{Block, Func};
use normal_form::{NormalBlock, NormalFunction};
use smallvec::SmallVec;
use std::alloc::{AllocError, Global};

// The locals from 0 on, so many.
#[tactic(auto, using(crate::proofs::BlockCode::one_local_more))]
fn first_locals(alloc: Global, count: usize) -> Result<SmallVec<u32, 4>, AllocError>
    requires { count ≤ 16 }
    ensures { IfOk result (λ locals. locals.items ≡ range_with_len 0 count) }
{
    let mut locals = SmallVec::with_capacity(alloc, count)?;
    for local in 0..count {
        locals.push(local as u32)?;
    }
    Ok(locals)
}

// The parameters of a block: the first one has the function's, and each other one the locals that are live at its
// beginning.
#[tactic(auto, using(crate::proofs::BlockCode::first_params, crate::proofs::BlockCode::later_params))]
fn block_params(
    alloc: Global,
    own: usize,
    size: u32,
    live: &[LocalSet],
    number: u32,
) -> Result<SmallVec<u32, 4>, AllocError>
    requires own { own ≤ 16 }
    requires size { size ≤ 256 }
    ensures { IfOk result (λ params. params.items ≡ told_params own size live.now number) }
{
    if number == 0 {
        return first_locals(alloc, own);
    }
    marks_of(live, live.len(), number).locals(alloc, size)
}

// The blocks of a function with `own` parameters and `size` locals, each with its own parameters.
fn code_blocks(
    alloc: Global,
    own: usize,
    size: u32,
    live: &[LocalSet],
    blocks: Vec<NormalBlock>,
) -> Result<Vec<Block>, AllocError>
    requires own { own ≤ 16 }
    requires size { size ≤ 256 }
    requires few { length blocks.items ≤ 256 }
    requires few_lets { AllByRecursion (λ b. length b.lets ≤ 256) (map block_of blocks.items) }
    ensures { IfOk result (λ all. map code.block_of all.items ≡ coded_blocks (told_params own size live.now) 0 (map block_of blocks.items)) }
{
    let mut all = Vec::with_capacity(alloc, blocks.len())?;
    let mut number = 0;
    'each_block: for block in blocks {
        let params = block_params(alloc, own, size, live, number)?;
        all.push(Block {
            params,
            lets: block.lets,
            term: block.term,
        })?;
        number += 1;
    }
    Ok(all)
}

/// The code of a function in normal form that is within the limits of code.
pub fn code_function(alloc: Global, function: NormalFunction) -> Result<Func, AllocError>
    requires { FuncIsWithin (coded live_params (normal_function_of function)) }
    ensures { IfOk result (λ func. code.func_of func ≡ coded live_params (normal_function_of function)) }
{
    let own = function.params.len();
    let size = (own + function.locals.len()) as u32;
    let live = live_at_blocks(alloc, &function.blocks)?;
    let blocks = code_blocks(alloc, own, size, &live, function.blocks)?;
    Ok(Func {
        name: function.name,
        params: function.params,
        reads: function.reads,
        result: function.result,
        locals: function.locals,
        blocks,
    })
}

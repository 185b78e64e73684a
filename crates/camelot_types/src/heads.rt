//! What is known of functions before their bodies are walked.

ghost use Rattle.std.specs.Prelude.{◌≡◌, ◌≤◌, ◌+◌, ◌*◌, ◌<◌, length, map, IfOk};
ghost use Rattle.std.specs.List.{AllByRecursion};
ghost use Rattle.camelot_tree.specs.Programs.{program_of};
ghost use Rattle.camelot_tree.specs.Tree.{function_of};
ghost use Rattle.camelot_types.specs.Walk.{guess_of, param_guesses, head_guess, head_guesses};
ghost use Rattle.camelot_types.specs.Tables.{head_view};
ghost use Rattle.camelot_types.specs.Solving.{unknowns};

use crate::atoms::kind_of_atom;
use crate::globals::FunHead;
use crate::guess::Guess;
use camelot_tree::{Atom, FunDecl, Param, Program};
use camelot_values::Kind;
use std::alloc::{AllocError, Global};

// What is known of a parameter or result of this number: its kind where it is written.
fn guess_of(program: &Program, number: u32, kind: &Option<Atom>) -> Guess
    requires { length program.now.types.items ≤ 64 }
    ensures { result ≡ guess_of (program_of program.now) number kind.now }
{
    match kind {
        Some(atom) => match kind_of_atom(program, atom) {
            Some(kind) => Guess::Known(kind),
            None => Guess::Known(Kind::Int),
        },
        None => Guess::Unknown(number),
    }
}

// What is known of parameters, the first of which has this number.
fn param_guesses(
    alloc: Global,
    program: &Program,
    first: u32,
    params: &[Param],
) -> Result<Vec<Guess>, AllocError>
    requires types { length program.now.types.items ≤ 64 }
    requires few { length params.now ≤ 16 }
    requires room { first ≤ 2000 }
    ensures { IfOk result (λ guesses. guesses.items ≡ param_guesses (program_of program.now) first params.now) }
{
    let mut guesses = Vec::new(alloc);
    let mut number = first;
    'params: for param in params {
        guesses.push(guess_of(program, number, &param.kind))?;
        number += 1;
    }
    Ok(guesses)
}

// What is known of a function, whose parameters have numbers from this one on.
fn head_guess<'p>(
    alloc: Global,
    program: &Program,
    first: u32,
    fun: &'p FunDecl,
) -> Result<FunHead<'p>, AllocError>
    requires types { length program.now.types.items ≤ 64 }
    requires few { length fun.now.params.items ≤ 16 }
    requires room { first ≤ 2000 }
    ensures { IfOk result (λ head. head_view head ≡ head_guess (program_of program.now) first (function_of fun.now)) }
{
    let params = param_guesses(alloc, program, first, &fun.params)?;
    let result = guess_of(program, first + fun.params.len() as u32, &fun.result);
    Ok(FunHead {
        name: fun.name.word.bytes(),
        params,
        result,
    })
}

/// What is known of all these functions, whose headers are checked.
pub(crate) fn head_guesses<'p>(
    alloc: Global,
    program: &Program,
    funs: &'p [FunDecl],
) -> Result<Vec<FunHead<'p>>, AllocError>
    requires types { length program.now.types.items ≤ 64 }
    requires funs { length funs.now ≤ 64 }
    requires few { AllByRecursion (λ f. length f.params ≤ 16) (map function_of funs.now) }
    ensures { IfOk result (λ heads. map head_view heads.items ≡ head_guesses (program_of program.now) 0 (map function_of funs.now)) }
{
    let mut heads = Vec::new(alloc);
    let mut first = 0;
    'funs: for fun in funs {
        let head = head_guess(alloc, program, first, fun)?;
        heads.push(head)?;
        first += fun.params.len() as u32 + 1;
    }
    Ok(heads)
}

/// How many unknowns there may be: one for each parameter and each result.
pub(crate) fn unknowns(funs: &[FunDecl]) -> u32
    requires funs { length funs.now ≤ 64 }
    requires few { AllByRecursion (λ f. length f.params ≤ 16) (map function_of funs.now) }
    ensures { result ≡ unknowns (map function_of funs.now) }
{
    let mut count = 0;
    'funs: for fun in funs {
        count += fun.params.len() as u32 + 1;
    }
    count
}

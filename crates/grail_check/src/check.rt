ghost use Rattle.std.specs.Prelude.{◌≡◌, ◌↔◌, Some, None, IsTrue, is_ok, IfOk, MatchResult};
ghost use Rattle.grail_code.specs.Code.{code_of};
ghost use Rattle.grail_code.specs.WellFormed.{IsWellFormed};
ghost use Rattle.grail_check.specs.Finding.{Answers};
ghost use Rattle.grail_check.specs.Faulting.{table_fault, first_fault};
ghost use Rattle.grail_check.specs.Walk.{AllPass, FirstFault, walk};

use super::fault::{CodeFault, Stop};
use super::functions::check_functions;
use super::types::check_types;
use grail_code::Code;
use std::alloc::{AllocError, Global};

// A fault of the types has the number of functions in place of a function.
fn check_table(alloc: Global, code: &Code) -> Result<(), Stop<CodeFault>>
    ensures { Answers result (table_fault (code_of code.now)) }
{
    match check_types(alloc, &code.types) {
        Ok(()) => Ok(()),
        Err(Stop::Fault(kind)) => Err(Stop::Fault(CodeFault {
            func: code.funcs.len() as u32,
            block: 0,
            place: 0,
            kind,
        })),
        Err(Stop::Memory) => Err(Stop::Memory),
    }
}

// The whole walk.
fn walk_through(alloc: Global, code: &Code) -> Result<(), Stop<CodeFault>>
    ensures { Answers result (first_fault (code_of code.now)) }
{
    check_table(alloc, code)?;
    check_functions(alloc, code)
}

/// Whether the code is well formed, and if not, the first check of the walk that fails (`specs/Walk.antt`);
/// `AllocError` where memory runs out.
#[tactic(auto, using(crate::proofs::WalkLaws::passes, crate::proofs::WalkLaws::finds))]
pub fn check_code(alloc: Global, code: &Code) -> Result<Result<(), CodeFault>, AllocError>
    // At Ok all checks of the walk pass; a fault is the first one that fails, with its place and kind.
    ensures first_fault { IfOk result (λ answer. MatchResult answer (λ _. AllPass (walk (code_of code.now)))
        (λ fault. FirstFault (walk (code_of code.now)) fault)) }
    // Ok comes exactly where the code is well formed, unless memory runs out.
    ensures well_formed { IfOk result (λ answer. IsTrue (is_ok answer) ↔ IsWellFormed (code_of code.now)) }
{
    match walk_through(alloc, code) {
        Ok(()) => Ok(Ok(())),
        Err(Stop::Fault(fault)) => Ok(Err(fault)),
        Err(Stop::Memory) => Err(AllocError),
    }
}

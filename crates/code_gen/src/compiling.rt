ghost use Rattle.std.specs.Prelude.{◌≡◌, ℕ, List, None, Some, slice_get, map, length, ◌≤◌, IfOk};
ghost use Rattle.camelot_values.specs.Value.{Value};
ghost use Rattle.camelot_values.specs.Typing.{ArgumentsFit};
ghost use Rattle.camelot_tree.specs.Meaning as source;
ghost use Rattle.camelot_tree.specs.Tree.{function_of};
ghost use Rattle.camelot_typing.specs.Kinds.{types_of};
ghost use Rattle.camelot_typing.specs.Typing.{Signature};
ghost use Rattle.camelot_typing.specs.Typed.{kinds_of, signature_of};
ghost use Rattle.camelot_typing.specs.TypedPrograms.{typing_of};
ghost use Rattle.grail_code.specs.Code.{code_of, func_of};
ghost use Rattle.grail_code.specs.Meaning.{run_of};
ghost use Rattle.grail_code.specs.Spelling.{FitsCode, Second};
ghost use Rattle.grail_code.specs.WellFormed.{IsWellFormed};
ghost use Rattle.normal_form.specs.declared.fault.NormalFault.{NormalFault};
ghost use Rattle.normal_form.specs.Answers.{Finds, Refuses, Takes, fault_of, program_fault};
ghost use Rattle.normal_form.specs.Normal.{normal_function};
ghost use Rattle.normal_form.specs.Coded.{coded};
ghost use Rattle.code_gen.specs.Generated.{compiled, live_params};
ghost use Rattle.code_gen.specs.Marked.{IsWithinUnless};

use crate::coding::code_function;
use crate::laws::{law_of_compiler, law_of_limits, law_of_room};
use camelot_tree::FunDecl;
use camelot_typing::FunKinds;
use grail_code::{Code, Func};
use linear_use::Linear;
use normal_form::facts::{law_of_params, law_of_sizes};
use normal_form::{Known, NormalFault, normalise_function};
use std::alloc::Global;
use stops::Stop;

// The code of a function, or the fault where it is too large.
fn compile_function(
    alloc: Global,
    known: &Known<'_>,
    decl: &FunDecl,
    kinds: &FunKinds,
) -> Result<Func, Stop<NormalFault>>
    requires params { length decl.now.params.items ≤ 16 }
    requires within { let t = typing_of known.now.typed.now in IsWithinUnless t.source t.signatures
        (function_of decl.now) (signature_of (function_of decl.now) (kinds_of kinds.now)) }
    ensures function { let t = typing_of known.now.typed.now in IfOk result
        (λ func. func_of func ≡ coded live_params
        (normal_function t.source t.signatures (function_of decl.now)
        (signature_of (function_of decl.now) (kinds_of kinds.now)))) }
    ensures finds { Finds result (fault_of (typing_of known.now.typed.now).source (function_of decl.now)) }
{
    let function = normalise_function(known, decl, kinds)?;
    Ok(code_function(alloc, function)?)
}

// The code of all functions, or the first fault. The normal form of each is coded before the next one's is made, while
// it is in the cache.
#[tactic(auto, using(crate::proofs::Singly::all_within))]
fn compile_functions(alloc: Global, known: &Known<'_>) -> Result<Vec<Func>, Stop<NormalFault>>
    ensures functions { IfOk result (λ funcs. map func_of funcs.items ≡ (compiled (typing_of known.now.typed.now)).funcs) }
    ensures finds { Finds result (program_fault (typing_of known.now.typed.now)) }
{
    law_of_sizes();
    law_of_params(known.typed);
    let mut funcs = Vec::new(alloc);
    'funs: for (decl, kinds) in known.typed.program.funs.iter().zip(&known.typed.funs) {
        funcs.push(compile_function(alloc, known, decl, kinds)?)?;
    }
    Ok(funcs)
}

/// The code of a program that keeps the rule of use: that of its normal form. A fault is its first function that is too
/// large; [`Stop::Memory`] where memory runs out.
pub fn compile(alloc: Global, program: &Linear) -> Result<Code, Stop<NormalFault>>
    // It is the program's code.
    ensures code { IfOk result (λ code. code_of code ≡ compiled (typing_of program.now.typed)) }

    // It is well formed.
    ensures well_formed { IfOk result (λ code. IsWellFormed (code_of code)) }

    // It means what the program means, on fitting arguments: both come to the same value with the same calls, peak and
    // net, or both stop alike.
    ensures meaning { IfOk result (λ code. (limit func fuel : ℕ) (args : List Value) (s : Signature) → slice_get
        (typing_of program.now.typed).signatures func ≡ Some s
        → ArgumentsFit (types_of (typing_of program.now.typed).source) s.params args
        → run_of (code_of code) limit func fuel args
        ≡ source.run_of (typing_of program.now.typed).source limit func fuel args) }

    // It is within the ranges of the second format, so that it has a spelling there.
    ensures spelled { IfOk result (λ code. FitsCode Second (code_of code)) }

    // An error is the first function that is too large, unless memory ran out.
    ensures finds { Finds result (program_fault (typing_of program.now.typed)) }

    // A program within the limits is refused for want of memory alone.
    ensures takes { program_fault (typing_of program.now.typed) ≡ None → Takes result }

    // A program with a function that is too large is refused by the first one, unless memory ran out.
    ensures refuses { (fault : NormalFault) → program_fault (typing_of program.now.typed) ≡ Some fault → Refuses fault result }
{
    law_of_compiler();
    law_of_limits();
    law_of_room(program);
    let known = Known::new(alloc, program)?;
    let funcs = compile_functions(alloc, &known)?;
    let types = known.types()?;
    Ok(Code { types, funcs })
}

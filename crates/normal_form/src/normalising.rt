ghost use Rattle.std.specs.Prelude.{◌≡◌, ℕ, List, None, Some, slice_get, map, IfErr, IfOk, length};
ghost use Rattle.camelot_values.specs.Value.{Value};
ghost use Rattle.camelot_values.specs.Typing.{ArgumentsFit};
ghost use Rattle.camelot_tree.specs.Meaning as source;
ghost use Rattle.camelot_typing.specs.Kinds.{types_of};
ghost use Rattle.camelot_typing.specs.Typing.{Signature};
ghost use Rattle.camelot_typing.specs.TypedPrograms.{typing_of};
ghost use Rattle.normal_form.specs.declared.fault.NormalFault.{NormalFault};
ghost use Rattle.normal_form.specs.Answers.{Finds, Refuses, Takes, program_fault};
ghost use Rattle.normal_form.specs.Normal.{normal_form, normal_functions};
ghost use Rattle.normal_form.specs.Programs.{normal_function_of, normal_of};
ghost use Rattle.normal_form.specs.Running.{run_of};
ghost use Rattle.normal_form.specs.Tables.{signatures_in, source_in};

use crate::facts::law_of_params;
use crate::fault::NormalFault;
use crate::functions::normalise_function;
use crate::known::Known;
use crate::program::{Normal, NormalFunction};
use linear_use::Linear;
use std::alloc::Global;
use stops::Stop;

// All functions in normal form, or the first fault.
fn all_functions(known: &Known<'_>) -> Result<Vec<NormalFunction>, Stop<NormalFault>>
    ensures functions { IfOk result (λ all. map normal_function_of all.items ≡ normal_functions
        (source_in known.now.typed.now) (signatures_in known.now.typed.now) (source_in known.now.typed.now).funs
        (signatures_in known.now.typed.now)) }
    ensures finds { Finds result (program_fault (typing_of known.now.typed.now)) }
{
    law_of_params(known.typed);
    let mut all = Vec::new(known.alloc);
    'funs: for (decl, kinds) in known.typed.program.funs.iter().zip(&known.typed.funs) {
        all.push(normalise_function(known, decl, kinds)?)?;
    }
    Ok(all)
}

/// The normal form of a program that keeps the rule of use (`specs/Normal.antt`). A fault is its first function that is
/// too large; [`Stop::Memory`] where memory runs out.
pub fn normalise(alloc: Global, program: &Linear) -> Result<Normal, Stop<NormalFault>>
    // It is the program's normal form.
    ensures program { IfOk result (λ normal. normal_of normal ≡ normal_form (typing_of program.now.typed)) }

    // It means what the program means, on fitting arguments: both come to the same value with the same calls, peak and
    // net, or both stop alike.
    ensures meaning { IfOk result (λ normal. (limit func fuel : ℕ) (args : List Value) (s : Signature) → slice_get
        (typing_of program.now.typed).signatures func ≡ Some s
        → ArgumentsFit (types_of (typing_of program.now.typed).source) s.params args
        → run_of (normal_of normal) limit func fuel args
        ≡ source.run_of (typing_of program.now.typed).source limit func fuel args) }

    // An error is the first function that is too large, unless memory ran out.
    ensures finds { Finds result (program_fault (typing_of program.now.typed)) }

    // A program within the limits is refused for want of memory alone.
    ensures takes { program_fault (typing_of program.now.typed) ≡ None → Takes result }

    // A program with a function that is too large is refused by the first one, unless memory ran out.
    ensures refuses { (fault : NormalFault) → program_fault (typing_of program.now.typed) ≡ Some fault → Refuses fault result }
{
    let known = Known::new(alloc, program)?;
    let functions = all_functions(&known)?;
    Ok(Normal {
        types: known.types()?,
        functions,
    })
}

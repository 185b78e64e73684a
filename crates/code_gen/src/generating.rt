ghost use Rattle.std.specs.Prelude.{◌≡◌, ℕ, List, None, Some, slice_get, map, IfOk, IsTrue};
ghost use Rattle.camelot_values.specs.Value.{Value};
ghost use Rattle.camelot_values.specs.Typing.{ArgumentsFit};
ghost use Rattle.camelot_tree.specs.Meaning as source;
ghost use Rattle.camelot_tree.specs.Shape.{is_whole};
ghost use Rattle.camelot_tree.specs.Tokens.{is_named};
ghost use Rattle.camelot_typing.specs.Kinds.{types_of};
ghost use Rattle.camelot_typing.specs.Typing.{Signature};
ghost use Rattle.camelot_typing.specs.Typed.{IsTyping, Typing};
ghost use Rattle.linear_use.specs.Answers.{KeepsRule};
ghost use Rattle.grail_code.specs.Code.{code_of, func_of};
ghost use Rattle.grail_code.specs.Limits.{IsWithinLimits};
ghost use Rattle.grail_code.specs.Meaning.{run_of};
ghost use Rattle.grail_code.specs.Spelling.{FitsCode, Second};
ghost use Rattle.grail_code.specs.WellFormed.{IsWellFormed};
ghost use Rattle.normal_form.specs.Answers.{program_fault};
ghost use Rattle.normal_form.specs.Normal.{normal_form};
ghost use Rattle.normal_form.specs.Programs.{normal_of};
ghost use Rattle.code_gen.specs.Generated.{code_of_normal};

use crate::coding::code_function;
use crate::laws::{law_of_compiler, law_of_limits};
use grail_code::Code;
use normal_form::Normal;
use std::alloc::{AllocError, Global};

// The code of a program in normal form.
fn code_program(alloc: Global, program: Normal) -> Result<Code, AllocError>
    requires { IsWithinLimits (code_of_normal (normal_of program)) }
    ensures { IfOk result (λ code. code_of code ≡ code_of_normal (normal_of program)) }
{
    let Normal { types, functions } = program;
    let mut funcs = Vec::new(alloc);
    'each_function: for function in functions {
        funcs.push(code_function(alloc, function)?)?;
    }
    Ok(Code { types, funcs })
}

/// The code of a program in normal form (`specs/Generated.antt`). The program is taken and not lent, as its lets and
/// the ends of its blocks become those of the code. What is live comes from one pass over each function's blocks, from
/// the last to the first (Aho, Lam, Sethi and Ullman 2006, section 9.2.5). An error is want of memory.
pub fn generate(alloc: Global, program: Normal) -> Result<Code, AllocError>
    // No function is too large, as in what `normalise` makes (`laws::law_of_limits`).
    requires { IsWithinLimits (code_of_normal (normal_of program)) }

    // It is the program's code.
    ensures code { IfOk result (λ code. code_of code ≡ code_of_normal (normal_of program)) }

    // That of a typed program that keeps the rule of use is well formed.
    ensures well_formed { (t : Typing) → IsTyping t → KeepsRule t → normal_of program ≡ normal_form t → IfOk result (λ code. IsWellFormed (code_of code)) }

    // It means what the program means, on fitting arguments: both come to the same value with the same calls, peak and
    // net, or both stop alike.
    ensures meaning { (t : Typing) (limit func fuel : ℕ) (args : List Value) (s : Signature) → IsTyping t
        → KeepsRule t → normal_of program ≡ normal_form t → slice_get t.signatures func ≡ Some s
        → ArgumentsFit (types_of t.source) s.params args
        → IfOk result (λ code. run_of (code_of code) limit func fuel args
        ≡ source.run_of t.source limit func fuel args) }

    // It is within the ranges of the second format, as the names of a program that was read have their forms.
    ensures spelled { (t : Typing) → IsTyping t → KeepsRule t → IsTrue (is_whole t.source)
        → IsTrue (is_named t.source) → program_fault t ≡ None → normal_of program ≡ normal_form t
        → IfOk result (λ code. FitsCode Second (code_of code)) }
{
    law_of_compiler();
    law_of_limits();
    code_program(alloc, program)
}

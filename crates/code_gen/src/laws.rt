//! Laws of the compiler, as the contracts of functions that do nothing.
ghost use Rattle.std.specs.Prelude.{◌≡◌, ℕ, List, None, Some, slice_get, IsTrue};
ghost use Rattle.camelot_values.specs.Value.{Value};
ghost use Rattle.camelot_values.specs.Typing.{ArgumentsFit};
ghost use Rattle.camelot_tree.specs.Meaning as source;
ghost use Rattle.camelot_tree.specs.Shape.{is_whole};
ghost use Rattle.camelot_tree.specs.Tokens.{is_named};
ghost use Rattle.camelot_typing.specs.Kinds.{types_of};
ghost use Rattle.camelot_typing.specs.Typing.{Signature};
ghost use Rattle.camelot_typing.specs.Typed.{IsTyping, Typing};
ghost use Rattle.camelot_typing.specs.TypedPrograms.{typing_of};
ghost use Rattle.linear_use.specs.Answers.{KeepsRule};
ghost use Rattle.grail_code.specs.Limits.{IsWithinLimits};
ghost use Rattle.grail_code.specs.Meaning.{run_of};
ghost use Rattle.grail_code.specs.Spelling.{FitsCode, Second};
ghost use Rattle.grail_code.specs.WellFormed.{IsWellFormed};
ghost use Rattle.normal_form.specs.Answers.{program_fault};
ghost use Rattle.code_gen.specs.Generated.{compiled};

use grail_code::laws::law_of_ranges;
use linear_use::Linear;
use normal_form::facts::{law_of_fits, law_of_sizes, law_of_tables, law_of_use};
use normal_form::laws::law_of_meaning;

/// The code of a typed program that keeps the rule of use is well formed, and means what the program means on fitting
/// arguments: whatever the fuel and the limit of waiting calls, both come to the same value with the same calls, peak
/// and net, or both stop alike.
pub fn law_of_compiler()
    // The code of a typed program that keeps the rule of use is well formed.
    ensures well_formed { (t : Typing) → IsTyping t → KeepsRule t → IsWellFormed (compiled t) }
    // On fitting arguments it means what the program means: the same outcome with the same counts.
    ensures meaning { (t : Typing) (limit func fuel : ℕ) (args : List Value) (s : Signature) → IsTyping t → KeepsRule t → slice_get t.signatures func ≡ Some s
        → ArgumentsFit (types_of t.source) s.params args → run_of (compiled t) limit func fuel args ≡ source.run_of t.source limit func fuel args }
{
    law_of_use();
    law_of_fits();
    law_of_tables();
    law_of_meaning();
}

/// Where no function has too many locals or blocks, the code is within its limits, and, as the names of a program that
/// was read have their forms, within the ranges of the second format, so that it has a spelling there.
pub fn law_of_limits()
    // Where no function is too large, the code is within its limits.
    ensures within { (t : Typing) → IsTyping t → IsTrue (is_whole t.source) → program_fault t ≡ None → IsWithinLimits (compiled t) }
    // Where names have their forms as well, it is within the ranges of the second format.
    ensures spelled { (t : Typing) → IsTyping t → KeepsRule t → IsTrue (is_whole t.source)
        → IsTrue (is_named t.source) → program_fault t ≡ None → FitsCode Second (compiled t) }
{
    law_of_compiler();
    law_of_sizes();
    law_of_ranges();
}

/// The code of a program that keeps the rule of use is within its limits where no function is too large, so that
/// `generate` takes what `normalise` gives.
pub fn law_of_room(program: &Linear)
    ensures { program_fault (typing_of program.now.typed) ≡ None → IsWithinLimits (compiled (typing_of program.now.typed)) }
{
    law_of_limits();
}

//! Laws of the normal form, as the contracts of functions that do nothing.
ghost use Rattle.std.specs.Prelude.{◌≡◌, ℕ, List, Some, length, slice_get};
ghost use Rattle.camelot_values.specs.Value.{Value};
ghost use Rattle.camelot_values.specs.Typing.{ArgumentsFit};
ghost use Rattle.camelot_tree.specs.Meaning as source;
ghost use Rattle.camelot_tree.specs.Tree.{Function};
ghost use Rattle.camelot_typing.specs.Kinds.{types_of};
ghost use Rattle.camelot_typing.specs.Typing.{FunctionFits, Signature, globals_of};
ghost use Rattle.camelot_typing.specs.Typed.{IsTyping, Typing};
ghost use Rattle.normal_form.specs.Normal.{normal_form, normal_function, tail_ends, tail_made};
ghost use Rattle.normal_form.specs.Running.{run_of};

/// The normal form of a typed program means what the program means, on fitting arguments: whatever the fuel and the
/// limit of waiting calls, both come to the same value with the same calls, peak and net, or both stop alike.
pub fn law_of_meaning()
    ensures { (t : Typing) (limit func fuel : ℕ) (args : List Value) (s : Signature) → IsTyping t → slice_get t.signatures func ≡ Some s
        → ArgumentsFit (types_of t.source) s.params args → run_of (normal_form t) limit func fuel args ≡ source.run_of t.source limit func fuel args }
{}

/// How many locals and blocks a function needs is how many its normal form has, where the program is typed.
pub fn law_of_counts()
    // As many locals are counted as the normal form has.
    ensures locals { (t : Typing) (f : Function) (s : Signature)
        → FunctionFits t.source (globals_of t.source t.signatures) f s
        → length (normal_function t.source t.signatures f s).locals ≡ tail_made t.source f.body }
    // As many blocks are counted as the normal form has.
    ensures blocks { (t : Typing) (f : Function) (s : Signature) → length (normal_function t.source t.signatures f s).blocks ≡ tail_ends t.source f.body }
{}

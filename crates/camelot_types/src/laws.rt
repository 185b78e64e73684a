//! What the rules of typing and the first fault of the walk have to do with each other.
ghost use Rattle.std.specs.Prelude.{◌≡◌, ◌⊎◌, List, IsTrue};
ghost use Rattle.camelot_tree.specs.Tree.{Source};
ghost use Rattle.camelot_tree.specs.Tokens.{has_ints};
ghost use Rattle.camelot_typing.specs.Typing.{Signature, IsTyped, IsWithinLimits};
ghost use Rattle.camelot_types.specs.Walk.{HasFault};
ghost use Rattle.camelot_types.specs.declared.fault.TypeFault.{TypeFault};

/// A program whose literals have 32 bits, as each program of the code's, is typed within the limits, for some kinds of
/// its functions, or it has a first fault, and never both; and it has one first fault at most. The rules of typing know
/// no order; the walk through the text is what finds the fault.
pub fn one_verdict()
    // A program whose literals have 32 bits is typed within the limits, or has a first fault.
    ensures some { (p : Source) → IsTrue (has_ints p)
        → ((sigs : List Signature) × (IsTyped p sigs × IsWithinLimits p)) ⊎ ((fault : TypeFault) × HasFault p fault) }
    // No program is both.
    ensures apart { (p : Source) (fault : TypeFault) (sigs : List Signature) → HasFault p fault → IsTyped p sigs → IsWithinLimits p → ⊥ }
    // A program has one first fault at most.
    ensures one { (p : Source) (first second : TypeFault) → HasFault p first → HasFault p second → first ≡ second }
{}

//! Laws of texts of values, as contracts of functions that do nothing.
ghost use Rattle.std.specs.Prelude.{◌≡◌, ◌∷◌, [], ℕ, ◌≤◌, List};
ghost use Rattle.camelot_values.specs.Value.{Value};
ghost use Rattle.camelot_values.specs.Counts.{size};
ghost use Rattle.camelot_values.specs.Kinds.{DataType, constructor_name};
ghost use Rattle.camelot_values.specs.Typing.{Fits};
ghost use Rattle.camelot_values.specs.declared.kinds.Kind.{Kind};
ghost use Rattle.value_text.specs.Grammar.{AreNamed, DistinctNames, IsTextOf, IsRead, IsTooLong, IsBadShape};
ghost use Rattle.value_text.specs.Text.{value_text};

/// What is printed of a value of a kind is a text of just that value; where it has at most 65,536 nodes, it is read as
/// the value.
pub fn law_of_printing()
    // What is printed of a value of a kind is a text of just that value.
    ensures text { (types : List DataType) (kind : Kind) (v : Value) → AreNamed types → Fits types kind v
        → IsTextOf types (kind ∷ []) (value_text (constructor_name types) v) (v ∷ []) }
    // Where it has at most 65,536 nodes, it is read as the value.
    ensures read { (types : List DataType) (kind : Kind) (v : Value) → AreNamed types → Fits types kind v
        → size v ≤ 65536 → IsRead types (kind ∷ []) (value_text (constructor_name types) v) (v ∷ []) }
{}

/// A text has one reading at most, where constructors have upper names of their own: it is of one list of values, or of
/// none; it has one number of nodes, and one place where it stops to begin a text of values. Whether it is read, is too
/// long, or is no such text: one of them holds at most.
#[tactic(auto, using(crate::proofs::OneReading::one_reading, crate::proofs::OneReading::one_size, crate::proofs::OneReading::one_place, crate::proofs::OneReading::never_both))]
pub fn law_of_reading()
    // A text is of one list of values at most.
    ensures one { (types : List DataType) (kinds : List Kind) (text : List ℕ) (vs ws : List Value) → AreNamed types
        → DistinctNames types → IsTextOf types kinds text vs → IsTextOf types kinds text ws → vs ≡ ws }
    // A text of values with too many nodes has one number of them.
    ensures long { (types : List DataType) (kinds : List Kind) (text : List ℕ) (m n : ℕ) → AreNamed types
        → DistinctNames types → IsTooLong types kinds text m → IsTooLong types kinds text n → m ≡ n }
    // A text that isn't of such values has one place where it stops.
    ensures bad { (types : List DataType) (kinds : List Kind) (text : List ℕ) (m n : ℕ)
        → IsBadShape types kinds text m → IsBadShape types kinds text n → m ≡ n }
    // A text that is read isn't too long.
    ensures apart { (types : List DataType) (kinds : List Kind) (text : List ℕ) (vs : List Value) (n : ℕ)
        → AreNamed types → DistinctNames types → IsRead types kinds text vs → IsTooLong types kinds text n → ⊥ }
{}

//! Laws of annotations and of potential, as the contracts of functions that do nothing.
ghost use Rattle.std.specs.Prelude.{◌≡◌, ℕ, ◌+◌, ◌*◌, ◌≤◌, List, ◌++◌, length, Some, true, false, map};
ghost use Rattle.std.specs.List.{AllByRecursion, sum_by};
ghost use Rattle.camelot_values.specs.Value.{Value, Values, Con, parts};
ghost use Rattle.camelot_values.specs.Kinds.{DataType, AreTypes, type_of};
ghost use Rattle.camelot_values.specs.Heap.{is_heap, is_heap_type, Reaches};
ghost use Rattle.camelot_values.specs.Counts.{size, size_all};
ghost use Rattle.camelot_values.specs.Typing.{Fits, FitAll};
ghost use Rattle.camelot_values.specs.declared.kinds.Kind.{Kind};
ghost use Rattle.camelot_values.specs.declared.kinds.Kind.TheVariants.{Dia};
ghost use Rattle.annotations.specs.Vectors.{Vector, at, AtLeast, EachAtLeast, IsFirstBelow, node_units, potential, potential_all, potentials, heap_cons, sum_over};

/// Annotations aren't both at least as many and fewer on some constructor that is reached, and one such constructor is
/// the first. They are at least themselves, and at least what a third is that lies between.
#[tactic(auto, using(crate::specs::PotentialLaws::not_both, crate::specs::PotentialLaws::one_first, crate::specs::PotentialLaws::at_least_itself, crate::specs::PotentialLaws::at_least_on))]
pub fn law_of_comparing()
    // An annotation isn't both at least as many and fewer on some constructor that is reached.
    ensures not_both { (types : List DataType) (kind : Kind) (left right : ℕ → ℕ) (con : ℕ)
        → AtLeast types kind left right → ¬ (IsFirstBelow types kind left right con) }
    // There is one first constructor with fewer units at most.
    ensures one_first { (types : List DataType) (kind : Kind) (left right : ℕ → ℕ) (con other : ℕ)
        → IsFirstBelow types kind left right con → IsFirstBelow types kind left right other → con ≡ other }
    // Each annotation is at least itself.
    ensures itself { (types : List DataType) (kind : Kind) (units : ℕ → ℕ) → AtLeast types kind units units }
    // What is at least a second, which is at least a third, is at least the third.
    ensures on { (types : List DataType) (kind : Kind) (left middle right : ℕ → ℕ) → AtLeast types kind left middle
        → AtLeast types kind middle right → AtLeast types kind left right }
{}

/// Potential is the sum, over the constructors of heap types, of the units times the number of nodes (Hofmann and Jost
/// 2003).
#[tactic(auto, using(crate::specs::PotentialLaws::by_constructors))]
pub fn law_of_constructors()
    ensures { (types : List DataType) (units : ℕ → ℕ) (v : Value) → potential types units v ≡ sum_over (heap_cons types) units v }
{}

/// Larger annotations carry more, on a value and on arguments: only the constructors that the kind reaches count.
#[tactic(auto, using(crate::specs::PotentialLaws::potential_at_least, crate::specs::PotentialLaws::potentials_at_least, crate::specs::PotentialLaws::potential_by_reached))]
pub fn law_of_reached()
    // A value carries at least as much by the larger annotation.
    ensures at_least { (types : List DataType) (kind : Kind) (left right : ℕ → ℕ) → AtLeast types kind left right
        → (v : Value) → Fits types kind v → potential types right v ≤ potential types left v }
    // Arguments carry at least as much where each one's annotation is the larger.
    ensures arguments { (types : List DataType) (kinds : List Kind) (lefts rights : List (ℕ → ℕ))
        → EachAtLeast types kinds lefts rights → (vs : List Value) → FitAll types kinds (parts vs)
        → potentials types rights vs ≤ potentials types lefts vs }
    // Annotations that agree on what the kind reaches let a value carry the same.
    ensures same { (types : List DataType) (kind : Kind) (left right : ℕ → ℕ)
        → ((con : ℕ) → Reaches types kind con → left con ≡ right con) → (v : Value) → Fits types kind v
        → potential types left v ≡ potential types right v }
{}

/// Ints, truth values, values that need no cell, and diamonds carry nothing.
#[tactic(auto, using(crate::specs::PotentialLaws::nothing_of_heap_free, crate::specs::PotentialLaws::nothing_of_diamonds))]
pub fn law_of_nothing()
    // A value of a kind that is no heap kind carries nothing.
    ensures heap_free { (types : List DataType) → AreTypes types → (units : ℕ → ℕ) (kind : Kind)
        → is_heap types kind ≡ false → (v : Value) → Fits types kind v → potential types units v ≡ 0 }
    // A diamond carries nothing.
    ensures diamonds { (types : List DataType) (units : ℕ → ℕ) (v : Value) → Fits types Dia v → potential types units v ≡ 0 }
{}

/// What a value carries is what its node carries and what its parts carry; a node of a heap type carries the units of
/// its constructor, and another none.
#[tactic(auto, using(crate::specs::PotentialLaws::potential_of_con, crate::specs::PotentialLaws::potential_of_parts, crate::specs::PotentialLaws::node_of_heap, crate::specs::PotentialLaws::node_of_other))]
pub fn law_of_nodes()
    // A value carries what its own node carries and what its parts carry.
    ensures whole { (types : List DataType) (units : ℕ → ℕ) (con : ℕ) (vs : Values)
        → potential types units (Con con vs) ≡ node_units types units con + potential_all types units vs }
    // What parts carry together is the sum of what each carries.
    ensures all { (types : List DataType) (units : ℕ → ℕ) (vs : List Value) → potential_all types units (parts vs) ≡ sum_by (potential types units) vs }
    // A node of a heap type carries the units of its constructor.
    ensures heap { (types : List DataType) (units : ℕ → ℕ) (con number : ℕ) → type_of types con ≡ Some number
        → is_heap_type types number ≡ true → node_units types units con ≡ units con }
    // A node of another type carries none.
    ensures other { (types : List DataType) (units : ℕ → ℕ) (con number : ℕ) → type_of types con ≡ Some number
        → is_heap_type types number ≡ false → node_units types units con ≡ 0 }
{}

/// Potentials of arguments, each with units of its own, add up, one list behind the other; with the same units for each
/// they are those of the parts of a constructor.
#[tactic(auto, using(crate::specs::PotentialLaws::potentials_append, crate::specs::PotentialLaws::potentials_same))]
pub fn law_of_arguments()
    // What lists of arguments carry, one behind the other, adds up.
    ensures add { (types : List DataType) (us ws : List (ℕ → ℕ)) (xs ys : List Value) → length us ≡ length xs
        → potentials types (us ++ ws) (xs ++ ys) ≡ potentials types us xs + potentials types ws ys }
    // Arguments with the same units for each carry what the parts of a constructor carry.
    ensures same { (types : List DataType) (units : ℕ → ℕ) (vs : List Value)
        → potentials types (map (λ v. units) vs) vs ≡ potential_all types units (parts vs) }
{}

/// A value carries at most the largest number of units times the number of its nodes; and so do arguments. No
/// constructor has more units than the pairs.
#[tactic(auto, using(crate::specs::PotentialLaws::at_within, crate::specs::PotentialLaws::potential_within, crate::specs::PotentialLaws::potentials_within))]
pub fn law_of_bounds()
    // No constructor has more units than the largest number among the pairs.
    ensures units { (vector : Vector) (most : ℕ) → AllByRecursion (λ p. p.1 ≤ most) vector → (con : ℕ) → at vector con ≤ most }
    // A value carries at most the largest number of units times the number of its nodes.
    ensures value { (types : List DataType) (units : ℕ → ℕ) (most : ℕ) → ((con : ℕ) → units con ≤ most) → (v : Value)
        → potential types units v ≤ most * size v }
    // Arguments carry at most the largest number of units times the number of all their nodes.
    ensures arguments { (types : List DataType) (us : List (ℕ → ℕ)) (most : ℕ)
        → AllByRecursion (λ units. (con : ℕ) → units con ≤ most) us → (vs : List Value)
        → potentials types us vs ≤ most * size_all (parts vs) }
{}

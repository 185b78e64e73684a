//! Laws of runs and of kinds, as the contracts of functions that do nothing.
ghost use Rattle.std.specs.Prelude.{◌≡◌, ◌↔◌, ℕ, ◌+◌, ℤ, pos, ◌+ℤ◌, ◌*ℤ◌, int_div, int_rem, ◌≤◌, List, ◌++◌, length, IsTrue};
ghost use Rattle.std.specs.Int.{int_max};
ghost use Rattle.camelot_values.specs.Value.{Value};
ghost use Rattle.camelot_values.specs.Outcome.{Outcome, Done, Trap, Stuck, calls_of, net, peak_of, net_of, after, first_then};
ghost use Rattle.camelot_values.specs.Bounds.{IsPaidBy, IsStop, same_stop};
ghost use Rattle.camelot_values.specs.Operator.{Operator, Div, Mod, on_ints, operate};
ghost use Rattle.camelot_values.specs.Kinds.{DataType};
ghost use Rattle.camelot_values.specs.Items.{items_of};
ghost use Rattle.camelot_values.specs.Counts.{count, count_among, cells, cells_among, size};
ghost use Rattle.camelot_values.specs.Lists.{Ascend, is_among};
ghost use Rattle.camelot_values.specs.Heap.{Reaches, reached};
ghost use Rattle.camelot_values.specs.Typing.{Fits, IsSafe, operator_kind};
ghost use Rattle.camelot_values.specs.declared.kinds.Kind.{Kind};
ghost use Rattle.camelot_values.specs.declared.kinds.Kind.TheVariants.{Int};

/// The law of two runs, one after the other, of which the first came to a value: the peak of both is the
/// greater of the first peak and the first net with the second peak on top, also where the second stops early;
/// where the second comes to a value, calls and nets add up.
#[tactic(auto, using(crate::specs::OutcomeLaws::peak_of_any, crate::specs::OutcomeLaws::net_of_two))]
pub fn law_of_sequence()
    // Unless the second is stuck, the peak of both is the greater of the first peak and the first net with the second
    // peak on top.
    ensures peak { (calls peak low : ℕ) (next : Outcome Value) → ¬ (next ≡ Stuck) →
        pos (peak_of (after calls peak low next)) ≡ int_max (pos peak) (net peak low +ℤ pos (peak_of next)) }
    // Where the second comes to a value, the calls add up.
    ensures calls { (v : Value) (calls peak low calls' peak' low' : ℕ) →
        calls_of (after calls peak low (Done v calls' peak' low')) ≡ calls + calls' }
    // Where the second comes to a value, the nets add up.
    ensures net { (v : Value) (calls peak low calls' peak' low' : ℕ) →
        net_of (after calls peak low (Done v calls' peak' low')) ≡ (net peak low +ℤ net peak' low') }
{}

/// What holds of two runs holds of one after the other. Where so many units pay for the first, and what it leaves for
/// its value pays for the second, they pay for the whole. Where the first comes to a value of a kind, and for each such
/// value the second to one of another, the whole does. A run that stopped stays the same stop, whatever was to follow.
#[tactic(auto, using(crate::specs::BoundLaws::sound_then, crate::specs::BoundLaws::stop_then))]
pub fn law_of_bounds()
    // Where so many units pay for the first, and what it leaves for its value pays for the second, they pay for the
    // whole.
    ensures paid { (unit units fuel : ℕ) (between left : Value → ℕ) (first : Outcome Value) (next : ℕ → Value → Outcome Value)
        → IsPaidBy unit units between first → ((k : ℕ) (v : Value) → IsPaidBy unit (between v) left (next k v))
        → IsPaidBy unit units left (first_then fuel first next) }
    // Where the first comes to a value of a kind, and for each such value the second to one of another, the whole does.
    ensures value { (types : List DataType) (kind last : Kind) (fuel : ℕ) (first : Outcome Value) (next : ℕ → Value → Outcome Value)
        → IsSafe types kind first → ((k : ℕ) (v : Value) → Fits types kind v → IsSafe types last (next k v)) → IsSafe types last (first_then fuel first next) }
    // A first run that stopped stays the same stop, whatever was to follow.
    ensures stop { (fuel : ℕ) (first : Outcome Value) (next : ℕ → Value → Outcome Value) → IsStop first → first_then fuel first next ≡ same_stop first }
{}

/// An operator on two ints of 32 bits comes to a value of its kind, and an int of it has 32 bits. Only a division by 0
/// comes to none: it is trapped, with a peak of 0. Remainders are what quotients leave.
#[tactic(auto, using(crate::specs::IntLaws::operate_sound, crate::specs::IntLaws::trapped_by_zero, crate::specs::IntLaws::remainder_is))]
pub fn law_of_operators()
    // What an operator comes to is of its kind, and an int of it has 32 bits.
    ensures sound { (types : List DataType) (op : Operator) (u v : Value) → Fits types Int u → Fits types Int v → IsSafe types (operator_kind op) (operate op u v) }
    // A quotient by 0 is trapped, and a remainder too.
    ensures by_zero { (x : ℤ) → (on_ints Div x (pos 0) ≡ Trap 0) × (on_ints Mod x (pos 0) ≡ Trap 0) }
    // Nothing else is.
    ensures trapped { (op : Operator) (x y : ℤ) (peak : ℕ) → on_ints op x y ≡ Trap peak → y ≡ pos 0 }
    // A remainder is what the quotient before wrapping leaves.
    ensures remainder { (x y : ℤ) → (int_div x y *ℤ y +ℤ int_rem x y) ≡ x }
{}

/// The list of the constructors that a kind reaches has just these, ascending.
#[tactic(auto, using(crate::specs::ReachLaws::reached_is, crate::specs::ReachLaws::reached_ascends))]
pub fn law_of_reach()
    // A constructor is in the list exactly where the kind reaches it.
    ensures reached { (types : List DataType) (kind : Kind) (con : ℕ) → IsTrue (is_among (reached types kind) con) ↔ Reaches types kind con }
    // The list ascends.
    ensures ascends { (types : List DataType) (kind : Kind) → Ascend (reached types kind) }
{}

/// A value has as many nodes in prefix order as its tree has; neither the nodes of one constructor nor the cells are
/// more; and for lists of arguments, one behind the other, both counts add up.
#[tactic(auto, using(crate::specs::CountLaws::length_items, crate::specs::CountLaws::count_within, crate::specs::CountLaws::cells_within, crate::specs::CountLaws::count_among_append, crate::specs::CountLaws::cells_among_append))]
pub fn law_of_counts()
    // A value has as many nodes in prefix order as its tree has.
    ensures nodes { (v : Value) → length (items_of v) ≡ size v }
    // No constructor has more nodes than the value.
    ensures count { (con : ℕ) (v : Value) → count con v ≤ size v }
    // A value takes at most a cell for each node.
    ensures cells { (types : List DataType) (v : Value) → cells types v ≤ size v }
    // The nodes of a constructor add up over lists of arguments.
    ensures counts_add { (con : ℕ) (us vs : List Value) → count_among con (us ++ vs) ≡ count_among con us + count_among con vs }
    // The cells add up over lists of arguments.
    ensures cells_add { (types : List DataType) (us vs : List Value) → cells_among types (us ++ vs) ≡ cells_among types us + cells_among types vs }
{}

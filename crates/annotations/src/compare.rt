ghost use Rattle.std.specs.Prelude.{◌≡◌, ◌↔◌, ◌&&◌, nat_lt, MatchOption, None};
ghost use Rattle.annotations.specs.Vectors.{at, AtLeast, IsFirstBelow};
ghost use Rattle.annotations.specs.Steps.{pairs_from, in_front, first_below, wants};

use super::vector::Vector;
use camelot_values::{Kind, Types};

// The pairs without those in front whose constructors are below this one.
pub(crate) fn pairs_from(pairs: &[(u32, u64)], con: u32) -> &[(u32, u64)]
    ensures { result.now ≡ pairs_from con pairs.now }
{
    let mut rest = pairs;
    'pairs: while let [(first, _), others @ ..] = rest {
        if *first >= con {
            break;
        }
        rest = others;
    }
    rest
}

// The units of the constructor, where its pair stands in front.
pub(crate) fn in_front(pairs: &[(u32, u64)], con: u32) -> u64
    ensures { result ≡ in_front con pairs.now }
{
    match pairs {
        [(first, units), ..] if *first == con => *units,
        _ => 0,
    }
}

// Whether there are fewer units, of a constructor that the kind reaches.
fn is_below(types: &Types, kind: Kind, con: u32, have: u64, need: u64) -> bool
    ensures { result ≡ (nat_lt have need && wants types.now kind con) }
{
    if have < need {
        types.reaches(kind, con)
    } else {
        false
    }
}

// The first constructor on the right that the kind reaches and that has fewer units on the left.
fn first_below(left: &Vector, right: &Vector, types: &Types, kind: Kind) -> Option<u32>
    ensures { result ≡ first_below (wants types.now kind) left.now right.now }
{
    let mut rest = left.pairs();
    'pairs: for (con, need) in right.pairs() {
        rest = pairs_from(rest, *con);
        if is_below(types, kind, *con, in_front(rest, *con), *need) {
            return Some(*con);
        }
    }
    None
}

/// The first constructor that the kind reaches which has fewer units on the left than on the right; None exactly where
/// the left has at least as many on each. Both are walked once, it takes no memory, and the kind is only looked into
/// where the left has fewer.
#[tactic(auto, using(crate::proofs::Walks::answer, crate::proofs::Walks::none_exactly))]
pub fn at_least(left: &Vector, right: &Vector, types: &Types, kind: Kind) -> Option<u32>
    // None says that the left has at least as many units on each constructor that is reached; a constructor is the
    // first where it has fewer.
    ensures answer { MatchOption result (AtLeast types.now kind (at left.now) (at right.now))
        (λ con. IsFirstBelow types.now kind (at left.now) (at right.now) con) }
    // None comes exactly where the left has at least as many on each.
    ensures none { (result ≡ None) ↔ AtLeast types.now kind (at left.now) (at right.now) }
{
    left.limits();
    right.limits();
    first_below(left, right, types, kind)
}

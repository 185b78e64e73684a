//! Laws of the walk of checks, as the contracts of functions that do nothing.
ghost use Rattle.std.specs.Prelude.{◌≡◌, ◌↔◌, ◌⊎◌, ℕ, Some};
ghost use Rattle.grail_code.specs.Code.{Code};
ghost use Rattle.grail_code.specs.WellFormed.{IsWellFormed, is_owned};
ghost use Rattle.grail_check.specs.declared.fault.CodeFault.{CodeFault};
ghost use Rattle.grail_check.specs.Walk.{AllPass, FirstFault, walk};
ghost use Rattle.grail_check.specs.Misuse.{Happens, UsesUnbound, UsesAgain, MisusesLent};

use super::fault::CodeKind;

/// Code is well formed exactly where all checks of the walk pass, and else it has a first fault, and one at most.
/// Well-formed code is told without an order of checks; the walk is what finds the fault.
#[tactic(auto, using(crate::proofs::WalkLaws::one_or_fault, crate::proofs::WalkLaws::never_both, crate::proofs::Agreeing::one_fault))]
pub fn law_of_walk()
    // Code is well formed exactly where all checks of the walk pass.
    ensures passes { (p : Code) → IsWellFormed p ↔ AllPass (walk p) }
    // Code is well formed, or it has a first fault.
    ensures some { (p : Code) → IsWellFormed p ⊎ ((fault : CodeFault) × FirstFault (walk p) fault) }
    // Well-formed code has no first fault.
    ensures apart { (p : Code) (fault : CodeFault) → IsWellFormed p → FirstFault (walk p) fault → ⊥ }
    // Code has one first fault at most.
    ensures one { (p : Code) (first second : CodeFault) → FirstFault (walk p) first → FirstFault (walk p) second → first ≡ second }
{}

/// The law of the three faults of use. Where the first fault is Unbound, the code there uses or looks at, on some way
/// through the block, a local that isn't bound before; where it is Spent, a local that is owned, and that was used
/// before and not bound since. Where it is Lent, a local that is lent is taken or bound there, or its cell isn't left
/// as it is. Or an arm looks at what isn't lent, or a function's header lends what the function can't lend.
#[tactic(auto, using(crate::proofs::WalkLaws::unbound, crate::proofs::WalkLaws::spent, crate::proofs::WalkLaws::lent))]
pub fn law_of_misuse()
    // Where the first fault is Unbound, the code uses or looks at a local there that isn't bound before on some way.
    ensures unbound { (p : Code) (fault : CodeFault) → fault.kind ≡ CodeKind.Unbound → FirstFault (walk p) fault →
        Happens p fault.func fault.block fault.place (λ f before here. UsesUnbound before here) }
    // Where it is Spent, the local is owned, and was used before on some way and not bound since.
    ensures spent { (p : Code) (fault : CodeFault) → fault.kind ≡ CodeKind.Spent → FirstFault (walk p) fault →
        Happens p fault.func fault.block fault.place (λ f before here. UsesAgain (is_owned p.types f) before here) }
    // Where it is Lent, a lent local is taken there: copied, computed with, asked for a truth value, put into a build,
    // built in, handed to a parameter without the mark, or returned. Or it is bound anew, or an arm doesn't leave its
    // cell as it is. Or an arm looks at what isn't lent, or the header lends what the function can't lend.
    ensures lent { (p : Code) (fault : CodeFault) → fault.kind ≡ CodeKind.Lent → FirstFault (walk p) fault →
        MisusesLent p fault.func fault.block fault.place }
{}

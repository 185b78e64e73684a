//! Laws of annotated code, as the contracts of functions that do nothing.
ghost use Rattle.std.specs.Prelude.{◌≡◌, ◌+◌, ◌≤◌, ◌↔◌, ℕ, ℤ, List, length, Some, slice_get};
ghost use Rattle.camelot_values.specs.Value.{Value};
ghost use Rattle.camelot_values.specs.Kinds.{AreTypes};
ghost use Rattle.camelot_values.specs.Typing.{ArgumentsFit};
ghost use Rattle.camelot_values.specs.Bounds.{IsPaidBy};
ghost use Rattle.camelot_values.specs.Runs.{entering};
ghost use Rattle.grail_code.specs.Code.{Block, Code, Func};
ghost use Rattle.grail_code.specs.Meaning.{Locals, bodies, from_place, run_of};
ghost use Rattle.grail_code.specs.Places.{FitAt};
ghost use Rattle.grail_code.specs.Soundness.{HaveBlocks};
ghost use Rattle.grail_code.specs.WellFormed.{IsWellFormed};
ghost use Rattle.annotations.specs.Vectors.{potential};
ghost use Rattle.licence.specs.Books.{Book};
ghost use Rattle.licence.specs.Rules.{LentAreFree, Pays};
ghost use Rattle.licence.specs.Checks.{Check, AllHold, FirstFails, checks_of, in_integers, integers};
ghost use Rattle.licence.specs.Failing.{RuleFails};
ghost use Rattle.licence.specs.Bound.{units_at};
ghost use Rattle.licence.specs.Worth.{worth_at};

/// Potential soundness (Hofmann and Jost 2003), with amounts of any size: where the rules hold of well-formed code,
/// every run from a function on fitting arguments, with any fuel and any limit of waiting calls, ended or stopped, is
/// paid for by what the function needs and its arguments carry. The peak costs no more, and at a value the net, what is
/// given back and what the result carries cost no more together.
#[tactic(auto, using(crate::specs::PotentialLaws::run_paid))]
pub fn law_of_potential()
    ensures { (p : Code) (book : Book ℕ) → IsWellFormed p → HaveBlocks p → AreTypes p.types → Pays p book
        → (limit entry fuel : ℕ) (args : List Value) (f : Func)
        → slice_get p.funcs entry ≡ Some f → ArgumentsFit p.types f.params args
        → IsPaidBy book.unit (units_at p book entry args) (λ v. book.back entry + potential p.types (book.result entry) v) (run_of p limit entry fuel args) }
{}

/// The same from any place on, and not from a function's first let alone: what follows a place, where every ready local
/// has a value of its kind, is paid for by the units that are left there and what the ready locals carry.
#[tactic(auto, using(crate::specs::PotentialLaws::place_paid))]
pub fn law_of_worth()
    ensures { (p : Code) (book : Book ℕ) → IsWellFormed p → HaveBlocks p → AreTypes p.types → Pays p book
        → (limit func number place fuel waits : ℕ) (f : Func) (b : Block) (env : Locals)
        → slice_get p.funcs func ≡ Some f → slice_get f.blocks number ≡ Some b → place ≤ length b.lets → FitAt p f b place env
        → IsPaidBy book.unit (worth_at p book func f number b place env) (λ v. book.back func + potential p.types (book.result func) v)
        (from_place p.types (entering (bodies p) limit) f b number place env fuel waits) }
{}

/// The rules, which have no order, hold exactly where a cell costs something, what is lent carries nothing, and every
/// check of the list holds.
#[tactic(auto, using(crate::specs::CheckLaws::pays_by_checks))]
pub fn law_of_checks()
    ensures { (p : Code) (book : Book ℕ) → Pays p book
        ↔ ((1 ≤ book.unit) × LentAreFree p book × AllHold (checks_of integers p (in_integers book))) }
{}

/// At the place of the first check that fails, the rule of that let or end fails.
#[tactic(auto, using(crate::specs::CheckLaws::rule_fails))]
pub fn law_of_failing()
    ensures { (p : Code) (book : Book ℕ) (c : Check ℤ) → FirstFails (checks_of integers p (in_integers book)) c → RuleFails p book c.func c.block c.place }
{}

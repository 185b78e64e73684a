//! Laws of marks.
ghost use Rattle.std.specs.Prelude.{◌≡◌, ℕ, ◌<◌, ◌++◌, Bool, false, List, replicate};
ghost use Rattle.cell_machine.specs.Stands.{RepeatsNone};
ghost use Rattle.cell_owners.specs.Marks.{AreFresh, AreMarkedBy, owners};

/// Marks that are set one after the other: where each set of cells could be marked, no cell stands in two of them.
#[tactic(auto, using(crate::specs::MarkLaws::none_at_first, crate::specs::MarkLaws::fresh_before, crate::specs::MarkLaws::fresh_once))]
pub fn law_of_marks()
    // At first no cell has an owner.
    ensures first { (count at : ℕ) → at < count → owners (replicate count false) at ≡ 0 }
    // Cells that are marked in two steps are marked in one.
    ensures both { (before between behind : List Bool) (xs ys : List ℕ) → AreMarkedBy before xs between
        → AreMarkedBy between ys behind → AreMarkedBy before (xs ++ ys) behind }
    // Cells that were marked had no owner before, and none stands twice among them.
    ensures fresh { (before behind : List Bool) (xs : List ℕ) → AreMarkedBy before xs behind → AreFresh before xs }
    // None stands twice where all could be marked.
    ensures once { (marks : List Bool) (xs : List ℕ) → AreFresh marks xs → RepeatsNone xs }
    // Of cells that could be marked together, the later ones can be behind the others.
    ensures rest { (before between : List Bool) (xs ys : List ℕ) → AreMarkedBy before xs between
        → AreFresh before (xs ++ ys) → AreFresh between ys }
{}

//! Laws of holes, as the contracts of functions that do nothing.
ghost use Rattle.std.specs.Prelude.{◌≡◌, ℕ, suc, ◌+◌, ◌<◌, ◌≤◌, ◌↔◌, Bool, List, ◌∷◌, [], length, map, Some, None};
ghost use Rattle.cell_span.specs.declared.cell.Cell.{Cell};
ghost use Rattle.cell_span.specs.Range.{Range, IsRange};
ghost use Rattle.hole_list.specs.declared.run.Run.{Run};
ghost use Rattle.hole_list.specs.Placing.{Taken, taken, take_run, give_run, largest, AreApart, in_run, times_in, total, IsOut};
ghost use Rattle.hole_list.specs.Holes.{run_of, Holed, AreHoles, TakenCells, take_cells, with_taken, IsRangeIn, give_cells, with_given, AllPass};

/// Where ranges are taken from and come back to is where their runs are.
pub fn law_of_placing()
    // Where a range is taken, its run is taken from the runs of the holes.
    ensures taken { (hs : List Range) (size : ℕ) (t : TakenCells) → take_cells hs size ≡ Some t
        → take_run (map run_of hs) size ≡ Some (taken (run_of t.range) (map run_of t.holes)) }
    // Where no range is taken, no run is.
    ensures none { (hs : List Range) (size : ℕ) → take_cells hs size ≡ None → take_run (map run_of hs) size ≡ None }
    // Where a range comes back, its run comes back among the runs of the holes.
    ensures given { (hs : List Range) (r : Range) → map run_of (give_cells hs r) ≡ give_run (map run_of hs) (run_of r) }
{}

/// A run that is taken has so many cells, which were cells of a hole and are so no longer; no other cell changes hands.
/// None is taken exactly where each hole is too small.
pub fn law_of_taking()
    // A run that is taken has just the size that was asked for.
    ensures size { (hs : List Run) (size : ℕ) (t : Taken) → take_run hs size ≡ Some t → t.run.size ≡ size }
    // Each cell of the holes is in the run that is taken or in a hole behind it, and in no more of them than before.
    ensures cells { (hs : List Run) (size : ℕ) (t : Taken) → take_run hs size ≡ Some t → (index : ℕ)
        → times_in t.holes index + in_run t.run index ≡ times_in hs index }
    // The cells of the holes are fewer by that size.
    ensures sum { (hs : List Run) (size : ℕ) (t : Taken) → take_run hs size ≡ Some t → total t.holes + size ≡ total hs }
    // Holes that ascend with a gap between any two do so behind it.
    ensures apart { (hs : List Run) (size : ℕ) (t : Taken) → take_run hs size ≡ Some t → AreApart hs → AreApart t.holes }
    // None is taken exactly where the largest hole is smaller than what was asked for.
    ensures none { (hs : List Run) (size : ℕ) → 1 ≤ size → (take_run hs size ≡ None ↔ (largest hs < size)) }
{}

/// The cells of a run that comes back are cells of holes; no other cell changes hands.
pub fn law_of_giving()
    // Each cell is in as many holes as before, and once more where it is in the run that comes back.
    ensures cells { (hs : List Run) (r : Run) (index : ℕ) → times_in (give_run hs r) index ≡ times_in hs index + in_run r index }
    // The cells of the holes are more by the size of the run.
    ensures sum { (hs : List Run) (r : Run) → total (give_run hs r) ≡ total hs + r.size }
{}

/// Taking and giving back keep what holes keep: that they lie apart, and that each cell of their base is in one hole or
/// in one run that is out.
pub fn law_of_holes()
    // What is taken is a range of so many cells of the arena, and a part of the base.
    ensures range { (s : Holed) (size : ℕ) (t : TakenCells) → AreHoles s → 1 ≤ size → take_cells s.holes size ≡ Some t → IsRangeIn s size t.range }
    // Taking keeps it, where one more may be out.
    ensures taken { (s : Holed) (n : ℕ) (t : TakenCells) → AreHoles s → 1 ≤ n → length s.out < s.most_out
        → take_cells s.holes n ≡ Some t → AreHoles (with_taken s t) }
    // Giving back keeps it, of a range of this arena whose run is out.
    ensures given { (s : Holed) (r : Range) → AreHoles s → IsRange r → r.arena ≡ s.arena → IsOut s.out (run_of r) → AreHoles (with_given s r) }
    // Where no run is out, the base is one hole.
    ensures whole { (s : Holed) → AreHoles s → s.out ≡ [] → map run_of s.holes ≡ s.base ∷ [] }
    // There is at most one hole more than runs that are out.
    ensures count { (s : Holed) → AreHoles s → length s.holes ≤ suc (length s.out) }
{}

/// Cells stay where they are: what a test says of each cell of the holes, and of the range that comes back, at its
/// index in the arena, it says of each cell behind taking and giving.
pub fn law_of_cells()
    // What a test says of each cell of the holes, at its index in the arena, it says of each behind taking.
    ensures taken { (test : ℕ → Cell → Bool) (hs : List Range) (size : ℕ) (t : TakenCells)
        → take_cells hs size ≡ Some t → AllPass test hs → AllPass test (t.range ∷ t.holes) }
    // The same behind giving back, where it says so of each cell of the range that comes back.
    ensures given { (test : ℕ → Cell → Bool) (hs : List Range) (r : Range) → AllPass test (r ∷ hs) → AllPass test (give_cells hs r) }
{}

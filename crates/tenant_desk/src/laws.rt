//! Laws of tenants, as contracts of functions that do nothing.
ghost use Rattle.std.specs.Prelude.{◌≡◌, ◌≢◌, ◌⊎◌, ℕ, ◌+◌, ◌≤◌, List, map, length, slice_get};
ghost use Rattle.std.specs.Option.{option_map};
ghost use Rattle.hole_list.specs.declared.run.Run.{Run};
ghost use Rattle.hole_list.specs.Placing.{take_run, give_run, largest, total};
ghost use Rattle.cell_span.specs.Range.{Range};
ghost use Rattle.hole_list.specs.Holes.{Holed, with_given};
ghost use Rattle.tenant_desk.specs.Leases.{LeaseView};
ghost use Rattle.tenant_desk.specs.Desk.{Tenants, pieces_of, AreBudgets, with_piece, held, budget, IsGranted, IsHeld, IsGiven};
ghost use Rattle.tenant_desk.specs.Kept.{AreTenants};
ghost use Rattle.tenant_desk.specs.Shifts.{shift, shift_taken};

/// What one tenant is given, and what it gives back, leaves the piece of each other tenant as it is.
pub fn law_of_tenants()
    // With another piece of one tenant, the piece of each other tenant is as it was.
    ensures { (d : Tenants) (tenant other : ℕ) (h : Holed) → other ≢ tenant
        → slice_get (with_piece d tenant h).pieces other ≡ slice_get d.pieces other }
{}

/// At first each tenant's piece has as many cells as its budget, and a grant doesn't change that; nor does giving back,
/// by its definition. What the tenant holds is more by each lease that it is given, and less by each that comes back.
pub fn law_of_budgets()
    // At first the pieces have as many cells as the budgets.
    ensures first { (r : Range) (bs : List ℕ) (most : ℕ) → AreBudgets (length r.cells) bs → map budget (pieces_of r bs most) ≡ bs }
    // A tenant that is given a lease holds so many cells more.
    ensures granted { (old new : Tenants) (tenant size : ℕ) (l : LeaseView) (k : IsGranted old new tenant size l) → held k.after ≡ held k.piece + size }
    // Its piece has as many cells as before.
    ensures same { (old new : Tenants) (tenant size : ℕ) (l : LeaseView) (k : IsGranted old new tenant size l) → budget k.after ≡ budget k.piece }
    // A tenant that gives a lease back holds as many cells less as the lease has.
    ensures given { (d : Tenants) (l : LeaseView) (k : IsHeld d l) → AreTenants d → held (with_given k.piece l.range) + length l.range.cells ≡ held k.piece }
{}

/// A lease that is granted is held, and goes on to be until it is given back, whatever else is granted or given back.
pub fn law_of_leases()
    // The lease that is granted is held.
    ensures granted { (old new : Tenants) (tenant size : ℕ) (l : LeaseView) → AreTenants old → 1 ≤ size
        → IsGranted old new tenant size l → IsHeld new l }
    // Each lease that was held before still is.
    ensures beside { (old new : Tenants) (tenant size : ℕ) (l m : LeaseView) → IsGranted old new tenant size l → IsHeld old m → IsHeld new m }
    // When a lease comes back, each other one of another tenant, or with another first index, is still held.
    ensures given { (old new : Tenants) (l m : LeaseView) → IsGiven old new l → IsHeld old m
        → (m.tenant ≢ l.tenant) ⊎ (m.range.first ≢ l.range.first) → IsHeld new m }
{}

/// Placement doesn't depend on where the piece begins: with all holes so many cells further on, each run is taken and
/// given back so many cells further on.
pub fn law_of_shifts()
    // What is taken lies so many cells further on, and so do the holes that are left.
    ensures taken { (by : ℕ) (hs : List Run) (size : ℕ)
        → take_run (map (shift by) hs) size ≡ option_map (shift_taken by) (take_run hs size) }
    // So do the holes behind giving back.
    ensures given { (by : ℕ) (hs : List Run) (r : Run) → give_run (map (shift by) hs) (shift by r) ≡ map (shift by) (give_run hs r) }
    // The largest hole has as many cells.
    ensures largest { (by : ℕ) (hs : List Run) → largest (map (shift by) hs) ≡ largest hs }
    // All holes together have as many.
    ensures total { (by : ℕ) (hs : List Run) → total (map (shift by) hs) ≡ total hs }
{}

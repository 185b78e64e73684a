//! Laws of journals, as contracts of functions that do nothing.
ghost use Rattle.std.specs.Prelude.{◌≡◌, ℕ, ◌<◌, ◌≤◌, List, ◌++◌, length, Some};
ghost use Rattle.hole_list.specs.Placing.{run, AreParts};
ghost use Rattle.lease_desk.specs.declared.event.Event.{Event};
ghost use Rattle.lease_desk.specs.Journal.{DeskState, leased, replay, AreSizes, IsLegal};
ghost use Rattle.lease_desk.specs.Progress.{took_times, gave_times, IsSound};
ghost use Rattle.lease_desk.specs.Within.{AreEventsWithin};

/// What holds of the state behind each front of a journal, of an arena with at least one cell: no two of all holes and
/// leases share a cell, and they have all cells of the arena; their sizes add up to the arena; holes ascend and no two
/// meet; each job waits, is out or was given back, once; and it has at most one Took and at most one Gave.
pub fn law_of_journals()
    // Behind each front the state is sound: jobs wait, are out or were given back, once each, and holes ascend and
    // don't meet.
    ensures sound { (arena : ℕ) (sizes : List ℕ) (journal : List Event) (s : DeskState) → 1 ≤ arena
        → AreSizes arena sizes → replay arena sizes journal ≡ Some s → IsSound arena sizes journal s }
    // Holes and leases have each cell of the arena once, and no other cell.
    ensures parts { (arena : ℕ) (sizes : List ℕ) (journal : List Event) (s : DeskState) → 1 ≤ arena
        → AreSizes arena sizes → replay arena sizes journal ≡ Some s
        → AreParts (run 0 arena) s.holes (leased s.leases) }
    // Each job is taken at most once.
    ensures took { (arena : ℕ) (sizes : List ℕ) (journal : List Event) (s : DeskState) (job : ℕ) → 1 ≤ arena
        → AreSizes arena sizes → replay arena sizes journal ≡ Some s → took_times job journal ≤ 1 }
    // Each job is given back at most once.
    ensures gave { (arena : ℕ) (sizes : List ℕ) (journal : List Event) (s : DeskState) (job : ℕ) → 1 ≤ arena
        → AreSizes arena sizes → replay arena sizes journal ≡ Some s → gave_times job journal ≤ 1 }
{}

/// Each front of a journal that has a replay, and so of a legal one, has a replay. In a legal journal of an arena with
/// at least one cell each job has just one Took and just one Gave.
pub fn law_of_legal()
    // Each front of a journal that has a replay has one.
    ensures fronts { (arena : ℕ) (sizes : List ℕ) (front later : List Event) (s : DeskState)
        → replay arena sizes (front ++ later) ≡ Some s → (t : DeskState) × (replay arena sizes front ≡ Some t) }
    // Each front of a legal journal has a replay.
    ensures legal { (arena : ℕ) (sizes : List ℕ) (front later : List Event) → IsLegal arena sizes (front ++ later)
        → (t : DeskState) × (replay arena sizes front ≡ Some t) }
    // In a legal journal each job is taken just once and given back just once.
    ensures each { (arena : ℕ) (sizes : List ℕ) (journal : List Event) (job : ℕ) → 1 ≤ arena
        → IsLegal arena sizes journal → job < length sizes
        → (took_times job journal ≡ 1) × (gave_times job journal ≡ 1) }
    // It tells of jobs that have a size and of no others, and its other numbers are at most the arena.
    ensures within { (arena : ℕ) (sizes : List ℕ) (journal : List Event) → 1 ≤ arena → IsLegal arena sizes journal
        → AreEventsWithin arena (length sizes) journal }
{}

//! Laws of journals, as contracts of functions that do nothing.
ghost use Rattle.std.specs.Prelude.{◌≡◌, ℕ, ◌≤◌, List, ◌++◌, Some};
ghost use Rattle.lease_desk.specs.declared.event.Event.{Event};
ghost use Rattle.lease_desk.specs.Journal.{IsLegal};
ghost use Rattle.journal_replay.specs.Replaying.{Told, replayed};

/// A journal of an arena with at least one cell comes to something exactly where it is the front of a legal one.
pub fn law_of_fronts()
    // A journal that comes to something goes on to a legal one.
    ensures goes_on { (arena : ℕ) (sizes : List ℕ) (journal : List Event) (told : Told) → 1 ≤ arena
        → replayed arena sizes journal ≡ Some told → (later : List Event) × IsLegal arena sizes (journal ++ later) }
    // Each front of a legal journal comes to something.
    ensures comes_to { (arena : ℕ) (sizes : List ℕ) (journal later : List Event)
        → IsLegal arena sizes (journal ++ later) → (told : Told) × (replayed arena sizes journal ≡ Some told) }
{}

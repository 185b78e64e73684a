//! The law of isolation, as the contract of a function that does nothing.
ghost use Rattle.std.specs.Prelude.{◌≡◌, ℕ, List, [], ◌∷◌, ◌++◌, Some, None};
ghost use Rattle.hole_list.specs.declared.run.Run.{Run};
ghost use Rattle.lease_desk.specs.Journal.{Move};
ghost use Rattle.cell_machine.specs.State.{End, Final};
ghost use Rattle.job_world.specs.Plans.{Planned};
ghost use Rattle.job_world.specs.Put.{Rest, Going, Ended};
ghost use Rattle.job_world.specs.World.{Worker, World, WorldEvent, Next, Step, Give, after, world, lease_at, worker_at, filed_at};
ghost use Rattle.job_world.specs.Isolation.{CanHold, LieApart, IsAlone, StepsApart, HasGoneOn, HasGivenBack, move_of, HasAsked};
ghost use Rattle.job_world.specs.Isolation.{EndsAlone, HaveSamePlan, AreEqual};

/// Jobs in one arena do not touch each other. A world has the cells of the whole arena, the desk, and the machine of
/// each job whose lease is out. Its events ask for the next job, let a job's machine step, or give a job's lease back,
/// in any order. A machine steps in the whole list of cells, from the first one of its lease on, and nothing tests
/// where the lease ends. The clauses hold behind any events, in an arena of any size, for plans that fit their licences
/// and have leases of at most the arena.
pub fn isolation_law()
    // Leases and holes share no cell and have all cells of the arena; the desk is the one behind the journal.
    ensures apart { (arena : ℕ) (ps : Planned) (events : List WorldEvent) → CanHold arena ps → LieApart arena ps (world arena ps events) }
    // The range and the frames of each lease are those of the job's lone machine, in a range of its own, after as many
    // steps.
    ensures own { (arena : ℕ) (ps : Planned) (events : List WorldEvent) (job : ℕ) (r : Run) → CanHold arena ps
        → lease_at (world arena ps events) job ≡ Some (Some r) → IsAlone ps (world arena ps events) job r }
    // A step changes no cell outside of its job's range, no other machine, no end that was filed, and nothing of the
    // desk.
    ensures step { (arena : ℕ) (ps : Planned) (events : List WorldEvent) (job : ℕ) → CanHold arena ps
        → StepsApart (world arena ps events) (after ps (world arena ps events) (Step job)) job }
    // A Next is the desk's move. A job that is taken begins, and all else stays.
    ensures asks { (arena : ℕ) (ps : Planned) (events : List WorldEvent) (m : Move) → CanHold arena ps → move_of ps (world arena ps events) ≡ Some m
        → HasAsked ps (world arena ps events) (after ps (world arena ps events) Next) m }
    // A Step of a machine that isn't over is one step more: no job gets stuck.
    ensures goes { (arena : ℕ) (ps : Planned) (events : List WorldEvent) (job : ℕ) (r : Run) (k : Worker) (rest : Rest) → CanHold arena ps
        → lease_at (world arena ps events) job ≡ Some (Some r) → worker_at (world arena ps events) job ≡ Some (Some k) → k.core ≡ Going rest
        → HasGoneOn (after ps (world arena ps events) (Step job)) job k }
    // A Give of a machine that is over files its end and gives its lease back, and all else stays.
    ensures gives { (arena : ℕ) (ps : Planned) (events : List WorldEvent) (job : ℕ) (r : Run) (k : Worker) (end : End) (calls peak low : ℕ)
        → CanHold arena ps → lease_at (world arena ps events) job ≡ Some (Some r)
        → worker_at (world arena ps events) job ≡ Some (Some k) → k.core ≡ Ended end calls peak low
        → HasGivenBack (world arena ps events) (after ps (world arena ps events) (Give job)) job r k }
    // Where the desk has no move, a Next changes nothing, and without a lease neither does a Step or a Give.
    ensures rests { (ps : Planned) (w : World) → move_of ps w ≡ None → after ps w Next ≡ w }
    // Nothing changes where a job without a lease steps or gives back.
    ensures idle { (ps : Planned) (w : World) (job : ℕ) → ((r : Run) → lease_at w job ≡ Some (Some r) → ⊥)
        → (after ps w (Step job) ≡ w) × (after ps w (Give job) ≡ w) }
    // Nor does a Step of a machine that is over, or a Give of one that goes on.
    ensures over { (ps : Planned) (w : World) (job : ℕ) (k : Worker) (end : End) (calls peak low : ℕ) → worker_at w job ≡ Some (Some k)
        → k.core ≡ Ended end calls peak low → after ps w (Step job) ≡ w }
    // Nothing changes where a job gives back whose machine goes on.
    ensures going { (ps : Planned) (w : World) (job : ℕ) (k : Worker) (rest : Rest) → worker_at w job ≡ Some (Some k) → k.core ≡ Going rest
        → after ps w (Give job) ≡ w }
    // One event more is that event behind the others.
    ensures more { (arena : ℕ) (ps : Planned) (events : List WorldEvent) (e : WorldEvent)
        → world arena ps (events ++ e ∷ []) ≡ after ps (world arena ps events) e }
    // Each end that was filed is what the job's own plan comes to, with the cells that its lone machine leaves.
    ensures filed { (arena : ℕ) (ps : Planned) (events : List WorldEvent) (job : ℕ) (f : Final) → CanHold arena ps
        → filed_at (world arena ps events) job ≡ Some (Some f) → EndsAlone ps job f }
    // In two worlds, whatever else they hold, jobs of the same plan after as many steps have the same cells and the
    // same frames.
    ensures alike { (arena size : ℕ) (ps qs : Planned) (events others : List WorldEvent) (job other : ℕ) (r q : Run) (k l : Worker)
        → CanHold arena ps → CanHold size qs → HaveSamePlan ps qs job other
        → lease_at (world arena ps events) job ≡ Some (Some r) → lease_at (world size qs others) other ≡ Some (Some q)
        → worker_at (world arena ps events) job ≡ Some (Some k) → worker_at (world size qs others) other ≡ Some (Some l) → k.count ≡ l.count
        → AreEqual (world arena ps events) (world size qs others) job other r q }
{}

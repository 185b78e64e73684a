//! Laws of plans and of schedules, as contracts of functions that do nothing.
ghost use Rattle.std.specs.Prelude.{◌≡◌, ◌<◌, ◌++◌, ℕ, List, length, Some};
ghost use Rattle.cell_span.specs.Range.{Range, IsWhole};
ghost use Rattle.lease_desk.specs.declared.event.Event.{Event};
ghost use Rattle.lease_desk.specs.Filing.{FiledCells, HoldsFiled};
ghost use Rattle.lease_desk.specs.Journal.{DeskState, replay, IsLegal};
ghost use Rattle.licence.specs.Licensed.{Licensed};
ghost use Rattle.job_world.specs.Isolation.{CanHold};
ghost use Rattle.job_world.specs.Plans.{Plan, Planned, leases_of, job_run, job_cells};
ghost use Rattle.job_world.specs.Schedules.{FilesAll, IsSchedule, IsWholeSchedule};
ghost use Rattle.job_world.specs.World.{world};

/// What a job comes to, and the cells that it leaves, stay when others are planned behind it.
#[tactic(auto, using(crate::specs::PlanLaws::run_stays, crate::specs::PlanLaws::cells_stay))]
pub fn law_of_adding()
    // What a job comes to stays when others are planned behind it.
    ensures run { (licences : List Licensed) (plans more : List Plan) (job : ℕ) → job < length plans
        → job_run (record { licences = licences; plans = plans ++ more }) job ≡ job_run (record { licences = licences; plans = plans }) job }
    // So do the cells that it leaves.
    ensures cells { (licences : List Licensed) (plans more : List Plan) (job : ℕ) → job < length plans
        → job_cells (record { licences = licences; plans = plans ++ more }) job ≡ job_cells (record { licences = licences; plans = plans }) job }
{}

/// Each journal of the desk is that of a world in which the jobs run. For plans that an arena can hold and each
/// journal that has a replay there are events of the world behind which it has this journal, and each cell of its
/// holes is the one that was filed with the last lease that went back over it. Behind a legal journal the whole arena
/// is such a hole, and a whole range that holds what was filed has just the world's cells.
pub fn law_of_schedules()
    // A journal that has a replay has a schedule.
    ensures fronts { (arena : ℕ) (ps : Planned) (filed : FiledCells) (journal : List Event) (s : DeskState) → CanHold arena ps → FilesAll ps filed
        → replay arena (leases_of ps.plans) journal ≡ Some s → IsSchedule arena ps filed journal }
    // So has a legal one, behind which each cell of the arena is known.
    ensures legal { (arena : ℕ) (ps : Planned) (filed : FiledCells) (journal : List Event) → CanHold arena ps → FilesAll ps filed
        → IsLegal arena (leases_of ps.plans) journal → IsWholeSchedule arena ps filed journal }
    // A whole range that holds what was filed has the cells of the world behind the schedule.
    ensures one { (arena : ℕ) (ps : Planned) (filed : FiledCells) (journal : List Event) (h : Range) (k : IsWholeSchedule arena ps filed journal)
        → IsWhole h → h.arena.cells ≡ arena → HoldsFiled filed journal h → h.cells ≡ (world arena ps k.events).cells }
    // The world's cells hold what was filed.
    ensures held { (arena : ℕ) (ps : Planned) (filed : FiledCells) (journal : List Event) (h : Range) (k : IsWholeSchedule arena ps filed journal)
        → h.first ≡ 0 → h.cells ≡ (world arena ps k.events).cells → HoldsFiled filed journal h }
{}

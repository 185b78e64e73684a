//! Laws of what tenants are told, as the contracts of functions that do nothing.
ghost use Rattle.std.specs.Prelude.{◌≡◌, ℕ, List};
ghost use Rattle.tenant_script.specs.Tenants.{Entry};
ghost use Rattle.script_plans.specs.Fates.{Fate};
ghost use Rattle.script_plans.specs.Programs.{ProgramText};
ghost use Rattle.run_reports.specs.declared.outcome.ProgramLine.{ProgramLine};
ghost use Rattle.tenant_service.specs.Rooms.{replies, room_after};
ghost use Rattle.tenant_service.specs.Replies.{Line, Rooms, answers, rooms_after, own_lines, told_to, lines_of};
ghost use Rattle.tenant_service.specs.Scripts.{program_named, AreProgramLines, AreFates, lines_from, alone, own_fates};

/// What a tenant is told depends on its own lines, its budget and its own room alone: the lines of the others may stand
/// anywhere between its own, or be left out.
pub fn law_of_replies()
    // A tenant is told what its own lines come to in its own room.
    ensures own { (budget : List ℕ → ℕ) (rooms : Rooms) (lines : List Line) (tenant : List ℕ)
        → told_to tenant (answers budget rooms lines) ≡ replies (budget tenant) (rooms tenant) (own_lines tenant lines) }
    // Its room behind all lines is the one behind its own.
    ensures room { (budget : List ℕ → ℕ) (rooms : Rooms) (lines : List Line) (tenant : List ℕ)
        → rooms_after budget rooms lines tenant ≡ room_after (budget tenant) (rooms tenant) (own_lines tenant lines) }
    // It is told the same where the lines of the others are left out.
    ensures alone { (budget : List ℕ → ℕ) (rooms : Rooms) (lines : List Line) (tenant : List ℕ)
        → told_to tenant (answers budget rooms (lines_of tenant lines)) ≡ told_to tenant (answers budget rooms lines) }
{}

/// A script without the starts and the finishes of the others has the same programs, and the tenant's own starts come to
/// the same there. So the tenant is told the same.
pub fn law_of_scripts()
    // The programs have the same lines.
    ensures programs { (tenant : List ℕ) (items : List Entry) (lines : List ProgramLine) → AreProgramLines items lines
        → AreProgramLines (alone tenant items) lines }
    // Each of the tenant's starts has the fate that it has in the whole script.
    ensures fates { (tenant : List ℕ) (items : List Entry) (fates : List Fate) → AreFates items items fates
        → AreFates (alone tenant items) (alone tenant items) (own_fates tenant items fates) }
    // Its lines are those of the whole script that are its own.
    ensures lines { (tenant : List ℕ) (items : List Entry) (fates : List Fate) → AreFates items items fates
        → lines_from (alone tenant items) (own_fates tenant items fates) ≡ lines_of tenant (lines_from items fates) }
{}

//! Laws of plans, as contracts of functions that do nothing.
ghost use Rattle.std.specs.Prelude.{◌≡◌, ◌≤◌, ℕ, List, Option, length};
ghost use Rattle.std.specs.List.{AllByRecursion};
ghost use Rattle.job_script.specs.Scripts.{Entry as PlainEntry, EntryIsWithin, Job, Script};
ghost use Rattle.job_script.specs.Text.{EntryIsShort};
ghost use Rattle.run_reports.specs.declared.outcome.ProgramLine.{ProgramLine as PlainLine};
ghost use Rattle.run_reports.specs.Told.{JobLine};
ghost use Rattle.script_plans.specs.Programs.{ProgramText};
ghost use Rattle.script_plans.specs.CallPlans.{HavePlans, IsLicensedCall};
ghost use Rattle.script_plans.specs.Fates.{Call, Calls, Fate, IsFate, IsProgramLine, cells_of, lease_of};
ghost use Rattle.script_plans.specs.Lines.{AreFates, AreProgramLines, Agree, TellsOf};

use bundle_licence::laws::law_of_licences;
use camelot_compiler::laws::law_of_compiling;
use code_gen::laws::law_of_compiler;
use value_text::laws::law_of_reading;

/// The texts of programs and jobs that are no longer than so many bytes, as those of a script that was read are no
/// longer than its own text, have fewer than 2^32.
#[tactic(auto, using(crate::specs::ScriptLaws::all_short))]
pub fn law_of_short()
    ensures { (most : ℕ) (entries : List PlainEntry) → most ≤ 4294967295 → AllByRecursion (EntryIsShort most) entries
        → AllByRecursion (EntryIsShort 4294967295) entries }
{}

/// What comes of a script is determined by its text: each program has one line, and each job one fate, so that each
/// job has one line, whoever serves the script and whatever else it has.
pub fn law_of_fates()
    // A program has one line at most.
    ensures program { (program : ProgramText) (first second : PlainLine)
        → IsProgramLine program first → IsProgramLine program second → first ≡ second }
    // A job has one fate at most, by its program, entry and arguments.
    ensures job { (program : Option ProgramText) (entry args : List ℕ) (first second : Fate)
        → IsFate program entry args first → IsFate program entry args second → first ≡ second }
    // The programs of a script have one list of lines at most.
    ensures programs { (entries : List PlainEntry) (first second : List PlainLine)
        → AreProgramLines entries first → AreProgramLines entries second → first ≡ second }
    // The jobs of a script have one list of fates at most.
    ensures jobs { (script entries : List PlainEntry) (first second : List Fate)
        → AreFates script entries first → AreFates script entries second → first ≡ second }
{
    law_of_compiling();
    law_of_reading();
    law_of_compiler();
    law_of_licences();
}

/// What is told of a job depends on nothing else that stands in its script. Let two scripts have arenas of the same
/// size and both have a job with this name, program, entry, fuel and arguments, and let the first program of that
/// name have the same language and the same text in both. They tell the same line of it, whatever other jobs and
/// programs they have.
pub fn law_of_own_lines()
    ensures { (one other : Script) (job : Job) (first second : JobLine) → Agree one other job
        → TellsOf one job first → TellsOf other job second → first ≡ second }
{
    law_of_fates();
}

/// The calls of a script's jobs are plans of runs. A call is one of licensed code on fitting arguments; it leaves just
/// as many cells as its lease has; and there are plans that the arena can hold, one for each job that goes to the desk.
pub fn law_of_calls()
    // A job that is called is called of licensed code, on arguments that fit.
    ensures call { (program : Option ProgramText) (entry args : List ℕ) (c : Call) → IsFate program entry args (Calls c) → IsLicensedCall c }
    // The cells that its run leaves are as many as its lease.
    ensures left { (c : Call) (fuel : ℕ) → IsLicensedCall c → 1 ≤ fuel → lease_of c ≤ 2147483648 → length (cells_of c fuel) ≡ lease_of c }
    // The jobs that go to the desk have plans that the arena can hold.
    ensures plans { (arena : ℕ) (entries : List PlainEntry) (fates : List Fate) → arena ≤ 2147483648 → AllByRecursion EntryIsWithin entries
        → AreFates entries entries fates → HavePlans arena entries fates }
{
    law_of_compiler();
}

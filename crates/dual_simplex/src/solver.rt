//! The run of a system.

ghost use Rattle.std.specs.Prelude.{◌≡◌, ℕ, ◌<◌, ◌≤◌, ◌^◌, ◌+◌, true, false, pos, length, map, IfOk, All};
ghost use Rattle.std.specs.List.{range_with_len};
ghost use Rattle.dual_simplex.specs.Lines.{plain_line, plain_tableau, IsSoundLine, IsSoundTableau};
ghost use Rattle.dual_simplex.specs.Feasible.{IsWeaklyDual};
ghost use Rattle.dual_simplex.specs.Systems.{Inequalities, plain_row, plain_system, IsProper, IsProperRow, slack_line, slack_lines, first_tableau};
ghost use Rattle.dual_simplex.specs.Choices.{PicksLine, PicksColumn};
ghost use Rattle.dual_simplex.specs.Reduced.{AllReduced, StaysReduced};
ghost use Rattle.dual_simplex.specs.Shape.{IsWellShaped};
ghost use Rattle.dual_simplex.specs.Tableau.{Tableau as PlainTableau, line_at};
ghost use Rattle.dual_simplex.specs.Run.{Outcome, plain_answer, IsRun, IsOutcome, HasOneRun, IsTableauOf};
ghost use Rattle.dual_simplex.specs.Scans.{run_from, outcome_of, pivots_from, pivots_of};
ghost use Rattle.dual_simplex.specs.Promises.{SaysLeast, SaysPrices, SaysNothing, SaysPivots};

use crate::answer::answer;
use crate::line::Line;
use crate::system::{Row, Run, Solved, System};
use crate::tableau::Tableau;
use std::alloc::{AllocError, Global};

/// The most pivots of a run.
const MOST_PIVOTS: u32 = 4096;

// The equation of a row's slack.
fn slack_line(alloc: Global, unknowns: u32, variable: u32, row: &Row) -> Result<Line, AllocError>
    requires { IsProperRow unknowns (plain_row row.now) }
    ensures value { IfOk result (λ line. plain_line line ≡ slack_line unknowns variable (plain_row row.now)) }
    ensures sound { IfOk result (λ line. IsSoundLine unknowns (plain_line line)) }
{
    let mut factors = vec![in alloc; 0; unknowns as usize]?;
    for term in &row.terms {
        factors[term.unknown as usize] = term.factor;
    }
    Ok(Line {
        variable,
        divisor: 1,
        constant: -row.least,
        factors,
    })
}

// The equations of all slacks.
fn slack_lines(alloc: Global, unknowns: u32, rows: &[Row]) -> Result<Vec<Line>, AllocError>
    requires rows { All (IsProperRow unknowns) (map plain_row rows.now) }
    requires few { unknowns + length rows.now < 2 ^ 32 }
    ensures value { IfOk result (λ lines. map plain_line lines.items ≡ slack_lines unknowns unknowns (map plain_row rows.now)) }
    ensures sound { IfOk result (λ lines. All (λ line. IsSoundLine unknowns (plain_line line)) lines.items) }
{
    let mut lines = Vec::new(alloc);
    let mut variable = unknowns;
    for row in rows {
        lines.push(slack_line(alloc, unknowns, variable, row)?)?;
        variable += 1;
    }
    Ok(lines)
}

// The numbers from 0 to `count`, without `count`.
fn numbers_below(alloc: Global, count: u32) -> Result<Vec<u32>, AllocError>
    ensures { IfOk result (λ v. v.items ≡ range_with_len 0 count) }
{
    let mut numbers = Vec::new(alloc);
    for number in 0..count {
        numbers.push(number)?;
    }
    Ok(numbers)
}

// The first tableau of a system.
fn first_tableau(alloc: Global, system: &System) -> Result<Tableau, AllocError>
    requires { IsProper (plain_system system.now) }
    ensures value { IfOk result (λ t. plain_tableau t ≡ first_tableau (plain_system system.now)) }
    ensures sound { IfOk result IsSoundTableau }
{
    let columns = numbers_below(alloc, system.unknowns)?;
    let lines = slack_lines(alloc, system.unknowns, &system.rows)?;
    let cost = Line {
        variable: system.unknowns + system.rows.len() as u32,
        divisor: 1,
        constant: 0,
        factors: system.costs.as_slice().to_vec(alloc)?,
    };
    let solved = Line {
        variable: 0,
        divisor: 1,
        constant: 0,
        factors: vec![in alloc; 0; system.unknowns as usize]?,
    };
    Ok(Tableau {
        columns,
        lines,
        cost,
        solved,
    })
}

// The run from a tableau.
fn run(alloc: Global, mut tableau: Tableau) -> Result<Run, AllocError>
    requires sound { IsSoundTableau tableau }
    requires few { length tableau.columns.items + length tableau.lines.items < 2 ^ 32 }
    ensures exact { IfOk result (λ r. plain_answer r.solved ≡ run_from 4096 0 (plain_tableau tableau)) }
    ensures pivots { IfOk result (λ r. r.pivots ≡ pivots_from 4096 (plain_tableau tableau)) }
{
    let mut pivots = 0;
    loop {
        let Some(line) = tableau.leaving() else {
            let solved = answer(alloc, &tableau, pivots)?;
            return Ok(Run { pivots, solved });
        };
        let Some(column) = tableau.entering(line.place) else {
            let variable = tableau.lines[line.place].variable;
            let solved = Solved::Nothing { variable };
            return Ok(Run { pivots, solved });
        };
        if pivots == MOST_PIVOTS {
            let solved = Solved::Spent;
            return Ok(Run { pivots, solved });
        }
        pivots += 1;
        if tableau.pivot(line.place, column.place).is_err() {
            let solved = Solved::Wide { pivot: pivots };
            return Ok(Run { pivots, solved });
        }
    }
}

/// Weak duality, as a law of every system: what feasible prices are worth is at most what a feasible solution costs.
#[tactic(auto, using(crate::proofs::Weak::weak_duality))]
pub fn weak_duality()
    ensures { (system : Inequalities) → IsWeaklyDual system }
{}

/// Every line of every tableau is in lowest terms with a positive divisor: at the start, and after each pivot.
pub fn lowest_terms()
    // The lines of a system's first tableau are in lowest terms, with positive divisors.
    ensures first { (system : Inequalities) → AllReduced (first_tableau system) }
    // They stay so behind each pivot.
    ensures pivots { (tableau : PlainTableau) → StaysReduced tableau }
{}

/// Every system that is proper has just one run.
#[tactic(auto, using(crate::proofs::Relation::one_run))]
pub fn one_run()
    ensures { (system : Inequalities) → IsProper system → HasOneRun system }
{}

/// The outcome of a run is true of its system, whoever ran it: at Least no feasible solution costs less, and at Nothing
/// there is none.
#[tactic(auto, using(crate::proofs::Relation::says_least, crate::proofs::Relation::says_nothing))]
pub fn law_of_outcomes()
    // Where the outcome is Least, its values are a feasible solution, and no other costs less.
    ensures least { (system : Inequalities) (o : Outcome) → IsProper system → IsOutcome system o → SaysLeast system o }
    // Where the outcome is Nothing, there is no feasible solution.
    ensures nothing { (system : Inequalities) (o : Outcome) → IsProper system → IsOutcome system o → SaysNothing system o }
{}

/// Every tableau of a run is well shaped, its equations are in lowest terms with positive divisors, and at most one
/// variable can leave the basis, and for it at most one enter.
#[tactic(auto, using(crate::proofs::Relation::tableau_shaped, crate::proofs::Relation::tableau_reduced, crate::proofs::Relation::tableau_line, crate::proofs::Relation::tableau_column))]
pub fn tableaus_of_runs()
    // Every tableau of a run has the shape of its system.
    ensures shape { (system : Inequalities) (pivots : ℕ) (t : PlainTableau) → IsProper system → IsTableauOf system pivots t → IsWellShaped system t }
    // Its lines are in lowest terms, with positive divisors.
    ensures lowest { (system : Inequalities) (pivots : ℕ) (t : PlainTableau) → IsProper system → IsTableauOf system pivots t → AllReduced t }
    // At most one variable can leave the basis.
    ensures leaves { (system : Inequalities) (pivots : ℕ) (t : PlainTableau) → IsProper system → IsTableauOf system pivots t → PicksLine t }
    // For a line that leaves, at most one variable can enter the basis.
    ensures enters { (system : Inequalities) (pivots : ℕ) (t : PlainTableau) (i : ℕ) → IsProper system → IsTableauOf system pivots t → i < length t.lines
        → PicksColumn t (line_at t i) }
{}

// The run of a system, by the scans.
fn run_system(alloc: Global, system: &System) -> Result<Run, AllocError>
    requires { IsProper (plain_system system.now) }
    ensures exact { IfOk result (λ r. plain_answer r.solved ≡ outcome_of (plain_system system.now)) }
    ensures pivots { IfOk result (λ r. r.pivots ≡ pivots_of (plain_system system.now)) }
    ensures agrees { IfOk result (λ r. SaysPivots r.pivots (plain_answer r.solved)) }
{
    let tableau = first_tableau(alloc, system)?;
    run(alloc, tableau)
}

/// Solves a system as [`solve`] does, and counts the pivots.
#[tactic(auto, using(crate::proofs::Relation::is_run))]
pub fn solve_counted(alloc: Global, system: &System) -> Result<Run, AllocError>
    requires { IsProper (plain_system system.now) }
    // The answer is the outcome of the system's run, which has just so many pivots.
    ensures exact { IfOk result (λ r. IsRun (plain_system system.now) r.pivots (plain_answer r.solved)) }
    // There are at most 4,096 pivots: just so many at Spent, and as many as the answer names at Wide.
    ensures agrees { IfOk result (λ r. SaysPivots r.pivots (plain_answer r.solved)) }
{
    Ok(run_system(alloc, system)?)
}

/// Solves a system: the dual simplex method (Lemke 1954) by least indices (Bland 1977), for at most 4,096 pivots.
#[tactic(auto, using(crate::proofs::Relation::is_outcome))]
pub fn solve(alloc: Global, system: &System) -> Result<Solved, AllocError>
    requires { IsProper (plain_system system.now) }
    // Each of the four answers comes exactly where it is the outcome of the system's run.
    ensures exact { IfOk result (λ s. IsOutcome (plain_system system.now) (plain_answer s)) }
    // At Least the values over the unit are a feasible solution, and no other costs less.
    ensures least { IfOk result (λ s. SaysLeast (plain_system system.now) (plain_answer s)) }
    // At Least the prices over their unit are a feasible solution of the dual system, of equal value.
    ensures prices { IfOk result (λ s. SaysPrices (plain_system system.now) (plain_answer s)) }
    // At Nothing there is no feasible solution.
    ensures nothing { IfOk result (λ s. SaysNothing (plain_system system.now) (plain_answer s)) }
{
    Ok(run_system(alloc, system)?.solved)
}

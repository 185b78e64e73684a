//! The tableau of the dual simplex method, and one pivot of it.

ghost use Rattle.std.specs.Prelude.{◌≡◌, ℕ, ◌<◌, ◌≤◌, ◌^◌, ◌+◌, true, false, pos, length, map, MatchOption, MatchResult, OnOk, OnErr, IfSome, option_map, slice_index_or, All, ◌<ℤ◌, None};
ghost use Rattle.std.specs.List.{list_all};
ghost use Rattle.dual_simplex.specs.Equation.{fits, factor_at};
ghost use Rattle.dual_simplex.specs.Lines.{plain_line, plain_tableau, IsSoundLine, IsSoundTableau};
ghost use Rattle.dual_simplex.specs.Tableau.{all_fit, renewed, pivoted, line_at};
ghost use Rattle.dual_simplex.specs.Scans.{earlier, leaving, beats, better, entering, entering_from};

use crate::arithmetic::TooWide;
use crate::line::{Line, bound_of_line, put_in, renew, solve_for};

/// A line that may leave the basis.
#[derive(Clone, Copy)]
pub struct Candidate {
    pub place: usize,
    pub variable: u32,
}

/// A column that may enter the basis, with its factors in the cost and in the leaving line.
#[derive(Clone, Copy)]
pub struct Choice {
    pub place: usize,
    pub variable: u32,
    pub cost: i64,
    pub factor: i64,
}

/// The equations of the basic variables and of the cost over the variables of the columns, with room for one more
/// equation.
#[derive(Drop)]
pub struct Tableau {
    pub columns: Vec<u32>,
    pub lines: Vec<Line>,
    pub cost: Line,
    pub solved: Line,
}

// The candidate to leave after one more line.
fn earlier(best: Option<Candidate>, next: Candidate, constant: i64) -> Option<Candidate>
    ensures { result ≡ earlier best next constant }
{
    if constant >= 0 {
        return best;
    }
    match best {
        None => Some(next),
        Some(old) => {
            if next.variable < old.variable {
                Some(next)
            } else {
                Some(old)
            }
        }
    }
}

// Whether one choice of a column is better than another.
#[tactic(auto, using(crate::proofs::Wide::product_read))]
fn beats(next: &Choice, best: &Choice) -> bool
    ensures { result ≡ beats next.now best.now }
{
    let own = next.cost as i128 * best.factor as i128;
    let other = best.cost as i128 * next.factor as i128;
    own < other || (own <= other && next.variable < best.variable)
}

// The best choice after one more column.
fn better(best: Option<Choice>, next: Choice) -> Option<Choice>
    ensures { result ≡ better best next }
{
    if next.factor <= 0 {
        return best;
    }
    match best {
        None => Some(next),
        Some(old) => {
            if beats(&next, &old) {
                Some(next)
            } else {
                Some(old)
            }
        }
    }
}

// Does a pivot's work on each line.
fn renew_all(lines: &mut [Line], solved: &Line, leaving: u32, place: usize) -> Result<(), TooWide>
    requires place { place < length solved.now.factors.items }
    requires own { All (λ line. IsSoundLine (length solved.now.factors.items) (plain_line line)) lines.old }
    requires other { IsSoundLine (length solved.now.factors.items) (plain_line solved.now) }
    ensures value { OnOk result (map plain_line lines.new ≡ map (renewed leaving place (plain_line solved.now)) (map plain_line lines.old)) }
    ensures sound { OnOk result (All (λ line. IsSoundLine (length solved.now.factors.items) (plain_line line)) lines.new) }
    ensures wide { OnErr result (list_all fits (map (renewed leaving place (plain_line solved.now)) (map plain_line lines.old)) ≡ false) }
{
    let bound = bound_of_line(solved);
    for line in lines.iter_mut() {
        renew(line, solved, leaving, place, bound)?;
    }
    Ok(())
}

impl Tableau {
    /// The line that leaves the basis.
    pub fn leaving(&self) -> Option<Candidate>
        ensures value { result ≡ leaving (plain_tableau self.now) }
        ensures place { IfSome result (λ c. c.place < length self.now.lines.items) }
    {
        let mut best = None;
        for (place, line) in self.lines.iter().enumerate() {
            let next = Candidate {
                place,
                variable: line.variable,
            };
            best = earlier(best, next, line.constant);
        }
        best
    }

    /// The column that enters the basis, for the line at `line` that leaves it.
    pub fn entering(&self, line: usize) -> Option<Choice>
        requires line { line < length self.now.lines.items }
        requires sound { IsSoundTableau self.now }
        ensures value { result ≡ entering (plain_tableau self.now) (line_at (plain_tableau self.now) line) }
        ensures place { IfSome result (λ c. (c.place < length self.now.columns.items) × (pos 0 <ℤ factor_at c.place (line_at (plain_tableau self.now) line))) }
    {
        let factors = self.lines[line].factors.as_slice();
        best_column(
            self.columns.as_slice(),
            self.cost.factors.as_slice(),
            factors,
        )
    }

    /// One pivot: the line at `line` leaves the basis, and the variable of the column at `place` enters it.
    pub fn pivot(&mut self, line: usize, place: usize) -> Result<(), TooWide>
        requires sound { IsSoundTableau self.old }
        requires line { line < length self.old.lines.items }
        requires place { place < length self.old.columns.items }
        requires factor { pos 0 <ℤ factor_at place (line_at (plain_tableau self.old) line) }
        ensures value { OnOk result (plain_tableau self.new ≡ pivoted (plain_tableau self.old) (line_at (plain_tableau self.old) line) place) }
        ensures sound { OnOk result (IsSoundTableau self.new) }
        ensures wide { OnErr result (all_fit (pivoted (plain_tableau self.old) (line_at (plain_tableau self.old) line) place) ≡ false) }
    {
        let leaving = self.lines[line].variable;
        solve_for(
            &mut self.solved,
            &self.lines[line],
            place,
            self.columns[place],
        );
        self.columns[place] = leaving;
        put_in(&mut self.cost, &self.solved, place)?;
        renew_all(&mut self.lines, &self.solved, leaving, place)
    }
}

// The best column, for the factors of the cost and of the leaving line.
fn best_column(columns: &[u32], costs: &[i64], factors: &[i64]) -> Option<Choice>
    requires costs { length costs.now ≡ length columns.now }
    requires factors { length factors.now ≡ length columns.now }
    ensures value { result ≡ entering_from None 0 columns.now costs.now factors.now }
    ensures place { IfSome result (λ c. (c.place < length columns.now) × (pos 0 <ℤ slice_index_or factors.now c.place (pos 0))) }
{
    let mut best = None;
    for place in 0..columns.len() {
        let next = Choice {
            place,
            variable: columns[place],
            cost: costs[place],
            factor: factors[place],
        };
        best = better(best, next);
    }
    best
}

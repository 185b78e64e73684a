//! Systems of linear inequalities, and what solving one answers.

ghost use Rattle.std.specs.Prelude.{◌≡◌, ◌≤◌, ◌≤ℤ◌, ◌^◌, ◌↔◌, IsTrue, pos, unsigned_abs, map, All};
ghost use Rattle.dual_simplex.specs.Systems.{plain_row, plain_system, IsProper, IsProperRow};

/// The greatest size of a number of a system.
const MOST: u64 = 1 << 31;

/// A factor times an unknown.
#[derive(Clone, Copy, Debug, PartialEq, Eq)]
pub struct Summand {
    /// The number of the unknown, from 0.
    pub unknown: u32,
    /// At most 2^31 in size.
    pub factor: i64,
}

/// The sum of the terms is at least `least`.
#[derive(Debug, Drop)]
pub struct Row {
    /// Terms with ascending unknowns.
    pub terms: Vec<Summand>,
    /// At most 2^31 in size.
    pub least: i64,
}

/// A solution gives each unknown a rational number that is at least 0, and meets every row. Its cost is the sum of each
/// unknown's cost times the unknown.
#[derive(Debug, Drop)]
pub struct System {
    /// How many unknowns there are. Together with the rows there are fewer than 2^32.
    pub unknowns: u32,
    /// The cost of each unknown, from 0 to 2^31.
    pub costs: Vec<i64>,
    pub rows: Vec<Row>,
}

/// How the run of a system ends.
#[derive(Debug, Drop)]
pub enum Solved {
    /// `values` over `unit` is a solution of least cost, and `prices` over `price_unit` is a dual solution of the same
    /// value. Both units are the least that make these numbers whole.
    Least {
        unit: u64,
        values: Vec<u64>,
        price_unit: u64,
        prices: Vec<u64>,
    },
    /// There is no solution: the row of this variable can't be met. Slacks are numbered after the unknowns.
    Nothing {
        variable: u32,
    },
    /// After this many pivots a number is above 2^62 in size.
    Wide {
        pivot: u32,
    },
    /// The run doesn't end within 4,096 pivots.
    Spent,
}

/// How the run of a system ends, and how many pivots it makes.
#[derive(Debug, Drop)]
pub struct Run {
    /// From 0 to 4,096. A pivot that makes a number too large is counted too.
    pub pivots: u32,
    pub solved: Solved,
}

// Whether the unknowns of a row's terms ascend and are below `unknowns`, and its numbers are in range.
fn is_proper_row(unknowns: u32, row: &Row) -> bool
    ensures { IsTrue result ↔ IsProperRow unknowns (plain_row row.now) }
{
    let mut low = 0;
    for term in &row.terms {
        if (term.unknown as u64) < low
            || term.unknown >= unknowns
            || term.factor.unsigned_abs() > MOST
        {
            return false;
        }
        low = term.unknown as u64 + 1;
    }
    row.least.unsigned_abs() <= MOST
}

// Whether a cost is in range.
fn are_proper_costs(costs: &[i64]) -> bool
    ensures { IsTrue result ↔ All (λ cost. (pos 0 ≤ℤ cost) × (unsigned_abs cost ≤ 2 ^ 31)) costs.now }
{
    for cost in costs {
        if *cost < 0 || cost.unsigned_abs() > MOST {
            return false;
        }
    }
    true
}

// Whether all rows are in range.
fn are_proper_rows(unknowns: u32, rows: &[Row]) -> bool
    ensures { IsTrue result ↔ All (IsProperRow unknowns) (map plain_row rows.now) }
{
    for row in rows {
        if !is_proper_row(unknowns, row) {
            return false;
        }
    }
    true
}

impl System {
    /// Whether [`solve`](crate::solve) takes this system.
    pub fn is_proper(&self) -> bool
        ensures { IsTrue result ↔ IsProper (plain_system self.now) }
    {
        if self.costs.len() != self.unknowns as usize {
            return false;
        }
        if self.rows.len() as u64 >= (1 << 32) - self.unknowns as u64 {
            return false;
        }
        if !are_proper_rows(self.unknowns, &self.rows) {
            return false;
        }
        are_proper_costs(&self.costs)
    }
}

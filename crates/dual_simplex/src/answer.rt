//! The answer at the end of a run: values and prices as whole numbers over one unit each.

ghost use Rattle.std.specs.Prelude.{◌≡◌, ℕ, ◌<◌, ◌≤◌, ◌^◌, ◌+◌, ◌*◌, ◌/◌, true, false, pos, length, map, IfOk, IfSome, MatchOption, unsigned_abs, slice_index_or, All, vec_len};
ghost use Rattle.std.specs.List.{range_with_len};
ghost use Rattle.dual_simplex.specs.Lines.{plain_line, plain_tableau, IsSoundLine, IsSoundTableau};
ghost use Rattle.dual_simplex.specs.Answer.{value_of, price_of, values_of, prices_of, unit_of, unit_fits, numbers_fit, in_unit};
ghost use Rattle.dual_simplex.specs.Multiples.{IsMultiple, NoMultiple};
ghost use Rattle.dual_simplex.specs.Run.{ended, plain_answer};

use crate::arithmetic::{LIMIT, greatest_common};
use crate::line::Line;
use crate::system::Solved;
use crate::tableau::Tableau;
use std::alloc::{AllocError, Global};

/// A number that is at least 0. Both parts are at most 2^62, and `below` isn't 0.
#[derive(Clone, Copy)]
pub struct Fraction {
    pub above: u64,
    pub below: u64,
}

const ZERO: Fraction = Fraction { above: 0, below: 1 };

// The value of a variable.
fn value_of(variable: u32, lines: &[Line]) -> Fraction
    ensures { result ≡ value_of variable (map plain_line lines.now) }
{
    for line in lines {
        if line.variable == variable {
            return Fraction {
                above: line.constant.unsigned_abs(),
                below: line.divisor.unsigned_abs(),
            };
        }
    }
    ZERO
}

// The price of the row with this slack.
fn price_of(slack: u32, columns: &[u32], cost: &Line) -> Fraction
    requires { length cost.now.factors.items ≡ length columns.now }
    ensures { result ≡ price_of slack cost.now.divisor columns.now cost.now.factors.items }
{
    for place in 0..columns.len() {
        if columns[place] == slack {
            return Fraction {
                above: cost.factors[place].unsigned_abs(),
                below: cost.divisor.unsigned_abs(),
            };
        }
    }
    ZERO
}

// The values of all unknowns.
fn values_of(alloc: Global, tableau: &Tableau) -> Result<Vec<Fraction>, AllocError>
    requires sound { IsSoundTableau tableau.now }
    requires few { length tableau.now.columns.items + length tableau.now.lines.items < 2 ^ 32 }
    ensures value { IfOk result (λ fs. fs.items ≡ values_of (plain_tableau tableau.now)) }
    ensures positive { IfOk result (λ fs. All (λ f. 0 < f.below) fs.items) }
{
    let mut values = Vec::new(alloc);
    let unknowns = tableau.columns.len() as u32;
    for variable in 0..unknowns {
        values.push(value_of(variable, &tableau.lines))?;
    }
    Ok(values)
}

// The prices of all rows.
fn prices_of(alloc: Global, tableau: &Tableau) -> Result<Vec<Fraction>, AllocError>
    requires sound { IsSoundTableau tableau.now }
    requires few { length tableau.now.columns.items + length tableau.now.lines.items < 2 ^ 32 }
    ensures value { IfOk result (λ fs. fs.items ≡ prices_of (plain_tableau tableau.now)) }
    ensures positive { IfOk result (λ fs. All (λ f. 0 < f.below) fs.items) }
{
    let mut prices = Vec::new(alloc);
    let unknowns = tableau.columns.len() as u32;
    let rows = tableau.lines.len() as u32;
    for row in 0..rows {
        prices.push(price_of(unknowns + row, &tableau.columns, &tableau.cost))?;
    }
    Ok(prices)
}

// The least multiple of `unit` that makes a fraction whole, where that is at most 2^62.
fn unit_with(unit: u64, fraction: Fraction) -> Option<u64>
    requires unit { (0 < unit) × (unit ≤ 2 ^ 62) }
    requires below { 0 < fraction.below }
    ensures { MatchOption result (NoMultiple unit fraction) (λ next. (next ≤ 2 ^ 62) × IsMultiple unit fraction next) }
{
    let shared = greatest_common(fraction.above as u128, fraction.below as u128);
    let denominator = fraction.below as u128 / shared;
    let common = greatest_common(unit as u128, denominator);
    let multiple = unit as u128 / common * denominator;
    if multiple <= LIMIT {
        Some(multiple as u64)
    } else {
        None
    }
}

// The least unit that makes all fractions whole, where that is at most 2^62.
fn unit_of(fractions: &[Fraction]) -> Option<u64>
    requires { All (λ f. 0 < f.below) fractions.now }
    ensures { MatchOption result (2 ^ 62 < unit_of fractions.now) (λ unit. (unit ≡ unit_of fractions.now) × (unit ≤ 2 ^ 62)) }
{
    let mut unit = 1;
    for fraction in fractions {
        unit = unit_with(unit, *fraction)?;
    }
    Some(unit)
}

// All fractions in one unit, where no number is above 2^62.
fn in_unit(alloc: Global, unit: u64, fractions: &[Fraction]) -> Result<Option<Vec<u64>>, AllocError>
    requires unit { unit ≤ 2 ^ 62 }
    requires below { All (λ f. 0 < f.below) fractions.now }
    ensures { IfOk result (λ o. MatchOption o (numbers_fit unit fractions.now ≡ false)
        (λ v. (v.items ≡ map (in_unit unit) fractions.now) × (numbers_fit unit fractions.now ≡ true))) }
{
    let mut numbers = Vec::new(alloc);
    for fraction in fractions {
        let number = unit as u128 * fraction.above as u128 / fraction.below as u128;
        if number > LIMIT {
            return Ok(None);
        }
        numbers.push(number as u64)?;
    }
    Ok(Some(numbers))
}

/// Whole numbers, over a unit.
#[derive(Drop)]
struct Measured {
    unit: u64,
    numbers: Vec<u64>,
}

// All fractions in the least unit that makes them whole, where no number is above 2^62.
fn in_least_unit(alloc: Global, fractions: &[Fraction]) -> Result<Option<Measured>, AllocError>
    requires { All (λ f. 0 < f.below) fractions.now }
    ensures { IfOk result (λ o. MatchOption o (unit_fits (unit_of fractions.now) fractions.now ≡ false)
        (λ m. (m.unit ≡ unit_of fractions.now)
        × (m.numbers.items ≡ map (in_unit (unit_of fractions.now)) fractions.now)
        × (unit_fits (unit_of fractions.now) fractions.now ≡ true))) }
{
    let Some(unit) = unit_of(fractions) else {
        return Ok(None);
    };
    let Some(numbers) = in_unit(alloc, unit, fractions)? else {
        return Ok(None);
    };
    Ok(Some(Measured { unit, numbers }))
}

/// The answer of a run that ends after `pivot` pivots with this tableau.
pub fn answer(alloc: Global, tableau: &Tableau, pivot: u32) -> Result<Solved, AllocError>
    requires sound { IsSoundTableau tableau.now }
    requires few { length tableau.now.columns.items + length tableau.now.lines.items < 2 ^ 32 }
    ensures { IfOk result (λ s. plain_answer s ≡ ended pivot (plain_tableau tableau.now)) }
{
    let values = values_of(alloc, tableau)?;
    let prices = prices_of(alloc, tableau)?;
    let Some(values) = in_least_unit(alloc, &values)? else {
        return Ok(Solved::Wide { pivot });
    };
    let Some(prices) = in_least_unit(alloc, &prices)? else {
        return Ok(Solved::Wide { pivot });
    };
    Ok(Solved::Least {
        unit: values.unit,
        values: values.numbers,
        price_unit: prices.unit,
        prices: prices.numbers,
    })
}

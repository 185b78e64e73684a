ghost use Rattle.std.specs.Prelude.{◌≡◌, pos, map, IfOk};
ghost use Rattle.lp_rows.specs.Dense.{more, less, tick, ticks, sums, differences, once_with, plus, minus};
ghost use Rattle.lp_rows.specs.Plain.{plain, dense_of};

use super::unknown::{Unknown, is_same, tick};
use std::alloc::{AllocError, Global};

/// A number of cells, and so many times each unknown, in the unknowns' order. Sums and differences wrap; the numbers of
/// a code's checks are at most 515 in size.
#[derive(Drop)]
pub(crate) struct Form {
    pub(crate) constant: i64,
    pub(crate) factors: Vec<i64>,
}

// A factor of an unknown, and one more where it's this one.
fn more(factor: i64, unknown: &Unknown, other: &Unknown) -> i64
    ensures { result ≡ more factor (tick (plain unknown.now) (plain other.now)) }
{
    if is_same(unknown, other) {
        factor.wrapping_add(1)
    } else {
        factor
    }
}

/// A factor of an unknown, and one less where it's this one.
pub(crate) fn less(factor: i64, unknown: &Unknown, other: &Unknown) -> i64
    ensures { result ≡ less factor (tick (plain unknown.now) (plain other.now)) }
{
    if is_same(unknown, other) {
        factor.wrapping_sub(1)
    } else {
        factor
    }
}

// One more of this unknown.
#[tactic(auto, using(crate::proofs::Turns::sum_stop))]
fn add(factors: &mut [i64], unknowns: &[Unknown], unknown: &Unknown)
    ensures { factors.new ≡ sums factors.old (ticks (map plain unknowns.now) (plain unknown.now)) }
{
    let mut place = 0;
    let mut rest = unknowns;
    'factors: while let [other, others @ ..] = rest {
        if place >= factors.len() {
            break;
        }
        factors[place] = more(factors[place], unknown, other);
        place += 1;
        rest = others;
    }
}

// One less of this unknown.
#[tactic(auto, using(crate::proofs::Turns::difference_stop))]
fn subtract(factors: &mut [i64], unknowns: &[Unknown], unknown: &Unknown)
    ensures { factors.new ≡ differences factors.old (ticks (map plain unknowns.now) (plain unknown.now)) }
{
    let mut place = 0;
    let mut rest = unknowns;
    'factors: while let [other, others @ ..] = rest {
        if place >= factors.len() {
            break;
        }
        factors[place] = less(factors[place], unknown, other);
        place += 1;
        rest = others;
    }
}

impl Form {
    /// An unknown once.
    pub(crate) fn once(
        alloc: Global,
        unknowns: &[Unknown],
        unknown: &Unknown,
    ) -> Result<Form, AllocError>
        ensures { IfOk result (λ form. dense_of form ≡ once_with (map plain unknowns.now) (pos 0) (plain unknown.now)) }
    {
        let mut factors = Vec::new(alloc);
        'unknowns: for other in unknowns {
            factors.push(tick(unknown, other))?;
        }
        Ok(Form {
            constant: 0,
            factors,
        })
    }

    /// The same form in memory of its own.
    pub(crate) fn copy(&self, alloc: Global) -> Result<Form, AllocError>
        ensures { IfOk result (λ form. dense_of form ≡ dense_of self.now) }
    {
        Ok(Form {
            constant: self.constant,
            factors: Vec::from_slice(alloc, &self.factors)?,
        })
    }

    /// Adds an unknown.
    pub(crate) fn give(&mut self, unknowns: &[Unknown], unknown: &Unknown)
        ensures { dense_of self.new ≡ plus (dense_of self.old) (once_with (map plain unknowns.now) (pos 0) (plain unknown.now)) }
    {
        add(&mut self.factors, unknowns, unknown);
    }

    /// Adds a cell.
    pub(crate) fn give_cell(&mut self)
        ensures constant { self.new.constant ≡ more self.old.constant (pos 1) }
        ensures factors { self.new.factors.items ≡ self.old.factors.items }
    {
        self.constant = self.constant.wrapping_add(1);
    }

    /// Takes an unknown away, and so many cells.
    pub(crate) fn take(&mut self, unknowns: &[Unknown], unknown: &Unknown, cells: i64)
        ensures { dense_of self.new ≡ minus (dense_of self.old) (once_with (map plain unknowns.now) cells (plain unknown.now)) }
    {
        subtract(&mut self.factors, unknowns, unknown);
        if cells != 0 {
            self.constant = self.constant.wrapping_sub(cells);
        }
    }
}

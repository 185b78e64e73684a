//! One equation of a tableau, and what a pivot does with it.

ghost use Rattle.std.specs.Prelude.{◌≡◌, ◌<◌, ◌≤◌, ◌^◌, ◌<ℤ◌, true, false, IsTrue, pos, neg_ℤ, unsigned_abs, int_div, length, map, MatchResult, OnOk, OnErr, All, vec_len, ◌∷◌};
ghost use Rattle.std.specs.List.{list_all};
ghost use Rattle.dual_simplex.specs.Equation.{is_small, fits, factor_at, solved_for, put_in, combined, divided, lowest};
ghost use Rattle.dual_simplex.specs.Division.{common_divisor};
ghost use Rattle.dual_simplex.specs.Lines.{plain_line, IsSoundLine, IsWithin};
ghost use Rattle.dual_simplex.specs.Tableau.{renewed};

use crate::arithmetic::{
    LIMIT, TooWide, greatest_common, mix, mix_into, narrowed, product, shared_by,
};
use crate::narrow::{
    bound_of, common_in, common_of, divide_all, inverse_of, mix_all, mix_small, quotient,
};

/// `divisor * variable = constant + the sum of each factor times the variable of its column`.
#[derive(Drop)]
pub struct Line {
    pub variable: u32,
    pub divisor: i64,
    pub constant: i64,
    pub factors: Vec<i64>,
}

// Negates each number.
fn negate_into(into: &mut [i64], from: &[i64])
    requires lengths { length into.old ≡ length from.now }
    requires small { list_all is_small from.now ≡ true }
    ensures { into.new ≡ map neg_ℤ from.now }
{
    for place in 0..into.len() {
        into[place] = -from[place];
    }
}

/// Makes `into` the equation `line`, solved for the variable of the column at `place`.
pub fn solve_for(into: &mut Line, line: &Line, place: usize, entering: u32)
    requires place { place < length line.now.factors.items }
    requires lengths { length into.old.factors.items ≡ length line.now.factors.items }
    requires small { fits (plain_line line.now) ≡ true }
    ensures { plain_line into.new ≡ solved_for place entering (plain_line line.now) }
{
    into.variable = entering;
    into.divisor = line.factors[place];
    into.constant = -line.constant;
    negate_into(&mut into.factors, &line.factors);
    into.factors[place] = line.divisor;
}

// The greatest common divisor of an equation's numbers, once `times` the right side of `solved` is put in.
fn shared_divisor(line: &Line, solved: &Line, times: i64) -> u128
    requires own { IsSoundLine (length solved.now.factors.items) (plain_line line.now) }
    requires other { IsSoundLine (length solved.now.factors.items) (plain_line solved.now) }
    requires times { IsTrue (is_small times) }
    ensures value { let whole = combined times (plain_line solved.now) (plain_line line.now) in
        result ≡ common_divisor whole.divisor (whole.constant ∷ whole.factors) }
    ensures positive { 0 < result }
    ensures bound { result ≤ 2 ^ 126 }
{
    let divisor = product(solved.divisor, line.divisor).unsigned_abs();
    let constant = mix(solved.divisor, times, line.constant, solved.constant).unsigned_abs();
    let shared = greatest_common(divisor, constant);
    shared_by(
        shared,
        solved.divisor,
        times,
        &line.factors,
        &solved.factors,
    )
}

// Puts `times` the right side of `solved` into an equation, and divides by a common divisor.
fn combine(line: &mut Line, solved: &Line, times: i64, shared: u128) -> Result<(), TooWide>
    requires own { IsSoundLine (length solved.now.factors.items) (plain_line line.old) }
    requires other { IsSoundLine (length solved.now.factors.items) (plain_line solved.now) }
    requires times { IsTrue (is_small times) }
    requires positive { 0 < shared }
    requires small { shared < 2 ^ 127 }
    ensures value { OnOk result (plain_line line.new ≡ divided shared (combined times (plain_line solved.now) (plain_line line.old))) }
    ensures small { MatchResult result (λ _. fits (plain_line line.new) ≡ true)
        (λ _. fits (divided shared (combined times (plain_line solved.now) (plain_line line.old))) ≡ false) }
{
    line.divisor = narrowed(product(solved.divisor, line.divisor), shared)?;
    line.constant = narrowed(
        mix(solved.divisor, times, line.constant, solved.constant),
        shared,
    )?;
    mix_into(
        &mut line.factors,
        &solved.factors,
        solved.divisor,
        times,
        shared,
    )
}

/// A number that no number of an equation is above in size.
pub fn bound_of_line(line: &Line) -> u64
    ensures { IsWithin result (plain_line line.now) }
{
    bound_of(&line.factors) | line.divisor.unsigned_abs() | line.constant.unsigned_abs()
}

// Whether all numbers stay small, before they are divided, where `times` the right side of `solved` is put into an
// equation. `bound` is one of the solved equation's numbers. It may say no where they do.
fn stays_small(line: &Line, solved: &Line, times: i64, bound: u64) -> bool
    requires times { IsTrue (is_small times) }
    requires solved { fits (plain_line solved.now) ≡ true }
    requires bound { IsWithin bound (plain_line solved.now) }
    ensures { result ≡ true → fits (combined times (plain_line solved.now) (plain_line line.now)) ≡ true }
{
    let own = bound_of_line(line) as u128;
    let scale = solved.divisor.unsigned_abs() as u128;
    scale * own + times.unsigned_abs() as u128 * bound as u128 <= LIMIT
}

// Puts `times` the right side of `solved` into an equation whose numbers stay small.
fn combine_small(line: &mut Line, solved: &Line, times: i64)
    requires lengths { length line.old.factors.items ≡ length solved.now.factors.items }
    requires small { fits (combined times (plain_line solved.now) (plain_line line.old)) ≡ true }
    ensures { plain_line line.new ≡ combined times (plain_line solved.now) (plain_line line.old) }
{
    let scale = solved.divisor;
    line.divisor = scale.wrapping_mul(line.divisor);
    line.constant = mix_small(scale, times, line.constant, solved.constant);
    mix_all(&mut line.factors, &solved.factors, scale, times);
}

// The greatest common divisor of an equation's numbers.
fn divisor_of(line: &Line) -> u64
    requires positive { pos 0 <ℤ line.now.divisor }
    requires small { fits (plain_line line.now) ≡ true }
    ensures value { result ≡ common_divisor line.now.divisor (line.now.constant ∷ line.now.factors.items) }
    ensures positive { 0 < result }
    ensures bound { result < 2 ^ 63 }
{
    let first = common_of(line.divisor.unsigned_abs(), line.constant.unsigned_abs());
    common_in(first, &line.factors)
}

// Divides an equation.
fn divide(line: &mut Line, shared: u64)
    requires positive { 0 < shared }
    requires small { shared < 2 ^ 63 }
    ensures { plain_line line.new ≡ divided shared (plain_line line.old) }
{
    if shared == 1 {
        return;
    }
    let inverse = inverse_of(shared);
    line.divisor = quotient(line.divisor, shared, inverse);
    line.constant = quotient(line.constant, shared, inverse);
    divide_all(&mut line.factors, shared);
}

// Brings an equation into lowest terms.
fn reduce(line: &mut Line)
    requires positive { pos 0 <ℤ line.old.divisor }
    requires small { fits (plain_line line.old) ≡ true }
    ensures value { plain_line line.new ≡ lowest (plain_line line.old) }
    ensures small { fits (plain_line line.new) ≡ true }
{
    let shared = divisor_of(line);
    divide(line, shared);
}

/// Puts the equation `solved` into another one, in place of the variable of the column at `place`.
pub fn put_in(line: &mut Line, solved: &Line, place: usize) -> Result<(), TooWide>
    requires place { place < length solved.now.factors.items }
    requires own { IsSoundLine (length solved.now.factors.items) (plain_line line.old) }
    requires other { IsSoundLine (length solved.now.factors.items) (plain_line solved.now) }
    ensures value { OnOk result (plain_line line.new ≡ put_in place (plain_line solved.now) (plain_line line.old)) }
    ensures sound { OnOk result (IsSoundLine (length solved.now.factors.items) (plain_line line.new)) }
    ensures wide { OnErr result (fits (put_in place (plain_line solved.now) (plain_line line.old)) ≡ false) }
{
    put_in_within(line, solved, place, bound_of_line(solved))
}

// The same, with a bound of the solved equation's numbers.
fn put_in_within(line: &mut Line, solved: &Line, place: usize, bound: u64) -> Result<(), TooWide>
    requires place { place < length solved.now.factors.items }
    requires own { IsSoundLine (length solved.now.factors.items) (plain_line line.old) }
    requires other { IsSoundLine (length solved.now.factors.items) (plain_line solved.now) }
    requires bound { IsWithin bound (plain_line solved.now) }
    ensures value { OnOk result (plain_line line.new ≡ put_in place (plain_line solved.now) (plain_line line.old)) }
    ensures sound { OnOk result (IsSoundLine (length solved.now.factors.items) (plain_line line.new)) }
    ensures wide { OnErr result (fits (put_in place (plain_line solved.now) (plain_line line.old)) ≡ false) }
{
    let times = line.factors[place];
    if times == 0 {
        return Ok(());
    }
    line.factors[place] = 0;
    if stays_small(line, solved, times, bound) {
        combine_small(line, solved, times);
        reduce(line);
        return Ok(());
    }
    let shared = shared_divisor(line, solved, times);
    combine(line, solved, times, shared)
}

/// What a pivot does with an equation: that of the leaving variable becomes `solved`, which is put into any other.
/// `bound` is one of the solved equation's numbers.
pub fn renew(
    line: &mut Line,
    solved: &Line,
    leaving: u32,
    place: usize,
    bound: u64,
) -> Result<(), TooWide>
    requires place { place < length solved.now.factors.items }
    requires own { IsSoundLine (length solved.now.factors.items) (plain_line line.old) }
    requires other { IsSoundLine (length solved.now.factors.items) (plain_line solved.now) }
    requires bound { IsWithin bound (plain_line solved.now) }
    ensures value { OnOk result (plain_line line.new ≡ renewed leaving place (plain_line solved.now) (plain_line line.old)) }
    ensures sound { OnOk result (IsSoundLine (length solved.now.factors.items) (plain_line line.new)) }
    ensures wide { OnErr result (fits (renewed leaving place (plain_line solved.now) (plain_line line.old)) ≡ false) }
{
    if line.variable != leaving {
        return put_in_within(line, solved, place, bound);
    }
    line.variable = solved.variable;
    line.divisor = solved.divisor;
    line.constant = solved.constant;
    line.factors.copy_from_slice(&solved.factors);
    Ok(())
}

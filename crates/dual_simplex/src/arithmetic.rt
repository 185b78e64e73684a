//! Numbers of a tableau: whole numbers of at most 2^62 in size, worked out in 128 bits.

ghost use Rattle.std.specs.Prelude.{◌≡◌, ◌<◌, ◌≤◌, ◌^◌, true, false, IsTrue, pos, unsigned_abs, int_div, length, map, MatchResult, OnOk, IfSome, ◌<ℤ◌, ◌*ℤ◌};
ghost use Rattle.std.specs.List.{list_all};
ghost use Rattle.dual_simplex.specs.Equation.{is_small, mixed, mixed_all};
ghost use Rattle.dual_simplex.specs.Multiples.{IsGreatestCommon, SharesWith};

use crate::narrow::{Inverse, common_of, inverse_of};

/// The largest number that a tableau or an answer may hold, in size.
pub const LIMIT: u128 = 1 << 62;

/// A number is above 2^62 in size.
#[derive(Drop)]
pub struct TooWide;

/// `a * b`.
pub fn product(a: i64, b: i64) -> i128
    requires { IsTrue (is_small a) }
    ensures value { result ≡ a *ℤ b }
    ensures bound { unsigned_abs result ≤ 2 ^ 126 }
{
    a as i128 * b as i128
}

/// `scale * own + times * other`.
pub fn mix(scale: i64, times: i64, own: i64, other: i64) -> i128
    requires scale { IsTrue (is_small scale) }
    requires times { IsTrue (is_small times) }
    ensures value { result ≡ mixed scale times own other }
    ensures bound { unsigned_abs result ≤ 2 ^ 126 }
{
    scale as i128 * own as i128 + times as i128 * other as i128
}

/// The greatest common divisor of two numbers, by Euclid's algorithm, in 64 bits as soon as both fit them.
pub fn greatest_common(a: u128, b: u128) -> u128
    ensures { IsGreatestCommon a b result }
{
    let mut x = a;
    let mut y = b;
    while y != 0 {
        if x <= u64::MAX as u128 && y <= u64::MAX as u128 {
            return common_of(x as u64, y as u64) as u128;
        }
        let rest = x % y;
        x = y;
        y = rest;
    }
    x
}

// What quotients by a number are guessed by. From 2^64 on it guesses wrong.
fn inverse_of_wide(shared: u128) -> Inverse {
    inverse_of((shared & u64::MAX as u128) as u64)
}

// The quotient of a number, where it is guessed right.
#[inline(always)]
fn guessed_wide(value: i128, shared: u128, inverse: Inverse) -> Option<i64>
    ensures { IfSome result (λ q. q *ℤ pos shared ≡ value) }
{
    if shared > i64::MAX as u128 {
        return None;
    }
    let guess = inverse.quotient_of(value);
    if guess as i128 * shared as i64 as i128 == value {
        Some(guess)
    } else {
        None
    }
}

// The greatest common divisor of `shared` and of a number. It is tried first whether the one divides the other.
#[inline(always)]
fn shared_with_value(shared: u128, value: i128, inverse: Inverse) -> u128
    ensures { IsGreatestCommon shared (unsigned_abs value) result }
{
    match guessed_wide(value, shared, inverse) {
        Some(_) => shared,
        None => greatest_common(value.unsigned_abs(), shared),
    }
}

// The greatest common divisor of `shared` and of a mixed number. In a sparse system most are of two zeros, and nothing
// is worked out for them.
fn shared_with(shared: u128, scale: i64, times: i64, own: i64, other: i64, inverse: Inverse) -> u128
    requires scale { IsTrue (is_small scale) }
    requires times { IsTrue (is_small times) }
    ensures { IsGreatestCommon shared (unsigned_abs (mixed scale times own other)) result }
{
    if own == 0 && other == 0 {
        return shared;
    }
    shared_with_value(shared, mix(scale, times, own, other), inverse)
}

/// The greatest common divisor of `start` and of the mixed numbers.
pub fn shared_by(start: u128, scale: i64, times: i64, owns: &[i64], others: &[i64]) -> u128
    requires start { 0 < start }
    requires lengths { length owns.now ≡ length others.now }
    requires scale { IsTrue (is_small scale) }
    requires times { IsTrue (is_small times) }
    ensures shared { SharesWith start (mixed_all scale times owns.now others.now) result }
    ensures positive { 0 < result }
{
    let mut shared = start;
    let mut inverse = inverse_of_wide(start);
    for place in 0..owns.len() {
        if shared == 1 {
            return 1;
        }
        let next = shared_with(shared, scale, times, owns[place], others[place], inverse);
        if next != shared {
            inverse = inverse_of_wide(next);
        }
        shared = next;
    }
    shared
}

/// A number divided by a divisor of it, where that is small.
pub fn narrowed(value: i128, shared: u128) -> Result<i64, TooWide>
    requires positive { 0 < shared }
    requires small { shared < 2 ^ 127 }
    requires bound { unsigned_abs value ≤ 2 ^ 126 }
    ensures { MatchResult result (λ n. (n ≡ int_div value (pos shared)) × (is_small n ≡ true)) (λ _. is_small (int_div value (pos shared)) ≡ false) }
{
    let quotient = if shared == 1 {
        value
    } else {
        value / shared as i128
    };
    if quotient.unsigned_abs() <= LIMIT {
        Ok(quotient as i64)
    } else {
        Err(TooWide)
    }
}

// The same, where the quotient may be guessed.
#[inline(always)]
fn narrowed_by(value: i128, shared: u128, inverse: Inverse) -> Result<i64, TooWide>
    requires positive { 0 < shared }
    requires small { shared < 2 ^ 127 }
    requires bound { unsigned_abs value ≤ 2 ^ 126 }
    ensures { MatchResult result (λ n. (n ≡ int_div value (pos shared)) × (is_small n ≡ true)) (λ _. is_small (int_div value (pos shared)) ≡ false) }
{
    match guessed_wide(value, shared, inverse) {
        Some(guess) if guess.unsigned_abs() as u128 <= LIMIT => Ok(guess),
        _ => narrowed(value, shared),
    }
}

// A mixed number, divided by a divisor of it, where that is small. It is 0 where both numbers are, as most are in a
// sparse system.
fn mixed_by(
    scale: i64,
    times: i64,
    own: i64,
    other: i64,
    shared: u128,
    inverse: Inverse,
) -> Result<i64, TooWide>
    requires scale { IsTrue (is_small scale) }
    requires times { IsTrue (is_small times) }
    requires positive { 0 < shared }
    requires small { shared < 2 ^ 127 }
    ensures { MatchResult result (λ n. (n ≡ int_div (mixed scale times own other) (pos shared)) ×
        (is_small n ≡ true)) (λ _. is_small (int_div (mixed scale times own other) (pos shared)) ≡ false) }
{
    if own == 0 && other == 0 {
        return Ok(0);
    }
    narrowed_by(mix(scale, times, own, other), shared, inverse)
}

/// Mixes numbers into others, place by place, and divides by a common divisor.
pub fn mix_into(
    owns: &mut [i64],
    others: &[i64],
    scale: i64,
    times: i64,
    shared: u128,
) -> Result<(), TooWide>
    requires lengths { length owns.old ≡ length others.now }
    requires scale { IsTrue (is_small scale) }
    requires times { IsTrue (is_small times) }
    requires positive { 0 < shared }
    requires small { shared < 2 ^ 127 }
    ensures mixed { OnOk result (owns.new ≡ map (λ x. int_div x (pos shared)) (mixed_all scale times owns.old others.now)) }
    ensures small { MatchResult result (λ _. list_all is_small owns.new ≡ true)
        (λ _. list_all is_small (map (λ x. int_div x (pos shared)) (mixed_all scale times owns.old others.now))
        ≡ false) }
{
    let inverse = inverse_of_wide(shared);
    for place in 0..owns.len() {
        owns[place] = mixed_by(scale, times, owns[place], others[place], shared, inverse)?;
    }
    Ok(())
}

//! Numbers of a tableau that stay small, worked out in 64 bits.

ghost use Rattle.std.specs.Prelude.{◌≡◌, ◌<◌, ◌≤◌, ◌^◌, ◌*ℤ◌, true, pos, unsigned_abs, int_div, length, map, All, IfSome};
ghost use Rattle.std.specs.List.{list_all};
ghost use Rattle.dual_simplex.specs.Equation.{is_small, mixed, mixed_all};
ghost use Rattle.dual_simplex.specs.Multiples.{IsGreatestCommon, SharesWith};

/// The greatest common divisor of two numbers, by Euclid's algorithm.
pub fn common_of(a: u64, b: u64) -> u64
    ensures { IsGreatestCommon a b result }
{
    let mut x = a;
    let mut y = b;
    while y != 0 {
        let rest = x % y;
        x = y;
        y = rest;
    }
    x
}

/// A number that no number of a list is above in size: the bits of all sizes.
pub fn bound_of(numbers: &[i64]) -> u64
    ensures { All (λ x. unsigned_abs x ≤ result) numbers.now }
{
    let mut bits = 0;
    for number in numbers {
        bits |= number.unsigned_abs();
    }
    bits
}

/// `scale * own + times * other`, where that is small. What is cut off on the way changes nothing then.
#[inline(always)]
pub fn mix_small(scale: i64, times: i64, own: i64, other: i64) -> i64
    requires { is_small (mixed scale times own other) ≡ true }
    ensures { result ≡ mixed scale times own other }
{
    scale
        .wrapping_mul(own)
        .wrapping_add(times.wrapping_mul(other))
}

// Mixes numbers into others, place by place, where what comes of it is small.
#[inline(always)]
fn mix_in(owns: &mut [i64], others: &[i64], scale: i64, times: i64)
    requires lengths { length owns.old ≡ length others.now }
    requires small { list_all is_small (mixed_all scale times owns.old others.now) ≡ true }
    ensures { owns.new ≡ mixed_all scale times owns.old others.now }
{
    for place in 0..owns.len() {
        owns[place] = mix_small(scale, times, owns[place], others[place]);
    }
}

/// The same. For the scale 1, which most steps of a sparse system have, the loop is compiled by itself, with half of
/// the products.
pub fn mix_all(owns: &mut [i64], others: &[i64], scale: i64, times: i64)
    requires lengths { length owns.old ≡ length others.now }
    requires small { list_all is_small (mixed_all scale times owns.old others.now) ≡ true }
    ensures { owns.new ≡ mixed_all scale times owns.old others.now }
{
    if scale == 1 {
        mix_in(owns, others, 1, times);
    } else {
        mix_in(owns, others, scale, times);
    }
}

/// By what quotients are guessed without a division: how often 2 divides a number, and the inverse of what is left to
/// 2^64. A multiple of the number, without those twos and times the inverse, is the quotient.
#[derive(Clone, Copy)]
pub struct Inverse {
    twos: u32,
    odd: i64,
}

/// What quotients by a number are guessed by. Each turn doubles the bits that are right, from 3. Nothing rests on it,
/// since each guess is tried.
pub fn inverse_of(shared: u64) -> Inverse {
    let twos = shared.trailing_zeros();
    let number = shared.wrapping_shr(twos).cast_signed();
    let mut odd = number;
    for _ in 0..5 {
        odd = odd.wrapping_mul(2_i64.wrapping_sub(number.wrapping_mul(odd)));
    }
    Inverse { twos, odd }
}

impl Inverse {
    /// What the quotient may be.
    #[inline(always)]
    pub fn quotient_of(self, value: i128) -> i64 {
        let low = value.cast_unsigned().wrapping_shr(self.twos) & u64::MAX as u128;
        (low as u64).cast_signed().wrapping_mul(self.odd)
    }
}

// The quotient of a number, where it is guessed right.
#[inline(always)]
fn guessed(number: i64, shared: u64, inverse: Inverse) -> Option<i64>
    requires { shared < 2 ^ 63 }
    ensures { IfSome result (λ q. q *ℤ pos shared ≡ number) }
{
    let guess = number.wrapping_shr(inverse.twos).wrapping_mul(inverse.odd);
    match guess.checked_mul(shared as i64) {
        Some(product) if product == number => Some(guess),
        _ => None,
    }
}

// The greatest common divisor of a number and of the size of another one. It is tried first whether the one divides the
// other.
#[inline(always)]
fn common_with(shared: u64, number: i64, inverse: Inverse) -> u64
    requires { shared < 2 ^ 63 }
    ensures { IsGreatestCommon shared (unsigned_abs number) result }
{
    match guessed(number, shared, inverse) {
        Some(_) => shared,
        None => common_of(number.unsigned_abs(), shared),
    }
}

/// The greatest common divisor of `start` and of numbers.
pub fn common_in(start: u64, numbers: &[i64]) -> u64
    requires positive { 0 < start }
    requires small { start < 2 ^ 63 }
    ensures shared { SharesWith start numbers.now result }
    ensures positive { 0 < result }
{
    let mut shared = start;
    let mut inverse = inverse_of(start);
    for place in 0..numbers.len() {
        if shared == 1 {
            return 1;
        }
        let next = common_with(shared, numbers[place], inverse);
        if next != shared {
            inverse = inverse_of(next);
        }
        shared = next;
    }
    shared
}

/// A number divided by a positive one.
#[inline(always)]
pub fn quotient(number: i64, shared: u64, inverse: Inverse) -> i64
    requires positive { 0 < shared }
    requires small { shared < 2 ^ 63 }
    ensures { result ≡ int_div number (pos shared) }
{
    match guessed(number, shared, inverse) {
        Some(guess) => guess,
        None => number / shared as i64,
    }
}

/// Divides numbers by a positive one.
pub fn divide_all(numbers: &mut [i64], shared: u64)
    requires positive { 0 < shared }
    requires small { shared < 2 ^ 63 }
    ensures { numbers.new ≡ map (λ x. int_div x (pos shared)) numbers.old }
{
    let inverse = inverse_of(shared);
    for place in 0..numbers.len() {
        numbers[place] = quotient(numbers[place], shared, inverse);
    }
}

ghost use Rattle.std.specs.Prelude.{◌≡◌, ◌+◌, ◌≤◌, ◌<◌, ◌∷◌, neg_ℤ, pos, IfSome, MatchResult, MatchOption};
ghost use Rattle.camelot_values.specs.Names.{is_digit};
ghost use Rattle.value_text.specs.Choosing.{DigitsRead, FewDigits, IntRead, IntRefused, NoDigit, NextDigit, IsPlain};
ghost use Rattle.value_text.specs.Splitting.{FrontInt, FrontIntPart};

use super::cutting::ends;

// Whether the byte is a digit.
fn is_digit(byte: u8) -> bool
    ensures { result ≡ is_digit byte }
{
    byte >= b'0' && byte <= b'9'
}

// The number with one digit more; None where the byte is no digit, stands behind a leading zero, or makes the number
// larger than `most`.
#[tactic(auto, using(crate::proofs::Digits::not_digit, crate::proofs::Digits::behind_zero, crate::proofs::Digits::above_most, crate::proofs::Digits::next_first, crate::proofs::Digits::next_later))]
fn add_digit(value: u32, at: usize, byte: u8, most: u32) -> Option<u32>
    requires { value ≤ most }
    ensures { MatchOption result (NoDigit most value at byte) (λ next. NextDigit most value at byte next) }
{
    if !is_digit(byte) {
        return None;
    }
    let next = value as u64 * 10 + (byte - b'0') as u64;
    if next > most as u64 {
        return None;
    }
    if at == 0 {
        return Some(next as u32);
    }
    if value == 0 {
        return None;
    }
    Some(next as u32)
}

// The number of the digits in front, and how many of them it has: as many as make a number without a leading zero of at
// most `most`.
#[tactic(auto, using(crate::proofs::Digits::no_digits, crate::proofs::Digits::digits_on, crate::proofs::Digits::digits_off, crate::proofs::Digits::all_digits))]
fn read_digits(word: &[u8], most: u32) -> (u32, usize)
    ensures { DigitsRead most word.now result.0 result.1 }
{
    let mut value = 0;
    let mut at = 0;
    'digits: while at < word.len() {
        match add_digit(value, at, word[at], most) {
            Some(next) => value = next,
            None => return (value, at),
        }
        at += 1;
    }
    (value, at)
}

// The number below 0, or 0.
fn negated(value: u32) -> i32
    requires { value ≤ 2147483648 }
    ensures { result ≡ neg_ℤ (pos value) }
{
    (0 - value as i64) as i32
}

// The int that the digits are with `-` before them.
#[tactic(auto, using(crate::proofs::Digits::minus_read, crate::proofs::Digits::minus_part, crate::proofs::Digits::minus_none))]
fn read_minus(digits: &[u8]) -> Result<i32, usize>
    ensures { MatchResult result (λ z. IntRead (45 ∷ digits.now) z) (λ good. IntRefused (45 ∷ digits.now) good) }
{
    let (value, good) = read_digits(digits, 2147483648);
    if good == 0 {
        return Err(1);
    }
    if good < digits.len() {
        return Err(good + 1);
    }
    Ok(negated(value))
}

// The int that the digits are.
#[tactic(auto, using(crate::proofs::Digits::plus_read, crate::proofs::Digits::plus_part, crate::proofs::Digits::plus_none))]
fn read_plus(word: &[u8]) -> Result<i32, usize>
    requires { IsPlain word.now }
    ensures { MatchResult result (λ z. IntRead word.now z) (λ good. IntRefused word.now good) }
{
    let (value, good) = read_digits(word, 2147483647);
    if good == 0 {
        return Err(0);
    }
    if good < word.len() {
        return Err(good);
    }
    Ok(value as i32)
}

// The int that the word is: digits without a leading zero, with or without `-` before them, from -2147483648 to
// 2147483647. Else how many bytes of the word begin an int.
#[tactic(auto, using(crate::proofs::Digits::minus_tail, crate::proofs::Digits::plain_head, crate::proofs::Digits::empty_refused))]
pub(crate) fn read_int(word: &[u8]) -> Result<i32, usize>
    ensures { MatchResult result (λ z. IntRead word.now z) (λ good. IntRefused word.now good) }
{
    if word.is_empty() {
        return Err(0);
    }
    if word[0] == b'-' {
        read_minus(&word[1..])
    } else {
        read_plus(word)
    }
}

// The number of the digits in front, and how many of them it has: a zero alone, or at most ten digits without a leading
// zero.
#[tactic(auto, using(crate::proofs::Digits::zero_alone, crate::proofs::Digits::begun_one, crate::proofs::Digits::begun_more, crate::proofs::Digits::begun_all))]
fn few_digits(text: &[u8]) -> Option<(u64, usize)>
    ensures { IfSome result (λ found. FewDigits text.now found.0 found.1) }
{
    if text.is_empty() {
        return None;
    }
    let first = text[0];
    if !is_digit(first) {
        return None;
    }
    if first == b'0' {
        return Some((0, 1));
    }
    let most = text.len().min(10);
    let mut value = (first - b'0') as u64;
    let mut at = 1;
    'few: while at < most {
        let byte = text[at];
        if !is_digit(byte) {
            return Some((value, at));
        }
        value = value * 10 + (byte - b'0') as u64;
        at += 1;
    }
    Some((value, at))
}

// The int without a sign that stands in front, and the text behind it, where its word ends with its digits.
fn front_plus(text: &[u8]) -> Option<(i32, &[u8])>
    ensures { IfSome result (λ found. FrontInt text.now found.0 found.1.now) }
{
    let (value, good) = match few_digits(text) {
        Some(found) => found,
        None => return None,
    };
    if value > 2147483647 {
        return None;
    }
    let rest = &text[good..];
    if ends(rest) {
        Some((value as i32, rest))
    } else {
        None
    }
}

// The int that stands in front as these digits with `-` before them, and the text behind it, where its word ends with
// its digits.
#[inline(never)]
fn front_minus(digits: &[u8]) -> Option<(i32, &[u8])>
    ensures { IfSome result (λ found. FrontInt (45 ∷ digits.now) found.0 found.1.now) }
{
    let (value, good) = match few_digits(digits) {
        Some(found) => found,
        None => return None,
    };
    if value > 2147483648 {
        return None;
    }
    let rest = &digits[good..];
    if ends(rest) {
        Some((negated(value as u32), rest))
    } else {
        None
    }
}

// The int that stands in front, and the text behind it, where its word ends with its digits.
#[tactic(auto, using(crate::proofs::Digits::minus_tail))]
pub(crate) fn front_int(text: &[u8]) -> Option<(i32, &[u8])>
    ensures { IfSome result (λ found. FrontInt text.now found.0 found.1.now) }
{
    if text.is_empty() {
        return None;
    }
    if text[0] == b'-' {
        front_minus(&text[1..])
    } else {
        front_plus(text)
    }
}

// The int without a sign that stands in front, where a comma stands behind it, and the text behind the comma.
pub(crate) fn plain_part(text: &[u8]) -> Option<(i32, &[u8])>
    ensures { IfSome result (λ found. FrontIntPart text.now found.0 found.1.now) }
{
    let (value, good) = match few_digits(text) {
        Some(found) => found,
        None => return None,
    };
    if value > 2147483647 {
        return None;
    }
    match &text[good..] {
        [] => None,
        [first, rest @ ..] => {
            if *first == b',' {
                Some((value as i32, rest))
            } else {
                None
            }
        }
    }
}

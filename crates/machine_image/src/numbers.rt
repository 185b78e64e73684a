ghost use Rattle.std.specs.Prelude.{◌≡◌, ◌≤◌, pos, neg_ℤ, IfSome};
ghost use Rattle.text_lines.specs.Cuts.{and_then, number_of};
ghost use Rattle.machine_image.specs.Reading.{within, word_number, long_number, net_of};

use text_lines::number;

/// The most of a number of 32 bits.
const MOST_WORD: u64 = 4_294_967_295;

/// The most of a longer number.
pub(crate) const MOST_LONG: u64 = 1_099_511_627_776;

// A number up to the most, without leading zeros.
#[tactic(auto, using(crate::proofs::Limits::no_number, crate::proofs::Limits::too_large, crate::proofs::Limits::in_limits))]
fn bounded(word: &[u8], most: u64) -> Option<u64>
    requires { most ≤ 1099511627776 }
    ensures value { result ≡ and_then (number_of word.now) (within most) }
    ensures small { IfSome result (λ n. n ≤ most) }
{
    let value = number(word)?;
    if value > most {
        return None;
    }
    Some(value)
}

/// A number of 32 bits.
#[tactic(auto, unfolding(crate::specs::Reading::word_number))]
pub(crate) fn word_number(word: &[u8]) -> Option<u32>
    ensures { result ≡ word_number word.now }
{
    let value = bounded(word, MOST_WORD)?;
    Some(value as u32)
}

/// A number up to 2^40.
#[tactic(auto, unfolding(crate::specs::Reading::long_number))]
pub(crate) fn long_number(word: &[u8]) -> Option<u64>
    ensures value { result ≡ long_number word.now }
    ensures small { IfSome result (λ n. n ≤ 1099511627776) }
{
    bounded(word, MOST_LONG)
}

// The number as a signed one.
fn signed(value: u32) -> i64
    ensures { result ≡ pos value }
{
    value as i64
}

// The number below 0, or 0.
fn negated(value: u32) -> i64
    ensures { result ≡ neg_ℤ (pos value) }
{
    0 - value as i64
}

/// A number of 32 bits with or without `-` before it. `-0` is none.
#[tactic(auto, using(crate::proofs::Limits::no_net, crate::proofs::Limits::minus_none, crate::proofs::Limits::minus_zero, crate::proofs::Limits::minus_net, crate::proofs::Limits::plus_none, crate::proofs::Limits::plus_cast))]
pub(crate) fn net_of(word: &[u8]) -> Option<i64>
    ensures { result ≡ net_of word.now }
{
    if word.is_empty() {
        return None;
    }
    if word[0] != b'-' {
        let value = word_number(word)?;
        return Some(signed(value));
    }
    let value = word_number(&word[1..])?;
    if value == 0 {
        return None;
    }
    Some(negated(value))
}

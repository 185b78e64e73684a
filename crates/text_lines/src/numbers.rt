ghost use Rattle.std.specs.Prelude.{◌≡◌, ◌≤◌, ◌+◌, ◌-◌, ◌*◌, ℕ, true, length};
ghost use Rattle.std.specs.Option.{option_map};
ghost use Rattle.camelot_values.specs.Names.{is_digit};
ghost use Rattle.text_lines.specs.Cuts.{capped, digits_on, number_of};

/// 2^41, more than each limit of a certificate's or a script's numbers. Larger numbers are read as this one.
pub const NUMBER_CAP: u64 = 2_199_023_255_552;

// Whether the byte is a digit.
fn is_digit(byte: u8) -> bool
    ensures { result ≡ is_digit byte }
{
    byte >= b'0' && byte <= b'9'
}

// The number with one digit more.
#[tactic(auto, using(crate::specs::NumberLaws::digit_range))]
fn add_digit(value: u64, digit: u8) -> u64
    requires small { value ≤ 2199023255552 }
    requires digit { is_digit digit ≡ true }
    ensures { result ≡ capped (value * 10 + (digit - 48)) }
{
    (value * 10 + (digit - b'0') as u64).min(NUMBER_CAP)
}

// The number of these digits; None where there is another byte.
#[tactic(auto, using(crate::proofs::Caps::digit_on, crate::proofs::Caps::digit_off, crate::proofs::Caps::digits_done, crate::proofs::Caps::first_small))]
fn read_digits(word: &[u8]) -> Option<u64>
    ensures { result ≡ option_map capped (digits_on 0 word.now) }
{
    let mut value = 0;
    let mut at = 0;
    'digits: while at < word.len() {
        if !is_digit(word[at]) {
            return None;
        }
        value = add_digit(value, word[at]);
        at += 1;
    }
    Some(value)
}

/// The number that is written so, in digits without leading zeros; [`NUMBER_CAP`] where it is larger. None where it is
/// no number. It takes no memory.
#[tactic(auto, using(crate::proofs::Caps::no_digits, crate::proofs::Caps::leading_zero, crate::proofs::Caps::other_digits))]
pub fn number(word: &[u8]) -> Option<u64>
    ensures { result ≡ option_map capped (number_of word.now) }
{
    if word.is_empty() {
        return None;
    }
    if word[0] == b'0' && word.len() > 1 {
        return None;
    }
    read_digits(word)
}

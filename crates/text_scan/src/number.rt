ghost use Rattle.std.specs.Prelude.{◌≡◌, ◌<◌, ◌≤◌, MatchOption, IsTrue};
ghost use Rattle.text_scan.specs.Forms.{is_number_token, number_value};

/// The greatest value of a number token: the size of the least `int`.
pub const GREATEST_NUMBER: u32 = 2_147_483_648;

/// The value of decimal digits, of which any number may be zeros at the front; None where it is above
/// [`GREATEST_NUMBER`].
#[tactic(auto, using(crate::proofs::NumberLemmas::number_turns))]
pub fn number_value(digits: &[u8]) -> Option<u32>
    requires { IsTrue (is_number_token digits.now) }
    ensures { MatchOption result (2147483648 < number_value digits.now)
        (λ value. (value ≡ number_value digits.now) × (value ≤ 2147483648)) }
{
    let mut value = 0u64;
    for digit in digits {
        value = 10 * value + u64::from(*digit - b'0');
        if value > GREATEST_NUMBER as u64 {
            return None;
        }
    }
    Some(value as u32)
}

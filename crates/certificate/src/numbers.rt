ghost use Rattle.std.specs.Prelude.{◌≡◌, ℕ};
ghost use Rattle.text_lines.specs.Cuts.{capped};
ghost use Rattle.certificate.specs.Reading.{digits_below, is_before, is_after};

// Whether the left has the smaller digit where they first differ.
#[tactic(auto, using(crate::proofs::Caps::below_same, crate::proofs::Caps::below_differ, crate::proofs::Caps::below_end))]
fn digits_below(left: &[u8], right: &[u8]) -> bool
    ensures { result ≡ digits_below left.now right.now }
{
    let mut at = 0;
    'digits: while at < left.len() && at < right.len() {
        if left[at] != right[at] {
            return left[at] < right[at];
        }
        at += 1;
    }
    false
}

/// Whether the left number is smaller, both written without leading zeros.
pub(crate) fn is_before(left: &[u8], right: &[u8]) -> bool
    ensures { result ≡ is_before left.now right.now }
{
    if left.len() != right.len() {
        return left.len() < right.len();
    }
    digits_below(left, right)
}

/// Whether there is no last number, or a smaller one.
#[tactic(auto, using(crate::proofs::Caps::after_capped))]
pub(crate) fn is_after(last: Option<u32>, number: u64) -> bool
    ensures { (n : ℕ) → number ≡ capped n → result ≡ is_after last n }
{
    match last {
        None => true,
        Some(last) => (last as u64) < number,
    }
}

ghost use Rattle.std.specs.Prelude.{◌≡◌};
ghost use Rattle.std.specs.List.{list_all};
ghost use Rattle.camelot_values.specs.Names.{is_lower, is_upper, is_digit, is_tail, has_form, is_lower_name};

use text_lines::behind;

// Whether the byte may stand behind a name's first letter.
fn is_tail(byte: u8) -> bool
    ensures { result ≡ is_tail byte }
{
    byte >= b'a' && byte <= b'z'
        || byte >= b'A' && byte <= b'Z'
        || byte >= b'0' && byte <= b'9'
        || byte == b'_'
}

// Whether the byte is a lower letter.
fn is_lower(byte: u8) -> bool
    ensures { result ≡ is_lower byte }
{
    byte >= b'a' && byte <= b'z'
}

// Whether all bytes may stand behind a name's first letter.
fn are_tails(bytes: &[u8]) -> bool
    ensures { result ≡ list_all is_tail bytes.now }
{
    bytes.iter().all(|byte| is_tail(*byte))
}

// Whether the word is a lower letter and then letters, digits or `_`.
#[tactic(auto, using(crate::proofs::Caps::form_none, crate::proofs::Caps::form_first, crate::proofs::Caps::form_rest))]
fn has_form(word: &[u8]) -> bool
    ensures { result ≡ has_form is_lower word.now }
{
    if word.is_empty() {
        return false;
    }
    if !is_lower(word[0]) {
        return false;
    }
    are_tails(behind(word))
}

/// Whether the word is a lower letter and then letters, digits or `_`, and at most 64 bytes.
pub(crate) fn is_lower_name(word: &[u8]) -> bool
    ensures { result ≡ is_lower_name word.now }
{
    has_form(word) && word.len() <= 64
}

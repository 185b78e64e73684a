ghost use Rattle.std.specs.Prelude.{◌≡◌, ◌<◌, MatchResult};
ghost use Rattle.std.specs.List.{list_all};
ghost use Rattle.camelot_values.specs.Names.{is_lower, is_tail, is_lower_name};
ghost use Rattle.job_script.specs.Scripts.{is_letter};
ghost use Rattle.job_script.specs.Reading.{is_word};
ghost use Rattle.job_script.specs.Steps.{IsAdded, IsRefused};

use super::known::KnownNames;
use super::stop::LineStop;

// Whether the byte is a lower letter.
fn is_lower(byte: u8) -> bool
    ensures { result ≡ is_lower byte }
{
    byte >= b'a' && byte <= b'z'
}

// Whether the byte is a letter.
fn is_letter(byte: u8) -> bool
    ensures { result ≡ is_letter byte }
{
    byte >= b'a' && byte <= b'z' || byte >= b'A' && byte <= b'Z'
}

// Whether the byte may stand behind a name's first letter.
fn is_tail(byte: u8) -> bool
    ensures { result ≡ is_tail byte }
{
    byte >= b'a' && byte <= b'z'
        || byte >= b'A' && byte <= b'Z'
        || byte >= b'0' && byte <= b'9'
        || byte == b'_'
}

// Whether all bytes may stand behind a name's first letter.
fn are_tails(bytes: &[u8]) -> bool
    ensures { result ≡ list_all is_tail bytes.now }
{
    bytes.iter().all(|byte| is_tail(*byte))
}

/// Whether the word is the name of a program or a job.
#[tactic(auto, using(crate::proofs::Caps::name_none, crate::proofs::Caps::name_long, crate::proofs::Caps::name_first, crate::proofs::Caps::name_rest))]
pub fn is_word(word: &[u8]) -> bool
    ensures { result ≡ is_word word.now }
{
    if word.len() > 64 {
        return false;
    }
    match word {
        [] => false,
        [first, rest @ ..] => {
            if !is_letter(*first) {
                return false;
            }
            are_tails(rest)
        }
    }
}

/// Whether the word is a lower name, as of a function.
#[tactic(auto, using(crate::proofs::Caps::name_none, crate::proofs::Caps::name_long, crate::proofs::Caps::name_first, crate::proofs::Caps::name_rest))]
pub(crate) fn is_lower_name(word: &[u8]) -> bool
    ensures { result ≡ is_lower_name word.now }
{
    if word.len() > 64 {
        return false;
    }
    match word {
        [] => false,
        [first, rest @ ..] => {
            if !is_lower(*first) {
                return false;
            }
            are_tails(rest)
        }
    }
}

/// Adds a name to fewer than the most, unless it stands.
#[tactic(auto, using(crate::proofs::Naming::name_added, crate::proofs::Naming::name_stood))]
pub fn add_name<'a>(names: &mut KnownNames<'a>, most: usize, name: &'a [u8]) -> Result<(), LineStop>
    ensures { MatchResult result (λ done. IsAdded most names.old name.now names.new) (λ stop. IsRefused most names.old name.now stop) }
{
    if names.len() >= most {
        return Err(LineStop::Count);
    }
    match names.add(name) {
        Ok(new) => {
            if new {
                return Ok(());
            }
            Err(LineStop::Repeat)
        }
        Err(_) => Err(LineStop::Memory),
    }
}

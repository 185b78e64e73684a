ghost use Rattle.std.specs.Prelude.{◌≡◌, ◌+◌, ◌≤◌, length, take, IfOk};
ghost use Rattle.camelot_values.specs.Names.{is_tail};
ghost use Rattle.grail_code.specs.Reader.{Gives, times_at};
ghost use Rattle.grail_code.specs.CodeReader.{tail_at, starts_name, word_at, name_at};

use super::reader::{Halt, number};
use camelot_values::Word;
use std::alloc::Global;

/// The letters that a name begins with.
#[derive(Clone, Copy)]
pub enum Letter {
    /// `a` to `z`, as in the names of types and functions.
    Lower,
    /// `A` to `Z`, as in the names of constructors.
    Upper,
}

fn starts_name(letter: Letter, byte: u8) -> bool
    ensures { result ≡ starts_name letter byte }
{
    match letter {
        Letter::Lower => byte.is_ascii_lowercase(),
        Letter::Upper => byte.is_ascii_uppercase(),
    }
}

// Whether the byte may stand behind a name's first letter.
fn is_tail(byte: u8) -> bool
    ensures { result ≡ is_tail byte }
{
    matches!(byte, b'a'..=b'z' | b'A'..=b'Z' | b'0'..=b'9' | b'_')
}

#[tactic(auto, unfolding(crate::specs::CodeReader::tail_at, crate::specs::Reader::byte_at))]
fn tail(bytes: &[u8]) -> Result<(u8, &[u8]), Halt>
    ensures { Gives (λ x. (x.0, x.1.now)) result (tail_at bytes.now) }
{
    match bytes {
        [] => Err(Halt::Short),
        [byte, rest @ ..] if is_tail(*byte) => Ok((*byte, rest)),
        [_, ..] => Err(Halt::Bad { left: bytes.len() }),
    }
}

// Passes over so many letters, digits and `_`, and answers what follows.
#[tactic(auto, using(crate::proofs::SpellingLoops::starts, crate::proofs::SpellingLoops::tails_end, crate::proofs::SpellingLoops::tails_done))]
fn tails(count: u32, bytes: &[u8]) -> Result<&[u8], Halt>
    ensures reads { Gives (λ rest. (take count bytes.now, rest.now)) result (times_at tail_at count bytes.now) }
    ensures room { IfOk result (λ rest. count + length rest.now ≡ length bytes.now) }
{
    let mut rest = bytes;
    'letters: for _ in 0..count {
        let (_letter, after) = tail(rest)?;
        rest = after;
    }
    Ok(rest)
}

// A name of so many bytes.
#[tactic(auto, unfolding(crate::specs::CodeReader::word_at, crate::specs::Reader::byte_at))]
fn word(alloc: Global, letter: Letter, count: u32, bytes: &[u8]) -> Result<(Word, &[u8]), Halt>
    requires { 1 ≤ count }
    ensures { Gives (λ x. (x.0, x.1.now)) result (word_at (starts_name letter) count bytes.now) }
{
    match bytes {
        [] => Err(Halt::Short),
        [first, others @ ..] if starts_name(letter, *first) => {
            let rest = tails(count - 1, others)?;
            let name = Word::new(alloc, &bytes[..count as usize])?;
            Ok((name, rest))
        }
        [_, ..] => Err(Halt::Bad { left: bytes.len() }),
    }
}

/// A name: its length, from 1 to 64, and its bytes.
#[tactic(auto, unfolding(crate::specs::CodeReader::name_at))]
pub fn name(alloc: Global, letter: Letter, bytes: &[u8]) -> Result<(Word, &[u8]), Halt>
    ensures { Gives (λ x. (x.0, x.1.now)) result (name_at (starts_name letter) bytes.now) }
{
    let (count, rest) = number(4, 1, 64, bytes)?;
    word(alloc, letter, count, rest)
}

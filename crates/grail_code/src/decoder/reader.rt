//! Reading from the left. Each reader takes bytes, and answers a value with the bytes behind it.

ghost use Rattle.std.specs.Prelude.{◌≡◌, ℕ, ◌≤◌, List, length, map, vec_len, IfOk};
ghost use Rattle.grail_code.specs.declared.decoder.reader.Halt.TheVariants.{Memory};
ghost use Rattle.grail_code.specs.Spelling.{Format};
ghost use Rattle.grail_code.specs.Reader.{Read, Gives, leb_at, times_at, counted_at};
ghost use Rattle.grail_code.specs.CodeReader.{format_of, digit_at};

use std::alloc::{AllocError, AllocFailed, Global};

/// Why a reader stopped.
#[derive(Debug, Drop)]
pub enum Halt {
    /// Memory ran out.
    Memory,
    /// The bytes end too early.
    Short,
    /// What is read can't go on with the next byte. So many bytes are left, that one among them.
    Bad { left: usize },
}

impl From<AllocError> for Halt {
    ghost from_gives = { λ _ halt. halt ≡ Memory };

    fn from(_failed: AllocError) -> Halt {
        Halt::Memory
    }
}

impl<T: Drop> From<AllocFailed<T>> for Halt {
    ghost from_gives = { λ _ halt. halt ≡ Memory };

    fn from(_failed: AllocFailed<T>) -> Halt {
        Halt::Memory
    }
}

/// The format of the code that is read.
#[derive(Clone, Copy)]
pub enum Version {
    /// `GRL1`: no division, no mark on a parameter, and no arm that looks.
    First,
    /// `GRL2`, which has all of these.
    Second,
}

/// The last byte of the four that tell the format.
#[tactic(auto, unfolding(crate::specs::CodeReader::digit_at, crate::specs::Reader::byte_at))]
pub fn digit(bytes: &[u8]) -> Result<(Version, &[u8]), Halt>
    ensures { Gives (λ x. (format_of x.0, x.1.now)) result (digit_at bytes.now) }
{
    match bytes {
        [] => Err(Halt::Short),
        [b'1', rest @ ..] => Ok((Version::First, rest)),
        [b'2', rest @ ..] => Ok((Version::Second, rest)),
        [_, ..] => Err(Halt::Bad { left: bytes.len() }),
    }
}

/// A whole number from `least`, 0 or 1, to `most` in LEB128. It has as few bytes as it takes, and up to `more` follow
/// the first.
#[tactic(auto, unfolding(crate::specs::Reader::leb_at))]
pub fn number(more: u32, least: u32, most: u32, bytes: &[u8]) -> Result<(u32, &[u8]), Halt>
    requires { least ≤ 1 }
    ensures reads { Gives (λ x. (x.0, x.1.now)) result (leb_at more least most bytes.now) }
    ensures enough { IfOk result (λ x. least ≤ x.0) }
    ensures few { IfOk result (λ x. x.0 ≤ most) }
{
    match bytes {
        [] => Err(Halt::Short),
        [first, rest @ ..] => {
            let first = u32::from(*first);
            if first > most {
                return Err(Halt::Bad { left: bytes.len() });
            }
            if more == 0 || first < 128 {
                if first < least {
                    return Err(Halt::Bad { left: bytes.len() });
                }
                return Ok((first, rest));
            }
            let low = first - 128;
            let (high, rest) = number(more - 1, 1, (most - low) / 128, rest)?;
            Ok((low + 128 * high, rest))
        }
    }
}

/// What stands in lists of things that are read one after the other.
pub trait Decode: Drop {
    ghost Plain: { Type 0 };

    // the value as plain data
    ghost plain: { Self → Plain };

    // the reader as a function on lists
    ghost read_at: { Format → List ℕ → Read Plain };

    /// The value that stands first.
    fn decode<'a>(
        alloc: Global,
        version: Version,
        bytes: &'a [u8],
    ) -> Result<(Self, &'a [u8]), Halt>
        ensures { Gives (λ x. (plain x.0, x.1.now)) result (read_at (format_of version) bytes.now) };
}

// So many things. Each takes at least a byte, so there is no room made for more things than there are bytes.
#[tactic(auto, using(crate::proofs::SpellingLoops::starts, crate::proofs::SpellingLoops::goes_on, crate::proofs::SpellingLoops::ends_by, crate::proofs::SpellingLoops::is_done))]
fn times<T: Decode>(
    alloc: Global,
    version: Version,
    count: u32,
    bytes: &[u8],
) -> Result<(Vec<T>, &[u8]), Halt>
    ensures reads { Gives (λ x. (map T.plain x.0.items, x.1.now)) result (times_at (T.read_at (format_of version)) count bytes.now) }
    ensures count { IfOk result (λ x. vec_len x.0 ≡ count) }
{
    let mut found = Vec::with_capacity(alloc, bytes.len().min(count as usize))?;
    let mut rest = bytes;
    'things: for _ in 0..count {
        let (one, after) = T::decode(alloc, version, rest)?;
        found.push(one)?;
        rest = after;
    }
    Ok((found, rest))
}

/// A count from `least`, 0 or 1, to `most`, and then so many things.
#[tactic(auto, unfolding(crate::specs::Reader::counted_at))]
pub fn list<T: Decode>(
    alloc: Global,
    version: Version,
    least: u32,
    most: u32,
    bytes: &[u8],
) -> Result<(Vec<T>, &[u8]), Halt>
    requires { least ≤ 1 }
    ensures reads { Gives (λ x. (map T.plain x.0.items, x.1.now)) result (counted_at (T.read_at (format_of version)) least most bytes.now) }
    ensures enough { IfOk result (λ x. least ≤ vec_len x.0) }
    ensures few { IfOk result (λ x. vec_len x.0 ≤ most) }
{
    let (count, rest) = number(4, least, most, bytes)?;
    times(alloc, version, count, rest)
}

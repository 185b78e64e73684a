//! Code from its spelling, read from left to right.

mod blocks;
mod lets;
mod names;
mod reader;
mod types;

ghost use Rattle.std.specs.Prelude.{◌≡◌, ◌==◌, List};
ghost use Rattle.camelot_values.specs.Kinds.{data_type_of, AreTypes};
ghost use Rattle.grail_code.specs.Code.{code_of};
ghost use Rattle.grail_code.specs.Spelling.{Decoded, Means};
ghost use Rattle.grail_code.specs.Reader.{Gives, byte_at, counted_at};
ghost use Rattle.grail_code.specs.CodeReader.{format_of, format_at, type_at, tables_at, code_at, whole, Sees};
ghost use Rattle.grail_code.specs.Decoding.{IsSo, Says};

use crate::code::Code;
use crate::fault::DecodeFault;
use camelot_values::{TypeDef, Types};
use reader::{Halt, Version, digit, list};
use std::alloc::Global;
use stops::Stop;

// A byte that always stands here. What follows it is answered.
#[tactic(auto, unfolding(crate::specs::Reader::byte_at))]
fn fixed(byte: u8, bytes: &[u8]) -> Result<&[u8], Halt>
    ensures { Gives (λ rest. (byte, rest.now)) result (byte_at (λ b. b == byte) bytes.now) }
{
    match bytes {
        [] => Err(Halt::Short),
        [first, rest @ ..] if *first == byte => Ok(rest),
        [_, ..] => Err(Halt::Bad { left: bytes.len() }),
    }
}

// The four bytes that tell the format.
#[tactic(auto, unfolding(crate::specs::CodeReader::format_at, crate::specs::CodeReader::headed_at))]
fn version(bytes: &[u8]) -> Result<(Version, &[u8]), Halt>
    ensures { Gives (λ x. (format_of x.0, x.1.now)) result (format_at bytes.now) }
{
    let rest = fixed(b'G', bytes)?;
    let rest = fixed(b'R', rest)?;
    let rest = fixed(b'L', rest)?;
    digit(rest)
}

// The types. They are the same in each format.
#[tactic(auto, using(crate::proofs::SpellingTypes::types_fit))]
fn types_of(alloc: Global, version: Version, bytes: &[u8]) -> Result<(Types, &[u8]), Halt>
    ensures { Gives (λ x. (x.0, x.1.now)) result (counted_at type_at 0 64 bytes.now) }
{
    let (defs, rest) = list::<TypeDef>(alloc, version, 0, 64, bytes)?;
    Ok((Types::new(defs), rest))
}

#[tactic(auto, unfolding(crate::specs::CodeReader::tables_at))]
fn tables_of(alloc: Global, version: Version, bytes: &[u8]) -> Result<(Code, &[u8]), Halt>
    ensures { Gives (λ x. (code_of x.0, x.1.now)) result (tables_at (format_of version) bytes.now) }
{
    let (types, rest) = types_of(alloc, version, bytes)?;
    let (funcs, rest) = list(alloc, version, 0, 64, rest)?;
    Ok((Code { types, funcs }, rest))
}

// The code that stands first, and its format.
#[tactic(auto, unfolding(crate::specs::CodeReader::code_at))]
fn code_of(alloc: Global, bytes: &[u8]) -> Result<((Version, Code), &[u8]), Halt>
    ensures { Gives (λ x. ((format_of x.0.0, code_of x.0.1), x.1.now)) result (code_at bytes.now) }
{
    let (version, rest) = version(bytes)?;
    let (code, rest) = tables_of(alloc, version, rest)?;
    Ok(((version, code), rest))
}

// The code that the bytes spell, all of them.
fn all(alloc: Global, bytes: &[u8]) -> Result<Code, Stop<DecodeFault>>
    ensures { Sees result (whole bytes.now (code_at bytes.now)) }
{
    match code_of(alloc, bytes) {
        Ok(((_, code), [])) => Ok(code),
        Ok((_, rest)) => Err(Stop::Fault(DecodeFault::Bad {
            at: bytes.len().saturating_sub(rest.len()) as u64,
        })),
        Err(Halt::Short) => Err(Stop::Fault(DecodeFault::Short)),
        Err(Halt::Bad { left }) => Err(Stop::Fault(DecodeFault::Bad {
            at: bytes.len().saturating_sub(left) as u64,
        })),
        Err(Halt::Memory) => Err(Stop::Memory),
    }
}

/// The code that the bytes spell, in either format.
///
/// `Short` comes exactly where the bytes begin some code's spelling and end before it does, and `Bad` exactly where
/// they are neither a spelling nor the beginning of one. `at` is the length of the longest part from the left that
/// begins a spelling. Names that are repeated, and kinds whose type isn't there, have spellings as well.
/// [`Stop::Memory`] is no answer about the bytes.
#[tactic(auto, using(crate::proofs::SpellingMeans::found_so, crate::proofs::SpellingMeans::means_said))]
pub fn decode(alloc: Global, bytes: &[u8]) -> Result<Code, Stop<DecodeFault>>
    // What is answered is so.
    ensures found { IsSo bytes.now result }
    // What the bytes are is answered, unless memory runs out.
    ensures exact { (o : Decoded) → Means bytes.now o → Says result o }
{
    all(alloc, bytes)
}

ghost use Rattle.std.specs.Prelude.{◌≡◌, map};
ghost use Rattle.camelot_values.specs.Kinds.{Constructor, DataType, constructor_of, data_type_of};
ghost use Rattle.camelot_values.specs.declared.kinds.Kind.{Kind};
ghost use Rattle.grail_code.specs.Reader.{Gives};
ghost use Rattle.grail_code.specs.CodeReader.{numbered_kind, kind_at, layout_at, con_at, type_at};

use super::names::{Letter, name};
use super::reader::{Decode, Halt, Version, list, number};
use camelot_values::{Con, Kind, TypeDef};
use std::alloc::Global;

/// The kind of this number.
pub fn numbered(code: u32) -> Kind
    ensures { result ≡ numbered_kind code }
{
    match code {
        0 => Kind::Int,
        1 => Kind::Flag,
        2 => Kind::Dia,
        _ => Kind::Of(code - 3),
    }
}

/// A kind.
#[tactic(auto, unfolding(crate::specs::CodeReader::kind_at))]
pub fn kind(bytes: &[u8]) -> Result<(Kind, &[u8]), Halt>
    ensures { Gives (λ x. (x.0, x.1.now)) result (kind_at bytes.now) }
{
    let (code, rest) = number(4, 0, 66, bytes)?;
    Ok((numbered(code), rest))
}

impl Decode for Kind {
    ghost Plain = { Kind };

    ghost plain = { λ kind. kind };

    ghost read_at = { λ _. kind_at };

    fn decode<'a>(
        _alloc: Global,
        _version: Version,
        bytes: &'a [u8],
    ) -> Result<(Kind, &'a [u8]), Halt> {
        kind(bytes)
    }
}

// Whether a constructor is inline, and the kinds of its fields.
#[tactic(auto, unfolding(crate::specs::CodeReader::layout_at, crate::specs::CodeReader::fields_at, crate::specs::Reader::tag_at, crate::specs::Reader::byte_at))]
fn layout(alloc: Global, version: Version, bytes: &[u8]) -> Result<((bool, Vec<Kind>), &[u8]), Halt>
    ensures { Gives (λ x. ((x.0.0, x.0.1.items), x.1.now)) result (layout_at bytes.now) }
{
    match bytes {
        [] => Err(Halt::Short),
        [0, rest @ ..] => {
            let (fields, rest) = list(alloc, version, 0, 4, rest)?;
            Ok(((false, fields), rest))
        }
        [1, rest @ ..] => Ok(((true, Vec::new(alloc)), rest)),
        [_, ..] => Err(Halt::Bad { left: bytes.len() }),
    }
}

impl Decode for Con {
    ghost Plain = { Constructor };

    ghost plain = { constructor_of };

    ghost read_at = { λ _. con_at };

    #[tactic(auto, unfolding(crate::specs::CodeReader::con_at))]
    fn decode<'a>(
        alloc: Global,
        version: Version,
        bytes: &'a [u8],
    ) -> Result<(Con, &'a [u8]), Halt> {
        let (name, rest) = name(alloc, Letter::Upper, bytes)?;
        let ((inline, fields), rest) = layout(alloc, version, rest)?;
        let con = Con {
            name,
            inline,
            fields,
        };
        Ok((con, rest))
    }
}

impl Decode for TypeDef {
    ghost Plain = { DataType };

    ghost plain = { data_type_of };

    ghost read_at = { λ _. type_at };

    #[tactic(auto, unfolding(crate::specs::CodeReader::type_at))]
    fn decode<'a>(
        alloc: Global,
        version: Version,
        bytes: &'a [u8],
    ) -> Result<(TypeDef, &'a [u8]), Halt> {
        let (name, rest) = name(alloc, Letter::Lower, bytes)?;
        let (cons, rest) = list(alloc, version, 1, 64, rest)?;
        Ok((TypeDef { name, cons }, rest))
    }
}

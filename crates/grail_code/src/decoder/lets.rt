ghost use Rattle.std.specs.Prelude.{◌≡◌, ℕ, IfOk};
ghost use Rattle.grail_blocks.specs.declared.blocks.Place.{Place};
ghost use Rattle.grail_code.specs.Code.{Let as PlainLet, let_of, op_of, operator_of};
ghost use Rattle.grail_code.specs.Reader.{Gives};
ghost use Rattle.grail_code.specs.CodeReader.{format_of, divides, local_at, operator_at, place_at, lit_at, flag_at, copy_at, prim_at, make_at, call_at, op_at, let_at};

use super::reader::{Decode, Halt, Version, list, number};
use grail_blocks::{Let, Op, Place, PrimCode};
use smallvec::SmallVec;
use std::alloc::Global;

/// A local, or a block.
#[tactic(auto, unfolding(crate::specs::CodeReader::local_at))]
pub fn local(bytes: &[u8]) -> Result<(u32, &[u8]), Halt>
    ensures { Gives (λ x. (x.0, x.1.now)) result (local_at bytes.now) }
{
    number(4, 0, 255, bytes)
}

/// A local: the only numbers that stand in lists.
impl Decode for u32 {
    ghost Plain = { ℕ };

    ghost plain = { λ n. n };

    ghost read_at = { λ _. local_at };

    fn decode<'a>(
        _alloc: Global,
        _version: Version,
        bytes: &'a [u8],
    ) -> Result<(u32, &'a [u8]), Halt> {
        local(bytes)
    }
}

// Whether code of the format may divide.
fn divides(version: Version) -> bool
    ensures { result ≡ divides (format_of version) }
{
    match version {
        Version::First => false,
        Version::Second => true,
    }
}

#[tactic(auto, unfolding(crate::specs::CodeReader::operator_at, crate::specs::Reader::tag_at, crate::specs::Reader::byte_at))]
fn operator(version: Version, bytes: &[u8]) -> Result<(PrimCode, &[u8]), Halt>
    ensures { Gives (λ x. (operator_of x.0, x.1.now)) result (operator_at (format_of version) bytes.now) }
{
    match bytes {
        [] => Err(Halt::Short),
        [0, rest @ ..] => Ok((PrimCode::Add, rest)),
        [1, rest @ ..] => Ok((PrimCode::Sub, rest)),
        [2, rest @ ..] => Ok((PrimCode::Mul, rest)),
        [3, rest @ ..] => Ok((PrimCode::Eq, rest)),
        [4, rest @ ..] => Ok((PrimCode::Ne, rest)),
        [5, rest @ ..] => Ok((PrimCode::Lt, rest)),
        [6, rest @ ..] => Ok((PrimCode::Le, rest)),
        [7, rest @ ..] => Ok((PrimCode::Gt, rest)),
        [8, rest @ ..] => Ok((PrimCode::Ge, rest)),
        [9, rest @ ..] if divides(version) => Ok((PrimCode::Div, rest)),
        [10, rest @ ..] if divides(version) => Ok((PrimCode::Mod, rest)),
        [_, ..] => Err(Halt::Bad { left: bytes.len() }),
    }
}

#[tactic(auto, unfolding(crate::specs::CodeReader::place_at, crate::specs::CodeReader::place_rest, crate::specs::Reader::tag_at, crate::specs::Reader::byte_at))]
fn place(bytes: &[u8]) -> Result<(Place, &[u8]), Halt>
    ensures { Gives (λ x. (x.0, x.1.now)) result (place_at bytes.now) }
{
    match bytes {
        [] => Err(Halt::Short),
        [0, rest @ ..] => Ok((Place::Inline, rest)),
        [1, rest @ ..] => Ok((Place::New, rest)),
        [2, rest @ ..] => {
            let (diamond, rest) = local(rest)?;
            Ok((Place::Reuse(diamond), rest))
        }
        [_, ..] => Err(Halt::Bad { left: bytes.len() }),
    }
}

#[tactic(auto, unfolding(crate::specs::CodeReader::lit_at))]
fn lit(bytes: &[u8]) -> Result<(Op, &[u8]), Halt>
    ensures { Gives (λ x. (op_of x.0, x.1.now)) result (lit_at bytes.now) }
{
    let (bits, rest) = number(4, 0, u32::MAX, bytes)?;
    Ok((Op::Lit(bits.cast_signed()), rest))
}

#[tactic(auto, unfolding(crate::specs::CodeReader::flag_at, crate::specs::Reader::tag_at, crate::specs::Reader::byte_at))]
fn flag(bytes: &[u8]) -> Result<(Op, &[u8]), Halt>
    ensures { Gives (λ x. (op_of x.0, x.1.now)) result (flag_at bytes.now) }
{
    match bytes {
        [] => Err(Halt::Short),
        [0, rest @ ..] => Ok((Op::Flag(false), rest)),
        [1, rest @ ..] => Ok((Op::Flag(true), rest)),
        [_, ..] => Err(Halt::Bad { left: bytes.len() }),
    }
}

#[tactic(auto, unfolding(crate::specs::CodeReader::copy_at))]
fn copy(bytes: &[u8]) -> Result<(Op, &[u8]), Halt>
    ensures { Gives (λ x. (op_of x.0, x.1.now)) result (copy_at bytes.now) }
{
    let (from, rest) = local(bytes)?;
    Ok((Op::Copy(from), rest))
}

#[tactic(auto, unfolding(crate::specs::CodeReader::prim_at))]
fn prim(version: Version, bytes: &[u8]) -> Result<(Op, &[u8]), Halt>
    ensures { Gives (λ x. (op_of x.0, x.1.now)) result (prim_at (format_of version) bytes.now) }
{
    let (op, rest) = operator(version, bytes)?;
    let (left, rest) = local(rest)?;
    let (right, rest) = local(rest)?;
    Ok((Op::Prim { op, left, right }, rest))
}

#[tactic(auto, unfolding(crate::specs::CodeReader::make_at))]
fn make(alloc: Global, version: Version, bytes: &[u8]) -> Result<(Op, &[u8]), Halt>
    ensures { Gives (λ x. (op_of x.0, x.1.now)) result (make_at bytes.now) }
{
    let (con, rest) = number(4, 0, 4095, bytes)?;
    let (args, rest) = list(alloc, version, 0, 4, rest)?;
    let (place, rest) = place(rest)?;
    let args = SmallVec::from_vec(args);
    Ok((Op::Make { con, args, place }, rest))
}

#[tactic(auto, unfolding(crate::specs::CodeReader::call_at))]
fn call(alloc: Global, version: Version, bytes: &[u8]) -> Result<(Op, &[u8]), Halt>
    ensures { Gives (λ x. (op_of x.0, x.1.now)) result (call_at bytes.now) }
{
    let (func, rest) = number(4, 0, 63, bytes)?;
    let (args, rest) = list(alloc, version, 0, 16, rest)?;
    let args = SmallVec::from_vec(args);
    Ok((Op::Call { func, args }, rest))
}

#[tactic(auto, unfolding(crate::specs::CodeReader::op_at, crate::specs::CodeReader::op_rest, crate::specs::Reader::tag_at, crate::specs::Reader::byte_at))]
fn op(alloc: Global, version: Version, bytes: &[u8]) -> Result<(Op, &[u8]), Halt>
    ensures { Gives (λ x. (op_of x.0, x.1.now)) result (op_at (format_of version) bytes.now) }
{
    match bytes {
        [] => Err(Halt::Short),
        [0, rest @ ..] => lit(rest),
        [1, rest @ ..] => flag(rest),
        [2, rest @ ..] => copy(rest),
        [3, rest @ ..] => prim(version, rest),
        [4, rest @ ..] => make(alloc, version, rest),
        [5, rest @ ..] => call(alloc, version, rest),
        [_, ..] => Err(Halt::Bad { left: bytes.len() }),
    }
}

impl Decode for Let {
    ghost Plain = { PlainLet };

    ghost plain = { let_of };

    ghost read_at = { let_at };

    #[tactic(auto, unfolding(crate::specs::CodeReader::let_at))]
    fn decode<'a>(
        alloc: Global,
        version: Version,
        bytes: &'a [u8],
    ) -> Result<(Let, &'a [u8]), Halt> {
        let (target, rest) = local(bytes)?;
        let (op, rest) = op(alloc, version, rest)?;
        Ok((Let { target, op }, rest))
    }
}

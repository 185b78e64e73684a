ghost use Rattle.std.specs.Prelude.{◌≡◌, ◌++◌, ◌∷◌, [], ◌≤◌, ℕ, OnOk, if◌then◌else◌};
ghost use Rattle.std.specs.Int.{w32, cast_unsigned};
ghost use Rattle.grail_code.specs.Code.{Let as PlainLet, let_of, op_of, operator_of};
ghost use Rattle.grail_code.specs.Spelling.{Second, number, counted, operator_code, place_bytes, op_bytes, let_bytes, IsLocal, FitsOp, FitsLet, AreCounted};

use super::writer::{Encode, list, number};
use grail_blocks::{Let, Op, Place, PrimCode};
use std::alloc::AllocError;

/// A local: the only numbers that stand in lists.
impl Encode for u32 {
    ghost Plain = { ℕ };

    ghost plain = { λ n. n };

    ghost Fits = { IsLocal };

    ghost spell = { number };

    fn encode(&self, out: &mut Vec<u8>) -> Result<(), AllocError> {
        number(out, *self)
    }
}

fn operator_code(op: PrimCode) -> u8
    ensures { result ≡ operator_code (operator_of op) }
{
    match op {
        PrimCode::Add => 0,
        PrimCode::Sub => 1,
        PrimCode::Mul => 2,
        PrimCode::Eq => 3,
        PrimCode::Ne => 4,
        PrimCode::Lt => 5,
        PrimCode::Le => 6,
        PrimCode::Gt => 7,
        PrimCode::Ge => 8,
        PrimCode::Div => 9,
        PrimCode::Mod => 10,
    }
}

fn place(out: &mut Vec<u8>, place: Place) -> Result<(), AllocError>
    ensures { OnOk result (out.new.items ≡ out.old.items ++ place_bytes place) }
{
    match place {
        Place::Inline => out.push(0)?,
        Place::New => out.push(1)?,
        Place::Reuse(diamond) => {
            out.push(2)?;
            number(out, diamond)?;
        }
    }
    Ok(())
}

// A tag, and the number of a local or another number.
pub fn tagged(out: &mut Vec<u8>, tag: u8, value: u32) -> Result<(), AllocError>
    ensures { OnOk result (out.new.items ≡ out.old.items ++ (tag ∷ number value)) }
{
    out.push(tag)?;
    number(out, value)
}

// A tag, the number of a function, and arguments.
pub fn call(out: &mut Vec<u8>, tag: u8, func: u32, args: &[u32]) -> Result<(), AllocError>
    requires { AreCounted IsLocal 0 16 args.now }
    ensures { OnOk result (out.new.items ≡ out.old.items ++ (tag ∷ (number func ++ counted number args.now))) }
{
    tagged(out, tag, func)?;
    list(out, args)
}

fn make(out: &mut Vec<u8>, con: u32, args: &[u32], at: Place) -> Result<(), AllocError>
    requires { AreCounted IsLocal 0 4 args.now }
    ensures { OnOk result (out.new.items ≡ out.old.items ++ (4 ∷ (number con ++ counted number args.now ++ place_bytes at))) }
{
    tagged(out, 4, con)?;
    list(out, args)?;
    place(out, at)
}

fn prim(out: &mut Vec<u8>, op: PrimCode, left: u32, right: u32) -> Result<(), AllocError>
    ensures { OnOk result (out.new.items ≡ out.old.items ++ (3 ∷ operator_code (operator_of op) ∷ (number left ++ number right))) }
{
    out.push(3)?;
    tagged(out, operator_code(op), left)?;
    number(out, right)
}

fn flag(out: &mut Vec<u8>, value: bool) -> Result<(), AllocError>
    ensures { OnOk result (out.new.items ≡ out.old.items ++ (1 ∷ (if value then 1 else 0) ∷ [])) }
{
    out.push(1)?;
    out.push(if value { 1 } else { 0 })?;
    Ok(())
}

fn op(out: &mut Vec<u8>, op: &Op) -> Result<(), AllocError>
    requires { FitsOp Second (op_of op.now) }
    ensures { OnOk result (out.new.items ≡ out.old.items ++ op_bytes (op_of op.now)) }
{
    match op {
        Op::Lit(value) => tagged(out, 0, value.cast_unsigned()),
        Op::Flag(value) => flag(out, *value),
        Op::Copy(from) => tagged(out, 2, *from),
        Op::Prim { op, left, right } => prim(out, *op, *left, *right),
        Op::Make { con, args, place } => make(out, *con, args, *place),
        Op::Call { func, args } => call(out, 5, *func, args),
    }
}

impl Encode for Let {
    ghost Plain = { PlainLet };

    ghost plain = { let_of };

    ghost Fits = { FitsLet Second };

    ghost spell = { let_bytes };

    fn encode(&self, out: &mut Vec<u8>) -> Result<(), AllocError> {
        number(out, self.target)?;
        op(out, &self.op)
    }
}

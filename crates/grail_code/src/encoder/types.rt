ghost use Rattle.std.specs.Prelude.{◌≡◌, ◌++◌, length, ◌≤◌, OnOk};
ghost use Rattle.camelot_values.specs.Kinds.{Constructor, DataType, constructor_of, data_type_of};
ghost use Rattle.camelot_values.specs.declared.kinds.Kind.{Kind};
ghost use Rattle.grail_code.specs.Spelling.{name, kind_code, kind_bytes, con_bytes, type_bytes, FitsKind, FitsCon, FitsType};

use super::writer::{Encode, list, number};
use camelot_values::{Con, Kind, TypeDef, Word};
use std::alloc::AllocError;

/// Writes a name's length and its bytes.
pub fn name(out: &mut Vec<u8>, word: &Word) -> Result<(), AllocError>
    requires { length word.now ≤ 64 }
    ensures { OnOk result (out.new.items ≡ out.old.items ++ name word.now) }
{
    let bytes = word.bytes();
    number(out, bytes.len() as u32)?;
    out.extend_from_slice(bytes)?;
    Ok(())
}

/// The number of a kind.
pub fn kind_code(kind: Kind) -> u32
    requires { FitsKind kind }
    ensures { result ≡ kind_code kind }
{
    match kind {
        Kind::Int => 0,
        Kind::Flag => 1,
        Kind::Dia => 2,
        Kind::Of(number) => 3 + number,
    }
}

impl Encode for Kind {
    ghost Plain = { Kind };

    ghost plain = { λ kind. kind };

    ghost Fits = { FitsKind };

    ghost spell = { kind_bytes };

    fn encode(&self, out: &mut Vec<u8>) -> Result<(), AllocError> {
        number(out, kind_code(*self))
    }
}

impl Encode for Con {
    ghost Plain = { Constructor };

    ghost plain = { constructor_of };

    ghost Fits = { FitsCon };

    ghost spell = { con_bytes };

    fn encode(&self, out: &mut Vec<u8>) -> Result<(), AllocError> {
        name(out, &self.name)?;
        if self.inline {
            out.push(1)?;
            return Ok(());
        }
        out.push(0)?;
        list(out, &self.fields)
    }
}

impl Encode for TypeDef {
    ghost Plain = { DataType };

    ghost plain = { data_type_of };

    ghost Fits = { FitsType };

    ghost spell = { type_bytes };

    fn encode(&self, out: &mut Vec<u8>) -> Result<(), AllocError> {
        name(out, &self.name)?;
        list(out, &self.cons)
    }
}

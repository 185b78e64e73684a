//! Code to its spelling.

mod blocks;
mod lets;
mod types;
mod writer;

ghost use Rattle.std.specs.Prelude.{◌≡◌, ◌++◌, IfOk, OnOk};
ghost use Rattle.grail_code.specs.Code.{code_of};
ghost use Rattle.grail_code.specs.Spelling.{Second, FitsCode, spelling};

use crate::code::Code;
use std::alloc::{AllocError, Global};
use writer::list;

/// The spelling of the code in the second format, `GRL2`, where each number and each count is within its own limit.
pub fn encode(alloc: Global, code: &Code) -> Result<Vec<u8>, AllocError>
    requires { FitsCode Second (code_of code.now) }
    ensures { IfOk result (λ bytes. bytes.items ≡ spelling Second (code_of code.now)) }
{
    let mut out = Vec::new(alloc);
    out.extend_from_slice(b"GRL2")?;
    list(&mut out, code.types.defs())?;
    list(&mut out, &code.funcs)?;
    Ok(out)
}

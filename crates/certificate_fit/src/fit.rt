ghost use Rattle.std.specs.Prelude.{◌≡◌, ℕ, slice_get, None, IsOk, IsSome, IsErrAnd, MatchOption, MatchResult};
ghost use Rattle.std.specs.Option.{option_map};
ghost use Rattle.annotations.specs.Tables.{table_of};
ghost use Rattle.grail_code.specs.Code.{code_of, func_of};
ghost use Rattle.grail_code.specs.WellFormed.{IsWellFormed};
ghost use Rattle.certificate.specs.Words as words;
ghost use Rattle.licence.specs.Fitting.{Fits, IsMisfit};
ghost use Rattle.certificate_fit.specs.Shapes.{IsFuncRight, IsLeastIn};

use crate::blocks::check_func;
use annotations::ReachTable;
use certificate::{Cert, FuncCert};
use grail_code::{Code, Func};

/// Where a certificate doesn't fit a code: the first function whose lines are wrong, and in it the least block. A
/// function's own lines are those of block 0; so it is block 0 of the first function that the code or the certificate
/// alone has.
#[derive(Clone, Copy, Debug, PartialEq, Eq)]
pub struct Misfit {
    /// The number of the function, from 0.
    pub func: u32,
    /// The number of the block, from 0. The function needn't have such a block.
    pub block: u32,
}

// The function of this number.
fn func_at(code: &Code, number: u32) -> Option<&Func>
    ensures { option_map (λ f. func_of f.now) result ≡ slice_get (code_of code.now).funcs number }
{
    code.funcs.get(number as usize)
}

// The lines of the function of this number.
fn cert_at(cert: &Cert, number: u32) -> Option<&FuncCert>
    ensures { option_map (λ f. words.func_of f.now) result ≡ slice_get cert.now.funcs number }
{
    cert.funcs().get(number as usize)
}

// The least block of the function of this number whose lines are wrong.
fn misfit_in(code: &Code, cert: &Cert, table: &ReachTable, number: u32) -> Option<u32>
    requires well { IsWellFormed (code_of code.now) }
    requires table { table.now ≡ table_of code.now.types }
    ensures { MatchOption result (IsFuncRight (code_of code.now) cert.now number) (λ block. IsLeastIn (code_of code.now) cert.now number block) }
{
    cert.limits();
    let Some(func) = func_at(code, number) else {
        return missing_in_code(cert, number);
    };
    match cert_at(cert, number) {
        Some(line) => check_func(code, table, func, line),
        None => Some(0),
    }
}

// The same where the code has no such function.
fn missing_in_code(cert: &Cert, number: u32) -> Option<u32>
    ensures { MatchOption result (slice_get cert.now.funcs number ≡ None) (λ block. (block ≡ 0) × IsSome (slice_get cert.now.funcs number)) }
{
    match cert_at(cert, number) {
        Some(_) => Some(0),
        None => None,
    }
}

// The first misfit. One function more is looked at than the code has.
fn find_misfit(code: &Code, cert: &Cert, table: &ReachTable) -> Result<(), Misfit>
    requires well { IsWellFormed (code_of code.now) }
    requires table { table.now ≡ table_of code.now.types }
    ensures { MatchResult result (λ u. Fits (code_of code.now) cert.now) (λ m. IsMisfit (code_of code.now) cert.now m.func m.block) }
{
    let count = code.funcs.len() as u32;
    'funcs: for func in 0..count + 1 {
        if let Some(block) = misfit_in(code, cert, table, func) {
            return Err(Misfit { func, block });
        }
    }
    Ok(())
}

/// Whether the certificate fits the code: it has the code's functions in order, a line for each block after the first,
/// and annotations only of parameters that aren't lent and of builds. These are of heap types, on constructors that
/// their kinds reach. Else the first misfit. The code is well formed, and the table is that of its types. For each
/// function the ends of its blocks are walked for what is looked at, and then code and certificate side by side. It
/// takes 256 bytes.
pub fn check_fit(code: &Code, cert: &Cert, table: &ReachTable) -> Result<(), Misfit>
    requires well { IsWellFormed (code_of code.now) }
    requires table { table.now ≡ table_of code.now.types }
    // At Ok the certificate fits the code; else the answer is its misfit.
    ensures answer { MatchResult result (λ u. Fits (code_of code.now) cert.now) (λ m. IsMisfit (code_of code.now) cert.now m.func m.block) }
    // What fits is answered with Ok.
    ensures fits { Fits (code_of code.now) cert.now → IsOk result }
    // What has a misfit is answered with it.
    ensures misfit { (func block : ℕ) → IsMisfit (code_of code.now) cert.now func block → IsErrAnd result (λ m. (m.func ≡ func) × (m.block ≡ block)) }
{
    find_misfit(code, cert, table)
}

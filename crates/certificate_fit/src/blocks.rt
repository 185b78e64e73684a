ghost use Rattle.std.specs.Prelude.{◌≡◌, ◌↔◌, ◌<◌, ◌≤◌, IsTrue, length, map, MatchOption};
ghost use Rattle.annotations.specs.Tables.{table_of};
ghost use Rattle.grail_code.specs.Code.{code_of, func_of};
ghost use Rattle.grail_code.specs.WellFormed.{FuncFits};
ghost use Rattle.certificate.specs.Certificates.{FuncIsFormed};
ghost use Rattle.certificate.specs.Words as words;
ghost use Rattle.licence.specs.Fitting.{IsRightAt};
ghost use Rattle.certificate_fit.specs.Shapes.{AreLooked, HasParams, lines_from, makes_from, AreRight, IsLeastWrong};

use crate::lines::{first_left, line_fits, lines_from, makes_fit, makes_from};
use crate::looks::looked_in;
use crate::own::own_fit_at;
use annotations::ReachTable;
use certificate::{BlockCert, FuncCert, MakeCert};
use grail_code::{Code, Func};

// Whether the lines of this block are right. These lines are those that are left, from this block on.
fn is_right_at(
    code: &Code,
    table: &ReachTable,
    func: &Func,
    looked: &[bool],
    cert: &FuncCert,
    lines: &[BlockCert],
    makes: &[MakeCert],
    number: u32,
) -> bool
    requires table { table.now ≡ table_of code.now.types }
    requires looked { AreLooked (func_of func.now) looked.now }
    requires params { HasParams (func_of func.now) }
    requires formed { FuncIsFormed (words.func_of cert.now) }
    requires there { number < length (func_of func.now).blocks }
    requires lines { map words.block_of lines.now ≡ lines_from number (map words.block_of cert.now.blocks.items) }
    requires makes { map words.make_of makes.now ≡ makes_from number (map words.make_of cert.now.makes.items) }
    ensures { IsTrue result ↔ IsRightAt (code_of code.now) (func_of func.now) (words.func_of cert.now) number }
{
    if !own_fit_at(code, table, func, looked, cert, number) {
        return false;
    }
    if !line_fits(code, table, func, looked, lines, number) {
        return false;
    }
    makes_fit(code, table, func, makes, number)
}

// How many blocks the function has.
fn block_count(func: &Func) -> u32
    ensures count { result ≡ length (func_of func.now).blocks }
    ensures some { 1 ≤ result }
{
    func.blocks.len() as u32
}

// The least block of the function whose lines are wrong. Lines and builds are walked once, beside the blocks.
pub(crate) fn check_func(
    code: &Code,
    table: &ReachTable,
    func: &Func,
    cert: &FuncCert,
) -> Option<u32>
    requires table { table.now ≡ table_of code.now.types }
    requires fits { FuncFits (code_of code.now) (func_of func.now) }
    requires formed { FuncIsFormed (words.func_of cert.now) }
    ensures { MatchOption result (AreRight (code_of code.now) (func_of func.now) (words.func_of cert.now))
        (λ number. IsLeastWrong (code_of code.now) (func_of func.now) (words.func_of cert.now) number) }
{
    let looked = looked_in(func);
    let mut lines = cert.blocks.as_slice();
    let mut makes = cert.makes.as_slice();
    let count = block_count(func);
    'walk: for number in 0..count {
        lines = lines_from(lines, number);
        makes = makes_from(makes, number);
        if !is_right_at(code, table, func, &looked, cert, lines, makes, number) {
            return Some(number);
        }
    }
    first_left(lines_from(lines, count), makes_from(makes, count))
}

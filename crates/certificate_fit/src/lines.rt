ghost use Rattle.std.specs.Prelude.{◌≡◌, ◌↔◌, ◌<◌, IsTrue, length, map};
ghost use Rattle.annotations.specs.Tables.{table_of};
ghost use Rattle.grail_code.specs.Code.{code_of, func_of};
ghost use Rattle.certificate.specs.Words.{block_of, make_of};
ghost use Rattle.certificate_fit.specs.Shapes.{AreLooked, HasParams, lines_from, makes_from, AreLinesFrom, AreMakesFrom, FrontFits, LineFits, MakesFitAt, first_left};

use crate::makes::make_fits;
use crate::own::params_at;
use crate::vars::vars_fit;
use annotations::ReachTable;
use certificate::{BlockCert, MakeCert};
use grail_code::{Code, Func};

// The lines without those in front of earlier blocks.
pub(crate) fn lines_from(lines: &[BlockCert], number: u32) -> &[BlockCert]
    ensures { map block_of result.now ≡ lines_from number (map block_of lines.now) }
{
    let mut rest = lines;
    'lines: while let [line, others @ ..] = rest {
        if line.block >= number {
            break;
        }
        rest = others;
    }
    rest
}

// The same of builds.
pub(crate) fn makes_from(makes: &[MakeCert], number: u32) -> &[MakeCert]
    ensures { map make_of result.now ≡ makes_from number (map make_of makes.now) }
{
    let mut rest = makes;
    'makes: while let [line, others @ ..] = rest {
        if line.block >= number {
            break;
        }
        rest = others;
    }
    rest
}

// Whether the foremost line is right at this block: it is of a block after the first, and what it says of the block's
// parameters fits. Where it's of a later block, this one has no line, as only the first has.
fn front_fits(
    code: &Code,
    table: &ReachTable,
    func: &Func,
    looked: &[bool],
    line: &BlockCert,
    number: u32,
) -> bool
    requires table { table.now ≡ table_of code.now.types }
    requires looked { AreLooked (func_of func.now) looked.now }
    requires params { HasParams (func_of func.now) }
    ensures { IsTrue result ↔ FrontFits (code_of code.now) (func_of func.now) (block_of line.now) number }
{
    if line.block != number {
        return number == 0;
    }
    if number == 0 {
        return false;
    }
    vars_fit(
        &code.types,
        table,
        func,
        looked,
        params_at(func, number),
        &line.vars,
    )
}

// Whether there is a line for this block exactly where it's a later one than the first, and what it says of the block's
// parameters fits. The lines are those from this block on.
#[tactic(auto, using(crate::proofs::Walking::no_line, crate::proofs::Walking::front_line))]
pub(crate) fn line_fits(
    code: &Code,
    table: &ReachTable,
    func: &Func,
    looked: &[bool],
    lines: &[BlockCert],
    number: u32,
) -> bool
    requires table { table.now ≡ table_of code.now.types }
    requires looked { AreLooked (func_of func.now) looked.now }
    requires params { HasParams (func_of func.now) }
    requires there { number < length (func_of func.now).blocks }
    requires lines { AreLinesFrom number (map block_of lines.now) }
    ensures { IsTrue result ↔ LineFits (code_of code.now) (func_of func.now) (map block_of lines.now) number }
{
    match lines {
        [] => number == 0,
        [line, ..] => front_fits(code, table, func, looked, line, number),
    }
}

// Whether the lines of this block's builds fit. The lines are those from this block on.
pub(crate) fn makes_fit(
    code: &Code,
    table: &ReachTable,
    func: &Func,
    makes: &[MakeCert],
    number: u32,
) -> bool
    requires table { table.now ≡ table_of code.now.types }
    requires makes { AreMakesFrom number (map make_of makes.now) }
    ensures { IsTrue result ↔ MakesFitAt (code_of code.now) (func_of func.now) (map make_of makes.now) number }
{
    let mut rest = makes;
    'makes: while let [line, others @ ..] = rest {
        if line.block != number {
            break;
        }
        if !make_fits(code, table, func, line) {
            return false;
        }
        rest = others;
    }
    true
}

// The least block that a line is of. Lines ascend.
pub(crate) fn first_left(lines: &[BlockCert], makes: &[MakeCert]) -> Option<u32>
    ensures { result ≡ first_left (map block_of lines.now) (map make_of makes.now) }
{
    match (lines, makes) {
        ([], []) => None,
        ([line, ..], []) => Some(line.block),
        ([], [make, ..]) => Some(make.block),
        ([line, ..], [make, ..]) => Some(line.block.min(make.block)),
    }
}

ghost use Rattle.std.specs.Prelude.{◌≡◌, ◌↔◌, ◌-◌, ◌≤◌, IsTrue, IsSomeAnd, slice_get};
ghost use Rattle.std.specs.Option.{option_map};
ghost use Rattle.camelot_values.specs.Kinds.{type_of};
ghost use Rattle.annotations.specs.Tables.{table_of};
ghost use Rattle.annotations.specs.Vectors.{is_heap_con};
ghost use Rattle.grail_blocks.specs.Blocks.{op_of, let_of};
ghost use Rattle.grail_code.specs.Code.{code_of, func_of, block_of};
ghost use Rattle.certificate.specs.Words.{make_of};
ghost use Rattle.licence.specs.Fitting.{BuildFits, MakeFits};
ghost use Rattle.certificate_fit.specs.Shapes.{ConFits};

use crate::vars::vector_fits;
use annotations::{ReachTable, Vector};
use camelot_values::{Kind, Types};
use certificate::MakeCert;
use grail_blocks::{Let, Op};
use grail_code::{Block, Code, Func};

// Whether the constructor is one of a heap type that reaches each constructor of the vector.
fn con_fits(types: &Types, table: &ReachTable, con: u32, vector: &Vector) -> bool
    requires { table.now ≡ table_of types.now }
    ensures { IsTrue result ↔ ConFits types.now vector.now con }
{
    match table.type_of(con) {
        Some(number) => vector_fits(types, table, Kind::Of(number), vector),
        None => false,
    }
}

// Whether this is a build of such a constructor.
fn build_fits(code: &Code, table: &ReachTable, vector: &Vector, op: &Op) -> bool
    requires { table.now ≡ table_of code.now.types }
    ensures { IsTrue result ↔ BuildFits (code_of code.now) vector.now (op_of op.now) }
{
    match op {
        Op::Make {
            con,
            args: _,
            place: _,
        } => con_fits(&code.types, table, *con, vector),
        _ => false,
    }
}

// The block of this number.
pub(crate) fn block_at(func: &Func, number: u32) -> Option<&Block>
    ensures { option_map (λ b. block_of b.now) result ≡ slice_get (func_of func.now).blocks number }
{
    func.blocks.get(number as usize)
}

// The let at this place of a block, counted from 1.
fn let_at(block: &Block, place: u32) -> Option<&Let>
    requires { 1 ≤ place }
    ensures { option_map (λ l. let_of l.now) result ≡ slice_get (block_of block.now).lets (place - 1) }
{
    block.lets.get(place as usize - 1)
}

// Whether the line is of a build that is there, and fits it. Places count from 1.
pub(crate) fn make_fits(code: &Code, table: &ReachTable, func: &Func, line: &MakeCert) -> bool
    requires { table.now ≡ table_of code.now.types }
    ensures { IsTrue result ↔ MakeFits (code_of code.now) (func_of func.now) (make_of line.now) }
{
    if line.place == 0 {
        return false;
    }
    let Some(block) = block_at(func, line.block) else {
        return false;
    };
    match let_at(block, line.place) {
        Some(binding) => build_fits(code, table, &line.vector, &binding.op),
        None => false,
    }
}

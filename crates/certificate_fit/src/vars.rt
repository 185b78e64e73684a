ghost use Rattle.std.specs.Prelude.{◌≡◌, ◌↔◌, IsTrue, map};
ghost use Rattle.std.specs.List.{AllByRecursion};
ghost use Rattle.camelot_values.specs.Lists.{Ascend};
ghost use Rattle.annotations.specs.Tables.{table_of};
ghost use Rattle.grail_code.specs.Code.{func_of};
ghost use Rattle.certificate.specs.Words.{var_of};
ghost use Rattle.licence.specs.Fitting.{IsHeapData, IsOfKind, VarFits};
ghost use Rattle.certificate_fit.specs.Shapes.{AreLooked};

use crate::looks::is_read;
use annotations::{ReachTable, Vector, is_among};
use camelot_values::{Kind, Types};
use certificate::VarCert;
use grail_code::Func;

// Whether the kind is that of a data type with a boxed constructor.
fn is_heap_data(types: &Types, kind: Kind) -> bool
    ensures { IsTrue result ↔ IsHeapData types.now kind }
{
    match kind {
        Kind::Of(number) => types.is_heap(Kind::Of(number)),
        Kind::Int | Kind::Flag | Kind::Dia => false,
    }
}

// Whether the kind is that of such a data type, and reaches each constructor of the vector.
pub(crate) fn vector_fits(types: &Types, table: &ReachTable, kind: Kind, vector: &Vector) -> bool
    requires { table.now ≡ table_of types.now }
    ensures { IsTrue result ↔ (IsHeapData types.now kind × IsOfKind types.now kind vector.now) }
{
    if is_heap_data(types, kind) {
        table.reaches_each(kind, vector)
    } else {
        false
    }
}

// Whether the line is of one of these parameters, which is of a heap type and isn't lent, and of constructors that its
// kind reaches.
#[tactic(auto, using(crate::proofs::ReadLaws::lent_is_read, std::proofs::lemmas::Option::slice_get_within))]
fn var_fits(
    types: &Types,
    table: &ReachTable,
    func: &Func,
    looked: &[bool],
    params: &[u32],
    line: &VarCert,
) -> bool
    requires table { table.now ≡ table_of types.now }
    requires looked { AreLooked (func_of func.now) looked.now }
    requires order { Ascend params.now }
    ensures { IsTrue result ↔ VarFits types.now (func_of func.now) params.now (var_of line.now) }
{
    if !is_among(params, line.var) {
        return false;
    }
    match func.kind_of(line.var) {
        Some(kind) => {
            if is_read(func, looked, line.var) {
                return false;
            }
            vector_fits(types, table, kind, &line.vector)
        }
        None => false,
    }
}

// The same of each line.
pub(crate) fn vars_fit(
    types: &Types,
    table: &ReachTable,
    func: &Func,
    looked: &[bool],
    params: &[u32],
    lines: &[VarCert],
) -> bool
    requires table { table.now ≡ table_of types.now }
    requires looked { AreLooked (func_of func.now) looked.now }
    requires order { Ascend params.now }
    ensures { IsTrue result ↔ AllByRecursion (VarFits types.now (func_of func.now) params.now) (map var_of lines.now) }
{
    let mut rest = lines;
    'lines: while let [line, others @ ..] = rest {
        if !var_fits(types, table, func, looked, params, line) {
            return false;
        }
        rest = others;
    }
    true
}

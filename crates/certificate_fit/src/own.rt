ghost use Rattle.std.specs.Prelude.{◌≡◌, ◌↔◌, IsTrue};
ghost use Rattle.camelot_values.specs.Lists.{Ascend};
ghost use Rattle.annotations.specs.Tables.{table_of};
ghost use Rattle.grail_blocks.specs.Events.{params_at};
ghost use Rattle.grail_code.specs.Code.{code_of, func_of};
ghost use Rattle.certificate.specs.Words as words;
ghost use Rattle.licence.specs.Fitting.{OwnFit};
ghost use Rattle.certificate_fit.specs.Shapes.{AreLooked, HasParams};

use crate::makes::block_at;
use crate::vars::vars_fit;
use annotations::ReachTable;
use certificate::FuncCert;
use grail_code::{Code, Func};

// The parameters of the block of this number.
#[tactic(auto, using(crate::proofs::Params::params_ascend))]
pub(crate) fn params_at(func: &Func, number: u32) -> &[u32]
    requires { HasParams (func_of func.now) }
    ensures params { result.now ≡ params_at (func_of func.now).blocks number }
    ensures order { Ascend result.now }
{
    match block_at(func, number) {
        Some(block) => &block.params,
        None => &[],
    }
}

// Whether the function's own lines are right: its name, and what they say of parameters and of its result.
fn own_fit(code: &Code, table: &ReachTable, func: &Func, looked: &[bool], cert: &FuncCert) -> bool
    requires table { table.now ≡ table_of code.now.types }
    requires looked { AreLooked (func_of func.now) looked.now }
    requires params { HasParams (func_of func.now) }
    ensures { IsTrue result ↔ OwnFit (code_of code.now) (func_of func.now) (words.func_of cert.now) }
{
    if cert.name.bytes() != func.name.bytes() {
        return false;
    }
    if !table.reaches_each(func.result, &cert.result) {
        return false;
    }
    vars_fit(
        &code.types,
        table,
        func,
        looked,
        params_at(func, 0),
        &cert.params,
    )
}

// The same, at the first block alone.
pub(crate) fn own_fit_at(
    code: &Code,
    table: &ReachTable,
    func: &Func,
    looked: &[bool],
    cert: &FuncCert,
    number: u32,
) -> bool
    requires table { table.now ≡ table_of code.now.types }
    requires looked { AreLooked (func_of func.now) looked.now }
    requires params { HasParams (func_of func.now) }
    ensures { IsTrue result ↔ (number ≡ 0 → OwnFit (code_of code.now) (func_of func.now) (words.func_of cert.now)) }
{
    if number == 0 {
        own_fit(code, table, func, looked, cert)
    } else {
        true
    }
}

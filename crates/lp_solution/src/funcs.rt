ghost use Rattle.std.specs.Prelude.{◌≡◌, IfOk, map};
ghost use Rattle.grail_code.specs.Code.{func_of};
ghost use Rattle.certificate.specs.Words as words;
ghost use Rattle.lp_system.specs.Looked.{AreLooked};
ghost use Rattle.lp_solution.specs.Taking.{own_params, lines_from, behind_lines, func_from, behind_func, funcs_from};

use super::builds::builds;
use super::lines::{Typed, blocks, carriers, lines};
use super::values::Values;
use certificate::{FuncCert, VarCert};
use grail_code::Func;
use lp_system::looked_in;
use std::alloc::{AllocError, Global};

// The numbers of the parameters.
#[tactic(auto, using(crate::proofs::Takings::one_number_more))]
fn own_params(alloc: Global, func: &Func) -> Result<Vec<u32>, AllocError>
    ensures { IfOk result (λ numbers. numbers.items ≡ own_params (func_of func.now)) }
{
    let mut numbers = Vec::new(alloc);
    let count = func.params.len() as u32;
    'params: for number in 0..count {
        numbers.push(number)?;
    }
    Ok(numbers)
}

// The lines of the parameters.
fn param_lines(
    alloc: Global,
    typed: Typed<'_>,
    func: &Func,
    looked: &[bool],
    values: &mut Values,
) -> Result<Vec<VarCert>, AllocError>
    requires looked { AreLooked (func_of func.now) looked.now }
    ensures value { IfOk result (λ found. map words.var_of found.items ≡ lines_from typed.entry.types.now
        (func_of func.now) (own_params (func_of func.now)) values.old) }
    ensures left { IfOk result (λ found. values.new ≡ behind_lines typed.entry.types.now (func_of func.now) (own_params (func_of func.now)) values.old) }
{
    let numbers = own_params(alloc, func)?;
    lines(alloc, typed, func, looked, &numbers, values)
}

// A function's part.
fn func_cert(
    alloc: Global,
    typed: Typed<'_>,
    func: &Func,
    values: &mut Values,
) -> Result<FuncCert, AllocError>
    ensures value { IfOk result (λ cert. words.func_of cert ≡ func_from typed.entry.types.now (func_of func.now) values.old) }
    ensures left { IfOk result (λ cert. values.new ≡ behind_func typed.entry.types.now (func_of func.now) values.old) }
{
    let name = func.name.copy(alloc)?;
    let looked = looked_in(func);
    let need = values.next();
    let back = values.next();
    let params = param_lines(alloc, typed, func, &looked, values)?;
    let result = values.vector(alloc, carriers(typed, Some(func.result)))?;
    let blocks = blocks(alloc, typed, func, &looked, values)?;
    let makes = builds(alloc, typed, &func.blocks, values)?;
    Ok(FuncCert {
        name,
        need,
        back,
        params,
        result,
        blocks,
        makes,
    })
}

// The parts of these functions.
pub(crate) fn func_certs(
    alloc: Global,
    typed: Typed<'_>,
    funcs: &[Func],
    values: &mut Values,
) -> Result<Vec<FuncCert>, AllocError>
    ensures { IfOk result (λ certs. map words.func_of certs.items ≡ funcs_from typed.entry.types.now (map func_of funcs.now) values.old) }
{
    let mut certs = Vec::new(alloc);
    let mut rest = funcs;
    'funcs: while let [func, others @ ..] = rest {
        certs.push(func_cert(alloc, typed, func, values)?)?;
        rest = others;
    }
    Ok(certs)
}

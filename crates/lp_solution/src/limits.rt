ghost use Rattle.std.specs.Prelude.{◌≡◌, ◌↔◌, ◌≤◌, IsTrue, map};
ghost use Rattle.std.specs.List.{AllByRecursion};
ghost use Rattle.certificate.specs.Certificates.{VectorIsWithin, VarIsWithin, BlockIsWithin, MakeIsWithin, FuncIsWithin, IsWithin};
ghost use Rattle.certificate.specs.Words.{var_of, block_of, make_of, func_of, cert_of};

use annotations::Vector;
use certificate::{BlockCert, FuncCert, MakeCert, VarCert};

/// The most units of a cell, and of a constructor.
const MOST_UNITS: u64 = 2_147_483_648;

/// The most units that are needed or given back.
const MOST_NEED: u64 = 1_099_511_627_776;

// Whether the units of a constructor are few.
fn pair_is_within(con: u32, units: u64) -> bool
    ensures { IsTrue result ↔ ((con ≤ 4294967295) × (units ≤ 2147483648)) }
{
    units <= MOST_UNITS
}

fn vector_is_within(vector: &Vector) -> bool
    ensures { IsTrue result ↔ VectorIsWithin vector.now }
{
    let mut rest = vector.pairs();
    'pairs: while let [(con, units), others @ ..] = rest {
        if !pair_is_within(*con, *units) {
            return false;
        }
        rest = others;
    }
    true
}

fn var_is_within(var: u32, vector: &Vector) -> bool
    ensures { IsTrue result ↔ VarIsWithin (record { var = var; vector = vector.now }) }
{
    vector_is_within(vector)
}

fn vars_are_within(vars: &[VarCert]) -> bool
    ensures { IsTrue result ↔ AllByRecursion VarIsWithin (map var_of vars.now) }
{
    let mut rest = vars;
    'vars: while let [var, others @ ..] = rest {
        if !var_is_within(var.var, &var.vector) {
            return false;
        }
        rest = others;
    }
    true
}

fn block_is_within(block: u32, need: u64, vars: &[VarCert]) -> bool
    ensures { IsTrue result ↔ BlockIsWithin (record { block = block; need = need; vars = map var_of vars.now }) }
{
    if need > MOST_NEED {
        return false;
    }
    vars_are_within(vars)
}

fn blocks_are_within(blocks: &[BlockCert]) -> bool
    ensures { IsTrue result ↔ AllByRecursion BlockIsWithin (map block_of blocks.now) }
{
    let mut rest = blocks;
    'blocks: while let [block, others @ ..] = rest {
        if !block_is_within(block.block, block.need, &block.vars) {
            return false;
        }
        rest = others;
    }
    true
}

fn make_is_within(block: u32, place: u32, vector: &Vector) -> bool
    ensures { IsTrue result ↔ MakeIsWithin (record { block = block; place = place; vector = vector.now }) }
{
    vector_is_within(vector)
}

fn makes_are_within(makes: &[MakeCert]) -> bool
    ensures { IsTrue result ↔ AllByRecursion MakeIsWithin (map make_of makes.now) }
{
    let mut rest = makes;
    'makes: while let [make, others @ ..] = rest {
        if !make_is_within(make.block, make.place, &make.vector) {
            return false;
        }
        rest = others;
    }
    true
}

fn func_is_within(func: &FuncCert) -> bool
    ensures { IsTrue result ↔ FuncIsWithin (func_of func.now) }
{
    if func.need > MOST_NEED {
        return false;
    }
    if func.back > MOST_NEED {
        return false;
    }
    if !vars_are_within(&func.params) {
        return false;
    }
    if !vector_is_within(&func.result) {
        return false;
    }
    if !blocks_are_within(&func.blocks) {
        return false;
    }
    makes_are_within(&func.makes)
}

fn funcs_are_within(funcs: &[FuncCert]) -> bool
    ensures { IsTrue result ↔ AllByRecursion FuncIsWithin (map func_of funcs.now) }
{
    let mut rest = funcs;
    'funcs: while let [func, others @ ..] = rest {
        if !func_is_within(func) {
            return false;
        }
        rest = others;
    }
    true
}

// Whether all numbers are within the limits of certificates.
pub(crate) fn is_within(unit: u64, funcs: &[FuncCert]) -> bool
    ensures { IsTrue result ↔ IsWithin (cert_of unit funcs.now) }
{
    if unit > MOST_UNITS {
        return false;
    }
    funcs_are_within(funcs)
}

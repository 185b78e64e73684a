ghost use Rattle.std.specs.Prelude.{◌≡◌, ◌++◌, map, flat_map, codes, IfOk, OnOk};
ghost use Rattle.camelot_values.specs.Kinds.{constructor_name};
ghost use Rattle.certificate.specs.Words.{var_of, func_of};
ghost use Rattle.licence_text.specs.Texts.{bounds_text, function_text, param_text, term_text, unit_text};

use annotations::Vector;
use camelot_values::Types;
use certificate::{FuncCert, VarCert};
use licence::Licence;
use std::alloc::{AllocError, Global};
use text_lines::push_number;

// Writes a label and a text.
#[tactic(auto, using(crate::proofs::Joining::two))]
fn push_text(out: &mut Vec<u8>, label: &[u8], text: &[u8]) -> Result<(), AllocError>
    ensures { OnOk result (out.new.items ≡ out.old.items ++ (label.now ++ text.now)) }
{
    out.extend_from_slice(label)?;
    out.extend_from_slice(text)?;
    Ok(())
}

// The name of a constructor; none where it isn't among these types.
fn name_of(types: &Types, con: u32) -> &[u8]
    ensures { result.now ≡ constructor_name types.now con }
{
    match types.con(con) {
        Some(con) => con.name.bytes(),
        None => b"",
    }
}

// Writes the term of a constructor with units, of the parameter of this number.
#[tactic(auto, using(crate::proofs::Joining::four))]
fn push_term(
    out: &mut Vec<u8>,
    types: &Types,
    param: u32,
    pair: &(u32, u64),
) -> Result<(), AllocError>
    ensures { OnOk result (out.new.items ≡ out.old.items ++ term_text types.now param pair.now) }
{
    push_number(out, b" + ", pair.1)?;
    push_text(out, b"*", name_of(types, pair.0))?;
    push_number(out, b"(", param as u64)?;
    out.extend_from_slice(b")")
}

// Writes the terms of a parameter.
#[tactic(auto, using(crate::proofs::Joining::one_of, crate::proofs::Joining::all_of))]
fn push_param(out: &mut Vec<u8>, types: &Types, param: &VarCert) -> Result<(), AllocError>
    ensures { OnOk result (out.new.items ≡ out.old.items ++ param_text types.now (var_of param.now)) }
{
    'pairs: for pair in param.vector.pairs() {
        push_term(out, types, param.var, pair)?;
    }
    Ok(())
}

// Writes the terms of all parameters.
#[tactic(auto, using(crate::proofs::Joining::one_mapped, crate::proofs::Joining::all_mapped))]
fn push_params(out: &mut Vec<u8>, types: &Types, params: &[VarCert]) -> Result<(), AllocError>
    ensures { OnOk result (out.new.items ≡ out.old.items ++ flat_map (param_text types.now) (map var_of params.now)) }
{
    'params: for param in params {
        push_param(out, types, param)?;
    }
    Ok(())
}

// Writes the line of a function.
#[tactic(auto, using(crate::proofs::Joining::five))]
fn push_function(
    out: &mut Vec<u8>,
    types: &Types,
    unit: u64,
    func: &FuncCert,
) -> Result<(), AllocError>
    ensures { OnOk result (out.new.items ≡ out.old.items ++ function_text types.now unit (func_of func.now)) }
{
    push_text(out, b"function ", func.name.bytes())?;
    push_number(out, b" (", func.need)?;
    push_params(out, types, &func.params)?;
    push_number(out, b")/", unit)?;
    out.extend_from_slice(b"\n")
}

// Writes the lines of all functions.
#[tactic(auto, using(crate::proofs::Joining::one_mapped, crate::proofs::Joining::all_mapped))]
fn push_functions(
    out: &mut Vec<u8>,
    types: &Types,
    unit: u64,
    funcs: &[FuncCert],
) -> Result<(), AllocError>
    ensures { OnOk result (out.new.items ≡ out.old.items ++ flat_map (function_text types.now unit) (map func_of funcs.now)) }
{
    'funcs: for func in funcs {
        push_function(out, types, unit, func)?;
    }
    Ok(())
}

// Writes the line of the unit.
fn push_unit(out: &mut Vec<u8>, unit: u64) -> Result<(), AllocError>
    ensures { OnOk result (out.new.items ≡ out.old.items ++ unit_text unit) }
{
    push_number(out, b"accepted unit ", unit)?;
    out.extend_from_slice(b"\n")?;
    Ok(())
}

/// The bounds that a licence grants, as text: `accepted unit U`, and for each function of the certificate `function
/// NAME (N + V*CON(I) + ..)/U`, each line with its line feed. U units are one cell. A run of the function takes at most
/// as many cells beyond those of its arguments as the formula says: N units, and V units for each node of the
/// constructor CON in the argument of number I, counted from 0. `AllocError` where memory runs out.
#[tactic(auto, unfolding(crate::specs::Texts::bounds_text))]
pub fn bounds_text(alloc: Global, licence: &Licence) -> Result<Vec<u8>, AllocError>
    ensures { IfOk result (λ text. text.items ≡ bounds_text licence.now) }
{
    let cert = licence.cert();
    let mut out = Vec::new(alloc);
    push_unit(&mut out, cert.unit())?;
    push_functions(&mut out, &licence.code().types, cert.unit(), cert.funcs())?;
    Ok(out)
}

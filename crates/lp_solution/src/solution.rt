ghost use Rattle.std.specs.Prelude.{◌≡◌, ◌≤◌, IfOk, MatchOption, length};
ghost use Rattle.grail_code.specs.Code.{code_of};
ghost use Rattle.grail_code.specs.Limits.{IsNamed};
ghost use Rattle.grail_code.specs.WellFormed.{IsWellFormed};
ghost use Rattle.annotations.specs.Tables.{table_of};
ghost use Rattle.certificate.specs.Certificates.{IsCert, IsWithin};
ghost use Rattle.certificate.specs.Words.{cert_of};
ghost use Rattle.lp_system.specs.Unknowns.{unknowns_of};
ghost use Rattle.lp_system.specs.Found.{certificate_of};

use super::funcs::func_certs;
use super::limits::is_within;
use super::lines::Typed;
use super::values::Values;
use annotations::ReachTable;
use certificate::{Cert, FuncCert};
use grail_code::Code;
use lp_system::laws::law_of_form;
use std::alloc::{AllocError, Global};

// The functions of the certificate.
#[tactic(auto, using(crate::proofs::Taken::is_certificate))]
fn found(
    alloc: Global,
    code: &Code,
    table: &ReachTable,
    unit: u64,
    values: &[u64],
) -> Result<Vec<FuncCert>, AllocError>
    requires well { IsWellFormed (code_of code.now) }
    requires table { table.now ≡ table_of code.now.types }
    requires all { length values.now ≡ length (unknowns_of (code_of code.now)) }
    ensures { IfOk result (λ funcs. cert_of unit funcs.items ≡ certificate_of (code_of code.now) unit values.now) }
{
    let typed = Typed {
        types: &code.types,
        table,
    };
    let mut left = Values::of(values);
    let funcs = func_certs(alloc, typed, &code.funcs, &mut left)?;
    Ok(funcs)
}

/// The certificate that these values of the unknowns of a code's system are, over this unit (Hofmann and Jost 2003);
/// None exactly where a number is above its limit in certificates. `AllocError` where memory runs out.
pub fn certificate(
    alloc: Global,
    code: &Code,
    table: &ReachTable,
    unit: u64,
    values: &[u64],
) -> Result<Option<Cert>, AllocError>
    requires well { IsWellFormed (code_of code.now) }
    requires named { IsNamed (code_of code.now) }
    requires table { table.now ≡ table_of code.now.types }
    requires some { 1 ≤ unit }
    requires all { length values.now ≡ length (unknowns_of (code_of code.now)) }
    ensures { IfOk result (λ found. MatchOption found
        (IsWithin (certificate_of (code_of code.now) unit values.now) → ⊥)
        (λ cert. cert ≡ certificate_of (code_of code.now) unit values.now)) }
{
    let funcs = found(alloc, code, table, unit, values)?;
    if !is_within(unit, &funcs) {
        return Ok(None);
    }
    code.limits();
    law_of_form();
    Ok(Some(Cert::new(unit, funcs)))
}

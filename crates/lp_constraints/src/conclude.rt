ghost use Rattle.std.specs.Prelude.{◌≡◌, IfOk, Err};
ghost use Rattle.stops.specs.declared.stop.Stop.TheVariants.{Fault};
ghost use Rattle.certificate.specs.Certificates.{Cert as PlainCert};
ghost use Rattle.licence.specs.Fitting.{Grants};
ghost use Rattle.lp_system.specs.Found.{IsLeastCertificate};
ghost use Rattle.grail_code.specs.Code.{code_of};
ghost use Rattle.grail_code.specs.Limits.{IsNamed};
ghost use Rattle.grail_code.specs.WellFormed.{IsWellFormed};
ghost use Rattle.annotations.specs.Tables.{table_of};
ghost use Rattle.dual_simplex.specs.Run.{Least, plain_answer, IsOutcome};
ghost use Rattle.dual_simplex.specs.Promises.{SaysLeast, SaysNothing};
ghost use Rattle.dual_simplex.specs.Feasible.{IsLeast};
ghost use Rattle.lp_system.specs.Forms.{system_of};
ghost use Rattle.lp_constraints.specs.Inference.{IsSmall, inferred_of, IsSo};

use super::fault::NoCert;
use annotations::ReachTable;
use certificate::Cert;
use dual_simplex::Solved;
use grail_code::Code;
use lp_solution::certificate;
use lp_system::laws::law_of_least;
use std::alloc::Global;
use stops::Stop;

// The certificate of a solution, where its numbers are within their limits.
#[tactic(auto, using(crate::proofs::Concluding::found, crate::proofs::Concluding::least))]
fn certified(
    alloc: Global,
    code: &Code,
    table: &ReachTable,
    unit: u64,
    values: &[u64],
    price_unit: u64,
    prices: &[u64],
) -> Result<Cert, Stop<NoCert>>
    requires well { IsWellFormed (code_of code.now) }
    requires named { IsNamed (code_of code.now) }
    requires table { table.now ≡ table_of code.now.types }
    requires small { IsSmall (code_of code.now) }
    requires outcome { IsOutcome (system_of (code_of code.now)) (Least unit values.now price_unit prices.now) }
    requires least { IsLeast (system_of (code_of code.now)) unit values.now }
    ensures found { IsSo (code_of code.now) (inferred_of result) }
    ensures least { IfOk result (λ cert. IsLeastCertificate (code_of code.now) cert) }
    ensures bound { (result ≡ Err (Fault NoCert.NoBound)) → ⊥ }
{
    code.limits();
    law_of_least();
    match certificate(alloc, code, table, unit, values) {
        Ok(Some(cert)) => Ok(cert),
        Ok(None) => Err(Stop::Fault(NoCert::Wide)),
        Err(_) => Err(Stop::Memory),
    }
}

// What the solver's answer comes to.
#[tactic(auto, using(crate::proofs::Concluding::no_bound, crate::proofs::Concluding::wide_run, crate::proofs::Concluding::spent, crate::proofs::Concluding::nothing_grants))]
pub(crate) fn conclude(
    alloc: Global,
    code: &Code,
    table: &ReachTable,
    solved: Solved,
) -> Result<Cert, Stop<NoCert>>
    requires well { IsWellFormed (code_of code.now) }
    requires named { IsNamed (code_of code.now) }
    requires table { table.now ≡ table_of code.now.types }
    requires small { IsSmall (code_of code.now) }
    requires outcome { IsOutcome (system_of (code_of code.now)) (plain_answer solved) }
    requires least { SaysLeast (system_of (code_of code.now)) (plain_answer solved) }
    requires nothing { SaysNothing (system_of (code_of code.now)) (plain_answer solved) }
    ensures found { IsSo (code_of code.now) (inferred_of result) }
    ensures least { IfOk result (λ cert. IsLeastCertificate (code_of code.now) cert) }
    ensures none { (c : PlainCert) → (result ≡ Err (Fault NoCert.NoBound)) → Grants (code_of code.now) c → ⊥ }
{
    code.limits();
    law_of_least();
    match solved {
        Solved::Least {
            unit,
            values,
            price_unit,
            prices,
        } => certified(alloc, code, table, unit, &values, price_unit, &prices),
        Solved::Nothing { .. } => Err(Stop::Fault(NoCert::NoBound)),
        Solved::Wide { .. } => Err(Stop::Fault(NoCert::Wide)),
        Solved::Spent => Err(Stop::Fault(NoCert::Spent)),
    }
}

ghost use Rattle.std.specs.Prelude.{◌≡◌, IfOk, Err};
ghost use Rattle.stops.specs.declared.stop.Stop.TheVariants.{Fault};
ghost use Rattle.grail_code.specs.Code.{code_of};
ghost use Rattle.grail_code.specs.Limits.{IsNamed};
ghost use Rattle.grail_code.specs.WellFormed.{IsWellFormed};
ghost use Rattle.annotations.specs.Tables.{table_of};
ghost use Rattle.certificate.specs.Certificates.{Cert as PlainCert};
ghost use Rattle.licence.specs.Fitting.{Grants};
ghost use Rattle.lp_system.specs.Found.{IsLeastCertificate};
ghost use Rattle.lp_constraints.specs.Inference.{Inferred, IsSmall, Infers, inferred_of, IsSo, Answers};

use super::conclude::conclude;
use super::fault::NoCert;
use annotations::ReachTable;
use certificate::Cert;
use dual_simplex::{one_run, solve};
use grail_code::Code;
use lp_rows::system;
use lp_size::size_of;
use lp_system::laws::law_of_size;
use std::alloc::Global;
use stops::Stop;

/// The most unknowns of a system that is solved.
const MOST_UNKNOWNS: u64 = 512;

/// The most rows of a system that is solved.
const MOST_ROWS: u64 = 1536;

// The answer for a code whose system is small.
fn infer_small(alloc: Global, code: &Code, table: &ReachTable) -> Result<Cert, Stop<NoCert>>
    requires well { IsWellFormed (code_of code.now) }
    requires named { IsNamed (code_of code.now) }
    requires table { table.now ≡ table_of code.now.types }
    requires small { IsSmall (code_of code.now) }
    ensures found { IsSo (code_of code.now) (inferred_of result) }
    ensures least { IfOk result (λ cert. IsLeastCertificate (code_of code.now) cert) }
    ensures none { (c : PlainCert) → (result ≡ Err (Fault NoCert.NoBound)) → Grants (code_of code.now) c → ⊥ }
{
    code.limits();
    law_of_size();
    let Ok(system) = system(alloc, code, table) else {
        return Err(Stop::Memory);
    };
    match solve(alloc, &system) {
        Ok(solved) => conclude(alloc, code, table, solved),
        Err(_) => Err(Stop::Memory),
    }
}

// The answer, by the table of the code's types.
#[tactic(auto, using(crate::proofs::Concluding::too_many_unknowns, crate::proofs::Concluding::too_many_rows))]
fn infer_by(alloc: Global, code: &Code, table: &ReachTable) -> Result<Cert, Stop<NoCert>>
    requires well { IsWellFormed (code_of code.now) }
    requires named { IsNamed (code_of code.now) }
    requires table { table.now ≡ table_of code.now.types }
    ensures found { IsSo (code_of code.now) (inferred_of result) }
    ensures least { IfOk result (λ cert. IsLeastCertificate (code_of code.now) cert) }
    ensures none { (c : PlainCert) → (result ≡ Err (Fault NoCert.NoBound)) → Grants (code_of code.now) c → ⊥ }
{
    let size = size_of(code, table);
    let unknowns = size.unknowns;
    let rows = size.rows;
    if unknowns > MOST_UNKNOWNS {
        return Err(Stop::Fault(NoCert::TooMany { unknowns, rows }));
    }
    if rows > MOST_ROWS {
        return Err(Stop::Fault(NoCert::TooMany { unknowns, rows }));
    }
    infer_small(alloc, code, table)
}

/// The certificate of least cost of well-formed code (Hofmann and Jost 2003): the sum of what its functions need and
/// their parameters carry is least, in cells, among all certificates that grant the code. The code's names have the
/// forms of spelled code. It is found by the dual simplex method as a solution of the code's system
/// (`docs/INFERENCE.md`). What is lent carries nothing, so that the system has no unknowns of it, and no row of an
/// argument that is only read.
///
/// `TooMany` comes exactly where the system has more than 512 unknowns or 1,536 rows; `NoBound` exactly where the
/// solver finds that there is no solution, and then no certificate grants the code; `Wide` exactly where a number of
/// the solver's run is above 2^62, or one of the certificate above its limit; `Spent` exactly where the run has no end
/// within 4,096 pivots; [`Stop::Memory`] where memory runs out.
pub fn infer(alloc: Global, code: &Code) -> Result<Cert, Stop<NoCert>>
    requires well { IsWellFormed (code_of code.now) }
    requires named { IsNamed (code_of code.now) }
    // What is answered is so.
    ensures found { IsSo (code_of code.now) (inferred_of result) }
    // What is so is answered, unless memory runs out.
    ensures exact { (answer : Inferred) → Infers (code_of code.now) answer → Answers (inferred_of result) answer }
    // The certificate grants the code, and none costs less, with numbers of any size.
    ensures least { IfOk result (λ cert. IsLeastCertificate (code_of code.now) cert) }
    // No certificate grants the code, with numbers of any size.
    ensures none { (c : PlainCert) → (result ≡ Err (Fault NoCert.NoBound)) → Grants (code_of code.now) c → ⊥ }
{
    code.limits();
    law_of_size();
    one_run();
    match ReachTable::new(alloc, &code.types) {
        Ok(table) => infer_by(alloc, code, &table),
        Err(_) => Err(Stop::Memory),
    }
}

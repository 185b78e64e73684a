ghost use Rattle.std.specs.Prelude.{◌≡◌, [], Result};
ghost use Rattle.grail_code.specs.Code.{code_of};
ghost use Rattle.grail_code.specs.WellFormed.{IsWellFormed};
ghost use Rattle.annotations.specs.Tables.{table_of};
ghost use Rattle.licence.specs.Fitting.{Fits};
ghost use Rattle.grail_verifier.specs.Numbered.{held};
ghost use Rattle.licence.specs.Licensed.{Licensed};
ghost use Rattle.grail_verifier.specs.declared.refusal.Refusal.{Refusal as PlainRefusal};
ghost use Rattle.grail_verifier.specs.Finding.{short_of, refusal_of};
ghost use Rattle.grail_verifier.specs.Settling.{Settles};
ghost use Rattle.grail_verifier.specs.Verdicts.{IsJudged, VerdictIs, IsThisVerdict};

use super::books::Books;
use super::memo::Memo;
use super::numbered::NumberedCert;
use super::numbering::number_cert;
use super::refusal::Refusal;
use super::short::Short;
use super::walk::check_funcs;
use annotations::{ReachTable, Vector};
use certificate::Cert;
use certificate_fit::check_fit;
use grail_code::Code;
use licence::Licence;
use std::alloc::Global;
use stops::Stop;

// The refusal of a check that fails.
fn refusal_of(short: Short) -> Refusal
    ensures { result ≡ refusal_of (short_of short) }
{
    match short.con {
        None => Refusal::Need {
            func: u64::from(short.func),
            block: u64::from(short.block),
            place: u64::from(short.place),
            have: short.have,
            need: short.need,
        },
        Some(con) => Refusal::Weak {
            func: u64::from(short.func),
            block: u64::from(short.block),
            place: u64::from(short.place),
            con: u64::from(con),
            have: short.have,
            need: short.need,
        },
    }
}

// The walk over the numbered lines of a certificate that fits.
fn walk_all(
    alloc: Global,
    code: &Code,
    lines: &NumberedCert<'_>,
    table: &ReachTable,
    cert: &Cert,
) -> Result<(), Stop<Refusal>>
    requires well { IsWellFormed (code_of code.now) }
    requires fits { Fits (code_of code.now) cert.now }
    requires lines { lines.now.cert ≡ cert.now }
    requires none { held lines.now.held 0 ≡ [] }
    requires table { table.now ≡ table_of (code_of code.now).types }
    ensures { Settles (code_of code.now) cert.now result }
{
    code.limits();
    cert.limits();
    let mut memo = Memo::new(alloc, lines.count());
    match check_funcs(Books { code, lines, table }, &mut memo) {
        Ok(()) => Ok(()),
        Err(short) => Err(Stop::Fault(refusal_of(short))),
    }
}

// A certificate that fits, with the table of the code's types.
fn number_and_walk(
    alloc: Global,
    code: &Code,
    table: &ReachTable,
    cert: &Cert,
) -> Result<(), Stop<Refusal>>
    requires well { IsWellFormed (code_of code.now) }
    requires fits { Fits (code_of code.now) cert.now }
    requires table { table.now ≡ table_of (code_of code.now).types }
    ensures { Settles (code_of code.now) cert.now result }
{
    let none = Vector::none(alloc);
    match number_cert(alloc, cert, &none) {
        Ok(lines) => walk_all(alloc, code, &lines, table, cert),
        Err(_) => Err(Stop::Memory),
    }
}

// The first thing that is wrong with a certificate of well-formed code.
fn find_refusal(alloc: Global, code: &Code, cert: &Cert) -> Result<(), Stop<Refusal>>
    requires { IsWellFormed (code_of code.now) }
    ensures { Settles (code_of code.now) cert.now result }
{
    let table = match ReachTable::new(alloc, &code.types) {
        Ok(table) => table,
        Err(_) => return Err(Stop::Memory),
    };
    if let Err(misfit) = check_fit(code, cert, &table) {
        return Err(Stop::Fault(Refusal::Shape {
            func: u64::from(misfit.func),
            block: u64::from(misfit.block),
        }));
    }
    number_and_walk(alloc, code, &table, cert)
}

// The licence of this code with this certificate.
fn judge_once(alloc: Global, code: Code, cert: Cert) -> Result<Licence, Stop<Refusal>>
    requires { IsWellFormed (code_of code) }
    ensures { VerdictIs (IsJudged (code_of code) cert) result }
{
    match find_refusal(alloc, &code, &cert) {
        Ok(()) => Ok(Licence::seal(code, cert)),
        Err(stop) => Err(stop),
    }
}

/// The licence of well-formed code with a certificate, where the certificate grants it. Else `Shape`, `Need` or `Weak`,
/// whichever comes first; [`Stop::Memory`] where memory runs out.
#[tactic(auto, using(crate::proofs::Judging::judged_exactly))]
pub fn judge(alloc: Global, code: Code, cert: Cert) -> Result<Licence, Stop<Refusal>>
    requires { IsWellFormed (code_of code) }
    // What is answered is so.
    ensures found { VerdictIs (IsJudged (code_of code) cert) result }
    // What is so is answered, unless memory runs out.
    ensures exact { (verdict : Result Licensed PlainRefusal) → IsJudged (code_of code) cert verdict → IsThisVerdict verdict result }
{
    judge_once(alloc, code, cert)
}

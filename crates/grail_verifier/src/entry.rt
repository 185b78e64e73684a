ghost use Rattle.std.specs.Prelude.{◌≡◌, ◌<◌, ℕ, length, MatchResult, Result, Ok};
ghost use Rattle.stops.specs.Stopping.{FaultIs};
ghost use Rattle.grail_code.specs.Code.{Code as PlainCode, code_of};
ghost use Rattle.grail_code.specs.Spelling.{IsSpelling, Decoded, Means};
ghost use Rattle.grail_code.specs.Decoding.{IsSo, Says};
ghost use Rattle.grail_code.specs.WellFormed.{IsWellFormed};
ghost use Rattle.certificate.specs.Certificates.{Cert as PlainCert, IsCert};
ghost use Rattle.certificate.specs.Text.{text_of, IsLineFault, IsNumberFault};
ghost use Rattle.certificate.specs.Answers.{IsFault, IsMemory, IsLineAt, IsNumberAt};
ghost use Rattle.licence.specs.Fitting.{Grants};
ghost use Rattle.licence.specs.Licensed.{Licensed};
ghost use Rattle.grail_verifier.specs.declared.refusal.Refusal.{Refusal as PlainRefusal};
ghost use Rattle.grail_verifier.specs.Verdicts.{IsRead, IsChecked, IsVerdict, VerdictIs, IsThisVerdict};

use super::judgement::judge;
use super::refusal::Refusal;
use certificate::{Cert, CertFault, read_cert};
use grail_check::check_code;
use grail_check::laws::law_of_walk;
use grail_code::{Code, DecodeFault, decode};
use licence::Licence;
use std::alloc::Global;
use stops::Stop;

// Reads the text of a certificate, and lets it go.
fn read_text(alloc: Global, text: Vec<u8>) -> Result<Cert, Stop<CertFault>>
    requires { length text.items < 4294967296 }
    ensures found { MatchResult result (λ cert. text_of cert ≡ text.items) (λ stop. FaultIs (IsFault text.items) stop) }
    ensures read { (cert : PlainCert) → IsCert cert → text_of cert ≡ text.items →
        MatchResult result (λ found. found ≡ cert) (λ stop. IsMemory stop) }
    ensures line { (number : ℕ) → IsLineFault text.items number → MatchResult result (λ found. ⊥) (λ stop. IsLineAt number stop) }
    ensures number { (line : ℕ) → IsNumberFault text.items line → MatchResult result (λ found. ⊥) (λ stop. IsNumberAt line stop) }
{
    read_cert(alloc, &text)
}

// Decodes the bytes of code, and lets them go.
fn decode_bytes(alloc: Global, bytes: Vec<u8>) -> Result<Code, Stop<DecodeFault>>
    ensures found { IsSo bytes.items result }
    ensures exact { (o : Decoded) → Means bytes.items o → Says result o }
{
    decode(alloc, &bytes)
}

// Well-formed code with the text of a certificate.
fn verify_cert(alloc: Global, code: Code, cert: Vec<u8>) -> Result<Licence, Stop<Refusal>>
    requires well { IsWellFormed (code_of code) }
    requires short { length cert.items < 4294967296 }
    ensures found { VerdictIs (IsRead (code_of code) cert.items) result }
    ensures exact { (verdict : Result Licensed PlainRefusal) → IsRead (code_of code) cert.items verdict → IsThisVerdict verdict result }
{
    match read_text(alloc, cert) {
        Ok(read) => {
            read.limits();
            judge(alloc, code, read)
        }
        Err(Stop::Fault(fault)) => Err(Stop::Fault(Refusal::Cert(fault))),
        Err(Stop::Memory) => Err(Stop::Memory),
    }
}

// Code with the text of a certificate.
fn verify_code(alloc: Global, code: Code, cert: Vec<u8>) -> Result<Licence, Stop<Refusal>>
    requires short { length cert.items < 4294967296 }
    ensures found { VerdictIs (IsChecked (code_of code) cert.items) result }
    ensures exact { (verdict : Result Licensed PlainRefusal) → IsChecked (code_of code) cert.items verdict → IsThisVerdict verdict result }
{
    law_of_walk();
    match check_code(alloc, &code) {
        Ok(Ok(())) => verify_cert(alloc, code, cert),
        Ok(Err(fault)) => Err(Stop::Fault(Refusal::Kinds(fault))),
        Err(_) => Err(Stop::Memory),
    }
}

// The bytes of both.
fn verify_bytes(alloc: Global, code: Vec<u8>, cert: Vec<u8>) -> Result<Licence, Stop<Refusal>>
    requires code { length code.items < 4294967296 }
    requires cert { length cert.items < 4294967296 }
    ensures found { VerdictIs (IsVerdict code.items cert.items) result }
    ensures exact { (verdict : Result Licensed PlainRefusal) → IsVerdict code.items cert.items verdict → IsThisVerdict verdict result }
{
    match decode_bytes(alloc, code) {
        Ok(code) => verify_code(alloc, code, cert),
        Err(Stop::Fault(fault)) => Err(Stop::Fault(Refusal::Code(fault))),
        Err(Stop::Memory) => Err(Stop::Memory),
    }
}

/// The licence of the code that these bytes spell, with the certificate that these are the text of, where the code is
/// well formed and the certificate grants it. Else the first refusal, in the order of [`Refusal`]; [`Stop::Memory`]
/// where memory runs out. Each answer comes exactly where it is so. Both have fewer than 2^32 bytes, and are let go as
/// soon as they are read.
pub fn verify(alloc: Global, code: Vec<u8>, cert: Vec<u8>) -> Result<Licence, Stop<Refusal>>
    requires code { length code.items < 4294967296 }
    requires cert { length cert.items < 4294967296 }
    // What is answered is so.
    ensures found { VerdictIs (IsVerdict code.items cert.items) result }
    // What is so is answered, unless memory runs out.
    ensures exact { (verdict : Result Licensed PlainRefusal) → IsVerdict code.items cert.items verdict → IsThisVerdict verdict result }
    // Well-formed code with a certificate that grants it is accepted, and the licence is of these two.
    ensures accepts { (p : PlainCode) (c : PlainCert) → IsSpelling p code.items → IsWellFormed p → IsCert c →
        text_of c ≡ cert.items → Grants p c → IsThisVerdict (Ok (record { code = p; cert = c })) result }
{
    verify_bytes(alloc, code, cert)
}

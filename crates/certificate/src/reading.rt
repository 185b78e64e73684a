ghost use Rattle.std.specs.Prelude.{◌≡◌, ℕ, ◌<◌, [], length, map, MatchResult};
ghost use Rattle.stops.specs.Stopping.{FaultIs};
ghost use Rattle.certificate.specs.Certificates.{Cert as PlainCert, IsCert};
ghost use Rattle.certificate.specs.Text.{text_of, IsLineFault, IsNumberFault};
ghost use Rattle.certificate.specs.Answers.{IsFault, IsMemory, IsLineAt, IsNumberAt};
ghost use Rattle.certificate.specs.Words.{func_of};
ghost use Rattle.std.specs.Option.{option_map};
ghost use Rattle.certificate.specs.Reading.{unit_of};
ghost use Rattle.text_lines.specs.Cuts.{words, capped};
ghost use Rattle.certificate.specs.Steps.{HasFirst, Reading, IsWhole};
ghost use Rattle.certificate.specs.Faults.{fault_of};

use super::functions::add_line;
use super::stop::LineStop;
use super::types::{Cert, FuncCert};
use super::vectors::MOST_UNITS;
use std::alloc::Global;
use stops::Stop;
use text_lines::{first_word, further_word, next_line, number};
use thiserror::Error;

/// Why a text isn't read as a certificate.
#[derive(Clone, Copy, Debug, PartialEq, Eq, Error)]
pub enum CertFault {
    /// The line of this number, counted from 1, is the first that isn't of the text form; or the text ends in it, or
    /// before it where it is needed.
    #[error("line {number}")]
    Line { number: u64 },
    /// The line of this number is the first that isn't of the text form, and that only because a number is above its
    /// limit.
    #[error("number line {line}")]
    Number { line: u64 },
}

// The stop of the reader, of this one at this line.
fn fault_at(stop: LineStop, line: u64) -> Stop<CertFault>
    ensures { result ≡ fault_of stop line }
{
    match stop {
        LineStop::Line => Stop::Fault(CertFault::Line { number: line }),
        LineStop::Number => Stop::Fault(CertFault::Number { line }),
        LineStop::Memory => Stop::Memory,
    }
}

// What is behind the first line.
#[tactic(auto, using(crate::proofs::Stopping::first_early, crate::proofs::Stopping::first_wrong, crate::proofs::Stopping::first_read))]
fn read_first(text: &[u8]) -> Result<&[u8], CertFault>
    ensures { MatchResult result (λ rest. HasFirst text.now rest.now) (λ fault. IsFault text.now fault) }
{
    let Some((line, rest)) = next_line(text) else {
        return Err(CertFault::Line { number: 1 });
    };
    if line != b"grail certificate 1".as_slice() {
        return Err(CertFault::Line { number: 1 });
    }
    Ok(rest)
}

// The unit of the second line; `NUMBER_CAP` where it is larger.
#[tactic(auto, using(crate::proofs::Starting::no_second, crate::proofs::Starting::no_unit, crate::proofs::Starting::zero_unit, crate::proofs::Starting::other_tag, crate::proofs::Starting::more_words, crate::proofs::Starting::unit_there))]
fn read_unit(line: &[u8]) -> Option<u64>
    ensures { result ≡ option_map capped (unit_of (words line.now)) }
{
    let (tag, rest) = first_word(line);
    let Some((word, after)) = further_word(rest) else {
        return None;
    };
    if !after.is_empty() {
        return None;
    }
    if tag != b"unit".as_slice() {
        return None;
    }
    let Some(unit) = number(word) else {
        return None;
    };
    if unit == 0 {
        return None;
    }
    Some(unit)
}

// The unit, and what is behind the second line.
#[tactic(auto, using(crate::proofs::Stopping::unit_early, crate::proofs::Starting::second_wrong, crate::proofs::Starting::second_wide, crate::proofs::Starting::second_read))]
fn read_second<'a>(text: &[u8], rest: &'a [u8]) -> Result<(u64, &'a [u8]), CertFault>
    requires { HasFirst text.now rest.now }
    ensures { MatchResult result (λ p. Reading text.now p.0 [] p.1.now 3) (λ fault. IsFault text.now fault) }
{
    let Some((line, after)) = next_line(rest) else {
        return Err(CertFault::Line { number: 2 });
    };
    let Some(unit) = read_unit(line) else {
        return Err(CertFault::Line { number: 2 });
    };
    if unit > MOST_UNITS {
        return Err(CertFault::Number { line: 2 });
    }
    Ok((unit, after))
}

// The functions, up to the end of the text.
#[tactic(auto, using(crate::proofs::Stopping::line_early))]
fn read_functions(
    alloc: Global,
    text: &[u8],
    unit: u64,
    behind: &[u8],
) -> Result<Vec<FuncCert>, Stop<CertFault>>
    requires short { length text.now < 4294967296 }
    requires reading { Reading text.now unit [] behind.now 3 }
    ensures { MatchResult result (λ funcs. IsWhole text.now unit (map func_of funcs.items)) (λ stop. FaultIs (IsFault text.now) stop) }
{
    let mut funcs = Vec::new(alloc);
    let mut rest = behind;
    let mut number = 3;
    'lines: while let Some((line, after)) = next_line(rest) {
        if line == b"end".as_slice() {
            if !after.is_empty() {
                return Err(Stop::Fault(CertFault::Line { number: number + 1 }));
            }
            return Ok(funcs);
        }
        funcs = match add_line(alloc, funcs, line) {
            Ok(longer) => longer,
            Err(stop) => return Err(fault_at(stop, number)),
        };
        rest = after;
        number += 1;
    }
    Err(Stop::Fault(CertFault::Line { number }))
}

// The certificate of the text, or why there is none.
fn read_whole(alloc: Global, text: &[u8]) -> Result<Cert, Stop<CertFault>>
    requires { length text.now < 4294967296 }
    ensures { MatchResult result (λ cert. text_of cert ≡ text.now) (λ stop. FaultIs (IsFault text.now) stop) }
{
    let rest = match read_first(text) {
        Ok(rest) => rest,
        Err(fault) => return Err(Stop::Fault(fault)),
    };
    let (unit, behind) = match read_second(text, rest) {
        Ok(second) => second,
        Err(fault) => return Err(Stop::Fault(fault)),
    };
    match read_functions(alloc, text, unit, behind) {
        Ok(funcs) => Ok(Cert::new(unit, funcs)),
        Err(stop) => Err(stop),
    }
}

/// Reads the text of a certificate (`CERTIFICATES.md`), in time that is linear in its bytes. `Ok` comes exactly where
/// the text is a certificate's, and is this certificate; `Line` exactly at the first line that isn't of the text form
/// with numbers of any size, and `Number` exactly at the first line that is, but has a number above its limit.
/// [`Stop::Memory`] is no answer about the text, which has fewer than 2^32 bytes.
#[tactic(auto, using(crate::proofs::Answering::cert_same, crate::proofs::Answering::cert_fault))]
pub fn read_cert(alloc: Global, bytes: &[u8]) -> Result<Cert, Stop<CertFault>>
    requires { length bytes.now < 4294967296 }
    // What stands behind each answer.
    ensures found { MatchResult result (λ cert. text_of cert ≡ bytes.now) (λ stop. FaultIs (IsFault bytes.now) stop) }
    // The text of a certificate is read as this certificate.
    ensures read { (cert : PlainCert) → IsCert cert → text_of cert ≡ bytes.now →
        MatchResult result (λ found. found ≡ cert) (λ stop. IsMemory stop) }
    // A text with a wrong line is answered with the number of the first one.
    ensures line { (number : ℕ) → IsLineFault bytes.now number → MatchResult result (λ found. ⊥) (λ stop. IsLineAt number stop) }
    // A text with a number above its limit is answered with its line.
    ensures number { (line : ℕ) → IsNumberFault bytes.now line → MatchResult result (λ found. ⊥) (λ stop. IsNumberAt line stop) }
{
    match read_whole(alloc, bytes) {
        Ok(cert) => {
            cert.limits();
            Ok(cert)
        }
        Err(stop) => Err(stop),
    }
}

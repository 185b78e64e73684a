ghost use Rattle.std.specs.Prelude.{◌≡◌, ℕ, ◌<◌, ◌^◌, List, [], true, length, MatchResult, MatchBool};
ghost use Rattle.grail_bundle.specs.Bundles.{Bundle as PlainBundle, HasParts, IsBundle, bundle_text};
ghost use Rattle.grail_bundle.specs.Faults.{IsFault};
ghost use Rattle.grail_bundle.specs.Answers.{HasCause, IsMemory, IsAt};
ghost use Rattle.grail_bundle.specs.Lines.{Reading, IsRead};
ghost use Rattle.stops.specs.declared.stop.Stop.TheVariants.{Fault};

use crate::bundle::Bundle;
use crate::fault::BundleFault;
use crate::lines::push_line;
use memchr::memchr;
use std::alloc::Global;
use stops::Stop;
use text_lines::next_line;

// The fault of this line.
fn fault_at(line: u32) -> Stop<BundleFault>
    ensures { result ≡ Fault (record { line = line }) }
{
    Stop::Fault(BundleFault { line })
}

// Whether some code was read, and the certificate's first line follows.
fn is_end(code: &[u8], rest: &[u8]) -> bool
    ensures { MatchBool result (HasParts (record { code = code.now; cert = rest.now })) (HasParts (record { code = code.now; cert = rest.now }) → ⊥) }
{
    if code.is_empty() {
        return false;
    }
    rest.starts_with(b"grail certificate 1\n")
}

// What is behind the first line.
#[tactic(auto, using(crate::proofs::Stopping::first_early, crate::proofs::Stopping::first_wrong, crate::proofs::Stopping::first_read))]
fn read_first(text: &[u8]) -> Result<&[u8], Stop<BundleFault>>
    ensures { MatchResult result (λ rest. Reading text.now 2 true [] rest.now) (λ stop. HasCause text.now stop) }
{
    let Some((line, rest)) = next_line(text) else {
        return Err(fault_at(1));
    };
    if line != b"grail code".as_slice() {
        return Err(fault_at(1));
    }
    Ok(rest)
}

// The code of the lines of digits, and the certificate behind them.
#[tactic(auto, using(crate::proofs::Stopping::closed_stop, crate::proofs::Stopping::early_stop, crate::proofs::Stopping::line_stop, crate::proofs::Stopping::start_read, crate::proofs::Stopping::all_read, crate::proofs::Stopping::few_lines))]
fn read_lines<'a>(
    alloc: Global,
    text: &[u8],
    first: &'a [u8],
) -> Result<(Vec<u8>, &'a [u8]), Stop<BundleFault>>
    requires short { length text.now < 2 ^ 32 }
    requires first { Reading text.now 2 true [] first.now }
    ensures { MatchResult result (λ p. IsRead text.now p.0.items p.1.now) (λ stop. HasCause text.now stop) }
{
    // No digit is a `g`, with which the certificate begins: all digits stand before the first one.
    let digits = match memchr(b'g', first) {
        Some(place) => place,
        None => first.len(),
    };
    let mut code = Vec::with_capacity(alloc, digits / 2)?;
    let mut rest = first;
    let mut may_follow = true;
    let mut number: u32 = 2;
    'lines: while !is_end(&code, rest) {
        if !may_follow {
            return Err(fault_at(number));
        }
        let Some((line, behind)) = next_line(rest) else {
            return Err(fault_at(number));
        };
        let fits = push_line(&mut code, line)?;
        if !fits {
            return Err(fault_at(number));
        }
        may_follow = line.len() == 64;
        rest = behind;
        number += 1;
    }
    Ok((code, rest))
}

/// Reads the text of a bundle, in time that is linear in its bytes: the line `grail code`, lines of lower-case
/// hexadecimal digits, and a certificate from its first line on. `Ok` comes exactly where the text is a bundle's, and
/// is this bundle; [`BundleFault`] exactly where it is none, with its first wrong line; [`Stop::Memory`] where memory
/// runs out. All but the last line of digits have 64 of them, and the last one an even number from 2 to 64. Every line
/// ends with one line feed. What follows the certificate's first line isn't looked at. The text has fewer than 2^32
/// bytes.
#[tactic(auto, using(crate::proofs::Answering::error_memory, crate::proofs::Answering::error_at))]
pub fn read_bundle(alloc: Global, text: &[u8]) -> Result<Bundle, Stop<BundleFault>>
    requires { length text.now < 2 ^ 32 }
    // What stands behind each answer.
    ensures found { MatchResult result (λ bundle. text.now ≡ bundle_text bundle.code bundle.cert) (λ stop. HasCause text.now stop) }
    // The text of a bundle is read as this bundle.
    ensures bundle { (b : PlainBundle) → IsBundle b → text.now ≡ bundle_text b.code b.cert →
        MatchResult result (λ found. found ≡ b) (λ stop. IsMemory stop) }
    // A text with a wrong line is answered with the number of the first one.
    ensures fault { (line : ℕ) → IsFault text.now line → MatchResult result (λ found. ⊥) (λ stop. IsAt line stop) }
{
    let first = match read_first(text) {
        Ok(first) => first,
        Err(stop) => return Err(stop),
    };
    let (code, rest) = match read_lines(alloc, text, first) {
        Ok(read) => read,
        Err(stop) => return Err(stop),
    };
    let cert = Vec::from_slice(alloc, rest)?;
    Ok(Bundle::new(code, cert))
}

ghost use Rattle.std.specs.Prelude.{◌≡◌, ◌<◌, length, MatchResult};
ghost use Rattle.stops.specs.declared.stop.Stop.TheVariants.{Memory};
ghost use Rattle.stops.specs.Stopping.{IsFault};
ghost use Rattle.camelot_typing.specs.Typed.{Typing};
ghost use Rattle.licence.specs.Licensed.{Licensed};
ghost use Rattle.grail_verifier.specs.Accepted.{IsAccepted};
ghost use Rattle.cause_texts.specs.declared.cause.Cause.{Cause as PlainCause};
ghost use Rattle.camelot_compiler.specs.Accepted.{AreAccepted};
ghost use Rattle.camelot_compiler.specs.Compiled.{IsCompiled, Refused};
ghost use Rattle.camelot_compiler.specs.Licences.{HasLicence, IsLicensedOr};

use crate::compiling::compile;
use cause_texts::Cause;
use grail_bundle::Bundle;
use grail_verifier::{Refusal, verify};
use licence::Licence;
use std::alloc::Global;
use stops::Stop;

// A bundle with 4 GiB in one of its parts isn't asked about.
const MOST_BYTES: usize = 4_294_967_295;

// Want of memory is all that the verifier may still say of a bundle that it accepts.
fn want_of_memory(stop: Stop<Refusal>) -> Stop<Cause>
    requires { stop ≡ Memory }
    ensures { result ≡ Memory }
{
    match stop {
        Stop::Memory => Stop::Memory,
        Stop::Fault(_) => unreachable!(),
    }
}

// Asks the verifier about bytes that it accepts.
#[tactic(auto, using(crate::proofs::Accepting::is_memory, crate::proofs::Accepting::same_licence))]
fn verify_bytes(alloc: Global, code: Vec<u8>, cert: Vec<u8>) -> Result<Licence, Stop<Cause>>
    requires accepted { AreAccepted code.items cert.items }
    requires code { length code.items < 4294967296 }
    requires cert { length cert.items < 4294967296 }
    ensures { (l : Licensed) → IsAccepted code.items cert.items l → MatchResult result (λ licence. licence ≡ l) (λ x. x ≡ Memory) }
{
    match verify(alloc, code, cert) {
        Ok(licence) => Ok(licence),
        Err(stop) => Err(want_of_memory(stop)),
    }
}

// The licence of a bundle that the verifier accepts, from its bytes alone.
fn verify_bundle(alloc: Global, bundle: Bundle) -> Result<Licence, Stop<Cause>>
    requires { AreAccepted bundle.code bundle.cert }
    ensures { (l : Licensed) → IsAccepted bundle.code bundle.cert l → MatchResult result (λ licence. licence ≡ l) (λ x. x ≡ Memory) }
{
    let (code, cert) = bundle.parts();
    if code.len() > MOST_BYTES {
        return Err(Stop::Memory);
    }
    if cert.len() > MOST_BYTES {
        return Err(Stop::Memory);
    }
    verify_bytes(alloc, code, cert)
}

/// The licence of a Camelot source: its program is compiled, and the verifier is asked about the bundle's bytes. That
/// it accepts them is proved, so there is no answer for its refusing them. The text has fewer than 2^32 bytes.
///
/// # Errors
///
/// Those of [`compile`](crate::compile).
pub fn license(alloc: Global, text: &[u8]) -> Result<Licence, Stop<Cause>>
    requires { length text.now < 4294967296 }
    // What is answered is so.
    ensures found { IsLicensedOr text.now result }
    // What is so is answered, unless memory runs out.
    ensures accepts { (t : Typing) (l : Licensed) → HasLicence text.now t l → MatchResult result (λ licence. Unit {0}) (λ x. x ≡ Memory) }
    // A text that is refused for a cause has no licence, and this cause is answered, unless memory runs out.
    ensures refuses { (cause : PlainCause) → IsCompiled text.now (Refused cause) → MatchResult result (λ licence. ⊥) (IsFault cause) }
{
    match compile(alloc, text) {
        Ok(bundle) => verify_bundle(alloc, bundle),
        Err(fault) => Err(fault),
    }
}

ghost use Rattle.std.specs.Prelude.{◌≡◌, ◌<◌, ℕ, Ok, Err, Result, length, MatchResult};
ghost use Rattle.stops.specs.declared.stop.Stop.TheVariants.{Memory};
ghost use Rattle.stops.specs.Stopping.{IsFault};
ghost use Rattle.licence.specs.Licensed.{Licensed};
ghost use Rattle.grail_bundle.specs.Bundles.{Bundle as PlainBundle, IsBundle, bundle_text};
ghost use Rattle.grail_bundle.specs.Faults.{IsFault as IsLineFault};
ghost use Rattle.grail_bundle.specs.Answers.{HasCause, IsMemory, IsAt};
ghost use Rattle.grail_verifier.specs.Verdicts.{IsVerdict, VerdictIs, IsThisVerdict};
ghost use Rattle.grail_verifier.specs.declared.refusal.Refusal.{Refusal as PlainRefusal};
ghost use Rattle.cause_texts.specs.declared.cause.Cause.{Cause as PlainCause};
ghost use Rattle.bundle_licence.specs.Bundled.{HasLicence, IsRefusedFor, IsLicensedOr};
ghost use Rattle.bundle_licence.specs.Refusing.{for_cause};

use cause_texts::Cause;
use grail_bundle::{Bundle, BundleFault, read_bundle};
use grail_verifier::{Refusal, verify};
use licence::Licence;
use std::alloc::Global;
use stops::Stop;

// A refusal of the verifier is a cause.
fn for_cause(stop: Stop<Refusal>) -> Stop<Cause>
    ensures { result ≡ for_cause stop }
{
    match stop {
        Stop::Fault(refusal) => Stop::Fault(Cause::Verify(refusal)),
        Stop::Memory => Stop::Memory,
    }
}

// Reads the text of a bundle, and lets it go.
fn read_text(alloc: Global, text: Vec<u8>) -> Result<Bundle, Stop<BundleFault>>
    requires { length text.items < 4294967296 }
    ensures found { MatchResult result (λ bundle. text.items ≡ bundle_text bundle.code bundle.cert) (λ stop. HasCause text.items stop) }
    ensures bundle { (b : PlainBundle) → IsBundle b → text.items ≡ bundle_text b.code b.cert →
        MatchResult result (λ found. found ≡ b) (λ stop. IsMemory stop) }
    ensures fault { (line : ℕ) → IsLineFault text.items line → MatchResult result (λ found. ⊥) (λ stop. IsAt line stop) }
{
    read_bundle(alloc, &text)
}

// What the verifier answers of a bundle.
fn verify_bundle(alloc: Global, bundle: Bundle) -> Result<Licence, Stop<Refusal>>
    requires code { length bundle.code < 4294967296 }
    requires cert { length bundle.cert < 4294967296 }
    ensures found { VerdictIs (IsVerdict bundle.code bundle.cert) result }
    ensures exact { (verdict : Result Licensed PlainRefusal) → IsVerdict bundle.code bundle.cert verdict
        → IsThisVerdict verdict result }
{
    let (code, cert) = bundle.parts();
    verify(alloc, code, cert)
}

/// The licence of the bundle that the text is of: its code with its certificate, where the code is well formed and the
/// certificate grants it. It trusts whoever made the bundle in nothing. The text has fewer than 2^32 bytes; it is let go
/// as soon as it is read.
///
/// # Errors
///
/// [`Stop::Fault`] exactly where the text is no bundle's, with its first wrong line, or the verifier refuses the
/// bundle, with its first refusal. [`Stop::Memory`] where memory runs out.
pub fn license_bundle(alloc: Global, text: Vec<u8>) -> Result<Licence, Stop<Cause>>
    requires { length text.items < 4294967296 }
    // What is answered is so.
    ensures found { IsLicensedOr text.items result }
    // A bundle that the verifier accepts has its licence, unless memory runs out.
    ensures accepts { (l : Licensed) → HasLicence text.items l → MatchResult result (λ licence. licence ≡ l) (λ stop. stop ≡ Memory) }
    // What is refused for a cause is refused for this one, unless memory runs out.
    ensures refuses { (cause : PlainCause) → IsRefusedFor text.items cause → MatchResult result (λ licence. ⊥) (IsFault cause) }
{
    match read_text(alloc, text) {
        Ok(bundle) => {
            bundle.kept();
            match verify_bundle(alloc, bundle) {
                Ok(licence) => Ok(licence),
                Err(stop) => Err(for_cause(stop)),
            }
        }
        Err(Stop::Fault(fault)) => Err(Stop::Fault(Cause::Bundle { line: fault.line })),
        Err(Stop::Memory) => Err(Stop::Memory),
    }
}

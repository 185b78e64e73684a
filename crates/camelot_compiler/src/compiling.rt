ghost use Rattle.std.specs.Prelude.{◌≡◌, ◌<◌, length, IfOk};
ghost use Rattle.lp_constraints.specs.declared.fault.NoCert.TheVariants.{NoBound};
ghost use Rattle.cause_texts.specs.declared.cause.Cause.TheVariants as cause;
ghost use Rattle.stops.specs.declared.stop.Stop.TheVariants.{Fault};
ghost use Rattle.camelot_compiler.specs.Compiled.{Compiled, compiled_of, IsCompiled, IsSo, Answers, OfCode, HasCertificate, NoneGrants};

use crate::stages::compile_text;
use cause_texts::Cause;
use grail_bundle::Bundle;
use std::alloc::Global;
use stops::Stop;

/// The bundle of a Camelot source: the code of its program, and the certificate of least cost of those that grant the
/// code (Hofmann and Jost 2003). The text has fewer than 2^32 bytes.
///
/// # Errors
///
/// [`Stop::Fault`] where the source isn't compiled, with the first cause that there is: the text is no program, the
/// program has no types, it breaks the rule of use, a function is too large, or no certificate is found; its cause is
/// never one of bundles. [`Stop::Memory`] where memory runs out.
pub fn compile(alloc: Global, text: &[u8]) -> Result<Bundle, Stop<Cause>>
    requires { length text.now < 4294967296 }
    // What is answered is so.
    ensures found { IsSo (IsCompiled text.now) (compiled_of result) }
    // What is so is answered, unless memory runs out.
    ensures exact { (answer : Compiled) → IsCompiled text.now answer → Answers (compiled_of result) answer }
    // The verifier accepts the bundle, with the licence of the program's code and of one certificate, which is least
    // among all that grant the code, with numbers of any size.
    ensures certified { IfOk result (λ bundle. OfCode text.now (HasCertificate bundle.code bundle.cert)) }
    // Where there is said to be no bound, no certificate grants the code, with numbers of any size.
    ensures no_bound { result ≡ Err (Fault (cause.NoCert NoBound)) → OfCode text.now NoneGrants }
{
    compile_text(alloc, text)
}

//! Laws of compiling, as the contracts of functions that do nothing.
ghost use Rattle.std.specs.Prelude.{◌≡◌, ℕ, List};
ghost use Rattle.camelot_typing.specs.Typed.{Typing};
ghost use Rattle.licence.specs.Licensed.{Licensed};
ghost use Rattle.lp_constraints.specs.declared.fault.NoCert.TheVariants.{NoBound};
ghost use Rattle.cause_texts.specs.declared.cause.Cause.{Cause};
ghost use Rattle.cause_texts.specs.declared.cause.Cause.TheVariants as cause;
ghost use Rattle.camelot_compiler.specs.Compiled.{Compiled, Bundled, Refused, IsCompiled, OfCode, NoneGrants};
ghost use Rattle.camelot_compiler.specs.Licences.{HasLicence, IsCertifiedFor};

use camelot_grammar::laws::{one_answer, tokens_give_form};
use camelot_types::laws::one_verdict;
use camelot_typing::laws::law_of_one_typing;
use code_gen::laws::{law_of_compiler, law_of_limits};
use dual_simplex::{law_of_outcomes, one_run};
use linear_use::laws::rule_by_faults;
use lp_system::laws::{law_of_form, law_of_least, law_of_size};
use text_scan::laws::one_reading;

/// A text has one answer at most: one bundle or one cause, whoever compiles it. It has one licence at most, with one
/// typing of its program; and where it has a licence, there is no cause for which it is refused. Each stage has one
/// answer at most, too: the tokens of a text, their program, its settled typing, the faults of use of a typing, and the
/// run of a system of inequalities.
pub fn law_of_compiling()
    // A text is compiled to one answer at most.
    ensures one { (text : List ℕ) (first second : Compiled) → IsCompiled text first → IsCompiled text second → first ≡ second }
    // A text has one licence at most, with one typing of its program.
    ensures licence { (text : List ℕ) (t u : Typing) (l m : Licensed) → HasLicence text t l → HasLicence text u m → (t ≡ u) × (l ≡ m) }
    // A text with a licence isn't refused.
    ensures apart { (text : List ℕ) (t : Typing) (l : Licensed) (cause : Cause) → HasLicence text t l → IsCompiled text (Refused cause) → ⊥ }
{
    one_reading();
    one_answer();
    tokens_give_form();
    one_verdict();
    law_of_one_typing();
    rule_by_faults();
    law_of_compiler();
    law_of_limits();
    law_of_size();
    one_run();
}

/// The texts that a source is compiled to are accepted by the verifier, with the licence of the source, and the
/// certificate is least among all that grant the code, with numbers of any size. Where the cause of a refusal is that
/// there is no bound, no certificate grants the code of the source's program.
pub fn law_of_bundles()
    // From "the source is compiled to these texts" to the verifier's yes, and to "none costs less".
    ensures accepted { (text code cert : List ℕ) → IsCompiled text (Bundled code cert) → IsCertifiedFor text code cert }
    // From "no bound" to "none grants".
    ensures none { (text : List ℕ) → IsCompiled text (Refused (cause.NoCert NoBound)) → OfCode text NoneGrants }
{
    one_reading();
    one_answer();
    tokens_give_form();
    law_of_one_typing();
    law_of_compiler();
    law_of_limits();
    law_of_size();
    law_of_outcomes();
    law_of_least();
    law_of_form();
}

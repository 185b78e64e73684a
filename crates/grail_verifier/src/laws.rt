//! The laws of the verifier, as contracts of functions that do nothing.
ghost use Rattle.std.specs.Prelude.{◌≡◌, ℕ, ◌↔◌, List, Result, Ok};
ghost use Rattle.licence.specs.Licensed.{Licensed};
ghost use Rattle.grail_verifier.specs.Accepted.{IsAccepted};
ghost use Rattle.grail_verifier.specs.Verdicts.{IsVerdict};
ghost use Rattle.grail_verifier.specs.declared.refusal.Refusal.{Refusal};

use certificate::laws::law_of_texts;
use grail_check::laws::law_of_walk;
use grail_code::laws::one_meaning;

/// The verdict on bytes is a licence exactly where they are accepted for it, so that a yes can be read without the
/// refusals.
#[tactic(auto, using(crate::specs::AcceptedLaws::accepted_of, crate::specs::AcceptedLaws::verdict_of))]
pub fn law_of_accepting()
    // Both ways, for any bytes and any licence.
    ensures yes { (code cert : List ℕ) (l : Licensed) → IsVerdict code cert (Ok l) ↔ IsAccepted code cert l }
{}

/// Bytes have one verdict at most, whoever judges them: one licence or one refusal.
pub fn law_of_verdicts()
    // Two verdicts on the same bytes are the same.
    ensures { (code cert : List ℕ) (v w : Result Licensed Refusal) → IsVerdict code cert v → IsVerdict code cert w → v ≡ w }
{
    one_meaning();
    law_of_walk();
    law_of_texts();
}

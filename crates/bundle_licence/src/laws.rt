//! The law of licences, as the contract of a function that does nothing.
ghost use Rattle.std.specs.Prelude.{◌≡◌, ℕ, List};
ghost use Rattle.licence.specs.Licensed.{Licensed};
ghost use Rattle.cause_texts.specs.declared.cause.Cause.{Cause};
ghost use Rattle.bundle_licence.specs.Bundled.{HasLicence, IsRefusedFor};

use grail_bundle::laws::{law_of_bundles, law_of_faults};
use grail_verifier::laws::law_of_verdicts;

/// A text has one licence at most, or one cause for which it has none, and never both, whoever asks the verifier about
/// it.
pub fn law_of_licences()
    // A text has one licence at most.
    ensures one { (text : List ℕ) (l m : Licensed) → HasLicence text l → HasLicence text m → l ≡ m }
    // A text has one cause at most for which it has none.
    ensures cause { (text : List ℕ) (c d : Cause) → IsRefusedFor text c → IsRefusedFor text d → c ≡ d }
    // A text with a licence has no such cause.
    ensures apart { (text : List ℕ) (l : Licensed) (c : Cause) → HasLicence text l → IsRefusedFor text c → ⊥ }
{
    law_of_bundles();
    law_of_faults();
    law_of_verdicts();
}

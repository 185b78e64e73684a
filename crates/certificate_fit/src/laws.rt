//! Laws of certificates that fit, as the contracts of functions that do nothing.
ghost use Rattle.std.specs.Prelude.{◌≡◌, ℕ};
ghost use Rattle.grail_code.specs.Code.{Code};
ghost use Rattle.certificate.specs.Certificates.{Cert};
ghost use Rattle.licence.specs.Fitting.{Fits, IsMisfit};

/// A certificate that fits has no misfit, and one that doesn't fit has one at most.
#[tactic(auto, using(crate::specs::ShapeLaws::not_both, crate::specs::ShapeLaws::same_func, crate::specs::ShapeLaws::same_block))]
pub fn law_of_misfits()
    // A certificate that fits has no misfit.
    ensures not_both { (code : Code) (cert : Cert) (func block : ℕ) → Fits code cert → ¬ (IsMisfit code cert func block) }
    // A certificate has a misfit in one function at most.
    ensures one_func { (code : Code) (cert : Cert) (func block other another : ℕ) → IsMisfit code cert func block
        → IsMisfit code cert other another → func ≡ other }
    // It has one in one block of it at most.
    ensures one_block { (code : Code) (cert : Cert) (func block other another : ℕ) → IsMisfit code cert func block
        → IsMisfit code cert other another → block ≡ another }
{}

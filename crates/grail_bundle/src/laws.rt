//! Laws of the texts of bundles, as contracts of functions that do nothing.
ghost use Rattle.std.specs.Prelude.{◌≡◌, ℕ, List, Result, Ok};
ghost use Rattle.grail_bundle.specs.Bundles.{Bundle as PlainBundle, IsBundle, bundle_text};
ghost use Rattle.grail_bundle.specs.Faults.{IsFault};
ghost use Rattle.grail_bundle.specs.Answers.{IsAnswer, IsThis};
ghost use Rattle.stops.specs.declared.stop.Stop.{Stop};
ghost use Rattle.grail_bundle.specs.declared.fault.BundleFault.{BundleFault};

/// A text is that of one bundle at most. Whatever the reader answers to what is written of a bundle is this bundle, or
/// want of memory; and what it reads of a text is written as this text.
pub fn law_of_bundles()
    // A text is that of one bundle at most.
    ensures one { (b c : PlainBundle) → IsBundle b → IsBundle c → bundle_text b.code b.cert ≡ bundle_text c.code c.cert → b ≡ c }
    // From a bundle to its text and back.
    ensures back { (b : PlainBundle) (answer : Result PlainBundle (Stop BundleFault)) → IsBundle b →
        IsAnswer (bundle_text b.code b.cert) answer → IsThis b answer }
    // From a text to its bundle and back.
    ensures again { (text : List ℕ) (b : PlainBundle) → IsAnswer text (Ok b) → bundle_text b.code b.cert ≡ text }
{}

/// A text has one first wrong line at most, and has one exactly where it is no bundle's.
pub fn law_of_faults()
    // A text has one first wrong line at most.
    ensures one { (text : List ℕ) (m n : ℕ) → IsFault text m → IsFault text n → m ≡ n }
    // A text that is no bundle's has one.
    ensures there { (text : List ℕ) → ((b : PlainBundle) → IsBundle b → text ≡ bundle_text b.code b.cert → ⊥) → (n : ℕ) × IsFault text n }
    // A bundle's text has none.
    ensures apart { (text : List ℕ) (n : ℕ) (b : PlainBundle) → IsFault text n → IsBundle b → text ≡ bundle_text b.code b.cert → ⊥ }
{}

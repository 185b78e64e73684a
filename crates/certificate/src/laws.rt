//! Laws of the texts of certificates, as contracts of functions that do nothing.
ghost use Rattle.std.specs.Prelude.{◌≡◌, ◌<◌, ◌^◌, ℕ, List, decimal};
ghost use Rattle.certificate.specs.Certificates.{Cert as PlainCert, IsCert};
ghost use Rattle.text_lines.specs.Numbers.{number};
ghost use Rattle.certificate.specs.Text.{text_of, IsLineFault, IsNumberFault};

/// A text is that of one certificate at most. It has one wrong line, or one line with a number above its limit, and not
/// both; where it is a certificate's, it has neither.
pub fn law_of_texts()
    // A text is that of one certificate at most.
    ensures one { (c d : PlainCert) → IsCert c → IsCert d → text_of c ≡ text_of d → c ≡ d }
    // It has one first wrong line at most.
    ensures line { (text : List ℕ) (m n : ℕ) → IsLineFault text m → IsLineFault text n → m ≡ n }
    // It has one first line with a number above its limit at most.
    ensures number { (text : List ℕ) (m n : ℕ) → IsNumberFault text m → IsNumberFault text n → m ≡ n }
    // It doesn't have both.
    ensures apart { (text : List ℕ) (m n : ℕ) → IsLineFault text m → IsNumberFault text n → ⊥ }
    // A certificate's text has no wrong line.
    ensures right_line { (text : List ℕ) (n : ℕ) (c : PlainCert) → IsCert c → text_of c ≡ text → IsLineFault text n → ⊥ }
    // It has no number above its limit.
    ensures right_number { (text : List ℕ) (n : ℕ) (c : PlainCert) → IsCert c → text_of c ≡ text → IsNumberFault text n → ⊥ }
{}

/// A number of 64 bits in decimal is what std writes.
pub fn law_of_numbers()
    ensures { (n : ℕ) → n < 2 ^ 64 → number n ≡ decimal n }
{}

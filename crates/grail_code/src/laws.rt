//! Laws of the spelling of code. Each function does nothing: its clauses are the laws.

ghost use Rattle.std.specs.Prelude.{◌≡◌, ℕ, List, ◌∷◌, ◌++◌, ◌⊎◌};
ghost use Rattle.grail_code.specs.Code.{Code};
ghost use Rattle.grail_code.specs.Limits.{IsWithinLimits, HaveParams, IsNamed};
ghost use Rattle.grail_code.specs.WellFormed.{IsWellFormed};
ghost use Rattle.grail_code.specs.Spelling.{Format, First, Second, spelling, FitsCode, IsOld, Decoded, Spelled, Means};
ghost use Rattle.grail_code.specs.Decoding.{IsMigration};

/// Each text is the spelling of one code at most, in one format, and no spelling is the beginning of another.
#[tactic(auto, using(crate::proofs::SpellingMeans::one_way_only, crate::proofs::SpellingMeans::no_front))]
pub fn one_spelling()
    // What begins with a spelling begins with one only, in one format, and goes on in one way.
    ensures one_code { (f g : Format) (p q : Code) (xs ys : List ℕ)
        → FitsCode f p → FitsCode g q → spelling f p ++ xs ≡ spelling g q ++ ys → (f ≡ g) × (p ≡ q) × (xs ≡ ys) }
    // No spelling goes on to another.
    ensures no_prefix { (f g : Format) (p q : Code) (next : ℕ) (rest : List ℕ)
        → FitsCode f p → FitsCode g q → spelling f p ++ (next ∷ rest) ≡ spelling g q → ⊥ }
{}

/// Each list of bytes, of other numbers too, is one of three: the spelling of a code, the beginning of a spelling that
/// goes on, or neither from one place on.
#[tactic(auto, using(crate::proofs::SpellingMeans::means_some, crate::proofs::SpellingMeans::means_one))]
pub fn one_meaning()
    // Each list of bytes is one of the three.
    ensures some { (bytes : List ℕ) → (meaning : Decoded) × Means bytes meaning }
    // It is one of them alone.
    ensures one { (bytes : List ℕ) (first second : Decoded) → Means bytes first → Means bytes second → first ≡ second }
{}

/// Well-formed code within the limits, whose functions have parameters and whose names have their forms, is within the
/// ranges of the second format, so that it has a spelling.
#[tactic(auto, using(crate::specs::RangeLaws::within_ranges))]
pub fn law_of_ranges()
    ensures { (p : Code) → IsWellFormed p → IsWithinLimits p → HaveParams p → IsNamed p → FitsCode Second p }
{}

/// Code within the ranges has exactly one spelling as `GRL2`, and one as `GRL1` exactly where it has nothing that the
/// first format lacks: no division, no mark of a parameter, and no arm that only looks at its cell. It has no others,
/// and other code has none.
#[tactic(auto, using(crate::proofs::SpellingMeans::spelled_second, crate::proofs::SpellingMeans::spelled_first))]
pub fn law_of_formats()
    // Code within the ranges has a spelling in the second format.
    ensures second { (p : Code) → FitsCode Second p → Means (spelling Second p) (Spelled p) }
    // Where it has nothing that the first format lacks, it has one there too.
    ensures first { (p : Code) → FitsCode Second p → IsOld p → Means (spelling First p) (Spelled p) }
    // Bytes that spell the code are the former, or the latter where it has nothing that the first format lacks.
    ensures only { (p : Code) (bytes : List ℕ) → Means bytes (Spelled p)
        → (bytes ≡ spelling Second p) ⊎ ((bytes ≡ spelling First p) × IsOld p) }
    // The code that bytes spell is within the ranges.
    ensures within { (p : Code) (bytes : List ℕ) → Means bytes (Spelled p) → FitsCode Second p }
{}

/// Migrating changes the spelling alone: the code stays the same, and so does what it means, which is a function of the
/// code. What was migrated is migrated to itself.
#[tactic(auto, using(crate::proofs::SpellingMeans::migration_keeps, crate::proofs::SpellingMeans::migration_again, crate::proofs::SpellingMeans::migration_of_second))]
pub fn law_of_migration()
    // What was migrated spells the same code.
    ensures kept { (p : Code) (bytes migrated : List ℕ) → Means bytes (Spelled p) → IsMigration bytes migrated → Means migrated (Spelled p) }
    // It isn't changed by migrating it again.
    ensures again { (bytes migrated further : List ℕ) → IsMigration bytes migrated → IsMigration migrated further → further ≡ migrated }
    // Code in the second format isn't changed by migrating it.
    ensures second { (p : Code) (migrated : List ℕ) → FitsCode Second p → IsMigration (spelling Second p) migrated → migrated ≡ spelling Second p }
{}

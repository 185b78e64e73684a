ghost use Rattle.std.specs.Prelude.{◌≡◌, ◌≢◌, ◌<◌, ℕ, ◌⊎◌, IsTrue, true};
ghost use Rattle.std.specs.Int.{bit_at};
ghost use Rattle.grail_check.specs.Faulting.{is_among};
ghost use Rattle.grail_check.specs.Sets.{Has, HasAll, MayHaveAll};

/// A set of numbers below 256, a bit for each: the locals of a function.
#[derive(Clone, Copy, Debug)]
pub(crate) struct LocalSet {
    words: [u64; 4],
}

// The word with this bit.
#[tactic(auto, using(crate::proofs::SetLaws::set_same, crate::proofs::SetLaws::set_other))]
fn with_bit(word: u64, bit: u32) -> u64
    requires { bit < 64 }
    ensures same { bit_at result bit ≡ 1 }
    ensures other { (i : ℕ) → i ≢ bit → bit_at result i ≡ bit_at word i }
{
    word | 1 << bit
}

// The word without this bit.
#[tactic(auto, using(crate::proofs::SetLaws::clear_same, crate::proofs::SetLaws::clear_other))]
fn without_bit(word: u64, bit: u32) -> u64
    requires { bit < 64 }
    ensures same { bit_at result bit ≡ 0 }
    ensures other { (i : ℕ) → i < 64 → i ≢ bit → bit_at result i ≡ bit_at word i }
{
    word & !(1 << bit)
}

impl LocalSet {
    /// The empty set.
    pub(crate) fn none() -> LocalSet
        ensures { (x : ℕ) → Has result.words x → ⊥ }
    {
        LocalSet { words: [0; 4] }
    }

    /// Adds the number where it is below 256, and tells whether it is.
    pub(crate) fn insert(&mut self, number: u32) -> bool
        ensures keeps { (x : ℕ) → Has self.old.words x → Has self.new.words x }
        ensures adds { IsTrue result → Has self.new.words number }
        ensures only { (x : ℕ) → Has self.new.words x → (x ≡ number) ⊎ Has self.old.words x }
    {
        let place = (number / 64) as usize;
        if place < 4 {
            self.words[place] = with_bit(self.words[place], number % 64);
            true
        } else {
            false
        }
    }

    /// Takes the number away.
    pub(crate) fn remove(&mut self, number: u32)
        ensures { (x : ℕ) → Has self.new.words x → Has self.old.words x × (x ≢ number) }
    {
        let place = (number / 64) as usize;
        if place < 4 {
            self.words[place] = without_bit(self.words[place], number % 64);
        }
    }

    /// Whether the other set has all numbers of this one. It takes the time of a few words.
    pub(crate) fn is_within(&self, other: &LocalSet) -> bool
        ensures { IsTrue result → (x : ℕ) → Has self.now.words x → Has other.now.words x }
    {
        'words: for place in 0..4 {
            if self.words[place] | other.words[place] != other.words[place] {
                return false;
            }
        }
        true
    }

    /// Adds these numbers, where they are below 256.
    pub(crate) fn extend(&mut self, numbers: &[u32])
        ensures { (x : ℕ) → Has self.new.words x → (is_among numbers.now x ≡ true) ⊎ Has self.old.words x }
    {
        'numbers: for number in numbers {
            self.insert(*number);
        }
    }

    /// The set of these numbers, where all are below 256.
    pub(crate) fn of(numbers: &[u32]) -> Option<LocalSet>
        ensures { MayHaveAll result numbers.now }
    {
        let mut set = LocalSet::none();
        'numbers: for number in numbers {
            if !set.insert(*number) {
                return None;
            }
        }
        Some(set)
    }
}

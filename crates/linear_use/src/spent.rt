//! The variables that are spent on the way.
ghost use Rattle.std.specs.Prelude.{◌≡◌, ℕ, ◌≤◌, ◌<◌, ◌^◌, [], ◌∷◌, ◌++◌, length, take, drop, reverse, slice_index, Some, OnOk, MatchOption};
ghost use Rattle.linear_use.specs.Flow.{is_spent};

use std::alloc::{AllocError, Global};
use std::marker::Model;

/// The numbers of the variables that are spent, in the order of their uses, and how often each stands among them. So a
/// test is one look-up, and the last uses can be taken off again.
#[derive(Drop)]
pub(crate) struct Spent {
    counts: Vec<usize>,
    log: Vec<usize>,
}

impl Model for Spent {
    ghost use Rattle.std.specs.Prelude.{ℕ, List};
    ghost use Rattle.linear_use.specs.Counted.{AreCounted};

    ghost Value = { List ℕ };

    ghost view = { λ spent. spent.log.items };

    ghost invariant = { λ spent. AreCounted spent.counts.items spent.log.items };
}

/// Uses that were taken off, the last one first.
#[derive(Drop)]
pub(crate) struct Held {
    numbers: Vec<usize>,
}

impl Model for Held {
    ghost use Rattle.std.specs.Prelude.{ℕ, List, reverse};

    ghost Value = { List ℕ };

    ghost view = { λ held. reverse held.numbers.items };
}

impl Held {
    /// No uses.
    pub(crate) fn new(alloc: Global) -> Held
        ensures { result ≡ [] }
    {
        Held {
            numbers: Vec::new(alloc),
        }
    }

    // A use stands before those that were taken off earlier.
    fn add(&mut self, number: usize) -> Result<(), AllocError>
        ensures { OnOk result (self.new ≡ number ∷ self.old) }
    {
        self.numbers.push(number)?;
        Ok(())
    }

    // The first of the uses.
    fn next(&mut self) -> Option<usize>
        ensures { MatchOption result (self.old ≡ []) (λ number. self.old ≡ number ∷ self.new) }
    {
        self.numbers.pop()
    }
}

// A count for this number; numbers that weren't counted stand for zero.
#[tactic(auto, using(crate::proofs::Counts::pushed_same))]
fn grow(counts: &mut Vec<usize>, number: usize) -> Result<(), AllocError>
    ensures within { OnOk result (number < length counts.new.items) }
    ensures same { (x : ℕ) → slice_index counts.new.items x ≡ slice_index counts.old.items x }
{
    while counts.len() <= number {
        counts.push(0)?;
    }
    Ok(())
}

impl Spent {
    /// No variable is spent.
    pub(crate) fn new(alloc: Global) -> Spent
        ensures { result ≡ [] }
    {
        Spent {
            counts: Vec::new(alloc),
            log: Vec::new(alloc),
        }
    }

    /// A count for the variable of this number. So there are no more variables than a vector may have items.
    #[tactic(auto, using(crate::proofs::Counts::counted_same))]
    pub(crate) fn count(&mut self, number: usize) -> Result<(), AllocError>
        ensures same { OnOk result (self.new ≡ self.old) }
        ensures small { OnOk result (number < 2 ^ 63) }
    {
        grow(&mut self.counts, number)?;
        let _counts = self.counts.len();
        Ok(())
    }

    /// Whether the variable of this number is spent.
    pub(crate) fn contains(&self, number: usize) -> bool
        ensures { result ≡ is_spent number self.now }
    {
        match self.counts.get(number) {
            Some(count) => *count > 0,
            None => false,
        }
    }

    /// A use of the variable of this number.
    #[tactic(auto, using(crate::proofs::Counts::counted_same, crate::proofs::Counts::counted_more))]
    pub(crate) fn spend(&mut self, number: usize) -> Result<(), AllocError>
        ensures { OnOk result (self.new ≡ self.old ++ number ∷ []) }
    {
        grow(&mut self.counts, number)?;
        self.log.push(number)?;
        let _uses = self.log.len();
        self.counts[number] += 1;
        Ok(())
    }

    /// How many uses there are.
    pub(crate) fn len(&self) -> usize
        ensures { result ≡ length self.now }
    {
        self.log.len()
    }

    // Takes the last use off.
    #[tactic(auto, using(crate::proofs::Counts::counted_within, crate::proofs::Counts::counted_last, crate::proofs::Counts::counted_less))]
    fn take_last(&mut self) -> Option<usize>
        ensures { MatchOption result (self.old ≡ []) (λ number. self.old ≡ self.new ++ number ∷ []) }
    {
        let number = self.log.pop()?;
        self.counts[number] -= 1;
        Some(number)
    }

    /// Takes all uses but the first `len` off, in front of those that are held.
    #[tactic(auto, using(crate::proofs::Counts::take_popped, crate::proofs::Counts::drop_popped, crate::proofs::Counts::take_all, crate::proofs::Counts::drop_all))]
    pub(crate) fn hold(&mut self, len: usize, held: &mut Held) -> Result<(), AllocError>
        ensures left { OnOk result (self.new ≡ take len self.old) }
        ensures held { OnOk result (held.new ≡ drop len self.old ++ held.old) }
    {
        while self.len() > len {
            let Some(number) = self.take_last() else {
                return Ok(());
            };
            held.add(number)?;
        }
        Ok(())
    }

    /// Puts what was taken off behind the other uses.
    pub(crate) fn put_back(&mut self, held: Held) -> Result<(), AllocError>
        ensures { OnOk result (self.new ≡ self.old ++ held) }
    {
        let mut held = held;
        while let Some(number) = held.next() {
            self.spend(number)?;
        }
        Ok(())
    }
}

ghost use Rattle.std.specs.Prelude.{◌≡◌, ◌&&◌, IsTrue, List, nat_eq};
ghost use Rattle.camelot_values.specs.Kinds.{DataType};
ghost use Rattle.annotations.specs.Vectors.{Vector as Pairs};
ghost use Rattle.grail_verifier.specs.Remembered.{IsPassed, IsSound};

use std::alloc::Global;
use std::collections::BTreeSet;
use std::marker::Model;

/// Pairs of annotations, by their numbers, with a type, of which the first were found to be at least the second: those
/// that came last, by the number of the second, and those that are kept.
#[derive(Drop)]
pub(crate) struct Memo {
    last: Vec<((u32, u32), u32)>,
    passed: BTreeSet<((u32, u32), u32)>,
}

impl Model for Memo {
    ghost use Rattle.std.specs.Prelude.{List, ◌++◌};
    ghost use Rattle.grail_verifier.specs.Remembered.{Passed};

    ghost Value = { List Passed };

    ghost view = { λ m. m.last.items ++ m.passed.keys };
}

// So many times that the annotations of number 0 are at least themselves; nothing where memory runs out.
fn themselves(alloc: Global, count: usize) -> Vec<((u32, u32), u32)>
    ensures { (types : List DataType) (all : List Pairs) → IsSound types all result.items }
{
    match Vec::from_elem(alloc, ((0, 0), 0), count) {
        Ok(last) => last,
        Err(_) => Vec::new(alloc),
    }
}

// Whether the pair is this one.
fn is_pair(pair: &((u32, u32), u32), have: u32, need: u32, number: u32) -> bool
    ensures { result ≡ ((nat_eq pair.now.0.0 have && nat_eq pair.now.0.1 need) && nat_eq pair.now.1 number) }
{
    pair.0.0 == have && pair.0.1 == need && pair.1 == number
}

impl Memo {
    /// Nothing remembered, where annotations have so many numbers.
    pub(crate) fn new(alloc: Global, count: usize) -> Memo
        ensures { (types : List DataType) (all : List Pairs) → IsSound types all result }
    {
        Memo {
            last: themselves(alloc, count),
            passed: BTreeSet::new(alloc),
        }
    }

    /// Whether this is what was last put down of the second annotations.
    pub(crate) fn is_last(&self, have: u32, need: u32, number: u32) -> bool
        ensures { (types : List DataType) (all : List Pairs) → IsSound types all self.now → IsTrue result → IsPassed types all ((have, need), number) }
    {
        match self.last.get(need as usize) {
            Some(last) => is_pair(last, have, need, number),
            None => false,
        }
    }

    /// Puts this down, in place of what was there of the second annotations.
    pub(crate) fn put_last(&mut self, have: u32, need: u32, number: u32)
        ensures { (types : List DataType) (all : List Pairs) → IsSound types all self.old
            → IsPassed types all ((have, need), number) → IsSound types all self.new }
    {
        if (need as usize) < self.last.len() {
            self.last[need as usize] = ((have, need), number);
        }
    }

    /// Whether this is kept.
    pub(crate) fn has(&self, have: u32, need: u32, number: u32) -> bool
        ensures { (types : List DataType) (all : List Pairs) → IsSound types all self.now → IsTrue result → IsPassed types all ((have, need), number) }
    {
        self.passed.contains(&((have, need), number))
    }

    /// Keeps this, or, where memory runs out, doesn't.
    pub(crate) fn add(&mut self, have: u32, need: u32, number: u32)
        ensures { (types : List DataType) (all : List Pairs) → IsSound types all self.old
            → IsPassed types all ((have, need), number) → IsSound types all self.new }
    {
        let _known = self.passed.insert(((have, need), number));
    }
}

//! Names with their numbers.
ghost use Rattle.std.specs.Prelude.{◌≡◌, ℕ, ◌<◌, List, [], ◌∷◌, ◌++◌, length, map, not, if◌then◌else◌, IfSome, IfOk, OnErr, IsTrue};
ghost use Rattle.camelot_values.specs.Names.{stands, place_among};

use std::alloc::{AllocError, Global};
use std::collections::BTreeMap;
use std::marker::Model;

/// Names, each once, numbered from zero in the order in which they were added.
#[derive(Drop)]
pub struct Names<'a> {
    words: Vec<&'a [u8]>,
    places: BTreeMap<&'a [u8], usize>,
}

impl<'a> Model for Names<'a> {
    ghost use Rattle.std.specs.Prelude.{ℕ, List, map};
    ghost use Rattle.camelot_names.specs.Kept.{ArePlaces};

    ghost Value = { List (List ℕ) };

    ghost view = { λ names. map (λ word. word.now) names.words.items };

    ghost invariant = { λ names. ArePlaces names.places (map (λ word. word.now) names.words.items) };
}

impl<'a> Names<'a> {
    /// No names, which takes no memory.
    pub fn new(alloc: Global) -> Names<'a>
        ensures { result ≡ [] }
    {
        Names {
            words: Vec::new(alloc),
            places: BTreeMap::new(alloc),
        }
    }

    /// Adds a name unless it stands already, and answers whether it is new; a new one gets the next number. It fails
    /// for want of memory alone.
    pub fn add(&mut self, name: &'a [u8]) -> Result<bool, AllocError>
        // A name is new exactly where it didn't stand.
        ensures new { IfOk result (λ new. new ≡ not (stands self.old name.now)) }
        // A new name is the last one now; else all names are as they were.
        ensures names { IfOk result (λ new. self.new ≡ (if new then self.old ++ name.now ∷ [] else self.old)) }
        // Where memory runs out the names are as they were.
        ensures kept { OnErr result (self.new ≡ self.old) }

        // A name that stands is never refused.
        ensures absent { OnErr result (IsTrue (not (stands self.old name.now))) }
    {
        // Room first, so that nothing has changed where memory runs out.
        if self.words.reserve(1).is_err() {
            if self.places.contains_key(name) {
                return Ok(false);
            }
            return Err(AllocError);
        }
        // One search tells whether the name stands. Where it does, its place is put back.
        let number = self.words.len();
        match self.places.insert(name, number) {
            Ok(None) => {
                self.words.push(name).unwrap();
                Ok(true)
            }
            Ok(Some(place)) => {
                let _number = self.places.insert(name, place);
                Ok(false)
            }
            Err(_) => Err(AllocError),
        }
    }

    /// The number of a name, if it stands.
    pub fn number(&self, name: &[u8]) -> Option<usize>
        // It is the place of the name among the names, and None exactly where it doesn't stand.
        ensures number { result ≡ place_among self.now name.now }
        // A number is below the number of names.
        ensures within { IfSome result (λ i. i < length self.now) }
    {
        self.places.get(name).copied()
    }

    /// How many names there are.
    pub fn len(&self) -> usize
        ensures { result ≡ length self.now }
    {
        self.words.len()
    }
}

ghost use Rattle.std.specs.Prelude.{◌≡◌, []};
ghost use Rattle.annotations.specs.Vectors.{IsVector, at};
ghost use Rattle.annotations.specs.Steps.{IsFound};

use smallvec::SmallVec;
use std::alloc::Global;
use std::marker::Model;

/// Annotations: constructors by their numbers, ascending, each with its units, at least 1. A constructor that isn't
/// there has none (Hofmann and Jost 2003). One pair takes no memory of its own.
#[derive(Drop)]
pub struct Vector {
    pairs: SmallVec<(u32, u64), 1>,
}

impl Model for Vector {
    ghost use Rattle.annotations.specs.Vectors.{Vector as Pairs, IsVector};

    ghost Value = { Pairs };

    ghost view = { λ v. v.pairs.items };

    ghost invariant = { λ v. IsVector v.pairs.items };
}

impl Vector {
    /// These annotations, constructors ascending and units at least 1.
    pub fn of(pairs: SmallVec<(u32, u64), 1>) -> Vector
        requires { IsVector pairs.items }
        ensures { result ≡ pairs.items }
    {
        Vector { pairs }
    }

    /// No units on any constructor. It takes no memory.
    pub fn none(alloc: Global) -> Vector
        ensures { result ≡ [] }
    {
        Vector {
            pairs: SmallVec::new(alloc),
        }
    }

    /// The constructors with their units, ascending.
    pub fn pairs(&self) -> &[(u32, u64)]
        ensures { result.now ≡ self.now }
    {
        &self.pairs
    }

    /// The order of the constructors, and that units are at least 1. It does nothing; its clause is what whoever holds
    /// a `Vector` can use.
    pub fn limits(&self)
        ensures { IsVector self.now }
    {
        let _ = &self.pairs;
    }

    /// The units of the constructor of this number; what isn't there has none.
    pub fn at(&self, con: u32) -> u64
        ensures { result ≡ at self.now con }
    {
        match self.search(con) {
            Ok(place) => self.pairs()[place].1,
            Err(_) => 0,
        }
    }

    // The place of the constructor, or the one where it would go.
    fn search(&self, con: u32) -> Result<usize, usize>
        ensures { IsFound self.now con result }
    {
        self.pairs.binary_search_by_key(&con, |&(con, _)| con)
    }
}

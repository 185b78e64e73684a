ghost use Rattle.std.specs.Prelude.{◌≡◌, length, slice_get, map};
ghost use Rattle.std.specs.Option.{option_map};
ghost use Rattle.grail_verifier.specs.Numbered.{held, func_in};

use annotations::Vector;
use certificate::FuncCert;
use std::alloc::{AllocError, Global};
use std::marker::Model;

// The highest number of annotations.
const MOST_NUMBER: usize = 4_294_967_295;

/// A local, by its number, and the number of its annotations.
#[derive(Clone, Copy)]
pub(crate) struct VarLine {
    pub(crate) var: u32,
    pub(crate) number: u32,
}

/// What a block needs, and the annotations of its parameters.
#[derive(Drop)]
pub(crate) struct BlockLines {
    pub(crate) block: u32,
    pub(crate) need: u64,
    pub(crate) vars: Vec<VarLine>,
}

/// A build, by its place in a block, and the number of its annotations.
#[derive(Clone, Copy)]
pub(crate) struct MakeLine {
    pub(crate) block: u32,
    pub(crate) place: u32,
    pub(crate) number: u32,
}

/// The lines of a function.
#[derive(Drop)]
pub(crate) struct FuncLines<'a> {
    pub(crate) cert: &'a FuncCert,
    pub(crate) need: u64,
    pub(crate) back: u64,
    pub(crate) params: Vec<VarLine>,
    pub(crate) result: u32,
    pub(crate) blocks: Vec<BlockLines>,
    pub(crate) makes: Vec<MakeLine>,
}

/// Annotations by their numbers.
#[derive(Drop)]
pub(crate) struct Held<'a> {
    vectors: Vec<&'a Vector>,
}

impl<'a> Model for Held<'a> {
    ghost use Rattle.std.specs.Prelude.{List, map};
    ghost use Rattle.annotations.specs.Vectors.{Vector as Pairs};

    ghost Value = { List Pairs };

    ghost view = { λ h. map (λ v. v.now) h.vectors.items };
}

impl<'a> Held<'a> {
    ghost use Rattle.std.specs.Prelude.{[], ◌∷◌, ◌++◌, length, IfOk, OnOk, Some};
    ghost use Rattle.grail_verifier.specs.Numbered.{Keeps};

    /// No annotations.
    pub(crate) fn new(alloc: Global) -> Held<'a>
        ensures { result ≡ [] }
    {
        Held {
            vectors: Vec::new(alloc),
        }
    }

    /// Adds annotations, and answers their number. `AllocError` where memory runs out, or all numbers of 32 bits: no
    /// text of fewer than 2^32 bytes has as many annotations.
    pub(crate) fn add(&mut self, vector: &'a Vector) -> Result<u32, AllocError>
        ensures number { IfOk result (λ number. number ≡ length self.old) }
        ensures held { IfOk result (λ number. slice_get self.new number ≡ Some vector.now) }
        ensures keeps { OnOk result (Keeps self.old self.new) }
    {
        let number = self.vectors.len();
        if number > MOST_NUMBER {
            return Err(AllocError);
        }
        self.vectors.push(vector)?;
        Ok(number as u32)
    }

    /// How many numbers there are.
    pub(crate) fn count(&self) -> usize
        ensures { result ≡ length self.now }
    {
        self.vectors.len()
    }

    /// The annotations of this number.
    pub(crate) fn get(&self, number: u32) -> Option<&'a Vector>
        ensures { option_map (λ v. v.now) result ≡ slice_get self.now number }
    {
        self.vectors.get(number as usize).copied()
    }
}

/// The lines of a certificate, with numbers in place of annotations, and these by their numbers.
#[derive(Drop)]
pub(crate) struct NumberedCert<'a> {
    pub(crate) unit: u64,
    pub(crate) held: Held<'a>,
    pub(crate) none: &'a Vector,
    pub(crate) funcs: Vec<FuncLines<'a>>,
}

impl<'a> Model for NumberedCert<'a> {
    ghost use Rattle.std.specs.Prelude.{◌≡◌, []};
    ghost use Rattle.grail_verifier.specs.Numbered.{Numbered, numbered};

    ghost Value = { Numbered };

    ghost view = { λ c. numbered c.unit c.held c.funcs.items };

    ghost invariant = { λ c. c.none.now ≡ [] };
}

impl<'a> NumberedCert<'a> {
    /// How many units one cell is.
    pub(crate) fn unit(&self) -> u64
        ensures { result ≡ self.now.cert.unit }
    {
        self.unit
    }

    /// How many numbers of annotations there are.
    pub(crate) fn count(&self) -> usize
        ensures { result ≡ length self.now.held }
    {
        self.held.count()
    }

    /// The annotations of this number; none where there are none of it.
    #[tactic(auto, using(crate::proofs::Keeping::held_some, crate::proofs::Keeping::held_none))]
    pub(crate) fn get(&self, number: u32) -> &'a Vector
        ensures { result.now ≡ held self.now.held number }
    {
        match self.held.get(number) {
            Some(vector) => vector,
            None => self.none,
        }
    }

    /// The lines of the function of this number.
    pub(crate) fn func(&self, number: u32) -> Option<&FuncLines<'a>>
        ensures { option_map (λ f. func_in self.now.held f.now) result ≡ slice_get self.now.cert.funcs number }
    {
        self.funcs.get(number as usize)
    }
}

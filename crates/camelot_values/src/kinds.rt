ghost use Rattle.std.specs.Prelude.{◌≡◌, ◌≤◌, ℕ, List, length, ◌↔◌, IfOk, IsOk, IsTrue};
ghost use Rattle.std.specs.Option.{option_map};
ghost use Rattle.camelot_values.specs.Kinds.{data_type_of};
ghost use Rattle.camelot_values.specs.Heap.{has_boxed};

use super::reach::{MOST_TYPES, leads};
use smallvec::SmallVec;
use std::alloc::{AllocError, Global};
use std::fmt::{self, Display, Formatter};
use std::marker::Model;

/// A name: its bytes. One of at most 16 bytes takes no memory of its own.
#[derive(Debug, Drop)]
pub struct Word {
    bytes: SmallVec<u8, 16>,
}

impl Model for Word {
    ghost use Rattle.std.specs.Prelude.{ℕ, List};

    ghost Value = { List ℕ };

    ghost view = { λ w. w.bytes.items };
}

impl Word {
    /// The name of these bytes; `AllocError` where memory runs out, which a name of at most 16 bytes doesn't take.
    pub fn new(alloc: Global, bytes: &[u8]) -> Result<Word, AllocError>
        // The name has just these bytes.
        ensures word { IfOk result (λ word. word ≡ bytes.now) }
        // A short name is never refused.
        ensures short { length bytes.now ≤ 16 → IsOk result }
    {
        Ok(Word {
            bytes: SmallVec::from_slice(alloc, bytes)?,
        })
    }

    /// The bytes of the name.
    pub fn bytes(&self) -> &[u8]
        ensures { result.now ≡ self.now }
    {
        &self.bytes
    }

    /// The same name in memory of its own; `AllocError` where memory runs out.
    pub fn copy(&self, alloc: Global) -> Result<Word, AllocError>
        ensures { IfOk result (λ copy. copy ≡ self.now) }
    {
        Word::new(alloc, self.bytes())
    }
}

impl Display for Word {
    fn fmt<W: fmt::Write>(&self, f: &mut Formatter<W>) -> fmt::Result {
        write!(f, "{}", self.bytes().escape_ascii())
    }
}

/// What sort of values a variable, a field or a result has.
#[derive(Clone, Copy, Debug, PartialEq, Eq)]
pub enum Kind {
    /// An int of 32 bits.
    Int,
    /// A truth value.
    Flag,
    /// A diamond.
    Dia,
    /// A value of the type with this number.
    Of(u32),
}

/// A constructor of a type. An inline one needs no cell and has no fields.
#[derive(Debug, Drop)]
pub struct Con {
    pub name: Word,
    pub inline: bool,
    pub fields: Vec<Kind>,
}

/// A type with its constructors.
#[derive(Debug, Drop)]
pub struct TypeDef {
    pub name: Word,
    pub cons: Vec<Con>,
}

/// The types of a program. Constructors are numbered through all types in order, from 0.
#[derive(Debug, Drop)]
pub struct Types {
    defs: Vec<TypeDef>,
}

impl Model for Types {
    ghost use Rattle.std.specs.Prelude.{List, map};
    ghost use Rattle.camelot_values.specs.Kinds.{DataType, data_type_of, AreTypes};

    ghost Value = { List DataType };

    ghost view = { λ t. map data_type_of t.defs.items };

    ghost invariant = { λ t. AreTypes (map data_type_of t.defs.items) };
}

// Whether some constructor of the type needs a cell.
fn has_boxed(def: &TypeDef) -> bool
    ensures { result ≡ has_boxed (data_type_of def.now) }
{
    'cons: for con in &def.cons {
        if !con.inline {
            return true;
        }
    }
    false
}

impl Types {
    ghost use Rattle.std.specs.Prelude.{map};
    ghost use Rattle.camelot_values.specs.Kinds.{data_type_of, constructor_of, AreTypes, constructor, type_of, place_of};
    ghost use Rattle.camelot_values.specs.Heap.{is_heap, Reaches};

    /// These types: at most 64, each with 1 to 64 constructors of at most 4 fields.
    pub fn new(defs: Vec<TypeDef>) -> Types
        requires { AreTypes (map data_type_of defs.items) }
        ensures { result ≡ map data_type_of defs.items }
    {
        Types { defs }
    }

    /// The types in order.
    pub fn defs(&self) -> &[TypeDef]
        ensures { map data_type_of result.now ≡ self.now }
    {
        &self.defs
    }

    /// The limits that the type keeps: at most 64 types, each with 1 to 64 constructors of at most 4 fields, and an
    /// inline constructor has no fields. It does nothing; its clause is what whoever holds a `Types` can use.
    pub fn limits(&self)
        ensures { AreTypes self.now }
    {
        let _ = &self.defs;
    }

    /// The constructor of this number, or None where there is no such number.
    #[tactic(auto, using(crate::proofs::KindLaws::con_here, crate::proofs::KindLaws::con_later))]
    pub fn con(&self, con: u32) -> Option<&Con>
        ensures { option_map (λ c. constructor_of c.now) result ≡ constructor self.now con }
    {
        let mut place = con as usize;
        'types: for def in &self.defs {
            if place < def.cons.len() {
                return Some(&def.cons[place]);
            }
            place -= def.cons.len();
        }
        None
    }

    /// The number of the type that the constructor of this number belongs to, or None where there is no such number.
    #[tactic(auto, using(crate::proofs::KindLaws::type_here, crate::proofs::KindLaws::type_later))]
    pub fn type_of(&self, con: u32) -> Option<u32>
        ensures { result ≡ type_of self.now con }
    {
        let mut place = con as usize;
        let mut number = 0;
        'types: for def in &self.defs {
            if place < def.cons.len() {
                return Some(number);
            }
            place -= def.cons.len();
            number += 1;
        }
        None
    }

    /// The place of the constructor of this number among those of its type, or None where there is no such number.
    #[tactic(auto, using(crate::proofs::KindLaws::place_here, crate::proofs::KindLaws::place_later))]
    pub fn place_of(&self, con: u32) -> Option<u32>
        ensures { result ≡ place_of self.now con }
    {
        let mut place = con;
        'types: for def in &self.defs {
            if (place as usize) < def.cons.len() {
                return Some(place);
            }
            place -= def.cons.len() as u32;
        }
        None
    }

    /// Whether values of this kind take cells, so that a variable of it may be used at most once: a diamond, or a
    /// type with a boxed constructor. A kind whose type isn't there is none.
    pub fn is_heap(&self, kind: Kind) -> bool
        ensures { result ≡ is_heap self.now kind }
    {
        match kind {
            Kind::Int | Kind::Flag => false,
            Kind::Dia => true,
            Kind::Of(number) => match self.defs.get(number as usize) {
                Some(def) => has_boxed(def),
                None => false,
            },
        }
    }

    /// Whether the constructor of this number belongs to a heap type that stands in this kind itself or in its fields,
    /// followed to the end. A kind whose type isn't there reaches nothing.
    #[tactic(auto, using(crate::proofs::SearchLaws::is_within_types, crate::proofs::SearchLaws::reaches_none, crate::proofs::SearchLaws::reaches_inline, crate::proofs::SearchLaws::reaches_nowhere, crate::proofs::SearchLaws::reaches_by))]
    pub fn reaches(&self, kind: Kind, con: u32) -> bool
        ensures { IsTrue result ↔ Reaches self.now kind con }
    {
        let types = &self.defs;
        let Kind::Of(first) = kind else {
            return false;
        };
        let Some(last) = self.type_of(con) else {
            return false;
        };
        if first as usize >= MOST_TYPES {
            return false;
        }
        if !self.is_heap(Kind::Of(last)) {
            return false;
        }
        leads(types, first as usize, last as usize)
    }
}

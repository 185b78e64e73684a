//! Scopes: what a name means, by its innermost binding.
ghost use Rattle.std.specs.Prelude.{◌≡◌, ℕ, ◌-◌, ◌<◌, List, [], ◌∷◌, length, drop, IsSome, OnOk, OnErr};
ghost use Rattle.std.specs.Map.{update};
ghost use Rattle.std.specs.Str.{bytes_eq};
ghost use Rattle.camelot_names.specs.Kept.{at_name};
ghost use Rattle.camelot_values.specs.Names.{find};

use std::alloc::{AllocError, Global};
use std::collections::BTreeMap;
use std::marker::Model;

// A name that is bound, and what it meant before, where it meant something.
#[derive(Drop)]
struct Binding<'a, T: Copy> {
    name: &'a [u8],
    value: T,
    hidden: Option<T>,
}

/// Bindings of names, each hiding what its name meant before. The map has the names that are bound, and no others.
#[derive(Drop)]
pub struct Scope<'a, T: Copy> {
    words: BTreeMap<&'a [u8], T>,
    bindings: Vec<Binding<'a, T>>,
}

impl<'a, T: Copy> Model for Scope<'a, T> {
    ghost use Rattle.std.specs.Prelude.{List, map, reverse};
    ghost use Rattle.camelot_names.specs.Kept.{bound, IsKept};
    ghost use Rattle.camelot_values.specs.Names.{Binder};

    ghost Value = { List (Binder T) };

    ghost view = { λ scope. map bound (reverse scope.bindings.items) };

    ghost invariant = { λ scope. IsKept scope.words (reverse scope.bindings.items) };
}

impl<'a, T: Copy> Scope<'a, T> {
    /// A scope in which no name is bound, which takes no memory.
    pub fn new(alloc: Global) -> Scope<'a, T>
        ensures { result ≡ [] }
    {
        Scope {
            words: BTreeMap::new(alloc),
            bindings: Vec::new(alloc),
        }
    }

    /// Binds a name, which hides what it meant before. It fails for want of memory alone.
    pub fn bind(&mut self, name: &'a [u8], value: T) -> Result<(), AllocError>
        // At Ok the name stands for this value, in front of what it meant before.
        ensures bound { OnOk result (self.new ≡ record { name = name.now; is = value } ∷ self.old) }
        // Where memory runs out the scope is as it was.
        ensures kept { OnErr result (self.new ≡ self.old) }
    {
        // Room first, so that nothing has changed where memory runs out.
        self.bindings.reserve(1)?;
        let hidden = self.words.insert(name, value)?;
        let binding = Binding {
            name,
            value,
            hidden,
        };
        self.bindings.push(binding).unwrap();
        Ok(())
    }

    /// What a name means: what its innermost binding binds it to.
    pub fn find(&self, name: &[u8]) -> Option<T>
        ensures { result ≡ find self.now name.now }
    {
        self.words.get(name).copied()
    }

    /// How many bindings there are.
    pub fn len(&self) -> usize
        ensures { result ≡ length self.now }
    {
        self.bindings.len()
    }

    /// Takes bindings off, the innermost first, until `len` are left. It takes no memory.
    pub fn leave(&mut self, len: usize)
        ensures { self.new ≡ drop (length self.old - len) self.old }
    {
        while self.len() > len {
            self.unbind();
        }
    }

    // Takes off the innermost binding.
    fn unbind(&mut self)
        requires { 0 < length self.old }
        ensures { self.new ≡ drop 1 self.old }
    {
        let binding = self.bindings.pop().unwrap();
        restore(&mut self.words, binding.name, binding.hidden);
    }
}

// What a name meant before: it is taken out where it meant nothing.
fn restore<'a, T: Copy>(words: &mut BTreeMap<&'a [u8], T>, name: &'a [u8], hidden: Option<T>)
    requires { IsSome (at_name words.old name.now) }
    ensures { (other : List ℕ) → at_name words.new other ≡ update bytes_eq (at_name words.old) name.now hidden other }
{
    match hidden {
        Some(value) => {
            let _now = words.insert(name, value);
        }
        None => {
            let _now = words.remove(name);
        }
    }
}

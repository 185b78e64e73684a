//! The walk of expressions: what it keeps, and its smallest steps.

ghost use Rattle.std.specs.Prelude.{◌≡◌, ◌++◌, ◌∷◌, [], OnOk};
ghost use Rattle.camelot_values.specs.Names.{find};
ghost use Rattle.camelot_types.specs.Tables.{globals_view};
ghost use Rattle.camelot_types.specs.Solving.{Goes, name_found, made_same, noted};
ghost use Rattle.camelot_types.specs.Doing.{Gives, Leaves, Finds};
ghost use Rattle.camelot_types.specs.Working.{work_of};

use crate::fault::TypeFault;
use crate::globals::Globals;
use crate::guess::Guess;
use crate::names::unknown_name;
use crate::table::make_same;
use camelot_names::Scope;
use camelot_tree::{Name, Rooms};
use std::alloc::Global;
use stops::Stop;

/// The walk between two expressions: the names in scope, the table of unknowns, the atoms of the expressions so far,
/// and room for left ends.
#[derive(Drop)]
pub(crate) struct Walker<'a> {
    pub(crate) alloc: Global,
    pub(crate) scope: Scope<'a, Guess>,
    pub(crate) table: Vec<Guess>,
    pub(crate) atoms: Vec<Guess>,
    pub(crate) rooms: Rooms<'a>,
}

impl<'a> Walker<'a> {
    /// What a name means.
    #[tactic(auto, unfolding(crate::specs::Solving::name_found))]
    pub(crate) fn name(&self, name: &Name) -> Result<Guess, Stop<TypeFault>>
        ensures { Gives (name_found (find self.now.scope name.now.word) name.now) result }
    {
        match self.scope.find(name.word.bytes()) {
            Some(guess) => Ok(guess),
            None => Err(unknown_name(self.alloc, name)),
        }
    }

    /// Makes two guesses the same.
    #[inline(always)]
    pub(crate) fn same(
        &mut self,
        globals: &Globals<'_, '_>,
        left: Guess,
        right: Guess,
        line: u32,
    ) -> Result<(), Stop<TypeFault>>
        ensures done { Leaves (made_same (globals_view globals.now).types self.old.table.items left right line) self.new.table.items result }
        ensures atoms { self.new.atoms.items ≡ self.old.atoms.items }
        ensures scope { self.new.scope ≡ self.old.scope }
    {
        make_same(
            self.alloc,
            globals.types,
            &mut self.table,
            left,
            right,
            line,
        )
    }

    /// Notes the atom of an expression behind those of its parts.
    #[tactic(auto, unfolding(crate::specs::Solving::noted))]
    pub(crate) fn note(&mut self, guess: Guess) -> Result<Guess, Stop<TypeFault>>
        ensures noted { Finds (Goes (noted (work_of self.old) guess)) (work_of self.new) result }
        ensures scope { self.new.scope ≡ self.old.scope }
    {
        self.atoms.push(guess)?;
        Ok(guess)
    }
}

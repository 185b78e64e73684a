//! Constructors by their numbers.

ghost use Rattle.std.specs.Prelude.{◌≡◌, ◌<◌, ◌^◌, IfOk};
ghost use Rattle.camelot_values.specs.Kinds.{constructor_of, constructor, type_of};
ghost use Rattle.camelot_typing.specs.Kinds.{constructor_number, fields_of, is_inline, head_of};
ghost use Rattle.camelot_types.specs.Walk.{con_guess, cons_of_type};
ghost use Rattle.camelot_types.specs.Tables.{globals_view, head_view};
ghost use Rattle.camelot_types.specs.Solving.{con_found};
ghost use Rattle.camelot_types.specs.Doing.{Gives};
ghost use Rattle.std.specs.Option.{option_map};

use crate::facts::ConFact;
use crate::fault::TypeFault;
use crate::globals::{FunHead, Globals};
use crate::guess::Guess;
use crate::names::unknown_name;
use camelot_tree::Name;
use camelot_values::Kind;
use std::alloc::Global;
use stops::Stop;

/// The kinds of a constructor's fields.
pub(crate) fn fields_of<'g>(globals: &'g Globals<'_, '_>, con: u32) -> &'g [Kind]
    ensures { result.now ≡ fields_of (globals_view globals.now).types con }
{
    match globals.fact(con) {
        Some(fact) => &fact.con.fields,
        None => &[],
    }
}

/// Whether a constructor needs no cell.
pub(crate) fn is_inline(globals: &Globals<'_, '_>, con: u32) -> bool
    ensures { result ≡ is_inline (globals_view globals.now).types con }
{
    match globals.fact(con) {
        Some(fact) => fact.con.inline,
        None => false,
    }
}

/// The guess for a constructor's values: the kind of its type.
pub(crate) fn con_guess(globals: &Globals<'_, '_>, con: u32) -> Guess
    ensures { result ≡ con_guess (globals_view globals.now).types con }
{
    match globals.fact(con) {
        Some(fact) => Guess::Known(Kind::Of(fact.owner)),
        None => Guess::Known(Kind::Int),
    }
}

impl Globals<'_, '_> {
    /// The constructor of this number, with its type.
    #[tactic(auto, using(crate::proofs::FactLaws::fact_con, crate::proofs::FactLaws::fact_owner))]
    pub(crate) fn fact(&self, con: u32) -> Option<&ConFact<'_>>
        ensures con { option_map (λ f. constructor_of f.now.con.now) result ≡ constructor (globals_view self.now).types con }
        ensures owner { option_map (λ f. f.now.owner) result ≡ type_of (globals_view self.now).types con }
    {
        self.facts.get(con as usize)
    }

    /// The number of the constructor of this name.
    #[tactic(auto, unfolding(crate::specs::Solving::con_found))]
    pub(crate) fn con(&self, alloc: Global, name: &Name) -> Result<u32, Stop<TypeFault>>
        ensures { Gives (con_found (globals_view self.now).types name.now (constructor_number (globals_view self.now).types name.now.word)) result }
    {
        match self.cons.number(name.word.bytes()) {
            Some(number) => Ok(number as u32),
            None => Err(unknown_name(alloc, name)),
        }
    }

    /// The numbers of the constructors that are of one type with this one.
    #[tactic(auto, using(crate::proofs::Siblings::siblings_there, crate::proofs::Siblings::siblings_past, crate::proofs::Siblings::siblings_none))]
    pub(crate) fn siblings(&self, con: u32) -> &[u32]
        ensures { result.now ≡ cons_of_type (globals_view self.now).types con }
    {
        match self.fact(con) {
            Some(fact) => match self.numbers.get(fact.owner as usize) {
                Some(numbers) => numbers,
                None => &[],
            },
            None => &[],
        }
    }

    /// The function of this name.
    #[tactic(auto, using(crate::proofs::Finding::head_found, crate::proofs::Finding::head_missing))]
    pub(crate) fn head(&self, name: &Name) -> Option<&FunHead<'_>>
        ensures { option_map (λ h. head_view h.now) result ≡ head_of (globals_view self.now).heads name.now.word }
    {
        match self.funs.number(name.word.bytes()) {
            Some(number) => self.heads.get(number),
            None => None,
        }
    }
}

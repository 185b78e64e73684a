ghost use Rattle.std.specs.Prelude.{◌≡◌, ◌<◌, ◌^◌, length, map};
ghost use Rattle.camelot_values.specs.Kinds.{constructors};
ghost use Rattle.camelot_types.specs.Facts.{fact_of, facts_from, numbers_from_type};

use crate::facts::ConFact;
use crate::guess::Guess;
use camelot_names::Names;
use camelot_values::Types;

/// What is known of a function: its name, and guesses of the kinds of its parameters and its result.
#[derive(Drop)]
pub(crate) struct FunHead<'a> {
    pub(crate) name: &'a [u8],
    pub(crate) params: Vec<Guess>,
    pub(crate) result: Guess,
}

/// What the walk of bodies knows of the whole program: its types and functions, with their names' numbers.
#[derive(Drop)]
pub(crate) struct Globals<'t, 'p> {
    pub(crate) types: &'t Types,
    pub(crate) cons: Names<'p>,
    pub(crate) funs: Names<'p>,
    pub(crate) heads: Vec<FunHead<'p>>,
    /// Each constructor with its type, by its number.
    pub(crate) facts: Vec<ConFact<'t>>,
    /// The numbers of the constructors of each type.
    pub(crate) numbers: Vec<Vec<u32>>,
    ghost con_names: { cons ≡ map (λ c. c.name) (constructors types.now) },
    ghost few_cons: { length cons < 2 ^ 32 },
    ghost con_facts: { map fact_of facts.items ≡ facts_from 0 types.now },
    ghost type_numbers: { map (λ v. v.items) numbers.items ≡ numbers_from_type 0 types.now },
    ghost fun_names: { funs ≡ map (λ h. h.name.now) heads.items },
}

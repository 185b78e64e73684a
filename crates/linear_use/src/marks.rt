//! Which parameters of a function are lent.
ghost use Rattle.std.specs.Prelude.{◌≡◌, [], slice_get};
ghost use Rattle.std.specs.Option.{option_map};
ghost use Rattle.linear_use.specs.Uses.{lent_params, is_read_here, reads_behind, some_lent};
ghost use Rattle.linear_use.specs.Walk.{loans_in};

use crate::known::Known;
use camelot_tree::{FunDecl, Param};
use camelot_typing::{FunKinds, Typed};
use camelot_values::{Kind, Types};

/// The parameters of a function with their kinds, or those of its last ones.
#[derive(Clone, Copy)]
pub(crate) struct Marks<'a> {
    pub(crate) params: &'a [Param],
    pub(crate) kinds: &'a [Kind],
}

impl<'a> Marks<'a> {
    /// No parameters.
    pub(crate) fn new() -> Marks<'a>
        ensures params { result.params.now ≡ [] }
        ensures kinds { result.kinds.now ≡ [] }
    {
        Marks {
            params: &[],
            kinds: &[],
        }
    }

    /// Whether the first parameter is lent.
    pub(crate) fn first(&self, types: &Types) -> bool
        ensures { result ≡ is_read_here (lent_params types.now self.now.params.now self.now.kinds.now) }
    {
        match self.params {
            [param, ..] => match self.kinds {
                [kind, ..] => param.read && types.is_heap(*kind),
                [] => false,
            },
            [] => false,
        }
    }

    /// The parameters behind the first one.
    pub(crate) fn behind(&self, types: &Types) -> Marks<'a>
        ensures { lent_params types.now result.params.now result.kinds.now
            ≡ reads_behind (lent_params types.now self.now.params.now self.now.kinds.now) }
    {
        match self.params {
            [_, params @ ..] => match self.kinds {
                [_, kinds @ ..] => Marks { params, kinds },
                [] => Marks::new(),
            },
            [] => Marks::new(),
        }
    }
}

// The function of this number.
fn function_at(typed: &Typed, number: usize) -> Option<&FunDecl>
    ensures { option_map (λ f. f.now) result ≡ slice_get typed.now.program.funs.items number }
{
    typed.program.funs.get(number)
}

// The kinds of the function of this number.
fn kinds_at(typed: &Typed, number: usize) -> Option<&FunKinds>
    ensures { option_map (λ k. k.now) result ≡ slice_get typed.now.funs.items number }
{
    typed.funs.get(number)
}

/// The parameters of the function of this name, of which there are none where there is no such function.
pub(crate) fn marks_of<'a>(known: &Known<'a, '_>, name: &[u8]) -> Marks<'a>
    ensures { lent_params known.now.typed.now.types result.params.now result.kinds.now ≡ loans_in known.now.typed.now name.now }
{
    let typed: &'a Typed = known.typed;
    let Some(number) = known.funs.number(name) else {
        return Marks::new();
    };
    let Some(decl) = function_at(typed, number) else {
        return Marks::new();
    };
    let Some(kinds) = kinds_at(typed, number) else {
        return Marks::new();
    };
    Marks {
        params: &decl.params,
        kinds: &kinds.params,
    }
}

/// Whether some parameter is lent.
pub(crate) fn some_lent(types: &Types, params: &[Param], kinds: &[Kind]) -> bool
    ensures { result ≡ some_lent (lent_params types.now params.now kinds.now) }
{
    'params: for (param, kind) in params.iter().zip(kinds) {
        let lent = param.read && types.is_heap(*kind);
        if lent {
            return true;
        }
    }
    false
}

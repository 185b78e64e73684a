//! The kinds that the walk leaves for guesses.

ghost use Rattle.std.specs.Prelude.{◌≡◌, map, IfOk};
ghost use Rattle.camelot_typing.specs.Typed.{kinds_of};
ghost use Rattle.camelot_types.specs.Tables.{head_view};
ghost use Rattle.camelot_types.specs.Solving.{closed, settled, settled_funs, fresh};

use crate::globals::FunHead;
use crate::guess::Guess;
use crate::table::looked_up;
use camelot_typing::FunKinds;
use camelot_values::Kind;
use std::alloc::{AllocError, Global};

// The kind that the table leaves for a guess: `int` where nothing fixes it.
fn settled(table: &[Guess], guess: Guess) -> Kind
    ensures { result ≡ settled table.now guess }
{
    match looked_up(table, guess) {
        Guess::Known(kind) => kind,
        Guess::Unknown(_) => Kind::Int,
    }
}

fn settled_all(alloc: Global, table: &[Guess], guesses: &[Guess]) -> Result<Vec<Kind>, AllocError>
    ensures { IfOk result (λ kinds. kinds.items ≡ map (settled table.now) guesses.now) }
{
    let mut kinds = Vec::with_capacity(alloc, guesses.len())?;
    'guesses: for guess in guesses {
        kinds.push(settled(table, *guess))?;
    }
    Ok(kinds)
}

fn settled_fun(
    alloc: Global,
    table: &[Guess],
    head: &FunHead<'_>,
    atoms: &[Guess],
) -> Result<FunKinds, AllocError>
    ensures { IfOk result (λ kinds. kinds_of kinds
        ≡ record {
          params = map (settled table.now) (head_view head.now).params;
          result = settled table.now
              (head_view head.now).result;
          exprs = map (settled table.now) atoms.now;
        }) }
{
    Ok(FunKinds {
        params: settled_all(alloc, table, &head.params)?,
        result: settled(table, head.result),
        exprs: settled_all(alloc, table, atoms)?,
    })
}

/// The kinds of all functions, whose bodies' expressions have these atoms.
#[tactic(auto, unfolding(crate::specs::Solving::settled_funs))]
pub(crate) fn settled_funs(
    alloc: Global,
    table: &[Guess],
    heads: &[FunHead<'_>],
    atoms: &[Vec<Guess>],
) -> Result<Vec<FunKinds>, AllocError>
    ensures { IfOk result (λ kinds. map kinds_of kinds.items ≡ settled_funs table.now (map head_view heads.now) (map (λ v. v.items) atoms.now)) }
{
    let mut kinds = Vec::new(alloc);
    'heads: for (index, head) in heads.iter().enumerate() {
        let Some(atoms) = atoms.get(index) else {
            return Ok(kinds);
        };
        kinds.push(settled_fun(alloc, table, head, atoms)?)?;
    }
    Ok(kinds)
}

/// A table of so many unknowns, each of which stands for itself.
#[tactic(auto, using(crate::proofs::Looping::fresh_more))]
pub(crate) fn fresh(alloc: Global, count: u32) -> Result<Vec<Guess>, AllocError>
    ensures { IfOk result (λ table. table.items ≡ fresh 0 count) }
{
    let mut table = Vec::new(alloc);
    'numbers: for number in 0..count {
        table.push(Guess::Unknown(number))?;
    }
    Ok(table)
}

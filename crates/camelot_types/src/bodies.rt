//! The bodies of functions, one after the other over one table of unknowns.

ghost use Rattle.std.specs.Prelude.{◌≡◌, ◌++◌, [], OnOk, IfErr, map};
ghost use Rattle.camelot_tree.specs.Tree.{function_of};
ghost use Rattle.camelot_typing.specs.Typing.{params_scope};
ghost use Rattle.camelot_types.specs.Tables.{globals_view, head_view};
ghost use Rattle.camelot_types.specs.Solving.{body_walked, bodies_on};
ghost use Rattle.camelot_types.specs.Ending.{FindsBody, FindsBodies};
ghost use Rattle.stops.specs.declared.stop.Stop.TheVariants.{Memory};

use crate::builds::line_of;
use crate::fault::TypeFault;
use crate::globals::{FunHead, Globals};
use crate::guess::Guess;
use crate::walker::Walker;
use camelot_names::Scope;
use camelot_tree::{FunDecl, Param, Rooms};
use std::alloc::Global;
use stops::Stop;

/// The table behind a body, and the atoms of its expressions.
#[derive(Drop)]
pub(crate) struct BodyWork {
    pub(crate) table: Vec<Guess>,
    pub(crate) atoms: Vec<Guess>,
}

/// The table behind all bodies, and the atoms of each.
#[derive(Drop)]
pub(crate) struct BodiesWork {
    pub(crate) table: Vec<Guess>,
    pub(crate) atoms: Vec<Vec<Guess>>,
}

impl<'a> Walker<'a> {
    // Binds parameters, the first one innermost.
    fn bind_params(&mut self, params: &'a [Param], guesses: &[Guess]) -> Result<(), Stop<TypeFault>>
        ensures memory { IfErr result (λ stop. stop ≡ Memory) }
        ensures scope { OnOk result (self.new.scope ≡ params_scope params.now guesses.now ++ self.old.scope) }
        ensures table { self.new.table.items ≡ self.old.table.items }
        ensures atoms { self.new.atoms.items ≡ self.old.atoms.items }
    {
        let [param, params @ ..] = params else {
            return Ok(());
        };
        let [guess, guesses @ ..] = guesses else {
            return Ok(());
        };
        self.bind_params(params, guesses)?;
        self.scope.bind(param.name.word.bytes(), *guess)?;
        Ok(())
    }
}

// The body of a function.
#[tactic(auto, unfolding(crate::specs::Solving::body_walked))]
fn walk_body(
    alloc: Global,
    globals: &Globals<'_, '_>,
    table: Vec<Guess>,
    fun: &FunDecl,
    head: &FunHead<'_>,
) -> Result<BodyWork, Stop<TypeFault>>
    ensures { FindsBody (body_walked (globals_view globals.now) (function_of fun.now) (head_view head.now) table.items) result }
{
    let mut walker = Walker {
        alloc,
        scope: Scope::new(alloc),
        table,
        atoms: Vec::new(alloc),
        rooms: Rooms::new(alloc),
    };
    walker.bind_params(&fun.params, &head.params)?;
    let guess = walker.expr(globals, &fun.body)?;
    walker.same(globals, guess, head.result, line_of(&fun.body))?;
    Ok(BodyWork {
        table: walker.table,
        atoms: walker.atoms,
    })
}

/// The bodies of all functions.
#[tactic(auto, unfolding(crate::specs::Solving::bodies_on))]
pub(crate) fn walk_bodies(
    alloc: Global,
    globals: &Globals<'_, '_>,
    table: Vec<Guess>,
    funs: &[FunDecl],
) -> Result<BodiesWork, Stop<TypeFault>>
    ensures { FindsBodies (bodies_on (globals_view globals.now) table.items [] (map function_of funs.now) (globals_view globals.now).heads) result }
{
    let mut work = BodiesWork {
        table,
        atoms: Vec::new(alloc),
    };
    'funs: for (index, fun) in funs.iter().enumerate() {
        let Some(head) = globals.heads.get(index) else {
            return Ok(work);
        };
        match walk_body(alloc, globals, work.table, fun, head) {
            Ok(body) => {
                work.table = body.table;
                work.atoms.push(body.atoms)?;
            }
            Err(stop) => return Err(stop),
        }
    }
    Ok(work)
}

//! Builds and calls, behind their arguments.

ghost use Rattle.std.specs.Prelude.{◌≡◌, map, is_some, Some, None};
ghost use Rattle.std.specs.Option.{option_map};
ghost use Rattle.camelot_values.specs.Names.{find};
ghost use Rattle.camelot_tree.specs.Tree.{expression_of, expressions};
ghost use Rattle.camelot_types.specs.Tables.{globals_view, head_view};
ghost use Rattle.camelot_types.specs.Walk.{line_of};
ghost use Rattle.camelot_types.specs.Solving.{place_found, place_made, all_same, built, called, lines_of};
ghost use Rattle.camelot_types.specs.Doing.{Gives, Leaves};
ghost use Rattle.camelot_types.specs.declared.guess.Guess.TheVariants.{Known};

use crate::constructors::{fields_of, is_inline};
use crate::fault::TypeFault;
use crate::globals::{FunHead, Globals};
use crate::guess::Guess;
use crate::names::{check_arity, check_place, unknown_name};
use crate::walker::Walker;
use camelot_tree::{Expr, Name};
use camelot_values::Kind;
use stops::Stop;

/// The line of an expression's first token; a `let` counts with that of its name.
pub(crate) fn line_of(expr: &Expr) -> u32
    ensures { result ≡ line_of (expression_of expr.now) }
{
    match expr {
        Expr::Num { line, .. }
        | Expr::Truth { line, .. }
        | Expr::Prim { line, .. }
        | Expr::If { line, .. }
        | Expr::Match { line, .. } => *line,
        Expr::Var(name) => name.line,
        Expr::Let { name, .. } => name.line,
        Expr::Build(build) => build.con.line,
        Expr::Call(call) => call.fun.line,
    }
}

impl Walker<'_> {
    // The guess for the diamond that a build names, where it names one.
    #[tactic(auto, unfolding(crate::specs::Solving::place_found))]
    fn place(&self, place: &Option<Name>) -> Result<Option<Guess>, Stop<TypeFault>>
        ensures { Gives (place_found self.now.scope place.now) result }
    {
        match place {
            Some(name) => Ok(Some(self.name(name)?)),
            None => Ok(None),
        }
    }

    // Makes what a build names a diamond.
    #[tactic(auto, unfolding(crate::specs::Solving::place_made))]
    fn same_place(
        &mut self,
        globals: &Globals<'_, '_>,
        place: &Option<Name>,
        guess: Option<Guess>,
    ) -> Result<(), Stop<TypeFault>>
        ensures done { Leaves (place_made (globals_view globals.now).types self.old.table.items place.now guess) self.new.table.items result }
        ensures atoms { self.new.atoms.items ≡ self.old.atoms.items }
        ensures scope { self.new.scope ≡ self.old.scope }
    {
        match (place, guess) {
            (Some(name), Some(guess)) => {
                self.same(globals, guess, Guess::Known(Kind::Dia), name.line)
            }
            _ => Ok(()),
        }
    }

    // Makes the guesses of arguments the same as those of parameters, from left to right.
    #[tactic(auto, unfolding(crate::specs::Solving::all_same))]
    fn same_params(
        &mut self,
        globals: &Globals<'_, '_>,
        args: &[Expr],
        guesses: &[Guess],
        needed: &[Guess],
    ) -> Result<(), Stop<TypeFault>>
        ensures done { Leaves (all_same (globals_view globals.now).types self.old.table.items
            (lines_of (expressions (map expression_of args.now))) guesses.now needed.now) self.new.table.items result }
        ensures atoms { self.new.atoms.items ≡ self.old.atoms.items }
        ensures scope { self.new.scope ≡ self.old.scope }
    {
        let [arg, args @ ..] = args else {
            return Ok(());
        };
        let [guess, guesses @ ..] = guesses else {
            return Ok(());
        };
        let [need, needed @ ..] = needed else {
            return Ok(());
        };
        self.same(globals, *guess, *need, line_of(arg))?;
        self.same_params(globals, args, guesses, needed)
    }

    // Makes the guesses of arguments the same as the kinds of fields, from left to right.
    #[tactic(auto, unfolding(crate::specs::Solving::all_same))]
    fn same_fields(
        &mut self,
        globals: &Globals<'_, '_>,
        args: &[Expr],
        guesses: &[Guess],
        needed: &[Kind],
    ) -> Result<(), Stop<TypeFault>>
        ensures done { Leaves (all_same (globals_view globals.now).types self.old.table.items
            (lines_of (expressions (map expression_of args.now))) guesses.now
            (map Known needed.now)) self.new.table.items result }
        ensures atoms { self.new.atoms.items ≡ self.old.atoms.items }
        ensures scope { self.new.scope ≡ self.old.scope }
    {
        let [arg, args @ ..] = args else {
            return Ok(());
        };
        let [guess, guesses @ ..] = guesses else {
            return Ok(());
        };
        let [need, needed @ ..] = needed else {
            return Ok(());
        };
        self.same(globals, *guess, Guess::Known(*need), line_of(arg))?;
        self.same_fields(globals, args, guesses, needed)
    }

    /// A build of this constructor, whose arguments have these guesses.
    #[tactic(auto, unfolding(crate::specs::Solving::built))]
    pub(crate) fn build(
        &mut self,
        globals: &Globals<'_, '_>,
        name: &Name,
        con: u32,
        args: &[Expr],
        guesses: &[Guess],
        place: &Option<Name>,
    ) -> Result<(), Stop<TypeFault>>
        ensures done { Leaves (built (globals_view globals.now).types self.old.scope self.old.table.items name.now
            con (lines_of (expressions (map expression_of args.now))) guesses.now place.now) self.new.table.items
            result }
        ensures atoms { self.new.atoms.items ≡ self.old.atoms.items }
        ensures scope { self.new.scope ≡ self.old.scope }
    {
        let fields = fields_of(globals, con);
        check_arity(self.alloc, name, guesses.len(), fields.len())?;
        check_place(self.alloc, name, is_inline(globals, con), place.is_some())?;
        let diamond = self.place(place)?;
        self.same_fields(globals, args, guesses, fields)?;
        self.same_place(globals, place, diamond)
    }

    /// A call of this function, whose arguments have these guesses.
    #[tactic(auto, unfolding(crate::specs::Solving::called))]
    pub(crate) fn call(
        &mut self,
        globals: &Globals<'_, '_>,
        name: &Name,
        head: Option<&FunHead<'_>>,
        args: &[Expr],
        guesses: &[Guess],
    ) -> Result<(), Stop<TypeFault>>
        ensures done { Leaves (called (globals_view globals.now).types self.old.table.items name.now
            (lines_of (expressions (map expression_of args.now))) guesses.now
            (option_map (λ h. head_view h.now) head.entry)) self.new.table.items result }
        ensures atoms { self.new.atoms.items ≡ self.old.atoms.items }
        ensures scope { self.new.scope ≡ self.old.scope }
    {
        let Some(head) = head else {
            return Err(unknown_name(self.alloc, name));
        };
        check_arity(self.alloc, name, guesses.len(), head.params.len())?;
        self.same_params(globals, args, guesses, &head.params)
    }
}

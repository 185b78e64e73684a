//! What stands before the body of an arm, and arms that are missing.

ghost use Rattle.std.specs.Prelude.{◌≡◌, ◌++◌, map, OnOk, IfOk, IfErr, Some};
ghost use Rattle.camelot_typing.specs.Kinds.{field_names, cell_names, bound_names, bind_fields, bind_cell, arm_scope, constructor_number};
ghost use Rattle.camelot_types.specs.Tables.{globals_view};
ghost use Rattle.camelot_types.specs.Walk.{cons_of_type};
ghost use Rattle.camelot_tree.specs.Cells.{has_cell};
ghost use Rattle.camelot_types.specs.Solving.{Stops, headed, missing_checked};
ghost use Rattle.camelot_types.specs.Doing.{StopsWith, Allows, Leaves};
ghost use Rattle.camelot_values.specs.Kinds.{constructor_name};
ghost use Rattle.camelot_types.specs.declared.fault.TypeFault.TheVariants.{MissingArm};
ghost use Rattle.stops.specs.declared.stop.Stop.TheVariants.{Memory};
ghost use Rattle.camelot_types.specs.declared.guess.Guess.TheVariants.{Known};

use crate::constructors::{fields_of, is_inline};
use crate::fault::TypeFault;
use crate::globals::Globals;
use crate::guess::Guess;
use crate::names::{check_arity, check_names, check_place, check_repeat};
use crate::table::word;
use crate::walker::Walker;
use camelot_tree::{Arm, ArmCell, Name};
use camelot_values::Kind;
use std::alloc::{AllocError, Global};
use stops::Stop;

// Whether an `@` stands in an arm.
fn has_cell(cell: &ArmCell) -> bool
    ensures { result ≡ has_cell cell.now }
{
    match cell {
        ArmCell::Plain => false,
        _ => true,
    }
}

// The names that an arm binds, in text order.
fn bound_names<'n>(
    alloc: Global,
    fields: &'n [Option<Name>],
    cell: &'n ArmCell,
) -> Result<Vec<&'n Name>, AllocError>
    ensures { IfOk result (λ names. map (λ n. n.now) names.items ≡ bound_names fields.now cell.now) }
{
    let mut names = Vec::new(alloc);
    'fields: for field in fields {
        if let Some(name) = field {
            names.push(name)?;
        }
    }
    if let ArmCell::Keep(name) = cell {
        names.push(name)?;
    }
    Ok(names)
}

/// The constructor of an arm, and the guess of its body.
#[derive(Clone, Copy)]
pub(crate) struct BodyGuess {
    pub(crate) con: u32,
    pub(crate) guess: Guess,
}

impl<'a> Walker<'a> {
    /// The head of an arm, behind arms of these constructors: two guesses are the same, one of them for the
    /// constructor's type.
    #[tactic(auto, unfolding(crate::specs::Solving::headed))]
    pub(crate) fn head(
        &mut self,
        globals: &Globals<'_, '_>,
        earlier: &[u32],
        left: Guess,
        right: Guess,
        con: u32,
        arm: &Arm,
    ) -> Result<(), Stop<TypeFault>>
        ensures done { Leaves (headed (globals_view globals.now).types self.old.table.items earlier.now left right
            arm.now.con con arm.now.fields.items arm.now.cell) self.new.table.items result }
        ensures atoms { self.new.atoms.items ≡ self.old.atoms.items }
        ensures scope { self.new.scope ≡ self.old.scope }
    {
        check_repeat(self.alloc, &arm.con, con, earlier)?;
        self.same(globals, left, right, arm.con.line)?;
        let need = fields_of(globals, con).len();
        check_arity(self.alloc, &arm.con, arm.fields.len(), need)?;
        let inline = is_inline(globals, con);
        check_place(self.alloc, &arm.con, inline, has_cell(&arm.cell))?;
        let names = bound_names(self.alloc, &arm.fields, &arm.cell)?;
        check_names(self.alloc, &names)
    }

    // Binds the names of an arm's fields.
    fn bind_fields(
        &mut self,
        fields: &'a [Option<Name>],
        kinds: &[Kind],
    ) -> Result<(), Stop<TypeFault>>
        ensures memory { IfErr result (λ stop. stop ≡ Memory) }
        ensures scope { OnOk result (self.new.scope ≡ bind_fields Known fields.now kinds.now self.old.scope) }
        ensures table { self.new.table.items ≡ self.old.table.items }
        ensures atoms { self.new.atoms.items ≡ self.old.atoms.items }
    {
        let [field, fields @ ..] = fields else {
            return Ok(());
        };
        let [kind, kinds @ ..] = kinds else {
            return Ok(());
        };
        if let Some(name) = field {
            self.scope.bind(name.word.bytes(), Guess::Known(*kind))?;
        }
        self.bind_fields(fields, kinds)
    }

    // Binds the name of an arm's cell.
    fn bind_cell(&mut self, cell: &'a ArmCell) -> Result<(), Stop<TypeFault>>
        ensures memory { IfErr result (λ stop. stop ≡ Memory) }
        ensures scope { OnOk result (self.new.scope ≡ bind_cell Known cell.now self.old.scope) }
        ensures table { self.new.table.items ≡ self.old.table.items }
        ensures atoms { self.new.atoms.items ≡ self.old.atoms.items }
    {
        if let ArmCell::Keep(name) = cell {
            self.scope.bind(name.word.bytes(), Guess::Known(Kind::Dia))?;
        }
        Ok(())
    }

    /// Binds the names of an arm of this constructor.
    pub(crate) fn bind_arm(
        &mut self,
        globals: &Globals<'_, '_>,
        con: u32,
        arm: &'a Arm,
    ) -> Result<(), Stop<TypeFault>>
        requires { constructor_number (globals_view globals.now).types arm.now.con.word ≡ Some con }
        ensures memory { IfErr result (λ stop. stop ≡ Memory) }
        ensures scope { OnOk result (self.new.scope ≡ arm_scope Known
            (globals_view globals.now).types arm.now.con arm.now.fields.items arm.now.cell self.old.scope) }
        ensures table { self.new.table.items ≡ self.old.table.items }
        ensures atoms { self.new.atoms.items ≡ self.old.atoms.items }
    {
        self.bind_fields(&arm.fields, fields_of(globals, con))?;
        self.bind_cell(&arm.cell)
    }

    // The fault of a match without an arm for this constructor.
    fn missing(&self, globals: &Globals<'_, '_>, con: u32, line: u32) -> Stop<TypeFault>
        ensures { StopsWith {A = Unit {0}} (Stops (MissingArm (constructor_name (globals_view globals.now).types con) line)) result }
    {
        let name = match globals.fact(con) {
            Some(fact) => fact.con.name.copy(self.alloc),
            None => word(self.alloc, b""),
        };
        match name {
            Ok(con) => Stop::Fault(TypeFault::MissingArm {
                con,
                line: u64::from(line),
            }),
            Err(_) => Stop::Memory,
        }
    }

    /// Refuses a match that has no arm for some constructor of this one's type.
    #[tactic(auto, unfolding(crate::specs::Solving::missing_checked))]
    pub(crate) fn check_missing(
        &self,
        globals: &Globals<'_, '_>,
        there: &[u32],
        line: u32,
        con: u32,
    ) -> Result<(), Stop<TypeFault>>
        ensures { Allows (missing_checked (globals_view globals.now).types there.now line (cons_of_type (globals_view globals.now).types con)) result }
    {
        'siblings: for sibling in globals.siblings(con) {
            if !there.contains(sibling) {
                return Err(self.missing(globals, *sibling, line));
            }
        }
        Ok(())
    }
}

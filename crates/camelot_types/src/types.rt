//! Declarations of types.

ghost use Rattle.std.specs.Prelude.{◌≡◌, ◌≤◌, [], ◌∷◌, ◌++◌, map, length, codes, IfOk, OnOk};
ghost use Rattle.camelot_values.specs.Names.{stands};
ghost use Rattle.camelot_tree.specs.Tree.{data_type_of, constructor_of};
ghost use Rattle.camelot_tree.specs.Programs.{program_of};
ghost use Rattle.camelot_tree.specs.Meaning.{declared_constructors};
ghost use Rattle.camelot_types.specs.declared.fault.TypeFault.TheVariants.{TooManyFields};
ghost use Rattle.camelot_types.specs.Walk.{words, con_names};
ghost use Rattle.camelot_types.specs.Solving.{Stops, names_checked};
ghost use Rattle.camelot_types.specs.Declaring.{few_checked, fields_checked, cons_checked, type_checked, types_checked};
ghost use Rattle.camelot_types.specs.Doing.{StopsWith, Allows};

use crate::atoms::{check_atoms, too_many};
use crate::fault::TypeFault;
use crate::names::duplicate;
use camelot_names::Names;
use camelot_tree::{ConDecl, Name, Program, TypeDecl};
use std::alloc::Global;
use stops::Stop;

// Refuses more than 64 types.
#[tactic(auto, unfolding(crate::specs::Declaring::few_checked))]
fn check_few_types(alloc: Global, types: &[TypeDecl]) -> Result<(), Stop<TypeFault>>
    ensures allowed { Allows (few_checked (codes "types") 64 (map (λ t. t.name) (map data_type_of types.now))) result }
    ensures few { OnOk result (length types.now ≤ 64) }
{
    match types.get(64) {
        Some(first) => Err(too_many(alloc, b"types", types.len(), first.name.line)),
        None => Ok(()),
    }
}

// Refuses more than 64 constructors of one type.
#[tactic(auto, unfolding(crate::specs::Declaring::few_checked))]
fn check_few_cons(alloc: Global, cons: &[ConDecl]) -> Result<(), Stop<TypeFault>>
    ensures { Allows (few_checked (codes "constructors") 64 (map (λ c. c.name) (map constructor_of cons.now))) result }
{
    match cons.get(64) {
        Some(first) => Err(too_many(alloc, b"constructors", cons.len(), first.name.line)),
        None => Ok(()),
    }
}

// Whether the name is that of one of these types.
fn stands(earlier: &[TypeDecl], name: &Name) -> bool
    ensures { result ≡ stands (map (λ t. t.name.word) (map data_type_of earlier.now)) name.now.word }
{
    'earlier: for other in earlier {
        if name.word.bytes() == other.name.word.bytes() {
            return true;
        }
    }
    false
}

// Refuses the name of an earlier type.
#[tactic(auto, unfolding(crate::specs::Solving::names_checked))]
fn check_name(alloc: Global, earlier: &[TypeDecl], name: &Name) -> Result<(), Stop<TypeFault>>
    ensures { Allows (names_checked (map (λ t. t.name.word) (map data_type_of earlier.now)) (name.now ∷ [])) result }
{
    if stands(earlier, name) {
        return Err(duplicate(alloc, name));
    }
    Ok(())
}

// Adds the names of constructors, and refuses one that stands before.
#[tactic(auto, unfolding(crate::specs::Solving::names_checked))]
fn add_cons<'a>(
    alloc: Global,
    names: &mut Names<'a>,
    cons: &'a [ConDecl],
) -> Result<(), Stop<TypeFault>>
    ensures allowed { Allows (names_checked names.old (map (λ c. c.name) (map constructor_of cons.now))) result }
    ensures names { OnOk result (names.new ≡ names.old ++ words (map (λ c. c.name) (map constructor_of cons.now))) }
{
    'cons: for con in cons {
        if !names.add(con.name.word.bytes())? {
            return Err(duplicate(alloc, &con.name));
        }
    }
    Ok(())
}

// The fault at a constructor of too many fields.
fn too_many_fields(alloc: Global, con: &ConDecl) -> Stop<TypeFault>
    ensures { StopsWith {A = Unit {0}} (Stops (TooManyFields con.now.name.word (length con.now.fields.items) con.now.name.line)) result }
{
    match con.name.word.copy(alloc) {
        Ok(word) => Stop::Fault(TypeFault::TooManyFields {
            con: word,
            have: con.fields.len() as u64,
            line: u64::from(con.name.line),
        }),
        Err(_) => Stop::Memory,
    }
}

// Refuses a constructor of more than 4 fields.
#[tactic(auto, unfolding(crate::specs::Declaring::fields_checked))]
fn check_field_counts(alloc: Global, cons: &[ConDecl]) -> Result<(), Stop<TypeFault>>
    ensures { Allows (fields_checked (map constructor_of cons.now)) result }
{
    'cons: for con in cons {
        if con.fields.len() > 4 {
            return Err(too_many_fields(alloc, con));
        }
    }
    Ok(())
}

// Refuses a field whose type isn't declared.
#[tactic(auto, unfolding(crate::specs::Declaring::cons_checked))]
fn check_fields(alloc: Global, program: &Program, cons: &[ConDecl]) -> Result<(), Stop<TypeFault>>
    requires { length program.now.types.items ≤ 64 }
    ensures { Allows (cons_checked (program_of program.now) (map constructor_of cons.now)) result }
{
    'cons: for con in cons {
        check_atoms(alloc, program, &con.fields)?;
    }
    Ok(())
}

// Checks the declaration of a type behind earlier ones, and adds the names of its constructors.
#[tactic(auto, unfolding(crate::specs::Declaring::type_checked))]
fn check_type<'a>(
    alloc: Global,
    program: &Program,
    earlier: &[TypeDecl],
    names: &mut Names<'a>,
    decl: &'a TypeDecl,
) -> Result<(), Stop<TypeFault>>
    requires { length program.now.types.items ≤ 64 }
    ensures allowed { Allows (type_checked (program_of program.now)
        (map (λ t. t.name.word) (map data_type_of earlier.now)) names.old (data_type_of decl.now)) result }
    ensures names { OnOk result (names.new ≡ names.old ++ words (con_names (data_type_of decl.now))) }
{
    check_name(alloc, earlier, &decl.name)?;
    add_cons(alloc, names, &decl.cons)?;
    check_few_cons(alloc, &decl.cons)?;
    check_field_counts(alloc, &decl.cons)?;
    check_fields(alloc, program, &decl.cons)
}

/// Checks the declarations of types; the names of all constructors in order, by their numbers.
#[tactic(auto, unfolding(crate::specs::Declaring::types_checked, crate::specs::Declaring::each_type_checked))]
pub(crate) fn check_types(alloc: Global, program: &Program) -> Result<Names<'_>, Stop<TypeFault>>
    ensures allowed { Allows (types_checked (program_of program.now)) result }
    ensures few { OnOk result (length program.now.types.items ≤ 64) }
    ensures names { IfOk result (λ names. names ≡ map (λ c. c.name.word) (declared_constructors (program_of program.now))) }
{
    check_few_types(alloc, &program.types)?;
    let mut names = Names::new(alloc);
    'types: for (index, decl) in program.types.iter().enumerate() {
        check_type(alloc, program, &program.types[..index], &mut names, decl)?;
    }
    Ok(names)
}

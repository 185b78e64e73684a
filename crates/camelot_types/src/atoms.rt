//! Written atoms and limits of declarations.

ghost use Rattle.std.specs.Prelude.{◌≡◌, ◌≤◌, map, length};
ghost use Rattle.camelot_values.specs.Names.{place_among};
ghost use Rattle.camelot_tree.specs.Tree.{data_type_of};
ghost use Rattle.camelot_tree.specs.Programs.{program_of};
ghost use Rattle.camelot_typing.specs.Kinds.{kind_of_atom};
ghost use Rattle.camelot_types.specs.declared.fault.TypeFault.TheVariants.{UnknownType, TooMany};
ghost use Rattle.camelot_types.specs.Solving.{Stops};
ghost use Rattle.camelot_types.specs.Declaring.{atom_checked, atoms_checked, kind_written};
ghost use Rattle.camelot_types.specs.Doing.{StopsWith, Allows};

use crate::fault::TypeFault;
use crate::table::word;
use camelot_tree::{Atom, Name, Program, TypeDecl};
use camelot_values::Kind;
use std::alloc::Global;
use stops::Stop;

/// The fault of too many declarations of some sort: how many there are, and the line of the first above the limit.
pub(crate) fn too_many(alloc: Global, what: &[u8], have: usize, line: u32) -> Stop<TypeFault>
    ensures { StopsWith {A = Unit {0}} (Stops (TooMany what.now have line)) result }
{
    match word(alloc, what) {
        Ok(what) => Stop::Fault(TypeFault::TooMany {
            what,
            have: have as u64,
            line: u64::from(line),
        }),
        Err(_) => Stop::Memory,
    }
}

// The number of the type of this name.
fn type_number(types: &[TypeDecl], name: &Name) -> Option<u32>
    requires { length types.now ≤ 64 }
    ensures { result ≡ place_among (map (λ t. t.name.word) (map data_type_of types.now)) name.now.word }
{
    'types: for (index, decl) in types.iter().enumerate() {
        if decl.name.word.bytes() == name.word.bytes() {
            return Some(index as u32);
        }
    }
    None
}

/// The kind of a written atom, where its type is declared.
pub(crate) fn kind_of_atom(program: &Program, atom: &Atom) -> Option<Kind>
    requires { length program.now.types.items ≤ 64 }
    ensures { result ≡ kind_of_atom (program_of program.now) atom.now }
{
    match atom {
        Atom::Int => Some(Kind::Int),
        Atom::Bool => Some(Kind::Flag),
        Atom::Dia => Some(Kind::Dia),
        Atom::Named(name) => match type_number(&program.types, name) {
            Some(number) => Some(Kind::Of(number)),
            None => None,
        },
    }
}

// The fault at a type that isn't declared.
fn unknown_type(alloc: Global, name: &Name) -> Stop<TypeFault>
    ensures { StopsWith {A = Unit {0}} (Stops (UnknownType name.now.word name.now.line)) result }
{
    match name.word.copy(alloc) {
        Ok(word) => Stop::Fault(TypeFault::UnknownType {
            name: word,
            line: u64::from(name.line),
        }),
        Err(_) => Stop::Memory,
    }
}

/// Refuses a written atom whose type isn't declared.
#[tactic(auto, unfolding(crate::specs::Declaring::atom_checked, crate::specs::Declaring::kind_checked))]
pub(crate) fn check_atom(
    alloc: Global,
    program: &Program,
    atom: &Atom,
) -> Result<(), Stop<TypeFault>>
    requires { length program.now.types.items ≤ 64 }
    ensures { Allows (atom_checked (program_of program.now) atom.now) result }
{
    let Atom::Named(name) = atom else {
        return Ok(());
    };
    match kind_of_atom(program, atom) {
        Some(_) => Ok(()),
        None => Err(unknown_type(alloc, name)),
    }
}

/// Refuses a written atom whose type isn't declared, among these.
#[tactic(auto, unfolding(crate::specs::Declaring::atoms_checked))]
pub(crate) fn check_atoms(
    alloc: Global,
    program: &Program,
    atoms: &[Atom],
) -> Result<(), Stop<TypeFault>>
    requires { length program.now.types.items ≤ 64 }
    ensures { Allows (atoms_checked (program_of program.now) atoms.now) result }
{
    'atoms: for atom in atoms {
        check_atom(alloc, program, atom)?;
    }
    Ok(())
}

/// Refuses a kind that is written and isn't declared.
#[tactic(auto, unfolding(crate::specs::Declaring::kind_written))]
pub(crate) fn check_kind(
    alloc: Global,
    program: &Program,
    kind: &Option<Atom>,
) -> Result<(), Stop<TypeFault>>
    requires { length program.now.types.items ≤ 64 }
    ensures { Allows (kind_written (program_of program.now) kind.now) result }
{
    match kind {
        Some(atom) => check_atom(alloc, program, atom),
        None => Ok(()),
    }
}

//! The program's types with the kinds of all fields, and the numbers of their constructors.

ghost use Rattle.std.specs.Prelude.{◌≡◌, ◌≤◌, ◌+◌, map, length, IfOk, OnOk};
ghost use Rattle.camelot_values.specs.Kinds.{AreTypes};
ghost use Rattle.camelot_values.specs.Kinds as values;
ghost use Rattle.camelot_tree.specs.Tree as tree;
ghost use Rattle.camelot_tree.specs.Programs.{program_of};
ghost use Rattle.camelot_typing.specs.Kinds.{field_kind, constructor_kinds, data_kinds, types_of, numbered};
ghost use Rattle.camelot_types.specs.Facts.{numbers_from_type};

use crate::atoms::kind_of_atom;
use camelot_tree::{Atom, ConDecl, Program, TypeDecl};
use camelot_values::{Con, Kind, TypeDef, Types};
use std::alloc::{AllocError, Global};

// The kind of a field.
fn field_kind(program: &Program, atom: &Atom) -> Kind
    requires { length program.now.types.items ≤ 64 }
    ensures { result ≡ field_kind (program_of program.now) atom.now }
{
    kind_of_atom(program, atom).unwrap_or(Kind::Int)
}

// The kinds of fields.
fn field_kinds(alloc: Global, program: &Program, fields: &[Atom]) -> Result<Vec<Kind>, AllocError>
    requires { length program.now.types.items ≤ 64 }
    ensures { IfOk result (λ kinds. kinds.items ≡ map (field_kind (program_of program.now)) fields.now) }
{
    let mut kinds = Vec::new(alloc);
    'fields: for field in fields {
        kinds.push(field_kind(program, field))?;
    }
    Ok(kinds)
}

// A constructor with the kinds of its fields.
fn compile_con(alloc: Global, program: &Program, decl: &ConDecl) -> Result<Con, AllocError>
    requires { length program.now.types.items ≤ 64 }
    ensures { IfOk result (λ con. values.constructor_of con ≡ constructor_kinds (program_of program.now) (tree.constructor_of decl.now)) }
{
    Ok(Con {
        name: decl.name.word.copy(alloc)?,
        inline: decl.inline,
        fields: field_kinds(alloc, program, &decl.fields)?,
    })
}

// A type with the kinds of all fields.
fn compile_type(alloc: Global, program: &Program, decl: &TypeDecl) -> Result<TypeDef, AllocError>
    requires { length program.now.types.items ≤ 64 }
    ensures { IfOk result (λ def. values.data_type_of def ≡ data_kinds (program_of program.now) (tree.data_type_of decl.now)) }
{
    let name = decl.name.word.copy(alloc)?;
    let mut cons = Vec::new(alloc);
    'cons: for con in &decl.cons {
        cons.push(compile_con(alloc, program, con)?)?;
    }
    Ok(TypeDef { name, cons })
}

/// The program's types with the kinds of all fields, once its declarations are checked.
pub(crate) fn compile_types(alloc: Global, program: &Program) -> Result<Types, AllocError>
    requires few { length program.now.types.items ≤ 64 }
    requires fit { AreTypes (types_of (program_of program.now)) }
    ensures { IfOk result (λ types. types ≡ types_of (program_of program.now)) }
{
    let mut defs = Vec::new(alloc);
    'types: for decl in &program.types {
        defs.push(compile_type(alloc, program, decl)?)?;
    }
    Ok(Types::new(defs))
}

// The numbers of the constructors of one type, from the next number on.
fn numbered(alloc: Global, next: &mut u32, cons: &[Con]) -> Result<Vec<u32>, AllocError>
    requires { next.old + length cons.now ≤ 4096 }
    ensures numbers { IfOk result (λ numbers. numbers.items ≡ numbered next.old (map values.constructor_of cons.now)) }
    ensures next { OnOk result (next.new ≡ next.old + length cons.now) }
{
    let mut numbers = Vec::new(alloc);
    'cons: for _con in cons {
        numbers.push(*next)?;
        *next += 1;
    }
    Ok(numbers)
}

/// The numbers of the constructors of each type, from 0 on through all types.
pub(crate) fn type_numbers(alloc: Global, types: &Types) -> Result<Vec<Vec<u32>>, AllocError>
    ensures { IfOk result (λ numbers. map (λ v. v.items) numbers.items ≡ numbers_from_type 0 types.now) }
{
    types.limits();
    let mut numbers = Vec::new(alloc);
    let mut next = 0;
    let defs = types.defs();
    'types: for def in defs {
        numbers.push(numbered(alloc, &mut next, &def.cons)?)?;
    }
    Ok(numbers)
}

ghost use Rattle.std.specs.Prelude.{◌≡◌, ◌++◌, [], OnOk, map};
ghost use Rattle.camelot_values.specs.Kinds.{constructor_of, data_type_of};
ghost use Rattle.grail_check.specs.Finding.{Finds, Answers};
ghost use Rattle.grail_check.specs.Faulting.{stands, constructor_fault, constructors_fault, type_fault, types_fault};

use super::fault::{CodeKind, Stop};
use super::functions::are_known;
use super::locals::require;
use super::names::is_new;
use camelot_values::{Con, TypeDef, Types};
use indexmap::IndexSet;
use std::alloc::Global;

// One constructor.
fn check_con(types: &Types, new: bool, con: &Con) -> Result<(), CodeKind>
    ensures { Finds result (constructor_fault types.now new (constructor_of con.now)) }
{
    require(new, CodeKind::Name)?;
    require(are_known(types, &con.fields), CodeKind::NoSuchEntry)
}

// The constructors of a type, after those of these names.
fn check_cons<'a>(
    types: &Types,
    names: &mut IndexSet<&'a [u8]>,
    cons: &'a [Con],
) -> Result<(), Stop<CodeKind>>
    ensures found { Answers result (constructors_fault types.now (map (λ word. word.now) names.old.keys) (map constructor_of cons.now)) }
    ensures names { OnOk result (map (λ word. word.now) names.new.keys ≡ map (λ word. word.now) names.old.keys ++ map
        (λ c. c.name) (map constructor_of cons.now)) }
{
    'cons: for con in cons {
        let new = is_new(names, con.name.bytes())?;
        check_con(types, new, con)?;
    }
    Ok(())
}

// One type, after constructors of these names.
fn check_type<'a>(
    types: &Types,
    new: bool,
    cons: &mut IndexSet<&'a [u8]>,
    def: &'a TypeDef,
) -> Result<(), Stop<CodeKind>>
    ensures found { Answers result (type_fault types.now new (map (λ word. word.now) cons.old.keys) (data_type_of def.now)) }
    ensures names { OnOk result (map (λ word. word.now) cons.new.keys ≡ map (λ word. word.now) cons.old.keys ++ map (λ c. c.name) (data_type_of def.now).cons) }
{
    require(new, CodeKind::Name)?;
    check_cons(types, cons, &def.cons)
}

/// Checks the types one after the other.
pub(crate) fn check_types(alloc: Global, types: &Types) -> Result<(), Stop<CodeKind>>
    ensures { Answers result (types_fault types.now [] [] types.now) }
{
    let mut names = IndexSet::new(alloc);
    let mut cons = IndexSet::new(alloc);
    'walk: for def in types.defs() {
        let new = is_new(&mut names, def.name.bytes())?;
        check_type(types, new, &mut cons, def)?;
    }
    Ok(())
}

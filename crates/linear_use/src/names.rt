//! The names of all constructors, for this crate and those above it.
ghost use Rattle.std.specs.Prelude.{◌≡◌, ◌≤◌, map, length, IfOk, OnOk};
ghost use Rattle.camelot_values.specs.Kinds.{constructor_of, constructors};
ghost use Rattle.camelot_tree.specs.Programs.{program_of};
ghost use Rattle.linear_use.specs.Tables.{with_names};

use camelot_names::Names;
use camelot_tree::FunDecl;
use camelot_typing::Typed;
use camelot_values::Con;
use std::alloc::{AllocError, Global};

// Adds the names of a type's constructors.
fn add_names<'a>(names: &mut Names<'a>, cons: &'a [Con]) -> Result<(), AllocError>
    ensures { OnOk result (names.new ≡ with_names names.old (map (λ c. c.name) cons.now)) }
{
    'cons: for con in cons {
        let _added = names.add(con.name.bytes())?;
    }
    Ok(())
}

/// The names of a program's constructors, which have their numbers in it; `AllocError` where memory runs out.
pub fn constructor_names<'a>(alloc: Global, typed: &'a Typed) -> Result<Names<'a>, AllocError>
    // They are in the order of the constructors' numbers.
    ensures { IfOk result (λ names. names ≡ map (λ c. c.name) (constructors typed.now.types)) }
{
    let mut names = Names::new(alloc);
    'types: for def in typed.types.defs() {
        add_names(&mut names, &def.cons)?;
    }
    Ok(names)
}

// Adds the names of functions.
fn add_functions<'a>(names: &mut Names<'a>, funs: &'a [FunDecl]) -> Result<(), AllocError>
    ensures { OnOk result (names.new ≡ with_names names.old (map (λ f. f.name.word) funs.now)) }
{
    'decls: for decl in funs {
        let _added = names.add(decl.name.word.bytes())?;
    }
    Ok(())
}

/// The names of a program's functions, which have their numbers in it; `AllocError` where memory runs out.
#[tactic(auto, using(crate::proofs::Tables::functions_named))]
pub(crate) fn function_names<'a>(alloc: Global, typed: &'a Typed) -> Result<Names<'a>, AllocError>
    // They are in the order of the functions.
    ensures { IfOk result (λ names. names ≡ map (λ f. f.name.word) (program_of typed.now.program).funs) }
{
    let mut names = Names::new(alloc);
    add_functions(&mut names, &typed.program.funs)?;
    Ok(names)
}

/// A typed program has at most 64 times 64 constructors.
pub fn law_of_few(typed: &Typed)
    // They are no more than 4,096.
    ensures { length (constructors typed.now.types) ≤ 4096 }
{
    typed.types.limits();
}

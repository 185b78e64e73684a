//! Headers of functions.

ghost use Rattle.std.specs.Prelude.{◌≡◌, ◌≤◌, [], ◌∷◌, ◌++◌, map, length, codes, IfOk, OnOk};
ghost use Rattle.camelot_tree.specs.Tree.{function_of};
ghost use Rattle.camelot_tree.specs.Programs.{program_of};
ghost use Rattle.camelot_types.specs.Solving.{names_checked};
ghost use Rattle.camelot_types.specs.Declaring.{few_checked, params_checked, header_checked, headers_checked};
ghost use Rattle.camelot_types.specs.Doing.{Allows};

use crate::atoms::{check_kind, too_many};
use crate::fault::TypeFault;
use crate::names::{check_names, duplicate};
use camelot_names::Names;
use camelot_tree::{FunDecl, Name, Param, Program};
use std::alloc::{AllocError, Global};
use stops::Stop;

// Refuses more than 64 functions.
#[tactic(auto, unfolding(crate::specs::Declaring::few_checked))]
fn check_few_funs(alloc: Global, funs: &[FunDecl]) -> Result<(), Stop<TypeFault>>
    ensures { Allows (few_checked (codes "functions") 64 (map (λ f. f.name) (map function_of funs.now))) result }
{
    match funs.get(64) {
        Some(first) => Err(too_many(alloc, b"functions", funs.len(), first.name.line)),
        None => Ok(()),
    }
}

// Refuses more than 16 parameters of one function.
#[tactic(auto, unfolding(crate::specs::Declaring::few_checked))]
fn check_few_params(alloc: Global, params: &[Param]) -> Result<(), Stop<TypeFault>>
    ensures { Allows (few_checked (codes "parameters") 16 (map (λ x. x.name) params.now)) result }
{
    match params.get(16) {
        Some(first) => Err(too_many(alloc, b"parameters", params.len(), first.name.line)),
        None => Ok(()),
    }
}

// The names of parameters.
fn param_names(alloc: Global, params: &[Param]) -> Result<Vec<&Name>, AllocError>
    ensures { IfOk result (λ names. map (λ n. n.now) names.items ≡ map (λ x. x.name) params.now) }
{
    let mut names = Vec::new(alloc);
    'params: for param in params {
        names.push(&param.name)?;
    }
    Ok(names)
}

// Refuses a parameter of the name of an earlier one.
fn check_param_names(alloc: Global, params: &[Param]) -> Result<(), Stop<TypeFault>>
    ensures { Allows (names_checked [] (map (λ x. x.name) params.now)) result }
{
    let names = param_names(alloc, params)?;
    check_names(alloc, &names)
}

// Refuses a parameter whose kind is written and isn't declared.
#[tactic(auto, unfolding(crate::specs::Declaring::params_checked))]
fn check_params(alloc: Global, program: &Program, params: &[Param]) -> Result<(), Stop<TypeFault>>
    requires { length program.now.types.items ≤ 64 }
    ensures { Allows (params_checked (program_of program.now) params.now) result }
{
    'params: for param in params {
        check_kind(alloc, program, &param.kind)?;
    }
    Ok(())
}

// Adds the name of a function, and refuses one that stands before.
#[tactic(auto, unfolding(crate::specs::Solving::names_checked))]
fn add_fun<'a>(alloc: Global, names: &mut Names<'a>, name: &'a Name) -> Result<(), Stop<TypeFault>>
    ensures allowed { Allows (names_checked names.old (name.now ∷ [])) result }
    ensures names { OnOk result (names.new ≡ names.old ++ name.now.word ∷ []) }
{
    if names.add(name.word.bytes())? {
        Ok(())
    } else {
        Err(duplicate(alloc, name))
    }
}

// Checks the header of a function behind earlier ones, and adds its name.
#[tactic(auto, unfolding(crate::specs::Declaring::header_checked))]
fn check_header<'a>(
    alloc: Global,
    program: &Program,
    names: &mut Names<'a>,
    fun: &'a FunDecl,
) -> Result<(), Stop<TypeFault>>
    requires { length program.now.types.items ≤ 64 }
    ensures allowed { Allows (header_checked (program_of program.now) names.old (function_of fun.now)) result }
    ensures names { OnOk result (names.new ≡ names.old ++ fun.now.name.word ∷ []) }
{
    add_fun(alloc, names, &fun.name)?;
    check_few_params(alloc, &fun.params)?;
    check_param_names(alloc, &fun.params)?;
    check_params(alloc, program, &fun.params)?;
    check_kind(alloc, program, &fun.result)
}

/// Checks the headers of functions; the names of all functions in order.
#[tactic(auto, unfolding(crate::specs::Declaring::headers_checked, crate::specs::Declaring::each_header_checked))]
pub(crate) fn check_headers(alloc: Global, program: &Program) -> Result<Names<'_>, Stop<TypeFault>>
    requires { length program.now.types.items ≤ 64 }
    ensures allowed { Allows (headers_checked (program_of program.now)) result }
    ensures names { IfOk result (λ names. names ≡ map (λ f. f.name.word) (program_of program.now).funs) }
{
    check_few_funs(alloc, &program.funs)?;
    let mut names = Names::new(alloc);
    'funs: for fun in &program.funs {
        check_header(alloc, program, &mut names, fun)?;
    }
    Ok(names)
}

//! The walk through functions and programs.
ghost use Rattle.std.specs.Prelude.{◌≡◌, ◌≤◌, [], map, length, Some, IfOk};
ghost use Rattle.camelot_values.specs.Kinds.{constructors};
ghost use Rattle.camelot_tree.specs.Tree.{expression_of, function_of};
ghost use Rattle.camelot_tree.specs.Programs.{program_of};
ghost use Rattle.camelot_typing.specs.Kinds.{atoms_of};
ghost use Rattle.camelot_typing.specs.Typing.{known_kind, params_scope};
ghost use Rattle.camelot_typing.specs.Typed.{kinds_of, signature_of};
ghost use Rattle.camelot_typing.specs.TypedPrograms.{typing_of};
ghost use Rattle.linear_use.specs.Flow.{param_variables, result_flow, function_flow};
ghost use Rattle.linear_use.specs.Uses.{lent_params};
ghost use Rattle.linear_use.specs.Walk.{Finds, first_of, globals_in, loans_in};
ghost use Rattle.linear_use.specs.Answers.{first};
ghost use Rattle.linear_use.specs.Answers.{faults_of};

use crate::fault::UseFault;
use crate::known::Known;
use crate::marks::some_lent;
use crate::names::{constructor_names, function_names, law_of_few};
use crate::spent::Spent;
use crate::state::State;
use crate::variable::Variable;
use crate::walk::walk;
use camelot_names::{Names, Scope};
use camelot_tree::{FunDecl, Param, Rooms};
use camelot_typing::{FunKinds, Typed};
use camelot_values::{Kind, Types};
use std::alloc::{AllocError, Global};
use stops::Stop;

// Refuses a result of a heap kind beside a parameter that is lent.
fn check_result(
    alloc: Global,
    typed: &Typed,
    decl: &FunDecl,
    kinds: &FunKinds,
) -> Result<(), Stop<UseFault>>
    ensures { let f = function_of decl.now in
        Finds result (first_of [] [] (result_flow (globals_in typed.now) f (signature_of f (kinds_of kinds.now)))) }
{
    if !some_lent(&typed.types, &decl.params, &kinds.params) {
        return Ok(());
    }
    if !typed.types.is_heap(kinds.result) {
        return Ok(());
    }
    Err(Stop::Fault(UseFault::ReadResult {
        name: decl.name.word.copy(alloc)?,
        line: decl.name.line as u64,
    }))
}

// The parameters in scope, the first of them innermost.
#[tactic(auto, using(crate::proofs::FunctionLaws::params_step))]
fn bind_params<'a>(
    alloc: Global,
    types: &Types,
    params: &'a [Param],
    kinds: &[Kind],
) -> Result<Scope<'a, Variable>, AllocError>
    ensures { IfOk result (λ scope. scope ≡ param_variables 0 params.now kinds.now (lent_params types.now params.now kinds.now)) }
{
    let mut scope = Scope::new(alloc);
    let mut number = params.len().min(kinds.len());
    while number > 0 {
        number -= 1;
        let kind = kinds[number];
        let lent = params[number].read && types.is_heap(kind);
        scope.bind(
            params[number].name.word.bytes(),
            Variable { number, kind, lent },
        )?;
    }
    Ok(scope)
}

// What was found: the first fault, where there is one.
fn found(fault: Option<UseFault>) -> Result<(), Stop<UseFault>>
    ensures { Finds result fault }
{
    match fault {
        Some(fault) => Err(Stop::Fault(fault)),
        None => Ok(()),
    }
}

// A function, whose parameters and expressions have these kinds.
fn walk_function<'a>(
    alloc: Global,
    typed: &'a Typed,
    cons: &Names<'a>,
    funs: &Names<'a>,
    decl: &'a FunDecl,
    kinds: &'a FunKinds,
) -> Result<(), Stop<UseFault>>
    requires names { cons.now ≡ map (λ c. c.name) (constructors typed.now.types) }
    requires functions { funs.now ≡ map (λ f. f.name.word) (program_of typed.now.program).funs }
    requires few { length (constructors typed.now.types) ≤ 4096 }
    requires kinds { kinds.now.exprs.items
        ≡ atoms_of known_kind (globals_in typed.now) (params_scope decl.now.params.items kinds.now.params.items)
        (expression_of decl.now.body) }
    ensures { let f = function_of decl.now in
        Finds result (first_of [] [] (function_flow (loans_in typed.now) (globals_in typed.now) f (signature_of f (kinds_of kinds.now)))) }
{
    check_result(alloc, typed, decl, kinds)?;
    let known = Known {
        alloc,
        typed,
        cons,
        funs,
        exprs: &kinds.exprs,
    };
    let mut state = State {
        scope: bind_params(alloc, &typed.types, &decl.params, &kinds.params)?,
        spent: Spent::new(alloc),
        next: decl.params.len(),
        position: 0,
        fault: None,
    };
    let mut rooms = Rooms::new(alloc);
    walk(&known, &mut state, &mut rooms, &decl.body)?;
    found(state.fault)
}

/// The first fault of a typed program.
pub(crate) fn first_fault(alloc: Global, typed: &Typed) -> Result<(), Stop<UseFault>>
    ensures { Finds result (first (faults_of (typing_of typed.now))) }
{
    law_of_few(typed);
    let cons = constructor_names(alloc, typed)?;
    let funs = function_names(alloc, typed)?;
    'funs: for (decl, kinds) in typed.program.funs.iter().zip(&typed.funs) {
        walk_function(alloc, typed, &cons, &funs, decl, kinds)?;
    }
    Ok(())
}

//! Functions in normal form.
ghost use Rattle.std.specs.Prelude.{◌≡◌, ◌≤◌, length, IfOk};
ghost use Rattle.camelot_tree.specs.Tree.{expression_of, function_of};
ghost use Rattle.camelot_typing.specs.Kinds.{numbered};
ghost use Rattle.linear_use.specs.Uses.{lent_params};
ghost use Rattle.camelot_typing.specs.Typing.{params_scope};
ghost use Rattle.camelot_typing.specs.Typed.{kinds_of, signature_of};
ghost use Rattle.camelot_typing.specs.TypedPrograms.{typing_of};
ghost use Rattle.normal_form.specs.Answers.{Finds, fault_of};
ghost use Rattle.normal_form.specs.Normal.{normal_function, tail_ends, tail_made};
ghost use Rattle.normal_form.specs.Programs.{normal_function_of};
ghost use Rattle.normal_form.specs.Tables.{signatures_in, source_in};

use crate::count_tail::count_tail;
use crate::cut::cut_lines;
use crate::fault::NormalFault;
use crate::known::Known;
use crate::part::At;
use crate::program::NormalFunction;
use crate::tail::tail;
use crate::tail_kinds::tail_kinds;
use camelot_names::Scope;
use camelot_tree::{FunDecl, Param};
use camelot_typing::FunKinds;
use camelot_values::{Kind, Types};
use std::alloc::{AllocError, Global};
use stops::Stop;

// Refuses a function that is too large.
fn check_size(known: &Known<'_>, decl: &FunDecl) -> Result<(), Stop<NormalFault>>
    ensures { Finds result (fault_of (source_in known.now.typed.now) (function_of decl.now)) }
{
    let counts = count_tail(known, &decl.body)?;
    if counts.locals > 240 {
        return Err(Stop::Fault(NormalFault::TooManyLocals {
            name: decl.name.word.copy(known.alloc)?,
            have: counts.locals,
        }));
    }
    if counts.blocks > 256 {
        return Err(Stop::Fault(NormalFault::TooManyBlocks {
            name: decl.name.word.copy(known.alloc)?,
            have: counts.blocks,
        }));
    }
    Ok(())
}

// The parameters in scope with their locals, the first of them innermost.
fn bind_locals<'a>(alloc: Global, params: &'a [Param]) -> Result<Scope<'a, u32>, AllocError>
    requires { length params.now ≤ 16 }
    ensures { IfOk result (λ scope. scope ≡ params_scope params.now (numbered 0 params.now)) }
{
    let mut scope = Scope::new(alloc);
    let mut number = params.len();
    while number > 0 {
        number -= 1;
        scope.bind(params[number].name.word.bytes(), number as u32)?;
    }
    Ok(scope)
}

// The parameters in scope with their kinds, the first of them innermost.
fn bind_kinds<'a>(
    alloc: Global,
    params: &'a [Param],
    kinds: &[Kind],
) -> Result<Scope<'a, Kind>, AllocError>
    ensures { IfOk result (λ scope. scope ≡ params_scope params.now kinds.now) }
{
    let mut scope = Scope::new(alloc);
    let mut number = params.len().min(kinds.len());
    while number > 0 {
        number -= 1;
        scope.bind(params[number].name.word.bytes(), kinds[number])?;
    }
    Ok(scope)
}

// The marks of parameters: those that are marked in the source and of a heap kind.
fn lent_params(
    alloc: Global,
    types: &Types,
    params: &[Param],
    kinds: &[Kind],
) -> Result<Vec<bool>, AllocError>
    ensures { IfOk result (λ marks. marks.items ≡ lent_params types.now params.now kinds.now) }
{
    let mut marks = Vec::new(alloc);
    'params: for (param, kind) in params.iter().zip(kinds) {
        marks.push(param.read && types.is_heap(*kind))?;
    }
    Ok(marks)
}

// A function that isn't too large.
fn make_function(
    known: &Known<'_>,
    decl: &FunDecl,
    kinds: &FunKinds,
) -> Result<NormalFunction, AllocError>
    requires params { length decl.now.params.items ≤ 16 }
    requires locals { tail_made (source_in known.now.typed.now) (expression_of decl.now.body) ≤ 240 }
    requires ended { tail_ends (source_in known.now.typed.now) (expression_of decl.now.body) ≤ 256 }
    ensures { IfOk result (λ f. normal_function_of f ≡ normal_function (source_in known.now.typed.now)
        (signatures_in known.now.typed.now) (function_of decl.now)
        (signature_of (function_of decl.now) (kinds_of kinds.now))) }
{
    let mut scope = bind_locals(known.alloc, &decl.params)?;
    let at = At {
        next: decl.params.len() as u32,
        number: 0,
    };
    let code = tail(known, &mut scope, at, &decl.body)?;
    let mut kinds_in_scope = bind_kinds(known.alloc, &decl.params, &kinds.params)?;
    let locals = tail_kinds(known, &mut kinds_in_scope, &decl.body)?;
    Ok(NormalFunction {
        name: decl.name.word.copy(known.alloc)?,
        params: Vec::from_slice(known.alloc, &kinds.params)?,
        reads: lent_params(known.alloc, &known.typed.types, &decl.params, &kinds.params)?,
        result: kinds.result,
        locals,
        blocks: cut_lines(known.alloc, code.lines, code.end.number as usize)?,
    })
}

/// The normal form of one function of a program (`specs/Normal.antt`), as [`normalise`](crate::normalise) has it.
///
/// # Errors
///
/// That the function is too large; [`Stop::Memory`] where memory runs out.
pub fn normalise_function(
    known: &Known<'_>,
    decl: &FunDecl,
    kinds: &FunKinds,
) -> Result<NormalFunction, Stop<NormalFault>>
    requires { length decl.now.params.items ≤ 16 }

    // It is the function's normal form, with these kinds.
    ensures function { let t = typing_of known.now.typed.now in IfOk result
        (λ f. normal_function_of f ≡ normal_function t.source t.signatures (function_of decl.now)
        (signature_of (function_of decl.now) (kinds_of kinds.now))) }

    // An error is that the function is too large, unless memory ran out.
    ensures finds { Finds result (fault_of (typing_of known.now.typed.now).source (function_of decl.now)) }
{
    check_size(known, decl)?;
    Ok(make_function(known, decl, kinds)?)
}

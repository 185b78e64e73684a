ghost use Rattle.std.specs.Prelude.{◌≡◌, ℕ, ◌<◌, [], length, slice_get, Some, IfOk};
ghost use Rattle.std.specs.List.{list_all};
ghost use Rattle.grail_code.specs.Code.{func_of, code_of};
ghost use Rattle.grail_code.specs.WellFormed.{local_kinds, is_marked, is_read};
ghost use Rattle.grail_check.specs.Finding.{Finds, Answers};
ghost use Rattle.grail_check.specs.Faulting.{is_known, local_of, locals_of, param_lends, lends_rightly, header_fault, function_fault, functions_fault};

use super::blocks::check_blocks;
use super::body::{Body, params_of};
use super::fault::{CodeFault, CodeKind, Stop};
use super::lent::reads_in;
use super::locals::{Local, is_lent_at, require};
use super::marks::Marks;
use super::names::is_new;
use camelot_values::{Kind, Types};
use grail_code::{Code, Func};
use indexmap::IndexSet;
use std::alloc::{AllocError, Global};

// Whether there is the type of this kind.
pub(crate) fn is_known(types: &Types, kind: Kind) -> bool
    ensures { result ≡ is_known types.now kind }
{
    match kind {
        Kind::Of(number) => (number as usize) < types.defs().len(),
        _ => true,
    }
}

/// Whether there are the types of all of these kinds.
pub(crate) fn are_known(types: &Types, kinds: &[Kind]) -> bool
    ensures { result ≡ list_all (is_known types.now) kinds.now }
{
    'kinds: for kind in kinds {
        if !is_known(types, *kind) {
            return false;
        }
    }
    true
}

// A local of this kind, which is only read or isn't.
fn local_of(types: &Types, kind: Kind, read: bool) -> Local
    ensures { result ≡ local_of types.now kind read }
{
    let heap = types.is_heap(kind);
    Local {
        kind,
        owned: heap && !read,
        lent: heap && read,
    }
}

// The locals of a function, with their kinds. For each of them it is known whether it is only read.
#[tactic(auto, using(crate::proofs::LentLaws::locals_more, crate::proofs::LentLaws::locals_end, crate::proofs::LentLaws::locals_none))]
fn list_locals(
    alloc: Global,
    types: &Types,
    func: &Func,
    reads: &[bool],
) -> Result<Vec<Local>, AllocError>
    requires count { length reads.now ≡ length (local_kinds (func_of func.now)) }
    requires known { (x : ℕ) → x < length (local_kinds (func_of func.now)) → slice_get reads.now x ≡ Some (is_read (func_of func.now) x) }
    ensures { IfOk result (λ locals. locals.items ≡ locals_of types.now (func_of func.now)) }
{
    let mut locals = Vec::new(alloc);
    'locals: for (number, read) in reads.iter().enumerate() {
        let Some(kind) = func.kind_of(number as u32) else {
            return Ok(locals);
        };
        locals.push(local_of(types, kind, *read))?;
    }
    Ok(locals)
}

fn locals_of(alloc: Global, types: &Types, func: &Func) -> Result<Vec<Local>, AllocError>
    ensures { IfOk result (λ locals. locals.items ≡ locals_of types.now (func_of func.now)) }
{
    let reads = reads_in(alloc, func)?;
    list_locals(alloc, types, func, &reads)
}

// Whether the parameter of this number is marked.
fn is_marked(func: &Func, number: usize) -> bool
    ensures { result ≡ is_marked (func_of func.now) number }
{
    match func.reads.get(number) {
        Some(read) => *read,
        None => false,
    }
}

// Whether a parameter isn't lent, or is marked and the result has no cells.
fn param_lends(types: &Types, func: &Func, locals: &[Local], number: usize) -> bool
    requires { locals.now ≡ locals_of types.now (func_of func.now) }
    ensures { result ≡ param_lends types.now (func_of func.now) number }
{
    !is_lent_at(locals, number) || (is_marked(func, number) && !types.is_heap(func.result))
}

// Whether each parameter that is lent is marked, and the result then has no cells.
#[tactic(auto, using(crate::proofs::LentLaws::params_more, crate::proofs::LentLaws::params_fail))]
fn lends_rightly(types: &Types, func: &Func, locals: &[Local]) -> bool
    requires { locals.now ≡ locals_of types.now (func_of func.now) }
    ensures { result ≡ lends_rightly types.now (func_of func.now) }
{
    'params: for number in 0..func.params.len() {
        if !param_lends(types, func, locals, number) {
            return false;
        }
    }
    true
}

// The header of a function, whose name is new or not.
fn check_header(types: &Types, new: bool, func: &Func, locals: &[Local]) -> Result<(), CodeKind>
    requires { locals.now ≡ locals_of types.now (func_of func.now) }
    ensures { Finds result (header_fault types.now new (func_of func.now)) }
{
    require(new, CodeKind::Name)?;
    let known = are_known(types, &func.params)
        && is_known(types, func.result)
        && are_known(types, &func.locals);
    require(known, CodeKind::NoSuchEntry)?;
    require(lends_rightly(types, func, locals), CodeKind::Lent)
}

// One function.
fn check_function(
    alloc: Global,
    code: &Code,
    number: u32,
    new: bool,
    func: &Func,
) -> Result<(), Stop<CodeFault>>
    ensures { Answers result (function_fault (code_of code.now) number new (func_of func.now)) }
{
    let locals = locals_of(alloc, &code.types, func)?;
    check_header(&code.types, new, func, &locals).map_err(|kind| CodeFault {
        func: number,
        block: 0,
        place: 0,
        kind,
    })?;
    let mut marks = Marks::new(alloc, locals.len())?;
    let params = params_of(alloc, &func.blocks)?;
    let body = Body {
        func,
        params: &params,
    };
    Ok(check_blocks(code, body, &locals, number, &mut marks)?)
}

/// Checks the functions one after the other.
pub(crate) fn check_functions(alloc: Global, code: &Code) -> Result<(), Stop<CodeFault>>
    ensures { Answers result (functions_fault (code_of code.now) 0 [] (code_of code.now).funcs) }
{
    let mut names = IndexSet::new(alloc);
    let mut number = 0;
    'walk: for func in &code.funcs {
        let new = is_new(&mut names, func.name.bytes())?;
        check_function(alloc, code, number, new, func)?;
        number += 1;
    }
    Ok(())
}

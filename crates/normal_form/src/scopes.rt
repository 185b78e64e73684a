//! Names in scope, and what stands for them.
ghost use Rattle.std.specs.Prelude.{◌≡◌, ◌+◌, ◌≤◌, IfOk, OnOk, length};
ghost use Rattle.camelot_tree.specs.Tree.{branch_of};
ghost use Rattle.camelot_tree.specs.Tree as tree;
ghost use Rattle.grail_blocks.specs.Blocks.{arm_of};
ghost use Rattle.grail_blocks.specs.Blocks as block;
ghost use Rattle.camelot_typing.specs.Kinds.{is_inline, numbered, types_of};
ghost use Rattle.normal_form.specs.Normal.{bound_count, case_arm, cell_in, con_of, fun_of, in_arm, local, place_in, with_cell, with_fields};
ghost use Rattle.normal_form.specs.Tables.{branch_at, source_in};

use crate::known::Known;
use crate::order::con_number;
use crate::part::At;
use camelot_names::Scope;
use camelot_tree::{Arm, ArmCell, Name, PrimOp};
use grail_blocks::{CaseArm, CaseCell, Place, PrimCode};
use std::alloc::{AllocError, Global};

/// The local of a name.
pub(crate) fn local_of(scope: &Scope<'_, u32>, name: &Name) -> u32
    ensures { result ≡ local scope.now name.now }
{
    scope.find(name.word.bytes()).unwrap_or(0)
}

/// The number of the constructor of this name.
pub(crate) fn con_of(known: &Known<'_>, name: &Name) -> u32
    ensures { result ≡ con_of (source_in known.now.typed.now) name.now }
{
    con_number(known, name).unwrap_or(0) as u32
}

/// The operator of code.
pub(crate) fn prim_code(op: PrimOp) -> PrimCode
    ensures { block.operator_of result ≡ tree.operator_of op }
{
    match op {
        PrimOp::Add => PrimCode::Add,
        PrimOp::Sub => PrimCode::Sub,
        PrimOp::Mul => PrimCode::Mul,
        PrimOp::Div => PrimCode::Div,
        PrimOp::Mod => PrimCode::Mod,
        PrimOp::Eq => PrimCode::Eq,
        PrimOp::Ne => PrimCode::Ne,
        PrimOp::Lt => PrimCode::Lt,
        PrimOp::Le => PrimCode::Le,
        PrimOp::Gt => PrimCode::Gt,
        PrimOp::Ge => PrimCode::Ge,
    }
}

/// Where this constructor is built.
pub(crate) fn place_of(
    known: &Known<'_>,
    scope: &Scope<'_, u32>,
    con: u32,
    place: &Option<Name>,
) -> Place
    ensures { result ≡ place_in (source_in known.now.typed.now) con place.now scope.now }
{
    match place {
        Some(name) => Place::Reuse(local_of(scope, name)),
        None => match known.typed.types.con(con) {
            Some(con) if con.inline => Place::Inline,
            _ => Place::New,
        },
    }
}

// Binds the named ones of these fields to the locals from `next` on.
fn bind_fields<'a>(
    scope: &mut Scope<'a, u32>,
    fields: &'a [Option<Name>],
    next: u32,
) -> Result<(), AllocError>
    requires { next + length fields.now ≤ 256 }
    ensures { OnOk result (scope.new ≡ with_fields fields.now next scope.old) }
{
    let mut number = next;
    'fields: for field in fields {
        if let Some(name) = field {
            scope.bind(name.word.bytes(), number)?;
        }
        number += 1;
    }
    Ok(())
}

/// Binds the names of an arm, whose locals begin with `next`.
pub(crate) fn bind_arm<'a>(
    scope: &mut Scope<'a, u32>,
    arm: &'a Arm,
    next: u32,
) -> Result<(), AllocError>
    requires { let a = branch_of arm.now in next + bound_count a.fields a.cell ≤ 256 }
    ensures { OnOk result (let a = branch_of arm.now in scope.new ≡ in_arm a.fields a.cell next scope.old) }
{
    bind_fields(scope, &arm.fields, next)?;
    match &arm.cell {
        ArmCell::Keep(name) => scope.bind(name.word.bytes(), next + arm.fields.len() as u32),
        ArmCell::Plain | ArmCell::Free => Ok(()),
    }
}

// The locals of these fields, of which the first is `next`.
fn field_locals(alloc: Global, fields: &[Option<Name>], next: u32) -> Result<Vec<u32>, AllocError>
    requires { next + length fields.now ≤ 256 }
    ensures { IfOk result (λ locals. locals.items ≡ numbered next fields.now) }
{
    let mut locals = Vec::new(alloc);
    let mut number = next;
    'fields: for _field in fields {
        locals.push(number)?;
        number += 1;
    }
    Ok(locals)
}

// Whether this constructor is inline.
fn is_inline(known: &Known<'_>, con: u32) -> bool
    ensures { result ≡ is_inline (types_of (source_in known.now.typed.now)) con }
{
    match known.typed.types.con(con) {
        Some(con) => con.inline,
        None => false,
    }
}

// What becomes of the cell of an arm, whose diamond would be this local.
fn cell_of(inline: bool, cell: &ArmCell, local: u32) -> CaseCell
    ensures { result ≡ cell_in inline cell.now local }
{
    match cell {
        ArmCell::Plain if inline => CaseCell::Inline,
        ArmCell::Plain => CaseCell::Look,
        ArmCell::Free => CaseCell::Free,
        ArmCell::Keep(_) => CaseCell::Keep(local),
    }
}

/// An arm of a case that begins here.
pub(crate) fn case_of(known: &Known<'_>, arm: &Arm, at: At) -> Result<CaseArm, AllocError>
    requires { let a = branch_of arm.now in at.next + bound_count a.fields a.cell ≤ 256 }
    ensures { IfOk result (λ case. arm_of case ≡ case_arm (source_in known.now.typed.now) (branch_at arm.now) at.next at.number) }
{
    let inline = is_inline(known, con_of(known, &arm.con));
    Ok(CaseArm {
        fields: field_locals(known.alloc, &arm.fields, at.next)?,
        cell: cell_of(inline, &arm.cell, at.next + arm.fields.len() as u32),
        target: at.number,
    })
}

/// How many locals an arm makes at its beginning.
pub(crate) fn bound_of(arm: &Arm) -> u32
    requires { let a = branch_of arm.now in bound_count a.fields a.cell ≤ 256 }
    ensures { let a = branch_of arm.now in result ≡ bound_count a.fields a.cell }
{
    let fields = arm.fields.len() as u32;
    match arm.cell {
        ArmCell::Keep(_) => fields + 1,
        ArmCell::Plain | ArmCell::Free => fields,
    }
}

/// The number of the function of this name.
pub(crate) fn fun_of(known: &Known<'_>, name: &Name) -> u32
    ensures { result ≡ fun_of (source_in known.now.typed.now) name.now }
{
    known.funs.number(name.word.bytes()).unwrap_or(0) as u32
}

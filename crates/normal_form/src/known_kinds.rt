//! Kinds that names have.
ghost use Rattle.std.specs.Prelude.{◌≡◌, ◌++◌, IfOk, OnOk, length};
ghost use Rattle.camelot_values.specs.Typing.{operator_kind};
ghost use Rattle.camelot_tree.specs.Tree.{branch_of, operator_of};
ghost use Rattle.camelot_typing.specs.Kinds.{arm_scope, bind_cell, bind_fields, fields_of, types_of};
ghost use Rattle.camelot_typing.specs.Typing.{known_kind};
ghost use Rattle.normal_form.specs.Normal.{bound_kinds, con_of, diamond_kinds};
ghost use Rattle.normal_form.specs.KindParts.{kind_of_build, kind_of_call};
ghost use Rattle.normal_form.specs.Tables.{signatures_in, source_in};

use crate::known::Known;
use crate::scopes::con_of;
use camelot_names::Scope;
use camelot_tree::{Arm, ArmCell, Name, PrimOp};
use camelot_values::Kind;
use std::alloc::AllocError;

/// The kind of what an operator gives.
pub(crate) fn operator_kind(op: PrimOp) -> Kind
    ensures { result ≡ operator_kind (operator_of op) }
{
    match op {
        PrimOp::Add | PrimOp::Sub | PrimOp::Mul | PrimOp::Div | PrimOp::Mod => Kind::Int,
        PrimOp::Eq | PrimOp::Ne | PrimOp::Lt | PrimOp::Le | PrimOp::Gt | PrimOp::Ge => Kind::Flag,
    }
}

/// The kind of the values of the constructor of this name.
pub(crate) fn build_kind(known: &Known<'_>, name: &Name) -> Kind
    ensures { result ≡ kind_of_build (source_in known.now.typed.now) name.now }
{
    match known.typed.types.type_of(con_of(known, name)) {
        Some(number) => Kind::Of(number),
        None => Kind::Int,
    }
}

/// The kind of what the function of this name gives.
pub(crate) fn call_kind(known: &Known<'_>, name: &Name) -> Kind
    ensures { result ≡ kind_of_call (signatures_in known.now.typed.now) name.now }
{
    let Some(number) = known.funs.number(name.word.bytes()) else {
        return Kind::Int;
    };
    if number < known.typed.funs.len() {
        known.typed.funs[number].result
    } else {
        Kind::Int
    }
}

/// The kinds of the fields of the constructor of this name.
pub(crate) fn field_kinds<'a>(known: &Known<'a>, name: &Name) -> &'a [Kind]
    ensures { result.now ≡ fields_of (types_of (source_in known.now.typed.now)) (con_of (source_in known.now.typed.now) name.now) }
{
    match known.typed.types.con(con_of(known, name)) {
        Some(con) => &con.fields,
        None => &[],
    }
}

// Binds the named ones of these fields to their kinds.
fn bind_field_kinds<'a>(
    scope: &mut Scope<'a, Kind>,
    fields: &'a [Option<Name>],
    kinds: &[Kind],
) -> Result<(), AllocError>
    ensures { OnOk result (scope.new ≡ bind_fields known_kind fields.now kinds.now scope.old) }
{
    'fields: for (field, kind) in fields.iter().zip(kinds) {
        if let Some(name) = field {
            scope.bind(name.word.bytes(), *kind)?;
        }
    }
    Ok(())
}

/// Binds the names of an arm to their kinds.
pub(crate) fn bind_arm_kinds<'a>(
    known: &Known<'_>,
    scope: &mut Scope<'a, Kind>,
    arm: &'a Arm,
) -> Result<(), AllocError>
    ensures { OnOk result (let a = branch_of arm.now in scope.new ≡ arm_scope known_kind
        (types_of (source_in known.now.typed.now)) a.con a.fields a.cell scope.old) }
{
    bind_field_kinds(scope, &arm.fields, field_kinds(known, &arm.con))?;
    match &arm.cell {
        ArmCell::Keep(name) => scope.bind(name.word.bytes(), Kind::Dia),
        ArmCell::Plain | ArmCell::Free => Ok(()),
    }
}

/// The kinds of what an arm makes at its beginning.
pub(crate) fn bound_kinds(known: &Known<'_>, arm: &Arm) -> Result<Vec<Kind>, AllocError>
    ensures { IfOk result (λ kinds. let a = branch_of arm.now in kinds.items ≡ bound_kinds (source_in known.now.typed.now) a.con a.cell) }
{
    let mut kinds = Vec::from_slice(known.alloc, field_kinds(known, &arm.con))?;
    match arm.cell {
        ArmCell::Keep(_) => kinds.push(Kind::Dia)?,
        ArmCell::Plain | ArmCell::Free => {}
    }
    Ok(kinds)
}

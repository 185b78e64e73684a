ghost use Rattle.std.specs.Prelude.{◌≡◌, ◌++◌, ◌∷◌, [], Some, OnOk, IsTrue};
ghost use Rattle.std.specs.List.{list_all};
ghost use Rattle.std.specs.Option.{option_map};
ghost use Rattle.camelot_values.specs.Value.{is_int32};
ghost use Rattle.camelot_values.specs.Kinds.{constructor_of};
ghost use Rattle.grail_code.specs.Code.{operator_of, op_of, let_of, func_of, code_of};
ghost use Rattle.grail_code.specs.WellFormed.{operator_kind, operands_of, taken, taken_by, takes};
ghost use Rattle.grail_check.specs.Finding.{Finds};
ghost use Rattle.grail_check.specs.Faulting.{is_local, place_fits, copy_fault, operator_fault, target_fault, taken_fault, make_fault, call_fault, op_fault, let_fault, spend_all, after_let};

use super::fault::CodeKind;
use super::locals::{
    Local, bind, check_arguments, check_mark, check_operand, check_own, is_local, kind_at, require,
    same_kinds, spend,
};
use super::marks::Marks;
use camelot_values::{Con, Kind};
use grail_code::{Code, Func, Let, Op, Place, PrimCode};

// The kind of what an operator gives.
fn operator_kind(op: PrimCode) -> Kind
    ensures { result ≡ operator_kind (operator_of op) }
{
    match op {
        PrimCode::Add | PrimCode::Sub | PrimCode::Mul | PrimCode::Div | PrimCode::Mod => Kind::Int,
        PrimCode::Eq | PrimCode::Ne | PrimCode::Lt | PrimCode::Le | PrimCode::Gt | PrimCode::Ge =>
            Kind::Flag,
    }
}

/// Whether there are all of these locals.
pub(crate) fn are_locals(locals: &[Local], named: &[u32]) -> bool
    ensures { result ≡ list_all (is_local locals.now) named.now }
{
    'named: for local in named {
        if !is_local(locals, *local) {
            return false;
        }
    }
    true
}

// Whether a build's arguments and diamond are there.
fn has_parts(locals: &[Local], args: &[u32], place: Place) -> bool
    ensures { result ≡ list_all (is_local locals.now) (args.now ++ taken place) }
{
    match place {
        Place::Reuse(diamond) => are_locals(locals, args) && is_local(locals, diamond),
        _ => are_locals(locals, args),
    }
}

// Whether the operands are there.
fn has_operands(locals: &[Local], op: &Op) -> bool
    ensures { result ≡ list_all (is_local locals.now) (operands_of (op_of op.now)) }
{
    match op {
        Op::Lit(_) | Op::Flag(_) => true,
        Op::Copy(local) => is_local(locals, *local),
        Op::Prim { left, right, .. } => is_local(locals, *left) && is_local(locals, *right),
        Op::Make { args, place, .. } => has_parts(locals, args, *place),
        Op::Call { args, .. } => are_locals(locals, args),
    }
}

// Refuses a local whose kind isn't this one, or that is lent.
fn check_target(locals: &[Local], target: u32, kind: Option<Kind>) -> Result<(), CodeKind>
    ensures { Finds result (target_fault locals.now target kind) }
{
    require(same_kinds(kind_at(locals, target), kind), CodeKind::Kind)?;
    check_own(locals, target)
}

// Whether a constructor is built inline exactly where it is inline.
fn place_fits(inline: bool, place: Place) -> bool
    ensures { result ≡ place_fits inline place }
{
    match place {
        Place::Inline => inline,
        _ => !inline,
    }
}

// The diamond that a build takes.
fn check_taken(locals: &[Local], marks: &mut Marks, place: Place) -> Result<(), CodeKind>
    ensures found { Finds result (taken_fault locals.now marks.old place) }
    ensures marks { OnOk result (marks.new ≡ spend_all locals.now marks.old (taken place)) }
{
    match place {
        Place::Reuse(diamond) => check_operand(locals, marks, diamond, Kind::Dia),
        _ => Ok(()),
    }
}

// A build of a constructor that belongs to the type of this kind.
#[tactic(auto, using(crate::proofs::MarkLaws::spend_both))]
fn check_make(
    locals: &[Local],
    marks: &mut Marks,
    target: u32,
    con: &Con,
    owner: Option<Kind>,
    args: &[u32],
    place: Place,
) -> Result<(), CodeKind>
    ensures found { Finds result (make_fault locals.now marks.old target (Some (constructor_of con.now)) owner args.now place) }
    ensures marks { OnOk result (marks.new ≡ spend_all locals.now marks.old (args.now ++ taken place)) }
{
    check_arguments(locals, marks, &[], args, &con.fields)?;
    check_taken(locals, marks, place)?;
    require(place_fits(con.inline, place), CodeKind::Place)?;
    check_target(locals, target, owner)
}

// A call of a function.
fn check_call(
    locals: &[Local],
    marks: &mut Marks,
    target: u32,
    callee: &Func,
    args: &[u32],
) -> Result<(), CodeKind>
    ensures found { Finds result (call_fault locals.now marks.old target (Some (func_of callee.now)) args.now) }
    ensures marks { OnOk result (marks.new ≡ spend_all locals.now marks.old (taken_by (func_of callee.now).reads args.now)) }
{
    check_arguments(locals, marks, &callee.reads, args, &callee.params)?;
    check_target(locals, target, Some(callee.result))
}

// An operator on two ints.
fn check_operator(
    locals: &[Local],
    marks: &mut Marks,
    target: u32,
    op: PrimCode,
    left: u32,
    right: u32,
) -> Result<(), CodeKind>
    ensures found { Finds result (operator_fault locals.now marks.old target (operator_of op) left right) }
    ensures marks { OnOk result (marks.new ≡ spend_all locals.now marks.old (left ∷ right ∷ [])) }
{
    check_operand(locals, marks, left, Kind::Int)?;
    check_operand(locals, marks, right, Kind::Int)?;
    check_target(locals, target, Some(operator_kind(op)))
}

// A copy of a local.
fn check_copy(locals: &[Local], marks: &mut Marks, target: u32, source: u32) -> Result<(), CodeKind>
    ensures found { Finds result (copy_fault locals.now marks.old target source) }
    ensures marks { OnOk result (marks.new ≡ spend_all locals.now marks.old (source ∷ [])) }
{
    check_mark(marks, source)?;
    check_own(locals, source)?;
    check_target(locals, target, kind_at(locals, source))?;
    spend(locals, marks, source);
    Ok(())
}

// The kind of the type of this number.
fn kind_of_type(number: Option<u32>) -> Option<Kind>
    ensures { result ≡ option_map Kind.Of number }
{
    match number {
        Some(number) => Some(Kind::Of(number)),
        None => None,
    }
}

// An int of the code has 32 bits, so that no check is left to do.
#[tactic(auto, using(camelot_values::specs::IntLaws::int_passes))]
fn fits_32_bits(value: i32)
    ensures { IsTrue (is_int32 value) }
{
    let _ = value;
}

// What a let binds.
fn check_operation(
    code: &Code,
    locals: &[Local],
    marks: &mut Marks,
    target: u32,
    op: &Op,
) -> Result<(), CodeKind>
    ensures found { Finds result (op_fault (code_of code.now) locals.now marks.old target (op_of op.now)) }
    ensures marks { OnOk result (marks.new ≡ spend_all locals.now marks.old (takes (code_of code.now) (op_of op.now))) }
{
    match op {
        Op::Lit(value) => {
            fits_32_bits(*value);
            check_target(locals, target, Some(Kind::Int))
        }
        Op::Flag(_) => check_target(locals, target, Some(Kind::Flag)),
        Op::Copy(source) => check_copy(locals, marks, target, *source),
        Op::Prim { op, left, right } => {
            check_operator(locals, marks, target, *op, *left, *right)
        }
        Op::Make { con, args, place } => match code.types.con(*con) {
            Some(found) => {
                let owner = kind_of_type(code.types.type_of(*con));
                check_make(locals, marks, target, found, owner, args, *place)
            }
            None => Err(CodeKind::NoSuchEntry),
        },
        Op::Call { func, args } => match code.funcs.get(*func as usize) {
            Some(callee) => check_call(locals, marks, target, callee, args),
            None => Err(CodeKind::NoSuchEntry),
        },
    }
}

/// Checks one let, which then has used its operands and bound its local.
pub(crate) fn check_let(
    code: &Code,
    locals: &[Local],
    marks: &mut Marks,
    binding: &Let,
) -> Result<(), CodeKind>
    ensures found { Finds result (let_fault (code_of code.now) locals.now marks.old (let_of binding.now)) }
    ensures marks { OnOk result (marks.new ≡ after_let (code_of code.now) locals.now marks.old (let_of binding.now)) }
{
    let there = is_local(locals, binding.target) && has_operands(locals, &binding.op);
    require(there, CodeKind::NoSuchEntry)?;
    check_operation(code, locals, marks, binding.target, &binding.op)?;
    bind(marks, binding.target);
    Ok(())
}

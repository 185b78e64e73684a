ghost use Rattle.std.specs.Prelude.{◌≡◌, ◌++◌, [], length, map, slice_get, Some, OnOk};
ghost use Rattle.std.specs.Option.{option_map};
ghost use Rattle.camelot_values.specs.Kinds.{data_type_of};
ghost use Rattle.grail_code.specs.Code.{arm_of, term_of, func_of, code_of};
ghost use Rattle.grail_code.specs.WellFormed.{kept_diamond, data_type};
ghost use Rattle.grail_check.specs.Finding.{Finds};
ghost use Rattle.grail_check.specs.Sets.{AreUsable};
ghost use Rattle.grail_check.specs.Faulting.{uses_fault, jump_fault, arms_jump_fault, tail_fault, arms_fault, case_fault, ret_fault, goto_fault, if_fault, term_fault};

use super::arms::{
    arms_are_there, arms_bind_once, arms_bind_own, arms_count, arms_go_on, arms_have_kinds,
    cells_fit, is_block, keeps, look_where,
};
use super::body::{Body, is_covered};
use super::fault::CodeKind;
use super::lets::are_locals;
use super::local_set::LocalSet;
use super::locals::{
    Local, check_arguments, check_mark, check_operand, is_lent_at, is_local, kind_at, require,
    same_kind, spend,
};
use super::marks::Marks;
use camelot_values::{Kind, TypeDef, Types};
use grail_code::{CaseArm, CaseCell, Code, Func, Term};

// Checks that these locals can be used where an arm has bound its fields and the diamond of its cell.
fn check_uses(marks: &Marks, fields: &[u32], cell: CaseCell, locals: &[u32]) -> Result<(), CodeKind>
    ensures { Finds result (uses_fault marks.now (fields.now ++ kept_diamond cell) locals.now) }
{
    'locals: for local in locals {
        if !fields.contains(local) && !keeps(cell, *local) {
            check_mark(marks, *local)?;
        }
    }
    Ok(())
}

// What may be used where an arm has bound its fields and the diamond of its cell.
#[tactic(auto, using(crate::proofs::ReadyLaws::usable_fields, crate::proofs::ReadyLaws::usable_kept))]
fn usable_in(marks: &Marks, fields: &[u32], cell: CaseCell) -> LocalSet
    ensures { AreUsable marks.now (fields.now ++ kept_diamond cell) result.words }
{
    let mut set = marks.ready();
    set.extend(fields);
    match cell {
        CaseCell::Keep(diamond) => {
            set.insert(diamond);
            set
        }
        CaseCell::Inline | CaseCell::Free | CaseCell::Look => set,
    }
}

// A jump, after an arm has bound its fields and the diamond of its cell, by a look at each parameter.
fn check_params(
    func: &Func,
    marks: &Marks,
    fields: &[u32],
    cell: CaseCell,
    target: u32,
) -> Result<(), CodeKind>
    ensures { Finds result (jump_fault (func_of func.now) marks.now (fields.now ++ kept_diamond cell) target) }
{
    match func.blocks.get(target as usize) {
        Some(block) => check_uses(marks, fields, cell, &block.params),
        None => Ok(()),
    }
}

// The same, by sets. Only where something is wrong each parameter is looked at.
fn check_jump(
    body: Body<'_>,
    marks: &Marks,
    fields: &[u32],
    cell: CaseCell,
    target: u32,
) -> Result<(), CodeKind>
    ensures { Finds result (jump_fault (func_of body.entry.func.now) marks.now (fields.now ++ kept_diamond cell) target) }
{
    let usable = usable_in(marks, fields, cell);
    if is_covered(body, target, &usable) {
        Ok(())
    } else {
        check_params(body.func, marks, fields, cell, target)
    }
}

// A jump that binds nothing.
fn check_plain_jump(body: Body<'_>, marks: &Marks, target: u32) -> Result<(), CodeKind>
    ensures { Finds result (jump_fault (func_of body.entry.func.now) marks.now [] target) }
{
    check_jump(body, marks, &[], CaseCell::Inline, target)
}

// The jumps of arms, one after the other.
fn check_arm_jumps(body: Body<'_>, marks: &Marks, arms: &[CaseArm]) -> Result<(), CodeKind>
    ensures { Finds result (arms_jump_fault (func_of body.entry.func.now) marks.now (map arm_of arms.now)) }
{
    'arms: for arm in arms {
        check_jump(body, marks, &arm.fields, arm.cell, arm.target)?;
    }
    Ok(())
}

// The type of this kind, where it is a data type.
fn data_type(types: &Types, kind: Option<Kind>) -> Option<&TypeDef>
    ensures { option_map (λ t. data_type_of t.now) result ≡ data_type types.now kind }
{
    match kind {
        Some(Kind::Of(number)) => types.defs().get(number as usize),
        _ => None,
    }
}

// The function of this number, where there is one.
fn callee(code: &Code, number: u32) -> Option<&Func>
    ensures { option_map (λ f. func_of f.now) result ≡ slice_get (code_of code.now).funcs number }
{
    code.funcs.get(number as usize)
}

// A call in place of the rest of the function.
#[tactic(auto, using(crate::proofs::MarkLaws::length_spend, crate::proofs::MarkLaws::length_spend_all))]
fn check_tail(
    func: &Func,
    locals: &[Local],
    marks: &mut Marks,
    callee: Option<&Func>,
    args: &[u32],
) -> Result<(), CodeKind>
    ensures found { Finds result (tail_fault (func_of func.now) locals.now marks.old (option_map (λ f. func_of f.now) callee.entry) args.now) }
    ensures kept { OnOk result (length marks.new ≡ length marks.old) }
{
    require(are_locals(locals, args), CodeKind::NoSuchEntry)?;
    let Some(callee) = callee else {
        return Err(CodeKind::NoSuchEntry);
    };
    check_arguments(locals, marks, &callee.reads, args, &callee.params)?;
    require(same_kind(callee.result, func.result), CodeKind::Kind)
}

// The arms of a case on a local of this type.
#[tactic(auto, using(crate::proofs::MarkLaws::length_spend, crate::proofs::MarkLaws::length_spend_all))]
fn check_arms(
    body: Body<'_>,
    locals: &[Local],
    marks: &mut Marks,
    on: u32,
    def: &TypeDef,
    arms: &[CaseArm],
) -> Result<(), CodeKind>
    ensures found { Finds result (arms_fault (func_of body.entry.func.now) locals.now marks.old on (Some (data_type_of def.now)) (map arm_of arms.now)) }
    ensures kept { OnOk result (length marks.new ≡ length marks.old) }
{
    require(arms_count(arms, &def.cons), CodeKind::Arms)?;
    check_mark(marks, on)?;
    let lent = is_lent_at(locals, on as usize);
    require(look_where(lent, arms, &def.cons), CodeKind::Lent)?;
    require(cells_fit(arms, &def.cons), CodeKind::Place)?;
    require(arms_have_kinds(locals, arms, &def.cons), CodeKind::Kind)?;
    require(arms_bind_once(arms), CodeKind::Header)?;
    require(arms_bind_own(locals, arms), CodeKind::Lent)?;
    spend(locals, marks, on);
    check_arm_jumps(body, marks, arms)
}

// A choice by the constructor of a value of this type.
fn check_case(
    body: Body<'_>,
    locals: &[Local],
    number: u32,
    marks: &mut Marks,
    on: u32,
    def: Option<&TypeDef>,
    arms: &[CaseArm],
) -> Result<(), CodeKind>
    ensures found { Finds result (case_fault (func_of body.entry.func.now) locals.now number marks.old on
        (option_map (λ t. data_type_of t.now) def.entry) (map arm_of arms.now)) }
    ensures kept { OnOk result (length marks.new ≡ length marks.old) }
{
    let there = is_local(locals, on) && arms_are_there(body.func, locals, arms);
    require(there, CodeKind::NoSuchEntry)?;
    require(arms_go_on(number, arms), CodeKind::Backward)?;
    match def {
        Some(def) => check_arms(body, locals, marks, on, def, arms),
        None => Err(CodeKind::Kind),
    }
}

// The function's result.
#[tactic(auto, using(crate::proofs::MarkLaws::length_spend, crate::proofs::MarkLaws::length_spend_all))]
fn check_ret(func: &Func, locals: &[Local], marks: &mut Marks, local: u32) -> Result<(), CodeKind>
    ensures found { Finds result (ret_fault (func_of func.now) locals.now marks.old local) }
    ensures kept { OnOk result (length marks.new ≡ length marks.old) }
{
    require(is_local(locals, local), CodeKind::NoSuchEntry)?;
    check_operand(locals, marks, local, func.result)
}

// A jump to one block.
fn check_goto(body: Body<'_>, number: u32, marks: &Marks, target: u32) -> Result<(), CodeKind>
    ensures { Finds result (goto_fault (func_of body.entry.func.now) number marks.now target) }
{
    require(is_block(body.func, target), CodeKind::NoSuchEntry)?;
    require(number < target, CodeKind::Backward)?;
    check_plain_jump(body, marks, target)
}

// A choice of two blocks by a truth value.
#[tactic(auto, using(crate::proofs::MarkLaws::length_spend, crate::proofs::MarkLaws::length_spend_all))]
fn check_if(
    body: Body<'_>,
    locals: &[Local],
    number: u32,
    marks: &mut Marks,
    cond: u32,
    yes: u32,
    no: u32,
) -> Result<(), CodeKind>
    ensures found { Finds result (if_fault (func_of body.entry.func.now) locals.now number marks.old cond yes no) }
    ensures kept { OnOk result (length marks.new ≡ length marks.old) }
{
    let there = is_local(locals, cond) && is_block(body.func, yes) && is_block(body.func, no);
    require(there, CodeKind::NoSuchEntry)?;
    require(number < yes && number < no, CodeKind::Backward)?;
    check_operand(locals, marks, cond, Kind::Flag)?;
    check_plain_jump(body, marks, yes)?;
    check_plain_jump(body, marks, no)
}

/// Checks the end of a block.
pub(crate) fn check_exit(
    code: &Code,
    body: Body<'_>,
    locals: &[Local],
    number: u32,
    marks: &mut Marks,
    term: &Term,
) -> Result<(), CodeKind>
    ensures found { Finds result (term_fault (code_of code.now) (func_of body.entry.func.now) locals.now number marks.old (term_of term.now)) }
    ensures kept { OnOk result (length marks.new ≡ length marks.old) }
{
    match term {
        Term::Ret(local) => check_ret(body.func, locals, marks, *local),
        Term::Tail { func: number, args } => {
            check_tail(body.func, locals, marks, callee(code, *number), args)
        }
        Term::Goto(target) => check_goto(body, number, marks, *target),
        Term::If { cond, yes, no } => check_if(body, locals, number, marks, *cond, *yes, *no),
        Term::Case { on, arms } => {
            let def = data_type(&code.types, kind_at(locals, *on));
            check_case(body, locals, number, marks, *on, def, arms)
        }
    }
}

ghost use Rattle.std.specs.Prelude.{◌≡◌, ◌++◌, map, OnOk, IfOk, pos};
ghost use Rattle.dual_simplex.specs.Systems.{plain_row};
ghost use Rattle.grail_code.specs.Code.{arm_of, term_of, func_of, code_of};
ghost use Rattle.grail_code.specs.WellFormed.{kind_of};
ghost use Rattle.licence.specs.Rules.{first_con_of};
ghost use Rattle.lp_rows.specs.Plain.{plain, units_of, dense_of, names};
ghost use Rattle.lp_rows.specs.Walk.{bound, jump_rows, found, freed, arm_rows, arms_rows, ret_rows, tail_rows, term_rows};

use super::books::{Books, Here};
use super::form::Form;
use super::lets::{call, is_heap_con, push_call};
use super::rows::push_left;
use super::slots::origin_at;
use super::unknown::{Origin, Unknown, unit};
use super::values::{push_value, push_vars};
use dual_simplex::Row;
use grail_code::{CaseArm, CaseCell, Term};
use licence::first_con_of;
use std::alloc::AllocError;

// A jump, where an arm has bound these fields.
#[tactic(auto, using(crate::proofs::Turns::two))]
fn push_jump(
    books: Books<'_>,
    here: Here<'_>,
    rows: &mut Vec<Row>,
    left: &Form,
    slots: &[Origin],
    fields: &[u32],
    matched: Origin,
    to: u32,
) -> Result<(), AllocError>
    ensures { OnOk result (map plain_row rows.new.items ≡ map plain_row rows.old.items ++ jump_rows
        (code_of books.entry.code.now).types (map plain books.entry.unknowns.now)
        (func_of here.entry.func.now) here.entry.site.func (dense_of left.now)
        (bound (names here.entry.site.func here.entry.site.block slots.now) fields.now (units_of matched)) to) }
{
    let vars = here.func.params_at(to);
    push_vars(books, here, rows, slots, fields, matched, to, vars)?;
    let need = Unknown::BlockNeed {
        func: here.site.func,
        block: to,
    };
    push_left(books, rows, left, &need, 0)
}

// A jump that binds nothing.
#[tactic(auto, unfolding(crate::specs::Walk::bound))]
fn push_plain_jump(
    books: Books<'_>,
    here: Here<'_>,
    rows: &mut Vec<Row>,
    left: &Form,
    slots: &[Origin],
    to: u32,
) -> Result<(), AllocError>
    ensures { OnOk result (map plain_row rows.new.items ≡ map plain_row rows.old.items ++ jump_rows
        (code_of books.entry.code.now).types (map plain books.entry.unknowns.now)
        (func_of here.entry.func.now) here.entry.site.func (dense_of left.now)
        (names here.entry.site.func here.entry.site.block slots.now) to) }
{
    let matched = origin_at(here.site, slots, 0);
    push_jump(books, here, rows, left, slots, &[], matched, to)
}

// What is left in an arm: what the matched node carries, and a cell where its cell is given back, is there too.
fn left_in_arm(
    books: Books<'_>,
    left: &Form,
    matched: Origin,
    con: u32,
    cell: CaseCell,
) -> Result<Form, AllocError>
    ensures { IfOk result (λ form. dense_of form ≡ freed cell
        (found (code_of books.entry.code.now).types (map plain books.entry.unknowns.now) (dense_of left.now)
        (units_of matched) con)) }
{
    let mut form = left.copy(books.alloc)?;
    if is_heap_con(books, con) {
        form.give(books.unknowns, &unit(matched, con));
    }
    match cell {
        CaseCell::Free => form.give_cell(),
        CaseCell::Inline | CaseCell::Keep(_) | CaseCell::Look => {}
    }
    Ok(form)
}

// The arm of this constructor.
fn push_arm(
    books: Books<'_>,
    here: Here<'_>,
    rows: &mut Vec<Row>,
    left: &Form,
    slots: &[Origin],
    matched: Origin,
    con: u32,
    arm: &CaseArm,
) -> Result<(), AllocError>
    ensures { OnOk result (map plain_row rows.new.items ≡ map plain_row rows.old.items ++ arm_rows
        (code_of books.entry.code.now).types (map plain books.entry.unknowns.now)
        (func_of here.entry.func.now) here.entry.site.func (dense_of left.now)
        (names here.entry.site.func here.entry.site.block slots.now) (units_of matched) con (arm_of arm.now)) }
{
    let form = left_in_arm(books, left, matched, con, arm.cell)?;
    push_jump(
        books,
        here,
        rows,
        &form,
        slots,
        &arm.fields,
        matched,
        arm.target,
    )
}

// The arms, of the constructors from this one on.
fn push_arms(
    books: Books<'_>,
    here: Here<'_>,
    rows: &mut Vec<Row>,
    left: &Form,
    slots: &[Origin],
    matched: Origin,
    first: u32,
    arms: &[CaseArm],
) -> Result<(), AllocError>
    ensures { OnOk result (map plain_row rows.new.items ≡ map plain_row rows.old.items ++ arms_rows
        (code_of books.entry.code.now).types (map plain books.entry.unknowns.now)
        (func_of here.entry.func.now) here.entry.site.func (dense_of left.now)
        (names here.entry.site.func here.entry.site.block slots.now) (units_of matched) first (map arm_of arms.now)) }
{
    let mut con = first;
    'arms: for arm in arms {
        push_arm(books, here, rows, left, slots, matched, con, arm)?;
        con = con.saturating_add(1);
    }
    Ok(())
}

// A return.
fn push_ret(
    books: Books<'_>,
    here: Here<'_>,
    rows: &mut Vec<Row>,
    left: &Form,
    slots: &[Origin],
    local: u32,
) -> Result<(), AllocError>
    ensures { OnOk result (map plain_row rows.new.items ≡ map plain_row rows.old.items ++ ret_rows
        (code_of books.entry.code.now).types (map plain books.entry.unknowns.now)
        (func_of here.entry.func.now) here.entry.site.func (dense_of left.now)
        (names here.entry.site.func here.entry.site.block slots.now) local) }
{
    let func = here.site.func;
    let have = origin_at(here.site, slots, local);
    let need = Origin::Outcome { func };
    push_value(books, rows, here.func.kind_of(local), have, need)?;
    push_left(books, rows, left, &Unknown::Back { func }, 0)
}

// A tail call: a call, and then a return of what it gives.
fn push_tail(
    books: Books<'_>,
    here: Here<'_>,
    rows: &mut Vec<Row>,
    left: &mut Form,
    slots: &[Origin],
    callee: u32,
    args: &[u32],
) -> Result<(), AllocError>
    ensures { OnOk result (map plain_row rows.new.items ≡ map plain_row rows.old.items ++ tail_rows
        (code_of books.entry.code.now) (map plain books.entry.unknowns.now)
        (func_of here.entry.func.now) here.entry.site.func (dense_of left.old)
        (names here.entry.site.func here.entry.site.block slots.now) callee args.now) }
{
    let func = here.site.func;
    push_call(books, here, rows, left, slots, callee, args)?;
    let have = Origin::Outcome { func: callee };
    let need = Origin::Outcome { func };
    push_value(books, rows, Some(here.func.result), have, need)?;
    call(books, left, callee);
    push_left(books, rows, left, &Unknown::Back { func }, 0)
}

// A choice of two blocks.
fn push_if(
    books: Books<'_>,
    here: Here<'_>,
    rows: &mut Vec<Row>,
    left: &Form,
    slots: &[Origin],
    yes: u32,
    no: u32,
) -> Result<(), AllocError>
    ensures { OnOk result (map plain_row rows.new.items ≡ map plain_row rows.old.items ++
        (jump_rows (code_of books.entry.code.now).types (map plain books.entry.unknowns.now)
        (func_of here.entry.func.now) here.entry.site.func (dense_of left.now)
        (names here.entry.site.func here.entry.site.block slots.now) yes
        ++ jump_rows (code_of books.entry.code.now).types (map plain books.entry.unknowns.now)
        (func_of here.entry.func.now) here.entry.site.func (dense_of left.now)
        (names here.entry.site.func here.entry.site.block slots.now) no)) }
{
    push_plain_jump(books, here, rows, left, slots, yes)?;
    push_plain_jump(books, here, rows, left, slots, no)
}

// A choice by the constructor of a local.
fn push_case(
    books: Books<'_>,
    here: Here<'_>,
    rows: &mut Vec<Row>,
    left: &Form,
    slots: &[Origin],
    on: u32,
    arms: &[CaseArm],
) -> Result<(), AllocError>
    ensures { OnOk result (map plain_row rows.new.items ≡ map plain_row rows.old.items ++ arms_rows
        (code_of books.entry.code.now).types (map plain books.entry.unknowns.now)
        (func_of here.entry.func.now) here.entry.site.func (dense_of left.now)
        (names here.entry.site.func here.entry.site.block slots.now)
        (names here.entry.site.func here.entry.site.block slots.now on)
        (first_con_of (code_of books.entry.code.now).types (kind_of (func_of here.entry.func.now) on))
        (map arm_of arms.now)) }
{
    let first = first_con_of(&books.code.types, here.func.kind_of(on));
    let matched = origin_at(here.site, slots, on);
    push_arms(books, here, rows, left, slots, matched, first, arms)
}

/// The rows of the end of a block.
pub(crate) fn push_end(
    books: Books<'_>,
    here: Here<'_>,
    rows: &mut Vec<Row>,
    left: &mut Form,
    slots: &[Origin],
    term: &Term,
) -> Result<(), AllocError>
    ensures { OnOk result (map plain_row rows.new.items ≡ map plain_row rows.old.items ++ term_rows
        (code_of books.entry.code.now) (map plain books.entry.unknowns.now)
        (func_of here.entry.func.now) here.entry.site.func (dense_of left.old)
        (names here.entry.site.func here.entry.site.block slots.now) (term_of term.now)) }
{
    match term {
        Term::Ret(local) => push_ret(books, here, rows, left, slots, *local),
        Term::Tail { func, args } => push_tail(books, here, rows, left, slots, *func, args),
        Term::Goto(to) => push_plain_jump(books, here, rows, left, slots, *to),
        Term::If { cond: _, yes, no } => push_if(books, here, rows, left, slots, *yes, *no),
        Term::Case { on, arms } => push_case(books, here, rows, left, slots, *on, arms),
    }
}

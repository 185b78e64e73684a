ghost use Rattle.std.specs.Prelude.{◌≡◌, [], map};
ghost use Rattle.grail_code.specs.Code.{arm_of, term_of, func_of, code_of};
ghost use Rattle.lp_size.specs.declared.origins.Origin.TheVariants.{BlockVar};
ghost use Rattle.lp_size.specs.Counting.{bound, var_rows, vars_onto, jump_rows, plain_jump_rows, arms_onto, ret_rows, tail_rows, term_rows};

use super::books::{Books, Here};
use super::lets::call_rows;
use super::origins::{Origin, Slot, is_same, origin_at};
use super::taken::{Taken, back_rows, taken_behind_call};
use super::values::{local_count, local_rows, value_rows};
use grail_code::{CaseArm, Term};

// What a local carries where an arm has bound these fields, of which a constructor has four at most.
#[tactic(auto, unfolding(crate::specs::Counting::bound))]
fn bound(here: Here<'_>, slots: &[Slot], fields: &[u32], matched: Origin, local: u32) -> Origin
    ensures { result ≡ bound here.entry.func here.entry.block slots.now fields.now matched local }
{
    if fields.contains(&local) {
        matched
    } else {
        origin_at(here, slots, local)
    }
}

// The rows of a parameter of a target, where an arm has bound these fields, constructor by constructor: none where the
// same units are there and asked, nor where the local is lent. Most parameters carry none.
fn var_rows(
    books: Books<'_>,
    here: Here<'_>,
    slots: &[Slot],
    fields: &[u32],
    matched: Origin,
    to: u32,
    local: u32,
) -> u64
    ensures { result ≡ var_rows (code_of books.entry.code.now).types (func_of here.entry.body.now)
        (bound here.entry.func here.entry.block slots.now fields.now matched local)
        (BlockVar here.entry.func to local) local }
{
    let count = local_count(books, here.body, here.looked, local);
    if count == 0 {
        return 0;
    }
    let have = bound(here, slots, fields, matched, local);
    let need = Origin::BlockVar {
        func: here.func,
        block: to,
        local: local as usize,
    };
    if is_same(have, need) { 0 } else { count }
}

// The rows of a target's parameters, where an arm has bound these fields.
fn vars_rows(
    books: Books<'_>,
    here: Here<'_>,
    slots: &[Slot],
    fields: &[u32],
    matched: Origin,
    to: u32,
    params: &[u32],
) -> u64
    ensures { result ≡ vars_onto (code_of books.entry.code.now).types
        (func_of here.entry.body.now) here.entry.func here.entry.block slots.now fields.now matched to 0 params.now }
{
    let mut total: u64 = 0;
    'params: for local in params {
        let rows = var_rows(books, here, slots, fields, matched, to, *local);
        total = total.saturating_add(rows);
    }
    total
}

// The rows of a jump, where an arm has bound these fields: of the target's parameters, and of what it needs.
fn jump_rows(
    books: Books<'_>,
    here: Here<'_>,
    slots: &[Slot],
    fields: &[u32],
    matched: Origin,
    to: u32,
) -> u64
    ensures { result ≡ jump_rows (code_of books.entry.code.now).types
        (func_of here.entry.body.now) here.entry.func here.entry.block slots.now fields.now matched to }
{
    let params = here.body.params_at(to);
    vars_rows(books, here, slots, fields, matched, to, params).saturating_add(1)
}

// The rows of a jump that binds nothing.
fn plain_jump_rows(books: Books<'_>, here: Here<'_>, slots: &[Slot], to: u32) -> u64
    ensures { result ≡ plain_jump_rows (code_of books.entry.code.now).types (func_of here.entry.body.now) here.entry.func here.entry.block slots.now to }
{
    jump_rows(
        books,
        here,
        slots,
        &[],
        Origin::Result { func: here.func },
        to,
    )
}

// The rows of the arms of a case.
fn arms_rows(
    books: Books<'_>,
    here: Here<'_>,
    slots: &[Slot],
    matched: Origin,
    arms: &[CaseArm],
) -> u64
    ensures { result ≡ arms_onto (code_of books.entry.code.now).types
        (func_of here.entry.body.now) here.entry.func here.entry.block slots.now matched 0 (map arm_of arms.now) }
{
    let mut total: u64 = 0;
    'arms: for arm in arms {
        let rows = jump_rows(books, here, slots, &arm.fields, matched, arm.target);
        total = total.saturating_add(rows);
    }
    total
}

// The rows of a result: of the value, and of what is given back.
fn ret_rows(books: Books<'_>, here: Here<'_>, slots: &[Slot], taken: Taken, local: u32) -> u64
    ensures { result ≡ ret_rows (code_of books.entry.code.now).types (func_of here.entry.body.now) here.entry.func here.entry.block slots.now taken local }
{
    let need = Origin::Result { func: here.func };
    local_rows(books, here, slots, local, need).saturating_add(back_rows(taken))
}

// The rows of a tail call: those of a call, and then those of a result.
fn tail_rows(
    books: Books<'_>,
    here: Here<'_>,
    slots: &[Slot],
    taken: Taken,
    callee: u32,
    args: &[u32],
) -> u64
    ensures { result ≡ tail_rows (code_of books.entry.code.now)
        (func_of here.entry.body.now) here.entry.func here.entry.block slots.now taken callee args.now }
{
    let have = Origin::Result { func: callee };
    let need = Origin::Result { func: here.func };
    let call = call_rows(books, here, slots, taken, callee, args);
    let value = value_rows(books, Some(here.body.result), have, need);
    let back = back_rows(taken_behind_call(here.func, taken, callee));
    call.saturating_add(value.saturating_add(back))
}

/// The rows of the end of a block.
pub(crate) fn term_rows(
    books: Books<'_>,
    here: Here<'_>,
    slots: &[Slot],
    taken: Taken,
    term: &Term,
) -> u64
    ensures { result ≡ term_rows (code_of books.entry.code.now)
        (func_of here.entry.body.now) here.entry.func here.entry.block slots.now taken (term_of term.now) }
{
    match term {
        Term::Ret(local) => ret_rows(books, here, slots, taken, *local),
        Term::Tail { func, args } => tail_rows(books, here, slots, taken, *func, args),
        Term::Goto(to) => plain_jump_rows(books, here, slots, *to),
        Term::If { cond: _, yes, no } => plain_jump_rows(books, here, slots, *yes).saturating_add(
            plain_jump_rows(books, here, slots, *no),
        ),
        Term::Case { on, arms } => {
            let matched = origin_at(here, slots, *on);
            arms_rows(books, here, slots, matched, arms)
        }
    }
}

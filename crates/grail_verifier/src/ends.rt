ghost use Rattle.std.specs.Prelude.{◌≡◌, ◌+◌, [], slice_get, map, Some, cond};
ghost use Rattle.std.specs.Option.{option_map, option_or};
ghost use Rattle.annotations.specs.Vectors.{at, is_heap_con};
ghost use Rattle.grail_code.specs.Code.{arm_of, term_of, code_of};
ghost use Rattle.grail_code.specs.Code.{func_of as body_of};
ghost use Rattle.grail_code.specs.WellFormed.{kind_of};
ghost use Rattle.grail_verifier.specs.Numbered.{held, block_in, func_in};
ghost use Rattle.grail_verifier.specs.Remembered.{IsSound};
ghost use Rattle.licence.specs.Rules.{first_con_of};
ghost use Rattle.licence.specs.Sites.{site_of};
ghost use Rattle.grail_verifier.specs.Finding.{Finds};
ghost use Rattle.grail_verifier.specs.Walk.{capped, left_short, value_short, local_short, bound, line_at, line_short, jump_short, given, left_in_arm, arms_short, case_short, tail_short, term_short};

use super::books::{Books, Here};
use super::lets::{check_call, is_heap_con, left_behind_call, lines_of};
use super::memo::Memo;
use super::numbered::{BlockLines, FuncLines};
use super::short::Short;
use super::values::{check_left, check_local, check_params, check_value, slot};
use grail_code::{CaseArm, CaseCell, Term};
use licence::first_con_of;

/// The line of a block after the first. Where the certificate fits, it stands one place before its number.
pub(crate) fn line_at<'a>(
    books: Books<'_>,
    own: &'a FuncLines<'_>,
    block: u32,
) -> Option<&'a BlockLines>
    ensures { option_map (λ b. block_in books.entry.lines.now.held b.now) result ≡ line_at (func_in books.entry.lines.now.held own.now).blocks block }
{
    if block == 0 {
        None
    } else {
        own.blocks.get(block as usize - 1)
    }
}

// A jump to the block of this line, where an arm has bound these fields.
fn check_line(
    books: Books<'_>,
    memo: &mut Memo,
    here: Here<'_>,
    slots: &[u32],
    fields: &[u32],
    matched: u32,
    line: &BlockLines,
) -> Result<(), Short>
    requires sound { IsSound (code_of books.code.now).types books.lines.now.held memo.old }
    ensures found { Finds result (line_short (code_of books.entry.code.now).types (body_of here.entry.func.now)
        (site_of here.entry.site) here.entry.left
        (bound (map (held books.entry.lines.now.held) slots.now) fields.now
        (held books.entry.lines.now.held matched)) (Some (block_in books.entry.lines.now.held line.now))) }
    ensures sound { IsSound (code_of books.entry.code.now).types books.entry.lines.now.held memo.new }
{
    check_params(
        books, memo, here.func, here.site, slots, fields, matched, &line.vars,
    )?;
    check_left(here.site, here.left, line.need)
}

// A jump, where an arm has bound these fields.
fn check_jump(
    books: Books<'_>,
    memo: &mut Memo,
    own: &FuncLines<'_>,
    here: Here<'_>,
    slots: &[u32],
    fields: &[u32],
    matched: u32,
    to: u32,
) -> Result<(), Short>
    requires sound { IsSound (code_of books.code.now).types books.lines.now.held memo.old }
    ensures found { Finds result (jump_short (code_of books.entry.code.now).types (body_of here.entry.func.now)
        (func_in books.entry.lines.now.held own.now) (site_of here.entry.site) here.entry.left
        (bound (map (held books.entry.lines.now.held) slots.now) fields.now
        (held books.entry.lines.now.held matched)) to) }
    ensures sound { IsSound (code_of books.entry.code.now).types books.entry.lines.now.held memo.new }
{
    match line_at(books, own, to) {
        Some(line) => check_line(books, memo, here, slots, fields, matched, line),
        None => Ok(()),
    }
}

// A jump that binds nothing.
fn check_plain_jump(
    books: Books<'_>,
    memo: &mut Memo,
    own: &FuncLines<'_>,
    here: Here<'_>,
    slots: &[u32],
    to: u32,
) -> Result<(), Short>
    requires sound { IsSound (code_of books.code.now).types books.lines.now.held memo.old }
    ensures found { Finds result (jump_short (code_of books.entry.code.now).types (body_of here.entry.func.now)
        (func_in books.entry.lines.now.held own.now) (site_of here.entry.site) here.entry.left
        (bound (map (held books.entry.lines.now.held) slots.now) [] (held books.entry.lines.now.held 0)) to) }
    ensures sound { IsSound (code_of books.entry.code.now).types books.entry.lines.now.held memo.new }
{
    check_jump(books, memo, own, here, slots, &[], 0, to)
}

// What a matched node's cell gives back.
fn given(unit: u64, cell: CaseCell, left: u64) -> u64
    ensures { result ≡ given unit cell left }
{
    match cell {
        CaseCell::Free => left.saturating_add(unit),
        CaseCell::Inline | CaseCell::Keep(_) | CaseCell::Look => left,
    }
}

// What is left where what the matched node carries is there too.
fn left_with(books: Books<'_>, left: u64, matched: u32, con: u32) -> u64
    ensures { result ≡ cond (is_heap_con (code_of books.entry.code.now).types con) (capped (left + at (held books.entry.lines.now.held matched) con)) left }
{
    if is_heap_con(books, con) {
        left.saturating_add(books.lines.get(matched).at(con))
    } else {
        left
    }
}

// The arm of this constructor.
fn check_arm(
    books: Books<'_>,
    memo: &mut Memo,
    own: &FuncLines<'_>,
    here: Here<'_>,
    slots: &[u32],
    matched: u32,
    con: u32,
    arm: &CaseArm,
) -> Result<(), Short>
    requires sound { IsSound (code_of books.code.now).types books.lines.now.held memo.old }
    ensures found { Finds result (jump_short (code_of books.entry.code.now).types (body_of here.entry.func.now)
        (func_in books.entry.lines.now.held own.now) (site_of here.entry.site)
        (left_in_arm (code_of books.entry.code.now).types books.entry.lines.now.cert.unit here.entry.left
        (held books.entry.lines.now.held matched) con arm.now.cell)
        (bound (map (held books.entry.lines.now.held) slots.now) (arm_of arm.now).fields
        (held books.entry.lines.now.held matched)) arm.now.target) }
    ensures sound { IsSound (code_of books.entry.code.now).types books.entry.lines.now.held memo.new }
{
    let left = left_with(books, here.left, matched, con);
    let left = given(books.lines.unit(), arm.cell, left);
    let here = Here {
        func: here.func,
        site: here.site,
        left,
    };
    check_jump(
        books,
        memo,
        own,
        here,
        slots,
        &arm.fields,
        matched,
        arm.target,
    )
}

// The arms, of the constructors from this one on.
fn check_arms(
    books: Books<'_>,
    memo: &mut Memo,
    own: &FuncLines<'_>,
    here: Here<'_>,
    slots: &[u32],
    matched: u32,
    first: u32,
    arms: &[CaseArm],
) -> Result<(), Short>
    requires sound { IsSound (code_of books.code.now).types books.lines.now.held memo.old }
    ensures found { Finds result (arms_short (code_of books.entry.code.now).types books.entry.lines.now.cert.unit
        (body_of here.entry.func.now) (func_in books.entry.lines.now.held own.now)
        (site_of here.entry.site) here.entry.left (map (held books.entry.lines.now.held) slots.now)
        (held books.entry.lines.now.held matched) first (map arm_of arms.now)) }
    ensures sound { IsSound (code_of books.entry.code.now).types books.entry.lines.now.held memo.new }
{
    let mut con = first;
    'arms: for arm in arms {
        check_arm(books, memo, own, here, slots, matched, con, arm)?;
        con = con.saturating_add(1);
    }
    Ok(())
}

// A tail call of a function with these lines.
fn check_tail(
    books: Books<'_>,
    memo: &mut Memo,
    own: &FuncLines<'_>,
    here: Here<'_>,
    slots: &[u32],
    callee: &FuncLines<'_>,
    args: &[u32],
) -> Result<(), Short>
    requires sound { IsSound (code_of books.code.now).types books.lines.now.held memo.old }
    ensures found { Finds result (tail_short (code_of books.entry.code.now).types (body_of here.entry.func.now)
        (func_in books.entry.lines.now.held own.now) (site_of here.entry.site) here.entry.left
        (map (held books.entry.lines.now.held) slots.now) args.now
        (Some (func_in books.entry.lines.now.held callee.now))) }
    ensures sound { IsSound (code_of books.entry.code.now).types books.entry.lines.now.held memo.new }
{
    let kind = here.func.result;
    check_call(books, memo, here, slots, callee, args)?;
    check_value(books, memo, here.site, kind, callee.result, own.result)?;
    check_left(
        here.site,
        left_behind_call(books, here.left, callee),
        own.back,
    )
}

// The function's result and what it gives back.
fn check_ret(
    books: Books<'_>,
    memo: &mut Memo,
    own: &FuncLines<'_>,
    here: Here<'_>,
    slots: &[u32],
    local: u32,
) -> Result<(), Short>
    requires sound { IsSound (code_of books.code.now).types books.lines.now.held memo.old }
    ensures found { Finds result (option_or (local_short (code_of books.entry.code.now).types
        (body_of here.entry.func.now) (site_of here.entry.site)
        (slice_get (map (held books.entry.lines.now.held) slots.now)) (Some local)
        (func_in books.entry.lines.now.held own.now).result)
        (left_short (site_of here.entry.site) here.entry.left (func_in books.entry.lines.now.held own.now).back)) }
    ensures sound { IsSound (code_of books.entry.code.now).types books.entry.lines.now.held memo.new }
{
    check_local(books, memo, here.func, here.site, slots, local, own.result)?;
    check_left(here.site, here.left, own.back)
}

// A choice by the constructor of a local.
fn check_case(
    books: Books<'_>,
    memo: &mut Memo,
    own: &FuncLines<'_>,
    here: Here<'_>,
    slots: &[u32],
    on: u32,
    arms: &[CaseArm],
) -> Result<(), Short>
    requires sound { IsSound (code_of books.code.now).types books.lines.now.held memo.old }
    ensures found { Finds result (case_short (code_of books.entry.code.now).types books.entry.lines.now.cert.unit
        (body_of here.entry.func.now) (func_in books.entry.lines.now.held own.now)
        (site_of here.entry.site) here.entry.left (map (held books.entry.lines.now.held) slots.now)
        (slice_get (map (held books.entry.lines.now.held) slots.now) on)
        (first_con_of (code_of books.entry.code.now).types (kind_of (body_of here.entry.func.now) on))
        (map arm_of arms.now)) }
    ensures sound { IsSound (code_of books.entry.code.now).types books.entry.lines.now.held memo.new }
{
    let first = first_con_of(&books.code.types, here.func.kind_of(on));
    match slot(books, slots, on) {
        Some(matched) => check_arms(books, memo, own, here, slots, matched, first, arms),
        None => Ok(()),
    }
}

// A choice of two blocks.
fn check_if(
    books: Books<'_>,
    memo: &mut Memo,
    own: &FuncLines<'_>,
    here: Here<'_>,
    slots: &[u32],
    yes: u32,
    no: u32,
) -> Result<(), Short>
    requires sound { IsSound (code_of books.code.now).types books.lines.now.held memo.old }
    ensures found { Finds result (option_or (jump_short (code_of books.entry.code.now).types
        (body_of here.entry.func.now) (func_in books.entry.lines.now.held own.now)
        (site_of here.entry.site) here.entry.left
        (bound (map (held books.entry.lines.now.held) slots.now) [] (held books.entry.lines.now.held 0)) yes)
        (jump_short (code_of books.entry.code.now).types (body_of here.entry.func.now)
        (func_in books.entry.lines.now.held own.now) (site_of here.entry.site) here.entry.left
        (bound (map (held books.entry.lines.now.held) slots.now) [] (held books.entry.lines.now.held 0)) no)) }
    ensures sound { IsSound (code_of books.entry.code.now).types books.entry.lines.now.held memo.new }
{
    check_plain_jump(books, memo, own, here, slots, yes)?;
    check_plain_jump(books, memo, own, here, slots, no)
}

/// The end of a block.
pub(crate) fn check_end(
    books: Books<'_>,
    memo: &mut Memo,
    own: &FuncLines<'_>,
    here: Here<'_>,
    slots: &[u32],
    term: &Term,
) -> Result<(), Short>
    requires sound { IsSound (code_of books.code.now).types books.lines.now.held memo.old }
    ensures found { Finds result (term_short (code_of books.entry.code.now) books.entry.lines.now.cert
        (held books.entry.lines.now.held 0) (body_of here.entry.func.now)
        (func_in books.entry.lines.now.held own.now) (site_of here.entry.site) here.entry.left
        (map (held books.entry.lines.now.held) slots.now) (term_of term.now)) }
    ensures sound { IsSound (code_of books.entry.code.now).types books.entry.lines.now.held memo.new }
{
    match term {
        Term::Ret(local) => check_ret(books, memo, own, here, slots, *local),
        Term::Tail { func, args } => match lines_of(books, *func) {
            Some(callee) => check_tail(books, memo, own, here, slots, callee, args),
            None => Ok(()),
        },
        Term::Goto(to) => check_plain_jump(books, memo, own, here, slots, *to),
        Term::If { cond: _, yes, no } => check_if(books, memo, own, here, slots, *yes, *no),
        Term::Case { on, arms } => check_case(books, memo, own, here, slots, *on, arms),
    }
}

ghost use Rattle.std.specs.Prelude.{◌≡◌, slice_get, slice_set, map, Some, IfOk};
ghost use Rattle.std.specs.Option.{option_map, option_or};
ghost use Rattle.annotations.specs.Vectors.{is_heap_con};
ghost use Rattle.grail_code.specs.Code.{op_of, let_of, code_of};
ghost use Rattle.grail_code.specs.Code.{func_of as body_of};
ghost use Rattle.grail_verifier.specs.Numbered.{held, func_in};
ghost use Rattle.grail_verifier.specs.Remembered.{IsSound};
ghost use Rattle.licence.specs.Sites.{site_of};
ghost use Rattle.grail_verifier.specs.Finding.{Finds};
ghost use Rattle.grail_verifier.specs.Walk.{left_short, all_short, cost, call_short, make_short, op_short, left_behind_call, left_behind_make, left_behind, put, slots_behind_call, slots_behind};

use super::books::{Books, Here};
use super::memo::Memo;
use super::numbered::FuncLines;
use super::short::Short;
use super::values::{check_all, check_arguments, check_left, slot};
use grail_code::{Let, Op, Place};
use licence::Site;

/// Whether the constructor belongs to a heap type.
pub(crate) fn is_heap_con(books: Books<'_>, con: u32) -> bool
    ensures { result ≡ is_heap_con (code_of books.entry.code.now).types con }
{
    books.table.is_heap_con(con)
}

// What a build takes: what its node is to carry, and a cell's price where it takes a new cell.
fn cost(unit: u64, place: Place, units: u64) -> u64
    ensures { result ≡ cost unit place units }
{
    match place {
        Place::New => units.saturating_add(unit),
        Place::Inline | Place::Reuse(_) => units,
    }
}

// The local's value carries these from now on.
#[tactic(auto, using(std::proofs::lemmas::List::set_past))]
pub(crate) fn put(books: Books<'_>, slots: &mut [u32], local: u32, number: u32)
    ensures { map (held books.entry.lines.now.held) slots.new
        ≡ slice_set (map (held books.entry.lines.now.held) slots.old) local (held books.entry.lines.now.held number) }
{
    if (local as usize) < slots.len() {
        slots[local as usize] = number;
    }
}

// A copy carries what its operand does.
fn copy(books: Books<'_>, slots: &mut [u32], target: u32, source: u32)
    ensures { map (held books.entry.lines.now.held) slots.new
        ≡ put (map (held books.entry.lines.now.held) slots.old) target
        (slice_get (map (held books.entry.lines.now.held) slots.old) source) }
{
    if let Some(number) = slot(books, slots, source) {
        put(books, slots, target, number);
    }
}

// What is left where a call took its need and gave back.
pub(crate) fn left_behind_call(books: Books<'_>, left: u64, callee: &FuncLines<'_>) -> u64
    ensures { result ≡ left_behind_call left (Some (func_in books.entry.lines.now.held callee.now)) }
{
    left.saturating_sub(callee.need).saturating_add(callee.back)
}

/// The lines of a function, where they are there.
pub(crate) fn lines_of<'a>(books: Books<'a>, number: u32) -> Option<&'a FuncLines<'a>>
    ensures { option_map (λ f. func_in books.entry.lines.now.held f.now) result ≡ slice_get books.entry.lines.now.cert.funcs number }
{
    books.lines.func(number)
}

/// A call's arguments and what it needs.
pub(crate) fn check_call(
    books: Books<'_>,
    memo: &mut Memo,
    here: Here<'_>,
    slots: &[u32],
    callee: &FuncLines<'_>,
    args: &[u32],
) -> Result<(), Short>
    requires sound { IsSound (code_of books.code.now).types books.lines.now.held memo.old }
    ensures found { Finds result (call_short (code_of books.entry.code.now).types (body_of here.entry.func.now)
        (site_of here.entry.site) here.entry.left (map (held books.entry.lines.now.held) slots.now) args.now
        (Some (func_in books.entry.lines.now.held callee.now))) }
    ensures sound { IsSound (code_of books.entry.code.now).types books.entry.lines.now.held memo.new }
{
    check_arguments(
        books,
        memo,
        here.func,
        here.site,
        slots,
        args,
        &callee.params,
    )?;
    check_left(here.site, here.left, callee.need)
}

// A build of a constructor of a heap type.
fn check_build(
    books: Books<'_>,
    memo: &mut Memo,
    here: Here<'_>,
    slots: &[u32],
    made: u32,
    args: &[u32],
    cost: u64,
) -> Result<(), Short>
    requires sound { IsSound (code_of books.code.now).types books.lines.now.held memo.old }
    ensures found { Finds result (option_or (all_short (code_of books.entry.code.now).types
        (body_of here.entry.func.now) (site_of here.entry.site)
        (slice_get (map (held books.entry.lines.now.held) slots.now)) args.now
        (held books.entry.lines.now.held made)) (left_short (site_of here.entry.site) here.entry.left cost)) }
    ensures sound { IsSound (code_of books.entry.code.now).types books.entry.lines.now.held memo.new }
{
    check_all(books, memo, here.func, here.site, slots, args, made)?;
    check_left(here.site, here.left, cost)
}

// A build, and what is left behind it.
fn check_make(
    books: Books<'_>,
    memo: &mut Memo,
    here: Here<'_>,
    slots: &[u32],
    made: u32,
    con: u32,
    args: &[u32],
    place: Place,
) -> Result<u64, Short>
    requires sound { IsSound (code_of books.code.now).types books.lines.now.held memo.old }
    ensures found { Finds result (make_short (code_of books.entry.code.now).types books.entry.lines.now.cert.unit
        (body_of here.entry.func.now) (site_of here.entry.site) here.entry.left
        (map (held books.entry.lines.now.held) slots.now) (held books.entry.lines.now.held made) con args.now place) }
    ensures left { IfOk result (λ left. left ≡ left_behind_make
        (code_of books.entry.code.now).types books.entry.lines.now.cert.unit here.entry.left
        (held books.entry.lines.now.held made) con place) }
    ensures sound { IsSound (code_of books.entry.code.now).types books.entry.lines.now.held memo.new }
{
    if !is_heap_con(books, con) {
        return Ok(here.left);
    }
    let cost = cost(books.lines.unit(), place, books.lines.get(made).at(con));
    check_build(books, memo, here, slots, made, args, cost)?;
    Ok(here.left.saturating_sub(cost))
}

/// What a let binds, and what is left behind it.
pub(crate) fn check_op(
    books: Books<'_>,
    memo: &mut Memo,
    here: Here<'_>,
    slots: &[u32],
    made: u32,
    op: &Op,
) -> Result<u64, Short>
    requires sound { IsSound (code_of books.code.now).types books.lines.now.held memo.old }
    ensures found { Finds result (op_short (code_of books.entry.code.now) books.entry.lines.now.cert
        (body_of here.entry.func.now) (site_of here.entry.site) here.entry.left
        (map (held books.entry.lines.now.held) slots.now) (held books.entry.lines.now.held made) (op_of op.now)) }
    ensures left { IfOk result (λ left. left ≡ left_behind
        (code_of books.entry.code.now) books.entry.lines.now.cert here.entry.left
        (held books.entry.lines.now.held made) (op_of op.now)) }
    ensures sound { IsSound (code_of books.entry.code.now).types books.entry.lines.now.held memo.new }
{
    match op {
        Op::Make { con, args, place } => {
            check_make(books, memo, here, slots, made, *con, args, *place)
        }
        Op::Call { func, args } => match lines_of(books, *func) {
            Some(callee) => {
                check_call(books, memo, here, slots, callee, args)?;
                Ok(left_behind_call(books, here.left, callee))
            }
            None => Ok(here.left),
        },
        Op::Lit(_) | Op::Flag(_) | Op::Copy(_) | Op::Prim { .. } => Ok(here.left),
    }
}

/// The target of a let carries what is said of it.
pub(crate) fn bind(books: Books<'_>, slots: &mut [u32], made: u32, binding: &Let)
    ensures { map (held books.entry.lines.now.held) slots.new
        ≡ slots_behind (code_of books.entry.code.now) books.entry.lines.now.cert
        (map (held books.entry.lines.now.held) slots.old) (held books.entry.lines.now.held made)
        (let_of binding.now) }
{
    match &binding.op {
        Op::Copy(source) => copy(books, slots, binding.target, *source),
        Op::Make { con, .. } => {
            if is_heap_con(books, *con) {
                put(books, slots, binding.target, made);
            }
        }
        Op::Call { func, .. } => {
            if let Some(callee) = lines_of(books, *func) {
                put(books, slots, binding.target, callee.result);
            }
        }
        Op::Lit(_) | Op::Flag(_) | Op::Prim { .. } => {}
    }
}

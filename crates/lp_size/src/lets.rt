ghost use Rattle.std.specs.Prelude.{◌≡◌, slice_get};
ghost use Rattle.std.specs.Option.{option_map};
ghost use Rattle.grail_code.specs.Code.{op_of, let_of, func_of, code_of};
ghost use Rattle.lp_size.specs.declared.origins.Origin.TheVariants.{Made};
ghost use Rattle.lp_size.specs.Counting.{called_rows, call_rows, op_rows, taken_behind, slots_behind};

use super::books::{Books, Here};
use super::origins::{Origin, Slot, origin_at, put};
use super::taken::{Taken, need_rows, taken_behind_call};
use super::values::{args_rows, fields_rows};
use grail_code::{Func, Let, Op};

// What the build at this place makes.
fn made(here: Here<'_>, place: usize) -> Origin
    ensures { result ≡ Made here.entry.func here.entry.block place }
{
    Origin::Made {
        func: here.func,
        block: here.block,
        place,
    }
}

// The function of this number.
fn func_at(books: Books<'_>, number: u32) -> Option<&Func>
    ensures { option_map (λ f. func_of f.now) result ≡ slice_get (code_of books.entry.code.now).funcs number }
{
    books.code.funcs.get(number as usize)
}

// The rows of a call's arguments.
fn called_rows(books: Books<'_>, here: Here<'_>, slots: &[Slot], callee: u32, args: &[u32]) -> u64
    ensures { result ≡ called_rows (code_of books.entry.code.now).types (func_of here.entry.body.now)
        here.entry.func here.entry.block slots.now callee args.now
        (slice_get (code_of books.entry.code.now).funcs callee) }
{
    match func_at(books, callee) {
        Some(called) => args_rows(books, here, slots, callee, called, args),
        None => 0,
    }
}

/// The rows of a call: of its arguments, and of the callee's need.
pub(crate) fn call_rows(
    books: Books<'_>,
    here: Here<'_>,
    slots: &[Slot],
    taken: Taken,
    callee: u32,
    args: &[u32],
) -> u64
    ensures { result ≡ call_rows (code_of books.entry.code.now)
        (func_of here.entry.body.now) here.entry.func here.entry.block slots.now taken callee args.now }
{
    called_rows(books, here, slots, callee, args).saturating_add(need_rows(
        here.func, taken, callee,
    ))
}

/// The rows of a let.
pub(crate) fn op_rows(
    books: Books<'_>,
    here: Here<'_>,
    slots: &[Slot],
    taken: Taken,
    place: usize,
    op: &Op,
) -> u64
    ensures { result ≡ op_rows (code_of books.entry.code.now)
        (func_of here.entry.body.now) here.entry.func here.entry.block slots.now taken place (op_of op.now) }
{
    match op {
        Op::Make { con, args, .. } => {
            if books.table.is_heap_con(*con) {
                fields_rows(books, here, slots, made(here, place), args).saturating_add(1)
            } else {
                0
            }
        }
        Op::Call { func, args } => call_rows(books, here, slots, taken, *func, args),
        Op::Lit(_) | Op::Flag(_) | Op::Copy(_) | Op::Prim { .. } => 0,
    }
}

/// What was taken, behind a let.
pub(crate) fn taken_behind(books: Books<'_>, func: u32, taken: Taken, op: &Op) -> Taken
    ensures { result ≡ taken_behind (code_of books.entry.code.now).types func taken (op_of op.now) }
{
    match op {
        Op::Make { con, .. } => {
            if books.table.is_heap_con(*con) {
                Taken::More
            } else {
                taken
            }
        }
        Op::Call { func: callee, .. } => taken_behind_call(func, taken, *callee),
        Op::Lit(_) | Op::Flag(_) | Op::Copy(_) | Op::Prim { .. } => taken,
    }
}

/// The target of a let carries what it's bound to.
pub(crate) fn bind(
    books: Books<'_>,
    here: Here<'_>,
    slots: &mut [Slot],
    place: usize,
    binding: &Let,
)
    ensures { slots.new ≡ slots_behind (code_of books.entry.code.now).types here.entry.func here.entry.block slots.old place (let_of binding.now) }
{
    let target = binding.target;
    match &binding.op {
        Op::Copy(source) => {
            let origin = origin_at(here, slots, *source);
            put(here, slots, target, origin);
        }
        Op::Make { con, .. } => {
            if books.table.is_heap_con(*con) {
                put(here, slots, target, made(here, place));
            }
        }
        Op::Call { func, .. } => put(here, slots, target, Origin::Result { func: *func }),
        Op::Lit(_) | Op::Flag(_) | Op::Prim { .. } => {}
    }
}

ghost use Rattle.std.specs.Prelude.{◌≡◌, ◌++◌, map, OnOk, slice_get};
ghost use Rattle.std.specs.Option.{option_map};
ghost use Rattle.dual_simplex.specs.Systems.{plain_row};
ghost use Rattle.annotations.specs.Vectors.{is_heap_con};
ghost use Rattle.grail_code.specs.Code.{let_of, op_of, func_of, code_of};
ghost use Rattle.lp_system.specs.Unknowns.{Made};
ghost use Rattle.licence.specs.Sites.{site_of};
ghost use Rattle.lp_rows.specs.Plain.{plain, units_of, dense_of, names};
ghost use Rattle.lp_rows.specs.Walk.{argument_rows, price, made_rows, call_rows, op_rows, left_called, left_after, carried_after};

use super::books::{Books, Here};
use super::form::Form;
use super::rows::push_left;
use super::slots::{bind, origin_at};
use super::unknown::{Origin, Unknown, unit};
use super::values::{push_all, push_arguments};
use dual_simplex::Row;
use grail_code::{Func, Let, Op, Place};
use licence::Site;
use std::alloc::AllocError;

/// Whether the constructor belongs to a heap type.
pub(crate) fn is_heap_con(books: Books<'_>, con: u32) -> bool
    ensures { result ≡ is_heap_con (code_of books.entry.code.now).types con }
{
    books.table.is_heap_con(con)
}

// The cells that a build takes.
fn price(place: Place) -> i64
    ensures { result ≡ price place }
{
    match place {
        Place::New => 1,
        Place::Inline | Place::Reuse(_) => 0,
    }
}

// What the build at this place makes.
fn made(site: Site) -> Origin
    ensures { units_of result ≡ Made site.func site.block site.place }
{
    Origin::Made {
        func: site.func,
        block: site.block,
        place: site.place,
    }
}

// The function of this number.
fn func_at(books: Books<'_>, number: u32) -> Option<&Func>
    ensures { option_map (λ f. func_of f.now) result ≡ slice_get (code_of books.entry.code.now).funcs number }
{
    books.code.funcs.get(number as usize)
}

// The rows of arguments against the parameters of a function.
fn push_called(
    books: Books<'_>,
    here: Here<'_>,
    rows: &mut Vec<Row>,
    slots: &[Origin],
    callee: u32,
    args: &[u32],
) -> Result<(), AllocError>
    ensures { OnOk result (map plain_row rows.new.items ≡ map plain_row rows.old.items ++ argument_rows
        (code_of books.entry.code.now).types (map plain books.entry.unknowns.now) (func_of here.entry.func.now)
        (names here.entry.site.func here.entry.site.block slots.now) callee args.now
        (slice_get (code_of books.entry.code.now).funcs callee)) }
{
    match func_at(books, callee) {
        Some(func) => push_arguments(books, here, rows, slots, callee, func, args),
        None => Ok(()),
    }
}

/// The rows of a call's arguments and of what it needs.
pub(crate) fn push_call(
    books: Books<'_>,
    here: Here<'_>,
    rows: &mut Vec<Row>,
    left: &Form,
    slots: &[Origin],
    callee: u32,
    args: &[u32],
) -> Result<(), AllocError>
    ensures { OnOk result (map plain_row rows.new.items ≡ map plain_row rows.old.items ++ call_rows
        (code_of books.entry.code.now) (map plain books.entry.unknowns.now) (func_of here.entry.func.now)
        (dense_of left.now) (names here.entry.site.func here.entry.site.block slots.now) callee args.now) }
{
    push_called(books, here, rows, slots, callee, args)?;
    push_left(books, rows, left, &Unknown::Need { func: callee }, 0)
}

// The rows of a build.
#[tactic(auto, using(crate::proofs::Turns::two_where))]
fn push_made(
    books: Books<'_>,
    here: Here<'_>,
    rows: &mut Vec<Row>,
    left: &Form,
    slots: &[Origin],
    con: u32,
    args: &[u32],
    place: Place,
) -> Result<(), AllocError>
    ensures { OnOk result (map plain_row rows.new.items ≡ map plain_row rows.old.items ++ made_rows
        (code_of books.entry.code.now).types (map plain books.entry.unknowns.now) (func_of here.entry.func.now)
        (site_of here.entry.site) (dense_of left.now)
        (names here.entry.site.func here.entry.site.block slots.now) con args.now place) }
{
    if !is_heap_con(books, con) {
        return Ok(());
    }
    let made = made(here.site);
    push_all(books, here, rows, slots, args, made)?;
    push_left(books, rows, left, &unit(made, con), price(place))
}

/// The rows of what a let binds.
pub(crate) fn push_op(
    books: Books<'_>,
    here: Here<'_>,
    rows: &mut Vec<Row>,
    left: &Form,
    slots: &[Origin],
    op: &Op,
) -> Result<(), AllocError>
    ensures { OnOk result (map plain_row rows.new.items ≡ map plain_row rows.old.items ++ op_rows
        (code_of books.entry.code.now) (map plain books.entry.unknowns.now) (func_of here.entry.func.now)
        (site_of here.entry.site) (dense_of left.now) (names here.entry.site.func here.entry.site.block slots.now)
        (op_of op.now)) }
{
    match op {
        Op::Make { con, args, place } => {
            push_made(books, here, rows, left, slots, *con, args, *place)
        }
        Op::Call { func, args } => push_call(books, here, rows, left, slots, *func, args),
        Op::Lit(_) | Op::Flag(_) | Op::Copy(_) | Op::Prim { .. } => Ok(()),
    }
}

/// A call takes its need, and gives back.
pub(crate) fn call(books: Books<'_>, left: &mut Form, callee: u32)
    ensures { dense_of left.new ≡ left_called (map plain books.entry.unknowns.now) (dense_of left.old) callee }
{
    left.take(books.unknowns, &Unknown::Need { func: callee }, 0);
    left.give(books.unknowns, &Unknown::Back { func: callee });
}

// What a let takes and gives back.
pub(crate) fn pay(books: Books<'_>, site: Site, left: &mut Form, op: &Op)
    ensures { dense_of left.new ≡ left_after (code_of books.entry.code.now).types
        (map plain books.entry.unknowns.now) (site_of site) (dense_of left.old) (op_of op.now) }
{
    match op {
        Op::Make { con, place, .. } => {
            if is_heap_con(books, *con) {
                left.take(books.unknowns, &unit(made(site), *con), price(*place));
            }
        }
        Op::Call { func, .. } => call(books, left, *func),
        Op::Lit(_) | Op::Flag(_) | Op::Copy(_) | Op::Prim { .. } => {}
    }
}

/// Where the target of a let has its units from.
pub(crate) fn rebind(
    books: Books<'_>,
    site: Site,
    slots: &mut Vec<Origin>,
    binding: &Let,
) -> Result<(), AllocError>
    ensures { OnOk result (names site.func site.block slots.new.items ≡ carried_after
        (code_of books.entry.code.now).types (site_of site) (names site.func site.block slots.old.items)
        (let_of binding.now).target (let_of binding.now).op) }
{
    match &binding.op {
        Op::Copy(source) => {
            let origin = origin_at(site, slots, *source);
            bind(site, slots, binding.target, origin)
        }
        Op::Make { con, .. } => {
            if is_heap_con(books, *con) {
                bind(site, slots, binding.target, made(site))
            } else {
                Ok(())
            }
        }
        Op::Call { func, .. } => {
            bind(site, slots, binding.target, Origin::Outcome { func: *func })
        }
        Op::Lit(_) | Op::Flag(_) | Op::Prim { .. } => Ok(()),
    }
}

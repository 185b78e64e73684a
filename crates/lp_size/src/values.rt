ghost use Rattle.std.specs.Prelude.{◌≡◌, ◌+◌, length};
ghost use Rattle.grail_code.specs.Code.{func_of, code_of};
ghost use Rattle.lp_system.specs.Unknowns.{carriers, local_carriers};
ghost use Rattle.lp_system.specs.Looked.{AreLooked};
ghost use Rattle.lp_size.specs.Counting.{value_rows, local_rows, arg_rows, args_onto, fields_onto};

use super::books::{Books, Here};
use super::origins::{Origin, Slot, is_same, origin_at};
use camelot_values::Kind;
use grail_code::Func;
use lp_system::{is_marked, local_carriers};

/// How many constructors values of this kind carry units on.
pub(crate) fn carrier_count(books: Books<'_>, kind: Option<Kind>) -> u64
    ensures { result ≡ length (carriers (code_of books.entry.code.now).types kind) }
{
    match kind {
        Some(kind) => books.table.reached(kind).len() as u64,
        None => 0,
    }
}

/// How many constructors a local's value carries units on.
pub(crate) fn local_count(books: Books<'_>, body: &Func, looked: &[bool], local: u32) -> u64
    requires looked { AreLooked (func_of body.now) looked.now }
    ensures { result ≡ length (local_carriers (code_of books.entry.code.now).types (func_of body.now) local) }
{
    local_carriers(&books.code.types, books.table, body, looked, local).len() as u64
}

/// The rows of a value of this kind, constructor by constructor: none where the same units are there and asked.
pub(crate) fn value_rows(books: Books<'_>, kind: Option<Kind>, have: Origin, need: Origin) -> u64
    ensures { result ≡ value_rows (code_of books.entry.code.now).types kind have need }
{
    if is_same(have, need) {
        0
    } else {
        carrier_count(books, kind)
    }
}

/// The rows of a local of which this is asked.
pub(crate) fn local_rows(
    books: Books<'_>,
    here: Here<'_>,
    slots: &[Slot],
    local: u32,
    need: Origin,
) -> u64
    ensures { result ≡ local_rows (code_of books.entry.code.now).types (func_of here.entry.body.now) here.entry.func here.entry.block slots.now local need }
{
    let have = origin_at(here, slots, local);
    value_rows(books, here.body.kind_of(local), have, need)
}

// The rows of an argument against the parameter of this number: none where it's only read.
fn arg_rows(
    books: Books<'_>,
    here: Here<'_>,
    slots: &[Slot],
    callee: u32,
    called: &Func,
    number: usize,
    local: u32,
) -> u64
    ensures { result ≡ arg_rows (code_of books.entry.code.now).types (func_of here.entry.body.now)
        here.entry.func here.entry.block slots.now callee (func_of called.now) number local }
{
    if is_marked(called, number) {
        return 0;
    }
    let need = Origin::Param {
        func: callee,
        local: number,
    };
    local_rows(books, here, slots, local, need)
}

/// The rows of the arguments of a call, of each of which what the callee's parameter carries is asked, unless it's only
/// read.
pub(crate) fn args_rows(
    books: Books<'_>,
    here: Here<'_>,
    slots: &[Slot],
    callee: u32,
    called: &Func,
    args: &[u32],
) -> u64
    ensures { result ≡ args_onto (code_of books.entry.code.now).types (func_of here.entry.body.now)
        here.entry.func here.entry.block slots.now callee (func_of called.now) 0 0 args.now }
{
    let mut total: u64 = 0;
    let mut number: usize = 0;
    'locals: for local in args {
        let rows = arg_rows(books, here, slots, callee, called, number, *local);
        total = total.saturating_add(rows);
        number += 1;
    }
    total
}

/// The rows of the arguments of a build, of all of which the same is asked.
pub(crate) fn fields_rows(
    books: Books<'_>,
    here: Here<'_>,
    slots: &[Slot],
    made: Origin,
    args: &[u32],
) -> u64
    ensures { result ≡ fields_onto (code_of books.entry.code.now).types
        (func_of here.entry.body.now) here.entry.func here.entry.block slots.now made 0 args.now }
{
    let mut total: u64 = 0;
    'locals: for local in args {
        total = total.saturating_add(local_rows(books, here, slots, *local, made));
    }
    total
}

ghost use Rattle.std.specs.Prelude.{◌≡◌, ◌++◌, ◌-◌, map, OnOk, length};
ghost use Rattle.licence.specs.Rules.{arguments_asks};
ghost use Rattle.dual_simplex.specs.Systems.{plain_row};
ghost use Rattle.annotations.specs.Tables.{table_of};
ghost use Rattle.grail_code.specs.Code.{func_of, code_of};
ghost use Rattle.lp_system.specs.Unknowns.{Param, BlockVar, carriers};
ghost use Rattle.lp_rows.specs.Plain.{plain, units_of, names};
ghost use Rattle.grail_code.specs.WellFormed.{is_marked};
ghost use Rattle.lp_rows.specs.Walk.{bound, cons_rows, value_rows, local_rows, argument_rows_at};

use super::books::{Books, Here};
use super::rows::push_unknown;
use super::slots::{bound_at, origin_at};
use super::unknown::{Origin, unit};
use annotations::ReachTable;
use camelot_values::{Kind, Types};
use dual_simplex::Row;
use grail_code::Func;
use lp_system::is_marked;
use std::alloc::AllocError;

/// The constructors that values of the kind carry units on.
pub(crate) fn carriers<'a>(types: &Types, table: &'a ReachTable, kind: Option<Kind>) -> &'a [u32]
    requires { table.now ≡ table_of types.now }
    ensures { result.now ≡ carriers types.now kind }
{
    match kind {
        Some(kind) => table.reached(kind),
        None => &[],
    }
}

// The rows of these constructors of a value.
fn push_cons(
    books: Books<'_>,
    rows: &mut Vec<Row>,
    have: Origin,
    need: Origin,
    cons: &[u32],
) -> Result<(), AllocError>
    ensures { OnOk result (map plain_row rows.new.items ≡ map plain_row rows.old.items ++ cons_rows
        (map plain books.entry.unknowns.now) (units_of have) (units_of need) cons.now) }
{
    'cons: for con in cons {
        push_unknown(books, rows, &unit(have, *con), &unit(need, *con))?;
    }
    Ok(())
}

/// Adds the rows of a value of this kind against what is asked of it. What has its units from there itself asks
/// nothing.
#[tactic(auto, using(crate::proofs::Turns::same_value))]
pub(crate) fn push_value(
    books: Books<'_>,
    rows: &mut Vec<Row>,
    kind: Option<Kind>,
    have: Origin,
    need: Origin,
) -> Result<(), AllocError>
    ensures { OnOk result (map plain_row rows.new.items ≡ map plain_row rows.old.items ++ value_rows
        (code_of books.entry.code.now).types (map plain books.entry.unknowns.now) kind (units_of have)
        (units_of need)) }
{
    if have == need {
        return Ok(());
    }
    let cons = carriers(&books.code.types, books.table, kind);
    push_cons(books, rows, have, need, cons)
}

/// Adds the rows of these locals, each against the same.
pub(crate) fn push_all(
    books: Books<'_>,
    here: Here<'_>,
    rows: &mut Vec<Row>,
    slots: &[Origin],
    locals: &[u32],
    need: Origin,
) -> Result<(), AllocError>
    ensures { OnOk result (map plain_row rows.new.items ≡ map plain_row rows.old.items ++ local_rows
        (code_of books.entry.code.now).types (map plain books.entry.unknowns.now) (func_of here.entry.func.now)
        (names here.entry.site.func here.entry.site.block slots.now) (map (λ x. (x, units_of need)) locals.now)) }
{
    'locals: for local in locals {
        let have = origin_at(here.site, slots, *local);
        push_value(books, rows, here.func.kind_of(*local), have, need)?;
    }
    Ok(())
}

// Adds the rows of an argument against the parameter of this number. One that is only read is asked nothing.
fn push_argument(
    books: Books<'_>,
    here: Here<'_>,
    rows: &mut Vec<Row>,
    slots: &[Origin],
    callee: u32,
    called: &Func,
    number: u32,
    local: u32,
) -> Result<(), AllocError>
    ensures { OnOk result (map plain_row rows.new.items ≡ map plain_row rows.old.items ++ argument_rows_at
        (code_of books.entry.code.now).types (map plain books.entry.unknowns.now) (func_of here.entry.func.now)
        (names here.entry.site.func here.entry.site.block slots.now) callee (func_of called.now) number local) }
{
    if is_marked(called, number as usize) {
        return Ok(());
    }
    let have = origin_at(here.site, slots, local);
    let need = Origin::Param {
        func: callee,
        var: number,
    };
    push_value(books, rows, here.func.kind_of(local), have, need)
}

/// Adds the rows of arguments against the parameters of a function.
#[tactic(auto, using(crate::proofs::Turns::no_argument, crate::proofs::Turns::no_more_arguments))]
pub(crate) fn push_arguments(
    books: Books<'_>,
    here: Here<'_>,
    rows: &mut Vec<Row>,
    slots: &[Origin],
    callee: u32,
    called: &Func,
    args: &[u32],
) -> Result<(), AllocError>
    ensures { OnOk result (map plain_row rows.new.items ≡ map plain_row rows.old.items ++ local_rows
        (code_of books.entry.code.now).types (map plain books.entry.unknowns.now) (func_of here.entry.func.now)
        (names here.entry.site.func here.entry.site.block slots.now)
        (arguments_asks (λ x con. Param callee x con) (is_marked (func_of called.now)) 0
        (length called.now.params.items) args.now)) }
{
    let count = called.params.len() as u32;
    let mut var = 0;
    let mut rest = args;
    'arguments: while let [local, others @ ..] = rest {
        if var >= count {
            break;
        }
        push_argument(books, here, rows, slots, callee, called, var, *local)?;
        rest = others;
        var += 1;
    }
    Ok(())
}

/// Adds the rows of the parameters of a block, where an arm has bound these fields. Of one that is lent nothing is
/// unknown, so that its rows have no terms, and aren't kept.
pub(crate) fn push_vars(
    books: Books<'_>,
    here: Here<'_>,
    rows: &mut Vec<Row>,
    slots: &[Origin],
    fields: &[u32],
    matched: Origin,
    to: u32,
    vars: &[u32],
) -> Result<(), AllocError>
    ensures { OnOk result (map plain_row rows.new.items ≡ map plain_row rows.old.items ++ local_rows
        (code_of books.entry.code.now).types (map plain books.entry.unknowns.now) (func_of here.entry.func.now)
        (bound (names here.entry.site.func here.entry.site.block slots.now) fields.now (units_of matched))
        (map (λ x. (x, λ con. BlockVar here.entry.site.func to x con)) vars.now)) }
{
    'vars: for var in vars {
        let have = bound_at(here.site, slots, fields, matched, *var);
        let need = Origin::BlockVar {
            func: here.site.func,
            block: to,
            var: *var,
        };
        push_value(books, rows, here.func.kind_of(*var), have, need)?;
    }
    Ok(())
}

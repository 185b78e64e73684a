ghost use Rattle.std.specs.Prelude.{◌≡◌, ◌++◌, ◌∷◌, [], pos, map, IfOk, OnOk};
ghost use Rattle.std.specs.List.{filter};
ghost use Rattle.dual_simplex.specs.Systems.{plain_row};
ghost use Rattle.lp_system.specs.Forms.{asks, has_terms};
ghost use Rattle.lp_rows.specs.Dense.{ticks, once_with, term_at, terms_less, row};
ghost use Rattle.lp_rows.specs.Plain.{plain, dense_of};

use super::books::Books;
use super::form::{Form, less};
use super::unknown::{Unknown, tick};
use dual_simplex::{Row, Summand};
use std::alloc::AllocError;

// Adds a term, where the factor isn't 0.
fn push_term(terms: &mut Vec<Summand>, unknown: u32, factor: i64) -> Result<(), AllocError>
    ensures { OnOk result (terms.new.items ≡ terms.old.items ++ term_at unknown factor) }
{
    if factor != 0 {
        terms.push(Summand { unknown, factor })?;
    }
    Ok(())
}

// The terms of one unknown less another one.
fn unknown_terms(
    books: Books<'_>,
    have: &Unknown,
    need: &Unknown,
) -> Result<Vec<Summand>, AllocError>
    ensures { IfOk result (λ terms. terms.items ≡ terms_less 0
        (ticks (map plain books.entry.unknowns.now) (plain have.now))
        (ticks (map plain books.entry.unknowns.now) (plain need.now))) }
{
    let mut terms = Vec::new(books.alloc);
    let mut number = 0;
    let mut rest = books.unknowns;
    'unknowns: while let [unknown, others @ ..] = rest {
        push_term(&mut terms, number, less(tick(have, unknown), need, unknown))?;
        rest = others;
        number += 1;
    }
    Ok(terms)
}

// The terms of what is left less an unknown.
fn left_terms(books: Books<'_>, left: &[i64], need: &Unknown) -> Result<Vec<Summand>, AllocError>
    ensures { IfOk result (λ terms. terms.items ≡ terms_less 0 left.now (ticks (map plain books.entry.unknowns.now) (plain need.now))) }
{
    let mut terms = Vec::new(books.alloc);
    let mut number = 0;
    let mut factors = left;
    let mut rest = books.unknowns;
    'unknowns: while let [unknown, others @ ..] = rest {
        let [factor, further @ ..] = factors else {
            break;
        };
        push_term(&mut terms, number, less(*factor, need, unknown))?;
        factors = further;
        rest = others;
        number += 1;
    }
    Ok(terms)
}

// Whether there are terms.
fn has_terms(terms: &[Summand]) -> bool
    ensures { result ≡ has_terms terms.now }
{
    match terms {
        [] => false,
        [_, ..] => true,
    }
}

// Whether a row asks anything. One without unknowns that holds doesn't.
fn asks(row: &Row) -> bool
    ensures { result ≡ asks (plain_row row.now) }
{
    if has_terms(&row.terms) {
        return true;
    }
    row.least > 0
}

// Adds a row, where it asks anything.
fn push_row(rows: &mut Vec<Row>, row: Row) -> Result<(), AllocError>
    ensures { OnOk result (map plain_row rows.new.items ≡ map plain_row rows.old.items ++ filter asks (plain_row row ∷ [])) }
{
    if asks(&row) {
        rows.push(row)?;
    }
    Ok(())
}

/// Adds the row of one unknown against another.
pub(crate) fn push_unknown(
    books: Books<'_>,
    rows: &mut Vec<Row>,
    have: &Unknown,
    need: &Unknown,
) -> Result<(), AllocError>
    ensures { OnOk result (map plain_row rows.new.items ≡ map plain_row rows.old.items ++ filter asks
        (row (once_with (map plain books.entry.unknowns.now) (pos 0) (plain have.now))
        (once_with (map plain books.entry.unknowns.now) (pos 0) (plain need.now)) ∷ [])) }
{
    let terms = unknown_terms(books, have, need)?;
    push_row(rows, Row { terms, least: 0 })
}

/// Adds the row of what is left against an unknown and so many cells.
pub(crate) fn push_left(
    books: Books<'_>,
    rows: &mut Vec<Row>,
    left: &Form,
    need: &Unknown,
    cells: i64,
) -> Result<(), AllocError>
    ensures { OnOk result (map plain_row rows.new.items ≡ map plain_row rows.old.items ++ filter asks
        (row (dense_of left.now) (once_with (map plain books.entry.unknowns.now) cells (plain need.now)) ∷ [])) }
{
    let terms = left_terms(books, &left.factors, need)?;
    let least = cells.wrapping_sub(left.constant);
    push_row(rows, Row { terms, least })
}

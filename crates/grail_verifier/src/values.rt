ghost use Rattle.std.specs.Prelude.{◌≡◌, slice_get, map, Some, MatchOption, nat_lt, length};
ghost use Rattle.std.specs.Option.{option_map};
ghost use Rattle.camelot_values.specs.Lists.{is_among};
ghost use Rattle.grail_code.specs.Code.{func_of, code_of};
ghost use Rattle.grail_verifier.specs.Numbered.{held, var_in};
ghost use Rattle.grail_verifier.specs.Remembered.{IsSound};
ghost use Rattle.annotations.specs.Vectors.{at, AtLeast, IsFirstBelow};
ghost use Rattle.camelot_values.specs.declared.kinds.Kind.TheVariants.{Of};
ghost use Rattle.licence.specs.Checks.{left_check};
ghost use Rattle.licence.specs.Sites.{site_of};
ghost use Rattle.grail_verifier.specs.Finding.{Finds};
ghost use Rattle.grail_verifier.specs.Walk.{left_short, value_short, held_short, local_short, asked_short, all_short, bound};

use super::books::Books;
use super::memo::Memo;
use super::numbered::VarLine;
use super::short::Short;
use annotations::{Vector, first_below};
use camelot_values::Kind;
use grail_code::Func;
use licence::Site;

// Annotations of so many constructors are walked each time they are compared.
const LONG: usize = 32;

/// Refuses what is left where it is less than is needed.
pub(crate) fn check_left(site: Site, have: u64, need: u64) -> Result<(), Short>
    ensures { Finds result (left_short (site_of site) have need) }
{
    if have < need {
        Err(Short {
            func: site.func,
            block: site.block,
            place: site.place,
            con: None,
            have,
            need,
        })
    } else {
        Ok(())
    }
}

// The first constructor that the kind reaches of which the first annotations have fewer units, by walking both.
fn walk_both(books: Books<'_>, kind: Kind, have: u32, need: u32) -> Option<u32>
    ensures { MatchOption result (AtLeast (code_of books.entry.code.now).types kind
        (at (held books.entry.lines.now.held have)) (at (held books.entry.lines.now.held need)))
        (λ con. IsFirstBelow (code_of books.entry.code.now).types kind (at (held books.entry.lines.now.held have))
        (at (held books.entry.lines.now.held need)) con) }
{
    first_below(
        books.lines.get(have),
        books.lines.get(need),
        books.table,
        kind,
    )
}

// The same for a value of the type of this number, where what passes is kept.
fn walk_once(books: Books<'_>, memo: &mut Memo, number: u32, have: u32, need: u32) -> Option<u32>
    requires sound { IsSound (code_of books.code.now).types books.lines.now.held memo.old }
    ensures found { MatchOption result
        (AtLeast (code_of books.entry.code.now).types (Of number) (at (held books.entry.lines.now.held have))
        (at (held books.entry.lines.now.held need)))
        (λ con. IsFirstBelow (code_of books.entry.code.now).types (Of number)
        (at (held books.entry.lines.now.held have)) (at (held books.entry.lines.now.held need)) con) }
    ensures sound { IsSound (code_of books.entry.code.now).types books.entry.lines.now.held memo.new }
{
    if memo.has(have, need, number) {
        return None;
    }
    let below = walk_both(books, Kind::Of(number), have, need);
    if below.is_none() {
        memo.add(have, need, number);
    }
    below
}

// Whether the annotations have more constructors than are walked each time.
fn is_long(vector: &Vector) -> bool
    ensures { result ≡ nat_lt 32 (length vector.now) }
{
    vector.pairs().len() > LONG
}

// The same, where long annotations that pass are kept. It is kept out of the loops over parameters, few of which come
// here.
#[cold]
#[inline(never)]
fn walk_of(books: Books<'_>, memo: &mut Memo, number: u32, have: u32, need: u32) -> Option<u32>
    requires sound { IsSound (code_of books.code.now).types books.lines.now.held memo.old }
    ensures found { MatchOption result
        (AtLeast (code_of books.entry.code.now).types (Of number) (at (held books.entry.lines.now.held have))
        (at (held books.entry.lines.now.held need)))
        (λ con. IsFirstBelow (code_of books.entry.code.now).types (Of number)
        (at (held books.entry.lines.now.held have)) (at (held books.entry.lines.now.held need)) con) }
    ensures sound { IsSound (code_of books.entry.code.now).types books.entry.lines.now.held memo.new }
{
    if is_long(books.lines.get(have)) || is_long(books.lines.get(need)) {
        walk_once(books, memo, number, have, need)
    } else {
        walk_both(books, Kind::Of(number), have, need)
    }
}

// The same, where what passed last against the second annotations isn't walked again.
fn walk_new(books: Books<'_>, memo: &mut Memo, number: u32, have: u32, need: u32) -> Option<u32>
    requires sound { IsSound (code_of books.code.now).types books.lines.now.held memo.old }
    ensures found { MatchOption result
        (AtLeast (code_of books.entry.code.now).types (Of number) (at (held books.entry.lines.now.held have))
        (at (held books.entry.lines.now.held need)))
        (λ con. IsFirstBelow (code_of books.entry.code.now).types (Of number)
        (at (held books.entry.lines.now.held have)) (at (held books.entry.lines.now.held need)) con) }
    ensures sound { IsSound (code_of books.entry.code.now).types books.entry.lines.now.held memo.new }
{
    if memo.is_last(have, need, number) {
        return None;
    }
    let below = walk_of(books, memo, number, have, need);
    if below.is_none() {
        memo.put_last(have, need, number);
    }
    below
}

// The first constructor that the kind reaches of which the first annotations have fewer units. The same annotations
// aren't walked, nor those that passed last; and long ones that pass are walked once.
#[tactic(auto, using(crate::proofs::Remembering::same_number))]
fn first_fewer(books: Books<'_>, memo: &mut Memo, kind: Kind, have: u32, need: u32) -> Option<u32>
    requires sound { IsSound (code_of books.code.now).types books.lines.now.held memo.old }
    ensures found { MatchOption result
        (AtLeast (code_of books.entry.code.now).types kind (at (held books.entry.lines.now.held have))
        (at (held books.entry.lines.now.held need)))
        (λ con. IsFirstBelow (code_of books.entry.code.now).types kind (at (held books.entry.lines.now.held have))
        (at (held books.entry.lines.now.held need)) con) }
    ensures sound { IsSound (code_of books.entry.code.now).types books.entry.lines.now.held memo.new }
{
    if have == need {
        return None;
    }
    match kind {
        Kind::Of(number) => walk_new(books, memo, number, have, need),
        Kind::Int | Kind::Flag | Kind::Dia => walk_both(books, kind, have, need),
    }
}

/// Refuses a value of this kind that carries less than is asked, by the first constructor that the kind reaches and
/// that has fewer units.
#[inline(always)]
#[tactic(auto, using(crate::proofs::Reached::enough, crate::proofs::Reached::fewer))]
pub(crate) fn check_value(
    books: Books<'_>,
    memo: &mut Memo,
    site: Site,
    kind: Kind,
    have: u32,
    need: u32,
) -> Result<(), Short>
    requires sound { IsSound (code_of books.code.now).types books.lines.now.held memo.old }
    ensures found { Finds result (value_short (code_of books.entry.code.now).types (site_of site) kind
        (held books.entry.lines.now.held have) (held books.entry.lines.now.held need)) }
    ensures sound { IsSound (code_of books.entry.code.now).types books.entry.lines.now.held memo.new }
{
    match first_fewer(books, memo, kind, have, need) {
        None => Ok(()),
        Some(con) => Err(Short {
            func: site.func,
            block: site.block,
            place: site.place,
            con: Some(con),
            have: books.lines.get(have).at(con),
            need: books.lines.get(need).at(con),
        }),
    }
}

// A value that is there.
#[inline(always)]
fn check_held(
    books: Books<'_>,
    memo: &mut Memo,
    site: Site,
    kind: Option<Kind>,
    have: Option<u32>,
    need: u32,
) -> Result<(), Short>
    requires sound { IsSound (code_of books.code.now).types books.lines.now.held memo.old }
    ensures found { Finds result (held_short (code_of books.entry.code.now).types (site_of site) kind
        (option_map (held books.entry.lines.now.held) have) (held books.entry.lines.now.held need)) }
    ensures sound { IsSound (code_of books.entry.code.now).types books.entry.lines.now.held memo.new }
{
    match (kind, have) {
        (Some(kind), Some(have)) => check_value(books, memo, site, kind, have, need),
        _ => Ok(()),
    }
}

/// The annotations of a local, where it is there.
pub(crate) fn slot(books: Books<'_>, slots: &[u32], local: u32) -> Option<u32>
    ensures { option_map (held books.entry.lines.now.held) result ≡ slice_get (map (held books.entry.lines.now.held) slots.now) local }
{
    slots.get(local as usize).copied()
}

/// A local against what is asked of it. One that isn't there asks nothing.
pub(crate) fn check_local(
    books: Books<'_>,
    memo: &mut Memo,
    func: &Func,
    site: Site,
    slots: &[u32],
    local: u32,
    need: u32,
) -> Result<(), Short>
    requires sound { IsSound (code_of books.code.now).types books.lines.now.held memo.old }
    ensures found { Finds result (local_short (code_of books.entry.code.now).types (func_of func.now) (site_of site)
        (slice_get (map (held books.entry.lines.now.held) slots.now)) (Some local)
        (held books.entry.lines.now.held need)) }
    ensures sound { IsSound (code_of books.entry.code.now).types books.entry.lines.now.held memo.new }
{
    check_held(
        books,
        memo,
        site,
        func.kind_of(local),
        slot(books, slots, local),
        need,
    )
}

// The argument of this number.
fn argument(args: &[u32], number: u32) -> Option<u32>
    ensures { result ≡ slice_get args.now number }
{
    args.get(number as usize).copied()
}

// The argument of a line against it.
fn check_argument(
    books: Books<'_>,
    memo: &mut Memo,
    func: &Func,
    site: Site,
    slots: &[u32],
    args: &[u32],
    line: &VarLine,
) -> Result<(), Short>
    requires sound { IsSound (code_of books.code.now).types books.lines.now.held memo.old }
    ensures found { Finds result (local_short (code_of books.entry.code.now).types (func_of func.now) (site_of site)
        (slice_get (map (held books.entry.lines.now.held) slots.now)) (slice_get args.now line.now.var)
        (var_in books.entry.lines.now.held line.now).vector) }
    ensures sound { IsSound (code_of books.entry.code.now).types books.entry.lines.now.held memo.new }
{
    match argument(args, line.var) {
        Some(local) => check_local(books, memo, func, site, slots, local, line.number),
        None => Ok(()),
    }
}

/// Arguments against the lines of parameters. A parameter without a line asks nothing; a marked one has none.
pub(crate) fn check_arguments(
    books: Books<'_>,
    memo: &mut Memo,
    func: &Func,
    site: Site,
    slots: &[u32],
    args: &[u32],
    lines: &[VarLine],
) -> Result<(), Short>
    requires sound { IsSound (code_of books.code.now).types books.lines.now.held memo.old }
    ensures found { Finds result (asked_short (code_of books.entry.code.now).types (func_of func.now) (site_of site)
        (slice_get (map (held books.entry.lines.now.held) slots.now)) (slice_get args.now)
        (map (var_in books.entry.lines.now.held) lines.now)) }
    ensures sound { IsSound (code_of books.entry.code.now).types books.entry.lines.now.held memo.new }
{
    'lines: for line in lines {
        check_argument(books, memo, func, site, slots, args, line)?;
    }
    Ok(())
}

/// These locals, each against the same.
pub(crate) fn check_all(
    books: Books<'_>,
    memo: &mut Memo,
    func: &Func,
    site: Site,
    slots: &[u32],
    locals: &[u32],
    need: u32,
) -> Result<(), Short>
    requires sound { IsSound (code_of books.code.now).types books.lines.now.held memo.old }
    ensures found { Finds result (all_short (code_of books.entry.code.now).types (func_of func.now) (site_of site)
        (slice_get (map (held books.entry.lines.now.held) slots.now)) locals.now
        (held books.entry.lines.now.held need)) }
    ensures sound { IsSound (code_of books.entry.code.now).types books.entry.lines.now.held memo.new }
{
    'locals: for local in locals {
        check_local(books, memo, func, site, slots, *local, need)?;
    }
    Ok(())
}

// The annotations of a local where an arm has bound these fields.
#[tactic(auto, unfolding(crate::specs::Walk::bound))]
fn bound(books: Books<'_>, slots: &[u32], fields: &[u32], matched: u32, local: u32) -> Option<u32>
    ensures { option_map (held books.entry.lines.now.held) result
        ≡ bound (map (held books.entry.lines.now.held) slots.now) fields.now
        (held books.entry.lines.now.held matched) local }
{
    if fields.contains(&local) {
        Some(matched)
    } else {
        slot(books, slots, local)
    }
}

/// Locals against the lines of a block's parameters, where an arm has bound these fields. A parameter without a line
/// asks nothing.
pub(crate) fn check_params(
    books: Books<'_>,
    memo: &mut Memo,
    func: &Func,
    site: Site,
    slots: &[u32],
    fields: &[u32],
    matched: u32,
    lines: &[VarLine],
) -> Result<(), Short>
    requires sound { IsSound (code_of books.code.now).types books.lines.now.held memo.old }
    ensures found { Finds result (asked_short (code_of books.entry.code.now).types (func_of func.now) (site_of site)
        (bound (map (held books.entry.lines.now.held) slots.now) fields.now
        (held books.entry.lines.now.held matched)) Some (map (var_in books.entry.lines.now.held) lines.now)) }
    ensures sound { IsSound (code_of books.entry.code.now).types books.entry.lines.now.held memo.new }
{
    'lines: for line in lines {
        let have = bound(books, slots, fields, matched, line.var);
        check_held(books, memo, site, func.kind_of(line.var), have, line.number)?;
    }
    Ok(())
}

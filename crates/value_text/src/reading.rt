ghost use Rattle.std.specs.Prelude.{◌≡◌, ◌++◌, ◌∷◌, [], ◌<◌, ◌≤◌, List, length, IfOk, OnOk, MatchResult};
ghost use Rattle.value_text.specs.Grammar.{AreNamed, DistinctNames};
ghost use Rattle.value_text.specs.Dues.{Due, Value, Mark as MarkDue};
ghost use Rattle.value_text.specs.Due.{Reading, Possible, Whole, first_due, parts_due, further_due, others_due, IsStop};
ghost use Rattle.value_text.specs.Later.{later_due, NextDue};
ghost use Rattle.value_text.specs.Inhabited.{Knows};

use super::behind::Later;
use super::cutting::skip_spaces;
use super::inhabited::Inhabited;
use super::nodes::{front_part, read_mark, read_node};
use camelot_values::{Item, Kind, Types};
use std::alloc::Global;

// Why a text wasn't read.
pub(crate) enum TextStop {
    Memory,
    // The text is none of values of these kinds; so long is its longest front that begins one.
    At(usize),
}

// Reads a mark, where one is due in front of others.
#[inline(always)]
fn follow_mark<'a>(
    types: &Types,
    kinds: &[Kind],
    text: &[u8],
    rest: &'a [u8],
    mark: u8,
) -> Result<&'a [u8], TextStop>
    requires named { AreNamed types.now }
    ensures shorter { IfOk result (λ after. length after.now < length rest.now) }
    ensures reading { (xs : List Item) (ds : List Due) → Reading types.now (first_due kinds.now) text.now xs (MarkDue mark ∷ ds) rest.now
        → MatchResult result (λ after. Reading types.now (first_due kinds.now) text.now xs ds after.now)
        (λ stop. IsStop types.now kinds.now text.now stop) }
{
    match read_mark(rest, mark) {
        Ok(after) => Ok(after),
        Err(left) => Err(TextStop::At(text.len().saturating_sub(left))),
    }
}

// Reads the ends of nodes that are complete.
#[inline(always)]
fn close<'a>(
    types: &Types,
    kinds: &[Kind],
    text: &[u8],
    items: &Vec<Item>,
    rest: &'a [u8],
    later: &mut Later,
) -> Result<&'a [u8], TextStop>
    requires named { AreNamed types.now }
    requires inner { later.old.inner.now ≡ [] }
    requires reading { Reading types.now (first_due kinds.now) text.now items.now.items
        (later_due later.old.inner.now later.old.closed later.old.frames.items later.old.others.now) rest.now }
    ensures shorter { IfOk result (λ after. length after.now ≤ length rest.now) }
    ensures inner { OnOk result (later.new.inner.now ≡ []) }
    ensures closed { OnOk result (later.new.closed ≡ 0) }
    ensures reading { MatchResult result
        (λ after. Reading types.now (first_due kinds.now) text.now items.now.items
        (later_due later.new.inner.now later.new.closed later.new.frames.items later.new.others.now) after.now)
        (λ stop. IsStop types.now kinds.now text.now stop) }
{
    let mut after = rest;
    let mut closed = later.closed;
    'closed: while closed > 0 {
        match follow_mark(types, kinds, text, after, b')') {
            Ok(behind) => after = behind,
            Err(stop) => return Err(stop),
        }
        closed -= 1;
    }
    later.closed = closed;
    Ok(after)
}

// Reads the space in front of the next value, where there is one, and gives its kind. It is called, so that the loop
// over nodes carries nothing of the other values.
#[inline(never)]
fn next_value<'a>(
    types: &Types,
    kinds: &[Kind],
    text: &[u8],
    items: &Vec<Item>,
    rest: &'a [u8],
    later: &mut Later,
) -> Result<(Option<Kind>, &'a [u8]), TextStop>
    requires named { AreNamed types.now }
    requires inner { later.old.inner.now ≡ [] }
    requires closed { later.old.closed ≡ 0 }
    requires frames { later.old.frames.items ≡ [] }
    requires reading { Reading types.now (first_due kinds.now) text.now items.now.items (others_due later.old.others.now) rest.now }
    ensures shorter { IfOk result (λ next. length next.1.now ≤ length rest.now) }
    ensures reading { MatchResult result
        (λ next. NextDue types.now (first_due kinds.now) text.now items.now.items
        (later_due later.new.inner.now later.new.closed later.new.frames.items later.new.others.now)
        next.0 next.1.now)
        (λ stop. IsStop types.now kinds.now text.now stop) }
{
    match later.others {
        [] => Ok((None, rest)),
        [kind, others @ ..] => match follow_mark(types, kinds, text, rest, b' ') {
            Ok(after) => {
                later.others = others;
                Ok((Some(*kind), after))
            }
            Err(stop) => Err(stop),
        },
    }
}

// Reads the mark in front of a part, where one is due in front of others of its node, and gives the part's kind.
#[inline(always)]
fn enter<'a, 'b>(
    types: &Types,
    kinds: &[Kind],
    text: &[u8],
    items: &Vec<Item>,
    rest: &'a [u8],
    mark: u8,
    kind: Kind,
    others: &'b [Kind],
    later: &mut Later<'b>,
) -> Result<(Option<Kind>, &'a [u8]), TextStop>
    requires named { AreNamed types.now }
    requires reading { Reading types.now (first_due kinds.now) text.now items.now.items
        (MarkDue mark ∷ Value kind ∷
        (further_due others.now ++ later_due later.old.inner.now later.old.closed later.old.frames.items later.old.others.now)) rest.now }
    ensures shorter { IfOk result (λ next. length next.1.now ≤ length rest.now) }
    ensures reading { MatchResult result
        (λ next. NextDue types.now (first_due kinds.now) text.now items.now.items
        (later_due later.new.inner.now later.new.closed later.new.frames.items later.new.others.now)
        next.0 next.1.now)
        (λ stop. IsStop types.now kinds.now text.now stop) }
{
    let after = match follow_mark(types, kinds, text, rest, mark) {
        Ok(after) => after,
        Err(stop) => return Err(stop),
    };
    match later.put_off(others) {
        Ok(()) => Ok((Some(kind), after)),
        Err(_) => Err(TextStop::Memory),
    }
}

// Reads what stands behind a part that is complete, up to the next value.
#[inline(always)]
fn leave<'a>(
    types: &Types,
    kinds: &[Kind],
    text: &[u8],
    items: &Vec<Item>,
    rest: &'a [u8],
    later: &mut Later,
) -> Result<(Option<Kind>, &'a [u8]), TextStop>
    requires named { AreNamed types.now }
    requires reading { Reading types.now (first_due kinds.now) text.now items.now.items
        (later_due later.old.inner.now later.old.closed later.old.frames.items later.old.others.now) rest.now }
    ensures shorter { IfOk result (λ next. length next.1.now ≤ length rest.now) }
    ensures reading { MatchResult result
        (λ next. NextDue types.now (first_due kinds.now) text.now items.now.items
        (later_due later.new.inner.now later.new.closed later.new.frames.items later.new.others.now)
        next.0 next.1.now)
        (λ stop. IsStop types.now kinds.now text.now stop) }
{
    if let Some((kind, others)) = later.next_inner() {
        return enter(types, kinds, text, items, rest, b',', kind, others, later);
    }
    let after = match close(types, kinds, text, items, rest, later) {
        Ok(after) => after,
        Err(stop) => return Err(stop),
    };
    match later.next_part() {
        Some((kind, others)) => enter(types, kinds, text, items, after, b',', kind, others, later),
        None => next_value(types, kinds, text, items, after, later),
    }
}

// Reads an int that is due in front of other parts of its node, with the comma behind it, where both stand there as
// they are printed, and gives the next part's kind, those of the parts behind it, and the text from there.
#[inline(always)]
fn pass_int<'a, 'b>(
    types: &Types,
    kinds: &[Kind],
    text: &[u8],
    rest: &'a [u8],
    kind: Kind,
    others: &'b [Kind],
    items: &mut Vec<Item>,
) -> Result<(Kind, &'b [Kind], &'a [u8]), TextStop>
    requires named { AreNamed types.now }
    ensures shorter { IfOk result (λ part. length part.2.now ≤ length rest.now) }
    ensures reading { (ds : List Due) → Reading types.now (first_due kinds.now) text.now items.old.items (Value kind ∷ (further_due others.now ++ ds)) rest.now
        → MatchResult result
        (λ part. Reading types.now (first_due kinds.now) text.now items.new.items (Value part.0 ∷ (further_due part.1.now ++ ds)) part.2.now)
        (λ stop. IsStop types.now kinds.now text.now stop) }
{
    match front_part(kind, others, rest) {
        Some(part) => match items.push(part.item) {
            Ok(()) => Ok((part.next, part.others, part.rest)),
            Err(_) => Err(TextStop::Memory),
        },
        None => Ok((kind, others, rest)),
    }
}

// Reads the mark in front of the first part of a node, and that part too where it is an int in front of others.
#[inline(always)]
fn begin_parts<'a, 'b>(
    types: &Types,
    kinds: &[Kind],
    text: &[u8],
    rest: &'a [u8],
    kind: Kind,
    others: &'b [Kind],
    later: &mut Later<'b>,
    items: &mut Vec<Item>,
) -> Result<(Option<Kind>, &'a [u8]), TextStop>
    requires named { AreNamed types.now }
    requires reading { Reading types.now (first_due kinds.now) text.now items.old.items
        (MarkDue 40 ∷ Value kind ∷
        (further_due others.now ++ later_due later.old.inner.now later.old.closed later.old.frames.items later.old.others.now)) rest.now }
    ensures shorter { IfOk result (λ next. length next.1.now ≤ length rest.now) }
    ensures reading { MatchResult result
        (λ next. NextDue types.now (first_due kinds.now) text.now items.new.items
        (later_due later.new.inner.now later.new.closed later.new.frames.items later.new.others.now)
        next.0 next.1.now)
        (λ stop. IsStop types.now kinds.now text.now stop) }
{
    let after = match follow_mark(types, kinds, text, rest, b'(') {
        Ok(after) => after,
        Err(stop) => return Err(stop),
    };
    let (next, further, behind) = match pass_int(types, kinds, text, after, kind, others, items) {
        Ok(part) => part,
        Err(stop) => return Err(stop),
    };
    match later.put_off(further) {
        Ok(()) => Ok((Some(next), behind)),
        Err(_) => Err(TextStop::Memory),
    }
}

// Reads what stands behind the word of a node with parts of these kinds, up to the next value.
#[inline(always)]
fn go_on<'a, 'b>(
    types: &Types,
    kinds: &[Kind],
    text: &[u8],
    rest: &'a [u8],
    fields: &'b [Kind],
    later: &mut Later<'b>,
    items: &mut Vec<Item>,
) -> Result<(Option<Kind>, &'a [u8]), TextStop>
    requires named { AreNamed types.now }
    requires reading { Reading types.now (first_due kinds.now) text.now items.old.items
        (parts_due fields.now ++ later_due later.old.inner.now later.old.closed later.old.frames.items later.old.others.now) rest.now }
    ensures shorter { IfOk result (λ next. length next.1.now ≤ length rest.now) }
    ensures reading { MatchResult result
        (λ next. NextDue types.now (first_due kinds.now) text.now items.new.items
        (later_due later.new.inner.now later.new.closed later.new.frames.items later.new.others.now)
        next.0 next.1.now)
        (λ stop. IsStop types.now kinds.now text.now stop) }
{
    match fields {
        [] => leave(types, kinds, text, items, rest, later),
        [kind, others @ ..] => {
            begin_parts(types, kinds, text, rest, *kind, others, later, items)
        }
    }
}

// Reads the word of a node, where a value is due, and what stands behind it up to the next value.
#[inline(always)]
fn follow_value<'a, 'b>(
    types: &'b Types,
    known: &Inhabited,
    kinds: &[Kind],
    text: &[u8],
    rest: &'a [u8],
    kind: Kind,
    later: &mut Later<'b>,
    items: &mut Vec<Item>,
) -> Result<(Option<Kind>, &'a [u8]), TextStop>
    requires named { AreNamed types.now }
    requires distinct { DistinctNames types.now }
    requires knows { Knows types.now known.now }
    requires reading { Reading types.now (first_due kinds.now) text.now items.old.items
        (Value kind ∷ later_due later.old.inner.now later.old.closed later.old.frames.items later.old.others.now) rest.now }
    ensures shorter { IfOk result (λ next. length next.1.now < length rest.now) }
    ensures reading { MatchResult result
        (λ next. NextDue types.now (first_due kinds.now) text.now items.new.items
        (later_due later.new.inner.now later.new.closed later.new.frames.items later.new.others.now)
        next.0 next.1.now)
        (λ stop. IsStop types.now kinds.now text.now stop) }
{
    let node = match read_node(types, known, kind, rest) {
        Ok(node) => node,
        Err(left) => return Err(TextStop::At(text.len().saturating_sub(left))),
    };
    match items.push(node.item) {
        Ok(()) => {}
        Err(_) => return Err(TextStop::Memory),
    }
    go_on(types, kinds, text, node.rest, node.fields, later, items)
}

// Reads the spaces at the end, where nothing more is due.
fn finish(
    types: &Types,
    kinds: &[Kind],
    text: &[u8],
    rest: &[u8],
    items: Vec<Item>,
) -> Result<Vec<Item>, TextStop>
    requires named { AreNamed types.now }
    requires reading { Reading types.now (first_due kinds.now) text.now items.items [] rest.now }
    ensures { MatchResult result (λ items. Whole types.now (first_due kinds.now) text.now items.items) (λ stop. IsStop types.now kinds.now text.now stop) }
{
    let rest = skip_spaces(rest);
    if rest.is_empty() {
        Ok(items)
    } else {
        Err(TextStop::At(text.len().saturating_sub(rest.len())))
    }
}

/// The nodes of the values of these kinds that the text is of.
pub(crate) fn read_items(
    alloc: Global,
    types: &Types,
    known: &Inhabited,
    kinds: &[Kind],
    text: &[u8],
) -> Result<Vec<Item>, TextStop>
    requires named { AreNamed types.now }
    requires distinct { DistinctNames types.now }
    requires knows { Knows types.now known.now }
    requires possible { Possible types.now (first_due kinds.now) }
    ensures { MatchResult result (λ items. Whole types.now (first_due kinds.now) text.now items.items) (λ stop. IsStop types.now kinds.now text.now stop) }
{
    // A node of an int in a list has four bytes and more, so that most texts take their room once.
    let mut items = match Vec::with_capacity(alloc, text.len() / 4 + 1) {
        Ok(items) => items,
        Err(_) => return Err(TextStop::Memory),
    };
    let (mut kind, others) = match kinds {
        [] => return finish(types, kinds, text, text, items),
        [kind, others @ ..] => (*kind, others),
    };
    let mut later = Later::values(alloc, others);
    let mut rest = text;
    'values: loop {
        match follow_value(
            types, known, kinds, text, rest, kind, &mut later, &mut items,
        ) {
            Ok((Some(next), after)) => {
                kind = next;
                rest = after;
            }
            Ok((None, after)) => return finish(types, kinds, text, after, items),
            Err(stop) => return Err(stop),
        }
    }
}

//! Ranges that leave the holes and come back to them. No call takes memory.
ghost use Rattle.std.specs.Prelude.{◌≡◌, ◌+◌, ◌<◌, ◌≤◌, length, map, slice_index_or, ◌↔◌, IsTrue, IfSome, IfNone, None, Some, vec_capacity};
ghost use Rattle.std.specs.List.{AllByRecursion, insert};
ghost use Rattle.cell_span.specs.Range.{Range, Meet};
ghost use Rattle.hole_list.specs.Placing.{AreOrdered, AreFreeOf};
ghost use Rattle.hole_list.specs.Holes.{run_of, take_cells, taken_cells, give_cells};
ghost use Rattle.hole_list.specs.Places.{too_small, ends_before, add_behind, add_before, add_between, AreOf};

use super::places::{count_ends_before, count_too_small};
use cell_span::Span;

/// Takes so many cells: the front of the first hole that has them. `None` where no hole has so many; all stays then.
#[tactic(auto, using(crate::proofs::AtPlaces::none_fits))]
pub fn take_first(spans: &mut Vec<Span>, size: u32) -> Option<Span>
    requires { 1 ≤ size }
    ensures none { IfNone result ((take_cells spans.old.items size ≡ None) × (spans.new.items ≡ spans.old.items)) }
    ensures some { IfSome result (λ range. take_cells spans.old.items size ≡ Some (taken_cells range spans.new.items)) }
    ensures room { vec_capacity spans.old ≤ vec_capacity spans.new }
{
    let at = count_too_small(spans, size);
    if at == spans.len() {
        return None;
    }
    Some(cut(spans, at, size))
}

// Takes the front of the hole at a place, which is the first one that has so many cells.
#[tactic(auto, using(crate::proofs::AtPlaces::takes_whole, crate::proofs::AtPlaces::takes_front, crate::proofs::AtPlaces::fits_here))]
fn cut(spans: &mut Vec<Span>, at: usize, size: u32) -> Span
    requires some { 1 ≤ size }
    requires place { at ≡ too_small spans.old.items size }
    requires within { at < length spans.old.items }
    ensures taken { take_cells spans.old.items size ≡ Some (taken_cells result spans.new.items) }
    ensures room { vec_capacity spans.old ≤ vec_capacity spans.new }
{
    if spans[at].len() == size {
        spans.remove(at)
    } else {
        let hole = &mut spans[at];
        hole.split_off_front(size)
    }
}

// Whether the hole at a place ends where the range begins.
#[tactic(auto, using(crate::proofs::AtPlaces::ends_where))]
fn ends_there(spans: &[Span], at: usize, span: &Span) -> bool
    requires { at < length spans.now }
    ensures { IsTrue result ↔ ((slice_index_or spans.now at span.now).first + length (slice_index_or spans.now at span.now).cells ≡ span.now.first) }
{
    let hole = &spans[at];
    hole.first() + hole.len() == span.first()
}

// Whether the hole at a place begins where the range ends.
#[tactic(auto, using(crate::proofs::AtPlaces::begins_where))]
fn begins_there(spans: &[Span], at: usize, span: &Span) -> bool
    requires { at < length spans.now }
    ensures { IsTrue result ↔ (span.now.first + length span.now.cells ≡ (slice_index_or spans.now at span.now).first) }
{
    let hole = &spans[at];
    span.first() + span.len() == hole.first()
}

// A range as a hole of its own, at its place; there is room for it.
#[tactic(auto, using(crate::proofs::AtPlaces::room_for))]
fn put_in(spans: &mut Vec<Span>, at: usize, span: Span)
    requires within { at ≤ length spans.old.items }
    requires place { insert spans.old.items at span ≡ give_cells spans.old.items span }
    requires room { length (give_cells spans.old.items span) ≤ vec_capacity spans.old }
    ensures given { spans.new.items ≡ give_cells spans.old.items span }
    ensures room { vec_capacity spans.old ≤ vec_capacity spans.new }
{
    match spans.insert(at, span) {
        Ok(()) => {}
        Err(_) => unreachable!(),
    }
}

// A range before the hole at its place, which it meets.
#[tactic(auto, using(crate::proofs::AtPlaces::set_before))]
fn put_before(spans: &mut Vec<Span>, at: usize, span: Span)
    requires within { at < length spans.old.items }
    requires meet { Meet span (slice_index_or spans.old.items at span) }
    requires place { add_before spans.old.items at span ≡ give_cells spans.old.items span }
    ensures given { spans.new.items ≡ give_cells spans.old.items span }
    ensures room { vec_capacity spans.old ≤ vec_capacity spans.new }
{
    let hole = &mut spans[at];
    hole.prepend(span);
}

// A range behind the hole at its place, which it meets.
#[tactic(auto, using(crate::proofs::AtPlaces::set_behind))]
fn put_behind(spans: &mut Vec<Span>, at: usize, span: Span)
    requires within { at < length spans.old.items }
    requires meet { Meet (slice_index_or spans.old.items at span) span }
    requires place { add_behind spans.old.items at span ≡ give_cells spans.old.items span }
    ensures given { spans.new.items ≡ give_cells spans.old.items span }
    ensures room { vec_capacity spans.old ≤ vec_capacity spans.new }
{
    let hole = &mut spans[at];
    hole.append(span);
}

// A range between the hole at its place and the next one, both of which it meets.
#[tactic(auto, using(crate::proofs::AtPlaces::between_is, crate::proofs::AtPlaces::meet_behind))]
fn put_between(spans: &mut Vec<Span>, at: usize, span: Span)
    requires within { at + 1 < length spans.old.items }
    requires last { Meet (slice_index_or spans.old.items at span) span }
    requires next { Meet span (slice_index_or spans.old.items (at + 1) span) }
    requires place { add_between spans.old.items at span ≡ give_cells spans.old.items span }
    ensures given { spans.new.items ≡ give_cells spans.old.items span }
    ensures room { vec_capacity spans.old ≤ vec_capacity spans.new }
{
    let next = spans.remove(at + 1);
    let hole = &mut spans[at];
    hole.append(span);
    hole.append(next);
}

/// A range comes back to the holes: as a hole of its own, or as one with those that it meets. There is room for it.
#[tactic(auto, using(crate::proofs::AtPlaces::merged_last, crate::proofs::AtPlaces::merged_far, crate::proofs::AtPlaces::merged_before, crate::proofs::AtPlaces::meets_last, crate::proofs::AtPlaces::meets_next))]
pub fn merge(spans: &mut Vec<Span>, span: Span)
    requires order { AreOrdered (map run_of spans.old.items) }
    requires free { AreFreeOf (map run_of spans.old.items) (run_of span) }
    requires arena { AreOf span.arena spans.old.items }
    requires room { length (give_cells spans.old.items span) ≤ vec_capacity spans.old }
    ensures given { spans.new.items ≡ give_cells spans.old.items span }
    ensures room { vec_capacity spans.old ≤ vec_capacity spans.new }
{
    let at = count_ends_before(spans, span.first());
    if at == spans.len() {
        return put_in(spans, at, span);
    }
    if ends_there(spans, at, &span) {
        return merge_behind(spans, at, span);
    }
    if begins_there(spans, at, &span) {
        return put_before(spans, at, span);
    }
    put_in(spans, at, span);
}

// A range that meets the hole at its place, behind it, comes back.
#[tactic(auto, using(crate::proofs::AtPlaces::merged_behind_last, crate::proofs::AtPlaces::merged_behind, crate::proofs::AtPlaces::merged_between, crate::proofs::AtPlaces::meets_last, crate::proofs::AtPlaces::meets_next))]
fn merge_behind(spans: &mut Vec<Span>, at: usize, span: Span)
    requires order { AreOrdered (map run_of spans.old.items) }
    requires free { AreFreeOf (map run_of spans.old.items) (run_of span) }
    requires arena { AreOf span.arena spans.old.items }
    requires place { at ≡ ends_before spans.old.items span.first }
    requires within { at < length spans.old.items }
    requires meets { (slice_index_or spans.old.items at span).first + length (slice_index_or spans.old.items at span).cells ≡ span.first }
    ensures given { spans.new.items ≡ give_cells spans.old.items span }
    ensures room { vec_capacity spans.old ≤ vec_capacity spans.new }
{
    span.limits();
    if at + 1 == spans.len() {
        return put_behind(spans, at, span);
    }
    if begins_there(spans, at + 1, &span) {
        return put_between(spans, at, span);
    }
    put_behind(spans, at, span);
}

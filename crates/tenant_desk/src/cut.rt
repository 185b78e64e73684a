//! Runs that are cut into pieces, and joined again.
ghost use Rattle.std.specs.Prelude.{◌≡◌, ◌<◌, ◌≤◌, length, MatchResult, vec_capacity};
ghost use Rattle.std.specs.Option.{option_to_list};
ghost use Rattle.cell_span.specs.Range.{front, back};
ghost use Rattle.tenant_desk.specs.Desk.{if_any};
ghost use Rattle.tenant_desk.specs.Joining.{with_front, with_rest, MeetsRest};

use cell_span::Span;
use hole_list::{Holes, HolesRefused};
use std::alloc::Global;

/// The first cells of a run, and the others, where there are any.
pub fn cut_front(span: Span, at: u32) -> (Span, Option<Span>)
    requires some { 1 ≤ at }
    requires within { at ≤ length span.cells }
    // The first ones.
    ensures front { result.0 ≡ front span at }
    // The others.
    ensures back { option_to_list result.1 ≡ if_any (back span at) }
{
    if span.len() == at {
        return (span, None);
    }
    let (piece, left) = span.split(at);
    (piece, Some(left))
}

/// A run with the next one behind it, where there is one.
pub fn join_rest(span: Span, rest: Option<Span>) -> Span
    requires { MeetsRest span (option_to_list rest) }
    ensures { result ≡ with_rest span (option_to_list rest) }
{
    match rest {
        Some(next) => span.join(next),
        None => span,
    }
}

/// Cuts the next piece off the front of a run: its holes are put behind the pieces, and what is left of the run is
/// handed on. Where memory runs out, the run comes back.
pub fn cut_piece(
    alloc: Global,
    pieces: &mut Vec<Holes>,
    span: Span,
    budget: u32,
    most: u32,
) -> Result<Option<Span>, HolesRefused>
    requires some { 1 ≤ budget }
    requires within { budget ≤ length span.cells }
    requires room { length pieces.old.items < vec_capacity pieces.old }
    // The new piece is behind the others, or all stay.
    ensures pieces { MatchResult result (λ _. pieces.new.items ≡ with_front pieces.old.items span budget most) (λ _. pieces.new.items ≡ pieces.old.items) }
    // The rest of the run is left, or it is as it was.
    ensures left { MatchResult result (λ left. option_to_list left ≡ if_any (back span budget)) (λ refused. refused.span ≡ span) }
    // Room is kept.
    ensures room { vec_capacity pieces.old ≤ vec_capacity pieces.new }
{
    let (piece, left) = cut_front(span, budget);
    match Holes::new(alloc, piece, most) {
        Ok(holes) => {
            pieces.push_reserved(holes);
            Ok(left)
        }
        Err(HolesRefused { span }) => Err(HolesRefused {
            span: join_rest(span, left),
        }),
    }
}

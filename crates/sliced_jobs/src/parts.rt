//! A piece of a run of cells, which is cut out of it and put back.
ghost use Rattle.std.specs.Prelude.{◌≡◌, ◌+◌, ◌≤◌, length};
ghost use Rattle.cell_span.specs.Range.{Range};
ghost use Rattle.cell_machine.specs.Laid.{SameRange};
ghost use Rattle.sliced_jobs.specs.Parts.{ArePartsOf, IsBefore, IsBehind, MeetsBefore, MeetsBehind};

use cell_span::Span;

/// A piece of a run, with what lies before it and behind it.
pub(crate) struct Parts {
    pub(crate) before: Option<Span>,
    pub(crate) piece: Span,
    pub(crate) behind: Option<Span>,
}

// The cells before a place, where there are any, and the others.
#[tactic(auto, using(crate::proofs::Pieces::back_is))]
fn cut_before(span: Span, at: u32) -> (Option<Span>, Span)
    requires within { at + 1 ≤ length span.cells }
    ensures before { IsBefore span result.1 result.0 }
    ensures arena { result.1.arena ≡ span.arena }
    ensures first { result.1.first ≡ span.first + at }
    ensures end { result.1.first + length result.1.cells ≡ span.first + length span.cells }
{
    if at == 0 {
        return (None, span);
    }
    let (before, others) = span.split(at);
    (Some(before), others)
}

// So many cells, and the others, where there are any.
fn cut_behind(span: Span, len: u32) -> (Span, Option<Span>)
    requires some { 1 ≤ len }
    requires within { len ≤ length span.cells }
    ensures behind { IsBehind span result.0 result.1 }
    ensures arena { result.0.arena ≡ span.arena }
    ensures first { result.0.first ≡ span.first }
    ensures len { length result.0.cells ≡ len }
{
    if span.len() == len {
        return (span, None);
    }
    let (piece, others) = span.split(len);
    (piece, Some(others))
}

/// Cuts so many cells from a place on out of a run. It takes no memory and moves no cell.
pub(crate) fn cut_out(span: Span, at: u32, len: u32) -> Parts
    requires some { 1 ≤ len }
    requires within { at + len ≤ length span.cells }
    ensures parts { ArePartsOf span result.before result.piece result.behind }
    ensures len { length result.piece.cells ≡ len }
{
    let (before, others) = cut_before(span, at);
    let (piece, behind) = cut_behind(others, len);
    Parts {
        before,
        piece,
        behind,
    }
}

// A run with what lies behind it.
fn join_behind(piece: Span, behind: Option<Span>) -> Span
    requires { MeetsBehind piece behind }
    ensures first { result.first ≡ piece.first }
    ensures arena { result.arena ≡ piece.arena }
    ensures end { (w : Range) → IsBehind w piece behind → result.first + length result.cells ≡ w.first + length w.cells }
{
    match behind {
        Some(next) => piece.join(next),
        None => piece,
    }
}

// A run with what lies before it.
fn join_before(before: Option<Span>, piece: Span) -> Span
    requires { MeetsBefore before piece }
    ensures first { (w : Range) → IsBefore w piece before → result.first ≡ w.first }
    ensures end { result.first + length result.cells ≡ piece.first + length piece.cells }
    ensures arena { (w : Range) → piece.arena ≡ w.arena → IsBefore w piece before → result.arena ≡ w.arena }
{
    match before {
        Some(front) => front.join(piece),
        None => piece,
    }
}

/// The run again of which these are the parts.
pub(crate) fn put_back(before: Option<Span>, piece: Span, behind: Option<Span>) -> Span
    requires before { MeetsBefore before piece }
    requires behind { MeetsBehind piece behind }
    ensures { (w : Range) → ArePartsOf w before piece behind → SameRange w result }
{
    join_before(before, join_behind(piece, behind))
}

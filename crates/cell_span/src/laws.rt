//! Laws of runs, as the contract of a function that does nothing, and that runs may cross threads.
ghost use Rattle.std.specs.Prelude.{◌≡◌, ℕ, ◌+◌, ◌<◌, ◌≤◌, length};
ghost use Rattle.cell_span.specs.declared.cell.Cell.{Cell};
ghost use Rattle.cell_span.specs.Range.{Range, front, back, joined, written};

use super::span::Span;
use std::marker::{Send, Sync};

/// A run that is split, written in either part and joined is the run, written at that place.
#[tactic(auto, using(crate::specs::RangeLaws::joined_parts, crate::specs::RangeLaws::joined_front, crate::specs::RangeLaws::joined_back))]
pub fn law_of_parts()
    // What is split and joined is as it was.
    ensures whole { (r : Range) (at : ℕ) → joined (front r at) (back r at) ≡ r }
    // A write in the first part is one in the whole at the same place.
    ensures first { (r : Range) (at i : ℕ) (cell : Cell) → i < at → at ≤ length r.cells → joined (written (front r at) i cell) (back r at) ≡ written r i cell }
    // A write in the second part is one in the whole, behind the cells of the first.
    ensures second { (r : Range) (at i : ℕ) (cell : Cell) → at ≤ length r.cells → joined (front r at) (written (back r at) i cell) ≡ written r (at + i) cell }
{}

// Only what may go to another thread is taken.
fn sent<T: Send>(value: T) -> T
    ensures { result ≡ value }
{
    value
}

// Only what several threads may read is taken.
fn shared<T: Sync>(value: T) -> T
    ensures { result ≡ value }
{
    value
}

/// A run may go to another thread, and several may read it: it is taken where only such values are.
pub fn law_of_threads(span: Span) -> Span
    ensures { result ≡ span }
{
    shared(sent(span))
}

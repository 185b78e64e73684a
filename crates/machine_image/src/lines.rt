ghost use Rattle.std.specs.Prelude.{◌≡◌};
ghost use Rattle.std.specs.Option.{option_map};
ghost use Rattle.text_lines.specs.Cuts.{words, further};
ghost use Rattle.machine_image.specs.Reading.{is_empty};
ghost use Rattle.machine_image.specs.Parts.{TakenIs, taken, line_as, frame_at, local_at, cell_at, end_at, line_at};

use super::numbers::word_number;
use super::state::Bound;
use cell_span::Cell;
use text_lines::{first_word, further_word};

/// A line behind the one of the six numbers.
#[derive(Clone, Copy)]
pub(crate) enum Line {
    /// Where a call goes on.
    Frame { func: u32, block: u32, place: u32 },
    /// One of its live locals.
    Local(Bound),
    Cell(Cell),
    End,
}

/// Whether no word is left of a line.
#[tactic(auto, using(crate::proofs::Matching::none_left, crate::proofs::Matching::some_left))]
pub(crate) fn at_end(rest: &[u8]) -> bool
    ensures { result ≡ is_empty (further rest.now) }
{
    match rest {
        [] => true,
        [_, ..] => false,
    }
}

// The number that comes next, and what is left of the line.
fn next_number(rest: &[u8]) -> Option<(u32, &[u8])>
    ensures { TakenIs (taken (further rest.now)) result }
{
    let (word, after) = further_word(rest)?;
    let value = word_number(word)?;
    Some((value, after))
}

// Three numbers.
#[tactic(auto, unfolding(crate::specs::Parts::frame_at))]
fn read_frame(rest: &[u8]) -> Option<Line>
    ensures { option_map line_as result ≡ frame_at (further rest.now) }
{
    let (func, rest) = next_number(rest)?;
    let (block, rest) = next_number(rest)?;
    let (place, rest) = next_number(rest)?;
    if !at_end(rest) {
        return None;
    }
    Some(Line::Frame { func, block, place })
}

// Two numbers.
#[tactic(auto, unfolding(crate::specs::Parts::local_at))]
fn read_local(rest: &[u8]) -> Option<Line>
    ensures { option_map line_as result ≡ local_at (further rest.now) }
{
    let (local, rest) = next_number(rest)?;
    let (word, rest) = next_number(rest)?;
    if !at_end(rest) {
        return None;
    }
    Some(Line::Local(Bound { local, word }))
}

// Five numbers.
#[tactic(auto, unfolding(crate::specs::Parts::cell_at))]
fn read_cell(rest: &[u8]) -> Option<Line>
    ensures { option_map line_as result ≡ cell_at (further rest.now) }
{
    let (tag, rest) = next_number(rest)?;
    let (first, rest) = next_number(rest)?;
    let (second, rest) = next_number(rest)?;
    let (third, rest) = next_number(rest)?;
    let (fourth, rest) = next_number(rest)?;
    if !at_end(rest) {
        return None;
    }
    Some(Line::Cell(Cell {
        tag,
        words: [first, second, third, fourth],
    }))
}

// No number.
#[tactic(auto, unfolding(crate::specs::Parts::end_at))]
fn read_end(rest: &[u8]) -> Option<Line>
    ensures { option_map line_as result ≡ end_at (further rest.now) }
{
    if !at_end(rest) {
        return None;
    }
    Some(Line::End)
}

/// The line that is written so.
#[tactic(auto, unfolding(crate::specs::Parts::line_at))]
pub(crate) fn line_of(line: &[u8]) -> Option<Line>
    ensures { option_map line_as result ≡ line_at (words line.now) }
{
    let (tag, rest) = first_word(line);
    if tag == b"cell".as_slice() {
        return read_cell(rest);
    }
    if tag == b"local".as_slice() {
        return read_local(rest);
    }
    if tag == b"frame".as_slice() {
        return read_frame(rest);
    }
    if tag == b"end".as_slice() {
        return read_end(rest);
    }
    None
}

ghost use Rattle.std.specs.Prelude.{◌≡◌, ◌++◌, ◌∷◌, map, flat_map, codes, IfOk, OnOk};
ghost use Rattle.text_lines.specs.Numbers.{number};
ghost use Rattle.machine_image.specs.Images.{net_word, counts_words, image_text};
ghost use Rattle.machine_image.specs.Words.{bound_of, frame_of, cell_of, counts_of_state, image_of};
ghost use Rattle.machine_image.specs.Writing.{line_text, number_text, bound_text, cell_text, frame_text};

use super::state::{Bound, Frame, State};
use cell_span::Cell;
use std::alloc::{AllocError, Global};
use text_lines::push_number;

// Writes numbers, each behind a space.
#[tactic(auto, using(crate::proofs::Pieces::one_of, crate::proofs::Pieces::all_of))]
fn push_numbers(out: &mut Vec<u8>, numbers: &[u32]) -> Result<(), AllocError>
    ensures { OnOk result (out.new.items ≡ out.old.items ++ flat_map number_text numbers.now) }
{
    'numbers: for value in numbers {
        push_number(out, b" ", *value as u64)?;
    }
    Ok(())
}

// Writes a line of a word and numbers.
#[tactic(auto, using(crate::proofs::Pieces::line_written))]
fn push_line(out: &mut Vec<u8>, tag: &[u8], numbers: &[u32]) -> Result<(), AllocError>
    ensures { OnOk result (out.new.items ≡ out.old.items ++ line_text (tag.now ∷ map number numbers.now)) }
{
    out.extend_from_slice(tag)?;
    push_numbers(out, numbers)?;
    out.extend_from_slice(b"\n")
}

// Writes the line of a local.
fn push_bound(out: &mut Vec<u8>, bound: &Bound) -> Result<(), AllocError>
    ensures { OnOk result (out.new.items ≡ out.old.items ++ bound_text (bound_of bound.now)) }
{
    push_line(out, b"local", &[bound.local, bound.word])
}

// Writes the lines of locals.
#[tactic(auto, using(crate::proofs::Pieces::one_mapped, crate::proofs::Pieces::all_mapped))]
fn push_live(out: &mut Vec<u8>, live: &[Bound]) -> Result<(), AllocError>
    ensures { OnOk result (out.new.items ≡ out.old.items ++ flat_map bound_text (map bound_of live.now)) }
{
    'live: for bound in live {
        push_bound(out, bound)?;
    }
    Ok(())
}

// Writes the lines of a frame.
fn push_frame(out: &mut Vec<u8>, frame: &Frame) -> Result<(), AllocError>
    ensures { OnOk result (out.new.items ≡ out.old.items ++ frame_text (frame_of frame.now)) }
{
    push_line(out, b"frame", &[frame.func, frame.block, frame.place])?;
    push_live(out, &frame.live)?;
    Ok(())
}

// Writes the lines of all frames.
#[tactic(auto, using(crate::proofs::Pieces::one_mapped, crate::proofs::Pieces::all_mapped))]
fn push_frames(out: &mut Vec<u8>, frames: &[Frame]) -> Result<(), AllocError>
    ensures { OnOk result (out.new.items ≡ out.old.items ++ flat_map frame_text (map frame_of frames.now)) }
{
    'frames: for frame in frames {
        push_frame(out, frame)?;
    }
    Ok(())
}

// Writes the line of a cell.
fn push_cell(out: &mut Vec<u8>, cell: &Cell) -> Result<(), AllocError>
    ensures { OnOk result (out.new.items ≡ out.old.items ++ cell_text (cell_of cell.now)) }
{
    let [first, second, third, fourth] = cell.words;
    push_line(out, b"cell", &[cell.tag, first, second, third, fourth])
}

// Writes the lines of all cells.
#[tactic(auto, using(crate::proofs::Pieces::one_mapped, crate::proofs::Pieces::all_mapped))]
fn push_cells(out: &mut Vec<u8>, cells: &[Cell]) -> Result<(), AllocError>
    ensures { OnOk result (out.new.items ≡ out.old.items ++ flat_map cell_text (map cell_of cells.now)) }
{
    'cells: for cell in cells {
        push_cell(out, cell)?;
    }
    Ok(())
}

// Writes a number that may be below zero, behind its key.
#[tactic(auto, using(crate::proofs::Pieces::below_written, crate::proofs::Pieces::above_written))]
fn push_net(out: &mut Vec<u8>, net: &i64) -> Result<(), AllocError>
    ensures { OnOk result (out.new.items ≡ out.old.items ++ (codes " net " ++ net_word net.now)) }
{
    let net = *net;
    if net < 0 {
        push_number(out, b" net -", net.unsigned_abs())
    } else {
        push_number(out, b" net ", net.unsigned_abs())
    }
}

// Writes the line of the six numbers.
fn push_counts(out: &mut Vec<u8>, state: &State) -> Result<(), AllocError>
    ensures { OnOk result (out.new.items ≡ out.old.items ++ line_text (counts_words (counts_of_state state.now))) }
{
    push_number(out, b"calls ", state.calls)?;
    push_net(out, &state.net)?;
    push_number(out, b" peak ", state.peak)?;
    push_number(out, b" fuel ", state.fuel)?;
    push_number(out, b" free ", state.free as u64)?;
    push_number(out, b" cells ", state.cells.len() as u64)?;
    out.extend_from_slice(b"\n")?;
    Ok(())
}

/// The image of a paused run, as text. It is written for any state; the reader takes it where the state is within an
/// image's ranges. `AllocError` where memory runs out.
pub fn write_image(alloc: Global, state: &State) -> Result<Vec<u8>, AllocError>
    // It is the state's text.
    ensures { IfOk result (λ text. text.items ≡ image_text (image_of state.now)) }
{
    let mut out = Vec::new(alloc);
    out.extend_from_slice(b"grail image 1\n")?;
    push_counts(&mut out, state)?;
    push_frames(&mut out, &state.frames)?;
    push_cells(&mut out, &state.cells)?;
    out.extend_from_slice(b"end\n")?;
    Ok(out)
}

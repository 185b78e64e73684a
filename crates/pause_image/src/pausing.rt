ghost use Rattle.std.specs.Prelude.{◌≡◌, map, IfOk, MatchResult};
ghost use Rattle.std.specs.List.{AllByRecursion};
ghost use Rattle.machine_image.specs.Images.{CellIsFormed, image_text};
ghost use Rattle.machine_image.specs.Words.{cell_of};
ghost use Rattle.cell_machine.specs.Running.{IsRunning};
ghost use Rattle.cell_machine.specs.Saved.{kept};
ghost use Rattle.pause_image.specs.Pausing.{HasFourWords, IsPaused, LendsNothing, image_of};

use crate::cells::are_cells;
use cell_machine::{Machine, Stack};
use cell_span::Span;
use machine_image::write_image;
use std::alloc::{AllocError, Global};

/// A run that is put aside: its image, the range that it had, and its stack.
pub struct Paused {
    /// The text from which the run goes on.
    pub image: Vec<u8>,
    /// The cells that it had, as it left them.
    pub span: Span,
    /// The room for its frames, for the next run of its code.
    pub stack: Stack,
}

/// The longest text of an image, in bytes.
pub(crate) const MOST_BYTES: usize = 4_294_967_295;

// The text of the machine's state.
#[tactic(auto, using(crate::proofs::Verdicts::four_kept, crate::proofs::Verdicts::formed_kept))]
fn image_of(alloc: Global, machine: &Machine<'_>) -> Result<Vec<u8>, AllocError>
    requires running { IsRunning machine.now }
    ensures image { IfOk result (λ image. image.items ≡ image_text (image_of (kept machine.now.code machine.now.state))) }
    ensures four { IfOk result (λ image. AllByRecursion HasFourWords machine.now.state.cells) }
    ensures formed { IfOk result (λ image. AllByRecursion CellIsFormed (map cell_of machine.now.state.cells)) }
{
    let state = machine.state(alloc)?;
    are_cells(&state.cells);
    write_image(alloc, &state)
}

/// Puts a run aside between two steps, while nothing is lent. Its image is a text of fewer than 2^32 bytes; the range and
/// the stack are free for other runs. By [`crate::laws::law_of_resuming`] nothing is wrong with the text where the state
/// can be put aside. Where memory runs out, or the text would be longer, the machine comes back as it was.
pub fn pause<'a>(alloc: Global, machine: Machine<'a>) -> Result<Paused, Machine<'a>>
    requires running { IsRunning machine }
    requires unlent { LendsNothing machine }
    // The image is that of the machine's state, and the range has its cells; or the machine is as it was.
    ensures { MatchResult result (IsPaused machine.entry) (λ back. back ≡ machine.entry) }
{
    match image_of(alloc, &machine) {
        Ok(image) => {
            if image.len() > MOST_BYTES {
                return Err(machine);
            }
            let (span, stack) = machine.unload();
            Ok(Paused { image, span, stack })
        }
        Err(_) => Err(machine),
    }
}

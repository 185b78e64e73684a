ghost use Rattle.std.specs.Prelude.{◌≡◌, ◌≤◌, ℕ, List, length, IfOk, MatchResult};
ghost use Rattle.cell_machine.specs.Cells.{inline_base};
ghost use Rattle.cell_machine.specs.Homes.{homes_from};
ghost use Rattle.cell_machine.specs.Laid.{SameRange};
ghost use Rattle.cell_machine.specs.Saved.{Saved, configuration_of, saved_of};
ghost use Rattle.cell_machine.specs.Views.{HasRoom, IsStackFor, range_of};
ghost use Rattle.licence.specs.Books.{book_of};
ghost use Rattle.stops.specs.Stopping.{FaultIs};
ghost use Rattle.stops.specs.declared.stop.Stop.TheVariants.{Memory};
ghost use Rattle.pause_image.specs.Faults.{IsImageOf, IsSized, IsFaultOf, IsRight, IsWithin};
ghost use Rattle.pause_image.specs.Judges.{IsJudgeOf};
ghost use Rattle.pause_image.specs.Judging.{Tells, plain_frames};
ghost use Rattle.pause_image.specs.Resuming.{IsResumed, IsLineOf, OwnedIs, OwnerFault};
ghost use Rattle.pause_image.specs.Shapes.{AreShaped};
ghost use Rattle.pause_image.specs.declared.fault.ImageFault.{ImageFault as Fault};

use crate::cells::are_cells;
use crate::fault::ImageFault;
use crate::judge::ImageJudge;
use crate::owning::{WordAt, take_frames};
use crate::pausing::MOST_BYTES;
use crate::shapes::first_unshaped;
use cell_machine::{Machine, Room, Stack};
use cell_owners::{CellMarks, take_free};
use cell_span::Span;
use licence::Licence;
use machine_image::{NoImage, State, read_image};
use std::alloc::Global;
use stops::Stop;

/// Why a run didn't go on from a text, and what was handed in with it. It can't be dropped, as its range can't.
pub struct NoResume {
    /// What is wrong with the text, or that memory ran out.
    pub fault: Stop<ImageFault>,
    /// The range, with its cells as they were.
    pub span: Span,
    /// The room for frames.
    pub stack: Stack,
    /// The room for a value.
    pub room: Room,
}

// What the text is the image of.
#[tactic(auto, using(crate::proofs::Verdicts::image_read, crate::proofs::Verdicts::few_read))]
fn read_state(alloc: Global, image: &[u8]) -> Result<State, Stop<ImageFault>>
    ensures few { IfOk result (λ s. length s.cells.items ≤ 4294967295) }
    ensures read { MatchResult result (λ s. IsImageOf image.now (saved_of s)) (λ stop. FaultIs (IsLineOf image.now) stop) }
{
    if image.len() > MOST_BYTES {
        return Err(Stop::Memory);
    }
    match read_image(alloc, image) {
        Ok(state) => {
            are_cells(&state.cells);
            Ok(state)
        }
        Err(Stop::Fault(NoImage { line })) => Err(Stop::Fault(ImageFault::Line { line })),
        Err(Stop::Memory) => Err(Stop::Memory),
    }
}

// How many free cells there are, and what the frames ask for in units.
#[derive(Clone, Copy)]
struct Owned {
    free: u32,
    asked: u128,
}

// Whether net and free cells together are from 0 to the number of cells.
fn is_within(net: i64, free: u32, len: u32) -> bool
    ensures { Tells result (IsWithin net free len) }
{
    if net < 0 {
        let given = net.unsigned_abs();
        given <= free as u64 && free as u64 <= len as u64 + given
    } else {
        let taken = net as u64;
        taken <= len as u64 && taken + free as u64 <= len as u64
    }
}

// Who owns the cells: the values of the frames and the free list.
#[tactic(auto, using(crate::proofs::Verdicts::owned_is, crate::proofs::Verdicts::free_fails))]
fn own_cells(
    alloc: Global,
    judge: &ImageJudge,
    licence: &Licence,
    state: &State,
    stack: &Stack,
) -> Result<Owned, Stop<ImageFault>>
    requires judge { IsJudgeOf licence.now judge.now }
    requires homes { stack.now.homes ≡ homes_from 0 licence.now.code.types }
    requires few { length state.now.cells.items ≤ inline_base }
    requires shaped { AreShaped licence.now (plain_frames state.now.frames.items) }
    ensures { MatchResult result (OwnedIs licence.now (saved_of state.now)) (λ stop. FaultIs (OwnerFault licence.now (saved_of state.now)) stop) }
{
    let mut marks = CellMarks::new(alloc, state.cells.len() as u32)?;
    match take_frames(
        alloc,
        judge,
        licence,
        stack,
        &state.cells,
        &state.frames,
        &mut marks,
    )? {
        Ok(asked) => match take_free(&mut marks, &state.cells, state.free) {
            Ok(free) => Ok(Owned { free, asked }),
            Err(at) => Err(Stop::Fault(ImageFault::Free { at })),
        },
        Err(WordAt { frame, local }) => Err(Stop::Fault(ImageFault::Value { frame, local })),
    }
}

// The units of a cell.
fn unit_of(licence: &Licence) -> u64
    ensures is { result ≡ (book_of licence.now.cert).unit }
    ensures some { 1 ≤ result }
{
    licence.kept();
    licence.cert().unit()
}

// Whether the free cells pay for what the frames ask for, and the counters add up.
#[tactic(auto, using(crate::proofs::Verdicts::short_is, crate::proofs::Verdicts::net_is, crate::proofs::Verdicts::right_is))]
fn check_paid(
    licence: &Licence,
    state: &State,
    owned: &Owned,
    len: u32,
) -> Result<(), Stop<ImageFault>>
    ensures { (text : List ℕ) → IsSized text len (saved_of state.now) → OwnedIs licence.now (saved_of state.now) owned.now
        → MatchResult result (λ _. IsRight licence.now text len (saved_of state.now)) (λ stop. FaultIs (IsFaultOf licence.now text len) stop) }
{
    let need = owned.asked / unit_of(licence) as u128;
    let free = owned.free;
    if need > free as u128 {
        return Err(Stop::Fault(ImageFault::Short { free, need }));
    }
    if !is_within(state.net, free, len) {
        return Err(Stop::Fault(ImageFault::Net {
            net: state.net,
            free,
        }));
    }
    Ok(())
}

// Judges what was read, for a range of so many cells.
#[tactic(auto, using(crate::proofs::Verdicts::size_is, crate::proofs::Verdicts::sized_is, crate::proofs::Verdicts::shape_is, crate::proofs::Verdicts::owner_told))]
fn judge_state(
    alloc: Global,
    judge: &ImageJudge,
    licence: &Licence,
    state: &State,
    len: u32,
    stack: &Stack,
) -> Result<(), Stop<ImageFault>>
    requires judge { IsJudgeOf licence.now judge.now }
    requires homes { stack.now.homes ≡ homes_from 0 licence.now.code.types }
    requires few { len ≤ inline_base }
    requires read { length state.now.cells.items ≤ 4294967295 }
    ensures { (text : List ℕ) → IsImageOf text (saved_of state.now)
        → MatchResult result (λ _. IsRight licence.now text len (saved_of state.now)) (λ stop. FaultIs (IsFaultOf licence.now text len) stop) }
{
    let cells = state.cells.len() as u32;
    if cells != len {
        return Err(Stop::Fault(ImageFault::Size { cells, len }));
    }
    match first_unshaped(judge, licence, &state.frames) {
        Some(frame) => Err(Stop::Fault(ImageFault::Shape { frame })),
        None => match own_cells(alloc, judge, licence, state, stack) {
            Ok(owned) => check_paid(licence, state, &owned, len),
            Err(stop) => Err(stop),
        },
    }
}

// The state that the text is the image of, where nothing is wrong with it.
fn judged(
    alloc: Global,
    judge: &ImageJudge,
    licence: &Licence,
    image: &[u8],
    len: u32,
    stack: &Stack,
) -> Result<State, Stop<ImageFault>>
    requires judge { IsJudgeOf licence.now judge.now }
    requires homes { stack.now.homes ≡ homes_from 0 licence.now.code.types }
    requires few { len ≤ inline_base }
    ensures { MatchResult result (λ s. IsRight licence.now image.now len (saved_of s)) (λ stop. FaultIs (IsFaultOf licence.now image.now len) stop) }
{
    match read_state(alloc, image) {
        Ok(state) => match judge_state(alloc, judge, licence, &state, len, stack) {
            Ok(()) => Ok(state),
            Err(stop) => Err(stop),
        },
        Err(stop) => Err(stop),
    }
}

/// The machine that goes on from the image of a run, by this licence, in the cells of `span`. The text may be anybody's:
/// it is refused for its first cause, or it is the image of a state from which a run comes to an end without a fault of
/// the machine. What is judged by is made once for a licence; stack and room are those of the licence and of the range.
/// It takes time and memory by the bytes and the cells, and by the blocks in which frames stand.
///
/// # Errors
///
/// [`NoResume`] with the fault, exactly where there is one, or with [`Stop::Memory`] where memory runs out or the text
/// has 2^32 bytes or more. The range comes back with its cells as they were.
#[tactic(auto, using(crate::specs::RightLaws::right_goes_on, crate::proofs::Verdicts::goes_keepable, crate::specs::OneFault::no_fault, crate::proofs::Verdicts::exact_fault, crate::proofs::Verdicts::right_memory, crate::proofs::Verdicts::right_state))]
pub fn resume<'a>(
    alloc: Global,
    judge: &ImageJudge,
    licence: &'a Licence,
    image: &[u8],
    span: Span,
    stack: Stack,
    room: Room,
) -> Result<Machine<'a>, NoResume>
    // What is judged by is the licence's.
    requires judge { IsJudgeOf licence.now judge.now }
    // The stack is one for the licence's code.
    requires stack { IsStackFor licence.now.code stack }
    // The room is enough for a value in the range.
    requires room { HasRoom (length span.cells) room }
    // The machine has the state that the text is the image of, and the same range; or the fault is the text's.
    ensures answer { MatchResult result (IsResumed licence.now image.now (length span.cells))
        (λ back. FaultIs (IsFaultOf licence.now image.now (length span.cells)) back.fault) }
    // Where the text has a fault, that one is told, unless memory runs out.
    ensures exact { (fault : Fault) → IsFaultOf licence.now image.now (length span.cells) fault
        → MatchResult result (λ m. ⊥) (λ back. FaultIs (λ told. told ≡ fault) back.fault) }
    // Where nothing is wrong with it, the machine goes on from the state that it is the image of, unless memory runs out.
    ensures right { (s : Saved) → IsRight licence.now image.now (length span.cells) s
        → MatchResult result (λ m. m.state ≡ configuration_of licence.now.code s) (λ back. back.fault ≡ Memory) }
    // The machine has the range that was handed in, or it comes back with its cells as they were.
    ensures range { MatchResult result (λ m. SameRange span (range_of m)) (λ back. back.span ≡ span) }
    // A refusal hands stack and room back.
    ensures back { MatchResult result (λ m. Unit) (λ back. (back.stack ≡ stack) × (back.room ≡ room)) }
{
    licence.kept();
    span.limits();
    let len = span.len();
    match judged(alloc, judge, licence, image, len, &stack) {
        Ok(state) => Ok(Machine::restore(licence, &state, span, stack, room)),
        Err(fault) => Err(NoResume {
            fault,
            span,
            stack,
            room,
        }),
    }
}

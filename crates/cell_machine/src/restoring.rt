ghost use Rattle.std.specs.Prelude.{◌≡◌, ◌+◌, ◌≤◌, ◌<◌, ◌∷◌, [], length, Some};
ghost use Rattle.std.specs.List.{AllByRecursion};
ghost use Rattle.grail_code.specs.Code.{code_of};
ghost use Rattle.machine_image.specs.Words as plain;
ghost use Rattle.cell_machine.specs.Bounds.{put_back};
ghost use Rattle.cell_machine.specs.Cells.{inline_base};
ghost use Rattle.cell_machine.specs.FrameWords.{AreFrames, top_of, waiting_of, frame_of_position};
ghost use Rattle.cell_machine.specs.Laid.{SameRange};
ghost use Rattle.cell_machine.specs.Packed.{IsPacked};
ghost use Rattle.cell_machine.specs.Running.{IsRunning};
ghost use Rattle.cell_machine.specs.Saved.{saved_of, frame_back, width_at, HasItsLocals, configuration_of, CanGoOn, highest, below};
ghost use Rattle.cell_machine.specs.Saving.{plain_bounds, plain_frames, position_of, IsPlaceOf, AreLaid};
ghost use Rattle.cell_machine.specs.State.{most_calls};
ghost use Rattle.cell_machine.specs.Stops.{HasRoomFor};
ghost use Rattle.cell_machine.specs.Views.{HasRoom, IsStackFor, range_of};
ghost use Rattle.cell_machine.specs.Walking.{IsPlace};

use crate::drive::address;
use crate::frames::{Caller, Frames};
use crate::functions::width_of;
use crate::machine::{Layout, Machine, Stack};
use crate::packed::{Packed, Position};
use crate::room::Room;
use crate::state::RunState;
use cell_span::{Cell, Span};
use grail_code::Code;
use licence::Licence;
use machine_image::{Bound, Frame, State};

// Puts these words into the running frame.
#[tactic(auto, using(crate::proofs::RestoringLaws::one_put, crate::proofs::RestoringLaws::set_many))]
fn bind_kept(frames: &mut Frames, packed: &Packed, live: &[Bound])
    requires frames { AreFrames frames.old }
    requires there { AllByRecursion (λ b. b.local < length (top_of frames.old)) (plain_bounds live.now) }
    ensures top { top_of frames.new ≡ put_back (top_of frames.old) (plain_bounds live.now) }
    ensures waiting { waiting_of packed.now frames.new ≡ waiting_of packed.now frames.old }
    ensures frames { AreFrames frames.new }
    ensures width { frames.new.width ≡ frames.old.width }
{
    'each: for bound in live {
        frames.bind(packed, bound.local, bound.word);
    }
}

// How many locals the function of a frame has.
fn frame_width(code: &Code, frame: &Frame) -> u32
    requires there { IsPlaceOf (code_of code.now) (plain.frame_of frame.now) }
    ensures width { result ≡ width_at (code_of code.now) frame.now.func }
    ensures few { result ≤ 256 }
{
    width_of(&code.funcs[frame.func as usize])
}

// Where a frame stands.
fn position_of(frame: &Frame) -> Position
    ensures { result ≡ position_of (plain.frame_of frame.now) }
{
    Position {
        func: frame.func,
        block: frame.block,
        place: frame.place.saturating_sub(1),
    }
}

// The first frame is laid.
fn lay_first(frames: &mut Frames, code: &Code, packed: &Packed, first: &Frame)
    requires frames { AreFrames frames.old }
    requires some { 1 ≤ frames.old.width }
    requires room { HasRoomFor (code_of code.now) frames.old.width }
    requires there { IsPlaceOf (code_of code.now) (plain.frame_of first.now) }
    requires locals { HasItsLocals (code_of code.now) (plain.frame_of first.now) }
    ensures top { top_of frames.new ≡ (frame_back (code_of code.now) (plain.frame_of first.now)).words }
    ensures waiting { waiting_of packed.now frames.new ≡ [] }
    ensures frames { AreFrames frames.new }
    ensures width { frames.new.width ≡ frames.old.width }
{
    frames.clear();
    frames.begin(packed, frame_width(code, first));
    bind_kept(frames, packed, &first.live);
}

// The running frame, which stands here, waits, and this one is laid in front of it.
fn lay_next(frames: &mut Frames, code: &Code, packed: &Packed, last: Position, next: &Frame)
    requires frames { AreFrames frames.old }
    requires few { length (waiting_of packed.now frames.old) < most_calls }
    requires room { HasRoomFor (code_of code.now) frames.old.width }
    requires packed { IsPacked (code_of code.now) packed.now }
    requires last { IsPlace (code_of code.now) last.func last.block last.place }
    requires there { IsPlaceOf (code_of code.now) (plain.frame_of next.now) }
    requires locals { HasItsLocals (code_of code.now) (plain.frame_of next.now) }
    ensures top { top_of frames.new ≡ (frame_back (code_of code.now) (plain.frame_of next.now)).words }
    ensures waiting { waiting_of packed.now frames.new ≡ frame_of_position last (top_of frames.old) ∷ waiting_of packed.now frames.old }
    ensures frames { AreFrames frames.new }
    ensures width { frames.new.width ≡ frames.old.width }
{
    let caller = Caller {
        at: address(code, packed, last.func, last.block, last.place),
        width: frames.top_width(),
    };
    frames.wait(packed, caller, &[], frame_width(code, next));
    bind_kept(frames, packed, &next.live);
}

// These frames are laid, the oldest first. What comes back is where the last one stands.
fn lay_frames(frames: &mut Frames, code: &Code, packed: &Packed, kept: &[Frame]) -> Position
    requires frames { AreFrames frames.old }
    requires some { 1 ≤ frames.old.width }
    requires room { HasRoomFor (code_of code.now) frames.old.width }
    requires packed { IsPacked (code_of code.now) packed.now }
    requires filled { 1 ≤ length kept.now }
    requires few { length kept.now ≤ most_calls + 1 }
    requires there { AllByRecursion (IsPlaceOf (code_of code.now)) (plain_frames kept.now) }
    requires locals { AllByRecursion (HasItsLocals (code_of code.now)) (plain_frames kept.now) }
    ensures laid { AreLaid (code_of code.now) packed.now frames.new result (plain_frames kept.now) }
    ensures frames { AreFrames frames.new }
    ensures width { frames.new.width ≡ frames.old.width }
{
    let first = &kept[0];
    lay_first(frames, code, packed, first);
    let mut last = position_of(first);
    'each: for number in 1..kept.len() {
        let next = &kept[number];
        lay_next(frames, code, packed, last, next);
        last = position_of(next);
    }
    last
}

// The cells of the range become these.
fn lay_cells(span: &mut Span, cells: &[Cell])
    requires { length cells.now ≡ length span.old.cells }
    ensures cells { span.new.cells ≡ cells.now }
    ensures range { SameRange span.old span.new }
{
    'each: for at in 0..span.len() {
        span.set(at, cells[at as usize]);
    }
}

// The highest net of a state.
fn peak_of(state: &State) -> u64
    ensures { result ≡ highest state.now.net state.now.peak }
{
    if state.net < 0 {
        state.peak
    } else {
        state.peak.max(state.net as u64)
    }
}

// How far the net of a state is below its highest one.
fn low_of(state: &State) -> u64
    requires within { below state.now.net (highest state.now.net state.now.peak) ≤ 2199023255552 }
    ensures { result ≡ below state.now.net (highest state.now.net state.now.peak) }
{
    let peak = peak_of(state);
    if state.net < 0 {
        peak + state.net.unsigned_abs()
    } else {
        peak.saturating_sub(state.net as u64)
    }
}

// The machine of what was kept, in the cells of a range.
fn lay_machine<'a>(
    licence: &'a Licence,
    state: &State,
    mut span: Span,
    stack: Stack,
    room: Room,
) -> Machine<'a>
    requires fits { CanGoOn licence.now (saved_of state.now) (length span.cells) }
    requires stack { IsStackFor licence.now.code stack }
    requires few { length span.cells ≤ inline_base }
    ensures state { result.state ≡ configuration_of licence.now.code (saved_of state.now) }
    ensures code { result.code ≡ licence.now.code }
    ensures range { SameRange span (range_of result) }
    ensures room { result.room ≡ Some room }
{
    let code = licence.code();
    let Stack { mut frames, layout } = stack;
    let at = lay_frames(&mut frames, code, &layout.packed, &state.frames);
    lay_cells(&mut span, &state.cells);
    Machine {
        code,
        state: RunState {
            span,
            head: state.free,
            frames,
            func: at.func,
            block: at.block,
            place: at.place,
            fuel: state.fuel,
            calls: state.calls,
            peak: peak_of(state),
            low: low_of(state),
        },
        layout,
        room: Some(room),
    }
}

impl<'a> Machine<'a> {
    /// The machine that goes on from what was kept of a state, by this licence, in the cells of `span`. It needn't be
    /// the range in which the state was kept. What was kept is a fit state: bytes that nobody trusts have to be judged
    /// before. Stack and room are those of the licence and of the range. It takes no memory.
    pub fn restore(
        licence: &'a Licence,
        state: &State,
        span: Span,
        stack: Stack,
        room: Room,
    ) -> Machine<'a>
        requires fits { CanGoOn licence.now (saved_of state.now) (length span.cells) }
        requires stack { IsStackFor licence.now.code stack }
        requires room { HasRoom (length span.cells) room }
        // Its state is the one that was kept, with 0 in the place of each word that wasn't.
        ensures state { result.state ≡ configuration_of licence.now.code (saved_of state.now) }
        // Its run isn't over.
        ensures running { IsRunning result }
        // The machine runs the licence's code.
        ensures code { result.code ≡ licence.now.code }
        // Its cells are those of the same range.
        ensures range { SameRange span (range_of result) }
    {
        licence.kept();
        span.limits();
        lay_machine(licence, state, span, stack, room)
    }
}

ghost use Rattle.std.specs.Prelude.{◌≡◌, ◌++◌, ◌≤◌, ◌-ℤ◌, pos, length, map, is_some, IfOk, OnOk};
ghost use Rattle.std.specs.List.{AllByRecursion};
ghost use Rattle.grail_code.specs.Code.{code_of};
ghost use Rattle.frame_locals.specs.Lending.{lends_at};
ghost use Rattle.frame_locals.specs.Tables.{table_of};
ghost use Rattle.machine_image.specs.Words as plain;
ghost use Rattle.cell_machine.specs.FrameWords.{AreFrames, frame_of_position, width_of};
ghost use Rattle.cell_machine.specs.Kept.{state_of};
ghost use Rattle.cell_machine.specs.Running.{IsRunning};
ghost use Rattle.cell_machine.specs.Saved.{saved_of, kept, waiting_kept, running_kept};
ghost use Rattle.cell_machine.specs.Saving.{bound_marked, bounds_marked, in_order, oldest_first, lender_from, lender_at, plain_frames, StandNear};

use crate::frames::{Caller, Frames};
use crate::machine::{Layout, Machine};
use crate::packed::{Position, position_at};
use crate::state::RunState;
use cell_span::{Cell, Span};
use frame_locals::{LocalTable, is_set};
use grail_code::Code;
use machine_image::{Bound, Frame, State};
use std::alloc::{AllocError, Global};

/// How many locals a function has at most.
const MOST_LOCALS: usize = 256;

// Adds a local with its word, where it has a mark.
#[tactic(auto, using(crate::proofs::SavingLaws::bound_pushed, crate::proofs::SavingLaws::bound_kept))]
fn add_bound(live: &mut Vec<Bound>, marks: &[bool], local: u32, word: u32) -> Result<(), AllocError>
    ensures { OnOk result (map plain.bound_of live.new.items ≡ map plain.bound_of live.old.items ++ bound_marked marks.now local word) }
{
    if is_set(marks, local) {
        live.push(Bound { local, word })?;
    }
    Ok(())
}

// The locals that have a mark, with their words.
#[tactic(auto, using(crate::proofs::SavingLaws::bound_turn, crate::proofs::SavingLaws::bound_all))]
fn live_in(alloc: Global, marks: &[bool], words: &[u32]) -> Result<Vec<Bound>, AllocError>
    requires few { length words.now ≤ 256 }
    ensures { IfOk result (λ live. map plain.bound_of live.items ≡ bounds_marked marks.now 0 words.now) }
{
    let mut live = Vec::new(alloc);
    let mut local = 0;
    'each: for word in words {
        add_bound(&mut live, marks, local, *word)?;
        local += 1;
    }
    Ok(live)
}

// What is kept of a frame that waits here with these words.
fn waiting_kept(
    alloc: Global,
    code: &Code,
    locals: &LocalTable,
    at: Position,
    words: &[u32],
) -> Result<Frame, AllocError>
    requires table { locals.now ≡ table_of (code_of code.now) }
    requires few { length words.now ≤ 256 }
    requires near { at.place ≤ 256 }
    ensures { IfOk result (λ f. plain.frame_of f ≡ waiting_kept (code_of code.now) (frame_of_position at words.now)) }
{
    let mut marks = [false; MOST_LOCALS];
    locals.mark_waiting(code, at.func, at.block, at.place, &mut marks);
    Ok(Frame {
        func: at.func,
        block: at.block,
        place: at.place + 1,
        live: live_in(alloc, &marks, words)?,
    })
}

// What is kept of the frame that runs here with these words.
fn running_kept(
    alloc: Global,
    code: &Code,
    locals: &LocalTable,
    at: Position,
    words: &[u32],
) -> Result<Frame, AllocError>
    requires table { locals.now ≡ table_of (code_of code.now) }
    requires few { length words.now ≤ 256 }
    requires near { at.place ≤ 256 }
    ensures { IfOk result (λ f. plain.frame_of f ≡ running_kept (code_of code.now) (frame_of_position at words.now)) }
{
    let mut marks = [false; MOST_LOCALS];
    locals.mark_ready(code, at.func, at.block, at.place, &mut marks);
    Ok(Frame {
        func: at.func,
        block: at.block,
        place: at.place + 1,
        live: live_in(alloc, &marks, words)?,
    })
}

// What is kept of the frames of these callers, whose words lie one behind the other.
fn callers_kept(
    alloc: Global,
    code: &Code,
    layout: &Layout,
    callers: &[Caller],
    words: &[u32],
) -> Result<Vec<Frame>, AllocError>
    requires table { layout.now.locals ≡ table_of (code_of code.now) }
    requires narrow { AllByRecursion (λ c. c.width ≤ 256) callers.now }
    requires near { StandNear layout.now.packed.positions.items callers.now }
    requires within { width_of callers.now ≤ length words.now }
    ensures { IfOk result (λ kept. plain_frames kept.items
        ≡ map (waiting_kept (code_of code.now)) (in_order layout.now.packed.positions.items callers.now words.now)) }
{
    let mut kept = Vec::new(alloc);
    let mut left = callers;
    let mut rest = words;
    'each: while let [caller, others @ ..] = left {
        let (these, behind) = rest.split_at(caller.width as usize);
        let at = position_at(&layout.packed, caller.at);
        kept.push(waiting_kept(alloc, code, &layout.locals, at, these)?)?;
        left = others;
        rest = behind;
    }
    Ok(kept)
}

// The cells of a range.
#[tactic(auto, using(crate::proofs::SavingLaws::cell_more, crate::proofs::SavingLaws::cells_all))]
fn cells_kept(alloc: Global, span: &Span) -> Result<Vec<Cell>, AllocError>
    ensures { IfOk result (λ cells. cells.items ≡ span.now.cells) }
{
    let count = span.len();
    let mut cells = Vec::with_capacity(alloc, count as usize)?;
    'each: for at in 0..count {
        cells.push(span.get(at))?;
    }
    Ok(cells)
}

// The number of the first caller in whose block a parameter is lent.
fn lender_among(code: &Code, layout: &Layout, callers: &[Caller]) -> Option<u32>
    requires table { layout.now.locals ≡ table_of (code_of code.now) }
    requires few { length callers.now ≤ 65536 }
    ensures { result ≡ lender_at (code_of code.now) layout.now.packed.positions.items 0 callers.now }
{
    let mut number = 0;
    'each: for caller in callers {
        let at = position_at(&layout.packed, caller.at);
        if layout.locals.lends(code, at.func, at.block) {
            return Some(number);
        }
        number += 1;
    }
    None
}

// The number of the first frame in whose block a parameter is lent; the running one is the last.
fn lender_in(code: &Code, layout: &Layout, state: &RunState) -> Option<u32>
    requires table { layout.now.locals ≡ table_of (code_of code.now) }
    requires frames { AreFrames state.now.frames }
    ensures { result ≡ lender_from (code_of code.now) 0 (oldest_first (state_of layout.now.packed state.now)) }
{
    match lender_among(code, layout, &state.frames.callers) {
        Some(number) => Some(number),
        None => {
            if layout.locals.lends(code, state.func, state.block) {
                Some(state.frames.callers.len() as u32)
            } else {
                None
            }
        }
    }
}

// The cells taken less those given back.
fn net_of(peak: u64, low: u64) -> i64
    requires high { peak ≤ 1099511627776 }
    requires low { low ≤ 1101659111424 }
    ensures { result ≡ pos peak -ℤ pos low }
{
    peak as i64 - low as i64
}

// What is kept of a state.
fn kept_state(
    alloc: Global,
    code: &Code,
    layout: &Layout,
    state: &RunState,
) -> Result<State, AllocError>
    requires table { layout.now.locals ≡ table_of (code_of code.now) }
    requires frames { AreFrames state.now.frames }
    requires narrow { state.now.frames.width ≤ 256 }
    requires near { StandNear layout.now.packed.positions.items state.now.frames.callers.items }
    requires place { state.now.place ≤ 256 }
    requires high { state.now.peak ≤ 1099511627776 }
    requires low { state.now.low ≤ 1101659111424 }
    ensures { IfOk result (λ s. saved_of s ≡ kept (code_of code.now) (state_of layout.now.packed state.now)) }
{
    let frames = &state.frames;
    let mut kept = callers_kept(alloc, code, layout, &frames.callers, &frames.words)?;
    let at = Position {
        func: state.func,
        block: state.block,
        place: state.place,
    };
    let top = &frames.words[frames.base..];
    let running = running_kept(alloc, code, &layout.locals, at, top)?;
    kept.push(running)?;
    let cells = cells_kept(alloc, &state.span)?;
    Ok(State {
        calls: state.calls,
        net: net_of(state.peak, state.low),
        peak: state.peak,
        fuel: state.fuel,
        free: state.head,
        frames: kept,
        cells,
    })
}

impl<'a> Machine<'a> {
    /// The number of the oldest frame in whose block a parameter is lent, where the first frame to be entered has the
    /// number 0. None where no frame has a lent local that is ready. It looks at each frame once, by a table.
    pub fn lender(&self) -> Option<u32>
        ensures { result ≡ lender_from self.now.code 0 (oldest_first self.now.state) }
    {
        lender_in(self.code, &self.layout, &self.state)
    }

    /// How many calls wait: the number of the frame that runs, where the first to be entered has the number 0.
    #[tactic(auto, using(crate::proofs::FrameLaws::waiting_length))]
    pub fn waiting(&self) -> u32
        ensures { result ≡ length self.now.state.waiting }
    {
        self.state.frames.callers.len() as u32
    }

    /// Whether a parameter is lent in the block in which the running frame stands.
    pub fn running_lends(&self) -> bool
        ensures { result ≡ lends_at self.now.code self.now.state.frame.func self.now.state.frame.block }
    {
        self.layout
            .locals
            .lends(self.code, self.state.func, self.state.block)
    }

    /// Whether a frame has a lent local that is ready: a value that is another frame's. A machine that lends can't be
    /// kept as its live words.
    pub fn lending(&self) -> bool
        ensures { result ≡ is_some (lender_from self.now.code 0 (oldest_first self.now.state)) }
    {
        self.lender().is_some()
    }

    /// What is kept of the state: its counters, its frames from the oldest on with the words of their ready locals, and
    /// its cells. `AllocError` where memory runs out.
    pub fn state(&self, alloc: Global) -> Result<State, AllocError>
        requires running { IsRunning self.now }
        // It is what the state says.
        ensures { IfOk result (λ s. saved_of s ≡ kept self.now.code self.now.state) }
    {
        kept_state(alloc, self.code, &self.layout, &self.state)
    }
}

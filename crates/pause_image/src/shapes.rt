//! Whether frames are as the code has them at their places.
ghost use Rattle.std.specs.Prelude.{◌≡◌, ◌≤◌, [], ◌∷◌, length, slice_get, Some, MatchOption};
ghost use Rattle.std.specs.Option.{option_map};
ghost use Rattle.annotations.specs.Vectors.{AtLeast};
ghost use Rattle.grail_code.specs.Code.{block_of, code_of, func_of};
ghost use Rattle.grail_code.specs.WellFormed.{local_kinds};
ghost use Rattle.licence.specs.Books.{book_of, said};
ghost use Rattle.machine_image.specs.Words.{frame_of};
ghost use Rattle.pause_image.specs.Judges.{IsJudgeOf};
ghost use Rattle.pause_image.specs.Judging.{Tells, MayCall, MayReturn, behind_first, behind_local, bound_locals, just_set, plain_bounds, plain_frames};
ghost use Rattle.pause_image.specs.Shapes.{AreShaped, IsShapeFault, IsShaped, RunsAt, WaitsAt};

use crate::judge::ImageJudge;
use annotations::{Vector, first_below};
use camelot_values::Kind;
use frame_accounts::{block_in, func_at, let_in, own_at};
use frame_locals::is_set;
use grail_code::{Block, Func, Op};
use licence::Licence;
use machine_image::{Bound, Frame};

/// How many locals a function has at most.
pub(crate) const MOST_LOCALS: usize = 256;

/// How many frames there are at most.
const MOST_FRAMES: usize = 65537;

// The words behind the first one, where that one is of this local.
fn behind_first<'a>(live: &'a [Bound], local: u32) -> Option<&'a [Bound]>
    ensures { option_map (λ rest. bound_locals (plain_bounds rest.now)) result ≡ behind_first local (bound_locals (plain_bounds live.now)) }
{
    match live {
        [bound, rest @ ..] if bound.local == local => Some(rest),
        _ => None,
    }
}

// The words behind those of a local, which has one exactly where it has a mark.
fn behind_local<'a>(marks: &[bool], local: u32, live: &'a [Bound]) -> Option<&'a [Bound]>
    ensures { option_map (λ rest. bound_locals (plain_bounds rest.now)) result ≡ behind_local marks.now local (bound_locals (plain_bounds live.now)) }
{
    if is_set(marks, local) {
        behind_first(live, local)
    } else {
        Some(live)
    }
}

// Whether the words are those of just the locals that have a mark, of so many.
#[tactic(auto, using(crate::proofs::Shaping::just_behind, crate::proofs::Shaping::just_missed, crate::proofs::Shaping::just_end))]
fn has_just(marks: &[bool], count: u32, live: &[Bound]) -> bool
    ensures { result ≡ just_set marks.now 0 count (bound_locals (plain_bounds live.now)) }
{
    let mut rest = live;
    'locals: for local in 0..count {
        match behind_local(marks, local, rest) {
            Some(others) => rest = others,
            None => return false,
        }
    }
    rest.is_empty()
}

// How many locals the function has.
fn width_of(func: &Func) -> u32
    ensures is { result ≡ length (local_kinds (func_of func.now)) }
    ensures few { result ≤ 256 }
{
    (func.params.len() + func.locals.len()) as u32
}

// The function that is called at this place of the block.
#[tactic(auto, using(crate::proofs::Shaping::no_let))]
fn callee_at(block: &Block, place: u32) -> Option<u32>
    ensures { MayCall (block_of block.now) place result }
{
    match let_in(block, place) {
        Some(each) => match &each.op {
            Op::Call { func, args: _ } => Some(*func),
            _ => None,
        },
        None => None,
    }
}

// What the result of the function of this number carries.
fn result_of<'a>(judge: &'a ImageJudge, licence: &'a Licence, func: u32) -> &'a Vector
    requires judge { IsJudgeOf licence.now judge.now }
    ensures { result.now ≡ said licence.now.cert func (λ f. f.result) [] }
{
    match own_at(licence, func as usize) {
        Some(own) => &own.result,
        None => &judge.none,
    }
}

// Whether the result of this function carries at least what that of the other one does.
fn suffices(judge: &ImageJudge, licence: &Licence, kind: Kind, next: u32, callee: u32) -> bool
    requires judge { IsJudgeOf licence.now judge.now }
    ensures { Tells result (AtLeast licence.now.code.types kind ((book_of licence.now.cert).result next) ((book_of licence.now.cert).result callee)) }
{
    first_below(
        result_of(judge, licence, next),
        result_of(judge, licence, callee),
        &judge.reach,
        kind,
    )
    .is_none()
}

// Whether the result of the function of this number can be that of the other one, which was called.
#[tactic(auto, using(crate::proofs::Shaping::no_above, crate::proofs::Shaping::no_callee, crate::proofs::Shaping::no_result, crate::proofs::Shaping::returns_told))]
fn may_return(judge: &ImageJudge, licence: &Licence, callee: u32, next: u32) -> bool
    requires judge { IsJudgeOf licence.now judge.now }
    ensures { Tells result (MayReturn licence.now callee next) }
{
    let code = licence.code();
    match func_at(code, next) {
        Some(above) => match func_at(code, callee) {
            Some(called) => {
                if called.result != above.result {
                    return false;
                }
                suffices(judge, licence, above.result, next, callee)
            }
            None => false,
        },
        None => false,
    }
}

// Whether the frame runs at its place: at a let or at the end of the block, nothing is lent, and it has words of just
// the locals that are ready.
#[tactic(auto, using(crate::proofs::Shaping::runs_nowhere, crate::proofs::Shaping::runs_too_far, crate::proofs::Shaping::runs_lending, crate::proofs::Shaping::runs_told))]
fn runs_in(
    judge: &ImageJudge,
    licence: &Licence,
    frame: &Frame,
    func: &Func,
    block: &Block,
    marks: &mut [bool],
) -> bool
    requires judge { IsJudgeOf licence.now judge.now }
    requires func { slice_get licence.now.code.funcs frame.now.func ≡ Some (func_of func.now) }
    requires block { slice_get (func_of func.now).blocks frame.now.block ≡ Some (block_of block.now) }
    requires many { length marks.old ≡ 256 }
    ensures is { Tells result (RunsAt licence.now (frame_of frame.now)) }
    ensures many { length marks.new ≡ 256 }
{
    let code = licence.code();
    if frame.place == 0 {
        return false;
    }
    let place = frame.place - 1;
    if place as usize > block.lets.len() {
        return false;
    }
    if judge.locals.lends(code, frame.func, frame.block) {
        return false;
    }
    judge
        .locals
        .mark_ready(code, frame.func, frame.block, place, marks);
    has_just(marks, width_of(func), &frame.live)
}

// Whether the frame waits at its place below the next one: at a call whose result that one's function can give, nothing
// is lent, and it has words of just the locals that are ready once the call's operands are used.
#[tactic(auto, using(crate::proofs::Shaping::waits_nowhere, crate::proofs::Shaping::waits_uncalled, crate::proofs::Shaping::waits_for_another, crate::proofs::Shaping::waits_lending, crate::proofs::Shaping::waits_told))]
fn waits_in(
    judge: &ImageJudge,
    licence: &Licence,
    frame: &Frame,
    next: &Frame,
    func: &Func,
    block: &Block,
    marks: &mut [bool],
) -> bool
    requires judge { IsJudgeOf licence.now judge.now }
    requires func { slice_get licence.now.code.funcs frame.now.func ≡ Some (func_of func.now) }
    requires block { slice_get (func_of func.now).blocks frame.now.block ≡ Some (block_of block.now) }
    requires many { length marks.old ≡ 256 }
    ensures is { Tells result (WaitsAt licence.now (frame_of frame.now) (frame_of next.now)) }
    ensures many { length marks.new ≡ 256 }
{
    let code = licence.code();
    if frame.place == 0 {
        return false;
    }
    let place = frame.place - 1;
    match callee_at(block, place) {
        Some(callee) => {
            if !may_return(judge, licence, callee, next.func) {
                return false;
            }
        }
        None => return false,
    }
    if judge.locals.lends(code, frame.func, frame.block) {
        return false;
    }
    judge
        .locals
        .mark_waiting(code, frame.func, frame.block, place, marks);
    has_just(marks, width_of(func), &frame.live)
}

// Whether a frame in front of these is as the code has it at its place.
#[tactic(auto, using(crate::proofs::Shaping::no_func, crate::proofs::Shaping::no_block))]
fn is_shaped(
    judge: &ImageJudge,
    licence: &Licence,
    frame: &Frame,
    others: &[Frame],
    marks: &mut [bool],
) -> bool
    requires judge { IsJudgeOf licence.now judge.now }
    requires many { length marks.old ≡ 256 }
    ensures is { Tells result (IsShaped licence.now (frame_of frame.now ∷ plain_frames others.now)) }
    ensures many { length marks.new ≡ 256 }
{
    match func_at(licence.code(), frame.func) {
        Some(func) => match block_in(func, frame.block) {
            Some(block) => match others {
                [] => runs_in(judge, licence, frame, func, block, marks),
                [next, ..] => waits_in(judge, licence, frame, next, func, block, marks),
            },
            None => false,
        },
        None => false,
    }
}

/// The number of the first frame that isn't as the code has it at its place, or is beyond the 65,537th.
#[tactic(auto, using(crate::proofs::Shaping::shaped_first))]
pub(crate) fn first_unshaped(judge: &ImageJudge, licence: &Licence, frames: &[Frame]) -> Option<u32>
    requires judge { IsJudgeOf licence.now judge.now }
    ensures { MatchOption result (AreShaped licence.now (plain_frames frames.now)) (IsShapeFault licence.now (plain_frames frames.now)) }
{
    let mut marks = [false; MOST_LOCALS];
    'frames: for number in 0..frames.len() {
        if number == MOST_FRAMES {
            return Some(number as u32);
        }
        let frame = &frames[number];
        let (_, others) = frames.split_at(number + 1);
        if !is_shaped(judge, licence, frame, others, &mut marks) {
            return Some(number as u32);
        }
    }
    None
}

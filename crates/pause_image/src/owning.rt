//! The values that the words of frames stand for, and what the frames ask for.
ghost use Rattle.std.specs.Prelude.{◌≡◌, ◌<◌, ◌≤◌, ◌*◌, ◌^◌, ◌∷◌, ℕ, List, [], length, map, slice_get, Some, IfOk};
ghost use Rattle.std.specs.List.{AllByRecursion};
ghost use Rattle.std.specs.Option.{option_map_or};
ghost use Rattle.cell_machine.specs.Cells.{inline_base};
ghost use Rattle.cell_machine.specs.Homes.{homes_from};
ghost use Rattle.cell_owners.specs.Marks.{AreMarkedBy};
ghost use Rattle.cell_owners.specs.Values.{IsAtMost, vector_of};
ghost use Rattle.grail_code.specs.Code.{block_of, func_of};
ghost use Rattle.licence.specs.Books.{Carried, book_of};
ghost use Rattle.machine_image.specs.Images as plain;
ghost use Rattle.machine_image.specs.Words.{bound_of, frame_of};
ghost use Rattle.pause_image.specs.Judges.{IsJudgeOf};
ghost use Rattle.pause_image.specs.Judging.{plain_bounds, plain_frames};
ghost use Rattle.pause_image.specs.Owning.{callee_in};
ghost use Rattle.pause_image.specs.Shapes.{AreShaped, IsShaped};
ghost use Rattle.pause_image.specs.Taking.{blank, Begins, WordIs, WordsAre, FrameIs, FramesAre, UnitsAtMost, asked_of};

use crate::judge::ImageJudge;
use crate::shapes::MOST_LOCALS;
use annotations::Vector;
use cell_machine::Stack;
use cell_owners::{CellMarks, Due, take_value};
use cell_span::Cell;
use frame_accounts::{let_in, own_at};
use grail_code::{Block, Func, Op};
use licence::Licence;
use machine_image::{Bound, Frame};
use std::alloc::{AllocError, Global};

/// A word of a frame: the number of the frame, and the local that holds the word.
#[derive(Clone, Copy)]
pub(crate) struct WordAt {
    pub(crate) frame: u32,
    pub(crate) local: u32,
}

// What the value of a local carries.
fn vector_at<'a>(vectors: &[Option<&'a Vector>], local: u32) -> Option<&'a Vector>
    requires { local < length vectors.now }
    ensures { slice_get vectors.now local ≡ Some result }
{
    vectors[local as usize]
}

// Takes the cells of the value of a word, whose local has no kind where its function has no such local.
fn take_word(
    licence: &Licence,
    stack: &Stack,
    cells: &[Cell],
    func: &Func,
    bound: &Bound,
    vector: Option<&Vector>,
    marks: &mut CellMarks,
    due: &mut Vec<Due>,
) -> Result<Option<u128>, AllocError>
    requires homes { stack.now.homes ≡ homes_from 0 licence.now.code.types }
    requires many { length marks.old ≡ length cells.now }
    requires few { length cells.now ≤ inline_base }
    ensures word { IfOk result (WordIs licence.now.code.types cells.now (func_of func.now) (bound_of bound.now) (vector_of vector.entry) marks.old marks.new) }
    ensures many { length marks.new ≡ length marks.old }
    ensures range { IfOk result (IsAtMost (2 ^ 98)) }
{
    match func.kind_of(bound.local) {
        Some(kind) => take_value(
            marks,
            due,
            stack,
            &licence.code().types,
            cells,
            kind,
            bound.word,
            vector,
        ),
        None => Ok(None),
    }
}

// Takes the cells of the values of a frame's words, and adds up what they carry. Else the first local whose word has no
// value of its own.
#[tactic(auto, using(crate::proofs::Taking::words_first, crate::proofs::Taking::words_next, crate::proofs::Taking::word_fails, crate::proofs::Taking::words_all))]
fn take_words(
    licence: &Licence,
    stack: &Stack,
    cells: &[Cell],
    func: &Func,
    live: &[Bound],
    vectors: &[Option<&Vector>],
    marks: &mut CellMarks,
    due: &mut Vec<Due>,
) -> Result<Result<u128, u32>, AllocError>
    requires homes { stack.now.homes ≡ homes_from 0 licence.now.code.types }
    requires many { length marks.old ≡ length cells.now }
    requires few { length cells.now ≤ inline_base }
    requires small { AllByRecursion (λ b. b.local < length vectors.now) (plain_bounds live.now) }
    requires few_words { length live.now ≤ 256 }
    ensures words { (before : List ℕ) (f : plain.Frame) (carried : Carried ℕ)
        → Begins licence.now.code cells.now (func_of func.now) before f carried (map (λ o. option_map_or (λ v. v.now) o []) vectors.now) marks.old
        → IfOk result (WordsAre licence.now.code cells.now before f carried (plain_bounds live.now) marks.new) }
    ensures many { length marks.new ≡ length marks.old }
    ensures range { IfOk result (UnitsAtMost (256 * 2 ^ 98)) }
{
    let mut units = 0;
    'words: for number in 0..live.len() {
        let bound = &live[number];
        let vector = vector_at(vectors, bound.local);
        let answer = take_word(licence, stack, cells, func, bound, vector, marks, due)?;
        match answer {
            Some(more) => units += more,
            None => return Ok(Err(bound.local)),
        }
    }
    Ok(Ok(units))
}

// What the function of this number needs.
fn need_of(licence: &Licence, func: u32) -> u64
    ensures is { result ≡ (book_of licence.now.cert).need func }
    ensures few { result ≤ 1099511627776 }
{
    licence.kept();
    match own_at(licence, func as usize) {
        Some(own) => own.need,
        None => 0,
    }
}

// What it gives back.
fn back_of(licence: &Licence, func: u32) -> u64
    ensures is { result ≡ (book_of licence.now.cert).back func }
    ensures few { result ≤ 1099511627776 }
{
    licence.kept();
    match own_at(licence, func as usize) {
        Some(own) => own.back,
        None => 0,
    }
}

// The function that is called at this place of the block; the first one where none is.
fn callee_in(block: &Block, place: u32) -> u32
    ensures { result ≡ callee_in (block_of block.now) place }
{
    match let_in(block, place) {
        Some(each) => match &each.op {
            Op::Call { func, args: _ } => *func,
            _ => 0,
        },
        None => 0,
    }
}

// What a frame asks for beside what its values carry, which runs, or waits below the first of these: so much is left at
// its place.
fn asked_beside(licence: &Licence, block: &Block, place: u32, others: &[Frame], left: u64) -> u64
    requires { left ≤ 562949953421312 }
    ensures is { result ≡ asked_of licence.now (block_of block.now) place (plain_frames others.now) left }
    ensures few { result ≤ 564049465049088 }
{
    match others {
        [] => left,
        [next, ..] => {
            let callee = callee_in(block, place);
            let promised = back_of(licence, callee).saturating_sub(back_of(licence, next.func));
            left.saturating_sub(need_of(licence, callee)) + promised
        }
    }
}

// The function of a frame.
fn func_there<'a>(licence: &'a Licence, frame: &Frame) -> &'a Func
    requires { frame.now.func < length licence.now.code.funcs }
    ensures { slice_get licence.now.code.funcs frame.now.func ≡ Some (func_of result.now) }
{
    &licence.code().funcs[frame.func as usize]
}

// The block of a frame of this function.
fn block_there<'a>(func: &'a Func, frame: &Frame) -> &'a Block
    requires { frame.now.block < length (func_of func.now).blocks }
    ensures { slice_get (func_of func.now).blocks frame.now.block ≡ Some (block_of result.now) }
{
    &func.blocks[frame.block as usize]
}

// Takes the cells of the values of a frame, in front of these ones, and answers what it asks for. Else the first local
// whose word has no value of its own.
#[tactic(auto, using(crate::proofs::Taking::func_within, crate::proofs::Taking::block_within))]
fn take_frame<'a>(
    judge: &ImageJudge,
    licence: &'a Licence,
    stack: &Stack,
    cells: &[Cell],
    frame: &Frame,
    others: &[Frame],
    vectors: &mut [Option<&'a Vector>],
    marks: &mut CellMarks,
    due: &mut Vec<Due>,
) -> Result<Result<u128, u32>, AllocError>
    requires judge { IsJudgeOf licence.now judge.now }
    requires shaped { IsShaped licence.now (frame_of frame.now ∷ plain_frames others.now) }
    requires homes { stack.now.homes ≡ homes_from 0 licence.now.code.types }
    requires room { length vectors.old ≡ 256 }
    requires many { length marks.old ≡ length cells.now }
    requires few { length cells.now ≤ inline_base }
    ensures frame { (before : List ℕ) → AreMarkedBy (blank cells.now) before marks.old
        → IfOk result (FrameIs licence.now cells.now before (frame_of frame.now) (plain_frames others.now) marks.new) }
    ensures room { length vectors.new ≡ 256 }
    ensures many { length marks.new ≡ length marks.old }
    ensures range { IfOk result (UnitsAtMost (257 * 2 ^ 98)) }
{
    licence.kept();
    let func = func_there(licence, frame);
    let block = block_there(func, frame);
    let place = frame.place.saturating_sub(1);
    let left = judge
        .accounts
        .account_at(licence, frame.func, frame.block, place, vectors);
    let beside = asked_beside(licence, block, place, others, left);
    match take_words(
        licence,
        stack,
        cells,
        func,
        &frame.live,
        vectors,
        marks,
        due,
    )? {
        Ok(units) => Ok(Ok(units + beside as u128)),
        Err(local) => Ok(Err(local)),
    }
}

/// Takes the cells of all values of the frames, and adds up what the frames ask for. Else the first word that stands
/// for no value of its own.
#[tactic(auto, using(crate::proofs::Taking::frames_first, crate::proofs::Taking::frames_next, crate::proofs::Taking::frames_fail, crate::proofs::Taking::frames_all, crate::proofs::Taking::few_before))]
pub(crate) fn take_frames(
    alloc: Global,
    judge: &ImageJudge,
    licence: &Licence,
    stack: &Stack,
    cells: &[Cell],
    frames: &[Frame],
    marks: &mut CellMarks,
) -> Result<Result<u128, WordAt>, AllocError>
    requires judge { IsJudgeOf licence.now judge.now }
    requires shaped { AreShaped licence.now (plain_frames frames.now) }
    requires homes { stack.now.homes ≡ homes_from 0 licence.now.code.types }
    requires blank { marks.old ≡ blank cells.now }
    requires few { length cells.now ≤ inline_base }
    ensures frames { IfOk result (FramesAre licence.now cells.now (plain_frames frames.now) marks.new) }
    ensures many { length marks.new ≡ length cells.now }
{
    let mut due = Vec::new(alloc);
    let mut vectors: Vec<Option<&Vector>> = vec![in alloc; None; MOST_LOCALS]?;
    let mut asked = 0;
    'frames: for number in 0..frames.len() {
        let frame = &frames[number];
        let (_, others) = frames.split_at(number + 1);
        match take_frame(
            judge,
            licence,
            stack,
            cells,
            frame,
            others,
            &mut vectors,
            marks,
            &mut due,
        )? {
            Ok(more) => asked += more,
            Err(local) => {
                return Ok(Err(WordAt {
                    frame: number as u32,
                    local,
                }));
            }
        }
    }
    Ok(Ok(asked))
}

ghost use Rattle.std.specs.Prelude.{◌≡◌, map};
ghost use Rattle.normal_form.specs.Programs.{block_of};
ghost use Rattle.normal_form.specs.Live.{Marks, lets_live, term_live};
ghost use Rattle.grail_blocks.specs.Blocks.{arm_of, let_of, term_of};
ghost use Rattle.grail_blocks.specs.Events.{bound_by, taken};
ghost use Rattle.code_gen.specs.Marked.{IsMarked, arms_live, before_let, either_live, has, marks_at, told, unless_among, with_these};

use crate::local_set::LocalSet;
use grail_blocks::{CaseArm, CaseCell, Let, Op, Place, Term};
use normal_form::NormalBlock;

// Marks these locals.
#[tactic(auto, using(crate::proofs::Marking::marked_none, crate::proofs::Marking::marked_more, crate::proofs::Marking::marked_all))]
pub fn mark_all(marks: &mut LocalSet, locals: &[u32])
    ensures { (live : Marks) → IsMarked marks.old live → IsMarked marks.new (with_these locals.now live) }
{
    for local in locals {
        marks.insert(*local);
    }
}

// Takes the marks from these locals.
pub fn clear_all(marks: &mut LocalSet, locals: &[u32])
    ensures { (live : Marks) → IsMarked marks.old live → IsMarked marks.new (unless_among locals.now live) }
{
    for local in locals {
        marks.remove(*local);
    }
}

// Marks the diamond that a build takes.
fn mark_place(marks: &mut LocalSet, place: &Place)
    ensures { (live : Marks) → IsMarked marks.old live → IsMarked marks.new (with_these (taken place.now) live) }
{
    match place {
        Place::Reuse(diamond) => marks.insert(*diamond),
        Place::Inline | Place::New => {}
    }
}

// From what is live behind a let to what is live in front of it.
pub fn mark_let(marks: &mut LocalSet, l: &Let)
    ensures { (live : Marks) → IsMarked marks.old live → IsMarked marks.new (before_let (let_of l.now) live) }
{
    marks.remove(l.target);
    match &l.op {
        Op::Lit(_) | Op::Flag(_) => {}
        Op::Copy(local) => marks.insert(*local),
        Op::Prim { op: _, left, right } => {
            marks.insert(*right);
            marks.insert(*left);
        }
        Op::Make {
            con: _,
            args,
            place,
        } => {
            mark_place(marks, place);
            mark_all(marks, args);
        }
        Op::Call { func: _, args } => mark_all(marks, args),
    }
}

// From what is live behind lets to what is live in front of them.
pub fn mark_lets(marks: &mut LocalSet, lets: &[Let])
    ensures { (live : Marks) → IsMarked marks.old live → IsMarked marks.new (lets_live (map let_of lets.now) live) }
{
    let mut left = lets.len();
    while left > 0 {
        left -= 1;
        mark_let(marks, &lets[left]);
    }
}

// Of what is live at the beginning of a later block, what is live behind an arm that leads there.
fn behind_arm(later: LocalSet, arm: &CaseArm) -> LocalSet
    ensures { IsMarked result (unless_among (bound_by (arm_of arm.now)) (has later)) }
{
    let mut wanted = later;
    match arm.cell {
        CaseCell::Keep(diamond) => {
            wanted.remove(diamond);
            clear_all(&mut wanted, &arm.fields);
            wanted
        }
        CaseCell::Inline | CaseCell::Free | CaseCell::Look => {
            clear_all(&mut wanted, &arm.fields);
            wanted
        }
    }
}

// Marks what is live where an arm leads, but for what the arm binds.
pub fn mark_arm(marks: &mut LocalSet, arm: &CaseArm, later: LocalSet)
    ensures { (live : Marks) → IsMarked marks.old live → IsMarked marks.new (either_live (unless_among (bound_by (arm_of arm.now)) (has later)) live) }
{
    let wanted = behind_arm(later, arm);
    marks.join(wanted);
}

// The set of a later block; of a block that isn't later, no locals.
pub fn marks_of(later: &[LocalSet], count: usize, block: u32) -> LocalSet
    ensures { result ≡ marks_at later.now count block }
{
    let at = block as usize;
    if at < count && count - 1 - at < later.len() {
        return later[count - 1 - at];
    }
    LocalSet::new()
}

// What is live on some way on through these arms is marked.
fn mark_arms(marks: &mut LocalSet, arms: &[CaseArm], later: &[LocalSet], count: usize)
    ensures { (live : Marks) → IsMarked marks.old live → IsMarked marks.new (either_live (arms_live (told later.now count) (map arm_of arms.now)) live) }
{
    let mut left = arms.len();
    while left > 0 {
        left -= 1;
        let arm = &arms[left];
        mark_arm(marks, arm, marks_of(later, count, arm.target));
    }
}

// What is live in front of the end of a block is marked.
pub fn mark_term(marks: &mut LocalSet, term: &Term, later: &[LocalSet], count: usize)
    ensures { (live : Marks) → IsMarked marks.old live → IsMarked marks.new (either_live (term_live (told later.now count) (term_of term.now)) live) }
{
    match term {
        Term::Ret(local) => marks.insert(*local),
        Term::Tail { func: _, args } => mark_all(marks, args),
        Term::Goto(block) => marks.join(marks_of(later, count, *block)),
        Term::If { cond, yes, no } => {
            marks.join(marks_of(later, count, *no));
            marks.join(marks_of(later, count, *yes));
            marks.insert(*cond);
        }
        Term::Case { on, arms } => {
            mark_arms(marks, arms, later, count);
            marks.insert(*on);
        }
    }
}

// What is live at the beginning of a block is marked, where nothing was.
pub fn mark_block(marks: &mut LocalSet, block: &NormalBlock, later: &[LocalSet], count: usize)
    ensures { (live : Marks) → IsMarked marks.old live
        → IsMarked marks.new (lets_live (block_of block.now).lets
        (either_live (term_live (told later.now count) (block_of block.now).term) live)) }
{
    mark_term(marks, &block.term, later, count);
    mark_lets(marks, &block.lets);
}

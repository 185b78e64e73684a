//! Which locals are ready at a place, as a mark for each.
ghost use Rattle.std.specs.Prelude.{◌≡◌, true, false, length, map, slice_get, slice_set, replicate, take};
ghost use Rattle.std.specs.Option.{option_map};
ghost use Rattle.camelot_values.specs.Kinds.{DataType};
ghost use Rattle.grail_blocks.specs.Events.{Bind, Use, argument_events, let_events, uses_of};
ghost use Rattle.grail_code.specs.Code.{block_of, code_of, func_of, let_of, op_of};
ghost use Rattle.grail_code.specs.WellFormed.{reads_of};
ghost use Rattle.frame_locals.specs.Marking.{AreMarks, marks_after, marks_behind, use_mark};
ghost use Rattle.frame_locals.specs.Places.{ready_at, waits_at};
ghost use Rattle.frame_locals.specs.Tables.{table_of};

use crate::table::LocalTable;
use grail_code::{Block, Code, Func, Let, Op, Place};

// The local is bound anew, where it is there.
#[tactic(auto, using(std::proofs::lemmas::List::set_past))]
fn bind(marks: &mut [bool], local: u32)
    ensures { marks.new ≡ slice_set marks.old local true }
{
    let place = local as usize;
    if place < marks.len() {
        marks[place] = true;
    }
}

// The local is used: it is spent where it is owned.
#[tactic(auto, using(std::proofs::lemmas::List::set_past))]
fn use_local(owned: &[bool], marks: &mut [bool], local: u32)
    ensures { marks.new ≡ use_mark owned.now marks.old local }
{
    let place = local as usize;
    if let Some(true) = owned.get(place) {
        if place < marks.len() {
            marks[place] = false;
        }
    }
}

// These locals are bound anew.
fn bind_all(owned: &[bool], marks: &mut [bool], locals: &[u32])
    ensures { marks.new ≡ marks_after owned.now marks.old (map Bind locals.now) }
{
    let _ = owned;
    'locals: for local in locals {
        bind(marks, *local);
    }
}

// These locals are used.
fn use_all(owned: &[bool], marks: &mut [bool], locals: &[u32])
    ensures { marks.new ≡ marks_after owned.now marks.old (map Use locals.now) }
{
    'locals: for local in locals {
        use_local(owned, marks, *local);
    }
}

// A call uses the arguments that it takes; where the marks of its parameters end, it takes all further ones.
fn use_taken(owned: &[bool], marks: &mut [bool], reads: &[bool], args: &[u32])
    ensures { marks.new ≡ marks_after owned.now marks.old (argument_events reads.now args.now) }
{
    let mut of = reads;
    let mut left = args;
    'taken: while let [arg, others @ ..] = left {
        match of {
            [] => use_local(owned, marks, *arg),
            [read, further @ ..] => {
                if !*read {
                    use_local(owned, marks, *arg);
                }
                of = further;
            }
        }
        left = others;
    }
}

// The operands of a let are used.
#[tactic(auto, using(crate::specs::MarkingLaws::used_both))]
fn use_op(code: &Code, owned: &[bool], marks: &mut [bool], op: &Op)
    ensures { marks.new ≡ marks_after owned.now marks.old (uses_of (reads_of (code_of code.now)) (op_of op.now)) }
{
    match op {
        Op::Lit(_) | Op::Flag(_) => {}
        Op::Copy(local) => use_local(owned, marks, *local),
        Op::Prim { left, right, .. } => {
            use_local(owned, marks, *left);
            use_local(owned, marks, *right);
        }
        Op::Make { args, place, .. } => {
            use_all(owned, marks, args);
            if let Place::Reuse(diamond) = place {
                use_local(owned, marks, *diamond);
            }
        }
        Op::Call { func, args } => match code.funcs.get(*func as usize) {
            Some(callee) => use_taken(owned, marks, &callee.reads, args),
            None => use_taken(owned, marks, &[], args),
        },
    }
}

// A let uses its operands and binds its local.
#[tactic(auto, using(crate::specs::MarkingLaws::events_both))]
fn pass_let(code: &Code, owned: &[bool], marks: &mut [bool], each: &Let)
    ensures { marks.new ≡ marks_after owned.now marks.old (let_events (reads_of (code_of code.now)) (let_of each.now)) }
{
    use_op(code, owned, marks, &each.op);
    bind(marks, each.target);
}

// These lets, one after the other.
fn pass_lets(code: &Code, owned: &[bool], marks: &mut [bool], lets: &[Let])
    ensures { marks.new ≡ marks_behind (reads_of (code_of code.now)) owned.now marks.old (map let_of lets.now) }
{
    'lets: for each in lets {
        pass_let(code, owned, marks, each);
    }
}

// No local is ready.
fn mark_none(marks: &mut [bool])
    ensures { marks.new ≡ replicate (length marks.old) false }
{
    marks.fill(false);
}

// The parameters of a block, and its lets in front of a place.
#[tactic(auto, using(crate::proofs::TableLaws::front_of))]
fn mark_block(code: &Code, owned: &[bool], marks: &mut [bool], block: &Block, place: u32)
    ensures { marks.new ≡ marks_behind (reads_of (code_of code.now)) owned.now
        (marks_after owned.now (replicate (length marks.old) false) (map Bind (block_of block.now).params)) (take place (block_of block.now).lets) }
{
    mark_none(marks);
    bind_all(owned, marks, &block.params);
    let lets: &[Let] = &block.lets;
    match lets.get(..place as usize) {
        Some(front) => pass_lets(code, owned, marks, front),
        None => pass_lets(code, owned, marks, lets),
    }
}

// The function of this number, where there is one.
fn func_at(code: &Code, func: u32) -> Option<&Func>
    ensures { option_map (λ f. func_of f.now) result ≡ slice_get (code_of code.now).funcs func }
{
    code.funcs.get(func as usize)
}

// Its block of this number, where there is one.
fn block_in(func: &Func, block: u32) -> Option<&Block>
    ensures { option_map (λ b. block_of b.now) result ≡ slice_get (func_of func.now).blocks block }
{
    func.blocks.get(block as usize)
}

// The let at this place of a block, where there is one.
fn let_in(block: &Block, place: u32) -> Option<&Let>
    ensures { option_map (λ l. let_of l.now) result ≡ slice_get (block_of block.now).lets place }
{
    block.lets.get(place as usize)
}

impl LocalTable {
    /// Marks which locals of a function are ready at a place of a block. There are marks for as many locals as there
    /// are marks; nothing is ready where there is no such block. It takes no memory, and time by the lets before.
    pub fn mark_ready(&self, code: &Code, func: u32, block: u32, place: u32, marks: &mut [bool])
        requires { self.now ≡ table_of (code_of code.now) }
        // As many marks are there as before.
        ensures count { length marks.new ≡ length marks.old }
        // Each says whether its local is ready.
        ensures marks { AreMarks (ready_at (code_of code.now) func block place) marks.new }
    {
        match func_at(code, func) {
            Some(of) => match block_in(of, block) {
                Some(at) => mark_block(code, self.owned(code, func), marks, at, place),
                None => mark_none(marks),
            },
            None => mark_none(marks),
        }
    }

    /// The same once the operands of the let that stands there are used, as where a frame waits for a call.
    pub fn mark_waiting(&self, code: &Code, func: u32, block: u32, place: u32, marks: &mut [bool])
        requires { self.now ≡ table_of (code_of code.now) }
        // As many marks are there as before.
        ensures count { length marks.new ≡ length marks.old }
        // Each says whether its local is ready then.
        ensures marks { AreMarks (waits_at (code_of code.now) func block place) marks.new }
    {
        match func_at(code, func) {
            Some(of) => match block_in(of, block) {
                Some(at) => {
                    let owned = self.owned(code, func);
                    mark_block(code, owned, marks, at, place);
                    match let_in(at, place) {
                        Some(each) => use_op(code, owned, marks, &each.op),
                        None => {}
                    }
                }
                None => mark_none(marks),
            },
            None => mark_none(marks),
        }
    }
}
